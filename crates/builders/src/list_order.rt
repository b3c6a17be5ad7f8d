// A list that is built, in an order.
ghost use Rattle.std.specs.Prelude.{◌≡◌, false, not};
ghost use Rattle.imm_base.specs.Lists.{is_unsorted, list_sort, search_place};
ghost use Rattle.builders.specs.Changes.{CanCount};
ghost use Rattle.builders.specs.Lists.{Changes};

use crate::list::ListBuilder;
use imm_base::{Item, Order, Step};
use imm_list::ListFault;
use std::alloc::Global;

impl<T: Item> ListBuilder<T> {
    /// Whether no element is greater than the next. O(n).
    pub fn is_sorted<O: Order<T>>(&self, order: &O) -> bool
        ensures { result ≡ not (is_unsorted (O.order order.now) self.now.contents) }
    {
        self.link().is_sorted(order)
    }

    /// The place of the first element that compares equal to the value, or `-k - 1` where there is
    /// none and `k` elements are less. O(log n).
    pub fn binary_search<O: Order<T>>(&self, value: &T, order: &O) -> i64
        requires { is_unsorted (O.order order.now) self.now.contents ≡ false }
        ensures { result ≡ search_place (O.order order.now) value.now self.now.contents }
    {
        match self.link().search_by(value, order) {
            Ok(place) => i64::from(place),
            Err(place) => -1 - i64::from(place),
        }
    }

    /// Puts the elements in order. Those that compare equal stay as they stood to each other.
    /// O(n log n).
    pub fn sort<O: Order<T>>(&mut self, alloc: Global, order: &O) -> Result<Step, ListFault>
        requires { CanCount self.old }
        ensures { Changes result (list_sort (O.order order.now) self.old.contents)
            self.old self.new }
    {
        let edit = self.to_immutable(alloc)?.sort(alloc, order)?;
        Ok(self.adopt(edit)?)
    }
}
