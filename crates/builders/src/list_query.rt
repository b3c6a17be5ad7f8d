// Questions about a list that is built.
ghost use Rattle.std.specs.Prelude.{◌≡◌, ◌<◌, ◌≤◌, length, position, slice_get, Some, IfSome, MatchResult};
ghost use Rattle.std.specs.List.{list_any};
ghost use Rattle.imm_base.specs.Lists.{last_position};

use crate::equal::EqualTo;
use crate::list::ListBuilder;
use imm_base::Item;
use imm_list::ListFault;

impl<T: Item> ListBuilder<T> {
    /// The element at `index`. O(log n).
    pub fn get(&self, index: u32) -> Result<&T, ListFault>
        ensures { MatchResult result (λ x. slice_get self.now.contents index ≡ Some x.now)
            (λ fault. (fault ≡ ListFault.OutOfRange index (length self.now.contents)) ×
            (length self.now.contents ≤ index)) }
    {
        match self.link().at(index) {
            Some(value) => Ok(value),
            None => Err(ListFault::OutOfRange {
                index,
                count: self.count(),
            }),
        }
    }

    /// The place of the first element that equals the value. O(n).
    pub fn index_of(&self, value: &T) -> Option<u32>
        ensures place { result ≡ position (λ x. T.eq x value.now) self.now.contents }
        ensures within { IfSome result (λ place. place < length self.now.contents) }
    {
        self.link().position(&EqualTo { value })
    }

    /// The place of the last element that equals the value. O(n).
    pub fn last_index_of(&self, value: &T) -> Option<u32>
        ensures { result ≡ last_position (λ x. T.eq x value.now) self.now.contents }
    {
        self.link().last_position(&EqualTo { value })
    }

    /// Whether some element equals the value. O(n).
    pub fn contains(&self, value: &T) -> bool
        ensures { result ≡ list_any (λ x. T.eq x value.now) self.now.contents }
    {
        self.link().any(&EqualTo { value })
    }
}
