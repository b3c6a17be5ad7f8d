// The elements as a list.
ghost use Rattle.std.specs.Prelude.{◌≡◌, ◌++◌, IfOk, OnOk};
ghost use Rattle.imm_base.specs.Lists.{sorted};

use crate::tree::HashTree;
use imm_base::{Dup, HashEq, Key, Memory};
use std::alloc::Global;

impl<T: Key, H: HashEq<T>> HashTree<T, H> {
    /// Copies of the elements, by hash and then in their own order, in O(n).
    pub fn to_list(&self, alloc: Global) -> Result<Vec<T>, Memory>
        ensures { IfOk result (λ v. v.items ≡ self.now.items) }
    {
        let buckets = self.tree().to_vec(alloc)?;
        let mut copies = Vec::new(alloc);
        for bucket in &buckets {
            push_copies(&mut copies, bucket.items(), alloc)?;
        }
        Ok(copies)
    }

    /// Copies of the elements, in their own order, in O(n log n).
    pub fn in_own_order(&self, alloc: Global) -> Result<Vec<T>, Memory>
        ensures { IfOk result (λ v. v.items ≡ sorted T.cmp self.now.items) }
    {
        let mut values = self.to_list(alloc)?;
        values.sort()?;
        Ok(values)
    }
}

// Copies of the items, put behind those that are there.
fn push_copies<T: Dup>(copies: &mut Vec<T>, items: &[T], alloc: Global) -> Result<(), Memory>
    ensures { OnOk result (copies.new.items ≡ copies.old.items ++ items.now) }
{
    for item in items {
        copies.push(item.dup(alloc)?)?;
    }
    Ok(())
}
