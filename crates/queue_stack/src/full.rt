// A full tree: its top, and two halves of one size.
ghost use Rattle.std.specs.Prelude.{◌≡◌, ◌<◌, ◌+◌, ◌^◌, ◌∷◌, ◌++◌, [], length, slice_get, drop, IfOk, IfSome, IfNone, OnOk, Some};
ghost use Rattle.std.specs.Option.{option_copied};

use imm_base::{Dup, Memory};
use std::alloc::Global;
use std::marker::Model;
use std::sync::Arc;

/// A full tree of shared nodes: contracts see its elements, from the top on. With 2^k - 1 elements it
/// is k high, so it is dropped k calls deep.
#[cycle(full)]
#[derive(Drop)]
pub(crate) struct Full<T> {
    node: Arc<Node<T>, Global>,
}

#[cycle(full)]
#[derive(Drop)]
pub(crate) struct Node<T> {
    value: T,
    halves: Halves<T>,
    size: u64,
}

#[cycle(full)]
#[derive(Drop)]
pub(crate) enum Halves<T> {
    Leaf,
    Fork(Full<T>, Full<T>),
}

impl<T> Model for Full<T> {
    ghost use Rattle.std.specs.Prelude.{List, ◌∷◌, length};

    ghost Value = { List T };

    ghost use Rattle.queue_stack.specs.Full.{halves_items, IsFull};

    ghost view = { λ a. a.node.value.value ∷ halves_items a.node.value.halves };

    ghost invariant = { λ a. IsFull a.node.value.value a.node.value.halves a.node.value.size };

    ghost size = { length };

    ghost use Rattle.std.proofs.Common.{arith, length-append};

    ghost size_decreases = { λ a h. Prim.grind (arith, length-append) };
}

impl<T: Drop> Full<T> {
    /// A tree of one element.
    pub(crate) fn leaf(alloc: Global, value: T) -> Result<Full<T>, Memory>
        ensures { IfOk result (λ t. t ≡ value ∷ []) }
    {
        let node = Node {
            value,
            halves: Halves::Leaf,
            size: 1,
        };
        let node = Arc::new(alloc, node)?;
        Ok(Full { node })
    }

    /// A tree of a top and two halves.
    pub(crate) fn fork(
        alloc: Global,
        value: T,
        left: Full<T>,
        right: Full<T>,
    ) -> Result<Full<T>, Memory>
        requires level { length left ≡ length right }
        requires room { length left + length right + 1 < 2 ^ 64 }
        ensures { IfOk result (λ t. t ≡ value ∷ (left ++ right)) }
    {
        let size = left.size() + 1 + right.size();
        let node = Node {
            value,
            halves: Halves::Fork(left, right),
            size,
        };
        let node = Arc::new(alloc, node)?;
        Ok(Full { node })
    }
}

impl<T> Full<T> {
    /// How many elements there are.
    pub(crate) fn size(&self) -> u64
        ensures size { result ≡ length self.now }
        ensures some { 0 < result }
    {
        self.node.size
    }

    /// The first element.
    pub(crate) fn top(&self) -> &T
        ensures { slice_get self.now 0 ≡ Some result.now }
    {
        &self.node.value
    }

    /// The element at `index`.
    pub(crate) fn at(&self, index: u64) -> Option<&T>
        ensures { option_copied result ≡ slice_get self.now index }
    {
        let node: &Node<T> = &self.node;
        if index == 0 {
            return Some(&node.value);
        }
        match &node.halves {
            Halves::Leaf => None,
            Halves::Fork(left, right) => {
                let size = left.size();
                if index <= size {
                    left.at(index - 1)
                } else {
                    right.at(index - 1 - size)
                }
            }
        }
    }

    /// A further owner of the same nodes.
    pub(crate) fn share(&self) -> Result<Full<T>, Memory>
        ensures { IfOk result (λ t. t ≡ self.now) }
    {
        let node = Arc::try_clone(&self.node)?;
        Ok(Full { node })
    }
}

impl<T: Drop> Full<T> {
    /// The halves, if there are any.
    pub(crate) fn opened(&self) -> Result<Option<(Full<T>, Full<T>)>, Memory>
        ensures none { IfOk result (λ o. IfNone o (drop 1 self.now ≡ [])) }
        ensures some { IfOk result (λ o. IfSome o (λ p. drop 1 self.now ≡ p.0 ++ p.1)) }
    {
        let node: &Node<T> = &self.node;
        match &node.halves {
            Halves::Leaf => Ok(None),
            Halves::Fork(left, right) => {
                let left = left.share()?;
                let right = right.share()?;
                Ok(Some((left, right)))
            }
        }
    }
}

impl<T: Dup> Full<T> {
    /// Puts copies of the elements behind those of `into`.
    pub(crate) fn copy_into(&self, alloc: Global, into: &mut Vec<T>) -> Result<(), Memory>
        ensures { OnOk result (into.new.items ≡ into.old.items ++ self.now) }
    {
        let node: &Node<T> = &self.node;
        into.push(node.value.dup(alloc)?)?;
        match &node.halves {
            Halves::Leaf => Ok(()),
            Halves::Fork(left, right) => {
                left.copy_into(alloc, into)?;
                right.copy_into(alloc, into)
            }
        }
    }
}
