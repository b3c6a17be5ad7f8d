// Full trees in a row: the first two may be of one size, and behind them each is larger than the one
// before it.
ghost use Rattle.std.specs.Prelude.{◌≡◌, ◌<◌, ◌≤◌, ◌+◌, ◌^◌, ◌∷◌, ◌++◌, [], length, slice_get, drop, IfOk, IfNone, OnOk};
ghost use Rattle.std.specs.Option.{option_copied};

use crate::full::Full;
use imm_base::{Dup, Memory};
use std::alloc::Global;
use std::marker::Model;
use std::sync::Arc;

/// A persistent list that grows and shrinks at its front, of at most 2^46 elements. Two lists may
/// share nodes, also in different threads.
///
/// It has at most 47 trees, each at most 46 high, and is dropped as deep as these numbers; no clause
/// says so.
#[cycle(skew)]
#[derive(Drop)]
pub struct SkewList<T> {
    front: Front<T>,
}

#[cycle(skew)]
#[derive(Drop)]
pub(crate) enum Front<T> {
    Empty,
    More(Arc<Spine<T>, Global>),
}

#[cycle(skew)]
#[derive(Drop)]
pub(crate) struct Spine<T> {
    tree: Full<T>,
    rest: SkewList<T>,
    count: u64,
}

impl<T> Model for SkewList<T> {
    ghost use Rattle.std.specs.Prelude.{List, length};

    ghost Value = { List T };

    ghost use Rattle.queue_stack.specs.Skew.{front_items, IsFrontCounted};

    ghost view = { λ a. front_items a.front };

    ghost invariant = { λ a. IsFrontCounted a.front };

    ghost size = { length };

    ghost use Rattle.std.proofs.Common.{arith, length-append};

    ghost size_decreases = { λ a h. Prim.grind (arith, length-append) };
}

impl<T> SkewList<T> {
    /// The empty list. O(1).
    pub fn new() -> SkewList<T>
        ensures { result ≡ [] }
    {
        SkewList {
            front: Front::Empty,
        }
    }

    /// How many elements there are. O(1).
    pub fn count(&self) -> u64
        ensures count { result ≡ length self.now }
        ensures few { length self.now ≤ 2 ^ 46 }
    {
        match &self.front {
            Front::Empty => 0,
            Front::More(spine) => spine.count,
        }
    }

    /// The first element. O(1).
    pub fn first(&self) -> Option<&T>
        ensures first { option_copied result ≡ slice_get self.now 0 }
        ensures none { IfNone result (self.now ≡ []) }
    {
        match &self.front {
            Front::Empty => None,
            Front::More(spine) => Some(spine.tree.top()),
        }
    }

    /// The element at `index`. O(log n).
    pub fn at(&self, index: u64) -> Option<&T>
        ensures { option_copied result ≡ slice_get self.now index }
    {
        match &self.front {
            Front::Empty => None,
            Front::More(spine) => {
                let size = spine.tree.size();
                if index < size {
                    spine.tree.at(index)
                } else {
                    spine.rest.at(index - size)
                }
            }
        }
    }

    /// An equal list that shares the nodes. O(1).
    pub fn share(&self) -> Result<SkewList<T>, Memory>
        ensures { IfOk result (λ l. l ≡ self.now) }
    {
        match &self.front {
            Front::Empty => Ok(SkewList::new()),
            Front::More(spine) => {
                let spine = Arc::try_clone(spine)?;
                Ok(SkewList {
                    front: Front::More(spine),
                })
            }
        }
    }
}

// A tree before a list.
fn cons<T: Drop>(alloc: Global, tree: Full<T>, rest: SkewList<T>) -> Result<SkewList<T>, Memory>
    requires { length tree + length rest ≤ 2 ^ 46 }
    ensures { IfOk result (λ l. l ≡ tree ++ rest) }
{
    let count = tree.size() + rest.count();
    let spine = Spine { tree, rest, count };
    let spine = Arc::new(alloc, spine)?;
    Ok(SkewList {
        front: Front::More(spine),
    })
}

impl<T: Drop> SkewList<T> {
    /// The list with the value before it. O(1), in one or two nodes.
    pub fn push(&self, alloc: Global, value: T) -> Result<SkewList<T>, Memory>
        requires { length self.now < 2 ^ 46 }
        ensures { IfOk result (λ l. l ≡ value ∷ self.now) }
    {
        if let Front::More(spine) = &self.front {
            let first: &Spine<T> = spine;
            let rest: &SkewList<T> = &first.rest;
            if let Front::More(spine) = &rest.front {
                let second: &Spine<T> = spine;
                if first.tree.size() == second.tree.size() {
                    let left = first.tree.share()?;
                    let right = second.tree.share()?;
                    let tree = Full::fork(alloc, value, left, right)?;
                    return cons(alloc, tree, second.rest.share()?);
                }
            }
        }
        let tree = Full::leaf(alloc, value)?;
        cons(alloc, tree, self.share()?)
    }

    /// The list without its first element; of the empty list the empty list. O(1).
    pub fn rest(&self, alloc: Global) -> Result<SkewList<T>, Memory>
        ensures { IfOk result (λ l. l ≡ drop 1 self.now) }
    {
        match &self.front {
            Front::Empty => Ok(SkewList::new()),
            Front::More(spine) => {
                let first: &Spine<T> = spine;
                let _count = self.count();
                let behind = first.rest.share()?;
                match first.tree.opened()? {
                    Some((left, right)) => {
                        let behind = cons(alloc, right, behind)?;
                        cons(alloc, left, behind)
                    }
                    None => Ok(behind),
                }
            }
        }
    }
}

impl<T: Dup> SkewList<T> {
    /// Copies of the elements. O(n).
    pub fn to_vec(&self, alloc: Global) -> Result<Vec<T>, Memory>
        ensures { IfOk result (λ v. v.items ≡ self.now) }
    {
        let mut values = Vec::new(alloc);
        self.copy_into(alloc, &mut values)?;
        Ok(values)
    }

    // Puts copies of the elements behind those of `into`.
    fn copy_into(&self, alloc: Global, into: &mut Vec<T>) -> Result<(), Memory>
        ensures { OnOk result (into.new.items ≡ into.old.items ++ self.now) }
    {
        match &self.front {
            Front::Empty => Ok(()),
            Front::More(spine) => {
                spine.tree.copy_into(alloc, into)?;
                spine.rest.copy_into(alloc, into)
            }
        }
    }
}
