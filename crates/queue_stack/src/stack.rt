// A stack, its top first.
ghost use Rattle.std.specs.Prelude.{◌≡◌, ◌≤◌, [], Ok, Some, IfOk, MatchResult, length, slice_get};
ghost use Rattle.imm_base.specs.Lists.{clear, remove_first, stack_push};
ghost use Rattle.queue_stack.specs.Answers.{Answers};

use crate::fault::EndFault;
use crate::skew::SkewList;
use imm_base::{Dup, Edit, LIMIT, Memory};
use std::alloc::Global;
use std::marker::Model;

/// A persistent stack of at most `LIMIT` elements: contracts see them from the top on. Two stacks may
/// share nodes, also in different threads.
///
/// A changing call answers `Edit::Same` where the stack stays as it is, and otherwise another stack;
/// this one stays in any case.
#[derive(Drop)]
pub struct ImmStack<T> {
    items: SkewList<T>,
}

impl<T> Model for ImmStack<T> {
    ghost use Rattle.std.specs.Prelude.{List};
    ghost use Rattle.std.specs.Coded.{coded_list};
    ghost use Rattle.imm_base.specs.Kept.{IsShort};

    ghost Value = { List T };

    ghost coded = { coded_list T.code };

    ghost view = { λ a. a.items };

    ghost invariant = { λ a. IsShort a.items };
}

impl<T> ImmStack<T> {
    /// The empty stack. O(1).
    pub fn new() -> ImmStack<T>
        ensures { result ≡ [] }
    {
        ImmStack {
            items: SkewList::new(),
        }
    }

    /// How many elements there are. O(1).
    pub fn count(&self) -> u32
        ensures count { result ≡ length self.now }
        ensures short { length self.now ≤ LIMIT }
    {
        self.items.count() as u32
    }

    /// The top. O(1).
    pub fn peek(&self) -> Result<&T, EndFault>
        ensures { MatchResult result (λ top. slice_get self.now 0 ≡ Some top.now) (λ fault. (fault ≡ EndFault.Empty) × (self.now ≡ [])) }
    {
        match self.items.first() {
            Some(top) => Ok(top),
            None => Err(EndFault::Empty),
        }
    }

    /// An equal stack that shares the nodes. O(1).
    pub fn share(&self) -> Result<ImmStack<T>, Memory>
        ensures { IfOk result (λ stack. stack ≡ self.now) }
    {
        let items = self.items.share()?;
        Ok(ImmStack { items })
    }
}

impl<T: Drop> ImmStack<T> {
    /// The stack with the value on top. O(1).
    pub fn push(&self, alloc: Global, value: T) -> Result<Edit<ImmStack<T>>, EndFault>
        ensures { Answers result (stack_push value self.now) }
    {
        let count = self.count();
        if count >= LIMIT {
            return Err(EndFault::TooLarge { count });
        }
        let items = self.items.push(alloc, value)?;
        Ok(Edit::New(ImmStack { items }))
    }

    /// The stack without its top. O(1).
    #[tactic(auto, using(crate::proofs::Ends::ends))]
    pub fn pop(&self, alloc: Global) -> Result<Edit<ImmStack<T>>, EndFault>
        ensures { Answers result (remove_first self.now) }
    {
        if self.count() == 0 {
            return Err(EndFault::Empty);
        }
        let items = self.items.rest(alloc)?;
        Ok(Edit::New(ImmStack { items }))
    }

    /// The empty stack. O(1).
    #[tactic(auto, using(crate::proofs::Ends::ends))]
    pub fn clear(&self) -> Edit<ImmStack<T>>
        ensures { Answers (Ok result) (clear self.now) }
    {
        if self.count() == 0 {
            Edit::Same
        } else {
            Edit::New(ImmStack::new())
        }
    }
}

impl<T: Dup> ImmStack<T> {
    /// Copies of the elements, from the top to the bottom. O(n).
    pub fn to_vec(&self, alloc: Global) -> Result<Vec<T>, Memory>
        ensures { IfOk result (λ v. v.items ≡ self.now) }
    {
        self.items.to_vec(alloc)
    }
}
