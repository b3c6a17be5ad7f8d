// A queue: a front, and a back that is turned round when the front is used up.
ghost use Rattle.std.specs.Prelude.{◌≡◌, ◌≤◌, ◌<◌, ◌+◌, ◌^◌, [], Ok, Some, IfOk, OnOk, MatchResult, length, reverse, slice_get, ◌++◌};
ghost use Rattle.imm_base.specs.Lists.{clear, queue_enqueue, remove_first};
ghost use Rattle.queue_stack.specs.Answers.{Answers};

use crate::fault::EndFault;
use crate::skew::SkewList;
use imm_base::{Dup, Edit, LIMIT, Memory};
use std::alloc::Global;
use std::marker::Model;

/// A persistent queue of at most `LIMIT` elements: contracts see them from the front on. Two queues
/// may share nodes, also in different threads.
///
/// A changing call answers `Edit::Same` where the queue stays as it is, and otherwise another queue;
/// this one stays in any case. The front is empty only where the whole queue is, so that `peek` finds
/// it there.
#[derive(Drop)]
pub struct ImmQueue<T> {
    front: SkewList<T>,
    back: SkewList<T>,
}

impl<T> Model for ImmQueue<T> {
    ghost use Rattle.std.specs.Prelude.{List, ◌++◌, reverse};
    ghost use Rattle.std.specs.Coded.{coded_list};
    ghost use Rattle.queue_stack.specs.Ends.{AreEnds};

    ghost Value = { List T };

    ghost coded = { coded_list T.code };

    ghost view = { λ a. a.front ++ reverse a.back };

    ghost invariant = { λ a. AreEnds a.front a.back };
}

impl<T> ImmQueue<T> {
    /// The empty queue. O(1).
    pub fn new() -> ImmQueue<T>
        ensures { result ≡ [] }
    {
        ImmQueue {
            front: SkewList::new(),
            back: SkewList::new(),
        }
    }

    /// How many elements there are. O(1).
    pub fn count(&self) -> u32
        ensures count { result ≡ length self.now }
        ensures short { length self.now ≤ LIMIT }
    {
        (self.front.count() + self.back.count()) as u32
    }

    /// The front. O(1).
    pub fn peek(&self) -> Result<&T, EndFault>
        ensures { MatchResult result (λ front. slice_get self.now 0 ≡ Some front.now) (λ fault. (fault ≡ EndFault.Empty) × (self.now ≡ [])) }
    {
        match self.front.first() {
            Some(first) => Ok(first),
            None => Err(EndFault::Empty),
        }
    }
}

impl<T: Drop> ImmQueue<T> {
    /// An equal queue that shares the nodes. O(1).
    pub fn share(&self) -> Result<ImmQueue<T>, Memory>
        ensures { IfOk result (λ queue. queue ≡ self.now) }
    {
        let front = self.front.share()?;
        let back = self.back.share()?;
        Ok(ImmQueue { front, back })
    }

    /// The queue with the value at its back. O(1).
    pub fn enqueue(&self, alloc: Global, value: T) -> Result<Edit<ImmQueue<T>>, EndFault>
        ensures { Answers result (queue_enqueue value self.now) }
    {
        let count = self.count();
        if count >= LIMIT {
            return Err(EndFault::TooLarge { count });
        }
        if count == 0 {
            let front = self.front.push(alloc, value)?;
            return Ok(Edit::New(ImmQueue {
                front,
                back: SkewList::new(),
            }));
        }
        let front = self.front.share()?;
        let back = self.back.push(alloc, value)?;
        Ok(Edit::New(ImmQueue { front, back }))
    }

    /// The empty queue. O(1).
    #[tactic(auto, using(crate::proofs::Ends::ends))]
    pub fn clear(&self) -> Edit<ImmQueue<T>>
        ensures { Answers (Ok result) (clear self.now) }
    {
        if self.count() == 0 {
            Edit::Same
        } else {
            Edit::New(ImmQueue::new())
        }
    }
}

impl<T: Dup> ImmQueue<T> {
    /// The queue without its front. O(1), and O(n) where the front is used up and the n elements behind it
    /// are turned round.
    #[tactic(auto, using(crate::proofs::Ends::ends))]
    pub fn dequeue(&self, alloc: Global) -> Result<Edit<ImmQueue<T>>, EndFault>
        ensures { Answers result (remove_first self.now) }
    {
        if self.count() == 0 {
            return Err(EndFault::Empty);
        }
        let front = self.front.rest(alloc)?;
        if front.count() == 0 {
            let front = reversed(alloc, &self.back)?;
            return Ok(Edit::New(ImmQueue {
                front,
                back: SkewList::new(),
            }));
        }
        let back = self.back.share()?;
        Ok(Edit::New(ImmQueue { front, back }))
    }

    /// Copies of the elements, from the front to the back. O(n).
    pub fn to_vec(&self, alloc: Global) -> Result<Vec<T>, Memory>
        ensures { IfOk result (λ v. v.items ≡ self.now) }
    {
        let mut values = self.front.to_vec(alloc)?;
        let mut behind = self.back.to_vec(alloc)?;
        behind.reverse();
        values.append(&mut behind)?;
        Ok(values)
    }
}

// The list turned round.
fn reversed<T: Dup>(alloc: Global, list: &SkewList<T>) -> Result<SkewList<T>, Memory>
    requires { length list.now < 2 ^ 46 }
    ensures { IfOk result (λ turned. turned ≡ reverse list.now) }
{
    let mut turned = SkewList::new();
    for value in list.to_vec(alloc)? {
        turned = turned.push(alloc, value)?;
    }
    Ok(turned)
}
