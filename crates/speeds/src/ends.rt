// Stacks and queues, whose calls reach one end alone.
use crate::measured::{Measured, changed, other, sum_of_all, value_behind, value_of};
use crate::row::Row;
use imm_base::Val;
use queue_stack::{ImmQueue, ImmStack};
use std::alloc::Global;

impl Measured for ImmStack<Val> {
    const NAME: &'static str = "stack";

    fn build(alloc: Global, values: &[Val]) -> Option<Self> {
        let mut stack = ImmStack::new();
        for value in values {
            stack = other(stack.push(alloc, *value))?;
        }
        Some(stack)
    }

    fn call(&mut self, alloc: Global, row: Row, number: u32) -> Option<u64> {
        match row {
            Row::Add => changed(self.push(alloc, value_behind(number))),
            Row::LookUp => Some(u64::from(self.peek().is_ok())),
            Row::Remove => changed(self.pop(alloc)),
            Row::Iterate => sum_of_all(self.to_vec(alloc)),
            _ => None,
        }
    }
}

impl Measured for ImmQueue<Val> {
    const NAME: &'static str = "queue";

    // One value more is taken out again: then the others stand at the front, and not at the back
    // where the first to be taken out turns all of them round.
    fn build(alloc: Global, values: &[Val]) -> Option<Self> {
        let mut queue = other(ImmQueue::new().enqueue(alloc, value_of(0)))?;
        for value in values {
            queue = other(queue.enqueue(alloc, *value))?;
        }
        other(queue.dequeue(alloc))
    }

    fn call(&mut self, alloc: Global, row: Row, number: u32) -> Option<u64> {
        match row {
            Row::Add => changed(self.enqueue(alloc, value_behind(number))),
            Row::LookUp => Some(u64::from(self.peek().is_ok())),
            Row::Remove => changed(self.dequeue(alloc)),
            Row::Iterate => sum_of_all(self.to_vec(alloc)),
            _ => None,
        }
    }
}
