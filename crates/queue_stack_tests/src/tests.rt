use imm_base::{Dup, Edit, LIMIT, Memory, Val};
use queue_stack::*;
use std::alloc::Global;
use std::test::Fail;

fn is_seen_as(values: Result<Vec<Val>, Memory>, numbers: &[i64]) -> bool {
    match values {
        Ok(values) => {
            values.len() == numbers.len()
                && values
                    .iter()
                    .zip(numbers)
                    .all(|(value, number)| *value == Val::Int(*number))
        }
        Err(_) => false,
    }
}

fn skew_list_of(alloc: Global, numbers: &[i64]) -> Result<SkewList<Val>, Memory> {
    let mut list = SkewList::new();
    for number in numbers {
        // (the condition of `push`)
        if list.count() < 1 << 46 {
            list = list.push(alloc, Val::Int(*number))?;
        }
    }
    Ok(list)
}

// Each element by its place, the last pushed first.
fn is_at_each_place(list: &SkewList<Val>, numbers: &[i64]) -> bool {
    let mut index = list.count();
    for number in numbers {
        if index == 0 {
            return false;
        }
        index -= 1;
        if list.at(index) != Some(&Val::Int(*number)) {
            return false;
        }
    }
    index == 0 && list.at(list.count()).is_none()
}

#[test]
fn a_skew_list_grows_and_shrinks_at_its_front(rt: HostRuntime) -> Result<(), Fail> {
    let alloc = rt.alloc();
    let list = skew_list_of(alloc, &[1, 2, 3, 4, 5, 6, 7, 8, 9])?;
    let rest = list.share()?.rest(alloc)?;
    assert!(rt; is_at_each_place(&list, &[1, 2, 3, 4, 5, 6, 7, 8, 9]));
    assert!(rt; list.first() == Some(&Val::Int(9)));
    assert!(rt; is_seen_as(rest.to_vec(alloc), &[8, 7, 6, 5, 4, 3, 2, 1]));
    assert_eq!(rt; SkewList::<Val>::new().rest(alloc)?.count(), 0);
    Ok(())
}

fn stack_of(alloc: Global, numbers: &[i64]) -> Result<ImmStack<Val>, EndFault> {
    let mut stack = ImmStack::new();
    for number in numbers {
        if let Edit::New(higher) = stack.push(alloc, Val::Int(*number))? {
            stack = higher;
        }
    }
    Ok(stack)
}

fn is_stack(made: Result<Edit<ImmStack<Val>>, EndFault>, alloc: Global, numbers: &[i64]) -> bool {
    match made {
        Ok(Edit::New(stack)) => is_seen_as(stack.to_vec(alloc), numbers),
        _ => false,
    }
}

// The stack has 1, 2 and 3, with 3 on top.
fn takes_from_the_top(alloc: Global, stack: &ImmStack<Val>) -> bool {
    stack.count() == 3
        && stack.peek() == Ok(&Val::Int(3))
        && is_stack(stack.push(alloc, Val::Int(4)), alloc, &[4, 3, 2, 1])
        && is_stack(stack.pop(alloc), alloc, &[2, 1])
        && is_stack(Ok(stack.clear()), alloc, &[])
}

// The stack is empty.
fn gives_nothing(alloc: Global, stack: &ImmStack<Val>) -> bool {
    stack.peek() == Err(EndFault::Empty)
        && matches!(stack.pop(alloc), Err(EndFault::Empty))
        && matches!(stack.clear(), Edit::Same)
}

#[test]
fn a_stack_is_taken_from_its_top(rt: HostRuntime) -> Result<(), Fail> {
    let alloc = rt.alloc();
    let stack = stack_of(alloc, &[1, 2, 3])?;
    assert!(rt; takes_from_the_top(alloc, &stack.share()?));
    assert!(rt; is_seen_as(stack.to_vec(alloc), &[3, 2, 1]));
    assert!(rt; gives_nothing(alloc, &ImmStack::new()));
    Ok(())
}

fn queue_of(alloc: Global, numbers: &[i64]) -> Result<ImmQueue<Val>, EndFault> {
    let mut queue = ImmQueue::new();
    for number in numbers {
        if let Edit::New(longer) = queue.enqueue(alloc, Val::Int(*number))? {
            queue = longer;
        }
    }
    Ok(queue)
}

fn is_queue(made: Result<Edit<ImmQueue<Val>>, EndFault>, alloc: Global, numbers: &[i64]) -> bool {
    match made {
        Ok(Edit::New(queue)) => is_seen_as(queue.to_vec(alloc), numbers),
        _ => false,
    }
}

// The queue has 1, 2 and 3, with 1 at its front.
fn takes_from_the_front(alloc: Global, queue: &ImmQueue<Val>) -> bool {
    queue.count() == 3
        && queue.peek() == Ok(&Val::Int(1))
        && is_queue(queue.dequeue(alloc), alloc, &[2, 3])
        && is_queue(Ok(queue.clear()), alloc, &[])
}

fn is_empty_queue(alloc: Global, queue: &ImmQueue<Val>) -> bool {
    queue.peek() == Err(EndFault::Empty)
        && matches!(queue.dequeue(alloc), Err(EndFault::Empty))
        && matches!(queue.clear(), Edit::Same)
}

#[test]
fn a_queue_is_taken_from_its_front(rt: HostRuntime) -> Result<(), Fail> {
    let alloc = rt.alloc();
    let queue = queue_of(alloc, &[1, 2, 3])?;
    assert!(rt; takes_from_the_front(alloc, &queue.share()?));
    let Edit::New(rest) = queue.dequeue(alloc)? else {
        return Ok(());
    };
    assert!(rt; is_queue(rest.enqueue(alloc, Val::Int(4)), alloc, &[2, 3, 4]));
    assert!(rt; is_empty_queue(alloc, &ImmQueue::new()));
    Ok(())
}

fn full_stack(alloc: Global) -> Result<ImmStack<Val>, EndFault> {
    let mut stack = ImmStack::new();
    for number in 0..LIMIT {
        if let Edit::New(higher) = stack.push(alloc, Val::Int(i64::from(number)))? {
            stack = higher;
        }
    }
    Ok(stack)
}

fn full_queue(alloc: Global) -> Result<ImmQueue<Val>, EndFault> {
    let mut queue = ImmQueue::new();
    for number in 0..LIMIT {
        if let Edit::New(longer) = queue.enqueue(alloc, Val::Int(i64::from(number)))? {
            queue = longer;
        }
    }
    Ok(queue)
}

#[test]
fn a_full_stack_and_a_full_queue_are_refused_one_more(rt: HostRuntime) -> Result<(), Fail> {
    let alloc = rt.alloc();
    let too_large = EndFault::TooLarge { count: LIMIT };
    let one = Val::Int(1).dup(alloc)?;
    let stack = full_stack(alloc)?;
    let queue = full_queue(alloc)?;
    assert!(rt; matches!(stack.push(alloc, one), Err(fault) if fault == too_large));
    assert!(rt; matches!(queue.enqueue(alloc, one), Err(fault) if fault == too_large));
    assert_eq!(rt; stack.to_vec(alloc)?.len(), LIMIT as usize);
    Ok(())
}
