use imm_array::*;
use imm_base::{Edit, LIMIT, Memory, Step, Val};
use std::alloc::Global;
use std::test::Fail;

fn values_of(alloc: Global, numbers: &[i64]) -> Result<Vec<Val>, Memory> {
    let mut values = Vec::new(alloc);
    for number in numbers {
        values.push(Val::Int(*number))?;
    }
    Ok(values)
}

fn array_of(alloc: Global, numbers: &[i64]) -> Result<ImmArray<Val>, ArrayFault> {
    ImmArray::from_slice(alloc, values_of(alloc, numbers)?.as_slice())
}

fn has_numbers(array: &ImmArray<Val>, numbers: &[i64]) -> bool {
    array.as_slice().len() == numbers.len()
        && array
            .as_slice()
            .iter()
            .zip(numbers)
            .all(|(value, number)| *value == Val::Int(*number))
}

fn is_new(made: Result<Edit<ImmArray<Val>>, ArrayFault>, numbers: &[i64]) -> bool {
    match made {
        Ok(Edit::New(array)) => has_numbers(&array, numbers),
        _ => false,
    }
}

fn is_refused(made: Result<Edit<ImmArray<Val>>, ArrayFault>, wanted: ArrayFault) -> bool {
    match made {
        Ok(_) => false,
        Err(fault) => fault == wanted,
    }
}

// The array is 1, 2, 2.
fn changes_as_its_rows(alloc: Global, array: &ImmArray<Val>) -> bool {
    let past = ArrayFault::OutOfRange { index: 3, count: 3 };
    is_new(array.add(alloc, Val::Int(7)), &[1, 2, 2, 7])
        && is_new(array.insert(alloc, 1, Val::Int(9)), &[1, 9, 2, 2])
        && is_new(array.remove(alloc, &Val::Int(2)), &[1, 2])
        && is_new(array.replace(alloc, &Val::Int(1), Val::Int(5)), &[5, 2, 2])
        && is_new(array.set_item(alloc, 0, Val::Int(7)), &[7, 2, 2])
        && is_new(
            array.add_range(alloc, &[Val::Int(4), Val::Int(5)]),
            &[1, 2, 2, 4, 5],
        )
        && is_new(array.remove_at(alloc, 0), &[2, 2])
        && is_refused(array.remove_at(alloc, 3), past)
        && is_new(Ok(array.clear()), &[])
}

#[test]
fn an_array_changes_as_its_rows(rt: HostRuntime) -> Result<(), Fail> {
    let alloc = rt.alloc();
    let array = array_of(alloc, &[1, 2, 2])?;
    assert!(rt; changes_as_its_rows(alloc, &array.share()?));
    assert!(rt; array.contains(&Val::Int(2)) && array.last_index_of(&Val::Int(2)) == Some(2));
    assert_eq!(rt; array.to_vec(alloc)?.len(), 3);
    Ok(())
}

fn is_stepped(answer: Result<Step, ArrayFault>) -> bool {
    answer == Ok(Step::New)
}

// The builder has 1, 2, 2.
fn builds_as_its_rows(built: &mut ArrayBuilder<Val>) -> bool {
    is_stepped(built.insert(3, Val::Int(6)))
        && is_stepped(built.remove_at(0))
        && is_stepped(built.add_range(&[Val::Int(8), Val::Int(9)]))
        && is_stepped(built.add(Val::Int(1)))
        && is_stepped(built.set_item(5, Val::Int(3)))
        && built.count() == 6
        && built.capacity() == 6
}

#[test]
fn a_builder_is_drained(rt: HostRuntime) -> Result<(), Fail> {
    let alloc = rt.alloc();
    let mut built = ArrayBuilder::from_array(alloc, &array_of(alloc, &[1, 2, 2])?)?;
    assert!(rt; builds_as_its_rows(&mut built));
    let copy = built.to_immutable()?;
    assert!(rt; has_numbers(&copy, &[2, 2, 6, 8, 9, 3]));
    let drained = built.drain_to_immutable()?;
    assert!(rt; has_numbers(&drained, &[2, 2, 6, 8, 9, 3]));
    assert_eq!(rt; built.capacity(), 0);
    Ok(())
}

// The builder has 1 and 2, and room for two.
fn is_moved_where_full(built: &mut ArrayBuilder<Val>) -> bool {
    let small = ArrayFault::CapacityTooSmall {
        count: 2,
        wanted: 1,
    };
    let not_full = ArrayFault::NotFull {
        count: 2,
        capacity: 3,
    };
    built.set_capacity(3) == Ok(())
        && matches!(built.move_to_immutable(), Err(fault) if fault == not_full)
        && built.set_capacity(1) == Err(small)
        && built.set_capacity(LIMIT + 1) == Err(ArrayFault::TooLarge { count: 2 })
        && built.set_capacity(2) == Ok(())
        && matches!(built.move_to_immutable(), Ok(array) if has_numbers(&array, &[1, 2]))
}

// The builder has nothing, and no room.
fn is_drained_and_moved_again(built: &mut ArrayBuilder<Val>) -> bool {
    matches!(built.drain_to_immutable(), Ok(array) if has_numbers(&array, &[]))
        && is_stepped(built.add(Val::Int(9)))
        && matches!(built.move_to_immutable(), Ok(array) if has_numbers(&array, &[9]))
        && built.count() == 0
}

#[test]
fn a_builder_is_moved_out_where_it_is_full(rt: HostRuntime) -> Result<(), Fail> {
    let alloc = rt.alloc();
    let mut built = ArrayBuilder::from_array(alloc, &array_of(alloc, &[1, 2])?)?;
    assert!(rt; is_moved_where_full(&mut built));
    assert!(rt; built.count() == 0 && built.capacity() == 0);
    assert!(rt; is_drained_and_moved_again(&mut built));
    assert!(rt; is_stepped(built.add(Val::Int(9))) && built.capacity() == 1);
    assert!(rt; built.clear() == Step::New && built.capacity() == 1);
    Ok(())
}

#[test]
fn a_full_array_is_refused_one_more(rt: HostRuntime) -> Result<(), Fail> {
    let alloc = rt.alloc();
    let mut built = ArrayBuilder::from_array(alloc, &ImmArray::new())?;
    for number in 0..LIMIT {
        built.add(Val::Int(i64::from(number)))?;
    }
    assert_eq!(rt; built.capacity(), LIMIT);
    let too_large = ArrayFault::TooLarge { count: LIMIT };
    assert!(rt; built.add(Val::Int(1)) == Err(too_large));
    let full = built.move_to_immutable()?;
    assert!(rt; is_refused(full.add(alloc, Val::Int(1)), too_large));
    Ok(())
}
