use builders::laws::{Builder, published_stays};
use builders::*;
use imm_base::{Memory, Step, Val, ValOrder, ValTest};
use imm_list::{ImmList, ListFault};
use std::alloc::Global;
use std::test::Fail;

type Numbers = ListBuilder<Val>;

type Change = ListChange<Val, ValTest, ValOrder>;

fn values_of(alloc: Global, numbers: &[i64]) -> Result<Vec<Val>, Memory> {
    let mut values = Vec::new(alloc);
    for number in numbers {
        values.push(Val::Int(*number))?;
    }
    Ok(values)
}

fn numbers_of(alloc: Global, numbers: &[i64]) -> Result<Numbers, ListFault> {
    let values = values_of(alloc, numbers)?;
    let list = ImmList::from_slice(alloc, values.as_slice())?;
    Ok(ListBuilder::from(&list)?)
}

fn has_numbers(builder: &Numbers, numbers: &[i64]) -> bool {
    let mut index = 0u32;
    for number in numbers {
        match builder.get(index) {
            Ok(Val::Int(found)) if found == number => index = index.saturating_add(1),
            _ => return false,
        }
    }
    builder.count() == index
}

// Whether the change answers this, and leaves the builder with this version and these numbers.
fn answers(
    alloc: Global,
    builder: &mut Numbers,
    change: Change,
    wanted: Result<Step, ListFault>,
    version: u64,
    numbers: &[i64],
) -> bool {
    if builder.version() > 1000 || builder.apply(alloc, change) != wanted {
        return false;
    }
    builder.version() == version && has_numbers(builder, numbers)
}

fn adds(alloc: Global, builder: &mut Numbers) -> bool {
    let change = ListChange::Add(Val::Int(1));
    answers(alloc, builder, change, Ok(Step::New), 1, &[5, 3, 9, 3, 1])
}

fn refuses_to_insert(alloc: Global, builder: &mut Numbers) -> bool {
    let change = ListChange::Insert {
        index: 6,
        value: Val::Int(7),
    };
    let refused = Err(ListFault::OutOfRange { index: 6, count: 5 });
    answers(alloc, builder, change, refused, 1, &[5, 3, 9, 3, 1])
}

// The list is 5, 3, 9, 3.
fn changes_one_element(alloc: Global, builder: &mut Numbers) -> bool {
    adds(alloc, builder) && refuses_to_insert(alloc, builder)
}

fn removes(
    alloc: Global,
    builder: &mut Numbers,
    number: i64,
    wanted: Step,
    version: u64,
    numbers: &[i64],
) -> bool {
    let change = ListChange::Remove(Val::Int(number));
    answers(alloc, builder, change, Ok(wanted), version, numbers)
}

fn does_not_find(alloc: Global, builder: &mut Numbers) -> bool {
    let change = ListChange::Replace {
        old: Val::Int(4),
        value: Val::Int(2),
    };
    answers(
        alloc,
        builder,
        change,
        Err(ListFault::NotFound),
        1,
        &[5, 9, 3],
    )
}

// The list is 5, 3, 9, 3.
fn removes_and_replaces(alloc: Global, builder: &mut Numbers) -> bool {
    removes(alloc, builder, 4, Step::Same, 0, &[5, 3, 9, 3])
        && removes(alloc, builder, 3, Step::New, 1, &[5, 9, 3])
        && does_not_find(alloc, builder)
}

fn sets_a_place(alloc: Global, builder: &mut Numbers) -> bool {
    let change = ListChange::SetItem {
        index: 3,
        value: Val::Int(3),
    };
    answers(alloc, builder, change, Ok(Step::New), 1, &[5, 3, 9, 3])
}

fn removes_a_place(alloc: Global, builder: &mut Numbers) -> bool {
    let change = ListChange::RemoveAt { index: 0 };
    answers(alloc, builder, change, Ok(Step::New), 2, &[3, 9, 3])
}

fn clears(alloc: Global, builder: &mut Numbers, wanted: Step) -> bool {
    answers(alloc, builder, ListChange::Clear, Ok(wanted), 3, &[])
}

// The list is 5, 3, 9, 3.
fn sets_and_removes_places(alloc: Global, builder: &mut Numbers) -> bool {
    sets_a_place(alloc, builder)
        && removes_a_place(alloc, builder)
        && clears(alloc, builder, Step::New)
        && clears(alloc, builder, Step::Same)
}

fn adds_many(alloc: Global, builder: &mut Numbers) -> Result<bool, Memory> {
    let change = ListChange::AddRange(values_of(alloc, &[1, 2])?);
    Ok(answers(
        alloc,
        builder,
        change,
        Ok(Step::New),
        1,
        &[5, 3, 9, 3, 1, 2],
    ))
}

fn inserts_one(alloc: Global, builder: &mut Numbers) -> Result<bool, Memory> {
    let change = ListChange::InsertRange {
        index: 1,
        values: values_of(alloc, &[7])?,
    };
    Ok(answers(
        alloc,
        builder,
        change,
        Ok(Step::New),
        2,
        &[5, 7, 3, 9, 3, 1, 2],
    ))
}

fn removes_three(alloc: Global, builder: &mut Numbers) -> bool {
    let change = ListChange::RemoveRange { index: 2, count: 3 };
    answers(alloc, builder, change, Ok(Step::New), 3, &[5, 7, 1, 2])
}

// The list is 5, 3, 9, 3.
fn changes_ranges(alloc: Global, builder: &mut Numbers) -> Result<bool, Memory> {
    Ok(adds_many(alloc, builder)? && inserts_one(alloc, builder)? && removes_three(alloc, builder))
}

fn reverses(alloc: Global, builder: &mut Numbers) -> bool {
    answers(
        alloc,
        builder,
        ListChange::Reverse,
        Ok(Step::New),
        1,
        &[3, 9, 3, 5],
    )
}

fn sorts(alloc: Global, builder: &mut Numbers) -> bool {
    let change = ListChange::Sort(ValOrder::Ordinal);
    answers(alloc, builder, change, Ok(Step::New), 2, &[3, 3, 5, 9])
}

fn removes_what_is_above(alloc: Global, builder: &mut Numbers) -> bool {
    let change = ListChange::RemoveAll(ValTest::Above(Val::Int(4)));
    answers(alloc, builder, change, Ok(Step::New), 3, &[3, 3])
}

// The list is 5, 3, 9, 3.
fn changes_all(alloc: Global, builder: &mut Numbers) -> bool {
    reverses(alloc, builder) && sorts(alloc, builder) && removes_what_is_above(alloc, builder)
}

// The list is 5, 3, 9, 3.
fn is_asked(builder: &Numbers) -> bool {
    builder.index_of(&Val::Int(3)) == Some(1)
        && builder.last_index_of(&Val::Int(3)) == Some(3)
        && builder.contains(&Val::Int(9))
        && !builder.is_sorted(&ValOrder::Ordinal)
}

// The list is 1, 3, 3, 7.
fn is_searched(builder: &Numbers) -> bool {
    builder.is_sorted(&ValOrder::Ordinal)
        && builder.binary_search(&Val::Int(3), &ValOrder::Ordinal) == 1
        && builder.binary_search(&Val::Int(9), &ValOrder::Ordinal) == -5
}

fn list(alloc: Global) -> Result<Numbers, ListFault> {
    numbers_of(alloc, &[5, 3, 9, 3])
}

#[test]
fn a_list_is_changed_by_the_calls_of_a_list(rt: HostRuntime) -> Result<(), Fail> {
    let alloc = rt.alloc();
    assert!(rt; changes_one_element(alloc, &mut list(alloc)?));
    assert!(rt; removes_and_replaces(alloc, &mut list(alloc)?));
    assert!(rt; sets_and_removes_places(alloc, &mut list(alloc)?));
    Ok(())
}

#[test]
fn a_list_is_changed_by_ranges(rt: HostRuntime) -> Result<(), Fail> {
    let alloc = rt.alloc();
    assert!(rt; changes_ranges(alloc, &mut list(alloc)?)?);
    assert!(rt; changes_all(alloc, &mut list(alloc)?));
    Ok(())
}

#[test]
fn a_builder_is_asked_as_a_list(rt: HostRuntime) -> Result<(), Fail> {
    let alloc = rt.alloc();
    assert!(rt; is_asked(&list(alloc)?));
    assert!(rt; is_searched(&numbers_of(alloc, &[1, 3, 3, 7])?));
    Ok(())
}

fn some_changes(alloc: Global) -> Result<Vec<Change>, Memory> {
    let mut changes = Vec::new(alloc);
    changes.push(ListChange::Add(Val::Int(1)))?;
    changes.push(ListChange::RemoveAt { index: 9 })?;
    changes.push(ListChange::Sort(ValOrder::Ordinal))?;
    Ok(changes)
}

// The list is 5, 3, 9, 3.
fn is_the_first(published: &ImmList<Val>) -> bool {
    published.count() == 4 && published.get(2) == Ok(&Val::Int(9))
}

// Publishes the builder before the changes, and says whether it is 5, 3, 9, 3 that was published.
fn keeps_what_it_published(
    alloc: Global,
    builder: &mut Numbers,
    changes: Vec<Change>,
) -> Result<bool, Memory> {
    if builder.version() > 0 || changes.len() > 9 {
        return Ok(false);
    }
    Ok(is_the_first(&published_stays(alloc, builder, changes)?))
}

#[test]
fn what_was_published_stays(rt: HostRuntime) -> Result<(), Fail> {
    let alloc = rt.alloc();
    let mut builder = numbers_of(alloc, &[5, 3, 9, 3])?;
    assert!(rt; keeps_what_it_published(alloc, &mut builder, some_changes(alloc)?)?);
    assert!(rt; has_numbers(&builder, &[1, 3, 3, 5, 9]));
    Ok(())
}
