// The builder of sorted sets.
use builders::laws::Builder;
use builders::*;
use imm_base::{Memory, SetTest, Step, Val, ValOrder};
use sorted_sets::SortedSet;
use std::alloc::Global;
use std::test::Fail;

type Set = SetBuilder<Val, ValOrder>;

fn values_of(alloc: Global, numbers: &[i64]) -> Result<Vec<Val>, Memory> {
    let mut values = Vec::new(alloc);
    for number in numbers {
        values.push(Val::Int(*number))?;
    }
    Ok(values)
}

fn has_numbers(builder: &Set, numbers: &[i64]) -> bool {
    let mut index = 0u32;
    for number in numbers {
        match builder.get(index) {
            Ok(Val::Int(found)) if found == number => index = index.saturating_add(1),
            _ => return false,
        }
    }
    builder.count() == index
}

// Whether the change answers this, and leaves the builder with this version and these numbers.
fn answers(
    alloc: Global,
    builder: &mut Set,
    change: SetChange<Val>,
    wanted: Step,
    version: u64,
    numbers: &[i64],
) -> bool {
    if builder.version() > 1000 || builder.apply(alloc, change) != Ok(wanted) {
        return false;
    }
    builder.version() == version && has_numbers(builder, numbers)
}

// The set is 5, 3, 1.
fn changes_one_element(alloc: Global, builder: &mut Set) -> bool {
    answers(
        alloc,
        builder,
        SetChange::Add(Val::Int(4)),
        Step::New,
        1,
        &[5, 4, 3, 1],
    ) && answers(
        alloc,
        builder,
        SetChange::Add(Val::Int(3)),
        Step::Same,
        1,
        &[5, 4, 3, 1],
    ) && answers(
        alloc,
        builder,
        SetChange::Remove(Val::Int(3)),
        Step::New,
        2,
        &[5, 4, 1],
    ) && answers(
        alloc,
        builder,
        SetChange::Remove(Val::Int(3)),
        Step::Same,
        2,
        &[5, 4, 1],
    ) && answers(alloc, builder, SetChange::Clear, Step::New, 3, &[])
}

fn unites(alloc: Global, builder: &mut Set) -> Result<bool, Memory> {
    let change = SetChange::UnionWith(values_of(alloc, &[3, 4])?);
    Ok(answers(alloc, builder, change, Step::New, 1, &[5, 4, 3, 1]))
}

fn intersects(alloc: Global, builder: &mut Set) -> Result<bool, Memory> {
    let change = SetChange::IntersectWith(values_of(alloc, &[1, 4, 5])?);
    Ok(answers(alloc, builder, change, Step::New, 2, &[5, 4, 1]))
}

fn excepts(alloc: Global, builder: &mut Set) -> Result<bool, Memory> {
    let change = SetChange::ExceptWith(values_of(alloc, &[2])?);
    Ok(answers(alloc, builder, change, Step::Same, 2, &[5, 4, 1]))
}

fn takes_either(alloc: Global, builder: &mut Set) -> Result<bool, Memory> {
    let change = SetChange::SymExceptWith(values_of(alloc, &[5, 6])?);
    Ok(answers(alloc, builder, change, Step::New, 3, &[6, 4, 1]))
}

// The set is 5, 3, 1.
fn changes_many(alloc: Global, builder: &mut Set) -> Result<bool, Memory> {
    Ok(
        unites(alloc, builder)?
            && intersects(alloc, builder)?
            && excepts(alloc, builder)?
            && takes_either(alloc, builder)?,
    )
}

fn has_three_elements(alloc: Global, builder: &Set) -> Result<bool, Memory> {
    Ok(builder.to_vec(alloc)?.len() == 3)
}

// The set is 5, 3, 1.
fn is_asked(alloc: Global, builder: &Set) -> Result<bool, Memory> {
    Ok(
        builder.relation(alloc, SetTest::Superset, &[Val::Int(1)])?
            && has_three_elements(alloc, builder)?
            && builder.contains(&Val::Int(3))
            && builder.actual(&Val::Int(4)).is_none()
            && builder.index_of(&Val::Int(4)) == -2
            && builder.min() == Some(&Val::Int(5))
            && builder.max() == Some(&Val::Int(1))
            && builder.order() == ValOrder::Reverse,
    )
}

// A new builder of what is published.
fn set_of(alloc: Global, numbers: &[i64]) -> Result<Set, Memory> {
    let mut builder = SetBuilder::from(&SortedSet::new(ValOrder::Reverse))?;
    let values = values_of(alloc, numbers)?;
    let _answer = builder.union_with(alloc, values.as_slice());
    SetBuilder::from(&builder.to_immutable(alloc)?)
}

#[test]
fn a_set_is_built_by_the_calls_of_a_set(rt: HostRuntime) -> Result<(), Fail> {
    let alloc = rt.alloc();
    assert!(rt; changes_one_element(alloc, &mut set_of(alloc, &[5, 3, 1])?));
    assert!(rt; changes_many(alloc, &mut set_of(alloc, &[5, 3, 1])?)?);
    assert!(rt; is_asked(alloc, &set_of(alloc, &[5, 3, 1])?)?);
    Ok(())
}
