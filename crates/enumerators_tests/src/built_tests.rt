//! Worked examples of walks along builders.

use crate::tests::{first_three, one, shows, started};
use builders::{DictBuilder, HashSetBuilder, ListBuilder, MapBuilder, SetBuilder};
use enumerators::{WalkFault, Walked};
use imm_base::{Edit, Memory, Step, Val, ValEq, ValOrder};
use imm_dictionary::{Dict, ImmHashSet};
use imm_list::ImmList;
use plain_model::Elem;
use sorted_maps::SortedMap;
use sorted_sets::SortedSet;
use stack_pool::Pool;
use std::alloc::Global;

type Set = SetBuilder<Val, ValOrder>;

fn one_to_three(alloc: Global) -> Result<Set, Memory> {
    let values = [Val::Int(1), Val::Int(2), Val::Int(3)];
    let Ok(Edit::New(set)) = SortedSet::new(ValOrder::Ordinal).union_with(alloc, &values) else {
        return Err(Memory);
    };
    SetBuilder::from(&set)
}

/// Whether the number made another set. `None`: it was refused.
fn added(alloc: Global, builder: &mut Set, number: i64) -> Option<Step> {
    if builder.version() > 9 {
        return None;
    }
    builder.add(alloc, Val::Int(number)).ok()
}

#[test]
fn a_walk_along_a_builder_is_refused_after_a_change(rt: HostRuntime) -> Result<(), Memory> {
    let mut pool = Pool::make(rt.alloc())?;
    let mut builder = one_to_three(rt.alloc())?;
    let rest = builder.rest(rt.alloc())?;
    let walk = started(&rt, rest, builder.version(), &mut pool);
    let copy = walk;
    assert!(rt; walk.next(&mut pool, builder.version()) == Ok(Some(one(1))));
    assert!(rt; added(rt.alloc(), &mut builder, 2) == Some(Step::Same));
    assert!(rt; walk.next(&mut pool, builder.version()) == Ok(Some(one(2))));
    assert!(rt; added(rt.alloc(), &mut builder, 4) == Some(Step::New));
    let changed = WalkFault::Changed { made: 0, now: 1 };
    assert!(rt; walk.next(&mut pool, builder.version()) == Err(changed));
    assert!(rt; copy.reset(&mut pool, builder.version()) == Err(changed));
    assert!(rt; walk.current(&mut pool) == Ok(one(2)));
    assert!(rt; walk.dispose(&mut pool) == Ok(()));
    assert!(rt; walk.next(&mut pool, builder.version()) == Err(WalkFault::Disposed));
    assert!(rt; copy.dispose(&mut pool) == Err(WalkFault::Disposed));
    Ok(())
}

// To whom the old version is told, a change stays hidden.
#[test]
fn a_walk_goes_along_what_the_builder_had(rt: HostRuntime) -> Result<(), Memory> {
    let mut pool = Pool::make(rt.alloc())?;
    let mut builder = one_to_three(rt.alloc())?;
    let rest = builder.rest(rt.alloc())?;
    let walk = started(&rt, rest, 0, &mut pool);
    assert!(rt; added(rt.alloc(), &mut builder, 0) == Some(Step::New));
    assert!(rt; walk.next(&mut pool, 0) == Ok(Some(one(1))));
    Ok(())
}

#[test]
fn lists_and_sorted_collections_are_walked_while_they_are_built(
    rt: HostRuntime,
) -> Result<(), Memory> {
    let mut list = ListBuilder::from(&ImmList::new())?;
    let made = list.add_range(rt.alloc(), &[Val::Int(7), Val::Int(5)]);
    assert!(rt; made == Ok(Step::New) && list.version() == 1);
    let [first, second, third] = first_three(&rt, rt.alloc(), list)?;
    assert!(rt; shows(&first, one(7)) && shows(&second, one(5)) && third == Ok(None));
    let mut map = MapBuilder::from(&SortedMap::new(ValOrder::Ordinal))?;
    let made = map.add(rt.alloc(), Val::Int(1), Val::Int(5));
    assert!(rt; made == Ok(Step::New));
    let [first, second, _] = first_three(&rt, rt.alloc(), map)?;
    assert!(rt; shows(&first, Elem::Pair(Val::Int(1), Val::Int(5))) && second == Ok(None));
    Ok(())
}

#[test]
fn hashed_collections_are_walked_while_they_are_built(rt: HostRuntime) -> Result<(), Memory> {
    let mut set = HashSetBuilder::from(&ImmHashSet::new(ValEq::Ordinal))?;
    let made = set.union_with(rt.alloc(), &[Val::Int(1), Val::Int(-2), Val::Int(-1)]);
    assert!(rt; made == Ok(Step::New));
    let [first, second, third] = first_three(&rt, rt.alloc(), set)?;
    assert!(rt; shows(&first, one(-1)) && shows(&second, one(-2)) && shows(&third, one(1)));
    let mut map = DictBuilder::from(&Dict::new(ValEq::NoCase))?;
    let made = map.add(rt.alloc(), Val::Int(1), Val::Int(5));
    assert!(rt; made == Ok(Step::New));
    let [first, second, _] = first_three(&rt, rt.alloc(), map)?;
    assert!(rt; shows(&first, Elem::Pair(Val::Int(1), Val::Int(5))) && second == Ok(None));
    Ok(())
}
