// The builder of dictionaries.
use builders::laws::Builder;
use builders::*;
use imm_base::{MapFault, Memory, Step, Val, ValEq};
use imm_dictionary::Dict;
use std::alloc::Global;
use std::test::Fail;

type Map = DictBuilder<Val, Val, ValEq>;

type Change = MapChange<Val, Val>;

fn pair(key: i64, value: i64) -> (Val, Val) {
    (Val::Int(key), Val::Int(value))
}

fn pairs_of(alloc: Global, keys: &[i64]) -> Result<Vec<(Val, Val)>, Memory> {
    let mut pairs = Vec::new(alloc);
    for key in keys {
        pairs.push(pair(*key, 10))?;
    }
    Ok(pairs)
}

// Whether the change answers this, and leaves the builder with this version and so many pairs.
fn answers(
    alloc: Global,
    builder: &mut Map,
    change: Change,
    wanted: Result<Step, MapFault<Val>>,
    version: u64,
    count: u32,
) -> bool {
    if builder.version() > 1000 || builder.apply(alloc, change) != wanted {
        return false;
    }
    builder.version() == version && builder.count() == count
}

fn add(key: i64, value: i64) -> Change {
    let (key, value) = pair(key, value);
    MapChange::Add { key, value }
}

fn set(key: i64, value: i64) -> Change {
    let (key, value) = pair(key, value);
    MapChange::SetItem { key, value }
}

// The map has 10 at 3, 4 and 5.
fn changes_one_pair(alloc: Global, builder: &mut Map) -> bool {
    let old = Val::Int(10);
    answers(alloc, builder, add(6, 10), Ok(Step::New), 1, 4)
        && answers(alloc, builder, add(3, 10), Ok(Step::Same), 1, 4)
        && answers(
            alloc,
            builder,
            add(3, 11),
            Err(MapFault::KeyExists { old }),
            1,
            4,
        )
        && answers(alloc, builder, set(3, 11), Ok(Step::New), 2, 4)
        && builder.get(&Val::Int(3)) == Some(&Val::Int(11))
        && answers(
            alloc,
            builder,
            MapChange::Remove(Val::Int(3)),
            Ok(Step::New),
            3,
            3,
        )
        && answers(alloc, builder, MapChange::Clear, Ok(Step::New), 4, 0)
}

fn adds_pairs(alloc: Global, builder: &mut Map) -> Result<bool, Memory> {
    let change = MapChange::AddRange(pairs_of(alloc, &[3, 6, 7])?);
    Ok(answers(alloc, builder, change, Ok(Step::New), 1, 5))
}

fn sets_pairs(alloc: Global, builder: &mut Map) -> Result<bool, Memory> {
    let change = MapChange::SetItems(pairs_of(alloc, &[3, 4])?);
    Ok(answers(alloc, builder, change, Ok(Step::Same), 1, 5))
}

fn removes_keys(alloc: Global, builder: &mut Map) -> Result<bool, Memory> {
    let mut keys = Vec::new(alloc);
    keys.push(Val::Int(3))?;
    let change = MapChange::RemoveRange(keys);
    Ok(answers(alloc, builder, change, Ok(Step::New), 2, 4))
}

// The map has 10 at 3, 4 and 5.
fn changes_many(alloc: Global, builder: &mut Map) -> Result<bool, Memory> {
    Ok(adds_pairs(alloc, builder)? && sets_pairs(alloc, builder)? && removes_keys(alloc, builder)?)
}

fn has_three_keys(alloc: Global, builder: &Map) -> Result<bool, Memory> {
    Ok(builder.keys(alloc)?.len() == 3)
}

fn has_three_values(alloc: Global, builder: &Map) -> Result<bool, Memory> {
    Ok(builder.values(alloc)?.len() == 3)
}

// The map has 10 at 3, 4 and 5.
fn is_asked(alloc: Global, builder: &Map) -> Result<bool, Memory> {
    Ok(
        has_three_keys(alloc, builder)?
            && has_three_values(alloc, builder)?
            && builder.get_key(&Val::Int(6)).is_none()
            && builder.contains_value(&Val::Int(10))
            && builder.comparer() == ValEq::Ordinal,
    )
}

// A new builder of what is published.
fn map_of(alloc: Global, keys: &[i64]) -> Result<Map, Memory> {
    let mut builder = DictBuilder::from(&Dict::new(ValEq::Ordinal))?;
    let pairs = pairs_of(alloc, keys)?;
    let _answer = builder.add_range(alloc, pairs.as_slice());
    DictBuilder::from(&builder.to_immutable()?)
}

#[test]
fn a_dictionary_is_built_by_the_calls_of_a_dictionary(rt: HostRuntime) -> Result<(), Fail> {
    let alloc = rt.alloc();
    assert!(rt; changes_one_pair(alloc, &mut map_of(alloc, &[3, 4, 5])?));
    assert!(rt; changes_many(alloc, &mut map_of(alloc, &[3, 4, 5])?)?);
    assert!(rt; is_asked(alloc, &map_of(alloc, &[3, 4, 5])?)?);
    Ok(())
}
