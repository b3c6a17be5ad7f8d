use imm_base::{Edit, LIMIT, MapFault, Memory, Text24, Val, ValOrder};
use sorted_maps::*;
use std::alloc::Global;
use std::test::Fail;

type Map = SortedMap<Val, Val, ValOrder>;

type Made = Result<Edit<Map>, MapFault<Val>>;

fn vals(alloc: Global, pairs: &[(i64, i64)]) -> Result<Vec<(Val, Val)>, Memory> {
    let mut values = Vec::new(alloc);
    for pair in pairs {
        values.push((Val::Int(pair.0), Val::Int(pair.1)))?;
    }
    Ok(values)
}

fn new_or(made: Made, old: Map) -> Result<Map, MapFault<Val>> {
    match made? {
        Edit::Same => Ok(old),
        Edit::New(map) => Ok(map),
    }
}

fn map_of(alloc: Global, order: ValOrder, pairs: &[(i64, i64)]) -> Result<Map, MapFault<Val>> {
    let empty = SortedMap::new(order);
    let made = empty.set_items(alloc, vals(alloc, pairs)?.as_slice());
    new_or(made, empty)
}

fn has_pairs(alloc: Global, map: &Map, pairs: &[(i64, i64)]) -> bool {
    match (map.to_vec(alloc), vals(alloc, pairs)) {
        (Ok(found), Ok(wanted)) => found == wanted,
        _ => false,
    }
}

fn is_new(alloc: Global, made: Made, pairs: &[(i64, i64)]) -> bool {
    match made {
        Ok(Edit::New(map)) => has_pairs(alloc, &map, pairs),
        _ => false,
    }
}

fn is_same(made: Made) -> bool {
    matches!(made, Ok(Edit::Same))
}

fn is_present(made: Made, old: i64) -> bool {
    matches!(made, Err(MapFault::KeyExists { old: Val::Int(found) }) if found == old)
}

fn is_too_large(made: Made, count: u32) -> bool {
    matches!(made, Err(MapFault::TooLarge { count: found }) if found == count)
}

// The map is 2=20, 1=10 in the reverse order.
fn changes_one_pair(alloc: Global, map: &Map) -> bool {
    let one = Val::Int(1);
    is_new(
        alloc,
        map.add(alloc, Val::Int(3), Val::Int(30)),
        &[(3, 30), (2, 20), (1, 10)],
    ) && is_same(map.add(alloc, one, Val::Int(10)))
        && is_present(map.add(alloc, one, Val::Int(11)), 10)
        && is_new(
            alloc,
            map.set_item(alloc, one, Val::Int(11)),
            &[(2, 20), (1, 11)],
        )
        && is_new(
            alloc,
            map.set_item(alloc, Val::Int(0), one),
            &[(2, 20), (1, 10), (0, 1)],
        )
        && is_same(map.set_item(alloc, one, Val::Int(10)))
        && is_new(alloc, map.remove(alloc, &one), &[(2, 20)])
        && is_same(map.remove(alloc, &Val::Int(3)))
        && is_new(alloc, Ok(map.clear()), &[])
}

// The map is 2=20, 1=10 in the reverse order.
fn adds_ranges(alloc: Global, map: &Map) -> Result<bool, Memory> {
    let fresh = vals(alloc, &[(3, 30), (0, 5), (2, 20)])?;
    let twice = vals(alloc, &[(3, 30), (3, 31)])?;
    let late = vals(alloc, &[(4, 40), (1, 11), (2, 21)])?;
    let present = vals(alloc, &[(1, 10), (2, 20)])?;
    Ok(
        is_new(
            alloc,
            map.add_range(alloc, fresh.as_slice()),
            &[(3, 30), (2, 20), (1, 10), (0, 5)],
        ) && is_present(map.add_range(alloc, twice.as_slice()), 30)
            && is_present(map.add_range(alloc, late.as_slice()), 10)
            && is_same(map.add_range(alloc, present.as_slice())),
    )
}

// The map is 2=20, 1=10 in the reverse order.
fn sets_and_removes_ranges(alloc: Global, map: &Map) -> Result<bool, Memory> {
    let there_and_back = vals(alloc, &[(1, 11), (1, 10)])?;
    let later_wins = vals(alloc, &[(3, 1), (1, 11), (3, 2)])?;
    let present = vals(alloc, &[(1, 10), (2, 20)])?;
    Ok(
        is_new(
            alloc,
            map.set_items(alloc, there_and_back.as_slice()),
            &[(2, 20), (1, 10)],
        ) && is_new(
            alloc,
            map.set_items(alloc, later_wins.as_slice()),
            &[(3, 2), (2, 20), (1, 11)],
        ) && is_same(map.set_items(alloc, present.as_slice()))
            && is_new(
                alloc,
                map.remove_range(alloc, &[Val::Int(1), Val::Int(5)]),
                &[(2, 20)],
            )
            && is_same(map.remove_range(alloc, &[Val::Int(5)])),
    )
}

fn are(found: Result<Vec<Val>, Memory>, wanted: &[Val]) -> bool {
    match found {
        Ok(found) => found.as_slice() == wanted,
        Err(_) => false,
    }
}

// The map is 2=20, 1=10 in the reverse order.
fn answers_questions(alloc: Global, map: &Map) -> bool {
    are(map.keys(alloc), &[Val::Int(2), Val::Int(1)])
        && are(map.values(alloc), &[Val::Int(20), Val::Int(10)])
        && map.count() == 2
        && map.get(&Val::Int(1)) == Some(&Val::Int(10))
        && map.get(&Val::Int(3)).is_none()
        && map.get_key(&Val::Int(2)) == Some(&Val::Int(2))
        && map.contains_value(&Val::Int(20))
        && !map.contains_value(&Val::Int(2))
}

// The map is 2=20, 1=10 in the reverse order.
fn is_ordered_anew(alloc: Global, map: &Map) -> bool {
    is_new(
        alloc,
        map.with_order(alloc, ValOrder::Ordinal),
        &[(1, 10), (2, 20)],
    ) && is_same(map.with_order(alloc, ValOrder::Reverse))
}

#[test]
fn calls_are_those_of_a_map(rt: HostRuntime) -> Result<(), Fail> {
    let alloc = rt.alloc();
    let map = map_of(alloc, ValOrder::Reverse, &[(1, 10), (2, 20)])?;
    assert!(rt; has_pairs(alloc, &map, &[(2, 20), (1, 10)]));
    assert!(rt; changes_one_pair(alloc, &map));
    assert!(rt; adds_ranges(alloc, &map)?);
    assert!(rt; sets_and_removes_ranges(alloc, &map)?);
    assert!(rt; answers_questions(alloc, &map));
    assert!(rt; is_ordered_anew(alloc, &map));
    Ok(())
}

fn text(word: &str) -> Option<Val> {
    let text = Text24::from_bytes(word.as_bytes())?;
    Some(Val::Text(text))
}

fn is_spelled(map: &Map, word: &str, key: &str, value: i64) -> bool {
    match (text(word), text(key)) {
        (Some(sought), Some(stored)) => {
            map.get_key(&sought) == Some(&stored) && map.get(&sought) == Some(&Val::Int(value))
        }
        _ => false,
    }
}

fn with_text(alloc: Global, map: Map, word: &str, value: i64) -> Result<Map, MapFault<Val>> {
    match text(word) {
        Some(key) => new_or(map.set_item(alloc, key, Val::Int(value)), map),
        None => Ok(map),
    }
}

#[test]
fn the_latest_spelling_that_changes_a_value_is_stored(rt: HostRuntime) -> Result<(), Fail> {
    let alloc = rt.alloc();
    let first = with_text(alloc, SortedMap::new(ValOrder::NoCase), "Key", 1)?;
    let changed = with_text(alloc, first.share()?, "KEY", 2)?;
    let same = with_text(alloc, changed.share()?, "key", 2)?;
    assert!(rt; is_spelled(&first, "kEY", "Key", 1));
    assert!(rt; is_spelled(&changed, "kEY", "KEY", 2));
    assert!(rt; is_spelled(&same, "kEY", "KEY", 2));
    assert_eq!(rt; same.count(), 1);
    Ok(())
}

#[test]
fn keys_that_are_same_in_the_other_order_are_refused(rt: HostRuntime) -> Result<(), Fail> {
    let alloc = rt.alloc();
    let small = with_text(alloc, SortedMap::new(ValOrder::Ordinal), "a", 1)?;
    let both = with_text(alloc, small, "A", 2)?;
    assert_eq!(rt; both.count(), 2);
    assert!(rt; is_present(both.with_order(alloc, ValOrder::NoCase), 2));
    Ok(())
}

// A full map takes no more, but its keys take other values; a present key is refused first.
fn keeps_the_limit(alloc: Global, full: &Map) -> Result<bool, Memory> {
    let present = vals(alloc, &[(-1, 0), (0, 1)])?;
    let more = vals(alloc, &[(-1, 0)])?;
    Ok(
        is_too_large(full.add(alloc, Val::Int(-1), Val::Int(0)), LIMIT)
            && is_too_large(full.set_item(alloc, Val::Int(-1), Val::Int(0)), LIMIT)
            && is_present(full.add(alloc, Val::Int(0), Val::Int(1)), 0)
            && matches!(
                full.set_item(alloc, Val::Int(0), Val::Int(1)),
                Ok(Edit::New(_))
            )
            && is_present(full.add_range(alloc, present.as_slice()), 0)
            && is_too_large(full.add_range(alloc, more.as_slice()), LIMIT)
            && is_too_large(full.set_items(alloc, more.as_slice()), LIMIT),
    )
}

fn numbers(alloc: Global, count: i64) -> Result<Vec<(Val, Val)>, Memory> {
    let mut pairs = Vec::new(alloc);
    for number in 0..count {
        pairs.push((Val::Int(number), Val::Int(0)))?;
    }
    Ok(pairs)
}

#[test]
fn a_full_map_is_refused_one_more(rt: HostRuntime) -> Result<(), Fail> {
    let alloc = rt.alloc();
    let empty = SortedMap::new(ValOrder::Ordinal);
    let pairs = numbers(alloc, i64::from(LIMIT))?;
    let full = new_or(empty.add_range(alloc, pairs.as_slice()), empty)?;
    assert_eq!(rt; full.count(), LIMIT);
    assert!(rt; keeps_the_limit(alloc, &full)?);
    Ok(())
}
