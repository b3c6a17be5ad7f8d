use frozen_sets::*;
use imm_base::{Memory, Text24, Val, ValEq};
use std::alloc::Global;
use std::test::Fail;

fn text(word: &str) -> Val {
    match Text24::from_bytes(word.as_bytes()) {
        Some(text) => Val::Text(text),
        None => Val::Int(-1),
    }
}

fn texts(alloc: Global, words: &[&str]) -> Result<Vec<Val>, Memory> {
    let mut values = Vec::new(alloc);
    for word in words {
        values.push(text(word))?;
    }
    Ok(values)
}

fn set_of(alloc: Global, values: &[Val], eq: ValEq) -> Result<FrozenSet, Memory> {
    if values.len() > 100_000 {
        return Err(Memory);
    }
    FrozenSet::from_list(alloc, values, eq)
}

fn finds_each(set: &FrozenSet, values: &[Val]) -> bool {
    values.iter().all(|value| set.contains(value))
}

// Whether the set of these words has this strategy, finds each of them, and not `missing`.
fn is_found_by(
    alloc: Global,
    words: &[&str],
    eq: ValEq,
    strategy: Strategy,
    missing: &str,
) -> Result<bool, Memory> {
    let values = texts(alloc, words)?;
    let set = set_of(alloc, values.as_slice(), eq)?;
    Ok(
        set.strategy() == strategy
            && finds_each(&set, values.as_slice())
            && !set.contains(&text(missing)),
    )
}

const FEW: &[&str] = &["a", "b", "c", "d"];

const LENGTHS: &[&str] = &["a", "bb", "ccc", "dddd", "eeeee"];

const NUMBERED: &[&str] = &["ax1", "ax2", "ax3", "ax4", "ax5"];

const CROSSED: &[&str] = &["ab", "ac", "bb", "bc", "cb"];

const BEGUN: &[&str] = &["a", "ab", "abc", "abd", "abe"];

fn slice(start: u32, len: u32) -> Strategy {
    Strategy::Slice { start, len }
}

fn is_ordinal(
    alloc: Global,
    words: &[&str],
    strategy: Strategy,
    missing: &str,
) -> Result<bool, Memory> {
    is_found_by(alloc, words, ValEq::Ordinal, strategy, missing)
}

#[test]
fn the_strategy_is_that_of_the_keys(rt: HostRuntime) -> Result<(), Fail> {
    let alloc = rt.alloc();
    assert!(rt; is_ordinal(alloc, FEW, Strategy::Linear, "e")?);
    assert!(rt; is_ordinal(alloc, LENGTHS, Strategy::Length, "b")?);
    assert!(rt; is_ordinal(alloc, NUMBERED, slice(2, 1), "bx3")?);
    assert!(rt; is_ordinal(alloc, CROSSED, slice(0, 2), "abc")?);
    assert!(rt; is_ordinal(alloc, BEGUN, Strategy::Hash, "abf")?);
    Ok(())
}

#[test]
fn under_another_equality_a_hash_is_the_strategy(rt: HostRuntime) -> Result<(), Fail> {
    let alloc = rt.alloc();
    assert!(rt; is_found_by(alloc, LENGTHS, ValEq::NoCase, Strategy::Hash, "B")?);
    assert!(rt; is_found_by(alloc, LENGTHS, ValEq::One, Strategy::Hash, "B")?);
    Ok(())
}

fn b_and_two_a(alloc: Global) -> Result<FrozenSet, Memory> {
    let values = texts(alloc, &["b", "A", "a"])?;
    set_of(alloc, values.as_slice(), ValEq::NoCase)
}

fn has_elements(alloc: Global, set: &FrozenSet) -> Result<bool, Memory> {
    Ok(set.to_vec(alloc)?.as_slice() == [text("A"), text("b")].as_slice())
}

#[test]
fn the_first_of_same_elements_stays(rt: HostRuntime) -> Result<(), Fail> {
    let alloc = rt.alloc();
    let set = b_and_two_a(alloc)?;
    assert_eq!(rt; set.count(), 2);
    assert_eq!(rt; set.actual(&text("a")).copied(), Some(text("A")));
    assert!(rt; has_elements(alloc, &set)?);
    Ok(())
}

// "a"=1, "b"=2, and "A"=3, which is the latter of two.
fn three_pairs(alloc: Global) -> Result<FrozenMap<Val>, Memory> {
    let pairs = [
        (text("a"), Val::Int(1)),
        (text("b"), Val::Int(2)),
        (text("A"), Val::Int(3)),
    ];
    FrozenMap::from_list(alloc, &pairs, ValEq::NoCase)
}

fn has_keys(alloc: Global, map: &FrozenMap<Val>) -> Result<bool, Memory> {
    Ok(map.keys(alloc)?.as_slice() == [text("A"), text("b")].as_slice())
}

fn has_values(alloc: Global, map: &FrozenMap<Val>) -> Result<bool, Memory> {
    Ok(map.values(alloc)?.as_slice() == [Val::Int(3), Val::Int(2)].as_slice())
}

#[test]
fn the_latter_of_pairs_with_same_keys_stays(rt: HostRuntime) -> Result<(), Fail> {
    let alloc = rt.alloc();
    let map = three_pairs(alloc)?;
    assert!(rt; map.count() == 2 && map.strategy() == Strategy::Linear);
    assert_eq!(rt; map.get(&text("a")).copied(), Some(Val::Int(3)));
    assert_eq!(rt; map.get_key(&text("a")).copied(), Some(text("A")));
    assert_eq!(rt; map.get(&text("c")).copied(), None);
    assert!(rt; has_keys(alloc, &map)? && has_values(alloc, &map)?);
    Ok(())
}

#[test]
fn a_set_of_many_elements_finds_each(rt: HostRuntime) -> Result<(), Fail> {
    let alloc = rt.alloc();
    let mut values = Vec::new(alloc);
    for number in 0u32..16_384 {
        values.push(Val::Int(i64::from(number ^ 5)))?;
    }
    let set = set_of(alloc, values.as_slice(), ValEq::Ordinal)?;
    assert!(rt; set.count() == 16_384 && set.strategy() == Strategy::Hash);
    assert!(rt; finds_each(&set, values.as_slice()));
    assert!(rt; !set.contains(&Val::Int(16_384)));
    Ok(())
}
