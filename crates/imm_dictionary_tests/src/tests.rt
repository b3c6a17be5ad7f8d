use avl_node::TreeFault;
use hash_bucket::{Bucket, HashTree};
use imm_base::{Edit, HashEq, LIMIT, MapFault, Memory, SetFault, SetTest, Text24, Val, ValEq};
use imm_dictionary::*;
use std::alloc::Global;
use std::cell::Cell;
use std::test::Fail;

type Set = ImmHashSet<Val, ValEq>;

type Map = Dict<Val, Val, ValEq>;

// An equality of values that counts how often it compares.
#[derive(Clone, Copy)]
#[derive_where(PartialEq, Eq)]
struct Counting<'a> {
    eq: ValEq,
    #[derive_where(skip)]
    calls: &'a Cell<u32>,
}

impl HashEq<Val> for Counting<'_> {
    ghost use Rattle.imm_base.specs.Order.{eq_same, eq_hash};
    ghost use Rattle.imm_base.specs.OrderLaws.{eq_equivalence, eq_alike};

    ghost same = { λ counting. eq_same counting.eq };

    ghost hash = { λ counting. eq_hash counting.eq };

    fn same(&self, a: &Val, b: &Val) -> bool {
        self.calls.set(self.calls.get().saturating_add(1));
        self.eq.same(a, b)
    }

    fn hash(&self, a: &Val) -> i32 {
        self.eq.hash(a)
    }

    ghost equivalence = { λ counting. eq_equivalence counting.eq };

    ghost alike = { λ counting. eq_alike counting.eq };
}

fn text(bytes: &[u8]) -> Val {
    match Text24::from_bytes(bytes) {
        Some(text) => Val::Text(text),
        None => Val::Int(0),
    }
}

fn is_set_of(alloc: Global, set: &Set, values: &[Val]) -> bool {
    match set.to_vec(alloc) {
        Ok(items) => items.as_slice() == values && set.count() as usize == items.len(),
        Err(Memory) => false,
    }
}

fn is_new_set(alloc: Global, made: Result<Edit<Set>, SetFault>, values: &[Val]) -> bool {
    match made {
        Ok(Edit::New(set)) => is_set_of(alloc, &set, values),
        _ => false,
    }
}

fn is_map_of(alloc: Global, map: &Map, pairs: &[(Val, Val)]) -> bool {
    match map.to_vec(alloc) {
        Ok(items) => items.as_slice() == pairs && map.count() as usize == items.len(),
        Err(Memory) => false,
    }
}

fn is_new_map(alloc: Global, made: Result<Edit<Map>, MapFault<Val>>, pairs: &[(Val, Val)]) -> bool {
    match made {
        Ok(Edit::New(map)) => is_map_of(alloc, &map, pairs),
        _ => false,
    }
}

// (each a value of its own, since a value that holds a text is moved where it is used)
fn a() -> Val {
    text(b"a")
}

fn capital_a() -> Val {
    text(b"A")
}

fn b() -> Val {
    text(b"b")
}

fn capital_b() -> Val {
    text(b"B")
}

fn c() -> Val {
    text(b"c")
}

fn number(value: i64) -> Val {
    Val::Int(value)
}

fn removes_in_a_set(alloc: Global, set: &Set) -> bool {
    is_new_set(alloc, set.remove(alloc, &capital_a()), &[capital_b()])
}

fn adds_none_to_a_set(alloc: Global, set: &Set) -> bool {
    matches!(set.add(alloc, capital_a()), Ok(Edit::Same))
}

fn clears_a_set(alloc: Global, set: &Set) -> bool {
    is_new_set(alloc, Ok(set.clear()), &[])
}

fn intersects(alloc: Global, set: &Set) -> bool {
    is_new_set(alloc, set.intersect_with(alloc, &[b()]), &[capital_b()])
}

fn excepts(alloc: Global, set: &Set) -> bool {
    is_new_set(
        alloc,
        set.except_with(alloc, &[capital_a()]),
        &[capital_b()],
    )
}

fn takes_either(alloc: Global, set: &Set) -> bool {
    is_new_set(
        alloc,
        set.sym_except_with(alloc, &[capital_a(), c()]),
        &[capital_b(), c()],
    )
}

fn unites(alloc: Global, set: &Set) -> bool {
    is_new_set(
        alloc,
        set.union_with(alloc, &[capital_a(), c()]),
        &[capital_b(), a(), c()],
    )
}

// The set is "a", "B", whatever the case; in ordinal order "B" is first.
fn set_changes(alloc: Global, set: &Set) -> bool {
    removes_in_a_set(alloc, set)
        && adds_none_to_a_set(alloc, set)
        && clears_a_set(alloc, set)
        && intersects(alloc, set)
        && excepts(alloc, set)
        && takes_either(alloc, set)
        && unites(alloc, set)
}

fn has_its_spelling(set: &Set) -> bool {
    set.actual(&capital_a()) == Some(&a())
}

fn is_superset_of_one(alloc: Global, set: &Set) -> bool {
    matches!(
        set.relation(alloc, SetTest::ProperSuperset, &[b()]),
        Ok(true)
    )
}

fn is_kept_under_another_equality(alloc: Global, set: &Set) -> bool {
    is_new_set(
        alloc,
        set.with_comparer(alloc, ValEq::Ordinal),
        &[capital_b(), a()],
    )
}

fn set_answers(alloc: Global, set: &Set) -> bool {
    is_set_of(alloc, set, &[capital_b(), a()])
        && has_its_spelling(set)
        && is_superset_of_one(alloc, set)
        && is_kept_under_another_equality(alloc, set)
}

fn shared_set_answers(alloc: Global, set: &Set) -> Result<bool, Memory> {
    let shared = ImmHashSet::of_elements(set.elements().share()?);
    Ok(set_answers(alloc, &shared.share()?))
}

fn a_and_capital_b(alloc: Global) -> Result<Option<Set>, SetFault> {
    let empty: Set = ImmHashSet::new(ValEq::NoCase);
    match empty.union_with(alloc, &[a(), capital_b()])? {
        Edit::New(set) => Ok(Some(set)),
        Edit::Same => Ok(None),
    }
}

#[test]
fn sets_answer_in_ordinal_order(rt: HostRuntime) -> Result<(), Fail> {
    let alloc = rt.alloc();
    let set = a_and_capital_b(alloc)?.ok_or("a set")?;
    assert!(rt; set_changes(alloc, &set));
    assert!(rt; shared_set_answers(alloc, &set)?);
    Ok(())
}

// Whether a call is refused, since the key has this value.
fn is_present(made: Result<Edit<Map>, MapFault<Val>>, value: i64) -> bool {
    let present = number(value);
    match &made {
        Err(MapFault::KeyExists { old }) => *old == present,
        _ => false,
    }
}

fn removes_in_a_map(alloc: Global, map: &Map) -> bool {
    is_new_map(alloc, map.remove(alloc, &capital_b()), &[(a(), number(1))])
}

fn sets_in_a_map(alloc: Global, map: &Map) -> bool {
    is_new_map(
        alloc,
        map.set_item(alloc, capital_b(), number(5)),
        &[(capital_b(), number(5)), (a(), number(1))],
    )
}

fn adds_none_to_a_map(alloc: Global, map: &Map) -> bool {
    matches!(map.add(alloc, capital_a(), number(1)), Ok(Edit::Same))
}

fn is_refused_another_value(alloc: Global, map: &Map) -> bool {
    is_present(map.add(alloc, capital_a(), number(2)), 1)
}

fn clears_a_map(alloc: Global, map: &Map) -> bool {
    is_new_map(alloc, Ok(map.clear()), &[])
}

// The map is "a"=1, "b"=2, whatever the case.
fn map_changes_in_one(alloc: Global, map: &Map) -> bool {
    removes_in_a_map(alloc, map)
        && sets_in_a_map(alloc, map)
        && adds_none_to_a_map(alloc, map)
        && is_refused_another_value(alloc, map)
        && clears_a_map(alloc, map)
}

fn adds_a_range(alloc: Global, map: &Map) -> bool {
    is_new_map(
        alloc,
        map.add_range(alloc, &[(c(), number(5))]),
        &[(a(), number(1)), (b(), number(2)), (c(), number(5))],
    )
}

fn sets_a_range(alloc: Global, map: &Map) -> bool {
    is_new_map(
        alloc,
        map.set_items(alloc, &[(capital_a(), number(1)), (capital_b(), number(5))]),
        &[(capital_b(), number(5)), (a(), number(1))],
    )
}

fn removes_a_range(alloc: Global, map: &Map) -> bool {
    is_new_map(
        alloc,
        map.remove_range(alloc, &[capital_a(), capital_b()]),
        &[],
    )
}

// The map is "a"=1, "b"=2, whatever the case.
fn map_changes_in_many(alloc: Global, map: &Map) -> bool {
    adds_a_range(alloc, map) && sets_a_range(alloc, map) && removes_a_range(alloc, map)
}

fn has_a_value(map: &Map, key: &Val, value: i64) -> bool {
    map.get(key) == Some(&number(value))
}

fn map_answers(alloc: Global, map: &Map) -> bool {
    is_map_of(alloc, map, &[(a(), number(1)), (b(), number(2))])
        && has_a_value(map, &capital_b(), 2)
        && map.get_key(&capital_a()) == Some(&a())
        && map.contains_value(&number(2))
}

fn has_its_keys(alloc: Global, map: &Map) -> bool {
    matches!(map.keys(alloc), Ok(keys) if keys.as_slice() == [a(), b()].as_slice())
}

fn has_two_values(alloc: Global, map: &Map) -> bool {
    matches!(map.values(alloc), Ok(values) if values.len() == 2)
}

fn is_shared(map: &Map) -> bool {
    matches!(map.share(), Ok(shared) if shared.count() == 2)
}

fn map_of(alloc: Global, eq: ValEq, pairs: &[(Val, Val)]) -> Result<Option<Map>, MapFault<Val>> {
    let empty: Map = Dict::new(eq);
    match empty.add_range(alloc, pairs)? {
        Edit::New(map) => Ok(Some(map)),
        Edit::Same => Ok(None),
    }
}

#[test]
fn maps_answer_in_ordinal_order(rt: HostRuntime) -> Result<(), Fail> {
    let alloc = rt.alloc();
    let pairs = [(a(), number(1)), (b(), number(2))];
    let map = map_of(alloc, ValEq::NoCase, &pairs)?;
    let map = map.ok_or("a map")?;
    assert!(rt; map_changes_in_one(alloc, &map));
    assert!(rt; map_changes_in_many(alloc, &map));
    assert!(rt; map_answers(alloc, &map) && is_shared(&map));
    assert!(rt; has_its_keys(alloc, &map) && has_two_values(alloc, &map));
    Ok(())
}

fn is_rekeyed_to(alloc: Global, map: &Map, value: i64) -> bool {
    is_present(map.with_comparer(alloc, ValEq::NoCase), value)
}

// "A"=2 and "a"=1 have one key in small letters: the pair that is present is "A"=2.
#[test]
fn two_pairs_with_one_key_are_refused(rt: HostRuntime) -> Result<(), Fail> {
    let alloc = rt.alloc();
    let pairs = [(a(), number(1)), (capital_a(), number(2))];
    let map = map_of(alloc, ValEq::Ordinal, &pairs)?;
    assert!(rt; is_rekeyed_to(alloc, &map.ok_or("a map")?, 2));
    Ok(())
}

fn one_pair(alloc: Global, eq: ValEq, key: Val, value: i64) -> Result<Option<Map>, MapFault<Val>> {
    let empty: Map = Dict::new(eq);
    match empty.add(alloc, key, number(value))? {
        Edit::New(map) => Ok(Some(map)),
        Edit::Same => Ok(None),
    }
}

fn adds_what_is_there(alloc: Global, map: &Map) -> bool {
    matches!(map.add(alloc, a(), number(1)), Ok(Edit::Same))
}

fn adds_what_differs(alloc: Global, map: &Map) -> bool {
    is_present(map.add(alloc, a(), number(2)), 1)
}

fn sets_what_differs(alloc: Global, map: &Map) -> bool {
    is_new_map(
        alloc,
        map.set_item(alloc, a(), number(2)),
        &[(a(), number(2))],
    )
}

// "a" has the value 1.
#[test]
fn a_value_is_added_or_set(rt: HostRuntime) -> Result<(), Fail> {
    let alloc = rt.alloc();
    let map = one_pair(alloc, ValEq::Ordinal, a(), 1)?;
    let map = map.ok_or("a map")?;
    assert!(rt; adds_what_is_there(alloc, &map) && adds_what_differs(alloc, &map));
    assert!(rt; sets_what_differs(alloc, &map));
    assert!(rt; is_map_of(alloc, &map, &[(a(), number(1))]));
    Ok(())
}

// "KEY" has the value 2, whatever the case.
fn a_value_that_is_present_brings_no_spelling(alloc: Global, map: &Map) -> bool {
    matches!(map.set_item(alloc, text(b"key"), number(2)), Ok(Edit::Same))
        && has_a_value(map, &text(b"kEY"), 2)
        && is_map_of(alloc, map, &[(text(b"KEY"), number(2))])
}

fn set_again(alloc: Global, map: &Map) -> bool {
    match map.set_item(alloc, text(b"KEY"), number(2)) {
        Ok(Edit::New(map)) => a_value_that_is_present_brings_no_spelling(alloc, &map),
        _ => false,
    }
}

#[test]
fn a_key_goes_with_its_value(rt: HostRuntime) -> Result<(), Fail> {
    let alloc = rt.alloc();
    let map = one_pair(alloc, ValEq::NoCase, text(b"Key"), 1)?;
    assert!(rt; set_again(alloc, &map.ok_or("a map")?));
    Ok(())
}

fn numbers(alloc: Global, values: &[i64]) -> Result<Vec<Val>, Memory> {
    let mut numbers = Vec::new(alloc);
    for value in values {
        numbers.push(number(*value))?;
    }
    Ok(numbers)
}

fn set_of_numbers(alloc: Global, eq: ValEq, values: &[i64]) -> Result<Set, SetFault> {
    let empty = ImmHashSet::new(eq);
    let values = numbers(alloc, values)?;
    match empty.union_with(alloc, values.as_slice())? {
        Edit::New(set) => Ok(set),
        Edit::Same => Ok(empty),
    }
}

// Whether the set has these numbers and no others.
fn has_numbers(alloc: Global, set: &Set, values: &[i64]) -> Result<bool, Memory> {
    Ok(is_set_of(alloc, set, numbers(alloc, values)?.as_slice()))
}

fn without(alloc: Global, set: &Set, value: i64) -> Result<Option<Set>, SetFault> {
    match set.remove(alloc, &number(value))? {
        Edit::New(rest) => Ok(Some(rest)),
        Edit::Same => Ok(None),
    }
}

const ALL: &[i64] = &[
    1, 2, 3, 4, 5, 6, 7, 8, 9, 10, 11, 12, 13, 14, 15, 16, 17, 18, 19, 20,
];

const LEFT: &[i64] = &[
    2, 3, 4, 5, 6, 7, 8, 9, 11, 12, 13, 14, 15, 16, 17, 18, 19, 20,
];

fn has_no_ten(alloc: Global, set: &Set) -> bool {
    matches!(set.remove(alloc, &number(10)), Ok(Edit::Same)) && !set.contains(&number(10))
}

#[test]
fn a_bucket_of_all_elements_loses_some(rt: HostRuntime) -> Result<(), Fail> {
    let alloc = rt.alloc();
    let set = without(alloc, &set_of_numbers(alloc, ValEq::One, ALL)?, 1)?;
    let rest = without(alloc, &set.ok_or("without 1")?, 10)?.ok_or("without 10")?;
    assert!(rt; has_no_ten(alloc, &rest));
    assert!(rt; has_numbers(alloc, &rest, LEFT)?);
    Ok(())
}

fn are_by_hash(alloc: Global, set: &Set, values: &[i64]) -> Result<bool, Memory> {
    let by_hash = set.elements().to_list(alloc)?;
    Ok(by_hash.as_slice() == numbers(alloc, values)?.as_slice())
}

#[test]
fn elements_stand_by_hash_or_in_ordinal_order(rt: HostRuntime) -> Result<(), Fail> {
    let alloc = rt.alloc();
    let set = set_of_numbers(alloc, ValEq::Ordinal, &[1, -2, 3, -1])?;
    assert!(rt; are_by_hash(alloc, &set, &[-1, -2, 1, 3])?);
    assert!(rt; has_numbers(alloc, &set, &[-2, -1, 1, 3])?);
    Ok(())
}

type Counted<'a> = ImmHashSet<Val, Counting<'a>>;

// Adds the integers below `count`.
fn counted(alloc: Global, counting: Counting<'_>, count: u32) -> Result<Counted<'_>, SetFault> {
    let mut set = ImmHashSet::new(counting);
    for number in 0..count {
        if let Edit::New(more) = set.add(alloc, Val::Int(i64::from(number)))? {
            set = more;
        }
    }
    Ok(set)
}

// How often a search for one of the integers below `count` compares at most.
fn most_of(set: &Counted<'_>, calls: &Cell<u32>, count: u32) -> u32 {
    let mut most = 0;
    for number in 0..count {
        calls.set(0);
        if set.contains(&Val::Int(i64::from(number))) {
            most = most.max(calls.get());
        }
    }
    most
}

fn most_calls(alloc: Global, eq: ValEq, count: u32) -> Result<u32, SetFault> {
    let calls = Cell::new(0);
    let set = counted(alloc, Counting { eq, calls: &calls }, count)?;
    Ok(most_of(&set, &calls, count))
}

#[test]
fn a_search_compares_in_one_bucket_alone(rt: HostRuntime) -> Result<(), Fail> {
    let alloc = rt.alloc();
    assert_eq!(rt; most_calls(alloc, ValEq::Ordinal, 500)?, 1);
    assert_eq!(rt; most_calls(alloc, ValEq::One, 20)?, 20);
    Ok(())
}

// The numbers below the limit.
fn all_numbers(alloc: Global) -> Result<Vec<Val>, Memory> {
    let mut values = Vec::new(alloc);
    for number in 0..LIMIT {
        values.push(Val::Int(i64::from(number)))?;
    }
    Ok(values)
}

fn full_set(alloc: Global) -> Result<Option<Set>, SetFault> {
    let empty: Set = ImmHashSet::new(ValEq::Ordinal);
    match empty.union_with(alloc, all_numbers(alloc)?.as_slice())? {
        Edit::New(set) => Ok(Some(set)),
        Edit::Same => Ok(None),
    }
}

fn is_refused_one_more(alloc: Global, full: &Set) -> bool {
    let refused = full.add(alloc, Val::Int(-1));
    matches!(refused, Err(SetFault::TooLarge { count }) if count == LIMIT)
}

#[test]
fn a_full_set_is_refused_one_more(rt: HostRuntime) -> Result<(), Fail> {
    let alloc = rt.alloc();
    let full = full_set(alloc)?.ok_or("a set")?;
    assert_eq!(rt; full.count(), LIMIT);
    assert!(rt; matches!(full.add(alloc, Val::Int(0)), Ok(Edit::Same)));
    assert!(rt; is_refused_one_more(alloc, &full));
    Ok(())
}

type Tree = HashTree<Val, ValEq>;

fn is_tree_of(alloc: Global, tree: &Tree, values: &[Val]) -> Result<bool, Memory> {
    Ok(tree.to_list(alloc)?.as_slice() == values)
}

fn two(alloc: Global, tree: &Tree) -> Result<Option<Tree>, TreeFault> {
    match tree.add(alloc, Val::Int(1))? {
        Edit::New(tree) => Ok(Some(tree)),
        Edit::Same => Ok(None),
    }
}

fn loses_one(alloc: Global, tree: &Tree) -> Result<bool, TreeFault> {
    match tree.remove(alloc, &Val::Int(2))? {
        Edit::New(rest) => Ok(is_tree_of(alloc, &rest, &[Val::Int(1)])?),
        Edit::Same => Ok(false),
    }
}

// Two values of one hash, of which one is removed again.
#[test]
fn a_tree_keeps_what_has_one_hash(rt: HostRuntime) -> Result<(), Fail> {
    let alloc = rt.alloc();
    let empty: Tree = HashTree::new(ValEq::One);
    let tree = two(alloc, &empty.set(alloc, Val::Int(2))?)?.ok_or("two")?;
    assert!(rt; is_tree_of(alloc, &tree, &[Val::Int(1), Val::Int(2)])?);
    assert!(rt; loses_one(alloc, &tree)?);
    Ok(())
}

fn without_two(alloc: Global, bucket: &Bucket<Val>) -> Result<Bucket<Val>, Memory> {
    bucket.without(alloc, &Val::Int(2), &ValEq::Ordinal)
}

#[test]
fn a_bucket_keeps_what_has_one_hash(rt: HostRuntime) -> Result<(), Fail> {
    let alloc = rt.alloc();
    let one = Bucket::one(alloc, 7, Val::Int(2))?;
    let two = one.put(alloc, Val::Int(1), &ValEq::Ordinal)?;
    assert!(rt; two.hash() == 7 && two.items() == [Val::Int(1), Val::Int(2)].as_slice());
    assert!(rt; without_two(alloc, &two)?.items() == [Val::Int(1)].as_slice());
    Ok(())
}
