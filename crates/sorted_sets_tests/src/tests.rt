use imm_base::{Edit, LIMIT, Memory, SetFault, SetTest, Text24, Val, ValOrder};
use sorted_sets::*;
use std::alloc::Global;
use std::test::Fail;

type Set = SortedSet<Val, ValOrder>;

fn set_of(alloc: Global, order: ValOrder, numbers: &[i64]) -> Result<Set, SetFault> {
    let mut set = SortedSet::new(order);
    for number in numbers {
        if let Edit::New(more) = set.add(alloc, Val::Int(*number))? {
            set = more;
        }
    }
    Ok(set)
}

fn is_set_of(set: &Set, numbers: &[i64]) -> bool {
    let mut index = 0u32;
    for number in numbers {
        match set.get(index) {
            Ok(Val::Int(found)) if found == number => index = index.saturating_add(1),
            _ => return false,
        }
    }
    set.count() == index
}

fn is_new(made: Result<Edit<Set>, SetFault>, numbers: &[i64]) -> bool {
    match made {
        Ok(Edit::New(set)) => is_set_of(&set, numbers),
        _ => false,
    }
}

fn is_same(made: Result<Edit<Set>, SetFault>) -> bool {
    matches!(made, Ok(Edit::Same))
}

fn is_refused(made: Result<Edit<Set>, SetFault>, wanted: SetFault) -> bool {
    match made {
        Ok(_) => false,
        Err(fault) => fault == wanted,
    }
}

// The set is 5, 3, 1, in the reverse order.
fn answers_questions(set: &Set) -> bool {
    set.count() == 3
        && set.index_of(&Val::Int(4)) == -2
        && set.index_of(&Val::Int(1)) == 2
        && set.index_of(&Val::Int(0)) == -4
        && set.contains(&Val::Int(3))
        && !set.contains(&Val::Int(4))
        && set.min() == Some(&Val::Int(5))
        && set.max() == Some(&Val::Int(1))
        && set.order() == ValOrder::Reverse
}

// The set is 5, 3, 1, in the reverse order.
fn changes_one_element(alloc: Global, set: &Set) -> bool {
    is_new(set.add(alloc, Val::Int(4)), &[5, 4, 3, 1])
        && is_same(set.add(alloc, Val::Int(3)))
        && is_new(set.remove(alloc, &Val::Int(3)), &[5, 1])
        && is_same(set.remove(alloc, &Val::Int(4)))
        && is_new(Ok(set.clear()), &[])
        && matches!(
            SortedSet::<Val, ValOrder>::new(ValOrder::NoCase).clear(),
            Edit::Same
        )
}

// The set is 5, 3, 1, in the reverse order.
fn is_copied(alloc: Global, set: &Set) -> Result<bool, Memory> {
    let values = set.to_vec(alloc)?;
    let shared = set.share()?;
    let again = SortedSet::of_tree(set.tree().share()?, set.order());
    Ok(
        values.as_slice() == [Val::Int(5), Val::Int(3), Val::Int(1)].as_slice()
            && is_set_of(&shared, &[5, 3, 1])
            && is_set_of(&again, &[5, 3, 1])
            && again.order() == ValOrder::Reverse,
    )
}

// The set is 5, 3, 1, in the reverse order.
fn changes_many(alloc: Global, set: &Set) -> bool {
    is_new(
        set.union_with(alloc, &[Val::Int(2), Val::Int(9), Val::Int(2)]),
        &[9, 5, 3, 2, 1],
    ) && is_same(set.union_with(alloc, &[Val::Int(1), Val::Int(5)]))
        && is_new(
            set.intersect_with(alloc, &[Val::Int(3), Val::Int(4), Val::Int(5)]),
            &[5, 3],
        )
        && is_same(set.intersect_with(alloc, &[Val::Int(1), Val::Int(3), Val::Int(5)]))
        && is_new(set.except_with(alloc, &[Val::Int(3), Val::Int(4)]), &[5, 1])
        && is_same(set.except_with(alloc, &[Val::Int(4)]))
        && is_new(
            set.sym_except_with(alloc, &[Val::Int(3), Val::Int(4), Val::Int(4)]),
            &[5, 4, 1],
        )
        && is_same(set.sym_except_with(alloc, &[]))
}

fn stands(alloc: Global, set: &Set, which: SetTest, values: &[Val], wanted: bool) -> bool {
    match set.relation(alloc, which, values) {
        Ok(answer) => answer == wanted,
        Err(_) => false,
    }
}

// The set is 5, 3, 1, in the reverse order.
fn stands_to_all(alloc: Global, set: &Set) -> bool {
    let all = [Val::Int(1), Val::Int(3), Val::Int(5), Val::Int(5)];
    stands(alloc, set, SetTest::Subset, &all, true)
        && stands(alloc, set, SetTest::Superset, &all, true)
        && stands(alloc, set, SetTest::ProperSubset, &all, false)
        && stands(alloc, set, SetTest::ProperSuperset, &all, false)
        && stands(alloc, set, SetTest::Overlaps, &all, true)
        && stands(alloc, set, SetTest::SetEquals, &all, true)
}

// The set is 5, 3, 1, in the reverse order.
fn stands_to_one(alloc: Global, set: &Set) -> bool {
    let one = [Val::Int(3)];
    let other = [Val::Int(4)];
    stands(alloc, set, SetTest::Subset, &one, false)
        && stands(alloc, set, SetTest::ProperSuperset, &one, true)
        && stands(alloc, set, SetTest::Superset, &other, false)
        && stands(alloc, set, SetTest::Overlaps, &other, false)
        && stands(alloc, set, SetTest::SetEquals, &one, false)
}

#[test]
fn calls_are_those_of_a_set(rt: HostRuntime) -> Result<(), Fail> {
    let alloc = rt.alloc();
    let set = set_of(alloc, ValOrder::Reverse, &[1, 3, 5])?;
    assert!(rt; is_set_of(&set, &[5, 3, 1]));
    assert!(rt; answers_questions(&set));
    assert!(rt; changes_one_element(alloc, &set));
    assert!(rt; is_copied(alloc, &set)?);
    Ok(())
}

#[test]
fn calls_with_many_values_are_those_of_a_set(rt: HostRuntime) -> Result<(), Fail> {
    let alloc = rt.alloc();
    let set = set_of(alloc, ValOrder::Reverse, &[1, 3, 5])?;
    assert!(rt; changes_many(alloc, &set));
    assert!(rt; stands_to_all(alloc, &set));
    assert!(rt; stands_to_one(alloc, &set));
    Ok(())
}

fn text(bytes: &[u8]) -> Val {
    match Text24::from_bytes(bytes) {
        Some(text) => Val::Text(text),
        None => Val::Int(0),
    }
}

// The set has the text `Key` alone, in an order that does not tell small letters from others.
fn keeps_the_spelling(alloc: Global, set: &Set) -> bool {
    set.actual(&text(b"KEY")) == Some(&text(b"Key"))
        && is_same(set.add(alloc, text(b"key")))
        && is_same(set.union_with(alloc, &[text(b"kEY")]))
        && is_same(set.intersect_with(alloc, &[text(b"kEY")]))
        && is_new(set.except_with(alloc, &[text(b"kEY")]), &[])
}

// The set has the texts `a` and `A`.
fn is_put_in_another_order(alloc: Global, set: &Set) -> bool {
    match set.with_order(alloc, ValOrder::NoCase) {
        Ok(Edit::New(one)) => {
            one.count() == 1
                && one.min() == Some(&text(b"A"))
                && one.order() == ValOrder::NoCase
                && is_same(one.with_order(alloc, ValOrder::NoCase))
        }
        _ => false,
    }
}

#[test]
fn elements_keep_their_spelling(rt: HostRuntime) -> Result<(), Fail> {
    let alloc = rt.alloc();
    let empty: Set = SortedSet::new(ValOrder::NoCase);
    if let Edit::New(set) = empty.add(alloc, text(b"Key"))? {
        assert!(rt; keeps_the_spelling(alloc, &set));
    }
    let empty: Set = SortedSet::new(ValOrder::Reverse);
    if let Edit::New(set) = empty.union_with(alloc, &[text(b"a"), text(b"A")])? {
        assert!(rt; is_put_in_another_order(alloc, &set));
    }
    Ok(())
}

// A full set takes no further element, and one that is present is no further one.
fn keeps_the_limit(alloc: Global, full: &Set) -> bool {
    let too_large = SetFault::TooLarge { count: LIMIT };
    is_same(full.add(alloc, Val::Int(0)))
        && is_same(full.union_with(alloc, &[Val::Int(0), Val::Int(1)]))
        && is_refused(full.add(alloc, Val::Int(-1)), too_large)
        && is_refused(full.union_with(alloc, &[Val::Int(-1)]), too_large)
        && is_refused(full.sym_except_with(alloc, &[Val::Int(-1)]), too_large)
}

#[test]
fn a_full_set_is_refused_one_more(rt: HostRuntime) -> Result<(), Fail> {
    let alloc = rt.alloc();
    let mut values = Vec::new(alloc);
    for number in 0..LIMIT {
        values
            .push(Val::Int(i64::from(number)))
            .map_err(Memory::from)?;
    }
    let empty: Set = SortedSet::new(ValOrder::Ordinal);
    if let Edit::New(full) = empty.union_with(alloc, values.as_slice())? {
        assert_eq!(rt; full.count(), LIMIT);
        assert!(rt; keeps_the_limit(alloc, &full));
    }
    Ok(())
}
