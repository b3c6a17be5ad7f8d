use avl_node::Tree;
use imm_base::{Edit, LIMIT, Memory, Val, ValOrder, ValTest};
use imm_list::*;
use std::alloc::Global;
use std::test::Fail;

fn list_of(alloc: Global, numbers: &[i64]) -> Result<ImmList<Val>, ListFault> {
    let mut values = Vec::new(alloc);
    for number in numbers {
        values.push(Val::Int(*number)).map_err(Memory::from)?;
    }
    ImmList::from_slice(alloc, values.as_slice())
}

fn is_list_of(list: &ImmList<Val>, numbers: &[i64]) -> bool {
    let mut index = 0u32;
    for number in numbers {
        match list.get(index) {
            Ok(Val::Int(found)) if found == number => index = index.saturating_add(1),
            _ => return false,
        }
    }
    list.count() == index
}

fn is_new(made: Result<Edit<ImmList<Val>>, ListFault>, numbers: &[i64]) -> bool {
    match made {
        Ok(Edit::New(list)) => is_list_of(&list, numbers),
        _ => false,
    }
}

fn is_same(made: Result<Edit<ImmList<Val>>, ListFault>) -> bool {
    matches!(made, Ok(Edit::Same))
}

fn is_refused(made: Result<Edit<ImmList<Val>>, ListFault>, wanted: ListFault) -> bool {
    match made {
        Ok(_) => false,
        Err(fault) => fault == wanted,
    }
}

fn out_of_range(index: u32) -> ListFault {
    ListFault::OutOfRange { index, count: 4 }
}

// The list is 5, 3, 9, 3.
fn changes_one_element(alloc: Global, list: &ImmList<Val>) -> bool {
    is_new(list.add(alloc, Val::Int(1)), &[5, 3, 9, 3, 1])
        && is_new(list.insert(alloc, 4, Val::Int(30)), &[5, 3, 9, 3, 30])
        && is_refused(list.insert(alloc, 5, Val::Int(30)), out_of_range(5))
        && is_new(list.remove_at(alloc, 0), &[3, 9, 3])
        && is_refused(list.remove_at(alloc, 4), out_of_range(4))
        && is_new(list.set_item(alloc, 3, Val::Int(0)), &[5, 3, 9, 0])
        && is_new(list.remove(alloc, &Val::Int(3)), &[5, 9, 3])
        && is_same(list.remove(alloc, &Val::Int(4)))
        && is_new(
            list.replace(alloc, &Val::Int(9), Val::Int(1)),
            &[5, 3, 1, 3],
        )
        && is_refused(
            list.replace(alloc, &Val::Int(4), Val::Int(1)),
            ListFault::NotFound,
        )
}

// The list is 5, 3, 9, 3.
fn changes_ranges(alloc: Global, list: &ImmList<Val>) -> bool {
    is_new(
        list.add_range(alloc, &[Val::Int(1), Val::Int(2)]),
        &[5, 3, 9, 3, 1, 2],
    ) && is_same(list.add_range(alloc, &[]))
        && is_new(
            list.insert_range(alloc, 1, &[Val::Int(7), Val::Int(8)]),
            &[5, 7, 8, 3, 9, 3],
        )
        && is_new(list.remove_range(alloc, 2, 2), &[5, 3])
        && is_same(list.remove_range(alloc, 4, 0))
        && is_new(list.get_range(alloc, 1, 2), &[3, 9])
        && is_same(list.get_range(alloc, 0, 4))
        && is_refused(list.get_range(alloc, 2, 3), out_of_range(2))
}

// The list is 5, 3, 9, 3.
fn changes_all(alloc: Global, list: &ImmList<Val>) -> bool {
    is_new(
        list.remove_all(alloc, &ValTest::Above(Val::Int(4))),
        &[3, 3],
    ) && is_same(list.remove_all(alloc, &ValTest::Above(Val::Int(9))))
        && is_new(list.reverse(alloc), &[3, 9, 3, 5])
        && is_new(list.sort(alloc, &ValOrder::Ordinal), &[3, 3, 5, 9])
        && is_new(list.sort(alloc, &ValOrder::Reverse), &[9, 5, 3, 3])
        && is_new(Ok(list.clear()), &[])
}

// The list is 5, 3, 9, 3.
fn answers_questions(list: &ImmList<Val>) -> bool {
    list.index_of(&Val::Int(3)) == Some(1)
        && list.last_index_of(&Val::Int(3)) == Some(3)
        && list.contains(&Val::Int(9))
        && !list.contains(&Val::Int(4))
        && !list.is_sorted(&ValOrder::Ordinal)
}

// The list is 1, 3, 3, 7.
fn is_searched(list: &ImmList<Val>) -> bool {
    list.is_sorted(&ValOrder::Ordinal)
        && list.binary_search(&Val::Int(3), &ValOrder::Ordinal) == 1
        && list.binary_search(&Val::Int(4), &ValOrder::Ordinal) == -4
        && list.binary_search(&Val::Int(9), &ValOrder::Ordinal) == -5
}

#[test]
fn calls_are_those_of_a_list(rt: HostRuntime) -> Result<(), Fail> {
    let list = list_of(rt.alloc(), &[5, 3, 9, 3])?;
    assert!(rt; changes_one_element(rt.alloc(), &list));
    assert!(rt; changes_ranges(rt.alloc(), &list));
    assert!(rt; changes_all(rt.alloc(), &list));
    assert!(rt; answers_questions(&list));
    Ok(())
}

#[test]
fn a_sorted_list_is_searched(rt: HostRuntime) -> Result<(), Fail> {
    let list = list_of(rt.alloc(), &[1, 3, 3, 7])?;
    assert!(rt; is_searched(&list));
    Ok(())
}

// A full list takes no more, and takes one where one is removed.
fn keeps_the_limit(alloc: Global, full: &ImmList<Val>) -> bool {
    match full.remove_at(alloc, LIMIT - 1) {
        Ok(Edit::New(shorter)) => {
            let too_large = ListFault::TooLarge { count: LIMIT };
            is_refused(full.add(alloc, Val::Int(1)), too_large)
                && matches!(shorter.add(alloc, Val::Int(1)), Ok(Edit::New(_)))
        }
        _ => false,
    }
}

#[test]
fn a_full_list_is_refused_one_more(rt: HostRuntime) -> Result<(), Fail> {
    let alloc = rt.alloc();
    let mut full = list_of(alloc, &[0])?;
    for _ in 0..16 {
        let values = full.to_vec(alloc)?;
        if let Edit::New(twice) = full.add_range(alloc, values.as_slice())? {
            full = twice;
        }
    }
    assert_eq!(rt; full.count(), LIMIT);
    assert!(rt; keeps_the_limit(alloc, &full));
    Ok(())
}

fn root_of(alloc: Global, tree: &Tree<Val>) -> Result<Option<Val>, Memory> {
    if tree.height() == 0 {
        return Ok(None);
    }
    let parts = tree.share()?.into_parts(alloc)?;
    Ok(Some(parts.value))
}

#[test]
fn a_list_is_shared_and_its_tree_is_taken_apart(rt: HostRuntime) -> Result<(), Fail> {
    let list = list_of(rt.alloc(), &[5, 3, 9])?;
    let shared = list.share()?;
    let root = root_of(rt.alloc(), shared.tree())?;
    assert!(rt; is_list_of(&shared, &[5, 3, 9]));
    assert_eq!(rt; root, Some(Val::Int(3)));
    Ok(())
}
