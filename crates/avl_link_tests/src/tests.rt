use avl_link::Link;
use avl_node::{Tree, TreeFault};
use imm_base::{Val, ValOrder, ValTest};
use std::alloc::Global;
use std::test::Fail;

// The numbers from 0 on, each inserted at the end.
fn counted_up(alloc: Global, count: u32) -> Result<Link<Val>, TreeFault> {
    let mut link = Link::new();
    for number in 0..count {
        link.insert_own(alloc, number, Val::Int(i64::from(number)))?;
    }
    Ok(link)
}

// 9 in the place of 0, and no 1.
fn change(alloc: Global, link: &mut Link<Val>) -> Result<(), TreeFault> {
    link.replace_own(alloc, 0, Val::Int(9))?;
    link.remove_own(alloc, 1)
}

fn tree_is(tree: &Tree<Val>, first: i64, second: i64, count: u32) -> bool {
    tree.at(0) == Some(&Val::Int(first))
        && tree.at(1) == Some(&Val::Int(second))
        && tree.count() == count
}

fn freezes_what_changed(alloc: Global, link: &mut Link<Val>) -> Result<bool, TreeFault> {
    change(alloc, link)?;
    Ok(tree_is(&link.freeze(alloc)?, 9, 2, 99))
}

#[test]
fn what_was_frozen_stays_through_later_changes(rt: HostRuntime) -> Result<(), Fail> {
    let alloc = rt.alloc();
    let mut link = counted_up(alloc, 100)?;
    let frozen = link.freeze(alloc)?;
    assert!(rt; freezes_what_changed(alloc, &mut link)?);
    assert!(rt; tree_is(&frozen, 0, 1, 100));
    Ok(())
}

// 3 and 5, as another tree has them.
fn three_and_five(alloc: Global) -> Result<Link<Val>, TreeFault> {
    let tree = Tree::from_slice(alloc, &[Val::Int(3), Val::Int(5)])?;
    Ok(Link::of_tree(&tree)?)
}

fn is_read(link: &Link<Val>) -> bool {
    link.is_sorted(&ValOrder::Ordinal)
        && link.search_by(&Val::Int(4), &ValOrder::Ordinal) == Err(1)
        && link.any(&ValTest::Is(Val::Int(5)))
}

fn refuses_the_place_2(alloc: Global, link: &mut Link<Val>) -> bool {
    let refusal = TreeFault::OutOfRange { index: 2, count: 2 };
    link.remove_own(alloc, 2) == Err(refusal) && link.count() == 2
}

#[test]
fn a_shared_tree_is_read_and_refuses_what_is_out_of_range(rt: HostRuntime) -> Result<(), Fail> {
    let alloc = rt.alloc();
    let mut link = three_and_five(alloc)?;
    assert!(rt; is_read(&link));
    assert!(rt; refuses_the_place_2(alloc, &mut link));
    Ok(())
}
