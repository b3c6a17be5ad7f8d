ghost use Rattle.imm_base.specs.Order.{order_cmp};
ghost use Rattle.imm_base.specs.OrderLaws.{order_total};

use avl_node::*;
use imm_base::{LIMIT, Memory, Order, Test, Val, ValOrder, ValTest};
use std::alloc::Global;
use std::cell::Cell;
use std::cmp::Ordering;
use std::test::Fail;
use std::thread::join;

// An order of values that counts how often it compares.
#[derive(Clone, Copy)]
#[derive_where(PartialEq, Eq)]
struct Counting<'a> {
    order: ValOrder,
    #[derive_where(skip)]
    calls: &'a Cell<u32>,
}

impl Order<Val> for Counting<'_> {
    ghost order = { λ counting. order_cmp counting.order };

    fn compare(&self, a: &Val, b: &Val) -> Ordering {
        self.calls.set(self.calls.get().saturating_add(1));
        self.order.compare(a, b)
    }

    ghost total = { λ counting. order_total counting.order };
}

// The list of the integers below the limit.
fn full(alloc: Global) -> Result<Tree<Val>, TreeFault> {
    let mut values = Vec::new(alloc);
    for number in 0..LIMIT {
        let value = Val::Int(i64::from(number));
        values.push(value).map_err(Memory::from)?;
    }
    Tree::from_slice(alloc, values.as_slice())
}

fn is_list_of(tree: &Tree<Val>, numbers: &[i64]) -> bool {
    let mut index = 0u32;
    for number in numbers {
        match tree.at(index) {
            Some(Val::Int(found)) if found == number => index = index.saturating_add(1),
            _ => return false,
        }
    }
    tree.count() == index
}

fn gives(made: Result<Tree<Val>, TreeFault>, numbers: &[i64]) -> bool {
    match made {
        Ok(tree) => is_list_of(&tree, numbers),
        Err(_) => false,
    }
}

fn refuses(made: Result<Tree<Val>, TreeFault>, wanted: TreeFault) -> bool {
    match made {
        Ok(_) => false,
        Err(fault) => fault == wanted,
    }
}

// The calls on the list of 1, 2 and 3 give these lists.
fn are_list_operations(alloc: Global, tree: &Tree<Val>) -> bool {
    gives(tree.insert_at(alloc, 0, Val::Int(9)), &[9, 1, 2, 3])
        && gives(tree.insert_at(alloc, 3, Val::Int(9)), &[1, 2, 3, 9])
        && gives(tree.remove_at(alloc, 1), &[1, 3])
        && gives(tree.replace_at(alloc, 2, Val::Int(9)), &[1, 2, 9])
        && gives(tree.concat(alloc, tree), &[1, 2, 3, 1, 2, 3])
        && gives(tree.cut(alloc, 1, 2), &[2, 3])
}

#[test]
fn calls_are_those_of_a_list(rt: HostRuntime) -> Result<(), Fail> {
    let tree = Tree::from_slice(rt.alloc(), &[Val::Int(1), Val::Int(2), Val::Int(3)])?;
    assert!(rt; are_list_operations(rt.alloc(), &tree));
    Ok(())
}

fn out_of_range(index: u32) -> TreeFault {
    TreeFault::OutOfRange {
        index,
        count: LIMIT,
    }
}

// The calls on a full list are refused with the place and the count.
fn are_refused(alloc: Global, full: &Tree<Val>) -> bool {
    let too_large = TreeFault::TooLarge { count: LIMIT };
    refuses(full.insert_at(alloc, LIMIT, Val::Int(0)), too_large)
        && refuses(full.concat(alloc, full), too_large)
        && refuses(
            full.insert_at(alloc, LIMIT + 1, Val::Int(0)),
            out_of_range(LIMIT + 1),
        )
        && refuses(full.remove_at(alloc, LIMIT), out_of_range(LIMIT))
        && refuses(
            full.replace_at(alloc, LIMIT, Val::Int(0)),
            out_of_range(LIMIT),
        )
        && refuses(full.cut(alloc, 2, LIMIT - 1), out_of_range(2))
}

#[test]
fn refusals_tell_the_place_and_the_count(rt: HostRuntime) -> Result<(), Fail> {
    let full = full(rt.alloc())?;
    assert!(rt; are_refused(rt.alloc(), &full));
    Ok(())
}

#[test]
fn a_search_compares_one_element_a_level(rt: HostRuntime) -> Result<(), Fail> {
    let full = full(rt.alloc())?;
    assert_eq!(rt; full.height(), 17);
    let calls = Cell::new(0u32);
    let order = Counting {
        order: ValOrder::Ordinal,
        calls: &calls,
    };
    assert!(rt; full.is_sorted(&order));
    let mut most = 0u32;
    for number in 0..LIMIT {
        calls.set(0);
        let place = full.find_by(&Val::Int(i64::from(number)), &order);
        assert_eq!(rt; place, (number, true));
        most = most.max(calls.get());
    }
    assert!(rt; most <= 17, "{most} comparisons");
    Ok(())
}

#[test]
fn two_threads_read_one_tree(rt: HostRuntime) -> Result<(), Fail> {
    let tree = full(rt.alloc())?;
    let low = ValTest::Above(Val::Int(100));
    let high = ValTest::Below(Val::Int(200));
    let (first, last) = join(&rt, || tree.position(&low), || tree.last_position(&high));
    assert_eq!(rt; first, Some(101));
    assert_eq!(rt; last, Some(199));
    Ok(())
}
