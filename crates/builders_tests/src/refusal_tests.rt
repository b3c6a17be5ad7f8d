// The builder where the copy of an element is refused.
use builders::*;
use imm_base::{Dup, Item, Memory, Step};
use imm_list::{ImmList, ListFault};
use std::alloc::Global;
use std::cell::Cell;
use std::test::Fail;

// A number, and how many copies until one is refused; at 0 none is.
#[derive(Drop)]
#[derive_where(PartialEq, Eq)]
struct Element<'a> {
    number: i64,
    #[derive_where(skip)]
    copies: &'a Cell<u32>,
}

impl Dup for Element<'_> {
    fn dup(&self, _alloc: Global) -> Result<Self, Memory> {
        let left = self.copies.get();
        self.copies.set(left.saturating_sub(1));
        if left == 1 {
            return Err(Memory);
        }
        Ok(Element {
            number: self.number,
            copies: self.copies,
        })
    }
}

impl Item for Element<'_> {}

type Elements<'a> = ListBuilder<Element<'a>>;

// The changes, of which each stage has one more: 100 in place of 10, and then 20 taken out.
fn change<'a>(
    alloc: Global,
    builder: &mut Elements<'a>,
    stage: u32,
    copies: &'a Cell<u32>,
) -> Result<Step, ListFault> {
    if builder.version() > 1000 {
        return Err(ListFault::Memory);
    }
    if stage == 0 {
        let number = 100;
        builder.set_item(alloc, 10, Element { number, copies })
    } else {
        builder.remove_at(alloc, 20)
    }
}

fn number_at(stage: u32, index: u32) -> i64 {
    if index == 10 && stage > 0 {
        100
    } else if index >= 20 && stage > 1 {
        i64::from(index) + 1
    } else {
        i64::from(index)
    }
}

fn count_at(stage: u32) -> u32 {
    if stage > 1 { 49 } else { 50 }
}

fn is_published(list: &ImmList<Element<'_>>, stage: u32) -> bool {
    for index in 0..count_at(stage) {
        match list.get(index) {
            Ok(element) if element.number == number_at(stage, index) => {}
            _ => return false,
        }
    }
    list.count() == count_at(stage)
}

fn is_built(builder: &Elements<'_>, stage: u32) -> bool {
    for index in 0..count_at(stage) {
        match builder.get(index) {
            Ok(element) if element.number == number_at(stage, index) => {}
            _ => return false,
        }
    }
    builder.count() == count_at(stage) && builder.version() == 50 + u64::from(stage)
}

// The numbers below 50.
fn fifty(alloc: Global, copies: &Cell<u32>) -> Result<Elements<'_>, ListFault> {
    let mut builder = ListBuilder::from(&ImmList::new())?;
    for number in 0..50 {
        if builder.version() < 50 {
            builder.add(alloc, Element { number, copies })?;
        }
    }
    Ok(builder)
}

// What is published, by a second call where a copy was refused, or nothing where the refusal did
// not leave the builder as it was.
fn published<'a>(
    alloc: Global,
    builder: &mut Elements<'a>,
    stage: u32,
) -> Result<Option<ImmList<Element<'a>>>, Memory> {
    if let Ok(list) = builder.to_immutable(alloc) {
        return Ok(Some(list));
    }
    if !is_built(builder, stage) {
        return Ok(None);
    }
    Ok(Some(builder.to_immutable(alloc)?))
}

// Makes the next change, by a second call where a copy was refused, and says whether the refusal
// left the builder as it was.
fn is_changed<'a>(
    alloc: Global,
    builder: &mut Elements<'a>,
    stage: u32,
    copies: &'a Cell<u32>,
) -> Result<bool, ListFault> {
    if change(alloc, builder, stage, copies).is_ok() {
        return Ok(true);
    }
    let stands = is_built(builder, stage);
    change(alloc, builder, stage, copies)?;
    Ok(stands)
}

fn publishes_the_last(alloc: Global, builder: &mut Elements<'_>) -> Result<bool, Memory> {
    match published(alloc, builder, 2)? {
        Some(list) => Ok(is_published(&list, 2)),
        None => Ok(false),
    }
}

// Makes both changes and publishes again, and says whether each refusal left all as it was.
fn goes_on<'a>(
    alloc: Global,
    builder: &mut Elements<'a>,
    copies: &'a Cell<u32>,
) -> Result<bool, ListFault> {
    let is_set = is_changed(alloc, builder, 0, copies)?;
    let is_removed = is_changed(alloc, builder, 1, copies)?;
    Ok(is_set && is_removed && publishes_the_last(alloc, builder)?)
}

// Builds, publishes, changes and publishes again, and says whether each refusal left all as it was,
// and what was published is what it was.
fn stands(alloc: Global, copies: &Cell<u32>) -> Result<bool, ListFault> {
    let mut builder = fifty(alloc, copies)?;
    match published(alloc, &mut builder, 0)? {
        Some(first) => Ok(goes_on(alloc, &mut builder, copies)? && is_published(&first, 0)),
        None => Ok(false),
    }
}

#[test]
fn whichever_copy_is_refused_all_stands(rt: HostRuntime) -> Result<(), Fail> {
    let mut most = 0;
    for refused in 1..200u32 {
        let copies = Cell::new(refused);
        assert!(rt; stands(rt.alloc(), &copies)?);
        if copies.get() == 0 {
            most = refused;
        }
    }
    assert!(rt; 50 < most && most < 199);
    Ok(())
}
