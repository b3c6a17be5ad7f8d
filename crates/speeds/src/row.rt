// The rows that are measured of all collections.
use crate::measured::Measured;
use imm_base::Val;
use std::alloc::Global;

/// What is done with a collection.
#[derive(Clone, Copy, Debug, PartialEq, Eq)]
pub(crate) enum Row {
    Build,
    Add,
    LookUp,
    Remove,
    Set,
    Iterate,
    Walk,
    Change,
    Publish,
}

pub(crate) const ROWS: [Row; 9] = [
    Row::Build,
    Row::Add,
    Row::LookUp,
    Row::Remove,
    Row::Set,
    Row::Iterate,
    Row::Walk,
    Row::Change,
    Row::Publish,
];

impl Row {
    /// The word for the row.
    pub(crate) fn word(self) -> &'static str {
        match self {
            Row::Build => "build",
            Row::Add => "add",
            Row::LookUp => "lookup",
            Row::Remove => "remove",
            Row::Set => "set",
            Row::Iterate => "iterate",
            Row::Walk => "walk",
            Row::Change => "change",
            Row::Publish => "publish",
        }
    }

    // How often the call is made on so many elements.
    fn calls(self, count: u32) -> u32 {
        match self {
            Row::Build | Row::Iterate | Row::Walk | Row::Publish => 1,
            Row::Add | Row::Remove | Row::Set => 1_000,
            Row::LookUp => 100_000,
            Row::Change => count / 10,
        }
    }

    /// How many operations the calls are on so many elements: to build, to iterate and to walk is
    /// one an element, and to publish is one for each change before it.
    pub(crate) fn operations(self, count: u32) -> u32 {
        match self {
            Row::Build | Row::Iterate | Row::Walk => count,
            Row::Publish => Row::Change.calls(count),
            _ => self.calls(count),
        }
    }

    /// What is done before the row, and is no part of it: a builder is published before it is
    /// changed, and changed before it is published.
    pub(crate) fn before(self) -> Option<Row> {
        match self {
            Row::Change => Some(Row::Publish),
            Row::Publish => Some(Row::Change),
            _ => None,
        }
    }
}

// The next number of a sequence that goes all over a collection.
fn next_number(number: u32) -> u32 {
    number.wrapping_mul(1_664_525).wrapping_add(1_013_904_223)
}

/// What the calls of the row come to, on the collection of so many values. `None`: the collection
/// has no such call, or one failed.
pub(crate) fn work<C: Measured>(
    alloc: Global,
    row: Row,
    base: &mut C,
    values: &[Val],
    count: u32,
) -> Option<u64> {
    if row == Row::Build {
        return C::build(alloc, values).map(|_collection| 1);
    }
    let mut sum = 0u64;
    let mut number = 0u32;
    for _ in 0..row.calls(count) {
        number = next_number(number);
        let place = number / 16 % count.max(1);
        sum = sum.wrapping_add(base.call(alloc, row, place)?);
    }
    Some(sum)
}
