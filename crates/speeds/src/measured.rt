// What is measured of a collection.
use crate::row::Row;
use enumerators::{Walk, Walked};
use imm_base::{Edit, LIMIT, Val};
use plain_model::Elem;
use stack_pool::Pool;
use std::alloc::Global;

/// A collection whose calls are measured, of the elements `value_of(0)`, `value_of(1)` and so on, or
/// with these as its keys.
pub(crate) trait Measured: Sized + Drop {
    /// What it is called in the output.
    const NAME: &'static str;

    /// The collection of these values. `None`: for want of memory.
    fn build(alloc: Global, values: &[Val]) -> Option<Self>;

    /// What a call of the row at that number comes to. `None`: there is no such call, or it failed.
    fn call(&mut self, alloc: Global, row: Row, number: u32) -> Option<u64>;
}

pub(crate) fn value_of(number: u32) -> Val {
    Val::Int(2 * i64::from(number))
}

/// A value between that of the number and the next one.
pub(crate) fn value_behind(number: u32) -> Val {
    Val::Int(2 * i64::from(number) + 1)
}

/// The other collection, where there is one.
pub(crate) fn other<C: Drop, F: Drop>(made: Result<Edit<C>, F>) -> Option<C> {
    match made {
        Ok(Edit::New(collection)) => Some(collection),
        Ok(Edit::Same) => None,
        Err(_) => None,
    }
}

/// 1 for another collection.
pub(crate) fn changed<C: Drop, F: Drop>(made: Result<Edit<C>, F>) -> Option<u64> {
    other(made).map(|_collection| 1)
}

// The sum with the value, where that is an integer.
fn plus(sum: u64, value: &Val) -> u64 {
    match value {
        Val::Int(number) => sum.wrapping_add(number.cast_unsigned()),
        Val::Text(_) => sum,
    }
}

/// The sum of the integers.
pub(crate) fn sum_of(values: &[Val]) -> u64 {
    let mut sum = 0u64;
    for value in values {
        sum = plus(sum, value);
    }
    sum
}

/// The sum of the integers, where there are any.
pub(crate) fn sum_of_all<F: Drop>(values: Result<Vec<Val>, F>) -> Option<u64> {
    match values {
        Ok(values) => Some(sum_of(values.as_slice())),
        Err(_) => None,
    }
}

/// The sum of the integers, or of the keys, that a walk comes to. `None`: for want of memory.
pub(crate) fn sum_of_walk<C: Walked>(alloc: Global, walked: &mut C) -> Option<u64> {
    let mut pool = Pool::make(alloc).ok()?;
    let rest = walked.rest(alloc).ok()?;
    let version = walked.version();
    let walk = Walk::start(rest, version, &mut pool).ok()?;
    let mut sum = 0u64;
    for _ in 0..LIMIT {
        match walk.next(&mut pool, version).ok()? {
            Some(Elem::One(value)) => sum = plus(sum, &value),
            Some(Elem::Pair(key, _)) => sum = plus(sum, &key),
            None => return Some(sum),
        }
    }
    Some(sum)
}
