// Which strategy is chosen.
ghost use Rattle.std.specs.Prelude.{◌≡◌, ◌||◌, find, map, not, IfOk};
ghost use Rattle.std.specs.List.{list_any};
ghost use Rattle.std.specs.Ordering.{eq_by_cmp};
ghost use Rattle.plain_model.specs.Frozen.{are_distinct, is_integer, is_ordinal, numbers_from, slice_of, strategy_of, tells_apart, text_bytes};

use crate::kept::firsts;
use crate::order::{ByLength, ByPiece};
use crate::pieces::least_length;
use imm_base::{Memory, Order, Val, ValEq};
use plain_model::Strategy;
use std::alloc::Global;

// The strategy for these keys. O(n log n) for each of the at most 300 slices that are tried.
pub(crate) fn strategy_of(alloc: Global, keys: &[Val], eq: ValEq) -> Result<Strategy, Memory>
    ensures { IfOk result (λ strategy. strategy ≡ strategy_of eq keys.now) }
{
    if keys.len() <= 4 {
        return Ok(Strategy::Linear);
    }
    if are_hashed(keys, eq) {
        return Ok(Strategy::Hash);
    }
    if are_apart(alloc, keys, &ByLength)? {
        return Ok(Strategy::Length);
    }
    match slice_of(alloc, keys)? {
        Some((start, len)) => Ok(Strategy::Slice { start, len }),
        None => Ok(Strategy::Hash),
    }
}

// Whether neither lengths nor slices can tell the keys apart.
fn are_hashed(keys: &[Val], eq: ValEq) -> bool
    ensures { result ≡ (list_any is_integer keys.now || not (is_ordinal eq)) }
{
    any_integer(keys) || !is_ordinal(eq)
}

fn any_integer(keys: &[Val]) -> bool
    ensures { result ≡ list_any is_integer keys.now }
{
    keys.iter().any(is_integer)
}

fn is_integer(key: &Val) -> bool
    ensures { result ≡ is_integer key.now }
{
    matches!(key, Val::Int(_))
}

fn is_ordinal(eq: ValEq) -> bool
    ensures { result ≡ is_ordinal eq }
{
    matches!(eq, ValEq::Ordinal)
}

// Whether no two keys are equal in the order. O(n log n).
fn are_apart<O: Order<Val>>(alloc: Global, keys: &[Val], order: &O) -> Result<bool, Memory>
    ensures { IfOk result (λ apart. apart ≡ are_distinct (eq_by_cmp (O.order order.now)) keys.now) }
{
    let keys = Vec::from_slice(alloc, keys)?;
    let count = keys.len();
    let kept = firsts(keys, order)?;
    Ok(kept.len() == count)
}

// The shortest and then leftmost slice by which no two texts are equal.
fn slice_of(alloc: Global, keys: &[Val]) -> Result<Option<(u32, u32)>, Memory>
    ensures { IfOk result (λ slice. slice ≡ slice_of (map text_bytes keys.now)) }
{
    let least = least_length(keys);
    for len in 1..least + 1 {
        if let Some(start) = start_of(alloc, keys, len, least + 1 - len)? {
            return Ok(Some((start, len)));
        }
    }
    Ok(None)
}

// The least of so many starts at which slices of that length tell the texts apart.
fn start_of(alloc: Global, keys: &[Val], len: u32, count: u32) -> Result<Option<u32>, Memory>
    ensures { IfOk result (λ start. start ≡ find (λ i. tells_apart (map text_bytes keys.now) (i, len))
        (numbers_from 0 count)) }
{
    for start in 0..count {
        if are_apart(alloc, keys, &ByPiece { start, len })? {
            return Ok(Some(start));
        }
    }
    Ok(None)
}
