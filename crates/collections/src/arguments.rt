//! The elements and pairs that an argument stands for.
ghost use Rattle.std.specs.Prelude.{◌≡◌, true, map, IfOk};
ghost use Rattle.imm_base.specs.declared.val.Val.TheVariants.{Int};
ghost use Rattle.plain_model.specs.Plain.{elements, integers_from, pairs};
ghost use Rattle.plain_model.specs.Sources.{is_within};

use imm_base::{Memory, Val};
use plain_model::Values;
use std::alloc::Global;

/// The elements that are meant. O(n).
pub fn elements(alloc: Global, values: &Values) -> Result<Vec<Val>, Memory>
    requires { is_within values.now ≡ true }
    ensures { IfOk result (λ v. v.items ≡ elements values.now) }
{
    match values {
        Values::List(elements) => Ok(Vec::from_slice(alloc, elements.as_slice())?),
        Values::Pairs(_) | Values::Unset => Ok(Vec::new(alloc)),
        Values::Seq { first, count } => integers_from(alloc, *first, *count),
    }
}

/// The pairs that are meant. O(n).
pub fn pairs(alloc: Global, values: &Values) -> Result<Vec<(Val, Val)>, Memory>
    requires { is_within values.now ≡ true }
    ensures { IfOk result (λ v. v.items ≡ pairs values.now) }
{
    match values {
        Values::List(_) | Values::Unset => Ok(Vec::new(alloc)),
        Values::Pairs(pairs) => Ok(Vec::from_slice(alloc, pairs.as_slice())?),
        Values::Seq { first, count } => pairs_from(alloc, *first, *count),
    }
}

// So many integers from the first on.
#[tactic(auto, using(crate::proofs::Sequences::integers_more))]
fn integers_from(alloc: Global, first: i64, count: u32) -> Result<Vec<Val>, Memory>
    requires { is_within (Values.Seq first count) ≡ true }
    ensures { IfOk result (λ v. v.items ≡ map Int (integers_from first count)) }
{
    let mut integers = Vec::new(alloc);
    for place in 0..count {
        integers.push(Val::Int(first + i64::from(place)))?;
    }
    Ok(integers)
}

// So many integers from the first on, each with itself.
fn pairs_from(alloc: Global, first: i64, count: u32) -> Result<Vec<(Val, Val)>, Memory>
    requires { is_within (Values.Seq first count) ≡ true }
    ensures { IfOk result (λ v. v.items ≡ map (λ z. (Int z, Int z)) (integers_from first count)) }
{
    let integers = integers_from(alloc, first, count)?;
    let pairs = doubled(alloc, integers)?;
    Ok(pairs)
}

// Each value with itself.
fn doubled(alloc: Global, values: Vec<Val>) -> Result<Vec<(Val, Val)>, Memory>
    ensures { IfOk result (λ v. v.items ≡ map (λ x. (x, x)) values.items) }
{
    let pairs = values
        .into_iter()
        .map(|value| {
            // (for the prover, which does not see one variable given to two fields)
            let key = value;
            (key, value)
        })
        .collect(alloc)?;
    Ok(pairs)
}
