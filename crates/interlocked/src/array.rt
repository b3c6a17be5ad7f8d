//! Cells with an array.
ghost use Rattle.std.specs.Prelude.{◌≡◌, ◌<◌, IfErr, IfOk, take};
ghost use Rattle.plain_model.specs.Cell.{array_reply, arrays_eq, vals_eq};
ghost use Rattle.plain_model.specs.declared.commands.PlainCall.TheVariants as calls;
ghost use Rattle.interlocked.specs.Called.{IsDone, IsOutOfMemory};
ghost use Rattle.interlocked.specs.Meanings.{array_call, array_plain, array_values};
ghost use Rattle.interlocked.specs.Outcomes.{Applies};

use crate::answers::Stamp;
use crate::cell::{CellPass, ImmCell};
use crate::change::{Change, Outcome, Share};
use crate::outcomes::answered;
use imm_array::ImmArray;
use imm_base::{Dup, Edit, Memory, Val};
use plain_model::{Listed, Reply, SHOWN_LIMIT, Shown};
use std::alloc::Global;
use std::sync::Wait;

/// What a cell with an array has.
#[derive(Drop)]
pub enum ArrayValue {
    /// No array at all: what .NET calls the default array.
    Default,
    Array(ImmArray<Val>),
}

/// A call on a cell with an array. Arrays are compared by their elements.
#[derive(Drop)]
pub enum ArrayCall {
    Exchange {
        array: ImmArray<Val>,
    },
    CompareExchange {
        array: ImmArray<Val>,
        /// What the cell is to have now.
        comparand: ArrayValue,
    },
    Initialize {
        array: ImmArray<Val>,
    },
}

impl Share for ArrayValue {
    ghost plain = { array_plain };

    fn share(&self) -> Result<Self, Memory> {
        Ok(match self {
            ArrayValue::Default => ArrayValue::Default,
            ArrayValue::Array(array) => ArrayValue::Array(array.share()?),
        })
    }
}

impl Dup for ArrayValue {
    fn dup(&self, _: Global) -> Result<Self, Memory> {
        Ok(match self {
            ArrayValue::Default => ArrayValue::Default,
            ArrayValue::Array(array) => ArrayValue::Array(array.share()?),
        })
    }
}

impl Dup for ArrayCall {
    fn dup(&self, alloc: Global) -> Result<Self, Memory> {
        Ok(match self {
            ArrayCall::Exchange { array } => ArrayCall::Exchange {
                array: array.share()?,
            },
            ArrayCall::CompareExchange { array, comparand } => ArrayCall::CompareExchange {
                array: array.share()?,
                comparand: comparand.dup(alloc)?,
            },
            ArrayCall::Initialize { array } => ArrayCall::Initialize {
                array: array.share()?,
            },
        })
    }
}

impl Change<ArrayValue> for ArrayCall {
    ghost meaning = { array_call };

    ghost suits = { λ _ _. Unit {0} };

    fn apply(&self, alloc: Global, old: &ArrayValue) -> Result<Outcome<ArrayValue>, Memory> {
        match self {
            ArrayCall::Exchange { array } => exchange(alloc, old, array),
            ArrayCall::CompareExchange { array, comparand } => {
                compare_exchange(alloc, old, array, comparand)
            }
            ArrayCall::Initialize { array } => initialize(old, array),
        }
    }
}

/// Copies of at most the first 16 elements.
fn first_of(alloc: Global, elements: &[Val]) -> Result<Vec<Val>, Memory>
    ensures { IfOk result (λ v. v.items ≡ take 16 elements.now) }
{
    let first = elements
        .iter()
        .take(SHOWN_LIMIT as usize)
        .copied()
        .collect(alloc)?;
    Ok(first)
}

/// What the cell had, in short.
fn shown(alloc: Global, old: &ArrayValue) -> Result<Reply, Memory>
    ensures { IfOk result (λ reply. reply ≡ array_reply (array_values old.now)) }
{
    match old {
        ArrayValue::Default => Ok(Reply::Unset),
        ArrayValue::Array(array) => {
            let first = first_of(alloc, array.as_slice())?;
            Ok(Reply::Shown(Shown {
                count: array.count(),
                first: Listed::from_vec(first),
            }))
        }
    }
}

fn are_equal(elements: &[Val], others: &[Val]) -> bool
    ensures { result ≡ vals_eq elements.now others.now }
{
    elements == others
}

fn equals(old: &ArrayValue, comparand: &ArrayValue) -> bool
    ensures { result ≡ arrays_eq (array_values old.now) (array_values comparand.now) }
{
    match (old, comparand) {
        (ArrayValue::Default, ArrayValue::Default) => true,
        (ArrayValue::Array(array), ArrayValue::Array(other)) => {
            are_equal(array.as_slice(), other.as_slice())
        }
        _ => false,
    }
}

fn exchange(
    alloc: Global,
    old: &ArrayValue,
    array: &ImmArray<Val>,
) -> Result<Outcome<ArrayValue>, Memory>
    ensures { IfOk result (Applies array_plain (calls.Exchange array.now) (array_plain old.now)) }
{
    let reply = shown(alloc, old)?;
    let array = array.share()?;
    Ok(Outcome {
        edit: Edit::New(ArrayValue::Array(array)),
        reply,
    })
}

fn compare_exchange(
    alloc: Global,
    old: &ArrayValue,
    array: &ImmArray<Val>,
    comparand: &ArrayValue,
) -> Result<Outcome<ArrayValue>, Memory>
    ensures { IfOk result (Applies array_plain (calls.CompareExchange array.now (array_values comparand.now)) (array_plain old.now)) }
{
    if equals(old, comparand) {
        exchange(alloc, old, array)
    } else {
        let reply = shown(alloc, old)?;
        Ok(answered(reply))
    }
}

fn initialize(old: &ArrayValue, array: &ImmArray<Val>) -> Result<Outcome<ArrayValue>, Memory>
    ensures { IfOk result (Applies array_plain (calls.Initialize array.now) (array_plain old.now)) }
{
    match old {
        ArrayValue::Default => Ok(Outcome {
            edit: Edit::New(ArrayValue::Array(array.share()?)),
            reply: Reply::Flag(true),
        }),
        ArrayValue::Array(_) => Ok(answered(Reply::Flag(false))),
    }
}

impl ImmCell<ArrayValue, ArrayCall> {
    /// Puts the array in place of what the cell has. Its reply is what the cell had, in short. O(1) a
    /// try.
    pub fn interlocked_exchange<R: Wait>(
        &self,
        rt: &R,
        alloc: Global,
        pass: &mut CellPass<ArrayValue, ArrayCall>,
        ordinal: u64,
        array: ImmArray<Val>,
    ) -> Result<(Reply, Stamp), Memory>
        requires own { pass.old.table ≡ self.now.table }
        requires above { pass.old.last < ordinal }
        ensures done { IfOk result (λ t. IsDone pass.old ordinal (calls.Exchange array) pass.new t.0 t.1) }
        ensures memory { IfErr result (λ _. IsOutOfMemory pass.old pass.new) }
    {
        self.call(rt, alloc, pass, ordinal, &ArrayCall::Exchange { array })
    }

    /// Puts the array in place of what the cell has, where that equals the comparand. Its reply is
    /// what the cell had, in short. O(n) a try for n elements.
    pub fn interlocked_compare_exchange<R: Wait>(
        &self,
        rt: &R,
        alloc: Global,
        pass: &mut CellPass<ArrayValue, ArrayCall>,
        ordinal: u64,
        array: ImmArray<Val>,
        comparand: ArrayValue,
    ) -> Result<(Reply, Stamp), Memory>
        requires own { pass.old.table ≡ self.now.table }
        requires above { pass.old.last < ordinal }
        ensures done { IfOk result (λ t. IsDone pass.old ordinal (calls.CompareExchange array (array_values comparand)) pass.new t.0 t.1) }
        ensures memory { IfErr result (λ _. IsOutOfMemory pass.old pass.new) }
    {
        let call = ArrayCall::CompareExchange { array, comparand };
        self.call(rt, alloc, pass, ordinal, &call)
    }

    /// Puts the array into a cell that has none. Its reply is whether the cell had none. O(1) a try.
    pub fn interlocked_initialize<R: Wait>(
        &self,
        rt: &R,
        alloc: Global,
        pass: &mut CellPass<ArrayValue, ArrayCall>,
        ordinal: u64,
        array: ImmArray<Val>,
    ) -> Result<(Reply, Stamp), Memory>
        requires own { pass.old.table ≡ self.now.table }
        requires above { pass.old.last < ordinal }
        ensures done { IfOk result (λ t. IsDone pass.old ordinal (calls.Initialize array) pass.new t.0 t.1) }
        ensures memory { IfErr result (λ _. IsOutOfMemory pass.old pass.new) }
    {
        self.call(rt, alloc, pass, ordinal, &ArrayCall::Initialize { array })
    }
}
