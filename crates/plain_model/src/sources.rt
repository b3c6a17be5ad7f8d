//! The values among the arguments of operations and questions.
ghost use Rattle.std.specs.Prelude.{◌≡◌, true, IfOk};
ghost use Rattle.std.specs.Option.{option_copied};
ghost use Rattle.plain_model.specs.Sources.{is_within, are_within, op_values, query_values};
ghost use Rattle.plain_model.specs.Sources.{op_with_values, query_with_values};

use crate::{PlainOp, Query, Values};
use imm_base::{Dup, Memory};
use std::alloc::Global;

impl PlainOp {
    /// The values among its arguments, where it takes values.
    pub fn values(&self) -> Option<&Values>
        ensures { option_copied result ≡ op_values self.now }
    {
        match self {
            PlainOp::AddRange(values) => Some(values),
            PlainOp::InsertRange(_, values) => Some(values),
            PlainOp::Union(values) => Some(values),
            PlainOp::Intersect(values) => Some(values),
            PlainOp::Except(values) => Some(values),
            PlainOp::SymExcept(values) => Some(values),
            PlainOp::AddPairs(values) => Some(values),
            PlainOp::SetPairs(values) => Some(values),
            PlainOp::RemoveKeys(values) => Some(values),
            _ => None,
        }
    }

    /// The operation on these values, where it takes values; else a copy of it. The only error is
    /// want of memory.
    pub fn with_values(&self, alloc: Global, values: Values) -> Result<PlainOp, Memory>
        ensures op { IfOk result (λ op. op ≡ op_with_values self.now values) }
        ensures within { is_within values ≡ true → IfOk result (λ op. are_within (op_values op) ≡ true) }
    {
        match self {
            PlainOp::AddRange(_) => Ok(PlainOp::AddRange(values)),
            PlainOp::InsertRange(index, _) => Ok(PlainOp::InsertRange(*index, values)),
            PlainOp::Union(_) => Ok(PlainOp::Union(values)),
            PlainOp::Intersect(_) => Ok(PlainOp::Intersect(values)),
            PlainOp::Except(_) => Ok(PlainOp::Except(values)),
            PlainOp::SymExcept(_) => Ok(PlainOp::SymExcept(values)),
            PlainOp::AddPairs(_) => Ok(PlainOp::AddPairs(values)),
            PlainOp::SetPairs(_) => Ok(PlainOp::SetPairs(values)),
            PlainOp::RemoveKeys(_) => Ok(PlainOp::RemoveKeys(values)),
            _ => self.dup(alloc),
        }
    }
}

impl Query {
    /// The values among its arguments, where it takes values.
    pub fn values(&self) -> Option<&Values>
        ensures { option_copied result ≡ query_values self.now }
    {
        match self {
            Query::Subset(values) => Some(values),
            Query::Superset(values) => Some(values),
            Query::ProperSubset(values) => Some(values),
            Query::ProperSuperset(values) => Some(values),
            Query::Overlaps(values) => Some(values),
            Query::SetEquals(values) => Some(values),
            _ => None,
        }
    }

    /// The question about these values, where it takes values; else a copy of it. The only error
    /// is want of memory.
    pub fn with_values(&self, alloc: Global, values: Values) -> Result<Query, Memory>
        ensures query { IfOk result (λ query. query ≡ query_with_values self.now values) }
        ensures within { is_within values ≡ true → IfOk result (λ q. are_within (query_values q) ≡ true) }
    {
        match self {
            Query::Subset(_) => Ok(Query::Subset(values)),
            Query::Superset(_) => Ok(Query::Superset(values)),
            Query::ProperSubset(_) => Ok(Query::ProperSubset(values)),
            Query::ProperSuperset(_) => Ok(Query::ProperSuperset(values)),
            Query::Overlaps(_) => Ok(Query::Overlaps(values)),
            Query::SetEquals(_) => Ok(Query::SetEquals(values)),
            _ => self.dup(alloc),
        }
    }
}
