//! What each kind of collection has: its operations, its questions, and what it is made of.
ghost use Rattle.std.specs.Prelude.{◌≡◌};
ghost use Rattle.plain_model.specs.Kinds.{is_cell_kind, items_of_kind, items_of_op, is_alike, is_kind};
ghost use Rattle.plain_model.specs.Kinds.{list_takes, array_takes, stack_takes, queue_takes};
ghost use Rattle.plain_model.specs.Kinds.{set_takes, map_takes, takes, list_answers, array_answers};
ghost use Rattle.plain_model.specs.Kinds.{end_answers, sorted_set_answers, hash_set_answers};
ghost use Rattle.plain_model.specs.Kinds.{map_answers, answers, has_builder, builder_takes};
ghost use Rattle.plain_model.specs.Kinds.{list_builder_takes, array_builder_takes, is_walked};

use crate::{Kind, PlainOp, Query};

/// What a collection is made of, or what a command is given.
#[derive(Clone, Copy, Debug, PartialEq, Eq)]
pub enum ItemKind {
    Elements,
    Pairs,
}

impl Kind {
    /// Whether a cell may have this kind.
    pub fn is_cell_kind(self) -> bool
        ensures { result ≡ is_cell_kind self }
    {
        match self {
            Kind::Array => false,
            _ => true,
        }
    }

    /// What a collection of this kind is made of.
    pub fn items(self) -> ItemKind
        ensures { result ≡ items_of_kind self }
    {
        match self {
            Kind::SMap(_) | Kind::Dict(_) => ItemKind::Pairs,
            _ => ItemKind::Elements,
        }
    }

    /// Whether the kinds are the same, whatever their comparers.
    pub fn is_alike(self, other: Kind) -> bool
        ensures { result ≡ is_alike self other }
    {
        match (self, other) {
            (Kind::List, Kind::List) => true,
            (Kind::Array, Kind::Array) => true,
            (Kind::Stack, Kind::Stack) => true,
            (Kind::Queue, Kind::Queue) => true,
            (Kind::SSet(_), Kind::SSet(_)) => true,
            (Kind::SMap(_), Kind::SMap(_)) => true,
            (Kind::Dict(_), Kind::Dict(_)) => true,
            (Kind::HSet(_), Kind::HSet(_)) => true,
            _ => false,
        }
    }

    /// Whether the kinds are the same, with their comparers.
    pub fn is_same(self, other: Kind) -> bool
        ensures { result ≡ is_kind self other }
    {
        self == other
    }

    /// Whether collections of this kind have the operation.
    pub fn takes(self, op: &PlainOp) -> bool
        ensures { result ≡ takes self op.now }
    {
        match self {
            Kind::List => list_takes(op),
            Kind::Array => array_takes(op),
            Kind::Stack => stack_takes(op),
            Kind::Queue => queue_takes(op),
            Kind::SSet(_) | Kind::HSet(_) => set_takes(op),
            Kind::SMap(_) | Kind::Dict(_) => map_takes(op),
        }
    }

    /// Whether collections of this kind have a builder.
    pub fn has_builder(self) -> bool
        ensures { result ≡ has_builder self }
    {
        match self {
            Kind::Stack | Kind::Queue => false,
            _ => true,
        }
    }

    /// Whether builders of this kind have the operation: what takes a part out of a list has no
    /// place there, and a builder of arrays has few operations.
    pub fn builder_takes(self, op: &PlainOp) -> bool
        ensures { result ≡ builder_takes self op.now }
    {
        match self {
            Kind::List => list_builder_takes(op),
            Kind::Array => array_builder_takes(op),
            Kind::Stack | Kind::Queue => false,
            _ => self.takes(op),
        }
    }

    /// Whether a walk may go along collections of this kind.
    pub fn is_walked(self) -> bool
        ensures { result ≡ is_walked self }
    {
        match self {
            Kind::Array | Kind::Stack | Kind::Queue => false,
            _ => true,
        }
    }

    /// Whether collections of this kind answer the question.
    pub fn answers(self, query: &Query) -> bool
        ensures { result ≡ answers self query.now }
    {
        match self {
            Kind::List => list_answers(query),
            Kind::Array => array_answers(query),
            Kind::Stack | Kind::Queue => end_answers(query),
            Kind::SSet(_) => sorted_set_answers(query),
            Kind::HSet(_) => hash_set_answers(query),
            Kind::SMap(_) | Kind::Dict(_) => map_answers(query),
        }
    }
}

impl PlainOp {
    /// What an operation that takes values is to be given.
    pub fn items(&self) -> ItemKind
        ensures { result ≡ items_of_op self.now }
    {
        match self {
            PlainOp::AddPairs(_) | PlainOp::SetPairs(_) => ItemKind::Pairs,
            _ => ItemKind::Elements,
        }
    }
}

fn list_takes(op: &PlainOp) -> bool
    ensures { result ≡ list_takes op.now }
{
    match op {
        PlainOp::Add(_)
        | PlainOp::AddRange(_)
        | PlainOp::Insert(_, _)
        | PlainOp::InsertRange(_, _)
        | PlainOp::RemoveAt(_)
        | PlainOp::RemoveRange(_, _)
        | PlainOp::Remove(_)
        | PlainOp::RemoveAll(_)
        | PlainOp::Replace(_, _)
        | PlainOp::SetItem(_, _)
        | PlainOp::GetRange(_, _)
        | PlainOp::Reverse
        | PlainOp::Sort(_)
        | PlainOp::Clear => true,
        _ => false,
    }
}

fn array_takes(op: &PlainOp) -> bool
    ensures { result ≡ array_takes op.now }
{
    match op {
        PlainOp::Add(_)
        | PlainOp::AddRange(_)
        | PlainOp::Insert(_, _)
        | PlainOp::RemoveAt(_)
        | PlainOp::Remove(_)
        | PlainOp::Replace(_, _)
        | PlainOp::SetItem(_, _)
        | PlainOp::Clear => true,
        _ => false,
    }
}

fn list_builder_takes(op: &PlainOp) -> bool
    ensures { result ≡ list_builder_takes op.now }
{
    match op {
        PlainOp::GetRange(_, _) => false,
        _ => list_takes(op),
    }
}

fn array_builder_takes(op: &PlainOp) -> bool
    ensures { result ≡ array_builder_takes op.now }
{
    match op {
        PlainOp::Add(_)
        | PlainOp::AddRange(_)
        | PlainOp::Insert(_, _)
        | PlainOp::RemoveAt(_)
        | PlainOp::SetItem(_, _)
        | PlainOp::Clear => true,
        _ => false,
    }
}

fn stack_takes(op: &PlainOp) -> bool
    ensures { result ≡ stack_takes op.now }
{
    match op {
        PlainOp::Push(_) | PlainOp::Pop | PlainOp::Clear => true,
        _ => false,
    }
}

fn queue_takes(op: &PlainOp) -> bool
    ensures { result ≡ queue_takes op.now }
{
    match op {
        PlainOp::Enqueue(_) | PlainOp::Dequeue | PlainOp::Clear => true,
        _ => false,
    }
}

fn set_takes(op: &PlainOp) -> bool
    ensures { result ≡ set_takes op.now }
{
    match op {
        PlainOp::Add(_)
        | PlainOp::Remove(_)
        | PlainOp::Union(_)
        | PlainOp::Intersect(_)
        | PlainOp::Except(_)
        | PlainOp::SymExcept(_)
        | PlainOp::Clear => true,
        _ => false,
    }
}

fn map_takes(op: &PlainOp) -> bool
    ensures { result ≡ map_takes op.now }
{
    match op {
        PlainOp::AddPair(_, _)
        | PlainOp::AddPairs(_)
        | PlainOp::SetPair(_, _)
        | PlainOp::SetPairs(_)
        | PlainOp::RemoveKey(_)
        | PlainOp::RemoveKeys(_)
        | PlainOp::Clear => true,
        _ => false,
    }
}

fn list_answers(query: &Query) -> bool
    ensures { result ≡ list_answers query.now }
{
    match query {
        Query::Count
        | Query::Get(_)
        | Query::IndexOf(_)
        | Query::LastIndexOf(_)
        | Query::Search(_, _)
        | Query::Contains(_) => true,
        _ => false,
    }
}

fn array_answers(query: &Query) -> bool
    ensures { result ≡ array_answers query.now }
{
    match query {
        Query::Count
        | Query::Get(_)
        | Query::IndexOf(_)
        | Query::LastIndexOf(_)
        | Query::Contains(_) => true,
        _ => false,
    }
}

// Stacks and queues.
fn end_answers(query: &Query) -> bool
    ensures { result ≡ end_answers query.now }
{
    match query {
        Query::Count | Query::Peek => true,
        _ => false,
    }
}

fn sorted_set_answers(query: &Query) -> bool
    ensures { result ≡ sorted_set_answers query.now }
{
    match query {
        Query::Get(_) | Query::IndexOf(_) | Query::Min | Query::Max => true,
        _ => hash_set_answers(query),
    }
}

fn hash_set_answers(query: &Query) -> bool
    ensures { result ≡ hash_set_answers query.now }
{
    match query {
        Query::Count
        | Query::Contains(_)
        | Query::Actual(_)
        | Query::Subset(_)
        | Query::Superset(_)
        | Query::ProperSubset(_)
        | Query::ProperSuperset(_)
        | Query::Overlaps(_)
        | Query::SetEquals(_) => true,
        _ => false,
    }
}

fn map_answers(query: &Query) -> bool
    ensures { result ≡ map_answers query.now }
{
    match query {
        Query::Count
        | Query::Lookup(_)
        | Query::KeyOf(_)
        | Query::HasValue(_)
        | Query::Keys
        | Query::Values => true,
        _ => false,
    }
}
