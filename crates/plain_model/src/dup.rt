//! Copies of plain data: each answers an equal value, or want of memory. They are written out, since
//! what a derived `clone` answers is not known to be equal.
ghost use Rattle.std.specs.Prelude.{◌≡◌, IfOk};

use crate::{
    Answer, CellDecl, Command, Line, Listed, LocalLine, Part, Plain, PlainCall, PlainOp, Query,
    Reply, Script, Shown, Values,
};
use imm_base::{Dup, Memory, Val};
use std::alloc::Global;

fn copied_pairs(alloc: Global, pairs: &[(Val, Val)]) -> Result<Listed<(Val, Val)>, Memory>
    ensures { IfOk result (λ copy. copy ≡ pairs.now) }
{
    let mut copies = Listed::new(alloc);
    for pair in pairs {
        copies.push(*pair)?;
    }
    Ok(copies)
}

impl Dup for Values {
    fn dup(&self, alloc: Global) -> Result<Self, Memory> {
        Ok(match self {
            Values::List(elements) => Values::List(elements.dup(alloc)?),
            Values::Pairs(pairs) => Values::Pairs(copied_pairs(alloc, pairs.as_slice())?),
            Values::Seq { first, count } => Values::Seq {
                first: *first,
                count: *count,
            },
            Values::Unset => Values::Unset,
        })
    }
}

impl Dup for Plain {
    fn dup(&self, alloc: Global) -> Result<Self, Memory> {
        Ok(Plain {
            kind: self.kind,
            values: self.values.dup(alloc)?,
        })
    }
}

impl Dup for PlainOp {
    fn dup(&self, alloc: Global) -> Result<Self, Memory> {
        Ok(match self {
            PlainOp::Add(value) => PlainOp::Add(*value),
            PlainOp::AddRange(values) => PlainOp::AddRange(values.dup(alloc)?),
            PlainOp::Insert(index, value) => PlainOp::Insert(*index, *value),
            PlainOp::InsertRange(index, values) => PlainOp::InsertRange(*index, values.dup(alloc)?),
            PlainOp::RemoveAt(index) => PlainOp::RemoveAt(*index),
            PlainOp::RemoveRange(index, count) => PlainOp::RemoveRange(*index, *count),
            PlainOp::Remove(value) => PlainOp::Remove(*value),
            PlainOp::RemoveAll(test) => PlainOp::RemoveAll(*test),
            PlainOp::Replace(old, value) => PlainOp::Replace(*old, *value),
            PlainOp::SetItem(index, value) => PlainOp::SetItem(*index, *value),
            PlainOp::GetRange(index, count) => PlainOp::GetRange(*index, *count),
            PlainOp::Reverse => PlainOp::Reverse,
            PlainOp::Sort(order) => PlainOp::Sort(*order),
            PlainOp::Union(values) => PlainOp::Union(values.dup(alloc)?),
            PlainOp::Intersect(values) => PlainOp::Intersect(values.dup(alloc)?),
            PlainOp::Except(values) => PlainOp::Except(values.dup(alloc)?),
            PlainOp::SymExcept(values) => PlainOp::SymExcept(values.dup(alloc)?),
            PlainOp::AddPair(key, value) => PlainOp::AddPair(*key, *value),
            PlainOp::AddPairs(pairs) => PlainOp::AddPairs(pairs.dup(alloc)?),
            PlainOp::SetPair(key, value) => PlainOp::SetPair(*key, *value),
            PlainOp::SetPairs(pairs) => PlainOp::SetPairs(pairs.dup(alloc)?),
            PlainOp::RemoveKey(key) => PlainOp::RemoveKey(*key),
            PlainOp::RemoveKeys(keys) => PlainOp::RemoveKeys(keys.dup(alloc)?),
            PlainOp::Push(value) => PlainOp::Push(*value),
            PlainOp::Pop => PlainOp::Pop,
            PlainOp::Enqueue(value) => PlainOp::Enqueue(*value),
            PlainOp::Dequeue => PlainOp::Dequeue,
            PlainOp::Clear => PlainOp::Clear,
        })
    }
}

impl Dup for Query {
    fn dup(&self, alloc: Global) -> Result<Self, Memory> {
        Ok(match self {
            Query::Count => Query::Count,
            Query::Get(index) => Query::Get(*index),
            Query::IndexOf(value) => Query::IndexOf(*value),
            Query::LastIndexOf(value) => Query::LastIndexOf(*value),
            Query::Search(order, value) => Query::Search(*order, *value),
            Query::Contains(value) => Query::Contains(*value),
            Query::Actual(value) => Query::Actual(*value),
            Query::Min => Query::Min,
            Query::Max => Query::Max,
            Query::Subset(values) => Query::Subset(values.dup(alloc)?),
            Query::Superset(values) => Query::Superset(values.dup(alloc)?),
            Query::ProperSubset(values) => Query::ProperSubset(values.dup(alloc)?),
            Query::ProperSuperset(values) => Query::ProperSuperset(values.dup(alloc)?),
            Query::Overlaps(values) => Query::Overlaps(values.dup(alloc)?),
            Query::SetEquals(values) => Query::SetEquals(values.dup(alloc)?),
            Query::Lookup(key) => Query::Lookup(*key),
            Query::KeyOf(key) => Query::KeyOf(*key),
            Query::HasValue(value) => Query::HasValue(*value),
            Query::Keys => Query::Keys,
            Query::Values => Query::Values,
            Query::Peek => Query::Peek,
            Query::Strategy => Query::Strategy,
        })
    }
}

impl Dup for PlainCall {
    fn dup(&self, alloc: Global) -> Result<Self, Memory> {
        Ok(match self {
            PlainCall::Update(op) => PlainCall::Update(op.dup(alloc)?),
            PlainCall::Read => PlainCall::Read,
            PlainCall::Publish(plain) => PlainCall::Publish(plain.dup(alloc)?),
            PlainCall::GetOrAdd(key, value) => PlainCall::GetOrAdd(*key, *value),
            PlainCall::AddOrUpdate(key, value, transform) => PlainCall::AddOrUpdate(
                *key, *value, *transform,
            ),
            PlainCall::TryAdd(key, value) => PlainCall::TryAdd(*key, *value),
            PlainCall::TryUpdate(key, value, wanted) => PlainCall::TryUpdate(*key, *value, *wanted),
            PlainCall::TryRemove(key) => PlainCall::TryRemove(*key),
            PlainCall::Push(value) => PlainCall::Push(*value),
            PlainCall::TryPop => PlainCall::TryPop,
            PlainCall::Enqueue(value) => PlainCall::Enqueue(*value),
            PlainCall::TryDequeue => PlainCall::TryDequeue,
            PlainCall::Exchange(array) => PlainCall::Exchange(array.dup(alloc)?),
            PlainCall::CompareExchange(array, wanted) => {
                PlainCall::CompareExchange(array.dup(alloc)?, wanted.dup(alloc)?)
            }
            PlainCall::Initialize(array) => PlainCall::Initialize(array.dup(alloc)?),
            PlainCall::GetOrAddMade(key, make, probe) => {
                PlainCall::GetOrAddMade(*key, *make, *probe)
            }
            PlainCall::AddOrUpdateMade(key, make, transform) => {
                PlainCall::AddOrUpdateMade(*key, *make, *transform)
            }
        })
    }
}

impl Dup for Command {
    fn dup(&self, alloc: Global) -> Result<Self, Memory> {
        Ok(match self {
            Command::Update(cell, op) => Command::Update(*cell, op.dup(alloc)?),
            Command::Read(cell, name) => Command::Read(*cell, *name),
            Command::Publish(cell, name) => Command::Publish(*cell, *name),
            Command::GetOrAdd(cell, key, value) => Command::GetOrAdd(*cell, *key, *value),
            Command::AddOrUpdate(cell, key, value, transform) => Command::AddOrUpdate(
                *cell, *key, *value, *transform,
            ),
            Command::TryAdd(cell, key, value) => Command::TryAdd(*cell, *key, *value),
            Command::TryUpdate(cell, key, value, wanted) => Command::TryUpdate(
                *cell, *key, *value, *wanted,
            ),
            Command::TryRemove(cell, key) => Command::TryRemove(*cell, *key),
            Command::Push(cell, value) => Command::Push(*cell, *value),
            Command::TryPop(cell) => Command::TryPop(*cell),
            Command::Enqueue(cell, value) => Command::Enqueue(*cell, *value),
            Command::TryDequeue(cell) => Command::TryDequeue(*cell),
            Command::Exchange(cell, name) => Command::Exchange(*cell, *name),
            Command::CompareExchange(cell, name, wanted) => {
                Command::CompareExchange(*cell, *name, *wanted)
            }
            Command::Initialize(cell, name) => Command::Initialize(*cell, *name),
            Command::GetOrAddMade(cell, key, make) => Command::GetOrAddMade(*cell, *key, *make),
            Command::AddOrUpdateMade(cell, key, make, transform) => {
                Command::AddOrUpdateMade(*cell, *key, *make, *transform)
            }
            Command::New(name, kind, values, from) => Command::New(
                *name,
                *kind,
                values.dup(alloc)?,
                *from,
            ),
            Command::Let(name, old, op, from) => Command::Let(*name, *old, op.dup(alloc)?, *from),
            Command::Rekey(name, old, comparer) => Command::Rekey(*name, *old, *comparer),
            Command::Ask(name, query, from) => Command::Ask(*name, query.dup(alloc)?, *from),
            Command::Show(name) => Command::Show(*name),
            Command::Builder(builder, name) => Command::Builder(*builder, *name),
            Command::Change(builder, op, from) => Command::Change(*builder, op.dup(alloc)?, *from),
            Command::Freeze(name, builder) => Command::Freeze(*name, *builder),
            Command::Version(builder) => Command::Version(*builder),
            Command::Capacity(builder, wanted) => Command::Capacity(*builder, *wanted),
            Command::Move(name, builder) => Command::Move(*name, *builder),
            Command::Drain(name, builder) => Command::Drain(*name, *builder),
            Command::FrozenSet(name, eq, values, from) => Command::FrozenSet(
                *name,
                *eq,
                values.dup(alloc)?,
                *from,
            ),
            Command::FrozenMap(name, eq, pairs, from) => Command::FrozenMap(
                *name,
                *eq,
                pairs.dup(alloc)?,
                *from,
            ),
            Command::Walk(walk, name) => Command::Walk(*walk, *name),
            Command::Copy(copy, walk) => Command::Copy(*copy, *walk),
            Command::Next(walk) => Command::Next(*walk),
            Command::Current(walk) => Command::Current(*walk),
            Command::Reset(walk) => Command::Reset(*walk),
            Command::Dispose(walk) => Command::Dispose(*walk),
        })
    }
}

impl Dup for Shown {
    fn dup(&self, alloc: Global) -> Result<Self, Memory> {
        Ok(Shown {
            count: self.count,
            first: self.first.dup(alloc)?,
        })
    }
}

impl Dup for Reply {
    fn dup(&self, alloc: Global) -> Result<Self, Memory> {
        Ok(match self {
            Reply::Flag(flag) => Reply::Flag(*flag),
            Reply::Value(value) => Reply::Value(*value),
            Reply::Taken(value) => Reply::Taken(*value),
            Reply::Missing => Reply::Missing,
            Reply::Count(count) => Reply::Count(*count),
            Reply::Refused(refusal) => Reply::Refused(*refusal),
            Reply::Shown(shown) => Reply::Shown(shown.dup(alloc)?),
            Reply::Unset => Reply::Unset,
        })
    }
}

impl Dup for Line {
    fn dup(&self, alloc: Global) -> Result<Self, Memory> {
        Ok(Line {
            position: self.position,
            caller: self.caller,
            ordinal: self.ordinal,
            call: self.call.dup(alloc)?,
            reply: self.reply.dup(alloc)?,
            installed: self.installed,
        })
    }
}

impl Dup for Answer {
    fn dup(&self, alloc: Global) -> Result<Self, Memory> {
        Ok(match self {
            Answer::Flag(flag) => Answer::Flag(*flag),
            Answer::Value(value) => Answer::Value(*value),
            Answer::Next(element) => Answer::Next(*element),
            Answer::Element(element) => Answer::Element(*element),
            Answer::Count(count) => Answer::Count(*count),
            Answer::Index(index) => Answer::Index(*index),
            Answer::Missing => Answer::Missing,
            Answer::Same => Answer::Same,
            Answer::New => Answer::New,
            Answer::Done => Answer::Done,
            Answer::Strategy(strategy) => Answer::Strategy(*strategy),
            Answer::Shown { count, first } => Answer::Shown {
                count: *count,
                first: first.dup(alloc)?,
            },
            Answer::Refused(refusal) => Answer::Refused(*refusal),
        })
    }
}

impl Dup for LocalLine {
    fn dup(&self, alloc: Global) -> Result<Self, Memory> {
        Ok(LocalLine {
            ordinal: self.ordinal,
            command: self.command.dup(alloc)?,
            answer: self.answer.dup(alloc)?,
        })
    }
}

impl Dup for CellDecl {
    fn dup(&self, alloc: Global) -> Result<Self, Memory> {
        Ok(CellDecl {
            name: self.name,
            kind: self.kind,
            values: self.values.dup(alloc)?,
        })
    }
}

impl Dup for Part {
    fn dup(&self, alloc: Global) -> Result<Self, Memory> {
        Ok(Part {
            commands: self.commands.dup(alloc)?,
        })
    }
}

impl Dup for Script {
    fn dup(&self, alloc: Global) -> Result<Self, Memory> {
        Ok(Script {
            version: self.version,
            cells: self.cells.dup(alloc)?,
            parts: self.parts.dup(alloc)?,
        })
    }
}
