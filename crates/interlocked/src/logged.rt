//! What a cell keeps: a collection with the calls that made it.
ghost use Rattle.std.specs.Prelude.{◌≡◌, ◌+◌, ◌<◌, ◌^◌, [], ◌∷◌, ◌++◌, length, map, option_map, reverse};
ghost use Rattle.interlocked.specs.Entries.{entry, entry_at, position_of, Extends};
ghost use Rattle.interlocked.specs.Retries.{TurnsTo};

use crate::change::{Change, Outcome, Share};
use crate::entry::{Entry, Kept};
use imm_base::{Edit, Memory};
use plain_model::Reply;
use queue_stack::SkewList;
use std::alloc::Global;
use version_slots::Payload;

/// The last position that a version may have.
pub(crate) const POSITIONS: u64 = 1 << 46;

/// A collection with the calls that made it.
#[derive(Drop)]
pub struct Logged<C, X> {
    pub(crate) value: C,
    /// The last call first.
    pub(crate) entries: SkewList<Entry<X>>,
}

/// What a call comes to at a version.
#[derive(Drop)]
pub(crate) enum Turn<C, X> {
    /// The call installs nothing.
    Stays(Reply),
    /// It installs this version.
    Grows(Reply, Logged<C, X>),
    /// There is no position for another version.
    Full,
    Memory,
}

impl<C: Share, X: Change<C>> Payload for Logged<C, X> {
    type Plain = Kept;

    ghost plain = { λ l. record {
      value = C.plain l.value;
      entries = reverse (map (λ e. entry e.caller e.ordinal (X.meaning e.call)) l.entries);
    } };

    ghost position_of = { position_of };

    ghost follows = { Extends };

    fn position(&self) -> u64 {
        self.entries.count()
    }

    fn share(&self) -> Result<Self, Memory> {
        let value = self.value.share()?;
        let entries = self.entries.share()?;
        Ok(Logged { value, entries })
    }

    ghost use Rattle.interlocked.specs.Laws.{one_more};

    ghost rises = { one_more };
}

impl<C: Share, X: Change<C>> Logged<C, X> {
    pub fn value(&self) -> &C
        ensures { result.now ≡ self.now.value }
    {
        &self.value
    }

    /// The call that made this position. The position 0 has none. O(log n).
    pub fn entry(&self, position: u64) -> Option<&Entry<X>>
        ensures { option_map (λ e. entry e.now.caller e.now.ordinal (X.meaning e.now.call)) result
            ≡ entry_at position (⟦<Logged<C, X> as Payload>⟧.plain self.now).entries }
    {
        if position == 0 {
            return None;
        }
        match self.entries.count().checked_sub(position) {
            Some(index) => self.entries.at(index),
            None => None,
        }
    }

    /// What the call comes to here.
    pub(crate) fn turn(&self, alloc: Global, number: u32, ordinal: u64, call: &X) -> Turn<C, X>
        requires { X.suits call.now (C.plain self.now.value).kind }
        ensures { let plain = ⟦<Logged<C, X> as Payload>⟧.plain in
            TurnsTo plain (plain self.now) number ordinal (X.meaning call.now) result }
    {
        if self.entries.count() == POSITIONS {
            return Turn::Full;
        }
        let Ok(Outcome { edit, reply }) = call.apply(alloc, &self.value) else {
            return Turn::Memory;
        };
        let Edit::New(value) = edit else {
            return Turn::Stays(reply);
        };
        let Ok(call) = call.dup(alloc) else {
            return Turn::Memory;
        };
        let entry = Entry {
            caller: number,
            ordinal,
            call,
        };
        let Ok(entries) = self.entries.push(alloc, entry) else {
            return Turn::Memory;
        };
        Turn::Grows(reply, Logged { value, entries })
    }
}
