//! Cells with a dictionary.
ghost use Rattle.std.specs.Prelude.{◌≡◌, ◌<◌, IfErr, IfOk};
ghost use Rattle.plain_model.specs.declared.commands.PlainCall.TheVariants as calls;
ghost use Rattle.interlocked.specs.Called.{IsDone, IsOutOfMemory};
ghost use Rattle.interlocked.specs.Factories.{Looks, Probes};
ghost use Rattle.interlocked.specs.Updates.{IsMapKind, TellsThere};

use crate::answers::Stamp;
use crate::cell::{CellPass, ImmCell};
use crate::dict::{DictCall, value_in};
use imm_base::{Memory, Val, ValEq};
use imm_dictionary::Dict;
use plain_model::{Factory, Probe, Reply, Transform};
use std::alloc::Global;
use std::sync::Wait;

impl ImmCell<Dict<Val, Val, ValEq>, DictCall> {
    /// Adds the pair where the key is absent. Its reply is the key's value, or the refusal of a full
    /// dictionary. O(log n) a try for n pairs.
    pub fn get_or_add<R: Wait>(
        &self,
        rt: &R,
        alloc: Global,
        pass: &mut CellPass<Dict<Val, Val, ValEq>, DictCall>,
        ordinal: u64,
        key: Val,
        value: Val,
    ) -> Result<(Reply, Stamp), Memory>
        requires own { pass.old.table ≡ self.now.table }
        requires above { pass.old.last < ordinal }
        ensures done { IfOk result (λ t. IsDone pass.old ordinal (calls.GetOrAdd key value) pass.new t.0 t.1) }
        ensures memory { IfErr result (λ _. IsOutOfMemory pass.old pass.new) }
    {
        self.call(rt, alloc, pass, ordinal, &DictCall::GetOrAdd { key, value })
    }

    /// Adds the pair where the key is absent, and otherwise transforms the value that it has. Its reply
    /// is the key's value then, or the refusal of a full dictionary. O(log n) a try for n pairs.
    pub fn add_or_update<R: Wait>(
        &self,
        rt: &R,
        alloc: Global,
        pass: &mut CellPass<Dict<Val, Val, ValEq>, DictCall>,
        ordinal: u64,
        key: Val,
        value: Val,
        transform: Transform,
    ) -> Result<(Reply, Stamp), Memory>
        requires own { pass.old.table ≡ self.now.table }
        requires above { pass.old.last < ordinal }
        ensures done { IfOk result (λ t. IsDone pass.old ordinal (calls.AddOrUpdate key value transform) pass.new t.0 t.1) }
        ensures memory { IfErr result (λ _. IsOutOfMemory pass.old pass.new) }
    {
        let call = DictCall::AddOrUpdate {
            key,
            value,
            transform,
        };
        self.call(rt, alloc, pass, ordinal, &call)
    }

    /// Adds the pair where the key is absent. Its reply is whether it was, or the refusal of a full
    /// dictionary. O(log n) a try for n pairs.
    pub fn try_add<R: Wait>(
        &self,
        rt: &R,
        alloc: Global,
        pass: &mut CellPass<Dict<Val, Val, ValEq>, DictCall>,
        ordinal: u64,
        key: Val,
        value: Val,
    ) -> Result<(Reply, Stamp), Memory>
        requires own { pass.old.table ≡ self.now.table }
        requires above { pass.old.last < ordinal }
        ensures done { IfOk result (λ t. IsDone pass.old ordinal (calls.TryAdd key value) pass.new t.0 t.1) }
        ensures memory { IfErr result (λ _. IsOutOfMemory pass.old pass.new) }
    {
        self.call(rt, alloc, pass, ordinal, &DictCall::TryAdd { key, value })
    }

    /// Gives the key this value where it has the comparison value. Its reply is whether it had. O(log n)
    /// a try for n pairs.
    pub fn try_update<R: Wait>(
        &self,
        rt: &R,
        alloc: Global,
        pass: &mut CellPass<Dict<Val, Val, ValEq>, DictCall>,
        ordinal: u64,
        key: Val,
        value: Val,
        comparison: Val,
    ) -> Result<(Reply, Stamp), Memory>
        requires own { pass.old.table ≡ self.now.table }
        requires above { pass.old.last < ordinal }
        ensures done { IfOk result (λ t. IsDone pass.old ordinal (calls.TryUpdate key value comparison) pass.new t.0 t.1) }
        ensures tells { IsMapKind pass.old.kind → IfOk result (λ t. TellsThere pass.new.view.seen t.1 key comparison t.0) }
        ensures memory { IfErr result (λ _. IsOutOfMemory pass.old pass.new) }
    {
        let call = DictCall::TryUpdate {
            key,
            value,
            comparison,
        };
        let done = self.call(rt, alloc, pass, ordinal, &call)?;
        // (for the proof alone: that the value at its place is that of a map)
        pass.has_kind();
        Ok(done)
    }

    /// Takes the pair of the key out. Its reply is the value, or that there is none. O(log n) a try for n
    /// pairs.
    pub fn try_remove<R: Wait>(
        &self,
        rt: &R,
        alloc: Global,
        pass: &mut CellPass<Dict<Val, Val, ValEq>, DictCall>,
        ordinal: u64,
        key: Val,
    ) -> Result<(Reply, Stamp), Memory>
        requires own { pass.old.table ≡ self.now.table }
        requires above { pass.old.last < ordinal }
        ensures done { IfOk result (λ t. IsDone pass.old ordinal (calls.TryRemove key) pass.new t.0 t.1) }
        ensures memory { IfErr result (λ _. IsOutOfMemory pass.old pass.new) }
    {
        self.call(rt, alloc, pass, ordinal, &DictCall::TryRemove { key })
    }

    /// Adds the pair of the key and the value that the factory makes of it, or transforms the value that
    /// the key has. Its reply is the key's value then, or the refusal of a full dictionary. O(log n) a
    /// try for n pairs.
    pub fn add_or_update_made<R: Wait>(
        &self,
        rt: &R,
        alloc: Global,
        pass: &mut CellPass<Dict<Val, Val, ValEq>, DictCall>,
        ordinal: u64,
        key: Val,
        make: Factory,
        transform: Transform,
    ) -> Result<(Reply, Stamp), Memory>
        requires own { pass.old.table ≡ self.now.table }
        requires above { pass.old.last < ordinal }
        ensures done { IfOk result (λ t. IsDone pass.old ordinal (calls.AddOrUpdateMade key make transform) pass.new t.0 t.1) }
        ensures memory { IfErr result (λ _. IsOutOfMemory pass.old pass.new) }
    {
        let call = DictCall::AddOrUpdateMade {
            key,
            make,
            transform,
        };
        self.call(rt, alloc, pass, ordinal, &call)
    }

    /// Looks first. Where the key is present it answers its value there, and that the factory did not
    /// run. Otherwise the factory makes a value, the pair is added where the key is still absent, and the
    /// answer says at which position it looked; its reply is the key's value, or the refusal of a full
    /// dictionary. O(log n) a try for n pairs.
    pub fn get_or_add_made<R: Wait>(
        &self,
        rt: &R,
        alloc: Global,
        pass: &mut CellPass<Dict<Val, Val, ValEq>, DictCall>,
        ordinal: u64,
        key: Val,
        make: Factory,
    ) -> Result<(Reply, Stamp, Probe), Memory>
        requires own { pass.old.table ≡ self.now.table }
        requires above { pass.old.last < ordinal }
        ensures done { IfOk result (λ t. IsDone pass.old ordinal (calls.GetOrAddMade key make t.2) pass.new t.0 t.1) }
        ensures probe { IfOk result (λ t. Probes pass.old key t.0 pass.new t.1 t.2) }
        ensures memory { IfErr result (λ _. IsOutOfMemory pass.old pass.new) }
    {
        let (found, stamp) = self.look(rt, pass, &key)?;
        if let Some(value) = found {
            pass.count_call(ordinal);
            return Ok((Reply::Value(value), stamp, Probe::Idle));
        }
        let probe = Probe::Ran {
            position: stamp.position,
        };
        let call = DictCall::GetOrAddMade { key, make, probe };
        let (reply, stamp) = self.call(rt, alloc, pass, ordinal, &call)?;
        Ok((reply, stamp, probe))
    }

    /// Reads the value of the key, if it has one.
    fn look<R: Wait>(
        &self,
        rt: &R,
        pass: &mut CellPass<Dict<Val, Val, ValEq>, DictCall>,
        key: &Val,
    ) -> Result<(Option<Val>, Stamp), Memory>
        requires { pass.old.table ≡ self.now.table }
        ensures looks { IfOk result (λ t. Looks pass.old key.now t.0 pass.new t.1) }
        ensures memory { IfErr result (λ _. IsOutOfMemory pass.old pass.new) }
    {
        let (map, stamp) = self.read(rt, pass)?;
        let found = value_in(&map, key);
        Ok((found, stamp))
    }
}
