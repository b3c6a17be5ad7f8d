//! The local commands.
ghost use Rattle.std.specs.Prelude.{◌≡◌, true, IfOk, option_map};
ghost use Rattle.plain_model.specs.Comparers.{with_comparer};
ghost use Rattle.plain_model.specs.Locals.{bound, gives, local, source, op_from, query_from};
ghost use Rattle.plain_model.specs.Plain.{made, plain};
ghost use Rattle.plain_model.specs.Sources.{is_within, are_within, op_values, query_values};
ghost use Rattle.collections.specs.Changes.{rekeyed_by};
ghost use Rattle.locals.specs.Bound.{bound_of, can_answer, has_answer};
ghost use Rattle.locals.specs.Results.{can_run, given_of, IsGiven};
ghost use Rattle.locals.specs.Commands.{asked, frozen_result, let_result, map_of, new_result};
ghost use Rattle.locals.specs.Commands.{rekey_result, set_of};

use crate::results::{LocalResult, answer_and_bind, answer_only};
use crate::{Bound, Locals};
use collections::{Collection, FrozenCollection};
use imm_base::{Edit, Memory, Text24, ValEq};
use plain_model::{Answer, Command, Comparer, Kind, PlainOp, Query, Refusal, Values};
use std::alloc::Global;

/// The collection after a change, or as it was, or why it was not changed.
type Changed = Result<Edit<Collection>, Refusal>;

impl Locals {
    /// Does a local command, and answers it. `None` is for a name that is not bound as the command
    /// needs it, and leaves the names as they were. Of the names after want of memory nothing is
    /// said.
    ///
    /// Takes what the operation or the question of the collection takes.
    pub fn run(&mut self, alloc: Global, command: &Command) -> Result<Option<Answer>, Memory>
        requires { can_run command.now self.old ≡ true }
        ensures { IfOk result (λ a. IsGiven (local command.now self.old) a self.old self.new) }
    {
        match self.result(alloc, command)? {
            Some(LocalResult { answer, binds }) => {
                self.bind_some(binds)?;
                Ok(Some(answer))
            }
            None => Ok(None),
        }
    }

    // What a command answers and binds.
    fn result(&self, alloc: Global, command: &Command) -> Result<Option<LocalResult>, Memory>
        requires { can_run command.now self.now ≡ true }
        ensures { IfOk result (λ r. option_map (λ t. given_of t self.now) r ≡ local command.now self.now) }
    {
        match command {
            Command::New(name, kind, values, from) => {
                self.new_result(alloc, *name, *kind, values, from)
            }
            Command::Let(name, old, op, from) => self.let_result(alloc, *name, old, op, from),
            Command::Rekey(name, old, comparer) => {
                self.rekey_result(alloc, *name, old, *comparer)
            }
            Command::Ask(name, query, from) => self.ask_result(alloc, name, query, from),
            Command::Show(name) => self.show_result(alloc, name),
            Command::FrozenSet(name, eq, values, from) => {
                self.frozen_set_result(alloc, *name, *eq, values, from)
            }
            Command::FrozenMap(name, eq, pairs, from) => {
                self.frozen_map_result(alloc, *name, *eq, pairs, from)
            }
            _ => Ok(None),
        }
    }

    // The collection of these values, or of those of a name.
    fn made(
        &self,
        alloc: Global,
        kind: Kind,
        values: &Values,
        from: &Option<Text24>,
    ) -> Result<Option<Result<Collection, Refusal>>, Memory>
        requires { is_within values.now ≡ true }
        ensures { IfOk result (λ m. m ≡ option_map (made kind) (source self.now values.now from.now)) }
    {
        match from {
            None => Ok(Some(Collection::of_values(alloc, kind, values)?)),
            Some(name) => match self.values(alloc, name)? {
                Some(values) => Ok(Some(Collection::of_values(alloc, kind, &values)?)),
                None => Ok(None),
            },
        }
    }

    // What an operation gives, on its values or on those of a name.
    fn changed(
        &self,
        alloc: Global,
        old: &Collection,
        op: &PlainOp,
        from: &Option<Text24>,
    ) -> Result<Option<Changed>, Memory>
        requires { are_within (op_values op.now) ≡ true }
        ensures { IfOk result (λ c. c ≡ option_map (λ o. plain o old.now) (op_from self.now op.now from.now)) }
    {
        match from {
            None => Ok(Some(old.apply(alloc, op)?)),
            Some(name) => match self.values(alloc, name)? {
                Some(values) => {
                    let op = op.with_values(alloc, values)?;
                    Ok(Some(old.apply(alloc, &op)?))
                }
                None => Ok(None),
            },
        }
    }

    // What a question is answered, about its values or those of a name.
    fn answered(
        &self,
        alloc: Global,
        value: &Bound,
        query: &Query,
        from: &Option<Text24>,
    ) -> Result<Option<Answer>, Memory>
        requires within { are_within (query_values query.now) ≡ true }
        requires answered { has_answer query.now (bound_of value.now) ≡ true }
        ensures { IfOk result (λ a. option_map (λ b. gives b self.now) a
            ≡ asked (query_from self.now query.now from.now) (bound_of value.now) self.now) }
    {
        match from {
            None => Ok(Some(value.answer(alloc, query)?)),
            Some(name) => match self.values(alloc, name)? {
                Some(values) => {
                    let query = query.with_values(alloc, values)?;
                    Ok(Some(value.answer(alloc, &query)?))
                }
                None => Ok(None),
            },
        }
    }

    // The frozen set of these values, or of those of a name.
    fn frozen_set(
        &self,
        alloc: Global,
        eq: ValEq,
        values: &Values,
        from: &Option<Text24>,
    ) -> Result<Option<FrozenCollection>, Memory>
        requires { is_within values.now ≡ true }
        ensures { IfOk result (λ f. f ≡ option_map (set_of eq) (source self.now values.now from.now)) }
    {
        match from {
            None => Ok(Some(FrozenCollection::set_of_values(alloc, eq, values)?)),
            Some(name) => match self.values(alloc, name)? {
                Some(values) => Ok(Some(FrozenCollection::set_of_values(alloc, eq, &values)?)),
                None => Ok(None),
            },
        }
    }

    // The frozen map of these pairs, or of those of a name.
    fn frozen_map(
        &self,
        alloc: Global,
        eq: ValEq,
        pairs: &Values,
        from: &Option<Text24>,
    ) -> Result<Option<FrozenCollection>, Memory>
        requires { is_within pairs.now ≡ true }
        ensures { IfOk result (λ f. f ≡ option_map (map_of eq) (source self.now pairs.now from.now)) }
    {
        match from {
            None => Ok(Some(FrozenCollection::map_of_values(alloc, eq, pairs)?)),
            Some(name) => match self.values(alloc, name)? {
                Some(pairs) => Ok(Some(FrozenCollection::map_of_values(alloc, eq, &pairs)?)),
                None => Ok(None),
            },
        }
    }

    // `new`
    fn new_result(
        &self,
        alloc: Global,
        name: Text24,
        kind: Kind,
        values: &Values,
        from: &Option<Text24>,
    ) -> Result<Option<LocalResult>, Memory>
        requires { is_within values.now ≡ true }
        ensures { IfOk result (λ r. option_map (λ t. given_of t self.now) r ≡ local (Command.New name kind values.now from.now) self.now) }
    {
        match self.made(alloc, kind, values, from)? {
            Some(made) => Ok(Some(new_result(name, kind, made))),
            None => Ok(None),
        }
    }

    // `let`
    fn let_result(
        &self,
        alloc: Global,
        name: Text24,
        old: &Text24,
        op: &PlainOp,
        from: &Option<Text24>,
    ) -> Result<Option<LocalResult>, Memory>
        requires { are_within (op_values op.now) ≡ true }
        ensures { IfOk result (λ r. option_map (λ t. given_of t self.now) r ≡ local (Command.Let name old.now op.now from.now) self.now) }
    {
        match self.collection(old) {
            Some(old) => match self.changed(alloc, old, op, from)? {
                Some(changed) => Ok(Some(let_result(name, old, changed)?)),
                None => Ok(None),
            },
            None => Ok(None),
        }
    }

    // `rekey`
    fn rekey_result(
        &self,
        alloc: Global,
        name: Text24,
        old: &Text24,
        comparer: Comparer,
    ) -> Result<Option<LocalResult>, Memory>
        ensures { IfOk result (λ r. option_map (λ t. given_of t self.now) r ≡ local (Command.Rekey name old.now comparer) self.now) }
    {
        match self.collection(old) {
            Some(old) => match old.kind().with_comparer(comparer) {
                Some(kind) => {
                    let changed = old.rekeyed(alloc, comparer)?;
                    Ok(Some(rekey_result(name, old, kind, changed)?))
                }
                None => Ok(None),
            },
            None => Ok(None),
        }
    }

    // `ask`
    fn ask_result(
        &self,
        alloc: Global,
        name: &Text24,
        query: &Query,
        from: &Option<Text24>,
    ) -> Result<Option<LocalResult>, Memory>
        requires within { are_within (query_values query.now) ≡ true }
        requires answered { can_answer query.now (bound self.now name.now) ≡ true }
        ensures { IfOk result (λ r. option_map (λ t. given_of t self.now) r ≡ local (Command.Ask name.now query.now from.now) self.now) }
    {
        match self.bound(name) {
            Some(value) => match self.answered(alloc, value, query, from)? {
                Some(answer) => Ok(Some(answer_only(answer))),
                None => Ok(None),
            },
            None => Ok(None),
        }
    }

    // `show`
    fn show_result(&self, alloc: Global, name: &Text24) -> Result<Option<LocalResult>, Memory>
        ensures { IfOk result (λ r. option_map (λ t. given_of t self.now) r ≡ local (Command.Show name.now) self.now) }
    {
        match self.preview(alloc, name)? {
            Some(answer) => Ok(Some(answer_only(answer))),
            None => Ok(None),
        }
    }

    // `frozenset`
    fn frozen_set_result(
        &self,
        alloc: Global,
        name: Text24,
        eq: ValEq,
        values: &Values,
        from: &Option<Text24>,
    ) -> Result<Option<LocalResult>, Memory>
        requires { is_within values.now ≡ true }
        ensures { IfOk result (λ r. option_map (λ t. given_of t self.now) r ≡ local (Command.FrozenSet name eq values.now from.now) self.now) }
    {
        match self.frozen_set(alloc, eq, values, from)? {
            Some(frozen) => Ok(Some(frozen_result(name, frozen))),
            None => Ok(None),
        }
    }

    // `frozenmap`
    fn frozen_map_result(
        &self,
        alloc: Global,
        name: Text24,
        eq: ValEq,
        pairs: &Values,
        from: &Option<Text24>,
    ) -> Result<Option<LocalResult>, Memory>
        requires { is_within pairs.now ≡ true }
        ensures { IfOk result (λ r. option_map (λ t. given_of t self.now) r ≡ local (Command.FrozenMap name eq pairs.now from.now) self.now) }
    {
        match self.frozen_map(alloc, eq, pairs, from)? {
            Some(frozen) => Ok(Some(frozen_result(name, frozen))),
            None => Ok(None),
        }
    }
}

// What `new` comes to: where there are too many elements, the name is bound to the empty
// collection.
fn new_result(name: Text24, kind: Kind, made: Result<Collection, Refusal>) -> LocalResult
    ensures { result ≡ new_result name kind made }
{
    match made {
        Ok(value) => {
            let count = u64::from(value.count());
            answer_and_bind(Answer::Count(count), name, Bound::Collection(value))
        }
        Err(refusal) => {
            let empty = Bound::Collection(Collection::empty(kind));
            answer_and_bind(Answer::Refused(refusal), name, empty)
        }
    }
}

// What `let` comes to: where nothing is changed, the name is bound to the collection as it was.
fn let_result(name: Text24, old: &Collection, changed: Changed) -> Result<LocalResult, Memory>
    ensures { IfOk result (λ r. r ≡ let_result name old.now changed) }
{
    match changed {
        Ok(Edit::New(value)) => Ok(answer_and_bind(Answer::New, name, Bound::Collection(value))),
        Ok(Edit::Same) => {
            let old = Bound::Collection(old.share()?);
            Ok(answer_and_bind(Answer::Same, name, old))
        }
        Err(refusal) => {
            let old = Bound::Collection(old.share()?);
            Ok(answer_and_bind(Answer::Refused(refusal), name, old))
        }
    }
}

// What `rekey` comes to: where a key is there already, the name is bound to the empty collection.
fn rekey_result(
    name: Text24,
    old: &Collection,
    kind: Kind,
    changed: Changed,
) -> Result<LocalResult, Memory>
    ensures { IfOk result (λ r. r ≡ rekey_result name old.now kind changed) }
{
    match changed {
        Err(refusal) => {
            let empty = Bound::Collection(Collection::empty(kind));
            Ok(answer_and_bind(Answer::Refused(refusal), name, empty))
        }
        changed => let_result(name, old, changed),
    }
}

// What `frozenset` and `frozenmap` come to.
fn frozen_result(name: Text24, frozen: FrozenCollection) -> LocalResult
    ensures { result ≡ frozen_result name frozen }
{
    let count = u64::from(frozen.count());
    answer_and_bind(Answer::Count(count), name, Bound::Frozen(frozen))
}
