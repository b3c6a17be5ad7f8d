//! What a command needs of its names, and what it binds.

ghost use Rattle.std.specs.Prelude.{◌≡◌};
ghost use Rattle.std.specs.Option.{option_copied};
ghost use Rattle.plain_model.specs.declared.commands.Command.TheVariants as commands;
ghost use Rattle.script.specs.Commands.{if_fits, is_called, call_binding, collection, frozen, class_answers, binding, keeps_class, rebinds, check};

use crate::symbols::{
    Binding, class_of, collection_kind_of, contents_kind_of, kind_of_cell, source_fits,
};
use collections::frozen_answers;
use imm_base::{Text24, ValEq};
use plain_model::{
    CellDecl, Class, Command, Comparer, ItemKind, Kind, Names, PlainOp, Query, Values,
};
use script_line::{Code, both_or_least};

/// What a command binds, where it goes with the kinds.
fn if_fits(test: bool, bound: Option<Binding>) -> Result<Option<Binding>, Code>
    ensures { result ≡ if_fits test bound }
{
    if test { Ok(bound) } else { Err(Code::Kind) }
}

fn collection(name: &Text24, kind: Kind) -> Option<Binding>
    ensures { result ≡ collection name.now kind }
{
    Some((*name, Class::Collection(kind)))
}

fn frozen(name: &Text24, kind: Kind) -> Option<Binding>
    ensures { result ≡ frozen name.now kind }
{
    Some((*name, Class::Frozen(kind)))
}

#[tactic(auto, unfolding(crate::specs::Commands::binding))]
fn update_binding(
    cells: &[CellDecl],
    names: &Names<Class>,
    cell: &Text24,
    op: &PlainOp,
) -> Result<Option<Binding>, Code>
    ensures { result ≡ binding cells.now names.now (commands.Update cell.now op.now) }
{
    let kind = kind_of_cell(cells, cell)?;
    if_fits(kind.takes(op), None)
}

#[tactic(auto, unfolding(crate::specs::Commands::binding))]
fn read_binding(
    cells: &[CellDecl],
    names: &Names<Class>,
    cell: &Text24,
    name: &Text24,
) -> Result<Option<Binding>, Code>
    ensures { result ≡ binding cells.now names.now (commands.Read cell.now name.now) }
{
    let kind = kind_of_cell(cells, cell)?;
    Ok(collection(name, kind))
}

#[tactic(auto, unfolding(crate::specs::Commands::binding))]
fn publish_binding(
    cells: &[CellDecl],
    names: &Names<Class>,
    cell: &Text24,
    name: &Text24,
) -> Result<Option<Binding>, Code>
    ensures { result ≡ binding cells.now names.now (commands.Publish cell.now name.now) }
{
    let kinds = both_or_least(kind_of_cell(cells, cell), collection_kind_of(names, name));
    let (kind, bound) = kinds?;
    if_fits(kind.is_same(bound), None)
}

/// The cells that a call belongs to, where one kind alone has it.
#[derive(Clone, Copy)]
pub(crate) enum Called {
    Dict,
    Stack,
    Queue,
}

fn is_called(needed: Called, kind: Kind) -> bool
    ensures { result ≡ is_called needed kind }
{
    match (needed, kind) {
        (Called::Dict, Kind::Dict(_)) => true,
        (Called::Stack, Kind::Stack) => true,
        (Called::Queue, Kind::Queue) => true,
        _ => false,
    }
}

fn call_binding(cells: &[CellDecl], needed: Called, cell: &Text24) -> Result<Option<Binding>, Code>
    ensures { result ≡ call_binding cells.now needed cell.now }
{
    let kind = kind_of_cell(cells, cell)?;
    if_fits(is_called(needed, kind), None)
}

#[tactic(auto, unfolding(crate::specs::Commands::binding))]
fn new_binding(
    cells: &[CellDecl],
    names: &Names<Class>,
    name: &Text24,
    kind: Kind,
    values: &Values,
    from: &Option<Text24>,
) -> Result<Option<Binding>, Code>
    ensures { result
        ≡ binding cells.now names.now (commands.New name.now kind values.now from.now) }
{
    source_fits(names, kind.items(), from)?;
    Ok(collection(name, kind))
}

#[tactic(auto, unfolding(crate::specs::Commands::binding))]
fn let_binding(
    cells: &[CellDecl],
    names: &Names<Class>,
    name: &Text24,
    old: &Text24,
    op: &PlainOp,
    from: &Option<Text24>,
) -> Result<Option<Binding>, Code>
    ensures { result
        ≡ binding cells.now names.now (commands.Let name.now old.now op.now from.now) }
{
    let source = source_fits(names, op.items(), from);
    let (kind, _) = both_or_least(collection_kind_of(names, old), source)?;
    if_fits(kind.takes(op), collection(name, kind))
}

#[tactic(auto, unfolding(crate::specs::Commands::binding))]
fn rekey_binding(
    cells: &[CellDecl],
    names: &Names<Class>,
    name: &Text24,
    old: &Text24,
    comparer: Comparer,
) -> Result<Option<Binding>, Code>
    ensures { result
        ≡ binding cells.now names.now (commands.Rekey name.now old.now comparer) }
{
    let kind = collection_kind_of(names, old)?;
    let kind = kind.with_comparer(comparer).ok_or(Code::Kind)?;
    Ok(collection(name, kind))
}

/// Whether what a name is bound to answers the question.
fn class_answers(class: Class, query: &Query) -> bool
    ensures { result ≡ class_answers class query.now }
{
    match class {
        Class::Collection(kind) | Class::Builder(kind) => kind.answers(query),
        Class::Frozen(kind) => frozen_answers(kind, query),
        Class::Walk => false,
    }
}

#[tactic(auto, unfolding(crate::specs::Commands::binding))]
fn ask_binding(
    cells: &[CellDecl],
    names: &Names<Class>,
    name: &Text24,
    query: &Query,
    from: &Option<Text24>,
) -> Result<Option<Binding>, Code>
    ensures { result ≡ binding cells.now names.now (commands.Ask name.now query.now from.now) }
{
    let source = source_fits(names, ItemKind::Elements, from);
    let (class, _) = both_or_least(class_of(names, name), source)?;
    if_fits(class_answers(class, query), None)
}

#[tactic(auto, unfolding(crate::specs::Commands::binding))]
fn show_binding(
    cells: &[CellDecl],
    names: &Names<Class>,
    name: &Text24,
) -> Result<Option<Binding>, Code>
    ensures { result ≡ binding cells.now names.now (commands.Show name.now) }
{
    let _kind = contents_kind_of(names, name)?;
    Ok(None)
}

#[tactic(auto, unfolding(crate::specs::Commands::binding))]
fn frozen_set_binding(
    cells: &[CellDecl],
    names: &Names<Class>,
    name: &Text24,
    eq: ValEq,
    values: &Values,
    from: &Option<Text24>,
) -> Result<Option<Binding>, Code>
    ensures { result
        ≡ binding cells.now names.now (commands.FrozenSet name.now eq values.now from.now) }
{
    source_fits(names, ItemKind::Elements, from)?;
    Ok(frozen(name, Kind::HSet(eq)))
}

#[tactic(auto, unfolding(crate::specs::Commands::binding))]
fn frozen_map_binding(
    cells: &[CellDecl],
    names: &Names<Class>,
    name: &Text24,
    eq: ValEq,
    pairs: &Values,
    from: &Option<Text24>,
) -> Result<Option<Binding>, Code>
    ensures { result
        ≡ binding cells.now names.now (commands.FrozenMap name.now eq pairs.now from.now) }
{
    source_fits(names, ItemKind::Pairs, from)?;
    Ok(frozen(name, Kind::Dict(eq)))
}

/// What a command binds; else the least code that its names and their kinds have.
fn binding(
    cells: &[CellDecl],
    names: &Names<Class>,
    command: &Command,
) -> Result<Option<Binding>, Code>
    ensures { result ≡ binding cells.now names.now command.now }
{
    match command {
        Command::Update(cell, op) => update_binding(cells, names, cell, op),
        Command::Read(cell, name) => read_binding(cells, names, cell, name),
        Command::Publish(cell, name) => publish_binding(cells, names, cell, name),
        Command::GetOrAdd(cell, _, _) => call_binding(cells, Called::Dict, cell),
        Command::AddOrUpdate(cell, _, _, _) => call_binding(cells, Called::Dict, cell),
        Command::TryAdd(cell, _, _) => call_binding(cells, Called::Dict, cell),
        Command::TryUpdate(cell, _, _, _) => call_binding(cells, Called::Dict, cell),
        Command::TryRemove(cell, _) => call_binding(cells, Called::Dict, cell),
        Command::Push(cell, _) => call_binding(cells, Called::Stack, cell),
        Command::TryPop(cell) => call_binding(cells, Called::Stack, cell),
        Command::Enqueue(cell, _) => call_binding(cells, Called::Queue, cell),
        Command::TryDequeue(cell) => call_binding(cells, Called::Queue, cell),
        Command::AddOrUpdateMade(cell, _, _, _) => call_binding(cells, Called::Dict, cell),
        Command::New(name, kind, values, from) => {
            new_binding(cells, names, name, *kind, values, from)
        }
        Command::Let(name, old, op, from) => let_binding(cells, names, name, old, op, from),
        Command::Rekey(name, old, comparer) => rekey_binding(cells, names, name, old, *comparer),
        Command::Ask(name, query, from) => ask_binding(cells, names, name, query, from),
        Command::Show(name) => show_binding(cells, names, name),
        Command::FrozenSet(name, eq, values, from) => {
            frozen_set_binding(cells, names, name, *eq, values, from)
        }
        Command::FrozenMap(name, eq, pairs, from) => {
            frozen_map_binding(cells, names, name, *eq, pairs, from)
        }
        _ => Err(Code::Name),
    }
}

fn keeps_class(old: Option<&Class>, class: Class) -> bool
    ensures { result ≡ keeps_class (option_copied old.entry) class }
{
    match old {
        Some(old) => class.is_alike(*old),
        None => true,
    }
}

/// Whether a name that is bound again keeps its class and its kind, whatever the comparer.
fn rebinds(names: &Names<Class>, bound: Option<Binding>) -> Result<Option<Binding>, Code>
    ensures { result ≡ rebinds names.now bound }
{
    match bound {
        Some((name, class)) => {
            if_fits(keeps_class(names.get(&name), class), Some((name, class)))
        }
        None => Ok(None),
    }
}

/// What a command binds; else the least of the codes of names and of kinds.
#[tactic(auto, unfolding(crate::specs::Commands::check))]
pub(crate) fn check(
    cells: &[CellDecl],
    names: &Names<Class>,
    command: &Command,
) -> Result<Option<Binding>, Code>
    ensures { result ≡ check cells.now names.now command.now }
{
    let bound = binding(cells, names, command)?;
    rebinds(names, bound)
}
