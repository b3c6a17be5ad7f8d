//! What a worker's command does.
ghost use Rattle.std.specs.Prelude.{◌≡◌, ◌+◌, ◌<◌, ◌^◌, true, OnOk, None, ◌∷◌, [], ◌++◌};
ghost use Rattle.std.specs.Prelude.{length, nat_lt};
ghost use Rattle.plain_model.specs.declared.limits.TheConstants.{PUBLISH_LIMIT};
ghost use Rattle.plain_model.specs.declared.commands.Command.TheVariants as commands;
ghost use Rattle.plain_model.specs.Work.{call_of};
ghost use Rattle.cell_calls.specs.Calls.{plain_call};
ghost use Rattle.runs.specs.Calls.{HasKeys, MayCall};
ghost use Rattle.runs.specs.Places.{AreApart, cell_place, kinds_of};
ghost use Rattle.runs.specs.Needs.{CanAnswer, CanCallOrAnswer, CanDo, CanPublish};
ghost use Rattle.runs.specs.Notes.{Makes};
ghost use Rattle.runs.specs.Works.{AnswersLocally, IsDone};

use crate::calls::call_of;
use crate::cells::{Cells, cell_place};
use cell_calls::CellCall;
use imm_base::{Dup, Memory, Text24, Val};
use locals::Locals;
use plain_model::{Answer, CellDecl, Command, Factory, Listed, LocalLine, PUBLISH_LIMIT, Refusal};
use std::alloc::Global;

/// What a worker has beside its cells: its local names, and its lines so far.
#[derive(Drop)]
pub(crate) struct Worker {
    pub names: Locals,
    pub lines: Listed<LocalLine>,
}

// Puts a local line behind the others.
fn push_line(
    alloc: Global,
    worker: &mut Worker,
    ordinal: u64,
    command: &Command,
    answer: Answer,
) -> Result<(), Memory>
    ensures names { OnOk result (worker.new.names ≡ worker.old.names) }
    ensures lines { OnOk result (worker.new.lines ≡ worker.old.lines
        ++ record { ordinal = ordinal; command = command.now; answer = answer } ∷ []) }
{
    let command = command.dup(alloc)?;
    worker.lines.push(LocalLine {
        ordinal,
        command,
        answer,
    })?;
    Ok(())
}

// A call on the cell of a name.
fn call_cell<T: Cells>(
    alloc: Global,
    decls: &[CellDecl],
    cells: &mut T,
    ordinal: u64,
    cell: Text24,
    call: CellCall,
) -> Result<(), Memory>
    requires kinds { T.kinds cells.old ≡ kinds_of decls.now }
    requires ready { T.ready cells.old ordinal }
    requires fits { ordinal < 2 ^ 63 }
    requires may { MayCall (kinds_of decls.now) (cell_place decls.now cell) call }
    ensures kinds { OnOk result (T.kinds cells.new ≡ kinds_of decls.now) }
    ensures ready { OnOk result (T.ready cells.new (ordinal + 1)) }
    ensures makes { OnOk result (Makes T.makes cells.old (cell_place decls.now cell) ordinal
        (plain_call call) None cells.new) }
{
    let place = cell_place(decls, &cell);
    cells.call(alloc, place, ordinal, call)?;
    Ok(())
}

// `read`
fn read<T: Cells>(
    alloc: Global,
    decls: &[CellDecl],
    cells: &mut T,
    worker: &mut Worker,
    ordinal: u64,
    cell: &Text24,
    name: &Text24,
) -> Result<(), Memory>
    requires apart { AreApart decls.now }
    requires kinds { T.kinds cells.old ≡ kinds_of decls.now }
    requires ready { T.ready cells.old ordinal }
    requires fits { ordinal < 2 ^ 63 }
    requires place { cell_place decls.now cell.now < length decls.now }
    ensures kinds { OnOk result (T.kinds cells.new ≡ kinds_of decls.now) }
    ensures ready { OnOk result (T.ready cells.new (ordinal + 1)) }
    ensures done { OnOk result (IsDone T.makes decls.now ordinal (commands.Read cell.now name.now)
        cells.old worker.old cells.new worker.new) }
{
    let place = cell_place(decls, cell);
    let value = cells.read(alloc, place, ordinal)?;
    worker.names.bind_collection(*name, value)?;
    Ok(())
}

fn is_too_large(count: u32) -> bool
    ensures { result ≡ nat_lt PUBLISH_LIMIT count }
{
    count > PUBLISH_LIMIT
}

// `publish`
fn publish<T: Cells>(
    alloc: Global,
    decls: &[CellDecl],
    cells: &mut T,
    worker: &mut Worker,
    ordinal: u64,
    command: &Command,
    cell: &Text24,
    name: &Text24,
) -> Result<(), Memory>
    requires apart { AreApart decls.now }
    requires kinds { T.kinds cells.old ≡ kinds_of decls.now }
    requires ready { T.ready cells.old ordinal }
    requires fits { ordinal < 2 ^ 63 }
    requires is { command.now ≡ commands.Publish cell.now name.now }
    requires can { CanPublish decls.now cell.now name.now worker.old.names }
    ensures kinds { OnOk result (T.kinds cells.new ≡ kinds_of decls.now) }
    ensures ready { OnOk result (T.ready cells.new (ordinal + 1)) }
    ensures done { OnOk result (IsDone T.makes decls.now ordinal (commands.Publish cell.now name.now)
        cells.old worker.old cells.new worker.new) }
{
    let Some(value) = worker.names.collection(name) else {
        unreachable!();
    };
    let count = value.count();
    if is_too_large(count) {
        let answer = Answer::Refused(Refusal::Publish { count });
        push_line(alloc, worker, ordinal, command, answer)?;
        return Ok(());
    }
    let call = CellCall::Publish(value.share()?);
    call_cell(alloc, decls, cells, ordinal, *cell, call)?;
    Ok(())
}

// `getoraddf`
fn get_or_add_made<T: Cells>(
    alloc: Global,
    decls: &[CellDecl],
    cells: &mut T,
    ordinal: u64,
    cell: &Text24,
    key: &Val,
    make: &Factory,
) -> Result<(), Memory>
    requires apart { AreApart decls.now }
    requires kinds { T.kinds cells.old ≡ kinds_of decls.now }
    requires ready { T.ready cells.old ordinal }
    requires fits { ordinal < 2 ^ 63 }
    requires keys { HasKeys (kinds_of decls.now) (cell_place decls.now cell.now) }
    ensures kinds { OnOk result (T.kinds cells.new ≡ kinds_of decls.now) }
    ensures ready { OnOk result (T.ready cells.new (ordinal + 1)) }
    ensures done { OnOk result ((worker : _) → IsDone T.makes decls.now ordinal
        (commands.GetOrAddMade cell.now key.now make.now) cells.old worker cells.new worker) }
{
    let place = cell_place(decls, cell);
    cells.get_or_add_made(alloc, place, ordinal, *key, *make)?;
    Ok(())
}

// A local command.
fn answer(alloc: Global, worker: &mut Worker, ordinal: u64, command: &Command) -> Result<(), Memory>
    requires { CanAnswer command.now worker.old.names }
    ensures { OnOk result (AnswersLocally ordinal command.now worker.old worker.new) }
{
    match worker.names.run(alloc, command)? {
        Some(answer) => {
            push_line(alloc, worker, ordinal, command, answer)?;
            Ok(())
        }
        None => unreachable!(),
    }
}

// A command that makes a call which its arguments alone say, or a local one.
fn call_or_answer<T: Cells>(
    alloc: Global,
    decls: &[CellDecl],
    cells: &mut T,
    worker: &mut Worker,
    ordinal: u64,
    command: &Command,
) -> Result<(), Memory>
    requires apart { AreApart decls.now }
    requires kinds { T.kinds cells.old ≡ kinds_of decls.now }
    requires ready { T.ready cells.old ordinal }
    requires fits { ordinal < 2 ^ 63 }
    requires can { CanCallOrAnswer decls.now (call_of command.now) command.now worker.old.names }
    ensures kinds { OnOk result (T.kinds cells.new ≡ kinds_of decls.now) }
    ensures ready { OnOk result (T.ready cells.new (ordinal + 1)) }
    ensures done { OnOk result (IsDone T.makes decls.now ordinal command.now
        cells.old worker.old cells.new worker.new) }
{
    match call_of(alloc, command)? {
        Some(called) => {
            let (cell, call) = called;
            call_cell(alloc, decls, cells, ordinal, cell, CellCall::Plain(call))?;
            Ok(())
        }
        None => {
            answer(alloc, worker, ordinal, command)?;
            Ok(())
        }
    }
}

/// Does one command.
pub(crate) fn run_command<T: Cells>(
    alloc: Global,
    decls: &[CellDecl],
    cells: &mut T,
    worker: &mut Worker,
    ordinal: u64,
    command: &Command,
) -> Result<(), Memory>
    requires apart { AreApart decls.now }
    requires kinds { T.kinds cells.old ≡ kinds_of decls.now }
    requires ready { T.ready cells.old ordinal }
    requires fits { ordinal < 2 ^ 63 }
    requires can { CanDo decls.now command.now worker.old.names }
    ensures kinds { OnOk result (T.kinds cells.new ≡ kinds_of decls.now) }
    ensures ready { OnOk result (T.ready cells.new (ordinal + 1)) }
    ensures done { OnOk result (IsDone T.makes decls.now ordinal command.now
        cells.old worker.old cells.new worker.new) }
{
    match command {
        Command::Read(cell, name) => read(alloc, decls, cells, worker, ordinal, cell, name),
        Command::Publish(cell, name) => publish(
            alloc, decls, cells, worker, ordinal, command, cell, name,
        ),
        Command::GetOrAddMade(cell, key, make) => {
            get_or_add_made(alloc, decls, cells, ordinal, cell, key, make)
        }
        _ => call_or_answer(alloc, decls, cells, worker, ordinal, command),
    }
}
