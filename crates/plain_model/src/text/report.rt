//! Answers, lines and reports.
ghost use Rattle.std.specs.Prelude.{◌≡◌, ◌++◌, ◌∷◌, [], OnOk, IfOk, flat_map, codes, decimal};
ghost use Rattle.plain_model.specs.Text.{Adds, AddsWords, spaced, line, mark, place_words, cell_words, title_words, collection_words, answer_words, line_text, local_text, cell_text, worker_text, workers_text, report_text};

use crate::text::commands::{put_call, put_command};
use crate::text::values::{put_collection, put_short};
use crate::text::words::{put_kind, put_refusal, put_reply, put_strategy};
use crate::{Answer, CellDecl, CellReport, Line, Listed, LocalLine, Report, Values};
use imm_base::Memory;
use std::alloc::{AllocError, Global};

pub fn put_answer(text: &mut String, answer: &Answer) -> Result<(), AllocError>
    ensures { OnOk result (AddsWords text.old text.new (answer_words answer.now)) }
{
    match answer {
        Answer::Flag(flag) => write!(text, " {flag}"),
        Answer::Value(value) => write!(text, " {value}"),
        Answer::Next(element) => write!(text, " true {element}"),
        Answer::Element(element) => write!(text, " {element}"),
        Answer::Count(count) => write!(text, " {count}"),
        Answer::Index(index) => write!(text, " {index}"),
        Answer::Missing => write!(text, " none"),
        Answer::Same => write!(text, " same"),
        Answer::New => write!(text, " new"),
        Answer::Done => write!(text, " ok"),
        Answer::Strategy(strategy) => put_strategy(text, *strategy),
        Answer::Shown { count, first } => put_short(text, *count, first),
        Answer::Refused(refusal) => put_refusal(text, *refusal),
    }
}

fn mark(installed: bool) -> &'static str
    ensures { result.now ≡ mark installed }
{
    if installed { "+" } else { "." }
}

fn put_place(text: &mut String, line: &Line) -> Result<(), AllocError>
    ensures { OnOk result (Adds text.old text.new (spaced (place_words line.now))) }
{
    let position = line.position;
    let caller = line.caller;
    let ordinal = line.ordinal;
    let mark = mark(line.installed);
    write!(text, "{position} {caller}.{ordinal} {mark}")
}

fn put_line(text: &mut String, line: &Line) -> Result<(), AllocError>
    ensures { OnOk result (Adds text.old text.new (line_text line.now)) }
{
    put_place(text, line)?;
    put_call(text, &line.call)?;
    write!(text, " ->")?;
    put_reply(text, &line.reply)?;
    write!(text, "\n")
}

fn put_lines(text: &mut String, lines: &[Line]) -> Result<(), AllocError>
    ensures { OnOk result (Adds text.old text.new (flat_map line_text lines.now)) }
{
    for line in lines {
        put_line(text, line)?;
    }
    Ok(())
}

/// A word, and then a collection, as a line.
fn put_value(text: &mut String, word: &str, values: &Values) -> Result<(), AllocError>
    ensures { OnOk result (Adds text.old text.new (line (word.now ∷ collection_words values.now))) }
{
    write!(text, "{word}")?;
    put_collection(text, values)?;
    write!(text, "\n")
}

fn put_heading(text: &mut String, cell: &CellDecl) -> Result<(), AllocError>
    ensures { OnOk result (Adds text.old text.new (line (cell_words cell.now))) }
{
    let name = cell.name;
    write!(text, "cell {name}")?;
    put_kind(text, cell.kind)?;
    write!(text, "\n")
}

fn put_cell(text: &mut String, cell: &CellReport) -> Result<(), AllocError>
    ensures { OnOk result (Adds text.old text.new (cell_text cell.now)) }
{
    put_heading(text, &cell.cell)?;
    put_value(text, "first", &cell.first.values)?;
    put_lines(text, cell.lines.as_slice())?;
    put_value(text, "final", &cell.last.values)
}

fn put_cells(text: &mut String, cells: &[CellReport]) -> Result<(), AllocError>
    ensures { OnOk result (Adds text.old text.new (flat_map cell_text cells.now)) }
{
    for cell in cells {
        put_cell(text, cell)?;
    }
    Ok(())
}

fn put_local(text: &mut String, worker: usize, local: &LocalLine) -> Result<(), AllocError>
    ensures { OnOk result (Adds text.old text.new (local_text worker local.now)) }
{
    let ordinal = local.ordinal;
    write!(text, "{worker}.{ordinal} ")?;
    put_command(text, &local.command)?;
    write!(text, " ->")?;
    put_answer(text, &local.answer)?;
    write!(text, "\n")
}

fn put_locals(text: &mut String, worker: usize, locals: &[LocalLine]) -> Result<(), AllocError>
    ensures { OnOk result (Adds text.old text.new (flat_map (local_text worker) locals.now)) }
{
    for local in locals {
        put_local(text, worker, local)?;
    }
    Ok(())
}

fn put_worker(text: &mut String, worker: usize, locals: &[LocalLine]) -> Result<(), AllocError>
    ensures { OnOk result (Adds text.old text.new (worker_text worker locals.now)) }
{
    writeln!(text, "worker {worker}")?;
    put_locals(text, worker, locals)
}

fn put_workers(text: &mut String, workers: &[Listed<LocalLine>]) -> Result<(), AllocError>
    ensures { OnOk result (Adds text.old text.new (workers_text 1 workers.now)) }
{
    let mut worker = 0;
    for locals in workers {
        worker += 1;
        put_worker(text, worker, locals.as_slice())?;
    }
    Ok(())
}

fn put_title(text: &mut String) -> Result<(), AllocError>
    ensures { OnOk result (Adds text.old text.new (line title_words)) }
{
    write!(text, "immrun report 1\n")
}

fn put_worker_count(text: &mut String, workers: u32) -> Result<(), AllocError>
    ensures { OnOk result (Adds text.old text.new (line (codes "workers" ∷ decimal workers ∷ []))) }
{
    write!(text, "workers {workers}\n")
}

/// The text of a report.
pub fn report_text(alloc: Global, report: &Report) -> Result<Vec<u8>, Memory>
    ensures { IfOk result (λ text. text.items ≡ report_text report.now) }
{
    let mut text = String::new(alloc);
    put_title(&mut text)?;
    put_worker_count(&mut text, report.workers)?;
    put_cells(&mut text, report.cells.as_slice())?;
    put_workers(&mut text, report.locals.as_slice())?;
    write!(text, "end\n")?;
    Ok(text.into_bytes())
}
