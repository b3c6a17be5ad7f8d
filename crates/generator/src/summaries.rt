//! The summary of what one worker comes to by a generated script.
ghost use Rattle.std.specs.Prelude.{◌≡◌, ◌∷◌, [], OnOk, IfOk, flat_map, map, codes, decimal};
ghost use Rattle.imm_base.specs.Spell.{val_text};
ghost use Rattle.plain_model.specs.Text.{Adds, AddsWords, spaced, line, cell_words, pair_word, values_words};
ghost use Rattle.plain_model.specs.Generator.{generated, installs, first_word, cell_summary_text, summary_text};

use crate::scripts::{COMMANDS, PARTS};
use imm_base::{Memory, Val};
use plain_model::{CellDecl, CellReport, Line, Listed, Report, Values, put_decl};
use std::alloc::{AllocError, Global};

/// How many lines installed.
fn installs(lines: &[Line]) -> usize
    ensures { result ≡ installs lines.now }
{
    let mut count = 0;
    for line in lines {
        if line.installed {
            count += 1;
        }
    }
    count
}

/// A cell and its kind, as the line that declares a cell without values.
#[tactic(auto, using(crate::proofs::Words::without_values))]
fn put_cell(alloc: Global, text: &mut String, cell: &CellDecl) -> Result<(), AllocError>
    ensures { OnOk result (Adds text.old text.new (spaced (cell_words cell.now))) }
{
    let declared = CellDecl {
        name: cell.name,
        kind: cell.kind,
        values: Values::List(Listed::new(alloc)),
    };
    put_decl(text, &declared)
}

fn put_first_element(text: &mut String, elements: &[Val]) -> Result<(), AllocError>
    ensures { OnOk result (AddsWords text.old text.new
        (first_word (map val_text elements.now) ∷ [])) }
{
    match elements {
        [] => write!(text, " none"),
        [element, ..] => write!(text, " {element}"),
    }
}

fn put_first_pair(text: &mut String, pairs: &[(Val, Val)]) -> Result<(), AllocError>
    ensures { OnOk result (AddsWords text.old text.new
        (first_word (map pair_word pairs.now) ∷ [])) }
{
    match pairs {
        [] => write!(text, " none"),
        [pair, ..] => {
            let key = pair.0;
            let value = pair.1;
            write!(text, " {key}={value}")
        }
    }
}

/// The first word of the values, as they are written.
fn put_first(text: &mut String, values: &Values) -> Result<(), AllocError>
    ensures { OnOk result (AddsWords text.old text.new
        (first_word (values_words values.now) ∷ [])) }
{
    match values {
        Values::List(elements) => put_first_element(text, elements.as_slice()),
        Values::Pairs(pairs) => put_first_pair(text, pairs.as_slice()),
        Values::Seq { first: _, count: _ } => write!(text, " seq"),
        Values::Unset => write!(text, " -"),
    }
}

fn put_cell_summary(alloc: Global, text: &mut String, report: &CellReport) -> Result<(), AllocError>
    ensures { OnOk result (Adds text.old text.new (cell_summary_text report.now)) }
{
    let installs = installs(report.lines.as_slice());
    let count = report.last.values.count();
    put_cell(alloc, text, &report.cell)?;
    write!(text, " installs {installs} final {count} first")?;
    put_first(text, &report.last.values)?;
    write!(text, "\n")
}

fn put_cells(alloc: Global, text: &mut String, cells: &[CellReport]) -> Result<(), AllocError>
    ensures { OnOk result (Adds text.old text.new (flat_map cell_summary_text cells.now)) }
{
    for cell in cells {
        put_cell_summary(alloc, text, cell)?;
    }
    Ok(())
}

fn put_number(text: &mut String, number: u32) -> Result<(), AllocError>
    ensures { OnOk result (Adds text.old text.new (line (codes "gen" ∷ decimal number ∷ []))) }
{
    write!(text, "gen {number}\n")
}

fn put_command_count(text: &mut String, count: u32) -> Result<(), AllocError>
    ensures { OnOk result (Adds text.old text.new (line (codes "commands" ∷ decimal count ∷ []))) }
{
    write!(text, "commands {count}\n")
}

/// The summary of a report of the script of this number: the number, how many commands the script
/// has, and of each cell how many calls installed, how many elements it has at the end, and the
/// first of them. The only error is want of memory. It takes O(n) for n lines of the report and
/// bytes of the text.
pub fn summary_text(alloc: Global, number: u32, report: &Report) -> Result<Vec<u8>, Memory>
    ensures { IfOk result (λ text.
        text.items ≡ summary_text number (generated number) report.now) }
{
    let mut text = String::new(alloc);
    put_number(&mut text, number)?;
    put_command_count(&mut text, PARTS * COMMANDS)?;
    put_cells(alloc, &mut text, report.cells.as_slice())?;
    write!(text, "end\n")?;
    Ok(text.into_bytes())
}
