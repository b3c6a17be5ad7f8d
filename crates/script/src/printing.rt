//! The canonical text of a script.

ghost use Rattle.std.specs.Prelude.{◌≡◌, OnOk, IfOk};
ghost use Rattle.std.specs.List.{flat_map};
ghost use Rattle.plain_model.specs.Text.{Adds, line, decl_words, command_words};
ghost use Rattle.script.specs.Printing.{header_text, part_text, canonical_text};

use imm_base::Memory;
use plain_model::{CellDecl, Command, Part, Script, Version, put_command, put_decl};
use std::alloc::{AllocError, Global};

fn write_cell_line(text: &mut String, cell: &CellDecl) -> Result<(), AllocError>
    ensures { OnOk result (Adds text.old text.new (line (decl_words cell.now))) }
{
    put_decl(text, cell)?;
    text.push('\n')?;
    Ok(())
}

fn write_cells(text: &mut String, cells: &[CellDecl]) -> Result<(), AllocError>
    ensures { OnOk result (Adds text.old text.new
        (flat_map (λ c. line (decl_words c)) cells.now)) }
{
    for cell in cells {
        write_cell_line(text, cell)?;
    }
    Ok(())
}

fn write_command_line(text: &mut String, command: &Command) -> Result<(), AllocError>
    ensures { OnOk result (Adds text.old text.new (line (command_words command.now))) }
{
    put_command(text, command)?;
    text.push('\n')?;
    Ok(())
}

fn write_commands(text: &mut String, commands: &[Command]) -> Result<(), AllocError>
    ensures { OnOk result (Adds text.old text.new
        (flat_map (λ c. line (command_words c)) commands.now)) }
{
    for command in commands {
        write_command_line(text, command)?;
    }
    Ok(())
}

fn write_part(text: &mut String, part: &Part) -> Result<(), AllocError>
    ensures { OnOk result (Adds text.old text.new (part_text part.now)) }
{
    text.push_str("worker\n")?;
    write_commands(text, part.commands.as_slice())?;
    text.push_str("end\n")?;
    Ok(())
}

fn write_parts(text: &mut String, parts: &[Part]) -> Result<(), AllocError>
    ensures { OnOk result (Adds text.old text.new (flat_map part_text parts.now)) }
{
    for part in parts {
        write_part(text, part)?;
    }
    Ok(())
}

fn write_header(text: &mut String, version: Version) -> Result<(), AllocError>
    ensures { OnOk result (Adds text.old text.new (header_text version)) }
{
    write!(text, "immrun {version}\n")
}

/// The canonical text of a script: the header, the cells and the parts in order, one space between
/// words, a line feed after each line, no comments and no empty lines. The only error is want of
/// memory. It takes O(n) for n bytes of text.
pub fn print(alloc: Global, script: &Script) -> Result<Vec<u8>, Memory>
    ensures { IfOk result (λ text. text.items ≡ canonical_text script.now) }
{
    let mut text = String::new(alloc);
    write_header(&mut text, script.version)?;
    write_cells(&mut text, script.cells.as_slice())?;
    write_parts(&mut text, script.parts.as_slice())?;
    Ok(text.into_bytes())
}
