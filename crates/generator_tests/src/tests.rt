use generator::*;
use imm_base::{Memory, Text24, Val, ValEq};
use plain_model::{
    CellDecl, CellReport, Command, Kind, Line, Listed, Plain, PlainCall, Reply, Report, Values,
    put_command,
};
use std::alloc::{AllocError, Global};
use std::test::*;

/// The first five commands, one a line.
fn written(alloc: Global, commands: &[Command]) -> Result<String, AllocError> {
    let mut text = String::new(alloc);
    for command in commands.iter().take(5) {
        put_command(&mut text, command)?;
        text.push('\n')?;
    }
    Ok(text)
}

#[test]
fn the_cells_are_taken_in_turn(rt: HostRuntime) -> Result<(), Fail> {
    let script = gen_script(rt.alloc(), 7)?;
    let second = script.parts.as_slice().get(1).ok_or("a second part")?;
    let text = written(rt.alloc(), second.commands.as_slice())?;
    assert_eq!(rt;
        text.as_str(),
        "addorupdate D 20 1 plus 1\npush S 27\nenqueue Q 34\nupdate L add 41\naddorupdate D 48 1 plus 1\n"
    );
    Ok(())
}

#[test]
fn a_script_has_four_cells_and_four_parts(rt: HostRuntime) -> Result<(), Fail> {
    let script = gen_script(rt.alloc(), NUMBER_LIMIT)?;
    assert_eq!(rt; script.cells.as_slice().len(), 4);
    assert_eq!(rt; script.parts.as_slice().len(), 4);
    Ok(())
}

fn line(installed: bool) -> Line {
    Line {
        position: 1,
        caller: 1,
        ordinal: 1,
        call: PlainCall::Read,
        reply: Reply::Missing,
        installed,
    }
}

fn cell(name: Text24, kind: Kind, first: Values, lines: Listed<Line>, last: Values) -> CellReport {
    CellReport {
        cell: CellDecl {
            name,
            kind,
            values: Values::Unset,
        },
        first: Plain {
            kind,
            values: first,
        },
        lines,
        last: Plain { kind, values: last },
    }
}

/// A dictionary with one pair, where one of two calls installed, and a list with nothing.
fn report(alloc: Global, name: Text24) -> Result<Report, Memory> {
    let lines = Listed::new(alloc).with(line(true))?.with(line(false))?;
    let pairs = Values::Pairs(Listed::new(alloc).with((Val::Int(0), Val::Int(40)))?);
    let dict = cell(
        name,
        Kind::Dict(ValEq::Ordinal),
        Values::Unset,
        lines,
        pairs,
    );
    let nothing = Values::List(Listed::new(alloc));
    let list = cell(name, Kind::List, Values::Unset, Listed::new(alloc), nothing);
    Ok(Report {
        workers: 1,
        cells: Listed::new(alloc).with(dict)?.with(list)?,
        locals: Listed::new(alloc),
    })
}

#[test]
fn a_summary_counts_installs_and_elements(rt: HostRuntime) -> Result<(), Fail> {
    let name = Text24::from_bytes(b"D").ok_or("a name")?;
    let report = report(rt.alloc(), name)?;
    let text = summary_text(rt.alloc(), 5, &report)?;
    assert_eq!(rt;
        text.as_slice(),
        b"gen 5\ncommands 16000\ncell D dict ordinal installs 1 final 1 first 0=40\ncell D list installs 0 final 0 first none\nend\n".as_slice()
    );
    Ok(())
}
