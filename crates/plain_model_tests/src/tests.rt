//! What may want memory is done once with ample memory.
use imm_base::{Dup, Memory, Text24, Val};
use plain_model::*;
use std::alloc::{AllocError, Global};
use std::test::*;

/// Two numbers, as they are written in a script.
fn two() -> Values {
    Values::Seq { first: 4, count: 2 }
}

fn one(alloc: Global, value: i64) -> Result<Listed<Val>, Memory> {
    Listed::new(alloc).with(Val::Int(value))
}

#[test]
fn lists_and_pairs_are_copied(rt: HostRuntime) -> Result<(), Fail> {
    let numbers = one(rt.alloc(), 1)?.dup(rt.alloc())?.into_vec();
    assert_eq!(rt; numbers.as_slice(), [Val::Int(1)].as_slice());
    let mut pairs = Listed::new(rt.alloc());
    pairs.push((Val::Int(1), Val::Int(2)))?;
    let plain = Plain {
        kind: Kind::Stack,
        values: Values::Pairs(pairs),
    };
    assert_eq!(rt; plain.dup(rt.alloc())?.values.count(), 1);
    Ok(())
}

#[test]
fn names_are_bound(rt: HostRuntime) -> Result<(), Fail> {
    let name = Text24::from_bytes(b"x").ok_or("a name")?;
    let mut names = Names::new(rt.alloc());
    names.bind(name, 1_u32)?;
    assert_eq!(rt; names.get(&name), Some(&1));
    Ok(())
}

/// A script with a cell of arrays, and one part of one command.
fn script(alloc: Global, name: Text24) -> Result<Script, Memory> {
    let cells = Listed::new(alloc).with(CellDecl {
        name,
        kind: Kind::Array,
        values: Values::Unset,
    })?;
    let commands = Listed::new(alloc).with(Command::Update(name, PlainOp::AddRange(two())))?;
    let parts = Listed::new(alloc).with(Part { commands })?;
    Ok(Script {
        version: Version::Two,
        cells,
        parts,
    })
}

fn put_part(text: &mut String, part: &Part) -> Result<(), AllocError> {
    for command in part.commands.as_slice() {
        put_command(text, command)?;
    }
    Ok(())
}

fn written(alloc: Global, script: &Script) -> Result<String, AllocError> {
    let mut text = String::new(alloc);
    for cell in script.cells.as_slice() {
        put_decl(&mut text, cell)?;
    }
    for part in script.parts.as_slice() {
        put_part(&mut text, part)?;
    }
    Ok(text)
}

#[test]
fn scripts_are_copied_and_written(rt: HostRuntime) -> Result<(), Fail> {
    let name = Text24::from_bytes(b"A").ok_or("a name")?;
    let copy = script(rt.alloc(), name)?.dup(rt.alloc())?;
    let text = written(rt.alloc(), &copy)?;
    assert_eq!(rt; text.as_str(), "cell A array -update A addrange seq 4 2");
    Ok(())
}

/// An array in place of an unset one, with a long array in the answer.
fn exchange(alloc: Global) -> Result<Line, Memory> {
    let call = PlainCall::CompareExchange(one(alloc, 3)?, Values::Unset);
    let first = one(alloc, 1)?;
    Ok(Line {
        position: 1,
        caller: 1,
        ordinal: 1,
        call,
        reply: Reply::Shown(Shown { count: 20, first }),
        installed: true,
    })
}

fn question(name: Text24) -> LocalLine {
    LocalLine {
        ordinal: 2,
        command: Command::Ask(name, Query::Subset(two()), None),
        answer: Answer::Shown {
            count: 2,
            first: two(),
        },
    }
}

fn unset(name: Text24) -> CellDecl {
    CellDecl {
        name,
        kind: Kind::Array,
        values: Values::Unset,
    }
}

fn unset_array() -> Plain {
    Plain {
        kind: Kind::Array,
        values: Values::Unset,
    }
}

/// A copy of a line, so that the line itself goes in one place.
fn copied_question(alloc: Global, name: Text24) -> Result<LocalLine, Memory> {
    let line = question(name);
    line.dup(alloc)
}

fn copied_exchange(alloc: Global) -> Result<Line, Memory> {
    let line = exchange(alloc)?;
    line.dup(alloc)
}

fn history(alloc: Global) -> Result<Listed<Line>, Memory> {
    Listed::new(alloc).with(copied_exchange(alloc)?)
}

fn cell(alloc: Global, name: Text24) -> Result<CellReport, Memory> {
    let lines = history(alloc)?;
    Ok(CellReport {
        cell: unset(name),
        first: unset_array(),
        lines,
        last: unset_array(),
    })
}

fn local_lines(alloc: Global, name: Text24) -> Result<Listed<LocalLine>, Memory> {
    Listed::new(alloc).with(copied_question(alloc, name)?)
}

fn add_cell(alloc: Global, report: &mut Report, name: Text24) -> Result<(), Memory> {
    let cell = cell(alloc, name)?;
    report.cells.push(cell)
}

fn add_worker(alloc: Global, report: &mut Report, name: Text24) -> Result<(), Memory> {
    let lines = local_lines(alloc, name)?;
    report.locals.push(lines)
}

fn empty_report(alloc: Global) -> Report {
    Report {
        workers: 1,
        cells: Listed::new(alloc),
        locals: Listed::new(alloc),
    }
}

const WANTED: &[u8] = b"immrun report 1
workers 1
cell A array
first default
1 1.1 + compareexchange 1: 3 if default -> 20: 1 ..
final default
worker 1
1.2 ask A subset seq 4 2 -> 2: seq 4 2
end
";

#[test]
fn lines_are_copied_and_reports_are_written(rt: HostRuntime) -> Result<(), Fail> {
    let name = Text24::from_bytes(b"A").ok_or("a name")?;
    let mut report = empty_report(rt.alloc());
    add_cell(rt.alloc(), &mut report, name)?;
    add_worker(rt.alloc(), &mut report, name)?;
    let bytes = report_text(rt.alloc(), &report)?;
    assert_eq!(rt; bytes.as_slice(), WANTED);
    Ok(())
}

#[test]
fn sums_stay_within_64_bits(rt: HostRuntime) {
    for (old, number, sum) in [(1, 2, 3), (i64::MAX, 1, i64::MAX), (i64::MIN, -1, i64::MIN)] {
        assert_eq!(rt; Transform::Plus(number).on(&Val::Int(old)), Val::Int(sum));
    }
}
