use history_merge::merge;
use imm_base::{Memory, Val};
use plain_model::{Line, Listed, PlainCall, Reply};
use std::alloc::Global;
use std::test::Fail;

// The line of a push that installed, or of one that was refused there.
fn line(position: u64, caller: u32, ordinal: u64, installed: bool) -> Line {
    Line {
        position,
        caller,
        ordinal,
        call: PlainCall::Push(Val::Int(5)),
        reply: Reply::Flag(installed),
        installed,
    }
}

fn log_of(alloc: Global, caller: u32, places: &[(u64, u64, bool)]) -> Result<Listed<Line>, Memory> {
    let mut log = Listed::new(alloc);
    for place in places {
        log.push(line(place.0, caller, place.1, place.2))?;
    }
    Ok(log)
}

fn logs(alloc: Global) -> Result<Vec<Listed<Line>>, Memory> {
    let mut logs = Vec::new(alloc);
    let first = log_of(alloc, 1, &[(0, 1, false), (2, 2, true), (2, 3, false)])?;
    logs.push(first)?;
    let second = log_of(alloc, 2, &[(0, 1, false), (1, 2, true), (2, 3, false)])?;
    logs.push(second)?;
    Ok(logs)
}

fn callers_are(lines: &[Line], callers: &[u32]) -> bool {
    lines
        .iter()
        .map(|line| line.caller)
        .eq(callers.iter().map(|caller| *caller))
}

#[test]
fn lines_stand_by_position_then_installed_then_by_caller(rt: HostRuntime) -> Result<(), Fail> {
    let logs = logs(rt.alloc())?;
    let lines = merge(rt.alloc(), logs)?;
    assert!(rt; callers_are(lines.as_slice(), &[1, 2, 2, 1, 1, 2]));
    Ok(())
}
