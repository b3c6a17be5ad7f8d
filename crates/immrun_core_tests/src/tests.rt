use imm_base::{FreeGate, Gate, MemSink, MemSource, Memory};
use immrun_core::*;
use plain_model::{Listed, Report};
use std::alloc::Global;
use std::sync::Wait;
use std::test::Fail;
use std::thread::Threads;
use workers::workers_come_to_lawful_reports;

const SCRIPT: &[u8] = b"immrun 1\ncell A list\nworker\nupdate A add 5\nread A x\nend\n";

const REPORT: &[u8] =
    b"immrun report 1\nworkers 1\ncell A list\nfirst 0:\n1 1.1 + update add 5 -> true\n1 1.2 . read -> 1\nfinal 1: 5\nworker 1\nend\n";

const USAGE: &[u8] = b"usage: immrun run N | check | gen N\n";

// A call: its words, the source's bytes, whether the first read fails, and the room of both sinks.
#[derive(Clone, Copy)]
pub(crate) struct Call {
    pub words: &'static [&'static str],
    pub input: &'static [u8],
    pub fails: bool,
    pub room: u64,
    pub fault_room: u64,
}

// How it ends: the status, and what the sinks took.
#[derive(Clone, Copy)]
struct End {
    status: Status,
    wrote: &'static [u8],
    told: &'static [u8],
}

pub(crate) const RUN: Call = Call {
    words: &["run", "1"],
    input: SCRIPT,
    fails: false,
    room: 1000,
    fault_room: 1000,
};

fn words_of(alloc: Global, texts: &[&str]) -> Result<Vec<Word>, Fail> {
    let mut words = Vec::new(alloc);
    for text in texts {
        words.push(match Text64::from_text(text) {
            Some(short) => Word::Short(short),
            None => Word::Other,
        })?;
    }
    Ok(words)
}

fn sink_of(alloc: Global, room: u64) -> Result<MemSink, Fail> {
    let mut sink = MemSink::new(alloc, Vec::new(alloc), Some(room));
    sink.reserve(room).ok().ok_or("memory")?;
    Ok(sink)
}

fn source_of(alloc: Global, bytes: Vec<u8>, fails: bool) -> Result<MemSource, Fail> {
    let mut failing = Vec::new(alloc);
    if fails {
        failing.push(1)?;
    }
    Ok(MemSource::new(bytes, failing))
}

// What a call came to.
#[derive(Drop)]
pub(crate) struct Ran {
    pub status: Status,
    pub wrote: MemSink,
    pub told: MemSink,
}

// Calls the program with these words, this source and sinks of these rooms.
pub(crate) fn run_on<R: Threads + Wait + Sync, G: Gate>(
    rt: &R,
    alloc: Global,
    words: &[&str],
    mut source: MemSource,
    room: u64,
    fault_room: u64,
    gate: &G,
) -> Result<Ran, Fail> {
    let mut wrote = sink_of(alloc, room)?;
    let mut told = sink_of(alloc, fault_room)?;
    let words = words_of(alloc, words)?;
    let status = top(rt, alloc, &words, &mut source, &mut wrote, &mut told, gate);
    Ok(Ran {
        status,
        wrote,
        told,
    })
}

// Makes a call, with this gate.
pub(crate) fn run_at<R: Threads + Wait + Sync, G: Gate>(
    rt: &R,
    alloc: Global,
    call: &Call,
    gate: &G,
) -> Result<Ran, Fail> {
    let source = source_of(alloc, Vec::from_slice(alloc, call.input)?, call.fails)?;
    run_on(
        rt,
        alloc,
        call.words,
        source,
        call.room,
        call.fault_room,
        gate,
    )
}

fn ends_so<R: Threads + Wait + Sync>(
    rt: &R,
    alloc: Global,
    call: &Call,
    end: &End,
) -> Result<bool, Fail> {
    let ran = run_at(rt, alloc, call, &FreeGate)?;
    Ok(ran.status == end.status && ran.wrote.bytes() == end.wrote && ran.told.bytes() == end.told)
}

#[test]
fn each_end_has_its_bytes(rt: HostRuntime) -> Result<(), Fail> {
    let done = End {
        status: Status::Done,
        wrote: REPORT,
        told: b"",
    };
    let refused = End {
        status: Status::Refused { line: 4, code: 3 },
        wrote: b"",
        told: b"refused line 4: 3 value\n",
    };
    let empty = End {
        status: Status::Refused { line: 1, code: 1 },
        wrote: b"",
        told: b"refused line 1: 1 header\n",
    };
    let read_fault = End {
        status: Status::ReadFault,
        wrote: b"",
        told: b"read fault\n",
    };
    let write_fault = End {
        status: Status::WriteFault,
        wrote: b"immrun rep",
        told: b"write fault\n",
    };
    let cut_off = End {
        told: b"write",
        ..write_fault
    };
    let rows = [
        (RUN, done),
        (
            Call {
                input: b"immrun 1\ncell A list\nworker\nupdate A add 05\nread A x\nend\n",
                ..RUN
            },
            refused,
        ),
        (Call { input: b"", ..RUN }, empty),
        (Call { fails: true, ..RUN }, read_fault),
        (Call { room: 10, ..RUN }, write_fault),
        (
            Call {
                room: 10,
                fault_room: 5,
                ..RUN
            },
            cut_off,
        ),
    ];
    for (call, end) in &rows {
        assert!(rt; ends_so(&rt, rt.alloc(), call, end)?);
    }
    Ok(())
}

#[test]
fn other_words_are_usage(rt: HostRuntime) -> Result<(), Fail> {
    let usage = End {
        status: Status::Usage,
        wrote: b"",
        told: USAGE,
    };
    let rows: [&'static [&'static str]; 8] = [
        &["run", "0"],
        &["run", "9"],
        &["run", "01"],
        &["run", "1", "1"],
        &["run"],
        &["check", "1"],
        &["gen", "1000000"],
        &[],
    ];
    for words in &rows {
        assert!(rt; ends_so(&rt, rt.alloc(), &Call { words, ..RUN }, &usage)?);
    }
    Ok(())
}

// Whatever their order, each cell has the calls of one worker alone.
const PARTS: &[u8] = b"immrun 1
cell A list
cell B stack
worker
update A add 1
end
worker
push B 2
end
worker
read A x
ask x count
end
";

const TWO_WORKERS: &[u8] = b"immrun report 1
workers 2
cell A list
first 0:
1 1.1 + update add 1 -> true
1 1.2 . read -> 1
final 1: 1
cell B stack
first 0:
1 2.1 + push 2 -> true
final 1: 2
worker 1
1.3 ask x count -> 1
worker 2
end
";

const ONE_OF_EIGHT: &[u8] = b"immrun report 1
workers 8
cell A list
first 0:
1 1.1 + update add 5 -> true
1 1.2 . read -> 1
final 1: 5
worker 1
worker 2
worker 3
worker 4
worker 5
worker 6
worker 7
worker 8
end
";

#[test]
fn so_many_workers_run_as_the_words_ask_for(rt: HostRuntime) -> Result<(), Fail> {
    let two = Call {
        words: &["run", "2"],
        input: PARTS,
        ..RUN
    };
    let eight = Call {
        words: &["run", "8"],
        ..RUN
    };
    for (call, wrote) in &[(two, TWO_WORKERS), (eight, ONE_OF_EIGHT)] {
        let done = End {
            status: Status::Done,
            wrote,
            told: b"",
        };
        assert!(rt; ends_so(&rt, rt.alloc(), call, &done)?);
    }
    Ok(())
}

#[test]
fn each_room_cuts_the_report_off(rt: HostRuntime) -> Result<(), Fail> {
    for room in 0..REPORT.len() {
        let end = End {
            status: Status::WriteFault,
            wrote: &REPORT[..room],
            told: b"write fault\n",
        };
        let call = Call {
            room: room as u64,
            ..RUN
        };
        assert!(rt; ends_so(&rt, rt.alloc(), &call, &end)?);
    }
    let whole = Call {
        room: REPORT.len() as u64,
        ..RUN
    };
    let done = End {
        status: Status::Done,
        wrote: REPORT,
        told: b"",
    };
    assert!(rt; ends_so(&rt, rt.alloc(), &whole, &done)?);
    Ok(())
}

fn status_of_line_feeds<R: Threads + Wait + Sync>(
    rt: &R,
    alloc: Global,
    count: usize,
) -> Result<(Status, MemSink), Fail> {
    let mut bytes = Vec::new(alloc);
    bytes.resize(count, b'\n')?;
    let mut source = source_of(alloc, bytes, false)?;
    let mut sink = sink_of(alloc, 1000)?;
    let mut faults = sink_of(alloc, 1000)?;
    let words = words_of(alloc, RUN.words)?;
    let status = top(
        rt,
        alloc,
        &words,
        &mut source,
        &mut sink,
        &mut faults,
        &FreeGate,
    );
    Ok((status, faults))
}

#[test]
fn a_script_has_at_most_a_mebibyte(rt: HostRuntime) -> Result<(), Fail> {
    let (status, faults) = status_of_line_feeds(&rt, rt.alloc(), 1_048_577)?;
    assert_eq!(rt; status, Status::TooLong);
    assert_eq!(rt;
        faults.bytes(),
        b"input longer than 1048576 bytes\n".as_slice()
    );
    let (status, _) = status_of_line_feeds(&rt, rt.alloc(), 1_048_576)?;
    assert_eq!(rt;
        status,
        Status::Refused {
            line: 1_048_576,
            code: 1
        }
    );
    Ok(())
}

#[test]
fn a_status_has_its_code(rt: HostRuntime) {
    let rows = [
        (Status::Done, 0),
        (Status::Usage, 2),
        (Status::Refused { line: 7, code: 3 }, 3),
        (Status::ReadFault, 4),
        (Status::WriteFault, 5),
        (Status::Memory, 6),
        (Status::TooLong, 7),
    ];
    for (status, code) in &rows {
        assert_eq!(rt; status.code(), *code);
    }
}

#[test]
fn a_word_has_at_most_64_bytes(rt: HostRuntime) {
    let text = "0123456789abcdef0123456789abcdef0123456789abcdef0123456789abcdef+";
    let short = Text64::from_text(&text[..64]);
    assert!(rt; matches!(&short, Some(word) if word.as_bytes() == &text.as_bytes()[..64]));
    assert!(rt; Text64::from_text(text).is_none());
}

fn eight_workers(alloc: Global) -> Result<Report, Memory> {
    let mut locals = Listed::new(alloc);
    for _ in 0..8 {
        locals.push(Listed::new(alloc))?;
    }
    Ok(Report {
        workers: 8,
        cells: Listed::new(alloc),
        locals,
    })
}

const EIGHT: &[u8] = b"immrun report 1
workers 8
worker 1
worker 2
worker 3
worker 4
worker 5
worker 6
worker 7
worker 8
end
";

#[test]
fn a_report_has_a_list_for_each_of_eight_workers(rt: HostRuntime) -> Result<(), Fail> {
    let report = eight_workers(rt.alloc())?;
    let text = report_text(rt.alloc(), &report)?;
    assert_eq!(rt; text.as_slice(), EIGHT);
    Ok(())
}

#[test]
fn the_law_of_workers_is_called(rt: HostRuntime) {
    workers_come_to_lawful_reports();
}
