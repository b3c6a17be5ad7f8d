//! The whole program, from the words of its command line to its status.
ghost use Rattle.std.specs.Prelude.{◌≡◌, ◌↔◌, ◌≤◌, None, Some, IfOk, IfErr, IfSome};
ghost use Rattle.plain_model.specs.Generator.{generated};
ghost use Rattle.script.specs.Ready.{IsReady};
ghost use Rattle.immrun_core.specs.Outside.{SourceEnds, Unread, source_ends, sink_ends};
ghost use Rattle.immrun_core.specs.Top.{IsTask, Asks, IsKnown, IsRun, IsRead, ReadsUntil, TextEnd, Ended, IsUsage, Completes, Told};

use crate::fault_line::report_status;
use crate::run::{run_one, run_script};
use crate::status::Status;
use crate::streams::{ReadStop, read_all, write_all};
use crate::task::{Task, task_of, workers_of};
use crate::word::Word;
use generator::{NUMBER_LIMIT, gen_script, summary_text};
use imm_base::{Gate, Memory, Sink, Source};
use plain_model::{Script, report_text};
use script::{ParseError, parse, print, upgrade};
use std::alloc::Global;
use std::sync::Wait;
use std::thread::Threads;

// The script that a source gives, or the status that comes of what it gives.
fn read_script<Q: Source>(alloc: Global, source: &mut Q) -> Result<Script, Status>
    ensures ready { IfOk result (λ script. IsReady script) }
    ensures read { IfOk result (λ script. IsRead (source_ends Q.left Q.faults source.old
        source.new) script) }
    ensures until { IfErr result (λ status. ReadsUntil (source_ends Q.left Q.faults source.old
        source.new) status) }
{
    let input = match read_all(alloc, source) {
        Ok(input) => input,
        Err(ReadStop::Fault) => return Err(Status::ReadFault),
        Err(ReadStop::TooLong) => return Err(Status::TooLong),
        Err(ReadStop::Memory) => return Err(Status::Memory),
    };
    match parse(alloc, &input) {
        Ok(script) => Ok(script),
        Err(ParseError::Fault(fault)) => Err(Status::Refused {
            line: fault.line,
            code: fault.code,
        }),
        Err(ParseError::Memory) => Err(Status::Memory),
    }
}

// The script of a number.
fn generate(alloc: Global, number: u32) -> Result<Script, Memory>
    requires { number ≤ NUMBER_LIMIT }
    ensures ready { IfOk result (λ script. IsReady script) }
    ensures is { IfOk result (λ script. script ≡ generated number) }
{
    gen_script(alloc, number)
}

// The report of the script that a source gives, run with so many workers.
#[tactic(auto, using(crate::proofs::Tasks::stops_later))]
fn report<R: Threads + Wait + Sync, Q: Source, G: Gate>(
    rt: &R,
    alloc: Global,
    workers: u32,
    source: &mut Q,
    gate: &G,
) -> Result<Vec<u8>, Status>
    requires { IsTask (Task.Run workers) }
    ensures { TextEnd (Task.Run workers) (source_ends Q.left Q.faults source.old source.new)
        result }
{
    let script = read_script(alloc, source)?;
    let report = run_script(rt, alloc, &script, workers, gate)?;
    let text = report_text(alloc, &report)?;
    Ok(text)
}

// The canonical text of the script that a source gives, in the last version of the language.
#[tactic(auto, using(crate::proofs::Tasks::stops_later))]
fn canonical<Q: Source>(alloc: Global, source: &mut Q) -> Result<Vec<u8>, Status>
    ensures { TextEnd Task.Check (source_ends Q.left Q.faults source.old source.new) result }
{
    let script = read_script(alloc, source)?;
    let upgraded = upgrade(alloc, &script)?;
    let text = print(alloc, &upgraded)?;
    Ok(text)
}

// The summary of the script of a number, run with one worker on the calling thread.
fn summary(alloc: Global, number: u32) -> Result<Vec<u8>, Status>
    requires { IsTask (Task.Gen number) }
    ensures { (q : SourceEnds) → Unread q → TextEnd (Task.Gen number) q result }
{
    let script = generate(alloc, number)?;
    let report = run_one(alloc, &script)?;
    let text = summary_text(alloc, number, &report)?;
    Ok(text)
}

// Writes the text that a task came to, if it did, and answers how the task ended.
#[tactic(auto, using(crate::proofs::Tasks::stopped_so))]
fn finish<S: Sink>(text: Result<Vec<u8>, Status>, sink: &mut S) -> Status
    ensures { (task : Task) (q : SourceEnds) → TextEnd task q text
        → Ended task q (sink_ends S.taken S.faults sink.old sink.new) result }
{
    match text {
        Ok(text) => match write_all(sink, &text) {
            Ok(()) => Status::Done,
            Err(_) => Status::WriteFault,
        },
        Err(status) => status,
    }
}

/// Does what the words say where that needs no other thread, and answers how it ended: with any
/// words but those of a run. The word `check` writes the canonical text of the script that the
/// source gives, in the last version of the language. The words `gen N` run the generated script of
/// the number N, which is at most 999,999 and has no leading zeros, and write its summary; they read
/// nothing.
///
/// No clause says when memory runs out. Where the sink of faults fails, its line is cut off.
pub fn plain_top<Q: Source, S: Sink, E: Sink>(
    alloc: Global,
    words: &[Word],
    source: &mut Q,
    sink: &mut S,
    faults: &mut E,
) -> Option<Status>
    // There is no answer exactly for the words of a run, and then nothing was touched.
    ensures none { (result ≡ None) ↔ IsRun words.now }
    ensures untouched { result ≡ None → (source.new ≡ source.old) × (sink.new ≡ sink.old)
        × (faults.new ≡ faults.old) }
    // What an answer says, as in `top`.
    ensures ended { IfSome result (λ status. (task : Task) → Asks words.now task → Ended task
        (source_ends Q.left Q.faults source.old source.new) (sink_ends S.taken S.faults sink.old
        sink.new) status) }
    ensures usage { (result ≡ Some Status.Usage) ↔ ¬ IsKnown words.now }
    ensures unread { result ≡ Some Status.Usage → IsUsage (source_ends Q.left Q.faults source.old
        source.new) (sink_ends S.taken S.faults sink.old sink.new) }
    ensures complete { IfSome result (λ status. (task : Task) → Asks words.now task → Completes task
        (source_ends Q.left Q.faults source.old source.new) (sink_ends S.taken S.faults sink.old
        sink.new) status) }
    ensures told { IfSome result (λ status. Told (sink_ends E.taken E.faults faults.old faults.new)
        status) }
{
    let status = match task_of(words) {
        Some(Task::Run(_)) => return None,
        Some(Task::Check) => finish(canonical(alloc, source), sink),
        Some(Task::Gen(number)) => finish(summary(alloc, number), sink),
        None => Status::Usage,
    };
    report_status(faults, status);
    Some(status)
}

/// Does what the words say, and answers how that ended. The words `run N` run the script that the
/// source gives with N workers, 1 to 8, and write its report to the sink; `plain_top` says what
/// comes of all others.
///
/// No clause says when memory runs out. Where the sink of faults fails, its line is cut off.
pub fn top<R: Threads + Wait + Sync, Q: Source, S: Sink, E: Sink, G: Gate>(
    rt: &R,
    alloc: Global,
    words: &[Word],
    source: &mut Q,
    sink: &mut S,
    faults: &mut E,
    gate: &G,
) -> Status
    // What each status says of the source and the sink.
    ensures ended { (task : Task) → Asks words.now task → Ended task (source_ends Q.left Q.faults
        source.old source.new) (sink_ends S.taken S.faults sink.old sink.new) result }
    // Words are refused exactly where they are none that are known, and then nothing is done.
    ensures usage { (result ≡ Status.Usage) ↔ ¬ IsKnown words.now }
    ensures unread { result ≡ Status.Usage → IsUsage (source_ends Q.left Q.faults source.old
        source.new) (sink_ends S.taken S.faults sink.old sink.new) }
    // With a script the task is done, what is none is refused, and what is too long is found so.
    ensures complete { (task : Task) → Asks words.now task → Completes task (source_ends Q.left
        Q.faults source.old source.new) (sink_ends S.taken S.faults sink.old sink.new) result }
    // What is told of the end.
    ensures told { Told (sink_ends E.taken E.faults faults.old faults.new) result }
{
    match plain_top(alloc, words, source, sink, faults) {
        Some(status) => status,
        None => match workers_of(words) {
            Some(workers) => {
                let status = finish(report(rt, alloc, workers, source, gate), sink);
                report_status(faults, status);
                status
            }
            None => unreachable!(),
        },
    }
}
