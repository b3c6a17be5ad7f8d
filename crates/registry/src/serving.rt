//! Commands that threads serve at once.
ghost use Rattle.std.specs.Prelude.{◌≡◌, ◌<◌, ◌≤◌, IfOk, length, map};
ghost use Rattle.interlocked.specs.Meanings.{dict_plain};
ghost use Rattle.registry.specs.Registry.{AreAnswers, AreServed, IsAnswerTo, request_of};

use crate::command::{Answer, Command, Registry};
use crate::requests::{Request, Response, make_all};
use imm_base::Memory;
use interlocked::DictCall;
use std::alloc::Global;
use std::sync::Wait;
use std::thread::Threads;

/// What the commands ask of the cell.
fn requests(alloc: Global, commands: &[Command]) -> Result<Vec<Request<DictCall>>, Memory>
    ensures { IfOk result (λ all. all.items ≡ map request_of commands.now) }
{
    let requests = commands
        .iter()
        .map(|command| command.request())
        .collect(alloc)?;
    Ok(requests)
}

/// What a command is answered, if there was memory for its request.
fn answer(
    alloc: Global,
    command: &Command,
    response: &Option<Response<Registry>>,
) -> Result<Answer, Memory>
    ensures { IfOk result (IsAnswerTo command.now response.now) }
{
    match response {
        Some(response) => command.answer(alloc, response),
        None => Err(Memory),
    }
}

/// What each command is answered.
#[tactic(auto, using(crate::proofs::Answered::one_more))]
fn answers(
    alloc: Global,
    commands: &[Command],
    responses: &[Option<Response<Registry>>],
) -> Result<Vec<Answer>, Memory>
    requires { length commands.now ≡ length responses.now }
    ensures count { IfOk result (λ all. length all.items ≡ length responses.now) }
    ensures each { IfOk result (λ all. AreAnswers commands.now responses.now all.items) }
{
    let mut answers = Vec::new(alloc);
    for (index, response) in responses.iter().enumerate() {
        answers.push(answer(alloc, &commands[index], response)?)?;
    }
    Ok(answers)
}

/// Serves the commands at once, each in a thread of its own, by a cell that begins with this
/// registry. Answers what it ends with, and the answer to each command.
#[tactic(auto, using(crate::proofs::Served::all_served))]
pub fn serve<R: Threads + Wait + Sync>(
    rt: &R,
    alloc: Global,
    registry: Registry,
    commands: &[Command],
) -> Result<(Registry, Vec<Answer>), Memory>
    requires { (0 < length commands.now) × (length commands.now ≤ 8) }
    ensures { IfOk result (λ t. AreServed (dict_plain registry) (dict_plain t.0)
        commands.now t.1.items) }
{
    let requests = requests(alloc, commands)?;
    let (last, responses) = make_all(rt, alloc, registry, requests.as_slice())?;
    let answers = answers(alloc, commands, responses.as_slice())?;
    Ok((last, answers))
}
