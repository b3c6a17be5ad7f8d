//! The script of a number: a dictionary, a stack, a queue and a list, which the commands take in turn.
ghost use Rattle.std.specs.Prelude.{◌≡◌, ◌≤◌, ◌<◌, ◌∷◌, [], IfOk, true};
ghost use Rattle.imm_base.specs.Text.{is_plain_byte};
ghost use Rattle.plain_model.specs.Generator.{generated_cells, in_turn, generated_command, generated};
ghost use Rattle.generator.specs.Beginnings.{first_commands, first_parts};

use imm_base::{Memory, Text24, Val, ValEq};
use plain_model::{
    CellDecl, Command, Kind, Listed, Part, PlainOp, Script, Transform, Values, Version,
};
use std::alloc::Global;

/// The greatest number that has a script.
pub const NUMBER_LIMIT: u32 = 999_999;

/// How many parts a script has.
pub(crate) const PARTS: u32 = 4;

/// How many commands a part has.
pub(crate) const COMMANDS: u32 = 4_000;

/// The name of one letter.
#[tactic(auto, using(crate::proofs::Letters::text_of_letter))]
fn name(letter: u8) -> Text24
    requires { is_plain_byte letter ≡ true }
    ensures { result ≡ letter ∷ [] }
{
    match Text24::from_bytes(&[letter]) {
        Some(name) => name,
        None => unreachable!(),
    }
}

fn cell(letter: u8, kind: Kind, values: Values) -> CellDecl
    requires { is_plain_byte letter ≡ true }
    ensures { result ≡ record { name = letter ∷ []; kind = kind; values = values } }
{
    CellDecl {
        name: name(letter),
        kind,
        values,
    }
}

fn cells(alloc: Global) -> Result<Listed<CellDecl>, Memory>
    ensures { IfOk result (λ cells. cells ≡ generated_cells) }
{
    let no_pairs = Values::Pairs(Listed::new(alloc));
    Listed::new(alloc)
        .with(cell(b'D', Kind::Dict(ValEq::Ordinal), no_pairs))?
        .with(cell(b'S', Kind::Stack, Values::List(Listed::new(alloc))))?
        .with(cell(b'Q', Kind::Queue, Values::List(Listed::new(alloc))))?
        .with(cell(b'L', Kind::List, Values::List(Listed::new(alloc))))
}

/// A count at a key, or a value that is put, as it is the turn of a cell.
#[tactic(auto, using(crate::proofs::Turns::last_in_turn))]
fn in_turn(turn: u32, value: Val) -> Command
    ensures { result ≡ in_turn turn value }
{
    match turn {
        0 => Command::AddOrUpdate(name(b'D'), value, Val::Int(1), Transform::Plus(1)),
        1 => Command::Push(name(b'S'), value),
        2 => Command::Enqueue(name(b'Q'), value),
        _ => Command::Update(name(b'L'), PlainOp::Add(value)),
    }
}

fn command(number: u32, part: u32, index: u32) -> Command
    requires number { number ≤ NUMBER_LIMIT }
    requires part { part < PARTS }
    requires index { index < COMMANDS }
    ensures { result ≡ generated_command number part index }
{
    let value = (number + 7 * index + 13 * part) % 100;
    in_turn(index % 4, Val::Int(i64::from(value)))
}

/// The first so many commands of a part.
pub(crate) fn commands(
    alloc: Global,
    number: u32,
    part: u32,
    count: u32,
) -> Result<Listed<Command>, Memory>
    requires number { number ≤ NUMBER_LIMIT }
    requires part { part < PARTS }
    requires count { count ≤ COMMANDS }
    ensures { IfOk result (λ commands. commands ≡ first_commands number part count) }
{
    let mut commands = Listed::new(alloc);
    for index in 0..count {
        commands.push(command(number, part, index))?;
    }
    Ok(commands)
}

/// The parts, each with so many of its commands.
fn parts(alloc: Global, number: u32, count: u32) -> Result<Listed<Part>, Memory>
    requires number { number ≤ NUMBER_LIMIT }
    requires count { count ≤ COMMANDS }
    ensures { IfOk result (λ parts. parts ≡ first_parts number count PARTS) }
{
    let mut parts = Listed::new(alloc);
    for part in 0..PARTS {
        let commands = commands(alloc, number, part, count)?;
        parts.push(Part { commands })?;
    }
    Ok(parts)
}

/// The script of a number, with four parts of 4,000 commands each. The only error is want of
/// memory. It takes O(1) besides the 16,000 commands.
pub fn gen_script(alloc: Global, number: u32) -> Result<Script, Memory>
    requires { number ≤ NUMBER_LIMIT }
    ensures { IfOk result (λ script. script ≡ generated number) }
{
    let cells = cells(alloc)?;
    let parts = parts(alloc, number, COMMANDS)?;
    Ok(Script {
        version: Version::One,
        cells,
        parts,
    })
}
