//! What a line asks for, and what it is answered.
ghost use Rattle.std.specs.Prelude.{◌≡◌, IfOk};
ghost use Rattle.interlocked.specs.Meanings.{dict_plain};
ghost use Rattle.plain_model.specs.Cell.{value_in};
ghost use Rattle.registry.specs.Registry.{answer_to, found, looked_up, request_of, told};

use crate::requests::{Request, Response, Told};
use imm_base::{Memory, Text24, Val, ValEq};
use imm_dictionary::Dict;
use interlocked::DictCall;
use plain_model::{Listed, Transform};
use std::alloc::Global;
use std::fmt;
use thiserror::Error;

/// Which service has which address.
pub type Registry = Dict<Val, Val, ValEq>;

/// What a line asks for.
#[derive(Clone, Copy, Debug, PartialEq, Eq)]
pub enum Command {
    /// The service has this address from now on.
    Put { name: Val, address: Val },
    /// The service vanishes.
    Drop { name: Val },
    Get { name: Val },
    List,
}

/// What a command is answered.
#[derive(Debug, Drop)]
pub enum Answer {
    Stored,
    /// There are 65,536 services, and no room for a further one.
    Full,
    /// The service vanished from this address.
    Dropped(Val),
    Found(Val),
    /// There is no service of this name.
    Unknown,
    /// Each service with its address.
    Listed(Listed<(Val, Val)>),
}

/// Why a line is no command.
#[derive(Clone, Copy, Debug, PartialEq, Eq, Error)]
pub enum LineFault {
    #[error("no such command; there are put, drop, get and list")]
    Command,
    #[error("wrong number of words; write put NAME ADDRESS, drop NAME, get NAME or list")]
    Words,
    #[error("a name or an address has at most 24 plain characters, no quote and no backslash")]
    Text,
}

pub(crate) fn text(word: &str) -> Result<Val, LineFault> {
    match Text24::from_bytes(word.as_bytes()) {
        Some(text) => Ok(Val::Text(text)),
        None => Err(LineFault::Text),
    }
}

impl Command {
    /// The command of a line.
    pub fn parse(line: &str) -> Result<Command, LineFault> {
        let mut words = line.split_whitespace();
        let name = words.next();
        match (name, words.next(), words.next(), words.next()) {
            (Some("put"), Some(name), Some(address), None) => Ok(Command::Put {
                name: text(name)?,
                address: text(address)?,
            }),
            (Some("drop"), Some(name), None, None) => Ok(Command::Drop { name: text(name)? }),
            (Some("get"), Some(name), None, None) => Ok(Command::Get { name: text(name)? }),
            (Some("list"), None, None, None) => Ok(Command::List),
            (Some("put" | "drop" | "get" | "list"), _, _, _) => Err(LineFault::Words),
            (_, _, _, _) => Err(LineFault::Command),
        }
    }

    /// What the command asks of a cell with the registry.
    pub fn request(&self) -> Request<DictCall>
        ensures { result ≡ request_of self.now }
    {
        match self {
            Command::Put { name, address } => Request::Change(DictCall::AddOrUpdate {
                key: *name,
                value: *address,
                transform: Transform::Set(*address),
            }),
            Command::Drop { name } => Request::Change(DictCall::TryRemove { key: *name }),
            Command::Get { name: _ } | Command::List => Request::Read,
        }
    }

    /// What the command is answered, where this came of its request.
    pub fn answer(&self, alloc: Global, response: &Response<Registry>) -> Result<Answer, Memory>
        ensures { IfOk result (λ a. a ≡ answer_to self.now response.now) }
    {
        match response {
            Response::Reply(reply) => Ok(told(reply)),
            Response::Value(registry) => self.look_up(alloc, registry),
        }
    }

    /// What a registry has for the command.
    fn look_up(&self, alloc: Global, registry: &Registry) -> Result<Answer, Memory>
        ensures { IfOk result (λ a. a ≡ looked_up self.now registry.now) }
    {
        match self {
            Command::Get { name } => Ok(found(registry, name)),
            _ => Ok(Answer::Listed(Listed::from_vec(registry.to_vec(alloc)?))),
        }
    }
}

fn found(registry: &Registry, name: &Val) -> Answer
    ensures { result ≡ found (value_in name.now (dict_plain registry.now)) }
{
    match registry.get(name) {
        Some(address) => Answer::Found(*address),
        None => Answer::Unknown,
    }
}

/// What the reply to a change tells.
fn told(reply: &Told) -> Answer
    ensures { result ≡ told reply.now }
{
    match reply {
        Told::Value(_) => Answer::Stored,
        Told::Taken(address) => Answer::Dropped(*address),
        Told::Missing => Answer::Unknown,
        Told::Refused => Answer::Full,
    }
}

/// A value as it was written.
fn write_value<W: fmt::Write>(f: &mut fmt::Formatter<W>, value: &Val) -> fmt::Result {
    match value {
        Val::Int(number) => write!(f, "{number}"),
        Val::Text(text) => write!(f, "{text}"),
    }
}

impl fmt::Display for Answer {
    fn fmt<W: fmt::Write>(&self, f: &mut fmt::Formatter<W>) -> fmt::Result {
        match self {
            Answer::Stored => write!(f, "stored"),
            Answer::Full => write!(f, "full"),
            Answer::Dropped(address) => {
                write!(f, "dropped ")?;
                write_value(f, address)
            }
            Answer::Found(address) => write_value(f, address),
            Answer::Unknown => write!(f, "unknown"),
            Answer::Listed(services) => {
                write!(f, "services: {}", services.as_slice().len())?;
                for (name, address) in services.as_slice() {
                    write!(f, "\n  ")?;
                    write_value(f, name)?;
                    write!(f, " ")?;
                    write_value(f, address)?;
                }
                Ok(())
            }
        }
    }
}
