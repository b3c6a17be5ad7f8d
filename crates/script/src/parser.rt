//! What the lines so far have made, and what one line more makes of it.

ghost use Rattle.std.specs.Prelude.{◌≡◌, ◌≤◌, [], None, Ok, length, OnOk, IfOk};
ghost use Rattle.std.specs.List.{list_all};
ghost use Rattle.imm_base.specs.declared.TheConstants.{LIMIT};
ghost use Rattle.plain_model.specs.Plain.{is_unset};
ghost use Rattle.script_line.specs.Words.{bytes_of};
ghost use Rattle.script_line.specs.Lines.{IsWithin};
ghost use Rattle.script_line.specs.declared.line.Line.TheVariants as lines;
ghost use Rattle.script.specs.Parser.{start, version_of, most_of, script_of, commands_so_far, may_begin, checked_cell, line_binding, is_in_place, leaves_open, structure_ok, limits_ok, after, if_room, judgement, with_line, Judges, IsStopped};
ghost use Rattle.script.specs.Parser.{is_allowed, is_comment, is_passed_over, named_version, header_version, with_header, with_nothing, significant_line, next_line, IsStep};

use crate::commands::check;
use crate::limits::{command_is_short, contents_fit, is_short, may_publish, seq_limit};
use crate::symbols::{Binding, bind, cell_kind, count_with, require};
use imm_base::Memory;
use plain_model::{
    CELLS_LIMIT, COMMANDS_LIMIT, CellDecl, Class, Command, Listed, NAMES_LIMIT, Names, PARTS_LIMIT,
    Part, Script, Values, Version,
};
use script_line::{Code, Line, both_or_least, line_of, split_words};
use std::alloc::Global;

/// A script as far as its lines have been read.
#[derive(Drop)]
pub(crate) struct Parser {
    /// The version, once the header was read.
    pub version: Option<Version>,
    pub cells: Listed<CellDecl>,
    pub parts: Listed<Part>,
    /// The commands of the part that is open.
    pub commands: Option<Listed<Command>>,
    /// The local names of the part that is open.
    pub names: Names<Class>,
}

/// Why a line is not added.
#[derive(Clone, Copy)]
pub(crate) enum Stop {
    Code(Code),
    /// Want of memory.
    Memory,
}

impl Stop {
    fn answer(self) -> Result<Result<(), Code>, Memory>
        ensures { IsStopped self result }
    {
        match self {
            Stop::Code(code) => Ok(Err(code)),
            Stop::Memory => Err(Memory),
        }
    }
}

fn is_allowed(byte: u8) -> bool
    ensures { result ≡ is_allowed byte }
{
    byte == b'\t' || (32..=126).contains(&byte)
}

/// Whether each byte of a line may stand in it.
fn is_clean(line: &[u8]) -> bool
    ensures { result ≡ list_all is_allowed line.now }
{
    line.iter().all(|byte| is_allowed(*byte))
}

fn is_comment(word: &[u8]) -> bool
    ensures { result ≡ is_comment word.now }
{
    match word {
        [b'#', ..] => true,
        _ => false,
    }
}

fn is_passed_over(words: &[&[u8]]) -> bool
    ensures { result ≡ is_passed_over (bytes_of words.now) }
{
    match words {
        [] => true,
        [first, ..] => is_comment(first),
    }
}

fn named_version(word: &[u8]) -> Option<Version>
    ensures { result ≡ named_version word.now }
{
    if word == b"1".as_slice() {
        Some(Version::One)
    } else if word == b"2".as_slice() {
        Some(Version::Two)
    } else {
        None
    }
}

fn header_version(words: &[&[u8]]) -> Option<Version>
    ensures { result ≡ header_version (bytes_of words.now) }
{
    match words {
        [name, version] => {
            if *name == b"immrun".as_slice() {
                named_version(version)
            } else {
                None
            }
        }
        _ => None,
    }
}

/// Whether the part that is open after the line still needs its `end`.
fn leaves_open(line: &Line) -> bool
    ensures { result ≡ leaves_open line.now }
{
    match line {
        Line::Worker | Line::Command(_) => true,
        Line::Cell(_) | Line::End => false,
    }
}

fn is_unset(values: &Values) -> bool
    ensures { result ≡ is_unset values.now }
{
    match values {
        Values::Unset => true,
        _ => false,
    }
}

/// Whether a cell may begin so. In the second version it may also have an array to begin with.
fn may_begin(version: Version, cell: &CellDecl) -> bool
    ensures { result ≡ may_begin version cell.now }
{
    match version {
        Version::One => cell.kind.is_cell_kind(),
        Version::Two => cell.kind.is_cell_kind() || !is_unset(&cell.values),
    }
}

impl Parser {
    pub(crate) fn new(alloc: Global) -> Parser
        ensures { result ≡ start }
    {
        Parser {
            version: None,
            cells: Listed::new(alloc),
            parts: Listed::new(alloc),
            commands: None,
            names: Names::new(alloc),
        }
    }

    /// The version that the header names; before it, the first one.
    fn version_of(&self) -> Version
        ensures { result ≡ version_of self.now }
    {
        self.version.unwrap_or(Version::One)
    }

    /// The most numbers of a `seq`, and the most first contents of a cell, by the version.
    fn most(&self) -> u32
        ensures number { result ≡ most_of self.now }
        ensures limit { result ≤ LIMIT }
    {
        seq_limit(self.version_of())
    }

    /// The script that the lines have made.
    pub(crate) fn into_script(self) -> Script
        ensures { result ≡ script_of self }
    {
        Script {
            version: self.version_of(),
            cells: self.cells,
            parts: self.parts,
        }
    }

    /// Whether the cell is declared once, of a kind that it may have.
    fn check_cell(&self, cell: &CellDecl) -> Result<((), ()), Code>
        ensures { result ≡ checked_cell (version_of self.now) self.now.cells cell.now }
    {
        let is_new = cell_kind(self.cells.as_slice(), &cell.name).is_none();
        both_or_least(
            require(Code::Name, is_new),
            require(Code::Kind, may_begin(self.version_of(), cell)),
        )
    }

    /// What a line binds; else the least of the codes of names and of kinds.
    fn line_binding(&self, line: &Line) -> Result<Option<Binding>, Code>
        ensures { result ≡ line_binding self.now line.now }
    {
        match line {
            Line::Cell(cell) => self.check_cell(cell).map(|_| None),
            Line::Command(command) => check(self.cells.as_slice(), &self.names, command),
            Line::Worker | Line::End => Ok(None),
        }
    }

    /// Whether the line stands where one like it may stand.
    fn is_in_place(&self, line: &Line) -> bool
        ensures { result ≡ is_in_place self.now line.now }
    {
        match line {
            Line::Cell(_) => self.commands.is_none() && self.parts.as_slice().len() == 0,
            Line::Worker => self.commands.is_none(),
            Line::Command(_) | Line::End => self.commands.is_some(),
        }
    }

    #[tactic(auto, unfolding(crate::specs::Parser::structure_ok))]
    fn structure_ok(&self, is_last: bool, line: &Line) -> bool
        ensures { result ≡ structure_ok self.now is_last line.now }
    {
        self.is_in_place(line) && !(is_last && leaves_open(line))
    }

    /// The commands of the part that is open.
    fn open_commands(&self) -> &[Command]
        ensures { result.now ≡ commands_so_far self.now }
    {
        match &self.commands {
            Some(commands) => commands.as_slice(),
            None => &[],
        }
    }

    /// Whether there is room for a command, and it says no more than it may.
    #[tactic(auto, unfolding(crate::specs::Parser::limits_ok))]
    fn has_room(&self, command: &Command, bound: &Option<Binding>) -> bool
        ensures { result ≡ limits_ok self.now (lines.Command command.now) bound.now }
    {
        let commands = self.open_commands();
        commands.len() < COMMANDS_LIMIT
            && may_publish(commands, command)
            && count_with(&self.names, bound) <= NAMES_LIMIT
            && command_is_short(self.most(), command)
    }

    /// Whether there is room for a cell with its first contents.
    #[tactic(auto, unfolding(crate::specs::Parser::limits_ok))]
    fn has_place(&self, alloc: Global, cell: &CellDecl) -> Result<bool, Memory>
        requires { IsWithin (lines.Cell cell.now) }
        ensures { IfOk result (λ ok. ok ≡ limits_ok self.now (lines.Cell cell.now) None) }
    {
        let most = self.most();
        if self.cells.as_slice().len() < CELLS_LIMIT && is_short(most, &cell.values) {
            contents_fit(alloc, most, cell)
        } else {
            Ok(false)
        }
    }

    #[tactic(auto, unfolding(crate::specs::Parser::limits_ok))]
    fn limits_ok(&self, alloc: Global, line: &Line, bound: &Option<Binding>) -> Result<bool, Memory>
        requires { IsWithin line.now }
        ensures { IfOk result (λ ok. ok ≡ limits_ok self.now line.now bound.now) }
    {
        match line {
            Line::Cell(cell) => self.has_place(alloc, cell),
            Line::Worker => Ok(self.parts.as_slice().len() < PARTS_LIMIT),
            Line::Command(command) => Ok(self.has_room(command, bound)),
            Line::End => Ok(true),
        }
    }

    /// The commands of the part that is open, which is closed by this.
    fn take_commands(&mut self, alloc: Global) -> Listed<Command>
        ensures commands { result ≡ commands_so_far self.old }
        ensures closed { self.new ≡ record self.old { commands = None } }
    {
        match self.commands.take() {
            Some(commands) => commands,
            None => Listed::new(alloc),
        }
    }

    /// Adds a command to the part that is open.
    #[tactic(auto, unfolding(crate::specs::Parser::after))]
    fn add_command(
        &mut self,
        alloc: Global,
        command: Command,
        bound: Option<Binding>,
    ) -> Result<(), Memory>
        ensures { OnOk result (self.new ≡ after self.old (lines.Command command) bound) }
    {
        bind(&mut self.names, bound)?;
        let mut commands = self.take_commands(alloc);
        commands.push(command)?;
        self.commands = Some(commands);
        Ok(())
    }

    /// Adds what the line says.
    #[tactic(auto, unfolding(crate::specs::Parser::after))]
    fn add(&mut self, alloc: Global, line: Line, bound: Option<Binding>) -> Result<(), Memory>
        ensures { OnOk result (self.new ≡ after self.old line bound) }
    {
        match line {
            Line::Cell(cell) => {
                self.cells.push(cell)?;
                Ok(())
            }
            Line::Worker => {
                self.commands = Some(Listed::new(alloc));
                self.names = Names::new(alloc);
                Ok(())
            }
            Line::Command(command) => self.add_command(alloc, command, bound),
            Line::End => {
                let commands = self.take_commands(alloc);
                self.parts.push(Part { commands })?;
                self.names = Names::new(alloc);
                Ok(())
            }
        }
    }

    /// What a line binds, where it is in place and there is room for it.
    #[tactic(auto, unfolding(crate::specs::Parser::if_room))]
    fn if_room(
        &self,
        alloc: Global,
        is_last: bool,
        line: &Line,
        bound: Option<Binding>,
    ) -> Result<Option<Binding>, Stop>
        requires { IsWithin line.now }
        ensures { Judges result (if_room self.now is_last line.now bound) }
    {
        if !self.structure_ok(is_last, line) {
            return Err(Stop::Code(Code::Structure));
        }
        match self.limits_ok(alloc, line, &bound) {
            Ok(true) => Ok(bound),
            Ok(false) => Err(Stop::Code(Code::Limit)),
            Err(_) => Err(Stop::Memory),
        }
    }

    /// What a line binds, or the least code from the names on.
    #[tactic(auto, unfolding(crate::specs::Parser::judgement))]
    fn judge(&self, alloc: Global, is_last: bool, line: &Line) -> Result<Option<Binding>, Stop>
        requires { IsWithin line.now }
        ensures { Judges result (judgement self.now is_last line.now) }
    {
        match self.line_binding(line) {
            Ok(bound) => self.if_room(alloc, is_last, line, bound),
            Err(code) => Err(Stop::Code(code)),
        }
    }

    /// Adds what a line says, or answers the least code from the names on.
    // The line is given up in one arm alone.
    fn add_line(
        &mut self,
        alloc: Global,
        is_last: bool,
        line: Line,
    ) -> Result<Result<(), Code>, Memory>
        requires { IsWithin line }
        ensures { IfOk result (λ step. IsStep self.new step (with_line self.old is_last line)) }
    {
        match self.judge(alloc, is_last, &line) {
            Ok(bound) => self.add_judged(alloc, line, bound),
            Err(stop) => stop.answer(),
        }
    }

    fn add_judged(
        &mut self,
        alloc: Global,
        line: Line,
        bound: Option<Binding>,
    ) -> Result<Result<(), Code>, Memory>
        ensures { IfOk result (λ step. IsStep self.new step (Ok (after self.old line bound))) }
    {
        self.add(alloc, line, bound)?;
        Ok(Ok(()))
    }

    fn read_header(&mut self, words: &[&[u8]]) -> Result<(), Code>
        ensures { IsStep self.new result (with_header self.old (bytes_of words.now)) }
    {
        match header_version(words) {
            Some(version) => {
                self.version = Some(version);
                Ok(())
            }
            None => Err(Code::Header),
        }
    }

    /// Passes over a line that says nothing.
    fn pass_over(&self, is_last: bool) -> Result<(), Code>
        ensures { IsStep self.now result (with_nothing self.now is_last) }
    {
        if is_last && self.version.is_none() {
            return Err(Code::Header);
        }
        if is_last && self.commands.is_some() {
            return Err(Code::Structure);
        }
        Ok(())
    }

    #[tactic(auto, unfolding(crate::specs::Parser::significant_line))]
    fn read_significant(
        &mut self,
        alloc: Global,
        is_last: bool,
        line: &[u8],
        words: &[&[u8]],
    ) -> Result<Result<(), Code>, Memory>
        ensures { IfOk result (λ step.
            IsStep self.new step (significant_line self.old is_last line.now (bytes_of words.now))) }
    {
        if self.version.is_none() {
            return Ok(self.read_header(words));
        }
        if !is_clean(line) {
            return Ok(Err(Code::Word));
        }
        match line_of(alloc, self.version_of(), words)? {
            Ok(line) => self.add_line(alloc, is_last, line),
            Err(code) => Ok(Err(code)),
        }
    }

    /// Reads one line, the last one or not, or answers the least code that applies to it.
    #[tactic(auto, unfolding(crate::specs::Parser::next_line))]
    pub(crate) fn read_line(
        &mut self,
        alloc: Global,
        is_last: bool,
        line: &[u8],
    ) -> Result<Result<(), Code>, Memory>
        ensures { IfOk result (λ step. IsStep self.new step (next_line self.old is_last line.now)) }
    {
        let words = split_words(alloc, line)?;
        if is_passed_over(words.as_slice()) {
            return Ok(self.pass_over(is_last));
        }
        self.read_significant(alloc, is_last, line, words.as_slice())
    }
}
