//! Laws of lines. Each is the contract of a function that does nothing.
ghost use Rattle.script_line.specs.Written.{LinesAreReadAgain};

/// A law: each line that some words say is said by the words of what is written for it. It does
/// nothing when it runs.
pub fn written_lines_are_read_again()
    ensures { LinesAreReadAgain }
{}
