//! What may be wrong with a line, and the least of several such codes.

ghost use Rattle.std.specs.Prelude.{◌≡◌};
ghost use Rattle.script_line.specs.Codes.{rank, lesser, ◌⊗◌};

/// What is wrong with a line; where several things are, the first of these counts.
#[derive(Clone, Copy, Debug, PartialEq, Eq)]
pub enum Code {
    /// The first significant line does not name the language and its version.
    Header,
    /// A word or a byte that may not stand there, or a word too few or too many.
    Word,
    /// A word that should be a value or a number, and is none.
    Value,
    /// A name that is spelled wrong, not known, or declared twice.
    Name,
    /// An operation or a name that does not go with the kind.
    Kind,
    /// A line at a place where it may not stand.
    Structure,
    /// One cell, part, command or name too many.
    Limit,
}

impl Code {
    /// The code's number, from 1 on.
    pub fn rank(self) -> u8
        ensures { result ≡ rank self }
    {
        match self {
            Code::Header => 1,
            Code::Word => 2,
            Code::Value => 3,
            Code::Name => 4,
            Code::Kind => 5,
            Code::Structure => 6,
            Code::Limit => 7,
        }
    }
}

fn lesser(a: Code, b: Code) -> Code
    ensures { result ≡ lesser a b }
{
    if a.rank() <= b.rank() { a } else { b }
}

/// Both values, or the lesser code.
pub fn both_or_least<A: Drop, B: Drop>(
    a: Result<A, Code>,
    b: Result<B, Code>,
) -> Result<(A, B), Code>
    ensures { result ≡ (a ⊗ b) }
{
    match (a, b) {
        (Ok(a), Ok(b)) => Ok((a, b)),
        (Ok(_), Err(d)) => Err(d),
        (Err(c), Ok(_)) => Err(c),
        (Err(c), Err(d)) => Err(lesser(c, d)),
    }
}
