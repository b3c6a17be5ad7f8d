use imm_base::Memory;
use plain_model::Version;
use script_line::*;
use std::alloc::Global;
use std::test::*;

/// The code that a line is refused with in a version, or nothing where it says something.
fn code_of(alloc: Global, version: Version, line: &[u8]) -> Result<Option<Code>, Memory> {
    let words = split_words(alloc, line)?;
    Ok(line_of(alloc, version, words.as_slice())?.err())
}

#[test]
fn a_line_is_read_or_refused_with_its_least_code(rt: HostRuntime) -> Result<(), Fail> {
    let read = code_of(rt.alloc(), Version::One, b"new x sset ordinal 1 \"a b\"");
    assert_eq!(rt; read.ok().ok_or("memory")?, None);
    let refused = code_of(rt.alloc(), Version::One, b"let y x insertrange x from 9");
    assert_eq!(rt; refused.ok().ok_or("memory")?, Some(Code::Value));
    Ok(())
}

#[test]
fn a_word_of_the_second_version_is_none_of_the_first(rt: HostRuntime) -> Result<(), Fail> {
    let line = b"addorupdatef D \"a\" const 5 plus 1";
    let first = code_of(rt.alloc(), Version::One, line);
    assert_eq!(rt; first.ok().ok_or("memory")?, Some(Code::Word));
    let second = code_of(rt.alloc(), Version::Two, line);
    assert_eq!(rt; second.ok().ok_or("memory")?, None);
    Ok(())
}

#[test]
fn the_law_of_written_lines_is_called(rt: HostRuntime) {
    written_lines_are_read_again();
}
