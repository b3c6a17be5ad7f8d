use plain_model::{INPUT_LIMIT, Listed, Version};
use script::*;
use std::alloc::{AllocError, Global};
use std::test::*;

/// A text of a script, as it is printed again.
fn printed(alloc: Global, text: &[u8]) -> Result<Vec<u8>, ParseError> {
    if text.len() > INPUT_LIMIT {
        return Err(ParseError::Memory);
    }
    let script = parse(alloc, text)?;
    Ok(print(alloc, &script)?)
}

#[test]
fn a_canonical_text_is_printed_again(rt: HostRuntime) -> Result<(), Fail> {
    let text =
        b"immrun 1\ncell AB2 list 1 \"a b\" -9223372036854775808\ncell B smap nocase \"a=b\"=1\ncell D dict one\ncell S stack\ncell Q queue\nworker\nend\nworker\nread AB2 x2\npublish AB2 x2\ngetoradd D 1 2\naddorupdate D 1 2 plus -3\ntryupdate D 1 2 \"c d\"\ntryremove D 1\npush S 0\ntrydequeue Q\nnew x sset reverse seq 0 3\nlet y x union from x\nrekey y y ordinal\nask y count\nend\n".as_slice();
    let again = printed(rt.alloc(), text);
    assert_eq!(rt; again.ok().ok_or("the text is a script")?.as_slice(), text);
    Ok(())
}

/// Whether a text is refused.
fn is_refused(alloc: Global, text: &[u8]) -> bool {
    if text.len() > INPUT_LIMIT {
        return false;
    }
    parse(alloc, text).is_err()
}

/// A text with a cell of one word so many times and another once.
fn with_contents(
    alloc: Global,
    kind: &str,
    word: &str,
    count: u32,
    last: &str,
) -> Result<String, AllocError> {
    let mut text = format!(in alloc; "immrun 1\ncell A {kind}")?;
    for _ in 0..count {
        write!(text, " {word}")?;
    }
    write!(text, " {last}")?;
    Ok(text)
}

#[test]
fn first_contents_are_counted_as_they_are_made(rt: HostRuntime) -> Result<(), Fail> {
    let lists = with_contents(rt.alloc(), "list", "0", 16_384, "2")?;
    assert!(rt; is_refused(rt.alloc(), lists.as_bytes()));
    let maps = with_contents(rt.alloc(), "smap ordinal", "0=1", 16_384, "2=3")?;
    assert!(rt; !is_refused(rt.alloc(), maps.as_bytes()));
    Ok(())
}

#[test]
fn the_law_of_printed_scripts_is_called(rt: HostRuntime) {
    printed_scripts_are_read_again();
}

#[test]
fn an_upgraded_script_has_the_version_2(rt: HostRuntime) -> Result<(), Fail> {
    let script = Script {
        version: Version::One,
        cells: Listed::new(rt.alloc()),
        parts: Listed::new(rt.alloc()),
    };
    let text = print(rt.alloc(), &upgrade(rt.alloc(), &script)?)?;
    assert_eq!(rt; text.as_slice(), b"immrun 2\n".as_slice());
    Ok(())
}
