//! Lines and their commands.
use crate::command::{Command, LineFault, text};

fn put(name: &str, address: &str) -> Result<Command, LineFault> {
    let name = text(name)?;
    let address = text(address)?;
    Ok(Command::Put { name, address })
}

fn drop_of(name: &str) -> Result<Command, LineFault> {
    let name = text(name)?;
    Ok(Command::Drop { name })
}

fn get(name: &str) -> Result<Command, LineFault> {
    let name = text(name)?;
    Ok(Command::Get { name })
}

#[test]
fn a_line_is_a_command(rt: HostRuntime) {
    assert!(rt; Command::parse("put auth  10.0.0.5:80") == put("auth", "10.0.0.5:80"));
    assert!(rt; Command::parse("drop auth") == drop_of("auth"));
    assert!(rt; Command::parse("get auth") == get("auth"));
    assert!(rt; Command::parse("list") == Ok(Command::List));
}

#[test]
fn a_line_that_is_none_says_why(rt: HostRuntime) {
    assert!(rt; Command::parse("put auth") == Err(LineFault::Words));
    assert!(rt; Command::parse("list all") == Err(LineFault::Words));
    assert!(rt; Command::parse("find auth") == Err(LineFault::Command));
    assert!(rt; Command::parse("get a-name-of-25-characters-x") == Err(LineFault::Text));
}
