//! Lists, and what a caller proves of a change.
ghost use Rattle.std.specs.Prelude.{◌∷◌, ◌≡◌, ◌++◌, [], IfOk, false};

use imm_base::{Edit, Val};
use imm_list::{ImmList, ListFault};
use std::alloc::Global;

/// The ports that a service listens on.
pub fn first_ports(alloc: Global) -> Result<ImmList<Val>, ListFault> {
    ImmList::from_slice(alloc, &[Val::Int(80), Val::Int(443)])
}

/// The list with the port behind it.
pub fn with_port(alloc: Global, ports: &ImmList<Val>, port: Val) -> Result<ImmList<Val>, ListFault>
    ensures { IfOk result (λ longer. longer ≡ ports.now ++ (port ∷ [])) }
{
    match ports.add(alloc, port)? {
        Edit::New(longer) => Ok(longer),
        Edit::Same => unreachable!(),
    }
}

/// The list without the port, or a share of the list where it has no such port.
pub fn without_port(
    alloc: Global,
    ports: &ImmList<Val>,
    port: Val,
) -> Result<ImmList<Val>, ListFault> {
    match ports.remove(alloc, &port)? {
        Edit::New(shorter) => Ok(shorter),
        Edit::Same => Ok(ports.share()?),
    }
}

/// The port at a place, or how many ports there are.
pub fn port_at(ports: &ImmList<Val>, place: u32) -> Result<Val, u32> {
    match ports.get(place) {
        Ok(port) => Ok(*port),
        Err(ListFault::OutOfRange { count, .. }) => Err(count),
        Err(_) => unreachable!(),
    }
}

/// Adds the port to the list in the variable, and says whether it did. Where there is no room or no
/// memory, that list is as it was.
pub fn open_port(alloc: Global, ports: &mut ImmList<Val>, port: Val) -> bool
    ensures { result ≡ false → ports.new ≡ ports.old }
{
    match ports.add(alloc, port) {
        Ok(Edit::New(longer)) => {
            *ports = longer;
            true
        }
        Ok(Edit::Same) | Err(_) => false,
    }
}

/// How many ports there are before some changes, and after them.
pub fn counts(alloc: Global) -> Result<(u32, u32), ListFault> {
    let before = first_ports(alloc)?;
    let mut after = with_port(alloc, &before, Val::Int(8080))?;
    after = without_port(alloc, &after, Val::Int(80))?;
    let _ = open_port(alloc, &mut after, Val::Int(8443));
    Ok((before.count(), after.count()))
}
