// Copies of elements.
ghost use Rattle.std.specs.Prelude.{◌≡◌, ◌≤◌, ◌++◌, IfOk, OnOk, length};

use imm_base::{Dup, LIMIT, Memory};
use std::alloc::Global;

// Puts copies of the values behind those of `into`.
pub(crate) fn put_copies<T: Dup>(
    alloc: Global,
    values: &[T],
    into: &mut Vec<T>,
) -> Result<(), Memory>
    ensures { OnOk result (into.new.items ≡ into.old.items ++ values.now) }
{
    for value in values {
        into.push(value.dup(alloc)?)?;
    }
    Ok(())
}

// Copies of the values, with room for so many more.
pub(crate) fn copied<T: Dup>(alloc: Global, values: &[T], more: usize) -> Result<Vec<T>, Memory>
    requires values { length values.now ≤ LIMIT }
    requires more { more ≤ LIMIT }
    ensures { IfOk result (λ copies. copies.items ≡ values.now) }
{
    let mut copies = Vec::with_capacity(alloc, values.len() + more)?;
    put_copies(alloc, values, &mut copies)?;
    Ok(copies)
}
