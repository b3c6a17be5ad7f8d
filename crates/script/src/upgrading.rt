//! A script in the last version of the language.

ghost use Rattle.std.specs.Prelude.{◌≡◌, IfOk};
ghost use Rattle.plain_model.specs.Lawful.{upgrade};

use imm_base::{Dup, Memory};
use plain_model::{Script, Version};
use std::alloc::Global;

/// A copy of a script with the version 2, in which nothing else is changed. It has the same lawful
/// reports: `plain_model::upgrade_keeps_reports`. The only error is want of memory. It takes O(n)
/// for n commands and values.
pub fn upgrade(alloc: Global, script: &Script) -> Result<Script, Memory>
    ensures { IfOk result (λ upgraded. upgraded ≡ upgrade script.now) }
{
    let mut upgraded = script.dup(alloc)?;
    upgraded.version = Version::Two;
    Ok(upgraded)
}
