//! Logs, put together line by line.
ghost use Rattle.std.specs.Prelude.{◌≡◌, ℕ, ◌+◌, ◌++◌, List, [], IfOk, IfNone, length};
ghost use Rattle.std.specs.Option.{option_to_list};
ghost use Rattle.interlocked.specs.declared.entry.Entry.{Entry};
ghost use Rattle.plain_model.specs.declared.plain.Plain.{Plain};
ghost use Rattle.plain_model.specs.declared.commands.PlainCall.{PlainCall};
ghost use Rattle.history_merge.specs.Lines.{is_below};
ghost use Rattle.history_merge.specs.Logs.{AreLogs, IsMerged, weave, woven};

use imm_base::Memory;
use plain_model::{Line, Listed};
use std::alloc::Global;
use std::collections::VecDeque;

/// One history of all lines, out of the logs of the callers 1, 2 and so on. O(n * k) for n lines
/// of k callers. `Err` is want of memory, and no clause says when it comes.
pub fn merge(alloc: Global, logs: Vec<Listed<Line>>) -> Result<Listed<Line>, Memory>
    ensures { IfOk result (λ lines. (first : Plain) (entries : List (Entry PlainCall)) →
        AreLogs first entries logs.items → IsMerged first entries logs.items lines) }
{
    let lines = weave_all(alloc, logs)?;
    Ok(lines)
}

fn weave_all(alloc: Global, logs: Vec<Listed<Line>>) -> Result<Listed<Line>, Memory>
    ensures { IfOk result (λ lines. lines ≡ woven logs.items) }
{
    let mut lines = Listed::new(alloc);
    for log in logs {
        lines = weave(alloc, lines, log)?;
    }
    Ok(lines)
}

// Two lists of lines put together, each time the lower of the two first ones.
fn weave(alloc: Global, left: Listed<Line>, right: Listed<Line>) -> Result<Listed<Line>, Memory>
    ensures { IfOk result (λ lines. lines ≡ weave left right) }
{
    let mut left = VecDeque::from(left.into_vec());
    let mut right = VecDeque::from(right.into_vec());
    let mut lines = Listed::new(alloc);
    while let Some(line) = take_lower(&mut left, &mut right) {
        lines.push(line)?;
    }
    Ok(lines)
}

// The lower of the two first lines.
fn take_lower(left: &mut VecDeque<Line>, right: &mut VecDeque<Line>) -> Option<Line>
    ensures taken { weave left.old.items right.old.items
        ≡ option_to_list result ++ weave left.new.items right.new.items }
    ensures none { IfNone result (weave left.old.items right.old.items ≡ []) }
    ensures fewer { length left.old.items + length right.old.items
        ≡ length (option_to_list result) + (length left.new.items + length right.new.items) }
{
    let right_is_lower = match (left.front(), right.front()) {
        (Some(x), Some(y)) => is_below(y, x),
        (x, _) => x.is_none(),
    };
    if right_is_lower {
        right.pop_front()
    } else {
        left.pop_front()
    }
}

// By position, what installed first, then by caller and ordinal.
fn is_below(x: &Line, y: &Line) -> bool
    ensures { result ≡ is_below x.now y.now }
{
    if x.position != y.position {
        return x.position < y.position;
    }
    if x.installed != y.installed {
        return x.installed;
    }
    x.caller < y.caller || x.caller == y.caller && x.ordinal < y.ordinal
}
