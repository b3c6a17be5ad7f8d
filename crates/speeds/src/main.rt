//! Works on collections of every kind, and prints what their calls come to. With the word of a row
//! (`build`, `add`, `lookup`, `remove`, `set`, `iterate`, `walk`, `change`, `publish`) it prints, for
//! each kind that has such a call and for each size, how many nanoseconds of processor time an
//! operation of this row takes: the least of several rounds.
#![tactic(auto)]

mod built;
mod ends;
mod lists;
mod maps;
mod measured;
mod row;
mod sets;

use builders::{DictBuilder, HashSetBuilder, ListBuilder, MapBuilder, SetBuilder};
use built::InPlace;
use frozen_sets::FrozenMap;
use imm_array::ImmArray;
use imm_base::{Memory, Val, ValEq, ValOrder};
use imm_dictionary::{Dict, ImmHashSet};
use imm_list::ImmList;
use measured::{Measured, value_of};
use queue_stack::{ImmQueue, ImmStack};
use row::{ROWS, Row, work};
use sorted_maps::SortedMap;
use sorted_sets::SortedSet;
use std::alloc::Global;
use std::time::{CpuClock, Duration};
use std::{env, io};

// How many elements there are: room is left for one more.
const SIZES: [u32; 3] = [999, 16_383, 65_535];

const ROUNDS: u32 = 7;

fn values_up_to(alloc: Global, count: u32) -> Result<Vec<Val>, Memory> {
    let mut values = Vec::new(alloc);
    for number in 0..count {
        values.push(value_of(number))?;
    }
    Ok(values)
}

// So many nanoseconds an operation.
fn nanos_each(spent: Duration, operations: u32) -> u64 {
    u64::try_from(spent.as_nanos()).unwrap_or(u64::MAX) / u64::from(operations.max(1))
}

fn show_sums<C: Measured>(rt: &impl Print, alloc: Global) -> io::Result<()> {
    let name = C::NAME;
    let count = SIZES[0];
    let Ok(values) = values_up_to(alloc, count) else {
        return println!(rt; "{name}: no memory");
    };
    let Some(mut base) = C::build(alloc, values.as_slice()) else {
        return println!(rt; "{name}: no memory");
    };
    for row in ROWS {
        if let Some(sum) = work(alloc, row, &mut base, values.as_slice(), count) {
            let word = row.word();
            println!(rt; "{name} {word}: {sum}")?;
        }
    }
    Ok(())
}

fn show_time<C: Measured>(
    rt: &(impl Print + CpuClock),
    alloc: Global,
    row: Row,
    count: u32,
) -> io::Result<()> {
    let name = C::NAME;
    let Ok(values) = values_up_to(alloc, count) else {
        return println!(rt; "{name}: no memory");
    };
    let Some(mut base) = C::build(alloc, values.as_slice()) else {
        return println!(rt; "{name}: no memory");
    };
    let mut least = u64::MAX;
    for _ in 0..ROUNDS {
        if let Some(before) = row.before() {
            let _sum = work(alloc, before, &mut base, values.as_slice(), count);
        }
        let start = rt.thread_cpu_time()?;
        if work(alloc, row, &mut base, values.as_slice(), count).is_none() {
            return Ok(());
        }
        let spent = rt.thread_cpu_time()?.saturating_sub(start);
        least = least.min(nanos_each(spent, row.operations(count)));
    }
    println!(rt; "{name} of {count}: {least} ns")
}

// What each row comes to, or how long a row takes.
fn show<C: Measured>(
    rt: &(impl Print + CpuClock),
    alloc: Global,
    timed: Option<Row>,
) -> io::Result<()> {
    match timed {
        None => show_sums::<C>(rt, alloc),
        Some(row) => {
            for count in SIZES {
                show_time::<C>(rt, alloc, row, count)?;
            }
            Ok(())
        }
    }
}

fn show_all(rt: &(impl Print + CpuClock), alloc: Global, timed: Option<Row>) -> io::Result<()> {
    show::<ImmList<Val>>(rt, alloc, timed)?;
    show::<SortedSet<Val, ValOrder>>(rt, alloc, timed)?;
    show::<SortedMap<Val, Val, ValOrder>>(rt, alloc, timed)?;
    show::<Dict<Val, Val, ValEq>>(rt, alloc, timed)?;
    show::<ImmHashSet<Val, ValEq>>(rt, alloc, timed)?;
    show::<ImmStack<Val>>(rt, alloc, timed)?;
    show::<ImmQueue<Val>>(rt, alloc, timed)?;
    show::<ImmArray<Val>>(rt, alloc, timed)?;
    show::<FrozenMap<Val>>(rt, alloc, timed)?;
    show::<InPlace<ListBuilder<Val>>>(rt, alloc, timed)?;
    show::<InPlace<SetBuilder<Val, ValOrder>>>(rt, alloc, timed)?;
    show::<InPlace<MapBuilder<Val, Val, ValOrder>>>(rt, alloc, timed)?;
    show::<InPlace<DictBuilder<Val, Val, ValEq>>>(rt, alloc, timed)?;
    show::<InPlace<HashSetBuilder<Val, ValEq>>>(rt, alloc, timed)
}

// The row of the word.
fn row_of(word: &str) -> Option<Row> {
    for row in ROWS {
        if word == row.word() {
            return Some(row);
        }
    }
    None
}

fn main(rt: HostRuntime) -> io::Result<()> {
    let Some(word) = env::args(&rt)?.nth(1) else {
        return show_all(&rt, rt.alloc(), None);
    };
    match row_of(word.as_str()) {
        Some(row) => show_all(&rt, rt.alloc(), Some(row)),
        None => println!(rt; "no such row"),
    }
}
