//! Runs whose workers are held back by force.
use crate::tests::{Call, RUN, run_at};
use imm_base::{Gate, Tokens};
use immrun_core::Status;
use std::sync::atomic::{AtomicBool, AtomicU64, Ordering};
use std::test::Fail;
use std::thread::yield_now;

// The turns for which a worker is held at most.
const TURNS: u32 = 1_000_000;

/// Holds each worker before its first command until so many have come there.
#[derive(Drop)]
struct Meeting {
    workers: u64,
    arrived: AtomicU64,
    /// A worker waited in vain, or its pass of the first cell did not show its first call.
    missed: AtomicBool,
    /// A pass of the first cell has seen what another worker installed.
    shared: AtomicBool,
}

impl Meeting {
    fn new(workers: u64) -> Meeting {
        Meeting {
            workers,
            arrived: AtomicU64::new(0),
            missed: AtomicBool::new(false),
            shared: AtomicBool::new(false),
        }
    }

    fn have_met(&self) -> bool {
        !self.missed.load(Ordering::SeqCst) && self.shared.load(Ordering::SeqCst)
    }
}

impl Gate for Meeting {
    fn before(&self, _worker: u32, ordinal: u64) {
        if ordinal != 1 {
            return;
        }
        self.arrived.fetch_add(1, Ordering::SeqCst);
        for _turn in 0..TURNS {
            if self.arrived.load(Ordering::SeqCst) >= self.workers {
                return;
            }
            yield_now();
        }
        self.missed.store(true, Ordering::SeqCst);
    }

    // The first version of a cell has the ticket 1, and each that is installed a higher one.
    fn after<K: Tokens>(&self, _worker: u32, ordinal: u64, tokens: &K) {
        if ordinal != 1 {
            return;
        }
        if tokens.last_ordinal(0) != Some(1) {
            self.missed.store(true, Ordering::SeqCst);
        }
        if let Some(ticket) = tokens.ticket(0) {
            if ticket >= 3 {
                self.shared.store(true, Ordering::SeqCst);
            }
        }
    }
}

/// Lets one worker do its first command before all others.
#[derive(Drop)]
struct First {
    worker: u32,
    done: AtomicBool,
}

impl Gate for First {
    fn before(&self, worker: u32, _ordinal: u64) {
        if worker == self.worker {
            return;
        }
        for _turn in 0..TURNS {
            if self.done.load(Ordering::SeqCst) {
                return;
            }
            yield_now();
        }
    }

    fn after<K: Tokens>(&self, worker: u32, _ordinal: u64, _tokens: &K) {
        if worker == self.worker {
            self.done.store(true, Ordering::SeqCst);
        }
    }
}

const PUSHES: &[u8] = b"immrun 1
cell S stack
worker
push S 1
end
worker
push S 1
end
";

#[test]
fn two_workers_meet_and_share_a_cell(rt: HostRuntime) -> Result<(), Fail> {
    let gate = Meeting::new(2);
    let call = Call {
        words: &["run", "2"],
        input: PUSHES,
        ..RUN
    };
    let ran = run_at(&rt, rt.alloc(), &call, &gate)?;
    assert!(rt; ran.status == Status::Done);
    assert!(rt; gate.have_met());
    Ok(())
}

const EIGHT: &[u8] = b"immrun 1
cell S stack
worker
push S 1
end
worker
push S 2
end
worker
push S 3
end
worker
push S 4
end
worker
push S 5
end
worker
push S 6
end
worker
push S 7
end
worker
push S 8
end
";

#[test]
fn eight_workers_meet_and_share_a_cell(rt: HostRuntime) -> Result<(), Fail> {
    let gate = Meeting::new(8);
    let call = Call {
        words: &["run", "8"],
        input: EIGHT,
        ..RUN
    };
    let ran = run_at(&rt, rt.alloc(), &call, &gate)?;
    assert!(rt; ran.status == Status::Done);
    assert!(rt; gate.have_met());
    Ok(())
}

const RACE: &[u8] = b"immrun 1
cell C dict ordinal \"a\"=1
worker
tryupdate C \"a\" 2 1
end
worker
tryupdate C \"a\" 2 1
end
";

const ONE_WINS: &[u8] = b"immrun report 1
workers 2
cell C dict ordinal
first 1: \"a\"=1
1 1.1 + tryupdate \"a\" 2 1 -> true
1 2.1 . tryupdate \"a\" 2 1 -> false
final 1: \"a\"=2
worker 1
worker 2
end
";

const TWO_WINS: &[u8] = b"immrun report 1
workers 2
cell C dict ordinal
first 1: \"a\"=1
1 2.1 + tryupdate \"a\" 2 1 -> true
1 1.1 . tryupdate \"a\" 2 1 -> false
final 1: \"a\"=2
worker 1
worker 2
end
";

#[test]
fn of_two_updates_the_first_is_done(rt: HostRuntime) -> Result<(), Fail> {
    let call = Call {
        words: &["run", "2"],
        input: RACE,
        ..RUN
    };
    for (worker, wrote) in &[(1, ONE_WINS), (2, TWO_WINS)] {
        let gate = First {
            worker: *worker,
            done: AtomicBool::new(false),
        };
        let ran = run_at(&rt, rt.alloc(), &call, &gate)?;
        assert_eq!(rt; ran.wrote.bytes(), *wrote);
    }
    Ok(())
}
