//! Worked examples on cells of numbers.
ghost use Rattle.std.specs.Prelude.{◌≡◌, ℕ, ◌+◌, ◌^◌, ◌<◌, ◌≤◌, IfOk, IfErr, IfSome, [], map, All, None};
ghost use Rattle.version_slots.specs.Histories.{Shown};
ghost use Rattle.version_slots.specs.Tokens.{Pins, Proposed, Refusal};
ghost use Rattle.version_slots.specs.Cells.{AreAll, IsIdle};
ghost use Rattle.version_slots.specs.Passes.{view_of, seen_by, held_by, pinned_by, IsPassOf};
ghost use Rattle.version_slots.specs.declared.view.Hold.TheVariants.{Empty};

use imm_base::Memory;
use std::alloc::Global;
use std::process::Abort;
use std::sync::atomic::{AtomicU64, Ordering};
use std::thread::{Threads, join_mut};
use version_slots::{
    Base, Closed, Lost, Pass, Payload, Pinned, PrepareFault, Proposal, VersionCell, WORDS,
    claimable,
};

/// A number, on which the next one may follow.
#[derive(Drop)]
struct Number {
    value: u64,
}

impl Payload for Number {
    type Plain = u64;

    ghost plain = { λ n. n.value };

    ghost position_of = { λ x. x };

    ghost follows = { λ _ x y. y ≡ x + 1 };

    fn position(&self) -> u64 {
        self.value
    }

    fn share(&self) -> Result<Self, Memory> {
        Ok(Number { value: self.value })
    }

    ghost rises = { λ _ x y h. h };
}

/// A number whose third share is refused.
#[derive(Drop)]
struct Scarce<'a> {
    value: u64,
    shares: &'a AtomicU64,
}

impl Payload for Scarce<'_> {
    type Plain = u64;

    ghost plain = { λ n. n.value };

    ghost position_of = { λ x. x };

    ghost follows = { λ _ x y. y ≡ x + 1 };

    fn position(&self) -> u64 {
        self.value
    }

    fn share(&self) -> Result<Self, Memory> {
        if self.shares.fetch_add(1, Ordering::SeqCst) == 2 {
            return Err(Memory);
        }
        Ok(Scarce {
            value: self.value,
            shares: self.shares,
        })
    }

    ghost rises = { λ _ x y h. h };
}

/// A new cell, and its passes.
fn new_cell<P: Payload>(
    rt: &impl Abort,
    alloc: Global,
    passes: u32,
    first: P,
) -> (VersionCell<P>, Vec<Pass<P>>)
    requires { (0 < passes) × (passes ≤ 8) × (P.position_of (P.plain first) ≡ 0) }
    ensures count { result.0.passes ≡ passes }
    ensures passes { All (λ p. IsPassOf result.0 p × IsIdle (view_of p)) result.1.items }
{
    let Ok(made) = VersionCell::make(alloc, passes, first) else {
        panic!(rt; "no memory for a cell")
    };
    made
}

/// The last of the passes.
fn last_pass<P: Payload>(
    rt: &impl Abort,
    cell: &VersionCell<P>,
    passes: &mut Vec<Pass<P>>,
) -> Pass<P>
    requires { All (λ p. IsPassOf cell.now p × IsIdle (view_of p)) passes.old.items }
    ensures rest { All (λ p. IsPassOf cell.now p × IsIdle (view_of p)) passes.new.items }
    ensures pass { IsPassOf cell.now result × IsIdle (view_of result) }
{
    let Some(pass) = passes.pop() else {
        panic!(rt; "one pass more")
    };
    pass
}

/// Gives back the pass with the number after `count`, where those up to it are there.
fn give_back<P: Payload>(
    rt: &impl Abort,
    cell: &VersionCell<P>,
    passes: &mut Vec<Pass<P>>,
    count: u32,
    pass: Pass<P>,
)
    requires rest { All (λ p. IsPassOf cell.now p × IsIdle (view_of p)) passes.old.items }
    requires pass { IsPassOf cell.now pass × IsIdle (view_of pass) }
    requires all { (count < 8) × AreAll count (map (λ p. view_of p) passes.old.items) }
    ensures rest { All (λ p. IsPassOf cell.now p × IsIdle (view_of p)) passes.new.items }
    ensures all { AreAll (count + 1) (map (λ p. view_of p) passes.new.items) }
{
    assert!(rt; pass.number() == count + 1);
    assert!(rt; passes.len() < passes.capacity());
    passes.push_reserved(pass);
}

/// Ends the cell, where all its passes are there.
fn finish<P: Payload>(cell: VersionCell<P>, passes: Vec<Pass<P>>, count: u32) -> Closed<P>
    requires rest { All (λ p. IsPassOf cell p × IsIdle (view_of p)) passes.items }
    requires all { (cell.passes ≡ count) × AreAll count (map (λ p. view_of p) passes.items) }
{
    let _ = count;
    let Ok(closed) = cell.close(passes) else {
        unreachable!()
    };
    closed
}

/// Lets a version go, and answers it as a base, with its position.
fn release<P: Payload>(cell: &VersionCell<P>, pass: &mut Pass<P>, pinned: Pinned<P>) -> (Base, u64)
    requires { IsPassOf cell.now pass.old
        × (held_by pass.old ≡ Empty)
        × Pins (view_of pass.old) pinned.front (P.plain pinned.payload) }
    ensures pass { IsPassOf cell.now pass.new × IsIdle (view_of pass.new) }
    ensures base { (value : _) × Shown (seen_by pass.new) result.0.front.ticket result.0.front.slot value
        × (P.position_of value ≡ result.1) }
{
    let base = pinned.base();
    let position = cell.version(&pinned).position();
    cell.unpin(pass, pinned);
    (base, position)
}

/// The last version, as a base, with its position.
fn base_of<P: Payload>(rt: &impl Abort, cell: &VersionCell<P>, pass: &mut Pass<P>) -> (Base, u64)
    requires { IsPassOf cell.now pass.old × IsIdle (view_of pass.old) }
    ensures pass { IsPassOf cell.now pass.new × IsIdle (view_of pass.new) }
    ensures base { (value : _) × Shown (seen_by pass.new) result.0.front.ticket result.0.front.slot value
        × (P.position_of value ≡ result.1) }
{
    let Ok(pinned) = cell.pin(pass) else {
        panic!(rt; "nobody changes the gate")
    };
    release(cell, pass, pinned)
}

/// Proposes a payload on a base.
fn propose<P: Payload>(
    alloc: Global,
    cell: &VersionCell<P>,
    pass: &mut Pass<P>,
    base: Base,
    payload: P,
) -> Result<Proposal<P>, PrepareFault<P>>
    requires pass { IsPassOf cell.now pass.old × IsIdle (view_of pass.old) }
    requires base { (value : _) × Shown (seen_by pass.old) base.front.ticket base.front.slot value
        × P.follows (view_of pass.old).number value (P.plain payload) }
    ensures pass { IsPassOf cell.now pass.new × (pinned_by pass.new ≡ None) }
    ensures ok { IfOk result (λ p. Proposed (view_of pass.new) p.slot p.ticket p.base) }
    ensures err { IfErr result (Refusal P.plain (view_of pass.old) (P.plain payload) (view_of pass.new)) }
{
    cell.prepare(alloc, pass, base, payload)
}

/// Installs the number after the base's.
fn install_on(
    rt: &impl Abort,
    alloc: Global,
    cell: &VersionCell<Number>,
    pass: &mut Pass<Number>,
    base: Base,
    position: u64,
)
    requires pass { IsPassOf cell.now pass.old × IsIdle (view_of pass.old) }
    requires base { Shown (seen_by pass.old) base.front.ticket base.front.slot position }
    ensures pass { IsPassOf cell.now pass.new × IsIdle (view_of pass.new) }
{
    assert!(rt; position < 2000);
    let next = Number {
        value: position + 1,
    };
    let Ok(proposal) = propose(alloc, cell, pass, base, next) else {
        panic!(rt; "nobody else proposes")
    };
    let Ok(_) = cell.install(pass, proposal) else {
        panic!(rt; "nobody else installs")
    };
}

/// Installs the number after the base's, and then others, each on the one before it.
fn install_many(
    rt: &impl Abort,
    alloc: Global,
    cell: &VersionCell<Number>,
    pass: &mut Pass<Number>,
    base: Base,
    position: u64,
    count: u32,
)
    requires pass { IsPassOf cell.now pass.old × IsIdle (view_of pass.old) }
    requires base { Shown (seen_by pass.old) base.front.ticket base.front.slot position }
    ensures { IsPassOf cell.now pass.new × IsIdle (view_of pass.new) }
{
    install_on(rt, alloc, cell, pass, base, position);
    for _ in 1..count {
        let (base, position) = base_of(rt, cell, pass);
        install_on(rt, alloc, cell, pass, base, position);
    }
}

// Two proposals on one base are taken back, and nothing has changed.
#[test]
fn proposals_are_taken_back(rt: HostRuntime) {
    let alloc = rt.alloc();
    let (cell, mut passes) = new_cell(&rt, alloc, 2, Number { value: 0 });
    let mut second = last_pass(&rt, &cell, &mut passes);
    let mut first = last_pass(&rt, &cell, &mut passes);
    let one = cell.look(&mut first);
    let two = cell.look(&mut second);
    assert!(rt; one.ticket == 1 && one.slot == 0 && two.ticket == 1 && two.slot == 0);
    let (base, position) = base_of(&rt, &cell, &mut first);
    let (other, other_position) = base_of(&rt, &cell, &mut second);
    assert!(rt; position == 0 && other_position == 0);
    let Ok(proposal) = propose(alloc, &cell, &mut first, base, Number { value: 1 }) else {
        panic!(rt; "the first proposal")
    };
    let Ok(late) = propose(alloc, &cell, &mut second, other, Number { value: 1 }) else {
        panic!(rt; "the second proposal")
    };
    assert!(rt; cell.withdraw(&mut first, proposal).position() == 1);
    assert!(rt; cell.withdraw(&mut second, late).position() == 1);
    let Ok(note) = cell.tell(&mut first) else {
        panic!(rt; "the note")
    };
    let heard = cell.hear(&mut second, note);
    assert!(rt; heard.ticket == 1 && heard.slot == 0);
    give_back(&rt, &cell, &mut passes, 0, first);
    give_back(&rt, &cell, &mut passes, 1, second);
    let Closed { payload, front } = finish(cell, passes, 2);
    assert!(rt; payload.position() == 0 && front.ticket == 1 && front.slot == 0);
}

// Two passes pin one version, both propose on it, and one is too late.
#[test]
fn one_of_two_is_lost(rt: HostRuntime) {
    let alloc = rt.alloc();
    let (cell, mut passes) = new_cell(&rt, alloc, 2, Number { value: 0 });
    let mut second = last_pass(&rt, &cell, &mut passes);
    let mut first = last_pass(&rt, &cell, &mut passes);
    let Ok(pinned) = cell.pin(&mut first) else {
        panic!(rt; "the first pin")
    };
    let (other, other_position) = base_of(&rt, &cell, &mut second);
    let (base, position) = release(&cell, &mut first, pinned);
    assert!(rt; position == 0 && other_position == 0);
    let Ok(proposal) = propose(alloc, &cell, &mut first, base, Number { value: 1 }) else {
        panic!(rt; "the first proposal")
    };
    let Ok(late) = propose(alloc, &cell, &mut second, other, Number { value: 1 }) else {
        panic!(rt; "the second proposal")
    };
    let Ok(receipt) = cell.install(&mut first, proposal) else {
        panic!(rt; "the first is in time")
    };
    assert!(rt; receipt.front.ticket == 2);
    let Err(Lost { found, payload }) = cell.install(&mut second, late) else {
        panic!(rt; "the second is too late")
    };
    assert!(rt; found.ticket == 2 && payload.position() == 1);
    let (_, position) = base_of(&rt, &cell, &mut second);
    assert!(rt; position == 1);
    give_back(&rt, &cell, &mut passes, 0, first);
    give_back(&rt, &cell, &mut passes, 1, second);
    let Closed { payload, front } = finish(cell, passes, 2);
    assert!(rt; payload.position() == 1 && front.ticket == 2);
}

/// Installs 2,000 versions in one thread, and reads the pinned one in another.
fn install_beside<R: Threads + Abort + Sync>(
    rt: &R,
    alloc: Global,
    cell: &VersionCell<Number>,
    kept: &Pinned<Number>,
    pass: &mut Pass<Number>,
    base: Base,
    position: u64,
)
    requires pass { IsPassOf cell.now pass.old × IsIdle (view_of pass.old) }
    requires base { Shown (seen_by pass.old) base.front.ticket base.front.slot position }
    ensures { IsPassOf cell.now pass.new × IsIdle (view_of pass.new) }
{
    let (_, steady) = join_mut(
        rt,
        &mut ||
            requires { IsPassOf cell.now pass.now
                × IsIdle (view_of pass.now)
                × Shown (seen_by pass.now) base.front.ticket base.front.slot position }
            ensures { IsPassOf cell.entry.now pass.exit.now × IsIdle (view_of pass.exit.now) }
        { install_many(rt, alloc, cell, pass, base, position, 2000) },
        &mut || (0..2000).all(|_| cell.version(kept).position() == 0),
    );
    assert!(rt; steady);
}

// A reader stays pinned while 2,000 versions pass, and sees the last one at its next pin.
#[test]
fn a_reader_stays_pinned(rt: HostRuntime) {
    let alloc = rt.alloc();
    let (cell, mut passes) = new_cell(&rt, alloc, 2, Number { value: 0 });
    let mut second = last_pass(&rt, &cell, &mut passes);
    let mut first = last_pass(&rt, &cell, &mut passes);
    let (base, position) = base_of(&rt, &cell, &mut second);
    let Ok(kept) = cell.pin(&mut first) else {
        panic!(rt; "the pin")
    };
    install_beside(&rt, alloc, &cell, &kept, &mut second, base, position);
    let (_, position) = release(&cell, &mut first, kept);
    assert!(rt; position == 0);
    let (_, position) = base_of(&rt, &cell, &mut first);
    assert!(rt; position == 2000);
    give_back(&rt, &cell, &mut passes, 0, first);
    give_back(&rt, &cell, &mut passes, 1, second);
    let Closed { payload, front } = finish(cell, passes, 2);
    assert!(rt; payload.position() == 2000 && front.ticket == 2001);
}

/// Pins the version with the passes up to this number, each while the others before it have it pinned.
fn pin_each(rt: &impl Abort, cell: &VersionCell<Number>, passes: &mut Vec<Pass<Number>>, count: u32)
    requires rest { All (λ p. IsPassOf cell.now p × IsIdle (view_of p)) passes.old.items }
    requires few { count ≤ 8 }
    ensures rest { All (λ p. IsPassOf cell.now p × IsIdle (view_of p)) passes.new.items }
    ensures all { AreAll count (map (λ p. view_of p) passes.new.items) }
{
    if count == 0 {
        return;
    }
    let mut pass = last_pass(rt, cell, passes);
    let Ok(pinned) = cell.pin(&mut pass) else {
        panic!(rt; "nobody changes the gate")
    };
    pin_each(rt, cell, passes, count - 1);
    let (_, position) = release(cell, &mut pass, pinned);
    assert!(rt; position == 0);
    give_back(rt, cell, passes, count - 1, pass);
}

#[test]
fn eight_passes_pin_one_version(rt: HostRuntime) {
    let (cell, mut passes) = new_cell(&rt, rt.alloc(), 8, Number { value: 0 });
    pin_each(&rt, &cell, &mut passes, 8);
    let Closed { payload, .. } = finish(cell, passes, 8);
    assert!(rt; payload.position() == 0);
}

// The words of a new cell, and words in which each slot is shown, in hand or pinned.
#[test]
fn the_least_claimable_gate(rt: HostRuntime) {
    let mut words = [0; WORDS];
    words[0] = 32;
    words[1] = 2;
    words[2] = 262_146;
    assert!(rt; claimable(&words) == Some(1));
    let mut words = [262_146; WORDS];
    words[0] = 32;
    words[1] = 2;
    assert!(rt; claimable(&words) == None);
    let mut words = [1; WORDS];
    words[0] = 32;
    words[1] = 2;
    words[2] = 262_147;
    assert!(rt; claimable(&words) == Some(0));
    words[2] = 262_151;
    assert!(rt; claimable(&words) == None);
}

// Three passes pin one version at once, and two of them keep it while another one comes.
#[test]
fn three_pins_in_one_slot(rt: HostRuntime) {
    let alloc = rt.alloc();
    let (cell, mut passes) = new_cell(&rt, alloc, 3, Number { value: 0 });
    let mut third = last_pass(&rt, &cell, &mut passes);
    let mut second = last_pass(&rt, &cell, &mut passes);
    let mut first = last_pass(&rt, &cell, &mut passes);
    let Ok(mine) = cell.pin(&mut first) else {
        panic!(rt; "the first pin")
    };
    let Ok(second_kept) = cell.pin(&mut second) else {
        panic!(rt; "the second pin")
    };
    let Ok(third_kept) = cell.pin(&mut third) else {
        panic!(rt; "the third pin")
    };
    let (base, position) = release(&cell, &mut first, mine);
    install_on(&rt, alloc, &cell, &mut first, base, position);
    let Ok(next) = cell.pin(&mut first) else {
        panic!(rt; "the pin of the next version")
    };
    let (_, one) = release(&cell, &mut first, next);
    let (_, two) = release(&cell, &mut second, second_kept);
    let (_, three) = release(&cell, &mut third, third_kept);
    assert!(rt; position == 0 && one == 1 && two == 0 && three == 0);
    give_back(&rt, &cell, &mut passes, 0, first);
    give_back(&rt, &cell, &mut passes, 1, second);
    give_back(&rt, &cell, &mut passes, 2, third);
    let Closed { payload, .. } = finish(cell, passes, 3);
    assert!(rt; payload.position() == 1);
}

// Where a share is refused the payload comes back, and can be proposed again.
#[test]
fn a_refused_share_gives_the_payload_back(rt: HostRuntime) {
    let alloc = rt.alloc();
    let shares = AtomicU64::new(0);
    let zero = Scarce {
        value: 0,
        shares: &shares,
    };
    let one = Scarce {
        value: 1,
        shares: &shares,
    };
    let (cell, mut passes) = new_cell(&rt, alloc, 2, zero);
    let second = last_pass(&rt, &cell, &mut passes);
    let mut first = last_pass(&rt, &cell, &mut passes);
    let (base, position) = base_of(&rt, &cell, &mut first);
    assert!(rt; position == 0);
    let payload = match propose(alloc, &cell, &mut first, base, one) {
        Err(PrepareFault::Memory { payload }) => payload,
        Ok(_) | Err(_) => panic!(rt; "the third share is refused"),
    };
    let (base, position) = base_of(&rt, &cell, &mut first);
    let back = payload.position();
    assert!(rt; back == 1);
    assert!(rt; position == 0);
    let Ok(proposal) = propose(alloc, &cell, &mut first, base, payload) else {
        panic!(rt; "the proposal")
    };
    assert!(rt; cell.withdraw(&mut first, proposal).position() == 1);
    give_back(&rt, &cell, &mut passes, 0, first);
    give_back(&rt, &cell, &mut passes, 1, second);
    let Closed { payload, .. } = finish(cell, passes, 2);
    assert!(rt; payload.position() == 0);
}
