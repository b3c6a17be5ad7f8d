//! Requests to one cell, each made by a thread of its own.
ghost use Rattle.std.specs.Prelude.{◌≡◌, ℕ, ◌<◌, ◌≤◌, [], All, IfOk, length, map, slice_index_or};
ghost use Rattle.std.specs.Prelude.{vec_capacity};
ghost use Rattle.std.specs.Fork.{AcceptsEach, ChangesEach};
ghost use Rattle.std.specs.Result.{result_ok};
ghost use Rattle.version_slots.specs.Cells.{AreAll};
ghost use Rattle.interlocked.specs.Whole.{new_passes};
ghost use Rattle.registry.specs.Requests.{AreMade, in_short};
ghost use Rattle.registry.specs.Seats.{AllMade, EndsWith, MadeAt, Makes, seat};

use imm_base::{Memory, Val};
use interlocked::{CellPass, Change, ImmCell, Share};
use plain_model::Reply;
use std::alloc::Global;
use std::sync::Wait;
use std::thread::{Threads, for_each_mut};

/// The most requests that are made at once: a cell has at most eight passes.
pub const MOST: usize = 8;

/// What is asked of a cell.
#[derive(Drop)]
pub enum Request<X> {
    /// A change of its collection.
    Change(X),
    /// The collection that it has.
    Read,
}

/// The reply to a change in short: what goes from one thread to another is to be a small type.
#[derive(Clone, Copy, Debug)]
pub enum Told {
    Value(Val),
    Taken(Val),
    Missing,
    /// Any other reply.
    Refused,
}

/// What a request is answered.
#[derive(Drop)]
pub enum Response<C> {
    /// The reply to a change.
    Reply(Told),
    /// The collection.
    Value(C),
}

/// What one thread works on: a pass, and what it was answered once it is.
struct Seat<P, A> {
    pass: P,
    response: Option<A>,
}

/// The reply in short.
fn in_short(reply: &Reply) -> Told
    ensures { result ≡ in_short reply.now }
{
    match reply {
        Reply::Value(value) => Told::Value(*value),
        Reply::Taken(value) => Told::Taken(*value),
        Reply::Missing => Told::Missing,
        _ => Told::Refused,
    }
}

/// Makes one request.
#[tactic(auto, using(crate::proofs::Made::makes_change, crate::proofs::Made::makes_read, crate::proofs::Made::makes_none))]
fn respond<R: Wait, C: Share, X: Change<C>>(
    rt: &R,
    alloc: Global,
    cell: &ImmCell<C, X>,
    pass: &mut CellPass<C, X>,
    request: &Request<X>,
) -> Result<Response<C>, Memory>
    requires own { pass.old.table ≡ cell.now.table }
    requires new { pass.old.last ≡ 0 }
    requires suits { (call : _) (kind : _) → X.suits call kind }
    ensures { Makes C.plain X.meaning request.now pass.old pass.new (result_ok result) }
{
    match request {
        Request::Change(change) => {
            let (reply, _) = cell.call(rt, alloc, pass, 1, change)?;
            Ok(Response::Reply(in_short(&reply)))
        }
        Request::Read => {
            let (value, _) = cell.read(rt, pass)?;
            Ok(Response::Value(value))
        }
    }
}

/// Makes the request of this number.
#[tactic(auto, using(crate::proofs::Made::made_at))]
fn respond_at<R: Wait, C: Share, X: Change<C>>(
    rt: &R,
    alloc: Global,
    cell: &ImmCell<C, X>,
    seat: &mut Seat<CellPass<C, X>, Response<C>>,
    requests: &[Request<X>],
    index: usize,
)
    requires own { seat.old.pass.table ≡ cell.now.table }
    requires new { seat.old.pass.last ≡ 0 }
    requires within { index < length requests.now }
    requires suits { (call : _) (kind : _) → X.suits call kind }
    ensures { MadeAt C.plain X.meaning requests.now index seat.old seat.new }
{
    seat.response = respond(rt, alloc, cell, &mut seat.pass, &requests[index]).ok();
}

/// Does the work at each seat, each in a thread.
fn at_each<R: Threads + Sync, P: Send, A: Send, F: Fn(usize, &mut Seat<P, A>) + Sync>(
    rt: &R,
    seats: &mut [Seat<P, A>],
    work: &F,
)
    requires { AcceptsEach F.Fn work.now seats.old }
    ensures { ChangesEach F.Fn work.now seats.old seats.new }
{
    for_each_mut(rt, seats, MOST, work)
}

/// Makes all requests at once, each at the seat of its number.
fn respond_all<R: Threads + Wait + Sync, C: Share + Send + Sync, X: Change<C> + Send + Sync>(
    rt: &R,
    alloc: Global,
    cell: &ImmCell<C, X>,
    seats: &mut [Seat<CellPass<C, X>, Response<C>>],
    requests: &[Request<X>],
)
    requires new { All (λ s. (s.pass.table ≡ cell.now.table) × (s.pass.last ≡ 0)) seats.old
        × ((call : _) (kind : _) → X.suits call kind) }
    requires same { length seats.old ≡ length requests.now }
    ensures { (k : ℕ) (d : _) → k < length seats.old
        → MadeAt C.plain X.meaning requests.now k
        (slice_index_or seats.old k d) (slice_index_or seats.new k d) }
{
    at_each(
        rt,
        seats,
        &|index, seat: &mut Seat<CellPass<C, X>, Response<C>>|
            requires { (seat.now.pass.table ≡ cell.now.table) × (seat.now.pass.last ≡ 0)
                × (index < length requests.now) × ((call : _) (kind : _) → X.suits call kind) }
            ensures { MadeAt C.plain X.meaning requests.entry.now index
                seat.entry.now seat.exit.now }
        { respond_at(rt, alloc, cell, seat, requests, index) },
    );
}

/// The seats after all requests were made.
fn responded<R: Threads + Wait + Sync, C: Share + Send + Sync, X: Change<C> + Send + Sync>(
    rt: &R,
    alloc: Global,
    cell: &ImmCell<C, X>,
    mut seats: Vec<Seat<CellPass<C, X>, Response<C>>>,
    requests: &[Request<X>],
) -> Vec<Seat<CellPass<C, X>, Response<C>>>
    requires new { All (λ s. (s.pass.table ≡ cell.now.table) × (s.pass.last ≡ 0)) seats.items
        × ((call : _) (kind : _) → X.suits call kind) }
    requires same { length seats.items ≡ length requests.now }
    ensures same { length result.items ≡ length seats.items }
    ensures made { (k : ℕ) (d : _) → k < length seats.items
        → MadeAt C.plain X.meaning requests.now k
        (slice_index_or seats.items k d) (slice_index_or result.items k d) }
{
    respond_all(rt, alloc, cell, seats.as_mut_slice(), requests);
    seats
}

/// The passes at their seats.
#[tactic(auto, using(crate::proofs::Moves::moves_one, crate::proofs::Moves::moved_all, crate::proofs::Moves::moves_none))]
fn seated<C: Share, X: Change<C>>(
    passes: &mut Vec<CellPass<C, X>>,
    mut seats: Vec<Seat<CellPass<C, X>, Response<C>>>,
) -> Vec<Seat<CellPass<C, X>, Response<C>>>
    requires room { (seats.items ≡ []) × (length passes.old.items ≤ vec_capacity seats) }
    ensures seats { result.items ≡ map (λ p. seat p) passes.old.items }
    ensures passes { (passes.new.items ≡ []) × (vec_capacity passes.new ≡ vec_capacity passes.old) }
{
    while let Some(pass) = passes.pop() {
        seats.push_reserved(Seat {
            pass,
            response: None,
        });
    }
    seats.reverse();
    seats
}

/// The passes from their seats, and the responses.
#[tactic(auto, using(crate::proofs::Moves::moves_one, crate::proofs::Moves::moved_all, crate::proofs::Moves::moves_none))]
fn unseated<C: Share, X: Change<C>>(
    mut seats: Vec<Seat<CellPass<C, X>, Response<C>>>,
    passes: &mut Vec<CellPass<C, X>>,
    mut responses: Vec<Option<Response<C>>>,
) -> Vec<Option<Response<C>>>
    requires passes { (passes.old.items ≡ []) × (length seats.items ≤ vec_capacity passes.old) }
    requires responses { (responses.items ≡ []) × (length seats.items ≤ vec_capacity responses) }
    ensures passes { passes.new.items ≡ map (λ s. s.pass) seats.items }
    ensures responses { result.items ≡ map (λ s. s.response) seats.items }
{
    while let Some(seat) = seats.pop() {
        let Seat { pass, response } = seat;
        passes.push_reserved(pass);
        responses.push_reserved(response);
    }
    seats.destroy_empty();
    passes.reverse();
    responses.reverse();
    responses
}

/// Makes requests to a cell, all at once, by its new passes. Answers what came of them.
#[tactic(auto, using(crate::proofs::Closed::passes_long, crate::proofs::Closed::seats_long, crate::proofs::Closed::seats_new, crate::proofs::Closed::all_made))]
fn make_each<R: Threads + Wait + Sync, C: Share + Send + Sync, X: Change<C> + Send + Sync>(
    rt: &R,
    alloc: Global,
    cell: &ImmCell<C, X>,
    passes: &mut Vec<CellPass<C, X>>,
    seats: Vec<Seat<CellPass<C, X>, Response<C>>>,
    responses: Vec<Option<Response<C>>>,
    requests: &[Request<X>],
) -> Vec<Option<Response<C>>>
    requires passes { passes.old.items ≡ new_passes cell.now.table cell.now.passes cell.now.first }
    requires many { length requests.now ≡ cell.now.passes }
    requires seats { (seats.items ≡ []) × (length requests.now ≤ vec_capacity seats) }
    requires responses { (responses.items ≡ []) × (length requests.now ≤ vec_capacity responses) }
    requires suits { (call : _) (kind : _) → X.suits call kind }
    ensures { AllMade C.plain X.meaning cell.now requests.now passes.new.items result.items }
{
    let seats = seated(passes, seats);
    let seats = responded(rt, alloc, cell, seats, requests);
    unseated(seats, passes, responses)
}

/// Ends a cell, and answers the collection that it has then. These are all its passes.
fn ended<C: Share, X: Change<C>>(
    alloc: Global,
    cell: ImmCell<C, X>,
    passes: Vec<CellPass<C, X>>,
) -> Result<C, Memory>
    requires table { All (λ p. p.table ≡ cell.table) passes.items }
    requires all { AreAll cell.passes (map (λ p. p.view) passes.items) }
    ensures { IfOk result (λ last. EndsWith cell.first (map (λ p. p.view) passes.items)
        (C.plain last)) }
{
    let closed = cell.close(alloc, passes)?;
    let last = closed.payload.value().share()?;
    Ok(last)
}

/// Makes requests to a cell with this collection, all at once, each in a thread with a pass of its
/// own. Answers the collection that the cell ends with, and the response to each request but those
/// for which there was no memory.
#[tactic(auto, using(crate::proofs::Closed::renamed, crate::proofs::Closed::of_cell, crate::proofs::Closed::all_numbers, crate::proofs::Closed::whole_made))]
pub fn make_all<R: Threads + Wait + Sync, C: Share + Send + Sync, X: Change<C> + Send + Sync>(
    rt: &R,
    alloc: Global,
    first: C,
    requests: &[Request<X>],
) -> Result<(C, Vec<Option<Response<C>>>), Memory>
    requires some { (0 < length requests.now) × (length requests.now ≤ 8) }
    requires suits { (call : _) (kind : _) → X.suits call kind }
    ensures { IfOk result (λ t. AreMade C.plain X.meaning (C.plain first) (C.plain t.0)
        requests.now t.1.items) }
{
    let count = requests.len();
    let responses = Vec::with_capacity(alloc, count)?;
    let seats = Vec::with_capacity(alloc, count)?;
    let Ok((cell, mut passes)) = ImmCell::make(alloc, count as u32, first) else {
        seats.destroy_empty();
        return Err(Memory);
    };
    let responses = make_each(rt, alloc, &cell, &mut passes, seats, responses, requests);
    let last = ended(alloc, cell, passes)?;
    Ok((last, responses))
}
