// Opening a bench.

ghost use Rattle.std.specs.Prelude.{◌≡◌, ◌<◌, ◌+◌, [], All, length, map, replicate, IfOk, IfErr, Some, None};
ghost use Rattle.std.specs.List.{range_with_len};
ghost use Rattle.plan_core.specs.Faults.{IsSafe};
ghost use Rattle.plan_core.specs.PlanContents.{plan_contents};
ghost use Rattle.cert_check.specs.Holds.{accepted_plan};
ghost use Rattle.plays.specs.Games.{IsGame};
ghost use Rattle.plays.specs.Starters.{starters_refusal};
ghost use Rattle.bus_bench.specs.Hands.{setup_game};
ghost use Rattle.bus_bench.specs.Opening.{IsHanding, IsLaid, IsOpened, IsOpenRefusal};
ghost use Rattle.bus_bench.specs.Rule.{SLOTS};
ghost use Rattle.bus_bench.specs.Seats.{fresh};

use crate::hands::{Setup, Terms};
use crate::seats::{Bench, Host, Seat, Standing, Ticket, Wire};
use crate::steps::HandsOut;
use atomic_table::Table;
use cert_check::Accepted;
use places::Place;
use plan_core::Plan;
use plays::{OpenError, check_starters};
use std::alloc::{AllocError, Global};

/// The slots of a bench: no run of a plan is longer.
pub const MOST_SLOTS: usize = 2560;

/// A bench, its host, and a seat for each starter, in order.
pub type Opened<'a> = (Bench<'a>, Host, Vec<Seat<'a>>);

/// Opens a bench for these participants of the plan, who start together, and hands out the seat of each, in order.
/// `answers` has the bits of the targets by slot, used where a slot is heard; past its end the bit is 1.
///
/// NoStarter where there is none; else starter by starter: Unknown where the plan has no such participant, SameController
/// where an earlier starter is the same participant or a sending of the same controller, Never where its controller and
/// that of an earlier starter never start together; and NoMemory last.
pub fn open_bench<'a>(
    alloc: Global,
    accepted: &'a Accepted,
    starters: &[u32],
    answers: &[bool],
) -> Result<Opened<'a>, OpenError>
    ensures opened { IfOk result (λ r. IsOpened (accepted_plan accepted.now) starters.now answers.now r.0 r.1 r.2.items) }
    ensures host { IfOk result (λ r. r.1 ≡ r.0) }
    ensures seats { IfOk result (λ r. All (λ seat. seat.bench ≡ r.0) r.2.items) }
    ensures fit { IfOk result (λ _. starters_refusal (plan_contents (accepted_plan accepted.now)) starters.now ≡ None) }
    ensures refused { IfErr result (IsOpenRefusal
        (starters_refusal (plan_contents (accepted_plan accepted.now)) starters.now)) }
{
    let plan = accepted.plan();
    check_starters(plan, starters)?;
    match open(alloc, plan, starters, answers) {
        Ok(opened) => Ok(opened),
        Err(AllocError) => Err(OpenError::NoMemory),
    }
}

fn open<'a>(
    alloc: Global,
    plan: &'a Plan,
    starters: &[u32],
    answers: &[bool],
) -> Result<Opened<'a>, AllocError>
    requires safe { IsSafe (plan_contents plan.now) }
    requires starters { starters_refusal (plan_contents plan.now) starters.now ≡ None }
    ensures opened { IfOk result (λ r. IsOpened plan.now starters.now answers.now r.0 r.1 r.2.items) }
    ensures seats { IfOk result (λ r. All (λ seat. seat.bench ≡ r.0) r.2.items) }
{
    let setup = Setup {
        plan,
        starters: numbers(alloc, starters)?,
        answers: bits(alloc, answers)?,
    };
    let (wire, mut ticket) = lay(alloc, &setup)?;
    let Setup {
        plan,
        starters,
        answers,
    } = setup;
    let terms = Terms { starters, answers };
    let bench = Bench { wire, terms };
    let seats = hand_out_all(alloc, &bench, plan, &mut ticket)?;
    Ok((bench, Host { ticket }, seats))
}

fn numbers(alloc: Global, starters: &[u32]) -> Result<Vec<u32>, AllocError>
    ensures { IfOk result (λ v. v.items ≡ starters.now) }
{
    starters.to_vec(alloc)
}

fn bits(alloc: Global, answers: &[bool]) -> Result<Vec<bool>, AllocError>
    ensures { IfOk result (λ v. v.items ≡ answers.now) }
{
    answers.to_vec(alloc)
}

// The words of the bench, all zero, and the host's ticket.
fn lay<'a>(alloc: Global, setup: &Setup<'a>) -> Result<(Wire<'a>, Ticket), AllocError>
    requires { IsGame (setup_game setup.now) }
    ensures { IfOk result (λ r.
        IsLaid setup.now r.0.shared.table_id r.0.shared.key r.1.table_id r.1.me) }
{
    let words = no_puts(alloc)?;
    Table::of_words(alloc, words.as_slice(), setup)
}

fn no_puts(alloc: Global) -> Result<Vec<u64>, AllocError>
    ensures { IfOk result (λ v. v.items ≡ replicate SLOTS 0) }
{
    vec![in alloc; 0; MOST_SLOTS]
}

// The seat of each starter, in order.
fn hand_out_all<'a>(
    alloc: Global,
    bench: &Bench<'a>,
    plan: &'a Plan,
    ticket: &mut Ticket,
) -> Result<Vec<Seat<'a>>, AllocError>
    requires plan { bench.now.plan ≡ Some plan.now }
    requires host { IsHanding bench.now 0 ticket.old.table_id ticket.old.me }
    ensures host { IfOk result (λ _. IsHanding bench.now (length bench.now.starters) ticket.new.table_id ticket.new.me) }
    ensures seats { IfOk result (λ r. r.items ≡ map (fresh bench.now) (range_with_len 0 (length bench.now.starters))) }
    ensures each { IfOk result (λ r. All (λ seat. seat.bench ≡ bench.now) r.items) }
{
    let count = bench.terms.starters.len();
    let mut seats = Vec::with_capacity(alloc, count)?;
    for number in 0..count {
        seats.push(hand_out(bench, plan, ticket, number as u32))?;
    }
    Ok(seats)
}

// The seat of this starter.
fn hand_out<'a>(bench: &Bench<'a>, plan: &'a Plan, ticket: &mut Ticket, number: u32) -> Seat<'a>
    requires plan { bench.now.plan ≡ Some plan.now }
    requires number { number < length bench.now.starters }
    requires host { IsHanding bench.now number ticket.old.table_id ticket.old.me }
    ensures host { IsHanding bench.now (number + 1) ticket.new.table_id ticket.new.me }
    ensures seat { result ≡ fresh bench.now number }
{
    let part = bench.wire.shared.split_seat::<HandsOut>(ticket);
    let starter = bench.terms.starters[number as usize];
    Seat {
        ticket: part,
        number,
        place: Place::start(plan.sends(starter)),
        own: None,
        slot: 0,
        live: bench.terms.starters.len() as u32,
        standing: Standing::Playing,
    }
}
