// Calls that take no memory, while every allocation is refused. What they need is made before. Those on the seats of a bench
// are in `seats`.

ghost use Rattle.std.specs.Prelude.{◌≡◌, All};

use crate::building::add_all;
use crate::scarcity::{be_there_again, refuse_all};
use crate::tasks::Task;
use capture_check::{Follower, Listener, Watch};
use cert_check::{Accepted, accept_plan, check_fault, check_pair};
use certificate::{Cert, CertText, Fault, read_cert};
use message_tree::{Address, Bit, Count, Frame, Item, Pattern};
use pair_queue::{Owner, SettleFault, Take, Thief, open_queue, settle};
use plan_core::{Builder, Participant, Plan, Sends};
use plan_text::read_plan;
use run_parts::{Input, RunError, Watched};
use std::alloc::{AllocError, Global};
use vcd_read::{Reader, VcdError};
use verdicts::{Faults, Table, faults, table};

/// The text of a plan for the calls that need none of another one.
pub const ITEMS: &str = "\
plan 1
message m read 1001000 1 stop else stop ;
controller a ;
interrupt t 0000001 ;
";

/// Whether the calls that need no other text take no memory, with a builder that has what this plan has.
pub fn are_others_quiet(alloc: Global, plan: &Plan) -> Result<bool, RunError> {
    Ok(are_bits_quiet(alloc) && is_builder_quiet(alloc, plan)? && is_queue_quiet(alloc)?)
}

// ---- plans

/// Whether the calls on a plan take no memory.
pub fn is_plan_quiet(alloc: Global, plan: &Plan) -> bool {
    let wanted = sum_of(plan);
    refuse_all(alloc);
    let found = sum_of(plan);
    !be_there_again(alloc) && found == wanted
}

// A number to which each call on a plan adds.
fn sum_of(plan: &Plan) -> u64 {
    let mut sum = 0u64;
    let items = plan.messages().max(plan.controllers());
    for k in 0..items.max(plan.interrupts()).max(plan.nevers()) {
        add_items(&mut sum, plan, k);
    }
    add(&mut sum, plan.find("a/m").unwrap_or(0) as usize);
    for i in 0..plan.pair_count().max(plan.participants()) {
        add_pairs(&mut sum, plan, i);
    }
    sum
}

// The message, the controller and so on with this number.
fn add_items(sum: &mut u64, plan: &Plan, k: u32) {
    if k < plan.messages() {
        add(sum, plan.message_name(k).as_str().len());
        add_message(sum, plan.message(k));
    }
    if k < plan.controllers() {
        add(sum, plan.controller_name(k).as_str().len());
        add(sum, plan.controller_messages(k).len());
    }
    if k < plan.interrupts() {
        add(sum, plan.interrupt_name(k).as_str().len());
        add(sum, usize::from(plan.interrupt_address(k)));
    }
    if k < plan.nevers() {
        let (a, b) = plan.never(k);
        add(sum, (a ^ b) as usize);
    }
}

fn add_message(sum: &mut u64, message: &Frame) {
    let nodes = message.nodes();
    add(sum, nodes as usize);
    add(sum, message.longest() as usize);
    add(sum, message.slots() as usize);
    add(sum, usize::from(message.room_left(nodes).is_some()));
}

// The pair with this number, and the participant, with whom it never starts.
fn add_pairs(sum: &mut u64, plan: &Plan, i: u32) {
    if i < plan.pair_count() {
        let (x, y) = plan.pair(i);
        add(sum, (x ^ y) as usize);
    }
    if i < plan.participants() {
        add(sum, sender(plan.participant(i)));
        add(sum, sent(plan.sends(i)));
        for j in 0..plan.participants() {
            add(sum, usize::from(plan.forbids(i, j)));
        }
    }
}

fn sender(participant: Participant) -> usize {
    match participant {
        Participant::Sending {
            controller,
            message,
        } => (controller ^ message) as usize,
        Participant::Interrupt(number) => number as usize,
    }
}

fn sent(sends: Sends<'_>) -> usize {
    match sends {
        Sends::Message(message) => message.longest() as usize,
        Sends::Interrupt(address) => usize::from(address.bit(0) == Bit::One),
    }
}

fn add(sum: &mut u64, number: usize) {
    *sum = sum.wrapping_mul(31).wrapping_add(number as u64);
}

// ---- tables

/// Whether the calls on a table of all pairs and on a list of faults take no memory.
pub fn is_table_quiet(alloc: Global, plan: &Plan) -> Result<bool, AllocError> {
    let table = table(alloc, plan)?;
    is_list_quiet(alloc, &table, faults(alloc, plan))
}

fn is_list_quiet(
    alloc: Global,
    table: &Table,
    faults: Result<Faults, AllocError>,
) -> Result<bool, AllocError> {
    let faults = faults?;
    let wanted = listed(table, &faults);
    refuse_all(alloc);
    let found = listed(table, &faults);
    Ok(!be_there_again(alloc) && found == wanted)
}

// A number to which each call on a table and on a list of faults adds.
fn listed(table: &Table, faults: &Faults) -> u64 {
    let mut sum = 0u64;
    add(&mut sum, table.verdicts().len());
    add(&mut sum, usize::from(table.is_safe()));
    add(&mut sum, usize::from(faults.is_safe()));
    for k in 0..faults.len() {
        let (pair, fault) = faults.get(k);
        add(&mut sum, pair as usize);
        add(&mut sum, fault.wire.len());
    }
    sum
}

// ---- certificates

/// Whether the calls on the proofs or the fault of a certificate take no memory, where both texts can be read.
pub fn is_cert_quiet(task: &Task<'_>) -> Option<bool> {
    match read_cert(task.alloc, task.second) {
        Ok(cert) => is_read_quiet(task, cert),
        Err(_) => None,
    }
}

fn is_read_quiet(task: &Task<'_>, cert: CertText) -> Option<bool> {
    match read_plan(task.alloc, task.first) {
        Ok(plan) => Some(are_both_quiet(task.alloc, plan, cert)),
        Err(_) => None,
    }
}

fn are_both_quiet(alloc: Global, plan: Plan, cert: CertText) -> bool {
    let wanted = judged(&plan, &cert);
    refuse_all(alloc);
    let found = judged(&plan, &cert);
    accept_and_drop(plan, proofs_of(&cert));
    drop(cert);
    !be_there_again(alloc) && found == wanted
}

// A number that says which proof proves which pair, or which pairs have the fault.
fn judged(plan: &Plan, cert: &CertText) -> u64 {
    let mut sum = 0u64;
    match cert {
        CertText::Proofs(proofs) => {
            for proof in proofs {
                add_proof(&mut sum, plan, proof);
            }
        }
        CertText::Flaw(_, fault) => add_fault(&mut sum, plan, fault),
    }
    sum
}

fn add_proof(sum: &mut u64, plan: &Plan, proof: &Cert) {
    for i in 0..plan.pair_count() {
        add(sum, usize::from(check_pair(plan, i, proof)));
    }
}

fn add_fault(sum: &mut u64, plan: &Plan, fault: &Fault) {
    for i in 0..plan.pair_count() {
        add(sum, usize::from(check_fault(plan, i, fault)));
    }
}

// None, where it has a fault: no plan with pairs is accepted so.
fn proofs_of(cert: &CertText) -> &[Cert] {
    match cert {
        CertText::Proofs(proofs) => proofs.as_slice(),
        CertText::Flaw(..) => &[],
    }
}

fn accept_and_drop(plan: Plan, proofs: &[Cert]) {
    match accept_plan(plan, proofs) {
        Ok(accepted) => hand_back(accepted),
        Err(_) => {}
    }
}

fn hand_back(accepted: Accepted) {
    let _ = accepted.plan().pair_count();
    let _ = accepted.into_plan();
}

// ---- dumps

/// Whether the calls on the samples of a dump take no memory. A reader that ends with its samples ends as another one from
/// which they were cleared.
pub fn is_reader_quiet(task: &Task<'_>) -> Result<bool, VcdError> {
    let whole = ended(task, false)?;
    let cleared = ended(task, true)?;
    Ok(whole.is_some() && whole == cleared)
}

// Whether a reader of the dump ends well, where its calls take no memory.
fn ended(task: &Task<'_>, clears: bool) -> Result<Option<bool>, VcdError> {
    let mut reader = Reader::new(task.alloc, task.one, task.other)?;
    let _ = reader.feed(task.second);
    Ok(ended_quietly(task.alloc, reader, task.second, clears))
}

fn ended_quietly(alloc: Global, mut reader: Reader, dump: &[u8], clears: bool) -> Option<bool> {
    let wanted = heard(&reader);
    refuse_all(alloc);
    let found = heard(&reader);
    if clears {
        reader.clear_samples();
    }
    let ends_well = reader.end().is_ok();
    let is_right = found == wanted && !has_failed(dump);
    if be_there_again(alloc) || !is_right {
        return None;
    }
    Some(ends_well)
}

// How many events the samples have.
fn heard(reader: &Reader) -> u64 {
    let mut watch = Watch::new();
    let mut events = 0u64;
    for sample in reader.samples() {
        if watch.next(sample).is_some() {
            events = events.saturating_add(1);
        }
    }
    events
}

// What has begun and was given nothing.
fn has_failed(dump: &[u8]) -> bool {
    let _ = Listener::new().end();
    let _ = Follower::new();
    Watched::new(dump).failed()
}

// ---- bits

fn are_bits_quiet(alloc: Global) -> bool {
    refuse_all(alloc);
    let are_right = are_splits_right() && are_counts_right() && are_kinds_right();
    !be_there_again(alloc) && are_right
}

fn are_splits_right() -> bool {
    Pattern::new(0xff, 0xf0).first_split(&Pattern::new(0xf0, 0xc0)) == Some(2)
        && Address::new(0x7f, 0x48).first_split(&Address::new(0x7f, 0x49)) == Some(6)
        && Pattern::new(0xff, 0x80).bit(0) != Address::new(0x3f, 0x7f).bit(0)
}

fn are_counts_right() -> bool {
    match (Count::between(2, 4), Count::new(3)) {
        (Some(range), Some(three)) => {
            range.least().max(range.greatest()) == 4
                && range.meets(&three)
                && Count::new(0).is_none()
        }
        _ => false,
    }
}

fn are_kinds_right() -> bool {
    let heard = Item::Heard(true);
    heard.symbol() == 'h'
        && heard.kind() == Item::Heard(false).kind()
        && !heard.kind().word().is_empty()
}

// ---- builders

// The questions to a builder that has what the plan has, and its end.
fn is_builder_quiet(alloc: Global, plan: &Plan) -> Result<bool, RunError> {
    let mut builder = Builder::new(alloc);
    let added = add_all(alloc, &mut builder, plan);
    refuse_all(alloc);
    let refusals = refusals(&builder, plan);
    let participants = participants_of(builder);
    let is_quiet = !be_there_again(alloc);
    added?;
    Ok(is_quiet && participants == 1 && refusals == [true, true, true, true, false, true, true])
}

fn participants_of(builder: Builder) -> u32 {
    builder.finish().participants()
}

fn refusals(builder: &Builder, plan: &Plan) -> [bool; 7] {
    if plan.messages() == 0 || plan.controllers() == 0 || plan.interrupts() == 0 {
        return [false; 7];
    }
    let (m, a) = (plan.message_name(0), plan.controller_name(0));
    [
        builder.message_name_refusal(m).is_some(),
        builder.controller_name_refusal(a).is_some(),
        builder.has_controller(a),
        builder.sending_refusal(&[], a).is_some(),
        builder.sending_refusal(&[], m).is_some(),
        builder.interrupt_refusal(plan.interrupt_name(0)).is_some(),
        builder.never_refusal(a, a).is_some(),
    ]
}

// ---- queues

// The owner takes a number, a thief the second; a number is left; the owner takes it and finds the end; the thief is
// missing; all are back.
fn is_queue_quiet(alloc: Global) -> Result<bool, AllocError> {
    let (owner, thieves) = open_queue(alloc, 3, 1)?;
    refuse_all(alloc);
    let is_right = is_settled_at_last(alloc, owner, thieves);
    Ok(!be_there_again(alloc) && is_right)
}

fn is_settled_at_last(alloc: Global, mut owner: Owner, mut thieves: Vec<Thief>) -> bool
    requires { All (λ thief. thief.queue ≡ owner.queue) thieves.items }
{
    let is_begun = owner.take() == Some(0)
        && thieves.len() == 1
        && asked(&mut thieves[0]) == Take::Pair(1);
    match settle(owner, thieves) {
        Ok(_) => false,
        Err(left) => {
            let is_left = left.why == SettleFault::Left;
            is_settled_with(alloc, left.owner, left.thieves) && is_left && is_begun
        }
    }
}

// Of the numbers one is left.
fn is_settled_with(alloc: Global, mut owner: Owner, thieves: Vec<Thief>) -> bool
    requires { All (λ thief. thief.queue ≡ owner.queue) thieves.items }
{
    let is_taken = owner.take() == Some(2) && owner.take().is_none() && owner.take().is_none();
    match settle(owner, Vec::new(alloc)) {
        Ok(_) => false,
        Err(missing) => {
            let is_missing = missing.why == SettleFault::Missing && missing.thieves.is_empty();
            settle(missing.owner, thieves).is_ok() && is_missing && is_taken
        }
    }
}

// How often a thief may answer that it is busy.
const MOST_ASKS: u32 = 1_000_000;

fn asked(thief: &mut Thief) -> Take
    ensures { thief.new.queue ≡ thief.old.queue }
{
    for _ in 0..MOST_ASKS {
        let answer = thief.take();
        if answer != Take::Busy {
            return answer;
        }
    }
    Take::Busy
}
