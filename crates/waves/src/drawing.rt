// A wire, slot by slot: each takes ten microseconds, of which SCL is HIGH for five.

use crate::dump::{Dump, Shown};
use crate::rows::{Act, Row};
use message_tree::Item;
use places::Place;
use plan_core::Plan;
use std::alloc::{AllocError, Global};

// The signals: the two lines, what targets pull, what each participant does, and of a wire that leads to a fault its slot.
const SCL: usize = 0;

const SDA: usize = 1;

const TARGETS: usize = 2;

const ROWS: usize = 3;

// SDA falls at START, and then SCL; the first slot begins after that.
const START: u64 = 10;

const CLOCK: u64 = 15;

const FIRST_SLOT: u64 = 16;

// A slot, and what comes in it: SCL rises, SDA moves for a repeated START, SCL falls or SDA rises for a STOP.
const SLOT: u64 = 10;

const RISE: u64 = 4;

const AGAIN: u64 = 6;

const FALL: u64 = 9;

/// The waves of a run: these participants start together, and the wire shows these items. For an open bit they send `fill`,
/// or else what the wire has. A wire that ends neither in a STOP nor in a claim is one that leads to a fault: one slot more
/// is drawn, in which what they do meets, SCL stays HIGH, and one more signal is HIGH. After a claim, a slot that nobody pulls
/// and a STOP are drawn, so that the waves have an end; what really follows an interrupt's header is not twire's to say.
pub(crate) fn wave_of(
    alloc: Global,
    plan: &Plan,
    participants: &[u32],
    wire: &[Item],
    fill: Option<bool>,
) -> Result<String, AllocError> {
    let mut rows = rows_of(alloc, plan, participants)?;
    let mut dump = dump_of(alloc, plan, participants, is_of_fault(wire));
    let end = push_run(&mut dump, rows.as_mut_slice(), wire, fill);
    dump.finish(end)
}

// The participants, before the first slot.
fn rows_of<'a>(
    alloc: Global,
    plan: &'a Plan,
    participants: &[u32],
) -> Result<Vec<Row<'a>>, AllocError> {
    let mut rows = Vec::new(alloc);
    for p in participants {
        if *p < plan.participants() {
            rows.push(Row::new(Place::start(plan.sends(*p))))?;
        }
    }
    Ok(rows)
}

fn is_of_fault(wire: &[Item]) -> bool {
    !matches!(wire.last(), Some(Item::Stop | Item::Claim))
}

// The definitions of the signals.
fn dump_of(alloc: Global, plan: &Plan, participants: &[u32], has_fault: bool) -> Dump {
    let mut dump = Dump::new(alloc);
    for name in ["scl", "sda", "targets"] {
        dump.define(name);
    }
    for p in participants {
        if *p < plan.participants() {
            dump.define_made(plan.label(alloc, *p));
        }
    }
    if has_fault {
        dump.define("fault");
    }
    dump.begin();
    dump
}

// The run from START on, and when its waves end.
fn push_run(dump: &mut Dump, rows: &mut [Row<'_>], wire: &[Item], fill: Option<bool>) -> u64 {
    push_start(dump, rows.len());
    let mut begin = FIRST_SLOT;
    for item in wire {
        push_slot(dump, rows, begin, fill, Some(*item));
        see(rows, fill, *item);
        begin = begin.saturating_add(SLOT);
    }
    push_end(dump, rows, begin, fill, wire)
}

fn see(rows: &mut [Row<'_>], fill: Option<bool>, item: Item) {
    for row in rows.iter_mut() {
        row.see(fill, item);
    }
}

// A free bus, no fault, and START by all of them together.
fn push_start(dump: &mut Dump, rows: usize) {
    dump.at(0);
    dump.show(SCL, Shown::High);
    dump.show(SDA, Shown::High);
    dump.show(TARGETS, Shown::High);
    show_all(dump, rows, Shown::High);
    dump.show(ROWS.saturating_add(rows), Shown::Low);
    dump.at(START);
    show_all(dump, rows, Shown::Low);
    dump.show(SDA, Shown::Low);
    dump.at(CLOCK);
    dump.show(SCL, Shown::Low);
}

fn show_all(dump: &mut Dump, rows: usize, shown: Shown) {
    for k in 0..rows {
        dump.show(ROWS.saturating_add(k), shown);
    }
}

// One slot, with its item, where it has one.
fn push_slot(
    dump: &mut Dump,
    rows: &[Row<'_>],
    begin: u64,
    fill: Option<bool>,
    item: Option<Item>,
) {
    dump.at(begin);
    let answers = item == Some(Item::Heard(false));
    dump.show(TARGETS, low_where(answers));
    let is_pulled = show_pulls(dump, rows, fill, item);
    dump.show(SDA, low_where(answers || is_pulled));
    dump.at(begin.saturating_add(RISE));
    dump.show(SCL, Shown::High);
    dump.at(begin.saturating_add(AGAIN));
    show_acts(dump, rows, fill, item, Act::Again, Shown::Low);
    if item == Some(Item::Again) || item.is_none() && does(rows, fill, Act::Again) {
        dump.show(SDA, Shown::Low);
    }
    push_last_move(dump, rows, begin, fill, item);
}

fn low_where(is_low: bool) -> Shown {
    if is_low { Shown::Low } else { Shown::High }
}

// Whether one of them does this in the slot of a fault.
fn does(rows: &[Row<'_>], fill: Option<bool>, act: Act) -> bool {
    rows.iter().any(|row| row.act(fill, None) == act)
}

// What participants pull, and whether one does.
fn show_pulls(dump: &mut Dump, rows: &[Row<'_>], fill: Option<bool>, item: Option<Item>) -> bool {
    let mut is_pulled = false;
    for (k, row) in rows.iter().enumerate() {
        let pulls = matches!(row.act(fill, item), Act::Pull | Act::Stop);
        is_pulled = is_pulled || pulls;
        dump.show(ROWS.saturating_add(k), low_where(pulls));
    }
    is_pulled
}

// Those who do this in the slot show this.
fn show_acts(
    dump: &mut Dump,
    rows: &[Row<'_>],
    fill: Option<bool>,
    item: Option<Item>,
    act: Act,
    shown: Shown,
) {
    for (k, row) in rows.iter().enumerate() {
        if row.act(fill, item) == act {
            dump.show(ROWS.saturating_add(k), shown);
        }
    }
}

// The end of a slot: who stops lets SDA go, and else SCL falls.
fn push_last_move(
    dump: &mut Dump,
    rows: &[Row<'_>],
    begin: u64,
    fill: Option<bool>,
    item: Option<Item>,
) {
    dump.at(begin.saturating_add(FALL));
    show_acts(dump, rows, fill, item, Act::Stop, Shown::High);
    match item {
        None => {
            let is_pulled = does(rows, fill, Act::Pull) || does(rows, fill, Act::Again);
            dump.show(SDA, low_where(is_pulled));
        }
        Some(Item::Stop) => dump.show(SDA, Shown::High),
        Some(_) => dump.show(SCL, Shown::Low),
    }
}

// The STOP that is drawn after a claim.
fn push_stop(dump: &mut Dump, rows: &[Row<'_>], begin: u64) {
    dump.at(begin);
    show_live(dump, rows, Shown::Low);
    dump.show(SDA, Shown::Low);
    dump.at(begin.saturating_add(RISE));
    dump.show(SCL, Shown::High);
    dump.at(begin.saturating_add(FALL));
    show_live(dump, rows, Shown::High);
    dump.show(SDA, Shown::High);
}

fn show_live(dump: &mut Dump, rows: &[Row<'_>], shown: Shown) {
    for (k, row) in rows.iter().enumerate() {
        if row.is_live() {
            dump.show(ROWS.saturating_add(k), shown);
        }
    }
}

// What is drawn after the last item of the wire, and when the waves end.
fn push_end(
    dump: &mut Dump,
    rows: &[Row<'_>],
    begin: u64,
    fill: Option<bool>,
    wire: &[Item],
) -> u64 {
    if is_of_fault(wire) {
        push_fault(dump, rows, begin, fill);
    } else if wire.last() == Some(&Item::Claim) {
        push_stop(dump, rows, begin);
    }
    begin.saturating_add(SLOT).saturating_add(SLOT)
}

// The slot of a fault, with the signal that marks it.
fn push_fault(dump: &mut Dump, rows: &[Row<'_>], begin: u64, fill: Option<bool>) {
    let fault = ROWS.saturating_add(rows.len());
    dump.at(begin);
    dump.show(fault, Shown::High);
    push_slot(dump, rows, begin, fill, None);
    dump.at(begin.saturating_add(SLOT));
    dump.show(fault, Shown::Low);
}
