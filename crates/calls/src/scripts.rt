// A script for the seats of a bench: each line is a call on one seat, a few slots that all seats play, or the end.

use crate::scarcity::be_there_again;
use crate::sittings::Sitting;
use crate::tasks::Task;
use bench_run::filled;
use bus_bench::{FinishFault, MOST_SLOTS, Offered, Played, Put, PutError, Sight};
use growing_text::Text;
use message_tree::{Bit, Item};
use plan_core::Plan;
use std::alloc::Global;
use std::str;

/// Plays the script of a task on a bench of the plan, and writes each of its lines with its answer. The word of the task has
/// the labels of those who started, which commas part.
pub fn play_script(task: &Task<'_>, plan: &Plan, sitting: Sitting<'_>, page: &mut Text) {
    let mut sitting = Some(sitting);
    let script = str::from_utf8(task.second).unwrap_or("");
    for line in script.split('\n') {
        if !line.is_empty() {
            page.push(line);
            page.push(" -> ");
            answer(task, plan, &mut sitting, line, page);
            page.push("\n");
        }
    }
}

// The seats sit at the bench until it is finished.
fn answer(
    task: &Task<'_>,
    plan: &Plan,
    sitting: &mut Option<Sitting<'_>>,
    line: &str,
    page: &mut Text,
) {
    let (word, rest) = line.split_once(' ').unwrap_or((line, ""));
    match sitting {
        Some(seated) if word == "finish" => {
            let count = put_in_order(seated, task.one, rest);
            finish(task, plan, sitting, count, page);
        }
        Some(seated) if word == "play" => play(seated, rest, page),
        Some(seated) => match number_of(task.one, word) {
            Some(number) => answer_of(task, seated, number, rest, page),
            None => page.push("no such line"),
        },
        None => page.push("no bench"),
    }
}

// ---- the end

// Puts the seats of these starters first, in this order, and says how many they are: all, where none is named.
fn put_in_order(sitting: &mut Sitting<'_>, starters: &str, seats: &str) -> usize {
    if seats.is_empty() {
        return sitting.len();
    }
    let mut count = 0usize;
    for label in seats.split(',') {
        if let Some(number) = number_of(starters, label) {
            sitting.bring(number, count);
            count = count.saturating_add(1);
        }
    }
    count
}

// The number among the starters of the one with this label.
fn number_of(starters: &str, label: &str) -> Option<usize> {
    let mut number = 0usize;
    for starter in starters.split(',') {
        if starter == label {
            return Some(number);
        }
        number = number.saturating_add(1);
    }
    None
}

// Gives the first so many seats back. All is handed back where an allocation fails, and given back once more when there
// is memory.
fn finish(
    task: &Task<'_>,
    plan: &Plan,
    sitting: &mut Option<Sitting<'_>>,
    count: usize,
    page: &mut Text,
) {
    match ended(task.alloc, sitting, count) {
        Err(FinishFault::NoMemory) => {
            be_there_again(task.alloc);
            push_end(task, plan, ended(task.alloc, sitting, count), page);
        }
        end => push_end(task, plan, end, page),
    }
}

fn ended(
    alloc: Global,
    sitting: &mut Option<Sitting<'_>>,
    count: usize,
) -> Result<Played, FinishFault> {
    let Some(seated) = sitting.take() else {
        return Err(FinishFault::NoMemory);
    };
    let (end, left) = seated.end(alloc, count);
    *sitting = left;
    end
}

fn push_end(task: &Task<'_>, plan: &Plan, end: Result<Played, FinishFault>, page: &mut Text) {
    match end {
        Ok(played) => push_played(task, plan, &played, page),
        Err(FinishFault::Missing) => page.push("missing"),
        Err(FinishFault::NotEnded) => page.push("not ended"),
        Err(FinishFault::NoMemory) => page.cut(),
    }
}

// The wire, and the labels of those who were live at its end.
fn push_played(task: &Task<'_>, plan: &Plan, played: &Played, page: &mut Text) {
    page.push("wire ");
    for item in &played.wire {
        page.push_char(item.symbol());
    }
    page.push(", won");
    for winner in &played.won {
        push_label(task, plan, *winner, page);
    }
}

fn push_label(task: &Task<'_>, plan: &Plan, winner: u32, page: &mut Text) {
    if winner < plan.participants() {
        page.push(" ");
        page.push_made(plan.label(task.alloc, winner));
    }
}

// ---- slots

// Plays so many slots, or as many as there are: `on with FILL`, or `N slots with FILL`. For open bits each starter sends its
// character of these, the first one again after the last.
fn play(sitting: &mut Sitting<'_>, rest: &str, page: &mut Text) {
    let (how, fill) = rest.split_once(" with ").unwrap_or(("", ""));
    match slots_of(how) {
        Some(slots) => push_slots(sitting, slots, fill, page),
        None => page.push("no such line"),
    }
}

fn slots_of(how: &str) -> Option<u32> {
    if how == "on" {
        return Some(MOST_SLOTS as u32);
    }
    match how.split_once(' ') {
        Some((count, _)) => count.parse().ok(),
        None => None,
    }
}

// Plays so many slots, but none in which nobody sees anything, and writes what was seen in each.
fn push_slots(sitting: &mut Sitting<'_>, slots: u32, fill: &str, page: &mut Text) {
    for slot in 0..slots {
        put_all(sitting, fill);
        match see_all(sitting) {
            Some(item) => page.push_char(item.symbol()),
            None if slot == 0 => return page.push("nothing"),
            None => return,
        }
    }
}

// Each seat puts what it may, where it has not.
pub fn put_all(sitting: &mut Sitting<'_>, fill: &str) {
    for seat in 0..sitting.len() {
        if let Some(put) = filled(sitting.offered(seat), bit_of(seat, fill)) {
            let _ = sitting.put(seat, put);
        }
    }
}

fn bit_of(seat: usize, fill: &str) -> bool {
    let place = seat.checked_rem(fill.len()).unwrap_or(0);
    fill.as_bytes().get(place) == Some(&b'1')
}

// Each seat looks. What the first of them that sees something sees.
pub fn see_all(sitting: &mut Sitting<'_>) -> Option<Item> {
    let mut seen = None;
    for seat in 0..sitting.len() {
        if let Sight::On(item) | Sight::Lost(item) = sitting.see(seat)
            && seen.is_none()
        {
            seen = Some(item);
        }
    }
    seen
}

// ---- one seat

// What the seat of the starter with this number answers.
fn answer_of(
    task: &Task<'_>,
    sitting: &mut Sitting<'_>,
    number: usize,
    rest: &str,
    page: &mut Text,
) {
    let (verb, word) = rest.split_once(' ').unwrap_or((rest, ""));
    match (verb, put_of(word)) {
        ("offers", None) => page.push(offered_word(sitting.offered(number))),
        ("puts", Some(put)) => push_put(task, sitting.put(number, put), page),
        ("sees", None) => push_sight(sitting.see(number), page),
        _ => page.push("no such line"),
    }
}

fn put_of(word: &str) -> Option<Put> {
    match word {
        "0" => Some(Put::Drive(false)),
        "1" => Some(Put::Drive(true)),
        "listen" => Some(Put::Listen),
        "again" => Some(Put::Again),
        "stop" => Some(Put::Stop),
        "claim" => Some(Put::Claim),
        _ => None,
    }
}

fn offered_word(offered: Offered) -> &'static str {
    match offered {
        Offered::Bit(Bit::Zero) => "0",
        Offered::Bit(Bit::One) => "1",
        Offered::Bit(Bit::Either) => "0 or 1",
        Offered::Listen => "listen",
        Offered::Again => "again",
        Offered::Stop => "stop",
        Offered::Claim => "claim",
        Offered::Nothing => "nothing",
    }
}

fn push_put(task: &Task<'_>, put: Result<(), PutError>, page: &mut Text) {
    match put {
        Ok(()) => page.push("ok"),
        Err(error) => page.push_made(format!(in task.alloc; "refused {error}")),
    }
}

fn push_sight(sight: Sight, page: &mut Text) {
    match sight {
        Sight::NotPut => page.push("not put"),
        Sight::Waiting => page.push("waiting"),
        Sight::On(item) => page.push_char(item.symbol()),
        Sight::Lost(item) => {
            page.push("lost, ");
            page.push_char(item.symbol());
        }
        Sight::Ended => page.push("ended"),
    }
}
