// What a check did not look at, in lines: messages that no controller lists, and pairs that `never` leaves out.

use bus_rows::{say, say_all};
use growing_text::{Lines, Part, Sentence};
use plan_core::Plan;
use plan_findings::unsent_in;
use plan_words::PlanWords;
use remedies::kept_apart;
use std::alloc::{AllocError, Global};

// How many messages are named, those of one family once.
const NAMED: usize = 10;

/// What is said below the last line of a check: that nothing was checked where there are no pairs, which messages nobody sends,
/// and how many pairs `never` leaves out.
///
/// # Errors
///
/// Where an allocation fails.
pub(crate) fn below_checked(alloc: Global, words: PlanWords<'_>) -> Result<String, AllocError> {
    let mut lines = Lines::new(alloc);
    if words.plan().pair_count() == 0 {
        say(
            &mut lines,
            "no two participants may start together, so nothing was checked",
            &[],
        );
    }
    tell_unsent(alloc, &mut lines, words)?;
    tell_apart(&mut lines, words);
    lines.finish()
}

// How many pairs of two controllers `never` leaves out, and of how many.
fn tell_apart(lines: &mut Lines, words: PlanWords<'_>) {
    let apart = kept_apart(words);
    if apart == 0 {
        return;
    }
    let pairs = apart.saturating_add(u64::from(words.plan().pair_count()));
    let parts = [
        Part::Number(apart),
        Part::Number(pairs),
        Part::Words(if pairs == 1 { "pair" } else { "pairs" }),
    ];
    let template = "not checked: {} of {} {}, which 'never' keeps apart";
    say(lines, template, &parts);
}

fn tell_unsent(alloc: Global, lines: &mut Lines, words: PlanWords<'_>) -> Result<(), AllocError> {
    let unsent = unsent_in(alloc, words.plan())?;
    if unsent.is_empty() {
        return Ok(());
    }
    let runs = runs_of(alloc, words, unsent.as_slice())?;
    let is_one = unsent.len() == 1;
    let parts = [
        Part::Number(unsent.len() as u64),
        Part::Words(if is_one { "message" } else { "messages" }),
    ];
    let template = "not checked: {} {} that no controller lists:";
    let mut said = Sentence::of(alloc, template, &parts);
    tell_runs(alloc, &mut said, words, runs.as_slice());
    say_all(lines, &said);
    Ok(())
}

fn tell_runs(alloc: Global, said: &mut Sentence, words: PlanWords<'_>, runs: &[Run]) {
    for (k, run) in runs.iter().take(NAMED).enumerate() {
        said.tell(if k == 0 { " " } else { ", " }, &[]);
        tell_run(alloc, said, words, *run);
    }
    if NAMED < runs.len() {
        let more = runs.len().saturating_sub(NAMED) as u64;
        said.tell(" and {} more", &[Part::Number(more)]);
    }
}

// Messages of a plan of one family: the first and the last one of them.
type Run = (u32, u32);

// These messages, those of one family together that follow one another.
fn runs_of(alloc: Global, words: PlanWords<'_>, messages: &[u32]) -> Result<Vec<Run>, AllocError> {
    let mut runs: Vec<Run> = Vec::new(alloc);
    let mut open: Option<Run> = None;
    for message in messages {
        open = match open {
            Some((first, last)) if are_of_one(words, last, *message) => Some((first, *message)),
            before => {
                push_run(&mut runs, before)?;
                Some((*message, *message))
            }
        };
    }
    push_run(&mut runs, open)?;
    Ok(runs)
}

fn push_run(runs: &mut Vec<Run>, run: Option<Run>) -> Result<(), AllocError> {
    if let Some(run) = run {
        runs.push(run)?;
    }
    Ok(())
}

fn are_of_one(words: PlanWords<'_>, last: u32, next: u32) -> bool {
    let family = words.family_of(last);
    family.is_some() && family == words.family_of(next) && last.saturating_add(1) == next
}

// Messages by the names of the first and the last one, and where they stand, if briefs have them.
fn tell_run(alloc: Global, said: &mut Sentence, words: PlanWords<'_>, run: Run) {
    let (first, last) = run;
    said.tell("{}", &[Part::Name(name_of(words.plan(), first))]);
    if first != last {
        said.tell(" to {}", &[Part::Name(name_of(words.plan(), last))]);
    }
    if let Some(place) = words.message_at(first) {
        match place.spelled(alloc) {
            Ok(place) => said.tell(" ({})", &[Part::Name(place.as_str())]),
            Err(_) => said.cut(),
        }
    }
}

fn name_of(plan: &Plan, message: u32) -> &str {
    if message < plan.messages() {
        plan.message_name(message).as_str()
    } else {
        ""
    }
}
