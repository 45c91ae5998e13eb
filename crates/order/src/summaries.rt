// The lines of a summary: how the pairs of each two sides end, who never wins against whom, and who always waits. Each begins
// with four spaces, and one that would be too long is broken between words.

use crate::scores::{Score, Scores};
use growing_text::{Lines, Part, Sentence};
use std::alloc::{AllocError, Global};

// What stands before the space of the first word of a line.
const MARGIN: &str = "   ";

// How many participants are named.
const NAMED: usize = 8;

/// What the sides and the participants of a plan are called, by their numbers.
#[derive(Clone, Copy)]
pub struct Called<'a> {
    pub sides: &'a [String],
    pub participants: &'a [String],
}

impl<'a> Called<'a> {
    fn side(self, number: usize) -> &'a str {
        name_at(self.sides, number)
    }

    fn participant(self, p: usize) -> &'a str {
        name_at(self.participants, p)
    }
}

fn name_at(names: &[String], number: usize) -> &str {
    match names.get(number) {
        Some(name) => name.as_str(),
        None => "",
    }
}

/// The lines of a summary of these scores.
///
/// # Errors
///
/// Where an allocation fails.
pub fn order_summary(
    alloc: Global,
    scores: &Scores,
    called: Called<'_>,
) -> Result<String, AllocError> {
    let mut lines = Lines::new(alloc);
    let mut pairs = 0u32;
    for one in 0..scores.sides() {
        for other in one.saturating_add(1)..scores.sides() {
            let score = scores.between(one, other);
            if score.pairs() != 0 {
                pairs = pairs.saturating_add(score.pairs());
                tell_two(alloc, &mut lines, called, (one, other), score);
                tell_losers(alloc, &mut lines, scores, called, (one, other), score)?;
                let score = score.exchanged();
                tell_losers(alloc, &mut lines, scores, called, (other, one), score)?;
            }
        }
    }
    tell_waiting(alloc, &mut lines, scores, called)?;
    let last = if pairs == 0 { NO_PAIR } else { NO_FREQUENCY };
    say(&mut lines, &Sentence::of(alloc, last, &[]));
    lines.finish()
}

const NO_PAIR: &str = "no two participants may start together";

const NO_FREQUENCY: &str =
    "'wins' counts pairs, and is no frequency: how often two start together is not known";

fn say(lines: &mut Lines, sentence: &Sentence) {
    lines.begin(MARGIN, MARGIN);
    lines.sentence(sentence);
    lines.end();
}

// ---- two sides

// How many pairs two sides have, and how these end for the first.
fn tell_two(
    alloc: Global,
    lines: &mut Lines,
    called: Called<'_>,
    two: (usize, usize),
    score: Score,
) {
    let (one, other) = (called.side(two.0), called.side(two.1));
    let pairs = u64::from(score.pairs());
    let mut said = Sentence::of(
        alloc,
        "{} × {}: {} {}",
        &[
            Part::Name(one),
            Part::Name(other),
            Part::Number(pairs),
            Part::Words(if pairs == 1 { "pair" } else { "pairs" }),
        ],
    );
    let next = tell_part(&mut said, "; ", "{} wins {}", one, score.wins);
    let next = tell_part(&mut said, next, "{} wins {}", other, score.loses);
    let next = tell_part(&mut said, next, "{} may win {}", "either", score.may_win);
    let next = tell_part(
        &mut said,
        next,
        "{} always end together {}",
        "both",
        score.alike,
    );
    tell_part(&mut said, next, "{} {}", "unsafe", score.unsafe_pairs);
    say(lines, &said);
}

// Who does what in how many pairs, if in any, after what parts it from the words before. Answers that of the next part.
fn tell_part(
    said: &mut Sentence,
    before: &'static str,
    template: &'static str,
    who: &str,
    pairs: u32,
) -> &'static str {
    if pairs == 0 {
        return before;
    }
    said.tell(before, &[]);
    said.tell(template, &[Part::Name(who), Part::Number(u64::from(pairs))]);
    ", "
}

// ---- who never wins

// Who of the first side never wins against the second: the whole side, which has this score, or some of its participants.
fn tell_losers(
    alloc: Global,
    lines: &mut Lines,
    scores: &Scores,
    called: Called<'_>,
    two: (usize, usize),
    score: Score,
) -> Result<(), AllocError> {
    let (one, other) = (called.side(two.0), called.side(two.1));
    if score.never_wins() {
        let both = [Part::Name(one), Part::Name(other)];
        say(
            lines,
            &Sentence::of(alloc, "{} never wins against {}", &both),
        );
        return Ok(());
    }
    let losers = losers_of(alloc, scores, two)?;
    if !losers.is_empty() {
        let mut said = named(alloc, called, losers.as_slice());
        let win = if losers.len() == 1 { "wins" } else { "win" };
        said.tell(
            " never {} against {}",
            &[Part::Words(win), Part::Name(other)],
        );
        say(lines, &said);
    }
    Ok(())
}

// The participants of the first side that never win against the second.
fn losers_of(
    alloc: Global,
    scores: &Scores,
    two: (usize, usize),
) -> Result<Vec<usize>, AllocError> {
    let mut losers = Vec::new(alloc);
    for p in 0..scores.participants() {
        if scores.is_of(p, two.0) && scores.against(p, two.1).never_wins() {
            losers.push(p)?;
        }
    }
    Ok(losers)
}

// Who never wins at all.
fn tell_waiting(
    alloc: Global,
    lines: &mut Lines,
    scores: &Scores,
    called: Called<'_>,
) -> Result<(), AllocError> {
    let waiting = waiting_in(alloc, scores)?;
    if !waiting.is_empty() {
        let mut said = named(alloc, called, waiting.as_slice());
        let wait = if waiting.len() == 1 { "waits" } else { "wait" };
        said.tell(" {} in each pair that somebody wins", &[Part::Words(wait)]);
        say(lines, &said);
    }
    Ok(())
}

fn waiting_in(alloc: Global, scores: &Scores) -> Result<Vec<usize>, AllocError> {
    let mut waiting = Vec::new(alloc);
    for p in 0..scores.participants() {
        if scores.total(p).never_wins() {
            waiting.push(p)?;
        }
    }
    Ok(waiting)
}

// The first of these participants, and how many more there are.
fn named(alloc: Global, called: Called<'_>, who: &[usize]) -> Sentence {
    let mut said = Sentence::new(alloc);
    for (k, p) in who.iter().take(NAMED).enumerate() {
        let template = if k == 0 { "{}" } else { ", {}" };
        said.tell(template, &[Part::Name(called.participant(*p))]);
    }
    if NAMED < who.len() {
        let more = who.len().saturating_sub(NAMED) as u64;
        said.tell(" and {} more", &[Part::Number(more)]);
    }
    said
}
