// What is offered to mend unsafe pairs, in words.

use crate::found::{Offer, Offers};
use crate::proposals::Change;
use crate::tries::Outcome;
use edits::{ChangedLine, EditedItem, Place};
use growing_text::{Part, Sentence, Text};
use plan_words::PlanWords;
use std::alloc::{AllocError, Global};

// How many items, groups and places are named.
const NAMED: usize = 6;

// How many offers of a group are shown, besides those of the list for all.
const SHOWN: usize = 4;

// How many changed lines are shown of an offer.
const LINES: usize = 4;

/// What is offered, in words, and lines of the texts as they would stand.
#[derive(Drop)]
pub struct Advice {
    pub said: Sentence,
    /// Each as it stands in its text, but for blanks around it.
    pub lines: Vec<String>,
}

/// Which offers are shown.
#[derive(Clone, Copy)]
pub enum Shown {
    /// The first four of each of the first so many groups, which are explained, and all of the list for all.
    Explained(usize),
    /// All.
    All,
}

impl Shown {
    /// Whether the group with this number is explained.
    pub fn explains(self, g: usize) -> bool {
        match self {
            Shown::Explained(groups) => g < groups,
            Shown::All => true,
        }
    }
}

impl Offers {
    /// Whether an offer is shown where these are.
    pub fn shows(&self, offer: &Offer, shown: Shown) -> bool {
        match shown {
            Shown::Explained(groups) => {
                offer.group < groups && offer.number <= SHOWN || self.lists(offer)
            }
            Shown::All => true,
        }
    }

    // Whether an offer is one of the list for all.
    fn lists(&self, offer: &Offer) -> bool {
        for place in self.together.places.iter() {
            if let Some(listed) = self.all.get(*place) {
                if listed.group == offer.group && listed.number == offer.number {
                    return true;
                }
            }
        }
        false
    }
}

/// What is offered to mend the group with this number, which is explained: the offers that are shown, and how many more there are.
///
/// # Errors
///
/// Where an allocation fails.
pub fn advice_for_group(
    alloc: Global,
    words: PlanWords<'_>,
    offers: &Offers,
    g: usize,
    shown: Shown,
) -> Result<Vec<Advice>, AllocError> {
    let mut advice = Vec::new(alloc);
    let all = offers.of(g);
    for offer in all {
        if offers.shows(offer, shown) {
            advice.push(advice_of(alloc, words, offer)?)?;
        }
    }
    let more = all.len().saturating_sub(advice.len());
    if all.is_empty() {
        advice.push(spoken(alloc, "no edit was found that mends it", &[]))?;
    } else if more != 0 {
        let parts = [
            Part::Number(more as u64),
            Part::Words(one_or_many(more, "offer", "offers")),
        ];
        advice.push(spoken(alloc, "and {} more {}", &parts))?;
    }
    Ok(advice)
}

/// What is offered to mend all groups, and what a check then says. The offers of the list for all follow that are for groups which are
/// not explained.
///
/// # Errors
///
/// Where an allocation fails.
pub fn advice_for_all(
    alloc: Global,
    words: PlanWords<'_>,
    offers: &Offers,
    shown: Shown,
) -> Result<Vec<Advice>, AllocError> {
    let mut advice = Vec::new(alloc);
    if offers.together.places.is_empty() {
        advice.push(spoken(alloc, "no edit was found that mends a group", &[]))?;
    } else {
        advice.push(Advice {
            said: together(alloc, words, offers),
            lines: Vec::new(alloc),
        })?;
    }
    for place in offers.together.places.iter() {
        match offers.all.get(*place) {
            Some(offer) if !shown.explains(offer.group) => {
                advice.push(advice_of(alloc, words, offer)?)?;
            }
            _ => {}
        }
    }
    if offers.is_cut {
        let template = "not all edits were tried: the plan is too large for that";
        advice.push(spoken(alloc, template, &[]))?;
    }
    Ok(advice)
}

// Words alone.
fn spoken(alloc: Global, template: &'static str, parts: &[Part<'_>]) -> Advice {
    Advice {
        said: Sentence::of(alloc, template, parts),
        lines: Vec::new(alloc),
    }
}

// ---- an offer

fn advice_of(alloc: Global, words: PlanWords<'_>, offer: &Offer) -> Result<Advice, AllocError> {
    let mut said = Sentence::new(alloc);
    tell_number(&mut said, "{}.{} ", offer);
    tell_change(&mut said, words, offer);
    tell_places(&mut said, words, offer.lines.as_slice());
    if 1 < offer.groups.len() {
        tell_groups(&mut said, offer);
    }
    Ok(Advice {
        said,
        lines: lines_of(alloc, offer.lines.as_slice())?,
    })
}

// The number of its group, and its own.
fn tell_number(said: &mut Sentence, template: &'static str, offer: &Offer) {
    let parts = [
        Part::Number(offer.group as u64),
        Part::Number(offer.number as u64),
    ];
    said.tell(template, &parts);
}

fn tell_change(said: &mut Sentence, words: PlanWords<'_>, offer: &Offer) {
    let items = offer.proposal.items.as_slice();
    match offer.proposal.change {
        Change::Count { .. } => tell_gone(said, "read", items),
        Change::Known { place, bit, value } => tell_known(said, items, place, (bit, value)),
        Change::Bit { place, bit, firsts } => tell_bit(said, items, place, (bit, firsts)),
        Change::Read => tell_read(said, items),
        Change::Pointer => tell_pointer(said, items),
        Change::Address => tell_address(said, items),
        Change::Length { bytes } => tell_length(said, items, bytes),
        Change::Never => tell_price(said, words, offer),
    }
}

// `let 'a', 'b' never read 3 to 34 bytes, 'c' never read 1 byte`: what is no longer done, of items that follow one another once.
fn tell_gone(said: &mut Sentence, verb: &'static str, items: &[EditedItem]) {
    said.tell("let ", &[]);
    let named = items.get(..NAMED).unwrap_or(items);
    for (k, item) in named.iter().enumerate() {
        tell_name(said, k, item);
        let goes_on = match named.get(k.saturating_add(1)) {
            Some(next) => next.gone.as_str() == item.gone.as_str(),
            None => false,
        };
        if !goes_on {
            said.tell(" never {} ", &[Part::Words(verb)]);
            said.say(item.gone.as_str());
        }
    }
    tell_more(said, items.len());
}

fn tell_known(said: &mut Sentence, items: &[EditedItem], place: Place, bit: (u32, bool)) {
    tell_gone(said, "send", items);
    tell_byte(said, " in", place);
    let parts = [
        Part::Number(u64::from(bit.0)),
        Part::Number(u64::from(bit.1)),
    ];
    said.tell(
        " (bit {} is then {}, which the other side never sends)",
        &parts,
    );
}

// The bit, and how many of the items are of the first side.
fn tell_bit(said: &mut Sentence, items: &[EditedItem], place: Place, bit: (u32, usize)) {
    said.tell("let bit {} of", &[Part::Number(u64::from(bit.0))]);
    tell_byte(said, "", place);
    said.tell(" be 0 in ", &[]);
    tell_names(said, items.get(..bit.1).unwrap_or(items));
    said.tell(" and 1 in ", &[]);
    tell_names(said, items.get(bit.1..).unwrap_or(&[]));
}

fn tell_read(said: &mut Sentence, items: &[EditedItem]) {
    said.tell("let ", &[]);
    tell_names(said, items);
    let each = Part::Words(one_or_many(items.len(), "one byte", "one byte each"));
    said.tell(" read {}, in place of a header alone", &[each]);
}

fn tell_pointer(said: &mut Sentence, items: &[EditedItem]) {
    said.tell("leave out what ", &[]);
    tell_names(said, items);
    let before = one_or_many(
        items.len(),
        "writes before it reads",
        "write before they read",
    );
    said.tell(
        " {}, if the device keeps its register pointer (others may have moved it)",
        &[Part::Words(before)],
    );
}

fn tell_address(said: &mut Sentence, items: &[EditedItem]) {
    let (whom, what) = if items.len() == 1 {
        ("interrupt", "an address")
    } else {
        ("interrupts", "addresses")
    };
    said.tell("give the {} ", &[Part::Words(whom)]);
    tell_names(said, items);
    said.tell(" {} that nothing else has", &[Part::Words(what)]);
}

fn tell_length(said: &mut Sentence, items: &[EditedItem], bytes: u32) {
    said.tell("let ", &[]);
    tell_names(said, items);
    let parts = [
        Part::Number(u64::from(bytes)),
        Part::Words(one_or_many(bytes as usize, "byte", "bytes")),
    ];
    said.tell(" send {} {} more, as many as the other side", &parts);
}

// ` data byte 1`, ` the address`, and which repeated START comes before it, where one does.
fn tell_byte(said: &mut Sentence, before: &'static str, place: Place) {
    said.tell(before, &[]);
    match place.byte {
        Some(byte) => {
            let byte = Part::Number(u64::from(byte).saturating_add(1));
            said.tell(" data byte {}", &[byte]);
        }
        None => said.tell(" the address", &[]),
    }
    if place.frame != 0 {
        let frame = Part::Number(u64::from(place.frame));
        said.tell(" after repeated START {}", &[frame]);
    }
}

// `'a', 'b'`: the names of items.
fn tell_names(said: &mut Sentence, items: &[EditedItem]) {
    for (k, item) in items.iter().take(NAMED).enumerate() {
        tell_name(said, k, item);
    }
    tell_more(said, items.len());
}

// The name of an item, after a comma where it is not the first. Quotes part it from the words of the sentence.
fn tell_name(said: &mut Sentence, before: usize, item: &EditedItem) {
    let template = if before == 0 { "'{}'" } else { ", '{}'" };
    said.tell(template, &[Part::Name(item.name.as_str())]);
}

fn tell_more(said: &mut Sentence, all: usize) {
    if NAMED < all {
        let more = all.saturating_sub(NAMED) as u64;
        said.tell(" and {} more", &[Part::Number(more)]);
    }
}

fn one_or_many(number: usize, one: &'static str, many: &'static str) -> &'static str {
    if number == 1 { one } else { many }
}

// How many pairs the items leave out, and whether that is much.
fn tell_price(said: &mut Sentence, words: PlanWords<'_>, offer: &Offer) {
    let pairs = words.plan().pair_count();
    let unchecked = pairs.saturating_sub(offer.outcome.pairs);
    let parts = [
        Part::Number(u64::from(unchecked)),
        Part::Number(u64::from(pairs)),
        Part::Words(one_or_many(pairs as usize, "pair", "pairs")),
        Part::Words(is_or_are(unchecked)),
    ];
    said.tell(
        "keep the two sides apart by a lock outside the bus: {} of {} {} {} then not checked",
        &parts,
    );
    if u64::from(pairs) < u64::from(unchecked).saturating_mul(2) {
        said.tell(", more than half", &[]);
    }
}

fn is_or_are(number: u32) -> &'static str {
    one_or_many(number as usize, "is", "are")
}

// Where the lines stand that change.
fn tell_places(said: &mut Sentence, words: PlanWords<'_>, lines: &[ChangedLine]) {
    for (k, line) in lines.iter().take(NAMED).enumerate() {
        let file = words.files().of(line.file).unwrap_or("");
        let parts = [Part::Name(file), Part::Number(line.line)];
        said.tell(if k == 0 { ": {}:{}" } else { ", {}:{}" }, &parts);
    }
    tell_more(said, lines.len());
}

// All groups that it mends, and how many pairs that is.
fn tell_groups(said: &mut Sentence, offer: &Offer) {
    said.tell(" (mends groups", &[]);
    for (k, g) in offer.groups.iter().take(NAMED).enumerate() {
        let template = if k == 0 { " {}" } else { ", {}" };
        said.tell(template, &[Part::Number(*g as u64)]);
    }
    tell_more(said, offer.groups.len());
    let parts = [
        Part::Number(offer.pairs as u64),
        Part::Number(offer.outcome.left.len() as u64),
    ];
    said.tell(": {} of {} unsafe pairs)", &parts);
}

// The lines as they would stand, and how many more there are.
fn lines_of(alloc: Global, lines: &[ChangedLine]) -> Result<Vec<String>, AllocError> {
    let mut shown = Vec::new(alloc);
    for line in lines.iter().take(LINES) {
        shown.push(String::from_str(alloc, line.text.as_str().trim())?)?;
    }
    if LINES < lines.len() {
        let mut text = Text::new(alloc);
        text.push("# and ");
        let more = lines.len().saturating_sub(LINES);
        text.push_number(more as u64);
        text.push(one_or_many(more, " line more", " lines more"));
        shown.push(text.finish()?)?;
    }
    Ok(shown)
}

// ---- all together

// The offers that mend all, or how many pairs they do, and what a check says with them.
fn together(alloc: Global, words: PlanWords<'_>, offers: &Offers) -> Sentence {
    let mut said = Sentence::new(alloc);
    if let Some(outcome) = &offers.together.outcome {
        tell_mended(&mut said, outcome);
        tell_list(&mut said, offers);
        tell_then(&mut said, words, outcome);
    }
    said
}

fn tell_mended(said: &mut Sentence, outcome: &Outcome) {
    let all = outcome.left.len();
    let left = outcome.left.iter().filter(|is_left| **is_left).count();
    if left == 0 {
        return said.tell("to mend all pairs:", &[]);
    }
    let parts = [
        Part::Number(all.saturating_sub(left) as u64),
        Part::Number(all as u64),
    ];
    said.tell("to mend {} of {} unsafe pairs:", &parts);
}

fn tell_list(said: &mut Sentence, offers: &Offers) {
    for (k, place) in offers.together.places.iter().enumerate() {
        if let Some(offer) = offers.all.get(*place) {
            tell_number(said, if k == 0 { " {}.{}" } else { ", {}.{}" }, offer);
        }
    }
}

fn tell_then(said: &mut Sentence, words: PlanWords<'_>, outcome: &Outcome) {
    let pairs = Part::Number(u64::from(outcome.pairs));
    if outcome.unsafe_pairs == 0 {
        said.tell("; then check says 'safe: {} pairs'", &[pairs]);
    } else {
        let left = Part::Number(outcome.unsafe_pairs as u64);
        said.tell("; then check says 'unsafe: {} of {} pairs'", &[left, pairs]);
    }
    let unchecked = words.plan().pair_count().saturating_sub(outcome.pairs);
    if unchecked != 0 {
        let parts = [
            Part::Number(u64::from(unchecked)),
            Part::Words(is_or_are(unchecked)),
        ];
        said.tell(" ({} {} not checked)", &parts);
    }
}
