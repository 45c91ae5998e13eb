// Objects of what is offered to mend unsafe pairs.

use edits::Edit;
use growing_text::Text;
use object_lines::ObjectLines;
use offers::{Offer, Offers, Shown, Together};
use plan_words::PlanWords;
use std::alloc::{AllocError, Global};
use std::str;

/// Adds the field with what is offered for the group with this number: the offers that are shown, and how many more there are. A group
/// that is not explained has the field where an offer is shown.
pub(crate) fn add_offers(
    lines: &mut ObjectLines,
    words: PlanWords<'_>,
    texts: &[Vec<u8>],
    offers: &Offers,
    g: usize,
    shown: Shown,
) {
    let all = offers.of(g);
    let count = all
        .iter()
        .filter(|offer| offers.shows(offer, shown))
        .count();
    if !shown.explains(g) && count == 0 {
        return;
    }
    lines.open("explain");
    lines.open_list("offers");
    for offer in all {
        if offers.shows(offer, shown) {
            add_offer(lines, words, texts, offer);
        }
    }
    lines.close_list();
    if count < all.len() {
        lines.number("more", all.len().saturating_sub(count) as u64);
    }
    lines.close();
}

fn add_offer(lines: &mut ObjectLines, words: PlanWords<'_>, texts: &[Vec<u8>], offer: &Offer) {
    lines.open_element();
    add_number(lines, offer);
    lines.word("kind", offer.proposal.change.kind());
    lines.field("mends", &offer.groups.as_slice());
    lines.number("pairs", offer.pairs as u64);
    lines.number("unchecked", u64::from(offer.outcome.price));
    lines.open_list("edits");
    for edit in offer.proposal.edits.iter() {
        add_edit(lines, words, texts, edit);
    }
    lines.close_list();
    lines.close();
}

fn add_number(lines: &mut ObjectLines, offer: &Offer) {
    match number_of(lines.alloc, offer) {
        Ok(number) => lines.word("offer", number.as_str()),
        Err(_) => lines.cut(),
    }
}

// The number of a group, and that of the offer in it.
fn number_of(alloc: Global, offer: &Offer) -> Result<String, AllocError> {
    let mut text = Text::new(alloc);
    text.push_number(offer.group as u64);
    text.push(".");
    text.push_number(offer.number as u64);
    text.finish()
}

// What is replaced where, and by what.
fn add_edit(lines: &mut ObjectLines, words: PlanWords<'_>, texts: &[Vec<u8>], edit: &Edit) {
    let text = match texts.get(edit.span.file as usize) {
        Some(text) => text.as_slice(),
        None => &[],
    };
    let before = text.get(..edit.span.start).unwrap_or(&[]);
    let removed = text.get(edit.span.start..edit.span.end).unwrap_or(&[]);
    lines.open_element();
    lines.field("file", &words.files().of(edit.span.file).unwrap_or(""));
    lines.number("line", line_after(before));
    lines.number("column", column_after(before));
    lines.field("removes", &str::from_utf8(removed).unwrap_or(""));
    lines.field("puts", &edit.text.as_str());
    lines.close();
}

fn line_after(before: &[u8]) -> u64 {
    let mut line = 1u64;
    for byte in before {
        if *byte == b'\n' {
            line = line.saturating_add(1);
        }
    }
    line
}

fn column_after(before: &[u8]) -> u64 {
    let mut column = 1u64;
    for byte in before {
        column = if *byte == b'\n' {
            1
        } else {
            column.saturating_add(1)
        };
    }
    column
}

/// Adds the offers that mend all, or most, and what a check says of the plan with them.
pub(crate) fn add_list(lines: &mut ObjectLines, offers: &Offers) {
    let Together {
        places,
        outcome,
        ..
    } = &offers.together;
    lines.open_list("list");
    for place in places.iter() {
        if let Some(offer) = offers.all.get(*place) {
            match number_of(lines.alloc, offer) {
                Ok(number) => lines.word_element(number.as_str()),
                Err(_) => lines.cut(),
            }
        }
    }
    lines.close_list();
    if let Some(outcome) = outcome {
        lines.open("then");
        lines.number("pairs", u64::from(outcome.pairs));
        lines.number("unsafe_pairs", outcome.unsafe_pairs as u64);
        lines.close();
    }
    if offers.is_cut {
        lines.flag("untried", true);
    }
}
