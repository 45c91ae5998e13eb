// Objects of a check.

use crate::fields::add_words;
use crate::oddities::add_oddities;
use crate::offered::{add_list, add_offers};
use bus_rows::{Labels, Meeting, Rule, labels_of, meeting_of};
use causes::{Group, Place};
use certificate::Fault;
use growing_text::Text;
use lint::Oddity;
use object_lines::{ObjectLines, all_at};
use offers::{Offers, Reasons, Shown};
use plan_core::Plan;
use plan_findings::{Detail, unsent_in};
use plan_words::PlanWords;
use remedies::{Grouped, Safety, both_of, controller_of, kept_apart};
use run_parts::{Output, RunError};
use std::alloc::{AllocError, Global};
use verdicts::Checked;

/// Writes an object for each unsafe pair of a plan that was checked, one for each group of them, one for each likely mistake in the
/// briefs that mean it, and one for the plan. The words are those of the plan, and the texts give it. There are groups where there are reasons. Then the
/// last object has these, and the first so many groups are explained.
///
/// # Errors
///
/// `Write` where the writer failed or took no bytes, and `NoMemory`. A part of the objects may have been written.
pub fn write_check<O: Output>(
    alloc: Global,
    checked: &Checked,
    words: PlanWords<'_>,
    odd: &[Oddity<'_>],
    texts: &[Vec<u8>],
    reasons: Option<&Reasons>,
    detail: Detail,
    out: &mut O,
) -> Result<(), RunError> {
    let told = told_of(alloc, checked, words, texts, reasons)?;
    let mut lines = ObjectLines::new(alloc);
    if detail.pairs {
        told.write_pairs(&mut lines, out)?;
    }
    told.write_groups(&mut lines, Shown::Explained(detail.groups as usize), out)?;
    add_oddities(&mut lines, words, odd);
    add_plan(&mut lines, checked, words, reasons, detail.groups as usize);
    lines.write_rest(out)
}

/// Writes an object for each group of the unsafe pairs of a plan that was checked, with all its offers, and one for the plan. The words are
/// those of the plan, and the texts give it. Of a safe plan there are no reasons.
///
/// # Errors
///
/// `Write` where the writer failed or took no bytes, and `NoMemory`. A part of the objects may have been written.
pub fn write_offers<O: Output>(
    alloc: Global,
    checked: &Checked,
    words: PlanWords<'_>,
    texts: &[Vec<u8>],
    reasons: Option<&Reasons>,
    out: &mut O,
) -> Result<(), RunError> {
    let told = told_of(alloc, checked, words, texts, reasons)?;
    let mut lines = ObjectLines::new(alloc);
    told.write_groups(&mut lines, Shown::All, out)?;
    add_plan(&mut lines, checked, words, reasons, usize::MAX);
    lines.write_rest(out)
}

fn told_of<'a>(
    alloc: Global,
    checked: &'a Checked,
    words: PlanWords<'a>,
    texts: &'a [Vec<u8>],
    reasons: Option<&'a Reasons>,
) -> Result<Told<'a>, AllocError> {
    let places = all_at(alloc, words)?;
    Ok(Told {
        checked,
        words,
        texts,
        labels: labels_of(alloc, &checked.plan)?,
        places,
        groups: match reasons {
            Some(Reasons::Unsafe(groups, offers)) => Some((groups, offers)),
            _ => None,
        },
    })
}

// What pairs and groups are told of.
#[derive(Drop)]
struct Told<'a> {
    checked: &'a Checked,
    words: PlanWords<'a>,
    texts: &'a [Vec<u8>],
    labels: Labels,
    // where the message of each participant stands, if briefs mean the plan
    places: Option<Vec<String>>,
    groups: Option<(&'a Grouped, &'a Offers)>,
}

impl Told<'_> {
    fn write_pairs<O: Output>(&self, lines: &mut ObjectLines, out: &mut O) -> Result<(), RunError> {
        let Checked { plan, faults } = self.checked;
        for k in 0..faults.len() {
            let (pair, fault) = faults.get(k);
            if pair < plan.pair_count() {
                lines.text.push("{\"kind\":\"pair\",\"pair\":");
                lines.text.push_number(pair as u64);
                self.add_pair(&mut lines.text, plan.pair(pair), fault);
                self.add_number(&mut lines.text, k);
                lines.text.push("}\n");
            }
            lines.write_block(out)?;
        }
        Ok(())
    }

    // All groups, with what is shown of them.
    fn write_groups<O: Output>(
        &self,
        lines: &mut ObjectLines,
        shown: Shown,
        out: &mut O,
    ) -> Result<(), RunError> {
        let Some((groups, offers)) = self.groups else {
            return Ok(());
        };
        for g in 0..groups.len() {
            if let Some(group) = groups.group(g) {
                add_group(lines, groups, g, group);
                self.add_example(lines, group.example, shown.explains(g));
                add_offers(lines, self.words, self.texts, offers, g, shown);
                lines.end();
            }
            lines.write_block(out)?;
        }
        Ok(())
    }

    // The fields of an unsafe pair behind its number, by its participants. Names, words and wires have nothing that JSON
    // escapes. They are pushed word by word, since there may be very many pairs.
    fn add_pair(&self, text: &mut Text, both: (u32, u32), fault: &Fault) {
        add_fields(text, &self.labels, both, fault);
        if let Some(places) = &self.places {
            add_places(text, places.as_slice(), both);
        }
    }

    // The number of the group of the `k`th unsafe pair.
    fn add_number(&self, text: &mut Text, k: usize) {
        if let Some((groups, _)) = self.groups {
            if let Some(g) = groups.number_of(k) {
                text.push(",\"group\":");
                text.push_number(g as u64);
            }
        }
    }

    // The example of a group, the `k`th unsafe pair.
    fn add_example(&self, lines: &mut ObjectLines, k: usize, is_explained: bool) {
        let Checked { plan, faults } = self.checked;
        if faults.len() <= k {
            return;
        }
        let (pair, fault) = faults.get(k);
        if pair < plan.pair_count() {
            let both = plan.pair(pair);
            lines.open("example");
            lines.number("pair", pair as u64);
            self.add_pair(&mut lines.text, both, fault);
            if is_explained {
                add_met(lines, plan, both, fault);
            }
            lines.close();
        }
    }
}

// The fields of a group before its example.
fn add_group(lines: &mut ObjectLines, groups: &Grouped, g: usize, group: Group) {
    lines.begin("group");
    lines.number("group", g as u64);
    lines.number("pairs", group.pairs as u64);
    add_meets(lines, groups, g);
    lines.number("frame", group.cause.frame as u64);
    add_part(lines, group.cause.place);
}

// The field that says who meet in a group.
fn add_meets(lines: &mut ObjectLines, groups: &Grouped, g: usize) {
    lines.open_list("between");
    let mut before = "[";
    for i in 0..groups.meets(g) {
        let (first, second) = groups.meet(g, i);
        push_two(&mut lines.text, before, first, second);
        before = ",[";
    }
    lines.close_list();
}

// In which part of the frame the two meet, and in which byte of it where that counts.
fn add_part(lines: &mut ObjectLines, place: Place) {
    lines.word(
        "part",
        match place {
            Place::Header => "header",
            Place::Data | Place::Byte(_) => "data",
        },
    );
    if let Place::Byte(byte) = place {
        lines.number("byte", byte as u64);
    }
}

fn add_fields(text: &mut Text, labels: &Labels, both: (u32, u32), fault: &Fault) {
    let (x, y) = both;
    add_two(text, "participants", labels.of(x), labels.of(y));
    add_two(text, "meet", fault.first.word(), fault.second.word());
    text.push(",\"after\":\"");
    for item in &fault.wire {
        text.push_char(item.symbol());
    }
    text.push("\"");
}

// The field that says where the two stand.
fn add_places(text: &mut Text, places: &[String], both: (u32, u32)) {
    text.push(",\"places\":[");
    push_place(text, places.get(both.0 as usize));
    text.push(",");
    push_place(text, places.get(both.1 as usize));
    text.push("]");
}

fn push_place(text: &mut Text, place: Option<&String>) {
    match place {
        Some(place) => text.push(place.as_str()),
        None => text.push("null"),
    }
}

// A field with two words.
fn add_two(text: &mut Text, name: &str, first: &str, second: &str) {
    text.push(",\"");
    text.push(name);
    push_two(text, "\":[", first, second);
}

// Two words, and the end of their list, whose beginning is what comes before them.
fn push_two(text: &mut Text, before: &str, first: &str, second: &str) {
    text.push(before);
    text.push("\"");
    text.push(first);
    text.push("\",\"");
    text.push(second);
    text.push("\"]");
}

// The field that says where these two participants meet.
fn add_met(lines: &mut ObjectLines, plan: &Plan, both: (u32, u32), fault: &Fault) {
    match meeting_of(lines.alloc, plan, both, fault.wire.as_slice()) {
        Ok(meeting) => add_meeting(lines, &meeting),
        Err(_) => lines.cut(),
    }
}

fn add_meeting(lines: &mut ObjectLines, meeting: &Meeting) {
    let Meeting {
        slot,
        bus,
        first,
        second,
    } = meeting;
    lines.open("explain");
    lines.number("slot", *slot as u64);
    lines.word("rule", rule_word(meeting.rule()));
    lines.word("bus", bus.as_str());
    add_words(lines, "bytes", first.bytes.as_str(), second.bytes.as_str());
    lines.field("open", &[first.open.as_slice(), second.open.as_slice()]);
    lines.close();
}

fn rule_word(rule: Rule) -> &'static str {
    match rule {
        Rule::Standard => "UM10204 3.1.8",
        Rule::Interrupts => "interrupts",
    }
}

// The verdict, where so many groups are explained at most.
fn add_plan(
    lines: &mut ObjectLines,
    checked: &Checked,
    words: PlanWords<'_>,
    reasons: Option<&Reasons>,
    most: usize,
) {
    add_verdict(lines, checked);
    match reasons {
        None => {}
        Some(Reasons::Safe(safety)) => add_kept(lines, &checked.plan, safety),
        Some(Reasons::Unsafe(groups, offers)) => {
            add_mended(lines, checked, words, (groups.len(), most), offers);
        }
    }
    lines.end();
}

fn add_verdict(lines: &mut ObjectLines, checked: &Checked) {
    lines.begin("plan");
    lines.flag("safe", checked.faults.is_safe());
    lines.number("pairs", checked.plan.pair_count() as u64);
    lines.number("unsafe_pairs", checked.faults.len() as u64);
}

// How the pairs of a safe plan are kept apart.
fn add_kept(lines: &mut ObjectLines, plan: &Plan, safety: &Safety) {
    lines.open("explain");
    lines.open("decided");
    lines.number("header", safety.decided.header);
    lines.number("later", safety.decided.later);
    lines.number("read", safety.decided.read);
    lines.number("alike", safety.decided.alike);
    lines.close();
    add_unsent(lines, plan);
    lines.number("kept_apart", safety.kept_apart);
    lines.close();
}

// What mends an unsafe plan.
fn add_mended(
    lines: &mut ObjectLines,
    checked: &Checked,
    words: PlanWords<'_>,
    explained: (usize, usize),
    offers: &Offers,
) {
    let (groups, most) = explained;
    lines.open("explain");
    lines.number("explained", groups.min(most) as u64);
    lines.number("groups", groups as u64);
    add_list(lines, offers);
    match interrupted_in(lines.alloc, checked) {
        Ok(pairs) => lines.field("interrupts", &pairs.as_slice()),
        Err(_) => lines.cut(),
    }
    add_unsent(lines, &checked.plan);
    lines.number("kept_apart", kept_apart(words));
    lines.close();
}

// The unsafe pairs with an interrupt: their second participant is one.
fn interrupted_in(alloc: Global, checked: &Checked) -> Result<Vec<u32>, AllocError> {
    let Checked { plan, faults } = checked;
    let mut pairs = Vec::new(alloc);
    for k in 0..faults.len() {
        let (pair, _) = faults.get(k);
        let (_, second) = both_of(plan, pair);
        if controller_of(plan, second).is_none() {
            pairs.push(pair)?;
        }
    }
    Ok(pairs)
}

// The field with the names of the messages that no controller lists.
fn add_unsent(lines: &mut ObjectLines, plan: &Plan) {
    match unsent_in(lines.alloc, plan) {
        Ok(unsent) => add_messages(lines, "unsent", plan, unsent.as_slice()),
        Err(_) => lines.cut(),
    }
}

fn add_messages(lines: &mut ObjectLines, name: &str, plan: &Plan, messages: &[u32]) {
    lines.open_list(name);
    for k in messages {
        if *k < plan.messages() {
            lines.word_element(plan.message_name(*k).as_str());
        }
    }
    lines.close_list();
}
