// What is asked of a place of a document, and the answers.

use editor_completions::completions_at;
use editor_hovers::hover_of;
use editor_lists::{
    Renamed, actions_in, folds_in, highlights_of, inlays_in, lenses_of, location_of, locations_of,
    marks_of, renamed_to, report_on, rewrites_to, rewriting_of, symbols_in, uses_of,
};
use editor_texts::{
    Document, Known, Lines, Position, ReadPlan, Reading, Units, definition_in, json, names_in,
};
use growing_text::Text;
use origins::{NameAt, NamedTexts, Span};
use plan_words::PlanWords;
use std::alloc::{AllocError, Global};
use std::rt::Files;

/// What is asked.
#[derive(Clone, Copy)]
pub(crate) enum Question<'a> {
    /// What stands there.
    Hover,
    /// Where it gets its name.
    Definition,
    /// Where it is named, also where it gets its name or not.
    References { with_given: bool },
    /// The same in its document.
    Highlights,
    /// Which bytes another name would stand in the place of.
    Renaming,
    /// What another name would change.
    Rename(&'a str),
    /// What may be written there.
    Completions,
    /// What stands in the document.
    Symbols,
    /// What of the document may be folded.
    Folds,
    /// What is shown between its words, up to this place.
    Inlays { until: Position },
    /// What stands above its controllers and messages.
    Lenses,
    /// What can be done about what is wrong there, up to this place.
    Actions { until: Position },
    /// What is wrong with the document.
    Wrong,
}

/// What is answered.
#[derive(Drop)]
pub(crate) enum Told {
    /// This, as JSON.
    Answer(String),
    /// Why it is refused.
    Refusal(String),
}

const NULL: &str = "null";

/// What is answered to a question that is asked after so many bytes of a document, of which this is known, as it is of these plans.
///
/// # Errors
///
/// Where an allocation fails.
pub(crate) fn told_in<R: Files + AllocGlobal>(
    rt: &R,
    question: Question<'_>,
    known: &Known,
    plans: &[Known],
    document: &Document,
    offset: usize,
    units: Units,
) -> Result<Told, AllocError> {
    let alloc = rt.alloc();
    let file = known.given.number_of(document.uri.as_str());
    match (question, file) {
        (Question::Hover, _) => hover_at(alloc, known, document, offset),
        (Question::Completions, Some(file)) => {
            let list = completions_at(rt, &known.given, file, offset, units)?;
            Ok(Told::Answer(list))
        }
        (Question::Lenses, Some(file)) => lenses_on(alloc, known, document, file, units),
        (Question::Actions { until }, Some(file)) => {
            actions_on(alloc, known, plans, document, (file, offset, until), units)
        }
        (Question::Wrong, Some(file)) => { Ok(Told::Answer(report_on(alloc, known, file, units)?)) }
        (Question::Symbols | Question::Folds | Question::Inlays { .. }, Some(file)) =>
            told_of_document(alloc, question, known, document, (file, offset), units),
        (
            Question::Completions
            | Question::Lenses
            | Question::Actions { .. }
            | Question::Wrong
            | Question::Symbols
            | Question::Folds
            | Question::Inlays { .. },
            None,
        ) => nothing(alloc),
        _ => told_of_name(alloc, question, known, document, offset, units),
    }
}

fn nothing(alloc: Global) -> Result<Told, AllocError> {
    Ok(Told::Answer(String::from_str(alloc, NULL)?))
}

fn hover_at(
    alloc: Global,
    known: &Known,
    document: &Document,
    offset: usize,
) -> Result<Told, AllocError> {
    let said = hover_of(alloc, known, document, offset)?;
    Ok(Told::Answer(hover_on(alloc, said)?))
}

// What is said of a name, as the protocol has it.
fn hover_on(alloc: Global, said: Option<String>) -> Result<String, AllocError> {
    let Some(words) = said else {
        return String::from_str(alloc, NULL);
    };
    let words = words.as_str();
    let mut text = Text::new(alloc);
    text.push("{\"contents\":{\"kind\":\"markdown\",\"value\":");
    text.push_made(json(alloc, &words));
    text.push("}}");
    text.finish()
}

// ---- a document

// What is told of the text of this number, or of what stands in it after so many bytes.
fn told_of_document(
    alloc: Global,
    question: Question<'_>,
    known: &Known,
    document: &Document,
    place: (u32, usize),
    units: Units,
) -> Result<Told, AllocError> {
    let (file, offset) = place;
    let reading = &known.reading;
    let names = reading.names(alloc, known.given.parts.as_slice())?;
    let text = document.text.as_bytes();
    let lines = Lines::of(alloc, text, units)?;
    let spans = reading.spans();
    Ok(Told::Answer(match question {
        Question::Symbols => symbols_in(alloc, spans, &names, file, &lines)?,
        Question::Inlays { until } => {
            let part = Span {
                file,
                start: offset,
                end: lines.offset(until),
            };
            inlays_in(alloc, &names, part, &lines)?
        }
        _ => folds_in(alloc, spans, text, file, &lines)?,
    }))
}

// What can be done about what is wrong in a part of the text of this number: after so many bytes, up to a place.
fn actions_on(
    alloc: Global,
    known: &Known,
    plans: &[Known],
    document: &Document,
    part: (u32, usize, Position),
    units: Units,
) -> Result<Told, AllocError> {
    let (file, start, until) = part;
    let lines = Lines::of(alloc, document.text.as_bytes(), units)?;
    let marks = marks_of(alloc, &known.given, units)?;
    let part = Span {
        file,
        start,
        end: lines.offset(until),
    };
    Ok(Told::Answer(actions_in(alloc, known, plans, marks.as_slice(), part)?))
}

// Nothing, where the texts give no plan.
fn lenses_on(
    alloc: Global,
    known: &Known,
    document: &Document,
    file: u32,
    units: Units,
) -> Result<Told, AllocError> {
    let further = known.further_names(alloc)?;
    match (&known.reading, known.words(further.as_slice())) {
        (Reading::Plan(read), Some(words)) => {
            let list = lenses_in(alloc, known, read, words, (document, file), units)?;
            Ok(Told::Answer(list))
        }
        _ => nothing(alloc),
    }
}

fn lenses_in(
    alloc: Global,
    known: &Known,
    read: &ReadPlan,
    words: PlanWords<'_>,
    text: (&Document, u32),
    units: Units,
) -> Result<String, AllocError> {
    let (document, file) = text;
    let lines = Lines::of(alloc, document.text.as_bytes(), units)?;
    let parts = known.given.parts.as_slice();
    let names = names_in(alloc, &read.provenance.spans, parts)?;
    lenses_of(alloc, &read.checked, words, &names, file, &lines)
}

// ---- a name

fn told_of_name(
    alloc: Global,
    question: Question<'_>,
    known: &Known,
    document: &Document,
    offset: usize,
    units: Units,
) -> Result<Told, AllocError> {
    let (given, reading) = (&known.given, &known.reading);
    let Some(word) = reading.word_at(alloc, given, document, offset)? else {
        return nothing(alloc);
    };
    let names = reading.names(alloc, given.parts.as_slice())?;
    let Some(definition) = definition_in(&names, reading.spans(), word.kind, word.bytes) else {
        return nothing(alloc);
    };
    let place = Place {
        file: given.number_of(document.uri.as_str()),
        offset,
    };
    match question {
        Question::Rename(name) => renamed_on(alloc, known, &names, (definition, name), units),
        _ => Ok(Told::Answer(named_on(alloc, question, known, &names, definition, place, units)?)),
    }
}

// Where it is asked. No number, where the document is none of the plan.
#[derive(Clone, Copy)]
struct Place {
    file: Option<u32>,
    offset: usize,
}

fn named_on(
    alloc: Global,
    question: Question<'_>,
    known: &Known,
    names: &NamedTexts<'_>,
    definition: NameAt,
    place: Place,
    units: Units,
) -> Result<String, AllocError> {
    let marks = marks_of(alloc, &known.given, units)?;
    let marks = marks.as_slice();
    if let Question::Definition = question {
        return json(alloc, &location_of(marks, definition.span));
    }
    let uses = uses_of(alloc, names, known.reading.spans(), definition)?;
    let uses = uses.as_slice();
    match (question, place.file) {
        (Question::References { with_given }, _) => {
            let without = if with_given {
                None
            } else {
                Some(definition.span)
            };
            locations_of(alloc, marks, uses, without)
        }
        (Question::Highlights, Some(file)) => {
            highlights_of(alloc, marks, uses, definition.span, file)
        }
        (_, Some(file)) => match use_around(uses, file, place.offset) {
            Some(span) => json(alloc, &location_of(marks, span).range),
            None => String::from_str(alloc, NULL),
        },
        (_, None) => String::from_str(alloc, NULL),
    }
}

fn use_around(uses: &[Span], file: u32, offset: usize) -> Option<Span> {
    for span in uses {
        if span.file == file && span.start <= offset && offset <= span.end {
            return Some(*span);
        }
    }
    None
}

fn renamed_on(
    alloc: Global,
    known: &Known,
    names: &NamedTexts<'_>,
    to: (NameAt, &str),
    units: Units,
) -> Result<Told, AllocError> {
    let (definition, name) = to;
    let uses = uses_of(alloc, names, known.reading.spans(), definition)?;
    match renamed_to(alloc, known, names, uses.as_slice(), name)? {
        Renamed::Same => {
            let marks = marks_of(alloc, &known.given, units)?;
            let rewrites = rewrites_to(alloc, uses.as_slice(), name)?;
            let edit = rewriting_of(alloc, marks.as_slice(), rewrites.as_slice())?;
            Ok(Told::Answer(edit))
        }
        Renamed::Refused(why) => Ok(Told::Refusal(why)),
    }
}
