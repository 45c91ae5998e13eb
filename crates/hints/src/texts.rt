// After the refusal of a plan or of a brief.

use crate::choices::reason_of_choice;
use crate::expected::{push_expected, words_of};
use crate::kinds::{Kind, LOOKED_AT, is_binary, kind_of, push_kind};
use crate::lines::Lines;
use crate::marking::{first_line, last_line, push_marked};
use crate::names::{push_twice, push_unknown};
use crate::paths::push_path;
use crate::values::Hints;
use crate::wording::{bad_count, foreign, mend_version, push_limit, push_over, push_version};
use crate::words::{RANGES, is_like_brief, push_reason, reason_of_characters};
use brief_tokens::after_head;
use origins::Spans;
use plan_text::places::Further;
use plan_text::{Expected, Language, Place, PlanError, Refused, is_plan};
use std::alloc::{AllocError, Global};
use std::fmt::Display;

/// Why and where a plan or a brief was refused.
#[derive(Clone, Copy)]
pub struct RefusedIn<'a> {
    pub error: PlanError,
    pub place: Place,
    pub language: Language,
    pub text: &'a [u8],
    /// The name of its file, where several give the plan.
    pub file: Option<&'a str>,
    /// The briefs before it.
    pub earlier: &'a [Earlier<'a>],
    /// The names in these, and in the text.
    pub spans: &'a Spans,
    /// Whether a brief could stand in its place too, where it is no plan text.
    pub takes_either: bool,
}

/// A brief that was read before the text that is refused, and the name of its file.
#[derive(Clone, Copy)]
pub struct Earlier<'a> {
    pub text: &'a [u8],
    pub file: &'a str,
}

impl<'a> RefusedIn<'a> {
    /// Which of the texts that give the plan it is, from 0 on.
    pub(crate) fn number(&self) -> u32 {
        u32::try_from(self.earlier.len()).unwrap_or(u32::MAX)
    }

    /// The token that was refused, a character, or nothing at the end of the text.
    pub(crate) fn token(&self) -> &'a [u8] {
        self.part(self.place.start, self.place.end)
    }

    /// The text before it.
    pub(crate) fn before(&self) -> &'a [u8] {
        self.part(0, self.place.start)
    }

    /// Whether it is a brief of the second version.
    pub(crate) fn is_second(&self) -> bool {
        match self.spans.head(self.number()) {
            Some(head) => self.language == Language::Brief && head.version == 2,
            None => false,
        }
    }

    /// Notes that it is mended by this in the place of the refused token.
    pub(crate) fn mend<W: Display + Drop>(&self, lines: &mut Lines, puts: W) {
        lines.fix(self.place.start, self.place.end, puts);
    }

    /// Whether this stands right after it.
    pub(crate) fn is_before(&self, sign: u8) -> bool {
        self.text.get(self.place.end).copied() == Some(sign)
    }

    /// Whether it is repeated, by `*`.
    pub(crate) fn is_repeated(&self) -> bool {
        let after = self.text.get(self.place.end..).unwrap_or(&[]);
        after.trim_ascii_start().starts_with(b"*")
    }

    fn part(&self, start: usize, end: usize) -> &'a [u8] {
        self.text.get(start..end).unwrap_or(&[])
    }
}

/// What a text of this language is called.
pub(crate) fn called(language: Language) -> &'static str {
    match language {
        Language::Plan => "plan",
        Language::Brief => "brief",
    }
}

/// What to say after the refusal of a plan or of a brief.
///
/// # Errors
///
/// Where an allocation fails.
pub fn on_text(alloc: Global, refused: RefusedIn<'_>) -> Result<Hints, AllocError> {
    let mut lines = Lines::new(alloc);
    let looked = Looked::at(refused);
    if !is_binary(looked.kind) {
        push_span(alloc, &mut lines, &looked.refused, looked.fault.span(), "");
    }
    push_cause(alloc, &mut lines, &looked);
    lines.finish()
}

/// What to say of a further refusal, in short: where it is, and why.
///
/// # Errors
///
/// Where an allocation fails.
pub fn on_further_text(alloc: Global, refused: RefusedIn<'_>) -> Result<Hints, AllocError> {
    let mut lines = Lines::new(alloc);
    let looked = Looked::at(refused);
    push_span(
        alloc,
        &mut lines,
        &looked.refused,
        looked.fault.span(),
        "also ",
    );
    lines.first_of(cause_of(alloc, refused)?.said);
    lines.finish()
}

/// Why a plan or a brief is refused: these bytes of it are shown, and this is said of them.
#[derive(Drop)]
pub struct Cause {
    pub start: usize,
    pub end: usize,
    pub said: Hints,
}

/// The same as values, for whoever shows the place in another way.
///
/// # Errors
///
/// Where an allocation fails.
pub fn cause_of(alloc: Global, refused: RefusedIn<'_>) -> Result<Cause, AllocError> {
    let mut lines = Lines::new(alloc);
    let looked = Looked::at(refused);
    push_cause(alloc, &mut lines, &looked);
    let Span { start, end, .. } = looked.fault.span();
    Ok(Cause {
        start,
        end,
        said: lines.finish()?,
    })
}

// A refusal as people see it: that of a brief, where the text is meant as one.
#[derive(Clone, Copy)]
struct Looked<'a> {
    refused: RefusedIn<'a>,
    fault: Fault,
    kind: Option<Kind>,
}

impl<'a> Looked<'a> {
    fn at(refused: RefusedIn<'a>) -> Looked<'a> {
        let head = refused.text.get(..LOOKED_AT).unwrap_or(refused.text);
        let refused = as_brief(refused, head).unwrap_or(refused);
        Looked {
            refused,
            fault: fault_of(&refused),
            kind: kind_of(head),
        }
    }
}

// What is said of a refusal, without its place.
fn push_cause(alloc: Global, lines: &mut Lines, looked: &Looked<'_>) {
    let refused = &looked.refused;
    if !is_binary(looked.kind) {
        push_refused(alloc, lines, refused, looked.fault);
    }
    match looked.kind {
        Some(Kind::Plan) if refused.file.is_some() => lines.say(PLAN_AMONG_SEVERAL),
        kind => push_kind(lines, kind, kind_of_language(refused.language)),
    }
}

const PLAN_AMONG_SEVERAL: &str = "this is a plan, and none of several files may be one";

fn kind_of_language(language: Language) -> Kind {
    match language {
        Language::Plan => Kind::Plan,
        Language::Brief => Kind::Brief,
    }
}

// The refusal of a text that begins with the word `brief`, and goes on otherwise than a brief, as that of a brief. So it is of one
// that has words of briefs, and no head.
fn as_brief<'a>(refused: RefusedIn<'a>, head: &[u8]) -> Option<RefusedIn<'a>> {
    if refused.token() != b"brief".as_slice() {
        return lacks_head(&refused).then_some(RefusedIn {
            language: Language::Brief,
            ..refused
        });
    }
    match after_head(head) {
        Err(
            Refused {
                error: error @ PlanError::Version(_),
                place: Some(place),
            },
        ) => Some(RefusedIn {
            error,
            place,
            language: Language::Brief,
            ..refused
        }),
        _ => None,
    }
}

fn lacks_head(refused: &RefusedIn<'_>) -> bool {
    matches!(refused.error, PlanError::Version(_))
        && refused.language == Language::Plan
        && refused.takes_either
        && !is_plan(refused.text)
        && is_like_brief(refused.text)
}

fn push_refused(alloc: Global, lines: &mut Lines, refused: &RefusedIn<'_>, fault: Fault) {
    if let Fault::End(_) = fault {
        lines.say("the text ends here");
    }
    match refused.error {
        PlanError::NotAscii(_) => lines.say(foreign(refused.language)),
        PlanError::Version(_) => push_version(lines, refused),
        PlanError::Unexpected(_) => push_fault(alloc, lines, refused, fault),
        PlanError::BadCount(_) => lines.say(bad_count(refused.place.expected)),
        PlanError::TooLong(_) => push_over(lines, refused.place.over),
        PlanError::TooMany(_) => push_limit(lines, refused.place.expected),
        PlanError::Twice(_) => push_twice(alloc, lines, refused),
        PlanError::Unknown(_) => push_unknown(alloc, lines, refused),
        PlanError::NoMemory => {}
    }
}

// A part of one line of a text.
#[derive(Clone, Copy)]
struct Span {
    line: u64,
    start: usize,
    end: usize,
}

// What is wrong, and where that is shown.
#[derive(Clone, Copy)]
enum Fault {
    // an item goes on with the next one
    NoSemicolon(Span),
    // a plan of the first version has a range
    Range(Span),
    Token(Span),
    End(Span),
}

impl Fault {
    fn span(self) -> Span {
        match self {
            Fault::NoSemicolon(span) | Fault::Range(span) | Fault::Token(span) | Fault::End(span) =>
                span,
        }
    }
}

fn fault_of(refused: &RefusedIn<'_>) -> Fault {
    let Place {
        line,
        start,
        end,
        ..
    } = refused.place;
    let span = Span { line, start, end };
    if let Some(span) = missing_semicolon(refused) {
        Fault::NoSemicolon(span)
    } else if let Some(span) = range_around(refused) {
        Fault::Range(span)
    } else if start < end {
        Fault::Token(span)
    } else {
        Fault::End(span)
    }
}

// The place after the token before, where `;` could stand and the refused token begins an item, or the text ends.
fn missing_semicolon(refused: &RefusedIn<'_>) -> Option<Span> {
    if !takes_semicolon(refused.place.expected?) || !ends_item(refused) {
        return None;
    }
    let Place {
        line,
        start,
        before,
        ..
    } = refused.place;
    Some(Span {
        line: line.saturating_sub(feeds_in(refused.part(before, start))),
        start: before,
        end: before,
    })
}

/// A place where `;` is missing: how many bytes of its line stand before it, and one.
#[derive(Clone, Copy)]
pub struct SemicolonAt {
    pub line: u64,
    pub column: usize,
}

/// Where `;` is missing, after the token before the refused one. Nothing where something else is wrong.
pub fn missing_semicolon_at(refused: RefusedIn<'_>) -> Option<SemicolonAt> {
    let PlanError::Unexpected(_) = refused.error else {
        return None;
    };
    let Span { line, start, .. } = missing_semicolon(&refused)?;
    let before = last_line(refused.part(0, start));
    Some(SemicolonAt {
        line,
        column: before.len().saturating_add(1),
    })
}

fn takes_semicolon(expected: Expected) -> bool {
    matches!(
        expected,
        Expected::Semicolon
            | Expected::Sending
            | Expected::Device { ends: true }
            | Expected::Further(Further {
                is_inner: false,
                ..
            })
    )
}

fn ends_item(refused: &RefusedIn<'_>) -> bool {
    match refused.token() {
        b"message" | b"controller" | b"interrupt" | b"never" => true,
        b"device" | b"byte" => matches!(refused.language, Language::Brief),
        b"extend" | b"group" => refused.is_second(),
        b"" => true,
        _ => false,
    }
}

fn feeds_in(text: &[u8]) -> u64 {
    text.iter().filter(|byte| **byte == b'\n').count() as u64
}

// A count with dots after it. In the first version of plans the count was taken alone.
fn range_around(refused: &RefusedIn<'_>) -> Option<Span> {
    let Place {
        line,
        start,
        before,
        expected,
        ..
    } = refused.place;
    let is_range = refused.language == Language::Plan
        && expected == Some(Expected::Tail)
        && before == start
        && refused.text.get(start..)?.starts_with(b"..");
    if !is_range {
        return None;
    }
    Some(Span {
        line,
        start: start.saturating_sub(digits_before(refused.before())),
        end: start.saturating_add(dots_and_digits(refused.text.get(start..)?)),
    })
}

fn digits_before(text: &[u8]) -> usize {
    text.iter()
        .rev()
        .take_while(|byte| byte.is_ascii_digit())
        .count()
}

fn dots_and_digits(text: &[u8]) -> usize {
    text.iter()
        .take_while(|byte| **byte == b'.' || byte.is_ascii_digit())
        .count()
}

// Shows a part of the text in its line, after this.
fn push_span(
    alloc: Global,
    lines: &mut Lines,
    refused: &RefusedIn<'_>,
    span: Span,
    front: &'static str,
) {
    let Span { line, start, end } = span;
    let what = called(refused.language);
    lines.part(format_args!("{front}line {line} of the {what}"));
    if let Some(file) = refused.file {
        lines.part(" ");
        push_path(alloc, lines, file);
    }
    lines.say(":");
    let before = refused.part(0, start);
    let after = refused.text.get(end..).unwrap_or(&[]);
    push_marked(
        lines,
        last_line(before),
        refused.part(start, end),
        first_line(after),
    );
}

// What is wrong with what the grammar does not allow, and what could stand there.
fn push_fault(alloc: Global, lines: &mut Lines, refused: &RefusedIn<'_>, fault: Fault) {
    match (fault, refused.place.expected) {
        (Fault::NoSemicolon(span), _) => push_semicolon(lines, refused, span),
        // (the `;` itself is as it should be)
        (_, Some(expected)) if refused.token() == b";".as_slice() && takes_semicolon(expected) => {
            lines.say(GROUPED);
        }
        (Fault::Range(_), _) => {
            lines.say(RANGES);
            mend_version(lines, refused);
            push_all(alloc, lines, refused, Expected::Count { ranges: false });
        }
        (_, Some(Expected::Version)) => push_version(lines, refused),
        (Fault::Token(_), Some(expected)) => push_token(alloc, lines, refused, expected),
        (Fault::End(_), Some(expected)) => push_all(alloc, lines, refused, expected),
        // (in a head nothing else has no word for what could stand there)
        (_, None) if refused.token().starts_with(b"\"") => lines.say(FILE_REFUSED),
        (_, None) => lines.say(FILE_EXPECTED),
    }
}

const GROUPED: &str =
    "a message has one group, and each name that it makes for a device has at most 32 characters";

const FILE_REFUSED: &str =
    "a file has 1 to 255 characters here, and 'learn --names' takes one brief that names no files";

const FILE_EXPECTED: &str =
    "expected here: a file in double quotes, 1 to 255 characters from blank to '~', as in: with \"devices.brief\" ;";

// That `;` is missing, and where the refusal is of another line, why that is so.
fn push_semicolon(lines: &mut Lines, refused: &RefusedIn<'_>, span: Span) {
    lines.part("';' is missing here");
    let line = refused.place.line;
    if line != span.line {
        let before = last_word(refused.part(0, span.start));
        lines.part(format_args!(", after '{before}': "));
        lines.part(if refused.token().is_empty() {
            "the text ends"
        } else {
            "the next item begins"
        });
        lines.part(format_args!(" on line {line}"));
    }
    lines.end();
    lines.fix(span.start, span.start, ";");
}

// What stands at the end of these bytes, up to white space.
fn last_word(bytes: &[u8]) -> &str {
    let word = bytes.rsplit(u8::is_ascii_whitespace).next().unwrap_or(&[]);
    str::from_utf8(word).unwrap_or("")
}

fn push_token(alloc: Global, lines: &mut Lines, refused: &RefusedIn<'_>, expected: Expected) {
    match words_of(alloc, expected, refused.is_second()) {
        Ok(words) => {
            let words = words.as_slice();
            let word = str::from_utf8(refused.token()).unwrap_or("");
            let reason = match reason_of_characters(refused, expected) {
                None => reason_of_choice(refused, expected),
                reason => reason,
            };
            match reason {
                Some(reason) => {
                    lines.say(reason);
                    push_comment_fix(lines, refused);
                }
                None => push_reason(alloc, lines, refused, expected, words, word),
            }
            push_expected(lines, words);
        }
        Err(_) => lines.fail(),
    }
}

// Notes that `#` begins the comment that begins with `//`.
fn push_comment_fix(lines: &mut Lines, refused: &RefusedIn<'_>) {
    let start = refused.place.start;
    if refused.text.get(start..).unwrap_or(&[]).starts_with(b"//") {
        lines.fix(start, start.saturating_add(2), "#");
    }
}

fn push_all(alloc: Global, lines: &mut Lines, refused: &RefusedIn<'_>, expected: Expected) {
    match words_of(alloc, expected, refused.is_second()) {
        Ok(words) => push_expected(lines, words.as_slice()),
        Err(_) => lines.fail(),
    }
}
