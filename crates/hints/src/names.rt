// Names that stand already where they may not stand twice, and names that nothing before them has.

use crate::expected::words_of;
use crate::likeness::Nearest;
use crate::lines::Lines;
use crate::paths::push_path;
use crate::texts::{Earlier, RefusedIn};
use crate::words::push_meant;
use origins::{ItemKind, Kind, NameAt, NamedTexts, Role, Span, halves, has_member};
use plan_text::{Expected, Language, PlanError};
use std::alloc::{AllocError, Global};

// What is named so.
fn called(kind: Kind) -> &'static str {
    match kind {
        Kind::Message => "message",
        Kind::Controller => "controller",
        Kind::Interrupt => "interrupt",
        Kind::Device => "device",
        Kind::Byte => "byte",
    }
}

// A name in an item of the text that is refused, or of a brief before it: that which the item gives, what a controller
// lists, or a side of a `never`, with its label.
#[derive(Clone, Copy)]
struct Known<'a> {
    name: &'a [u8],
    at: NameAt,
    // that of the message, which is empty where it is no family
    range: &'a [u8],
    // whether it is given to a device whose address has open bits
    is_open: bool,
    // whether its item adds to a controller, or gives its name to a group
    adds: bool,
    is_group: bool,
}

impl Known<'_> {
    // Whether an item gives this name to one of this kind.
    fn gives(self, kind: Kind) -> bool {
        self.at.gives(kind)
    }

    // Whether messages are listed after it, which is the name of a controller.
    fn begins_list(self) -> bool {
        self.gives(Kind::Controller) || self.adds && self.uses(Kind::Controller)
    }

    // Whether a controller lists it.
    fn is_listed(self) -> bool {
        self.uses(Kind::Message)
    }

    // Whether it is a side of a `never`.
    fn is_side(self) -> bool {
        self.uses(Kind::Controller) && !self.adds
    }

    fn uses(self, kind: Kind) -> bool {
        self.at.role == Role::Used && self.at.kind == kind
    }

    fn stand(self) -> Stand {
        let Span { file, start, .. } = self.at.span;
        Stand {
            file,
            line: self.at.line,
            start,
            end: start.saturating_add(self.name.len()),
        }
    }
}

/// Where a name stands: in the brief of this number, from 0 on, on this line, and in these bytes of the text.
#[derive(Clone, Copy)]
pub struct Stand {
    pub file: u32,
    pub line: u64,
    pub start: usize,
    pub end: usize,
}

// The names of the briefs before the text that is refused, and of this text up to there.
fn known_in<'a>(alloc: Global, refused: &RefusedIn<'a>) -> Result<Vec<Known<'a>>, AllocError> {
    let mut known = Vec::new(alloc);
    let texts = texts_of(alloc, refused)?;
    for at in texts.names() {
        let is_earlier = at.span.file < refused.number();
        if is_earlier || at.span.file == refused.number() && at.span.start < refused.place.start {
            push_known(&mut known, &texts, *at)?;
        }
    }
    Ok(known)
}

// The names of the text that is refused.
fn known_in_text<'a>(alloc: Global, refused: &RefusedIn<'a>) -> Result<Vec<Known<'a>>, AllocError> {
    let mut known = Vec::new(alloc);
    let texts = texts_of(alloc, refused)?;
    for at in texts.names() {
        if at.span.file == refused.number() {
            push_known(&mut known, &texts, *at)?;
        }
    }
    Ok(known)
}

fn texts_of<'a>(alloc: Global, refused: &RefusedIn<'a>) -> Result<NamedTexts<'a>, AllocError> {
    let mut texts = NamedTexts::new(alloc, refused.spans)?;
    for brief in refused.earlier {
        texts.add(brief.text)?;
    }
    texts.add(refused.text)?;
    Ok(texts)
}

// Adds a name. What a label sends belongs to the name before it.
fn push_known<'a>(
    known: &mut Vec<Known<'a>>,
    texts: &NamedTexts<'a>,
    at: NameAt,
) -> Result<(), AllocError> {
    match (at.role, at.kind) {
        (Role::Label, _) => {
            if let Some(side) = known.last_mut() {
                side.name = with_label(texts, side.at.span, at.span);
            }
            Ok(())
        }
        (Role::Used, Kind::Device | Kind::Byte | Kind::Interrupt) => Ok(()),
        (Role::Given, _) | (Role::Used, Kind::Message | Kind::Controller) => Ok(known.push(
            Known {
                name: texts.word(at),
                at,
                range: texts.range(at),
                is_open: is_open(texts, at),
                adds: adds(texts, at),
                is_group: texts.is_group(at),
            },
        )?),
    }
}

// Whether the item in which a name stands adds to a controller.
fn adds(texts: &NamedTexts<'_>, at: NameAt) -> bool {
    matches!(texts.item(at), Some(item) if item.kind == ItemKind::Extends)
}

// Whether a name is given to a device or a byte with open bits.
fn is_open(texts: &NamedTexts<'_>, at: NameAt) -> bool {
    at.role == Role::Given && texts.value(at).iter().skip(2).any(is_open_digit)
}

// (after `0x` or `0b`)
fn is_open_digit(digit: &u8) -> bool {
    matches!(*digit, b'x' | b'X')
}

fn with_label<'a>(texts: &NamedTexts<'a>, controller: Span, label: Span) -> &'a [u8] {
    let whole = Span {
        end: label.end,
        ..controller
    };
    whole.of(texts.text(controller.file))
}

// Where one of this kind gets this name.
fn stand_of(known: &[Known<'_>], kind: Kind, word: &[u8]) -> Option<Stand> {
    for one in known {
        if one.gives(kind) && one.name == word {
            return Some(one.stand());
        }
    }
    None
}

// ---- P7

// What stands already where it may stand once, and where, as far as that is known.
#[derive(Clone, Copy)]
enum Stands {
    // one of this kind, which has the name
    Named(Kind, Option<Stand>),
    // a message that the controller lists, or one of the family
    Listed(Option<Stand>),
    // a message with the name of one of the family
    Member(Option<Stand>),
    // the first side of the `never`, which is of the same controller
    Side,
    // a `never` with the same two
    Never(Option<Stand>),
    // a controller with the name of the part that a label makes
    Part(Option<Stand>),
    // a `never` that names the controller to which an item adds
    Apart(Option<Stand>),
    // a name that a message makes by its group
    Made,
    // a device of the group
    Grouped,
}

impl Stands {
    fn stand(self) -> Option<Stand> {
        match self {
            Stands::Named(_, stand)
            | Stands::Listed(stand)
            | Stands::Member(stand)
            | Stands::Never(stand)
            | Stands::Part(stand)
            | Stands::Apart(stand) => stand,
            Stands::Side | Stands::Made | Stands::Grouped => None,
        }
    }
}

/// Where that stands already which a text may have once, after P7: the number of the brief, from 0 on, and the line.
/// Nothing after other refusals, and where it has no place of its own.
///
/// # Errors
///
/// Where an allocation fails.
pub fn first_stand(alloc: Global, refused: RefusedIn<'_>) -> Result<Option<Stand>, AllocError> {
    match refused.error {
        PlanError::Twice(_) => Ok(stands_in(alloc, &refused)?.stand()),
        _ => Ok(None),
    }
}

/// Says P7: where the name stands already, or the two.
pub(crate) fn push_twice(alloc: Global, lines: &mut Lines, refused: &RefusedIn<'_>) {
    match stands_in(alloc, refused) {
        Ok(stands) => push_stands(alloc, lines, refused, stands),
        Err(_) => lines.fail(),
    }
}

fn stands_in(alloc: Global, refused: &RefusedIn<'_>) -> Result<Stands, AllocError> {
    let known = known_in(alloc, refused)?;
    Ok(stands_among(known.as_slice(), refused))
}

fn stands_among(known: &[Known<'_>], refused: &RefusedIn<'_>) -> Stands {
    let word = refused.token();
    match refused.place.expected {
        _ if word == b";".as_slice() => Stands::Made,
        Some(Expected::Device { .. }) => Stands::Grouped,
        Some(Expected::Name(kind)) => Stands::Named(
            kind,
            stand_of(known, kind, word).or(stand_of_maker(known, kind, word)),
        ),
        Some(Expected::Sending) => Stands::Listed(stand_in_list(known, word)),
        Some(Expected::Times { .. }) => Stands::Member(stand_of_member(known, word)),
        Some(Expected::Controller) if first_side(known).is_none() => {
            Stands::Apart(stand_of_side(known, word))
        }
        _ => side_among(known, word),
    }
}

fn push_stands(alloc: Global, lines: &mut Lines, refused: &RefusedIn<'_>, stands: Stands) {
    match stands {
        Stands::Named(kind, _) => {
            let what = called(kind);
            lines.part(format_args!("an earlier {what} has this name"));
        }
        Stands::Listed(Some(_)) => lines.part("this controller lists it already"),
        Stands::Listed(None) => {
            lines.part("this controller lists messages of this family already")
        }
        Stands::Member(_) => lines.part("an earlier message has the name of one of this family"),
        Stands::Side => {
            lines.part("both are of one controller, which starts one message at a time")
        }
        Stands::Never(_) => lines.part("these two stand in a 'never' already"),
        Stands::Part(_) => lines.part(
            "a label makes a controller, with '_' in place of '/': an earlier one has this name",
        ),
        Stands::Grouped => lines.part("this group has that device already"),
        Stands::Made => lines.part(
            "a name that this message makes for a device of its group stands already, or is made twice",
        ),
        Stands::Apart(_) => {
            lines.part("what adds to a controller stands before each 'never' that names it")
        }
    }
    if let Some(stand) = stands.stand() {
        push_place(alloc, lines, refused, stand);
    }
    lines.end();
    if is_in_a_copy(refused, stands) {
        lines.say("both files have the same text: one of the two is enough");
    }
}

// Whether it stands in an earlier brief that has the same text.
fn is_in_a_copy(refused: &RefusedIn<'_>, stands: Stands) -> bool {
    match stands.stand() {
        Some(stand) => match refused.earlier.get(stand.file as usize) {
            Some(brief) => brief.text == refused.text,
            None => false,
        },
        None => false,
    }
}

// A place in a sentence: the line, and the file where that is another one than that of the refused text.
fn push_place(alloc: Global, lines: &mut Lines, refused: &RefusedIn<'_>, stand: Stand) {
    let line = stand.line;
    lines.part(format_args!(", on line {line}"));
    if let Some(brief) = refused.earlier.get(stand.file as usize) {
        lines.part(" of ");
        push_path(alloc, lines, brief.file);
    }
}

// Where the controller of the last item lists this, in that item or in one before it.
fn stand_in_list(known: &[Known<'_>], word: &[u8]) -> Option<Stand> {
    let last = known.iter().rev().find(|one| one.begins_list())?.name;
    let mut controller: &[u8] = &[];
    for one in known {
        if one.begins_list() {
            controller = one.name;
        }
        if controller == last && one.is_listed() && one.name == word {
            return Some(one.stand());
        }
    }
    None
}

// A `never` that names this controller, or a label of it.
fn stand_of_side(known: &[Known<'_>], controller: &[u8]) -> Option<Stand> {
    for one in known {
        if one.is_side() && controller_of(one.name) == controller {
            return Some(one.stand());
        }
    }
    None
}

// What makes one of this kind that has this name: a family, or a label.
fn stand_of_maker(known: &[Known<'_>], kind: Kind, word: &[u8]) -> Option<Stand> {
    for one in known {
        let makes = match kind {
            Kind::Message => one.gives(kind) && has_member(one.name, one.range, word),
            Kind::Controller => one.is_side() && is_part(one.name, word),
            _ => false,
        };
        if makes {
            return Some(one.stand());
        }
    }
    None
}

// Whether the label makes a controller of this name.
fn is_part(label: &[u8], name: &[u8]) -> bool {
    match halves(label) {
        Some((controller, message)) => {
            let rest = name.strip_prefix(controller);
            rest.and_then(|rest| rest.strip_prefix(b"_")) == Some(message)
        }
        None => false,
    }
}

// A message that has the name of one of the family that this range makes.
fn stand_of_member(known: &[Known<'_>], range: &[u8]) -> Option<Stand> {
    let family = known.last()?.name;
    for one in known {
        if one.gives(Kind::Message) && has_member(family, range, one.name) {
            return Some(one.stand());
        }
    }
    None
}

// The side of a `never` that is of the first one's controller, stands with it in another one, or has no name of its own.
fn side_among(known: &[Known<'_>], word: &[u8]) -> Stands {
    if let Some(first) = first_side(known) {
        if controller_of(first) == controller_of(word) {
            return Stands::Side;
        }
        let stand = stand_of_never(known, first, word);
        if stand.is_some() || halves(word).is_none() {
            return Stands::Never(stand);
        }
    }
    Stands::Part(stand_of_part(known, word))
}

// The first side of the `never` that has no second one yet.
fn first_side<'a>(known: &[Known<'a>]) -> Option<&'a [u8]> {
    let (last, before) = known.split_last()?;
    let is_second = match before.last() {
        Some(other) => other.at.item == last.at.item,
        None => false,
    };
    (last.is_side() && !is_second).then_some(last.name)
}

fn controller_of(side: &[u8]) -> &[u8] {
    match halves(side) {
        Some((controller, _)) => controller,
        None => side,
    }
}

// A `never` with these two, in either order.
fn stand_of_never(known: &[Known<'_>], one: &[u8], other: &[u8]) -> Option<Stand> {
    let mut before = *known.first()?;
    for side in known {
        let are_two = side.is_side() && side.at.item == before.at.item;
        let (first, second) = (before.name, side.name);
        if are_two && (first == one && second == other || first == other && second == one) {
            return Some(side.stand());
        }
        before = *side;
    }
    None
}

// The controller, or the other label, that has the name of the part which this label makes.
fn stand_of_part(known: &[Known<'_>], label: &[u8]) -> Option<Stand> {
    for one in known {
        let has_name = one.gives(Kind::Controller) && is_part(label, one.name);
        if has_name || one.is_side() && makes_same(one.name, label) {
            return Some(one.stand());
        }
    }
    None
}

// Whether two labels make parts of the same name.
fn makes_same(one: &[u8], other: &[u8]) -> bool {
    halves(one).is_some()
        && one.len() == other.len()
        && one.iter().zip(other).all(|(a, b)| joined(*a) == joined(*b))
}

fn joined(byte: u8) -> u8 {
    if byte == b'/' { b'_' } else { byte }
}

// ---- P8

/// Says P8: the names that are near and could stand there, or that there are none.
pub(crate) fn push_unknown(alloc: Global, lines: &mut Lines, refused: &RefusedIn<'_>) {
    match known_in(alloc, refused) {
        Ok(known) => push_absent(alloc, lines, refused, known.as_slice()),
        Err(_) => lines.fail(),
    }
}

fn push_absent(alloc: Global, lines: &mut Lines, refused: &RefusedIn<'_>, known: &[Known<'_>]) {
    let word = refused.token();
    match refused.place.expected {
        Some(Expected::Sending) => push_nearest(alloc, lines, refused, known, Kind::Message, word),
        Some(Expected::Device { .. }) if is_group(known, word) => {
            lines.say("this is a group itself, and a group has devices alone");
        }
        Some(Expected::Target | Expected::KnownTarget | Expected::Device { .. }) => {
            push_nearest(alloc, lines, refused, known, Kind::Device, word)
        }
        Some(expected @ Expected::Further(_)) => {
            push_keyword(alloc, lines, refused, expected);
            push_nearest(alloc, lines, refused, known, Kind::Byte, word);
        }
        _ => push_absent_side(alloc, lines, refused, known, word),
    }
}

// Says which word of the language is meant, where it may be that no byte is.
fn push_keyword(alloc: Global, lines: &mut Lines, refused: &RefusedIn<'_>, expected: Expected) {
    match words_of(alloc, expected, false) {
        Ok(words) => {
            let word = str::from_utf8(refused.token()).unwrap_or("");
            let _ = push_meant(alloc, lines, refused, words.as_slice(), word);
        }
        Err(_) => lines.fail(),
    }
}

// A side of a `never`: no controller has its name, or the controller does not list what the label names.
fn push_absent_side(
    alloc: Global,
    lines: &mut Lines,
    refused: &RefusedIn<'_>,
    known: &[Known<'_>],
    word: &[u8],
) {
    let controller = controller_of(word);
    match halves(word) {
        Some((_, label)) if stand_of(known, Kind::Controller, controller).is_some() => {
            if refused.is_before(b'*') {
                push_star(lines, known, controller, label);
            }
            lines.say("the controller of this label lists no such message; it lists:");
            push_listed(alloc, lines, refused, known, (controller, label));
        }
        _ => push_nearest(alloc, lines, refused, known, Kind::Controller, controller),
    }
}

// Of a label with `*` after it, as reports write all messages of a family: the label of that family.
fn push_star(lines: &mut Lines, known: &[Known<'_>], controller: &[u8], label: &[u8]) {
    let family = label.strip_suffix(b"_").unwrap_or(label);
    lines.part("'*' is no part of a label");
    if stand_of(known, Kind::Message, family).is_some() {
        let controller = str::from_utf8(controller).unwrap_or("");
        let family = str::from_utf8(family).unwrap_or("");
        lines.part(format_args!(": the family has the label '{controller}/{family}'"));
    }
    lines.end();
}

fn push_nearest(
    alloc: Global,
    lines: &mut Lines,
    refused: &RefusedIn<'_>,
    known: &[Known<'_>],
    kind: Kind,
    word: &[u8],
) {
    let what = called(kind);
    if let Some(other) = other_kind(known, kind, word) {
        let article = if other == Kind::Interrupt { "an" } else { "a" };
        let other = called(other);
        lines.say(format_args!("this is the name of {article} {other}, and of no {what}"));
    }
    if let Some(line) = line_below(alloc, lines, refused, kind, word) {
        lines.say(format_args!(
            "the {what} stands below, on line {line}: {what}s come before what names them"
        ));
    } else {
        push_near(alloc, lines, refused, known, kind, word);
    }
}

// Says which names are near, of those that could stand there.
fn push_near(
    alloc: Global,
    lines: &mut Lines,
    refused: &RefusedIn<'_>,
    known: &[Known<'_>],
    kind: Kind,
    word: &[u8],
) {
    let what = called(kind);
    let near = near_names(alloc, lines, refused, known, kind, word);
    if !near.is_empty() {
        lines.say(format_args!(
            "no {what} before this place has this name; the nearest names of {what}s:"
        ));
        near.tell(lines);
        mend_name(lines, refused, &near, word);
    } else if has_any(known, kind) {
        lines.say(format_args!("no {what} before this place has this name"));
    } else {
        lines.say(format_args!("no {what} stands before this place"));
    }
}

// Notes the near names, each in the place of this one, with which the refused token begins: what the label of a controller sends
// stays.
fn mend_name(lines: &mut Lines, refused: &RefusedIn<'_>, near: &Nearest<'_>, word: &[u8]) {
    let rest = refused.token().get(word.len()..).unwrap_or(&[]);
    near.mend(lines, (refused.place.start, refused.place.end), (&[], rest));
}

fn near_names<'a>(
    alloc: Global,
    lines: &mut Lines,
    refused: &RefusedIn<'_>,
    known: &[Known<'_>],
    kind: Kind,
    word: &'a [u8],
) -> Nearest<'a> {
    let mut near = Nearest::new(alloc, word);
    for one in known {
        if one.gives(kind) && add_near(alloc, &mut near, refused, known, *one).is_err() {
            lines.fail();
        }
    }
    near
}

fn add_near(
    alloc: Global,
    near: &mut Nearest<'_>,
    refused: &RefusedIn<'_>,
    known: &[Known<'_>],
    one: Known<'_>,
) -> Result<(), AllocError> {
    match near.nearness(alloc, one.name)? {
        Some(far) if could_stand(refused, known, one) => near.add_at(alloc, one.name, far),
        _ => Ok(()),
    }
}

// Whether a name of the kind that is wanted could stand in the place that is refused.
fn could_stand(refused: &RefusedIn<'_>, known: &[Known<'_>], one: Known<'_>) -> bool {
    match refused.place.expected {
        Some(Expected::KnownTarget) => !one.is_open && !one.is_group,
        Some(Expected::Device { .. }) => !one.is_group,
        Some(Expected::Sending) => stand_in_list(known, one.name).is_none(),
        Some(Expected::Party | Expected::Controller) => could_be_side(refused, known, one.name),
        _ => true,
    }
}

// Whether a controller could stand there: as a side it is none of the side before it, and what adds to one stands before each
// `never` that names it.
fn could_be_side(refused: &RefusedIn<'_>, known: &[Known<'_>], name: &[u8]) -> bool {
    match first_side(known) {
        Some(first) => controller_of(first) != name,
        None => !adds_at(refused) || stand_of_side(known, name).is_none(),
    }
}

// Whether the refused name is that of a controller to which a brief adds.
fn adds_at(refused: &RefusedIn<'_>) -> bool {
    refused.language == Language::Brief && refused.place.expected == Some(Expected::Controller)
}

// What has this name, where that is of another kind.
fn other_kind(known: &[Known<'_>], kind: Kind, word: &[u8]) -> Option<Kind> {
    for one in known {
        let other = one.at.kind;
        if other != kind && one.gives(other) && one.name == word {
            return Some(other);
        }
    }
    None
}

// The line below the place on which one of this kind gets this name.
fn line_below(
    alloc: Global,
    lines: &mut Lines,
    refused: &RefusedIn<'_>,
    kind: Kind,
    word: &[u8],
) -> Option<u64> {
    match known_in_text(alloc, refused) {
        Ok(known) => Some(stand_of(known.as_slice(), kind, word)?.line),
        Err(_) => {
            lines.fail();
            None
        }
    }
}

// Whether a group has this name.
fn is_group(known: &[Known<'_>], word: &[u8]) -> bool {
    known.iter().any(|one| one.is_group && one.name == word)
}

fn has_any(known: &[Known<'_>], kind: Kind) -> bool {
    known.iter().any(|one| one.gives(kind))
}

// Shows the names of what the controller of a label lists, the nearest to what the label names first.
fn push_listed(
    alloc: Global,
    lines: &mut Lines,
    refused: &RefusedIn<'_>,
    known: &[Known<'_>],
    label: (&[u8], &[u8]),
) {
    let (wanted, word) = label;
    let mut nearest = Nearest::new(alloc, word);
    let mut controller: &[u8] = &[];
    for one in known {
        if one.begins_list() {
            controller = one.name;
        }
        if one.is_listed() && controller == wanted && nearest.add(alloc, one.name).is_err() {
            lines.fail();
        }
    }
    nearest.tell(lines);
    match nearest.near_ones(alloc) {
        Ok(near) => mend_label(lines, refused, &near, word),
        Err(_) => lines.fail(),
    }
}

// Notes the near names, each in the place of this one, with which a label ends. A `*` after it goes.
fn mend_label(lines: &mut Lines, refused: &RefusedIn<'_>, near: &Nearest<'_>, word: &[u8]) {
    let token = refused.token();
    let front = token
        .get(..token.len().saturating_sub(word.len()))
        .unwrap_or(&[]);
    let end = if refused.is_before(b'*') {
        refused.place.end.saturating_add(1)
    } else {
        refused.place.end
    };
    near.mend(lines, (refused.place.start, end), (front, &[]));
}
