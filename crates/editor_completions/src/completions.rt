// What may be written at a place of a document: what the reader would take there.

use crate::paths::{HeadPlace, end_in_head, other_paths, paths_on_disk, start_of_path};
use crate::sendings::{
    Listed, Sending, all_sendings, count_listed, has_word, listed_at, listed_of, words_listed,
};
use crate::sides::{
    Side, all_sides, controller_of, first_side, has_pair, has_side_of, is_part_taken,
};
use brief_text::slips_in;
use brief_tokens::is_board_word;
use editor_texts::{
    Edit, Given, Lines, Part, Range, Units, group_in, json, names_after_first, names_in,
    names_of_item, texts_of,
};
use growing_text::Text;
use origins::{ItemKind, Kind, Language, NameAt, NamedTexts, Role, Spans, halves};
use plan_text::Expected;
use plan_text::places::Further;
use run_values::{Halt, RefusedSource};
use serde::Serialize;
use std::alloc::{AllocError, Global};
use std::rt::Files;

// A word that stands nowhere. The reader says what it would have taken in its place.
const NOTHING: &[u8] = b" ?";

// The same after a word that may stand only where the reader says so.
const BUT_NOTHING: &[u8] = b" but ?";

#[derive(Clone, Copy, Serialize)]
#[serde(rename_all = "camelCase")]
struct Completion<'a> {
    label: &'a str,
    kind: u8,
    detail: &'a str,
    text_edit: Edit<'a>,
}

// Kinds of what is written, as the protocol numbers them.
const FUNCTION: u8 = 3;

const MODULE: u8 = 9;

const ENUM: u8 = 13;

const KEYWORD: u8 = 14;

const FILE: u8 = 17;

const FOLDER: u8 = 19;

const CONSTANT: u8 = 21;

// A place of a part: its number, its text, and where in that the word begins and ends that is written.
#[derive(Clone, Copy)]
struct At<'a> {
    number: usize,
    text: &'a [u8],
    start: usize,
    end: usize,
}

impl<'a> At<'a> {
    // The word so far.
    fn typed(self) -> &'a [u8] {
        self.text.get(self.start..self.end).unwrap_or(&[])
    }

    fn before(self) -> &'a [u8] {
        self.text.get(..self.start).unwrap_or(&[])
    }
}

/// What may be written in the place of the word that stands before this place of a part, as the protocol has it.
///
/// # Errors
///
/// Where an allocation fails.
pub fn completions_at<R: Files + AllocGlobal>(
    rt: &R,
    given: &Given,
    file: u32,
    offset: usize,
    units: Units,
) -> Result<String, AllocError> {
    let alloc = rt.alloc();
    let number = file as usize;
    let Some(part) = given.parts.get(number) else {
        return nothing(alloc);
    };
    let text = part.text.as_slice();
    let path = start_of_path(text, offset);
    let at = At {
        number,
        text,
        start: path.unwrap_or(start_of_word(text, offset)),
        end: offset,
    };
    if path.is_some() {
        paths_at(rt, given.parts.as_slice(), at, units)
    } else {
        words_at(alloc, given.parts.as_slice(), at, units)
    }
}

fn nothing(alloc: Global) -> Result<String, AllocError> {
    String::from_str(alloc, "[]")
}

// The files that the head may name there: those on disk, and others of the board.
fn paths_at<R: Files + AllocGlobal>(
    rt: &R,
    parts: &[Part],
    at: At<'_>,
    units: Units,
) -> Result<String, AllocError> {
    let alloc = rt.alloc();
    let lines = Lines::of(alloc, at.text, units)?;
    let mut rows = Rows::new(alloc, lines.range(at.start, at.end));
    let uri = parts.get(at.number).map_or("", |part| part.uri.as_str());
    let written = str::from_utf8(at.typed()).unwrap_or("");
    let on_disk = paths_on_disk(rt, uri, written)?;
    for path in on_disk.iter() {
        rows.add_path(path.as_str());
    }
    for path in other_paths(alloc, parts, at.number)?.iter() {
        if !on_disk.iter().any(|one| one.as_str() == path.as_str()) {
            rows.add(path.as_str(), FILE, "a file of this board");
        }
    }
    rows.finish()
}

// The words and names that the reader would take there.
fn words_at(alloc: Global, parts: &[Part], at: At<'_>, units: Units) -> Result<String, AllocError> {
    let cut = cut_parts(alloc, parts, at, NOTHING)?;
    let Some(wanted) = wanted_at(alloc, cut.as_slice(), at, NOTHING)? else {
        return nothing(alloc);
    };
    let takes_but = takes_but(alloc, parts, at, wanted.expected)?;
    let names = names_in(alloc, &wanted.spans, cut.as_slice())?;
    let lines = Lines::of(alloc, at.text, units)?;
    let spans = &wanted.spans;
    let item = spans.items().len().saturating_sub(1);
    let mut list = List {
        alloc,
        names: &names,
        spans,
        own: names_of_item(spans, item),
        item,
        typed: at.typed(),
        is_second: is_second(spans, at.number),
        is_head: end_in_head(at.before()) == Some(HeadPlace::Keyword),
        is_first: wanted.is_first,
        takes_but,
        rows: Rows::new(alloc, lines.range(at.start, at.end)),
    };
    list.add_expected(wanted.expected)?;
    list.finish()
}

// Whether the text of this number is a brief of the second version.
fn is_second(spans: &Spans, number: usize) -> bool {
    match spans.head(u32::try_from(number).unwrap_or(u32::MAX)) {
        Some(head) => head.language == Language::Brief && head.version == 2,
        None => false,
    }
}

// Where the word begins that ends there: a name, a label, or a keyword.
fn start_of_word(text: &[u8], offset: usize) -> usize {
    let mut start = offset;
    for byte in text.get(..offset).unwrap_or(&[]).iter().rev() {
        if !byte.is_ascii_alphanumeric() && !matches!(*byte, b'_' | b'/') {
            break;
        }
        start = start.saturating_sub(1);
    }
    start
}

// The parts up to this place, where these words follow.
fn cut_parts(
    alloc: Global,
    parts: &[Part],
    at: At<'_>,
    words: &[u8],
) -> Result<Vec<Part>, AllocError> {
    let mut cut = Vec::new(alloc);
    for (place, part) in parts.iter().enumerate() {
        if at.number < place {
            break;
        }
        let mut text = Vec::new(alloc);
        if place < at.number {
            text.extend_from_slice(part.text.as_slice())?;
        } else {
            text.extend_from_slice(at.before())?;
            text.extend_from_slice(words)?;
        }
        let part = part.with_text(alloc, text)?;
        if cut.push(part).is_err() {
            return Err(AllocError);
        }
    }
    Ok(cut)
}

// Whether `but` may stand there, where a data byte does before it: it follows an `any`, and the message has no other choice.
fn takes_but(
    alloc: Global,
    parts: &[Part],
    at: At<'_>,
    expected: Expected,
) -> Result<bool, AllocError> {
    let Expected::Further(further) = expected else {
        return Ok(false);
    };
    if !further.times || !further.made {
        return Ok(false);
    }
    let cut = cut_parts(alloc, parts, at, BUT_NOTHING)?;
    match wanted_at(alloc, cut.as_slice(), at, BUT_NOTHING)? {
        Some(wanted) => Ok(wanted.expected == Expected::BriefByte),
        None => Ok(false),
    }
}

// What the reader would take, and the names before that.
#[derive(Drop)]
struct Wanted {
    expected: Expected,
    spans: Spans,
    // whether nothing before that is refused
    is_first: bool,
}

// What it would take in the place of the last of these words.
fn wanted_at(
    alloc: Global,
    parts: &[Part],
    at: At<'_>,
    words: &[u8],
) -> Result<Option<Wanted>, AllocError> {
    let start = at.start.saturating_add(words.len().saturating_sub(1));
    let names = names_after_first(alloc, parts)?;
    let mut texts = texts_of(alloc, parts, names.as_slice())?;
    match texts.find(alloc) {
        Err(Halt::Text(_, source)) => wanted_after(alloc, source, parts, (at.number, start)),
        _ => Ok(None),
    }
}

// Where another text, or what stands before, is refused, the reader goes on as far as it can.
fn wanted_after(
    alloc: Global,
    source: RefusedSource,
    parts: &[Part],
    at: (usize, usize),
) -> Result<Option<Wanted>, AllocError> {
    let refused = source.refused;
    if refused.file() as usize == at.0 && refused.place.start == at.1 {
        return Ok(
            refused.place.expected.map(|expected| Wanted {
                expected,
                spans: refused.spans,
                is_first: true,
            }),
        );
    }
    if refused.language == Language::Plan {
        return Ok(None);
    }
    let mut bytes: Vec<&[u8]> = Vec::new(alloc);
    for part in parts {
        bytes.push(part.text.as_slice())?;
    }
    let slips = slips_in(alloc, bytes.as_slice())?;
    let mut expected = None;
    for slip in slips.all.iter() {
        if let Some(place) = slip.refused.place {
            if slip.file as usize == at.0 && place.start == at.1 {
                expected = place.expected;
            }
        }
    }
    match expected {
        Some(expected) => Ok(Some(Wanted {
            expected,
            spans: slips.spans,
            is_first: false,
        })),
        None => Ok(None),
    }
}

// ---- the answer

// What is offered in the place of one range.
#[derive(Drop)]
struct Rows {
    alloc: Global,
    range: Range,
    text: Text,
    before: &'static str,
}

impl Rows {
    fn new(alloc: Global, range: Range) -> Rows {
        Rows {
            alloc,
            range,
            text: Text::new(alloc),
            before: "",
        }
    }

    fn add(&mut self, label: &str, kind: u8, detail: &str) {
        let completion = Completion {
            label,
            kind,
            detail,
            text_edit: Edit {
                range: self.range,
                new_text: label,
            },
        };
        self.text.push(self.before);
        self.text.push_made(json(self.alloc, &completion));
        self.before = ",";
    }

    // A file on disk, or a folder.
    fn add_path(&mut self, path: &str) {
        if path.ends_with('/') {
            self.add(path, FOLDER, "a folder");
        } else {
            self.add(path, FILE, "a file");
        }
    }

    fn finish(self) -> Result<String, AllocError> {
        let Self { alloc, text, .. } = self;
        let mut list = Text::new(alloc);
        list.push("[");
        list.push_made(text.finish());
        list.push("]");
        list.finish()
    }
}

// ---- the list

#[derive(Drop)]
struct List<'n, 'a> {
    alloc: Global,
    names: &'n NamedTexts<'a>,
    spans: &'n Spans,
    // the names in the item that is written, and how many items stand before it
    own: &'n [NameAt],
    item: usize,
    // the word so far
    typed: &'n [u8],
    is_second: bool,
    // whether a `with` may stand there
    is_head: bool,
    // whether nothing before that is refused
    is_first: bool,
    takes_but: bool,
    rows: Rows,
}

// A word of the languages, and what it means.
type Meant = (&'static str, &'static str);

const MESSAGE: Meant = ("message", "frames, from a START to a STOP");

const CONTROLLER: Meant = ("controller", "a controller, and what it may send");

const INTERRUPT: Meant = ("interrupt", "a target that interrupts, and its address");

const NEVER: Meant = ("never", "two that never start together");

const PLAN_ITEMS: &[Meant] = &[MESSAGE, CONTROLLER, INTERRUPT];

const FIRST_ITEMS: &[Meant] = &[
    ("device", "a name for an address"),
    ("byte", "a name for a data byte"),
];

const GROUP: Meant = ("group", "a name for several devices");

const EXTEND: Meant = ("extend", "more that a controller may send");

const WITH: Meant = ("with", "a file whose items are used here");

const FRAMES: &[Meant] = &[
    ("write", "a frame that writes bytes"),
    ("read", "a frame that reads bytes"),
];

const STOP: Meant = ("stop", "a STOP");

const AGAIN: Meant = ("again", "a repeated START, and a frame");

const ELSE: Meant = ("else", "what is done after a NACK");

const ANY: Meant = ("any", "a data byte of any value");

const BUT: Meant = ("but", "any value but one, or but those of a span");

const MADE: &[Meant] = &[
    ("wr", "the byte of an address and a write"),
    ("rd", "the byte of an address and a read"),
    ("pec", "the packet error code of the bytes before it"),
    ("sum", "the checksum of the bytes before it"),
];

impl<'n, 'a> List<'n, 'a> {
    fn add_expected(&mut self, expected: Expected) -> Result<(), AllocError> {
        match expected {
            Expected::Item { never } => self.add_plan_items(never),
            Expected::BriefItem => self.add_brief_items(),
            Expected::Frame => self.add_words(FRAMES),
            Expected::Payload | Expected::Tail => self.add_words(&[STOP, AGAIN]),
            Expected::Else => self.add_words(&[ELSE]),
            Expected::Refusal => self.add_words(&[STOP]),
            Expected::Further(further) => self.add_further(further),
            _ => return self.add_names(expected),
        }
        Ok(())
    }

    fn add_names(&mut self, expected: Expected) -> Result<(), AllocError> {
        match expected {
            Expected::Sending => self.add_sendings(),
            Expected::Controller => self.add_controllers(),
            Expected::Party => self.add_sides(),
            Expected::Target => self.add_targets(),
            Expected::KnownTarget => self.add_known_targets(),
            Expected::Device { .. } => self.add_devices(),
            _ => Ok(()),
        }
    }

    fn finish(self) -> Result<String, AllocError> {
        let Self { rows, .. } = self;
        rows.finish()
    }

    // ---- words

    fn add_plan_items(&mut self, never: bool) {
        self.add_words(PLAN_ITEMS);
        if never {
            self.add_words(&[NEVER]);
        }
    }

    fn add_brief_items(&mut self) {
        if self.is_head {
            self.add_words(&[WITH]);
        }
        self.add_words(FIRST_ITEMS);
        if self.is_second {
            self.add_words(&[GROUP]);
        }
        self.add_words(&[MESSAGE, CONTROLLER]);
        if self.is_second {
            self.add_words(&[EXTEND]);
        }
        self.add_words(&[INTERRUPT, NEVER]);
    }

    fn add_further(&mut self, further: Further) {
        if further.bytes {
            self.add_bytes();
            self.add_words(&[ANY]);
        }
        if self.takes_but {
            self.add_words(&[BUT]);
        }
        if further.bytes && further.made {
            self.add_words(MADE);
        }
        if further.refusal {
            self.add_words(&[ELSE]);
        }
        self.add_words(FRAMES);
    }

    fn add_words(&mut self, words: &[Meant]) {
        for (word, means) in words {
            self.rows.add(word, KEYWORD, means);
        }
    }

    // ---- devices and bytes

    // Whether a name may stand in this text, which is given there. Where something is refused another one may have it as well.
    fn may_stand(&self, kind: Kind, at: NameAt) -> bool {
        at.gives(kind) && self.may_be(self.names.word(at)) && self.is_first_of(kind, at)
    }

    // Whether this may be a name here: it is none of the words of the second version.
    fn may_be(&self, word: &[u8]) -> bool {
        match str::from_utf8(word) {
            Ok(word) => !self.is_second || !is_board_word(word),
            Err(_) => false,
        }
    }

    fn is_first_of(&self, kind: Kind, at: NameAt) -> bool {
        if self.is_first {
            return true;
        }
        match self.names.given(kind, self.names.word(at)) {
            Some(first) => first.span == at.span,
            None => false,
        }
    }

    fn add_bytes(&mut self) {
        for at in self.names.names() {
            if self.may_stand(Kind::Byte, *at) {
                self.add_value(*at);
            }
        }
    }

    // The devices and the groups that a message may name: it names one group at most.
    fn add_targets(&mut self) -> Result<(), AllocError> {
        let group = group_in(self.names, self.own);
        for at in self.names.names() {
            if self.may_stand(Kind::Device, *at) {
                if !self.names.is_group(*at) {
                    self.add_value(*at);
                } else if is_none_or(group, *at) {
                    self.add_group(*at)?;
                }
            }
        }
        Ok(())
    }

    // Devices whose addresses are known in all bits.
    fn add_known_targets(&mut self) -> Result<(), AllocError> {
        for at in self.names.names() {
            if self.is_device(*at) && is_known(self.names.value(*at)) {
                self.add_value(*at);
            }
        }
        Ok(())
    }

    // The devices that may stand in a group: those that do not yet.
    fn add_devices(&mut self) -> Result<(), AllocError> {
        for at in self.names.names() {
            if self.is_device(*at) && !self.uses(self.names.word(*at)) {
                self.add_value(*at);
            }
        }
        Ok(())
    }

    fn is_device(&self, at: NameAt) -> bool {
        self.may_stand(Kind::Device, at) && !self.names.is_group(at)
    }

    // Whether the item that is written uses this name.
    fn uses(&self, word: &[u8]) -> bool {
        for at in self.own {
            if at.role == Role::Used && self.names.word(*at) == word {
                return true;
            }
        }
        false
    }

    // A device with its address, or a byte with its bits.
    fn add_value(&mut self, at: NameAt) {
        let value = str::from_utf8(self.names.value(at)).unwrap_or("");
        self.rows.add(word_of(self.names, at), CONSTANT, value);
    }

    // A group with its devices.
    fn add_group(&mut self, group: NameAt) -> Result<(), AllocError> {
        let mut devices = Text::new(self.alloc);
        let mut before = "";
        for at in names_of_item(self.spans, group.item) {
            if at.role == Role::Used {
                devices.push(before);
                devices.push(word_of(self.names, *at));
                before = " ";
            }
        }
        let devices = devices.finish()?;
        self.rows
            .add(word_of(self.names, group), ENUM, devices.as_str());
        Ok(())
    }

    // ---- messages

    // The messages that the controller may list which is written: none of which it lists something already. What a message makes is
    // offered where it lists some of that, or the word that is written begins so.
    fn add_sendings(&mut self) -> Result<(), AllocError> {
        let Some(controller) = self.own.first() else {
            return Ok(());
        };
        let all = all_sendings(self.alloc, self.names, self.spans)?;
        let all = all.as_slice();
        let words = words_listed(
            self.alloc,
            self.names,
            self.spans,
            self.names.word(*controller),
        )?;
        let listed = listed_of(self.alloc, all, words.as_slice())?;
        for (number, sending) in all.iter().enumerate() {
            let is_free = listed_at(listed.as_slice(), Some(number)) == Listed::Nothing;
            if is_free && self.is_open(all, listed.as_slice(), sending) {
                self.add_sending(all, sending)?;
            }
        }
        Ok(())
    }

    // Whether a name is none that another one is offered for.
    fn is_open(&self, all: &[Sending], listed: &[Listed], sending: &Sending) -> bool {
        let Some(parent) = sending.parent else {
            return true;
        };
        match all.get(parent) {
            Some(family) => {
                listed_at(listed, Some(parent)) == Listed::Some
                    || goes_on(self.typed, family.name.as_bytes())
            }
            None => false,
        }
    }

    // A name with what it stands for.
    fn add_sending(&mut self, all: &[Sending], sending: &Sending) -> Result<(), AllocError> {
        let name = sending.name.as_str();
        if self.may_be(name.as_bytes()) {
            let means = meaning_of(self.alloc, all, sending)?;
            self.rows.add(name, FUNCTION, means.as_str());
        }
        Ok(())
    }

    // ---- controllers

    // The controllers that may be extended, or that a plan may keep apart.
    fn add_controllers(&mut self) -> Result<(), AllocError> {
        let sides = all_sides(self.alloc, self.names, self.spans)?;
        let sides = sides.as_slice();
        let first = first_side(sides, self.item);
        let extends = match self.spans.items().last() {
            Some(item) => item.kind == ItemKind::Extends,
            None => false,
        };
        let all = all_sendings(self.alloc, self.names, self.spans)?;
        for at in self.names.names() {
            let word = self.names.word(*at);
            let is_free = if extends {
                !has_side_of(sides, word)
            } else {
                is_second_side(sides, first, word)
            };
            if is_free && self.may_stand(Kind::Controller, *at) {
                self.add_controller(all.as_slice(), *at)?;
            }
        }
        Ok(())
    }

    // A controller with the number of its messages.
    fn add_controller(&mut self, all: &[Sending], at: NameAt) -> Result<(), AllocError> {
        let words = words_listed(self.alloc, self.names, self.spans, self.names.word(at))?;
        let listed = listed_of(self.alloc, all, words.as_slice())?;
        let means = counted(self.alloc, count_listed(all, listed.as_slice()))?;
        self.rows
            .add(word_of(self.names, at), MODULE, means.as_str());
        Ok(())
    }

    // Whom a `never` may name: a controller, or what one sends.
    fn add_sides(&mut self) -> Result<(), AllocError> {
        let sides = all_sides(self.alloc, self.names, self.spans)?;
        let sides = sides.as_slice();
        let all = all_sendings(self.alloc, self.names, self.spans)?;
        if halves(self.typed).is_none() {
            self.add_controllers()?;
        }
        let mut controllers = Vec::new(self.alloc);
        for at in self.names.names() {
            if self.may_stand(Kind::Controller, *at) {
                controllers.push(self.names.word(*at))?;
            }
        }
        for controller in controllers.iter() {
            if self.is_begun(controller) {
                self.add_labels(all.as_slice(), sides, controllers.as_slice(), controller)?;
            }
        }
        Ok(())
    }

    // Whether the word that is written may be a label of this controller.
    fn is_begun(&self, controller: &[u8]) -> bool {
        match halves(self.typed) {
            Some((begun, _)) => begun == controller,
            None => true,
        }
    }

    // The labels of a controller: what it lists, and where its own name is written also what is listed by another name.
    fn add_labels(
        &mut self,
        all: &[Sending],
        sides: &[Side<'_>],
        controllers: &[&[u8]],
        controller: &[u8],
    ) -> Result<(), AllocError> {
        let words = words_listed(self.alloc, self.names, self.spans, controller)?;
        let listed = listed_of(self.alloc, all, words.as_slice())?;
        let is_named = halves(self.typed).is_some();
        for (number, sending) in all.iter().enumerate() {
            let is_sent = listed_at(listed.as_slice(), Some(number)) != Listed::Nothing;
            let name = sending.name.as_bytes();
            if is_sent && (is_named || has_word(words.as_slice(), name)) {
                self.add_label(all, sides, controllers, controller, sending)?;
            }
        }
        Ok(())
    }

    // A label, where no `never` refuses it here.
    fn add_label(
        &mut self,
        all: &[Sending],
        sides: &[Side<'_>],
        controllers: &[&[u8]],
        controller: &[u8],
        sending: &Sending,
    ) -> Result<(), AllocError> {
        let controller = str::from_utf8(controller).unwrap_or("");
        let name = sending.name.as_str();
        let label = format!(in self.alloc; "{controller}/{name}")?;
        let word = label.as_bytes();
        let first = first_side(sides, self.item);
        if word.len() <= 32
            && self.may_be(name.as_bytes())
            && is_second_side(sides, first, word)
            && !is_part_taken(sides, controllers, word)
        {
            let means = meaning_of(self.alloc, all, sending)?;
            self.rows.add(label.as_str(), FUNCTION, means.as_str());
        }
        Ok(())
    }
}

fn word_of<'a>(names: &NamedTexts<'a>, at: NameAt) -> &'a str {
    str::from_utf8(names.word(at)).unwrap_or("")
}

// Whether a group is this one, or there is none.
fn is_none_or(group: Option<NameAt>, at: NameAt) -> bool {
    match group {
        Some(group) => group.span == at.span,
        None => true,
    }
}

// Whether all bits of an address are known.
fn is_known(address: &[u8]) -> bool {
    let bits = address.get(2..).unwrap_or(&[]);
    !bits.is_empty() && !bits.contains(&b'x') && !bits.contains(&b'X')
}

// Whether a word begins with this name and `_`.
fn goes_on(word: &[u8], name: &[u8]) -> bool {
    match word.strip_prefix(name) {
        Some(rest) => rest.first() == Some(&b'_'),
        None => false,
    }
}

// Whether a side may stand after the first one, where there is one: it is of another controller, and they do not stand apart yet.
fn is_second_side(sides: &[Side<'_>], first: Option<&[u8]>, word: &[u8]) -> bool {
    match first {
        Some(first) => {
            controller_of(first) != controller_of(word) && !has_pair(sides, first, word)
        }
        None => true,
    }
}

// What a name stands for: itself, or the messages from one to another.
fn meaning_of(alloc: Global, all: &[Sending], sending: &Sending) -> Result<String, AllocError> {
    let Some(ends) = sending.ends else {
        return String::from_str(alloc, "a message");
    };
    match (all.get(ends.first), all.get(ends.last)) {
        (Some(first), Some(last)) if ends.first < ends.last => {
            let (first, last) = (first.name.as_str(), last.name.as_str());
            format!(in alloc; "{first} .. {last}")
        }
        (Some(only), _) => String::from_str(alloc, only.name.as_str()),
        _ => String::from_str(alloc, ""),
    }
}

// How many messages a controller lists.
fn counted(alloc: Global, messages: u64) -> Result<String, AllocError> {
    match messages {
        0 => String::from_str(alloc, "no messages"),
        1 => String::from_str(alloc, "1 message"),
        _ => format!(in alloc; "{messages} messages"),
    }
}
