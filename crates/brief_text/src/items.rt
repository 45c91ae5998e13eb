// The items of a brief, a function for each of them, and the plan that all make up.

ghost use Rattle.std.specs.Prelude.{◌≡◌, ◌⊎◌, ℕ, List, [], ◌∷◌, map, true, false, not, Some, None, Ok, Err, IfOk, IfErr, IfSome, OnOk, MatchResult, is_some};
ghost use Rattle.std.specs.Map.{lookup};
ghost use Rattle.std.specs.Str.{bytes_eq};
ghost use Rattle.plan_core.specs.Contents.{Contents};
ghost use Rattle.plan_core.specs.NameBytes.{name_bytes};
ghost use Rattle.plan_core.specs.PlanContents.{plan_contents};
ghost use Rattle.plan_core.specs.declared.builder.BuildError.{BuildError};
ghost use Rattle.plan_text.specs.Places.{Refuses, Passes};
ghost use Rattle.brief_tokens.specs.Heads.{opened};
ghost use Rattle.brief_tokens.specs.Reading.{left, letters_of};
ghost use Rattle.plan_text.specs.Reader.{refused_at};
ghost use Rattle.brief_text.specs.Briefs.{brief_read, text_read, items_in, is_end, Means, IsRefused};
ghost use Rattle.brief_text.specs.Items.{device_at, byte_at, message_at, controller_at, extend_at, group_at, names_from, listed_refusal, interrupt_at, never_at};
ghost use Rattle.brief_text.specs.Items.{item_at};
ghost use Rattle.brief_text.specs.Drafts.{with_made};
ghost use Rattle.brief_text.specs.Judging.{all_of, device_refusal, is_family};
ghost use Rattle.brief_text.specs.Standing.{draft, place, adds, entries_of, brief_frame};

use crate::boards::{Board, Never};
use crate::frames::Within;
use crate::naming::Named;
use crate::sources::Source;
use crate::splitting::push_all;
use crate::syntax::{FrameSyntax, Lengths, NameFound};
use crate::traces::Wanted;
use crate::words::known_address;
use brief_tokens::{Keyword, Symbol, Tokens, after_head, record};
use lexer::Letters;
use origins::{Head, Language, Spans};
use plan_core::{BuildError, Name, Plan};
use plan_text::{PlanError, Refused};
use std::alloc::{AllocError, Global};
use std::mem;

/// Reads a brief, and answers the plan that it means or its first refusal. `print_plan` of spellings writes the text of
/// that plan.
///
/// # Errors
///
/// P1 to P8 as `PlanError` has them: the first in the order of the brief, with its line there. P2 where the text does
/// not begin with `brief 1`, P4 also at a number after `*` that is not 1 to 255, P5 also at such a number, P7 and P8
/// also for the names of devices and data bytes. `NoMemory` where an allocation fails before another refusal is met.
pub fn expand_brief(alloc: Global, text: &[u8]) -> Result<Plan, PlanError>
    // What is answered is right.
    ensures meant { IfOk result (λ plan. Means text.now (plan_contents plan)) }
    ensures refused { IfErr result (λ e. (e ≡ PlanError.NoMemory) ⊎ IsRefused text.now e) }
    // What is right is answered, unless an allocation fails.
    ensures plans { (plan : Contents) → Means text.now plan →
        MatchResult result (λ it. plan_contents it ≡ plan) (λ e. e ≡ PlanError.NoMemory) }
    ensures refusals { (due : PlanError) → IsRefused text.now due →
        MatchResult result (λ it. ⊥) (λ e. (e ≡ PlanError.NoMemory) ⊎ (e ≡ due)) }
{
    match expand_brief_at(alloc, text) {
        Ok(plan) => Ok(plan),
        Err(refused) => Err(refused.error),
    }
}

/// The same, with the place of the refusal.
///
/// # Errors
///
/// As those of `expand_brief`.
pub fn expand_brief_at(alloc: Global, text: &[u8]) -> Result<Plan, Refused>
    // What is answered is right.
    ensures meant { IfOk result (λ plan. Means text.now (plan_contents plan)) }
    ensures refused { IfErr result (λ e. (e.error ≡ PlanError.NoMemory) ⊎ IsRefused text.now e.error) }
    // What is right is answered, unless an allocation fails.
    ensures plans { (plan : Contents) → Means text.now plan →
        MatchResult result (λ it. plan_contents it ≡ plan) (λ e. e.error ≡ PlanError.NoMemory) }
    ensures refusals { (due : PlanError) → IsRefused text.now due →
        MatchResult result (λ it. ⊥) (λ e. (e.error ≡ PlanError.NoMemory) ⊎ (e.error ≡ due)) }
{
    read(alloc, text)
}

// The same, by the definition of reading.
#[tactic(auto, unfolding(crate::specs::Briefs::brief_read))]
fn read(alloc: Global, text: &[u8]) -> Result<Plan, Refused>
    ensures read { IfOk result (λ plan. brief_read text.now ≡ Ok (plan_contents plan)) }
    ensures refused { IfErr result (λ e. Refuses (brief_read text.now) e.error) }
{
    let mut board = Board::new(alloc);
    let mut unasked = Spans::unasked(alloc);
    read_text(alloc, &mut board, text, &mut unasked)?;
    match board.finish() {
        Ok(plan) => Ok(plan),
        Err(_) => Err(Refused::memory()),
    }
}

/// The items of a text go into the board, and where they and their names stand to these of texts before it.
pub(crate) fn read_text(
    alloc: Global,
    board: &mut Board,
    text: &[u8],
    spans: &mut Spans,
) -> Result<(), Refused>
    ensures read { OnOk result (text_read (draft board.old) text.now ≡ Ok (draft board.new)) }
    ensures refused { IfErr result (λ e. Refuses (text_read (draft board.old) text.now) e.error) }
{
    let tokens = head_of(text, spans)?;
    let letters = tokens.letters();
    let mut taken = mem::replace(spans, Spans::unasked(alloc));
    taken.begin(Some(head_with(letters)));
    let mut source = Source::new(alloc, tokens, taken);
    match read_items(&mut source, board, text.len(), letters) {
        Ok(()) => {
            *spans = source.into_spans();
            Ok(())
        }
        Err(error) => {
            let refused = source.refusal(error);
            *spans = source.into_all_spans();
            Err(refused)
        }
    }
}

/// What a brief with these letters begins with.
pub(crate) fn head_with(letters: Letters) -> Head {
    Head {
        language: Language::Brief,
        version: if letters == Letters::Board { 2 } else { 1 },
    }
}

// The tokens after the head. Where that is refused, the names of the whole text are kept.
fn head_of<'a>(text: &'a [u8], spans: &mut Spans) -> Result<Tokens<'a>, Refused>
    ensures rest { IfOk result (λ rest. opened text.now ≡ Ok (letters_of rest, left rest)) }
    ensures refused { IfErr result (λ e. opened text.now ≡ Err e.error) }
{
    match after_head(text) {
        Ok(tokens) => Ok(tokens),
        Err(refused) => {
            record(text, spans);
            Err(refused)
        }
    }
}

// So many items at most, up to the end of the text.
fn read_items(
    source: &mut Source<'_>,
    board: &mut Board,
    most: usize,
    letters: Letters,
) -> Result<(), PlanError>
    ensures { Passes result (items_in letters most (draft board.old) (place source.old)) (draft board.new) }
{
    for _ in 0..most {
        if !read_item(source, board, letters)? {
            return Ok(());
        }
    }
    Err(source.token.unexpected())
}

/// Reads an item. It answers whether there was one before the end of the text.
#[tactic(auto, unfolding(crate::specs::Items::item_at))]
pub(crate) fn read_item(
    source: &mut Source<'_>,
    board: &mut Board,
    letters: Letters,
) -> Result<bool, PlanError>
    ensures read { IfOk result (λ more. more ≡ true →
        adds (item_at letters) (draft board.old) (place source.old) ≡ Ok (draft board.new, place source.new)) }
    ensures more { IfOk result (λ more. is_end (place source.old).tokens ≡ not more) }
    ensures same { IfOk result (λ more. more ≡ false → draft board.new ≡ draft board.old) }
    ensures refused { IfErr result (Refuses (adds (item_at letters) (draft board.old) (place source.old))) }
    ensures further { IfErr result (λ e. is_end (place source.old).tokens ≡ false) }
{
    let token = source.next(Wanted::Item);
    match token.symbol {
        Symbol::End => return Ok(false),
        Symbol::Keyword(Keyword::Device) => device(source, board)?,
        Symbol::Keyword(Keyword::Byte) => byte(source, board)?,
        Symbol::Keyword(Keyword::Group) => group(source, board)?,
        Symbol::Keyword(Keyword::Message) => message(source, board)?,
        Symbol::Keyword(Keyword::Controller) => controller(source, board)?,
        Symbol::Keyword(Keyword::Extend) => extend(source, board)?,
        Symbol::Keyword(Keyword::Interrupt) => interrupt(source, board)?,
        Symbol::Keyword(Keyword::Never) => never(source, board, letters)?,
        _ => return Err(token.unexpected()),
    }
    Ok(true)
}

// NAME ADDRESS ;
#[tactic(auto, unfolding(crate::specs::Items::device_at, crate::specs::Drafts::with_item))]
fn device(source: &mut Source<'_>, board: &mut Board) -> Result<(), PlanError>
    ensures { Passes result (adds device_at (draft board.old) (place source.old)) (draft board.new, place source.new) }
{
    let named = source.name()?;
    once(&board.devices, &named)?;
    let address = source.address()?;
    source.semicolon()?;
    board.uses.device(&named, board.file, address.value)?;
    board.devices.add(named.name, address.value)?;
    Ok(())
}

// NAME DATA ;
#[tactic(auto, unfolding(crate::specs::Items::byte_at, crate::specs::Drafts::with_item))]
fn byte(source: &mut Source<'_>, board: &mut Board) -> Result<(), PlanError>
    ensures { Passes result (adds byte_at (draft board.old) (place source.old)) (draft board.new, place source.new) }
{
    let named = source.name()?;
    once(&board.bytes, &named)?;
    let bits = source.pattern()?;
    source.semicolon()?;
    board.uses.byte(&named, board.file, bits.value)?;
    board.bytes.add(named.name, bits.value)?;
    Ok(())
}

// NAME NAME NAME* ;
#[tactic(auto, unfolding(crate::specs::Items::group_at, crate::specs::Drafts::with_item))]
fn group(source: &mut Source<'_>, board: &mut Board) -> Result<(), PlanError>
    ensures { Passes result (adds group_at (draft board.old) (place source.old)) (draft board.new, place source.new) }
{
    let named = source.name()?;
    once(&board.devices, &named)?;
    let first = source.device()?;
    allowed(board.device_refusal(&[], &first.name), first.line)?;
    let devices = devices_after(source, board, first.name)?;
    board.add_group(named.name, devices)?;
    Ok(())
}

// NAME* ; with this name before them.
fn devices_after(
    source: &mut Source<'_>,
    board: &Board,
    first: Name,
) -> Result<Vec<Name>, PlanError>
    ensures read { IfOk result (λ it.
        names_from (device_refusal (draft board.now)) (name_bytes first ∷ []) (place source.old).tokens (place source.old) ≡
        Ok (map name_bytes it.items, place source.new)) }
    ensures refused { IfErr result (Refuses
        (names_from (device_refusal (draft board.now)) (name_bytes first ∷ []) (place source.old).tokens (place source.old))) }
{
    let mut devices = Vec::new(source.alloc);
    devices.push(first)?;
    'names: loop {
        let token = source.next(Wanted::Device);
        if token.is_semicolon() {
            return Ok(devices);
        }
        let name = source.name_of(token)?;
        allowed(board.device_refusal(devices.as_slice(), &name), token.line)?;
        devices.push(name)?;
    }
}

// NAME frame frame* ;
#[tactic(auto, unfolding(crate::specs::Items::message_at, crate::specs::Drafts::with_item))]
fn message(source: &mut Source<'_>, board: &mut Board) -> Result<(), PlanError>
    ensures { Passes result (adds message_at (draft board.old) (place source.old)) (draft board.new, place source.new) }
{
    let named = source.name()?;
    allowed(board.message_refusal(&named.name), named.line)?;
    let frames = source.message_frames(Within {
        board,
        name: &named.name,
    })?;
    let line = source.message_end()?;
    let groups = board.groups_in(&frames)?;
    board.grouped_refusal(&named.name, source.range, groups.as_slice(), line)?;
    board.uses.frame(&frames);
    add_message(board, named, source.range, &frames, groups.as_slice())?;
    Ok(())
}

// Adds a message in which these groups stand: one at most.
fn add_message(
    board: &mut Board,
    named: NameFound,
    range: Option<Lengths>,
    frames: &FrameSyntax,
    groups: &[Name],
) -> Result<(), AllocError>
    requires { IfSome range (λ it. is_family (draft board.old) (name_bytes named.name) ≡ false) }
    ensures { OnOk result (draft board.new ≡
        with_made (draft board.old) (name_bytes named.name) range (brief_frame frames.now) (map name_bytes groups.now)) }
{
    match groups {
        [] => board.add_messages(named, range, frames),
        [group, ..] => board.add_grouped(named, range, frames, group),
    }
}

// NAME NAME* ;
#[tactic(auto, unfolding(crate::specs::Items::controller_at, crate::specs::Drafts::with_item))]
fn controller(source: &mut Source<'_>, board: &mut Board) -> Result<(), PlanError>
    ensures { Passes result (adds controller_at (draft board.old) (place source.old)) (draft board.new, place source.new) }
{
    let named = source.name()?;
    allowed(board.controller_refusal(&named.name)?, named.line)?;
    let messages = listed(source, board, &[])?;
    board.add_controller(named, messages)?;
    Ok(())
}

// NAME NAME* ;
#[tactic(auto, unfolding(crate::specs::Items::extend_at, crate::specs::Drafts::with_item))]
fn extend(source: &mut Source<'_>, board: &mut Board) -> Result<(), PlanError>
    ensures { Passes result (adds extend_at (draft board.old) (place source.old)) (draft board.new, place source.new) }
{
    let named = source.controller()?;
    allowed(board.extend_refusal(&named.name), named.line)?;
    let messages = listed(source, board, board.listed_by(&named.name))?;
    board.extend_controller(&named.name, messages)?;
    Ok(())
}

// NAME* ; with the messages that these names stand for, for a controller that has some already.
fn listed(source: &mut Source<'_>, board: &Board, has: &[Name]) -> Result<Vec<Name>, PlanError>
    ensures read { IfOk result (λ it. (names : List (List ℕ)) ×
        (names_from (listed_refusal (draft board.now) (map name_bytes has.now)) [] (place source.old).tokens (place source.old) ≡
        Ok (names, place source.new)) × (map name_bytes it.items ≡ all_of (draft board.now) names)) }
    ensures refused { IfErr result (Refuses
        (names_from (listed_refusal (draft board.now) (map name_bytes has.now)) [] (place source.old).tokens (place source.old))) }
{
    let mut messages = Vec::new(source.alloc);
    'names: loop {
        let token = source.next(Wanted::Sending);
        if token.is_semicolon() {
            return Ok(messages);
        }
        let name = source.name_of(token)?;
        let further = board.named(&name)?;
        allowed(
            board.listing_refusal(has, messages.as_slice(), &name, further.as_slice()),
            token.line,
        )?;
        push_all(source.alloc, &mut messages, further.as_slice())?;
    }
}

// NAME to ;
#[tactic(auto, unfolding(crate::specs::Items::interrupt_at, crate::specs::Drafts::with_item))]
fn interrupt(source: &mut Source<'_>, board: &mut Board) -> Result<(), PlanError>
    ensures { Passes result (adds interrupt_at (draft board.old) (place source.old)) (draft board.new, place source.new) }
{
    let named = source.name()?;
    allowed(board.builder.interrupt_refusal(&named.name), named.line)?;
    let to = source.to(board, Wanted::KnownTarget)?;
    let Some(address) = known_address(&board.address(&to.value)) else {
        return Err(PlanError::Unexpected(to.line));
    };
    source.semicolon()?;
    board.uses.address(&to.value);
    board.add_interrupt(named, address)?;
    Ok(())
}

// party party ;
#[tactic(auto, unfolding(crate::specs::Items::never_at, crate::specs::Drafts::with_item))]
fn never(source: &mut Source<'_>, board: &mut Board, letters: Letters) -> Result<(), PlanError>
    ensures { Passes result (adds (never_at letters) (draft board.old) (place source.old)) (draft board.new, place source.new) }
{
    let first = source.party(letters)?;
    allowed(board.name_first(&first)?, first.line)?;
    let second = source.party(letters)?;
    allowed(board.name_second(&first, &second)?, second.line)?;
    source.semicolon()?;
    board.nevers.push(Never { first, second })?;
    Ok(())
}

// The refusal of a name on this line, where there is one.
fn allowed(refusal: Option<BuildError>, line: u64) -> Result<(), PlanError>
    ensures allowed { OnOk result (refusal ≡ None) }
    ensures refused { IfErr result (λ e. (cause : BuildError) × (refusal ≡ Some cause) × (e ≡ refused_at cause line)) }
{
    match refusal {
        None => Ok(()),
        Some(BuildError::TooLong) => Err(PlanError::TooLong(line)),
        Some(BuildError::TooMany) => Err(PlanError::TooMany(line)),
        Some(BuildError::Twice) => Err(PlanError::Twice(line)),
        Some(BuildError::Unknown) => Err(PlanError::Unknown(line)),
        Some(BuildError::NoMemory) => Err(PlanError::NoMemory),
    }
}

// A name that stands already among those of its kind is refused.
fn once<T: Copy>(known: &Named<T>, named: &NameFound) -> Result<(), PlanError>
    ensures allowed { OnOk result (lookup (bytes_eq (name_bytes named.now.name)) (entries_of known.now) ≡ None) }
    ensures refused { IfErr result (λ e. (is_some (lookup (bytes_eq (name_bytes named.now.name)) (entries_of known.now)) ≡
        true) × (e ≡ PlanError.Twice named.now.line)) }
{
    match known.get(&named.name) {
        Some(_) => Err(PlanError::Twice(named.line)),
        None => Ok(()),
    }
}
