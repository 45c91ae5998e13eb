// The items of a plan text, a function for each of them, and the plan that they make up.

ghost use Rattle.std.specs.Prelude.{◌≡◌, ◌⊎◌, [], map, true, false, not, Some, None, Ok, IfOk, IfErr, OnOk, MatchResult};
ghost use Rattle.plan_core.specs.Building.{list_refusal};
ghost use Rattle.plan_core.specs.Contents.{Contents};
ghost use Rattle.plan_core.specs.NameBytes.{name_bytes};
ghost use Rattle.plan_core.specs.PlanContents.{plan_contents};
ghost use Rattle.plan_core.specs.declared.builder.BuildError.{BuildError};
ghost use Rattle.plan_text.specs.Grammar.{Spells};
ghost use Rattle.plan_text.specs.Places.{Refuses};
ghost use Rattle.plan_text.specs.Reader.{text_read, message_at, controller_at, sendings_from, interrupt_at, never_at};
ghost use Rattle.plan_text.specs.Reader.{item_at, items_at, is_end, refused_at};
ghost use Rattle.plan_text.specs.Refusals.{First};

use crate::errors::PlanError;
use crate::places::{Expected, Kind, Refused};
use crate::sources::Source;
use crate::symbols::{Keyword, Symbol};
use crate::versions::{Version, read_version};
use origins::Spans;
use plan_core::{BuildError, Builder, Name, Plan};
use std::alloc::Global;
use std::mem;

/// Reads a plan text, or answers its first refusal.
///
/// # Errors
///
/// P1 to P8 as `PlanError` has them: the first in the order of the text, with its line. `NoMemory` where an allocation
/// fails before another refusal is met.
pub fn read_plan(alloc: Global, text: &[u8]) -> Result<Plan, PlanError>
    // What is answered is right.
    ensures spelled { IfOk result (λ plan. Spells text.now (plan_contents plan)) }
    ensures refused { IfErr result (λ e. (e ≡ PlanError.NoMemory) ⊎ First text.now e) }
    // What is right is answered, unless an allocation fails.
    ensures plans { (plan : Contents) → Spells text.now plan →
        MatchResult result (λ it. plan_contents it ≡ plan) (λ e. e ≡ PlanError.NoMemory) }
    ensures refusals { (due : PlanError) → First text.now due →
        MatchResult result (λ it. ⊥) (λ e. (e ≡ PlanError.NoMemory) ⊎ (e ≡ due)) }
{
    let mut unasked = Spans::unasked(alloc);
    match read_plan_at(alloc, text, &mut unasked) {
        Ok(plan) => Ok(plan),
        Err(refused) => Err(refused.error),
    }
}

/// The same, with the place of the refusal. The items and the names of the text are added to these of texts before it, where its
/// head is not refused.
///
/// # Errors
///
/// As those of `read_plan`.
pub fn read_plan_at(alloc: Global, text: &[u8], spans: &mut Spans) -> Result<Plan, Refused>
    // What is answered is right.
    ensures spelled { IfOk result (λ plan. Spells text.now (plan_contents plan)) }
    ensures refused { IfErr result (λ e. (e.error ≡ PlanError.NoMemory) ⊎ First text.now e.error) }
    // What is right is answered, unless an allocation fails.
    ensures plans { (plan : Contents) → Spells text.now plan →
        MatchResult result (λ it. plan_contents it ≡ plan) (λ e. e.error ≡ PlanError.NoMemory) }
    ensures refusals { (due : PlanError) → First text.now due →
        MatchResult result (λ it. ⊥) (λ e. (e.error ≡ PlanError.NoMemory) ⊎ (e.error ≡ due)) }
{
    read(alloc, text, spans)
}

// The same, by the definition of reading.
fn read(alloc: Global, text: &[u8], spans: &mut Spans) -> Result<Plan, Refused>
    ensures read { IfOk result (λ plan. text_read text.now ≡ Ok (plan_contents plan)) }
    ensures refused { IfErr result (λ e. Refuses (text_read text.now) e.error) }
{
    let (version, tokens) = read_version(text)?;
    let mut taken = mem::replace(spans, Spans::unasked(alloc));
    taken.begin(Some(version.head()));
    let mut reader = Reader {
        source: Source::new(alloc, tokens, taken),
        version,
        builder: Builder::new(alloc),
    };
    match reader.items() {
        Ok(()) => {
            *spans = reader.source.into_spans();
            Ok(reader.builder.finish())
        }
        Err(error) => {
            let refused = reader.source.refused(error);
            *spans = reader.source.into_all_spans();
            Err(refused)
        }
    }
}

// A plan text of which some items have been read.
#[derive(Drop)]
struct Reader<'a> {
    source: Source<'a>,
    version: Version,
    builder: Builder,
}

impl<'a> Reader<'a> {
    ghost use Rattle.plan_text.specs.Places.{so_far, ahead, Passes, Gives};

    // All items.
    fn items(&mut self) -> Result<(), PlanError>
        ensures read { OnOk result (items_at self.old.version (so_far self.old) (ahead self.old) ≡ Ok (so_far self.new)) }
        ensures refused { IfErr result (Refuses (items_at self.old.version (so_far self.old) (ahead self.old))) }
    {
        while self.item()? {}
        Ok(())
    }

    // message NAME frame ; | controller NAME NAME* ; | interrupt NAME ADDR7 ; | never NAME NAME ;
    // It answers whether there was an item before the end of the text.
    #[tactic(auto, unfolding(crate::specs::Reader::item_at))]
    fn item(&mut self) -> Result<bool, PlanError>
        ensures read { IfOk result (λ more. more ≡ true →
            item_at self.old.version (so_far self.old) (ahead self.old) ≡ Ok (so_far self.new, ahead self.new)) }
        ensures more { IfOk result (λ more. is_end (ahead self.old).tokens ≡ not more) }
        ensures same { IfOk result (λ more. more ≡ false → so_far self.new ≡ so_far self.old) }
        ensures refused { IfErr result (Refuses (item_at self.old.version (so_far self.old) (ahead self.old))) }
        ensures further { IfErr result (λ e. is_end (ahead self.old).tokens ≡ false) }
        ensures version { self.new.version ≡ self.old.version }
    {
        let never = self.version == Version::Two;
        let token = self.source.next(Expected::Item { never });
        match token.symbol {
            Symbol::End => return Ok(false),
            Symbol::Keyword(Keyword::Message) => self.message()?,
            Symbol::Keyword(Keyword::Controller) => self.controller()?,
            Symbol::Keyword(Keyword::Interrupt) => self.interrupt()?,
            Symbol::Keyword(Keyword::Never) if self.version == Version::Two => self.never()?,
            _ => return Err(token.unexpected()),
        }
        Ok(true)
    }

    // NAME frame ;
    #[tactic(auto, unfolding(crate::specs::Reader::message_at))]
    fn message(&mut self) -> Result<(), PlanError>
        ensures read { Passes result (message_at (so_far self.old) (ahead self.old)) (so_far self.new, ahead self.new) }
        ensures version { self.new.version ≡ self.old.version }
    {
        let named = self.source.name(Expected::Name(Kind::Message))?;
        allowed(self.builder.message_name_refusal(&named.name), named.line)?;
        let frame = self.source.message_frame()?;
        self.source.semicolon()?;
        self.builder.add_message(named.name, frame)?;
        Ok(())
    }

    // NAME NAME* ;
    #[tactic(auto, unfolding(crate::specs::Reader::controller_at))]
    fn controller(&mut self) -> Result<(), PlanError>
        ensures read { Passes result (controller_at (so_far self.old) (ahead self.old))
            (so_far self.new, ahead self.new) }
        ensures version { self.new.version ≡ self.old.version }
    {
        let named = self.source.name(Expected::Name(Kind::Controller))?;
        allowed(
            self.builder.controller_name_refusal(&named.name),
            named.line,
        )?;
        let messages = self.sendings()?;
        self.builder
            .add_controller(named.name, messages.as_slice())?;
        Ok(())
    }

    // NAME* ; with the names of messages that one controller may send.
    fn sendings(&mut self) -> Result<Vec<Name>, PlanError>
        ensures read { Gives (λ it. map name_bytes it.items) result
            (sendings_from (so_far self.old) [] (ahead self.old).tokens (ahead self.old).nodes) (ahead self.new) }
        ensures known { IfOk result (λ it. list_refusal (so_far self.old) [] (map name_bytes it.items) ≡ None) }
        ensures same { (so_far self.new ≡ so_far self.old) × (self.new.version ≡ self.old.version) }
    {
        let mut messages = Vec::new(self.source.alloc);
        'names: loop {
            let token = self.source.next(Expected::Sending);
            if let Symbol::Semicolon = token.symbol {
                return Ok(messages);
            }
            let message = self.source.name_of(token)?;
            allowed(
                self.builder.sending_refusal(messages.as_slice(), &message),
                token.line,
            )?;
            messages.push(message)?;
        }
    }

    // NAME ADDR7 ;
    #[tactic(auto, unfolding(crate::specs::Reader::interrupt_at))]
    fn interrupt(&mut self) -> Result<(), PlanError>
        ensures read { Passes result (interrupt_at (so_far self.old) (ahead self.old))
            (so_far self.new, ahead self.new) }
        ensures version { self.new.version ≡ self.old.version }
    {
        let named = self.source.name(Expected::Name(Kind::Interrupt))?;
        allowed(self.builder.interrupt_refusal(&named.name), named.line)?;
        let address = self.source.interrupt_address()?;
        self.source.semicolon()?;
        self.builder.add_interrupt(named.name, address)?;
        Ok(())
    }

    // NAME NAME ;
    #[tactic(auto, unfolding(crate::specs::Reader::never_at))]
    fn never(&mut self) -> Result<(), PlanError>
        ensures read { Passes result (never_at (so_far self.old) (ahead self.old)) (so_far self.new, ahead self.new) }
        ensures version { self.new.version ≡ self.old.version }
    {
        let first = self.source.name(Expected::Controller)?;
        if !self.builder.has_controller(&first.name) {
            return Err(PlanError::Unknown(first.line));
        }
        let second = self.source.name(Expected::Controller)?;
        allowed(
            self.builder.never_refusal(&first.name, &second.name),
            second.line,
        )?;
        self.source.semicolon()?;
        self.builder.add_never(&first.name, &second.name)?;
        Ok(())
    }
}

// The refusal of a name on this line, where there is one.
fn allowed(refusal: Option<BuildError>, line: u64) -> Result<(), PlanError>
    ensures allowed { OnOk result (refusal ≡ None) }
    ensures refused { IfErr result (λ e. (cause : BuildError) × (refusal ≡ Some cause) × (e ≡ refused_at cause line)) }
{
    match refusal {
        None => Ok(()),
        Some(BuildError::TooLong) => Err(PlanError::TooLong(line)),
        Some(BuildError::TooMany) => Err(PlanError::TooMany(line)),
        Some(BuildError::Twice) => Err(PlanError::Twice(line)),
        Some(BuildError::Unknown) => Err(PlanError::Unknown(line)),
        Some(BuildError::NoMemory) => Err(PlanError::NoMemory),
    }
}
