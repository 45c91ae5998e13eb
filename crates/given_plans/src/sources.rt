// What gives a plan: one text of either kind, or several briefs.

ghost use Rattle.std.specs.Prelude.{◌≡◌, ◌≤◌, ◌++◌, ◌∷◌, [], ℕ, List, length, IfOk, IfErr, IfSome};
ghost use Rattle.plan_core.specs.PlanContents.{plan_contents};
ghost use Rattle.brief_text.specs.Briefs.{AllMean};
ghost use Rattle.brief_text.specs.Splitting.{plan_meant};
ghost use Rattle.brief_text.specs.Together.{together};
ghost use Rattle.given_plans.specs.Given.{AddsBrief, RefusesFurther};
ghost use Rattle.given_plans.specs.Sources.{GiveThePlan, ReadsTexts, ReadsUpTo, HaltsAmong, HaltsAtBriefs, HaltsAtTexts, bytes_of};
ghost use Rattle.given_plans.specs.ReadingOn.{FromPlace, ReadsOn, RefusedAfter};
ghost use Rattle.run_parts.specs.Runs.{ReadsText, HaltsAtText};
ghost use Rattle.run_parts.specs.declared.errors.RunError.TheVariants.{NoMemory};

use crate::plans::{GivenPlan, Halted, Refusal, find_given, meant_together};
use brief_text::Briefs;
use origins::Spans;
use plan_text::Language;
use run_parts::devices::reading::READS;
use run_parts::{Input, read_within};
use std::alloc::Global;

/// The plan that the texts give which these readers give: that of one text, which may be a plan text or a brief, or that of
/// several briefs. Each is read and judged before the next one is read.
///
/// # Errors
///
/// `Read` where a reader failed or gave no end, and `Plan` with the first refusal of a text; later readers are then as they
/// were. `NoMemory` where an allocation fails.
pub fn find_among<I: Input>(alloc: Global, readers: &mut [I]) -> Result<GivenPlan, Halted>
    ensures read { IfOk result (λ it.
        ReadsTexts I.reader readers.old (bytes_of it.provenance.texts.items) readers.new) }
    ensures given { IfOk result (λ it. GiveThePlan (bytes_of it.provenance.texts.items) (plan_contents it.plan)) }
    ensures stops { IfErr result (λ e. HaltsAtTexts I.reader readers.old e.error readers.new) }
    ensures text { IfErr result (λ e. IfSome e.text (λ it.
        ReadsUpTo I.reader readers.old (bytes_of it.before.items) it.text.items readers.new)) }
{
    if readers.len() == 1 {
        find_given(alloc, &mut readers[0])
    } else {
        find_in_briefs(alloc, readers)
    }
}

/// The same where each text has to be a brief, also one alone.
///
/// # Errors
///
/// Those of `find_among`, where a plan text is refused as a brief.
pub fn find_in_briefs<I: Input>(alloc: Global, readers: &mut [I]) -> Result<GivenPlan, Halted>
    ensures read { IfOk result (λ it.
        ReadsTexts I.reader readers.old (bytes_of it.provenance.texts.items) readers.new) }
    ensures meant { IfOk result (λ it. AllMean (bytes_of it.provenance.texts.items) (plan_contents it.plan)) }
    ensures stops { IfErr result (λ e. HaltsAtBriefs I.reader readers.old e.error readers.new) }
    ensures text { IfErr result (λ e. IfSome e.text (λ it.
        ReadsUpTo I.reader readers.old (bytes_of it.before.items) it.text.items readers.new)) }
{
    let none = BriefsRead {
        briefs: Briefs::new(alloc),
        texts: Vec::new(alloc),
        spans: Spans::new(alloc),
    };
    match read_from(alloc, none, readers, 0) {
        Ok(read) => given_together(read),
        Err(halted) => Err(halted),
    }
}

// The plan that the items of these make up.
fn given_together(read: BriefsRead) -> Result<GivenPlan, Halted>
    ensures plan { IfOk result (λ it. plan_contents it.plan ≡ plan_meant (together read.briefs)) }
    ensures texts { IfOk result (λ it. it.provenance.texts ≡ read.texts) }
    ensures error { IfErr result (λ e. e.error ≡ NoMemory) }
    ensures no_text { IfErr result (λ e. IfSome e.text (λ it. ⊥)) }
{
    let BriefsRead {
        briefs,
        texts,
        spans,
    } = read;
    match meant_together(briefs) {
        Ok(meaning) => meaning.of(texts, spans),
        Err(_) => Err(Halted::memory()),
    }
}

// Briefs that have been read, and their texts: what hints say of a later one may stand in these.
#[derive(Drop)]
pub(crate) struct BriefsRead {
    pub(crate) briefs: Briefs,
    pub(crate) texts: Vec<Vec<u8>>,
    // the items and the names of these
    pub(crate) spans: Spans,
}

// With those that the readers give from this place on.
fn read_from<I: Input>(
    alloc: Global,
    read: BriefsRead,
    readers: &mut [I],
    place: usize,
) -> Result<BriefsRead, Halted>
    requires { place ≤ length readers.old }
    ensures read { IfOk result (λ it.
        FromPlace place (λ befores nows. ReadsOn I.reader read befores it nows) readers.old readers.new) }
    ensures stops { IfErr result (λ e.
        FromPlace place (λ befores nows. HaltsAmong I.reader (together read.briefs) befores e.error nows)
        readers.old readers.new) }
    ensures text { IfErr result (λ e. IfSome e.text (λ it.
        FromPlace place (λ befores nows. RefusedAfter I.reader (bytes_of read.texts.items)
        befores (bytes_of it.before.items) it.text.items nows) readers.old readers.new)) }
{
    if place == readers.len() {
        return Ok(read);
    }
    match read_next(alloc, read, &mut readers[place]) {
        Ok(read) => read_from(alloc, read, readers, place + 1),
        Err(halted) => Err(halted),
    }
}

// With the one that the reader gives.
fn read_next<I: Input>(alloc: Global, read: BriefsRead, next: &mut I) -> Result<BriefsRead, Halted>
    ensures read { IfOk result (λ it. (text : List ℕ) × ReadsText I.reader next.old text next.new
        × AddsBrief (together read.briefs) text (together it.briefs)
        × (bytes_of it.texts.items ≡ bytes_of read.texts.items ++ text ∷ [])) }
    ensures stops { IfErr result (λ e.
        HaltsAtText I.reader (RefusesFurther (together read.briefs)) next.old e.error next.new) }
    ensures text { IfErr result (λ e. IfSome e.text (λ it.
        ReadsText I.reader next.old it.text.items next.new × (it.before ≡ read.texts))) }
{
    let BriefsRead {
        briefs,
        texts,
        mut spans,
    } = read;
    let text = read_within(alloc, next, READS)?;
    match briefs.with_at(text.as_slice(), &mut spans) {
        Ok(briefs) => with_text(briefs, texts, text, spans),
        Err(refused) => {
            let refusal = Refusal {
                language: Language::Brief,
                refused,
            };
            Err(Halted::refused(text, texts, refusal, spans))
        }
    }
}

fn with_text(
    briefs: Briefs,
    mut texts: Vec<Vec<u8>>,
    text: Vec<u8>,
    spans: Spans,
) -> Result<BriefsRead, Halted>
    ensures briefs { IfOk result (λ it. it.briefs ≡ briefs) }
    ensures texts { IfOk result (λ it. bytes_of it.texts.items ≡ bytes_of texts.items ++ text.items ∷ []) }
    ensures error { IfErr result (λ e. e.error ≡ NoMemory) }
    ensures no_text { IfErr result (λ e. IfSome e.text (λ it. ⊥)) }
{
    match texts.push(text) {
        Ok(()) => Ok(BriefsRead {
            briefs,
            texts,
            spans,
        }),
        Err(_) => Err(Halted::memory()),
    }
}
