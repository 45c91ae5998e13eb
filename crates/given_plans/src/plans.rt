// A plan that is given as a plan text, or as a brief.

ghost use Rattle.std.specs.Prelude.{◌≡◌, ◌⊎◌, true, [], ◌∷◌, ℕ, List, IfOk, IfErr, IfSome};
ghost use Rattle.plan_core.specs.PlanContents.{plan_contents};
ghost use Rattle.plan_text.specs.Refusals.{First};
ghost use Rattle.brief_text.specs.Briefs.{Means, IsRefused};
ghost use Rattle.brief_text.specs.Splitting.{plan_meant};
ghost use Rattle.brief_text.specs.Together.{together};
ghost use Rattle.given_plans.specs.Given.{GivesPlan, IsNeither, RefusesGiven, begins_second, is_version};
ghost use Rattle.given_plans.specs.Sources.{bytes_of};
ghost use Rattle.run_parts.specs.RunErrors.{run_error};
ghost use Rattle.run_parts.specs.Runs.{ReadsText, HaltsAtText};
ghost use Rattle.run_parts.specs.declared.errors.RunError.TheVariants.{NoMemory};

use brief_text::Briefs;
use brief_tokens::begin;
use lexer::Letters;
use origins::{Origins, Spans};
use plan_core::Plan;
use plan_text::{Language, Place, PlanError, Refused, read_plan_at};
use run_parts::devices::reading::READS;
use run_parts::{Input, RunError, read_within};
use std::alloc::{AllocError, Global};

/// What a plan was read from.
pub struct Provenance {
    /// Where its parts stand in the briefs that mean it. A plan text has none.
    pub origins: Option<Origins>,
    /// The texts, in the order in which they were read.
    pub texts: Vec<Vec<u8>>,
    /// Their items, and the names in these. All were kept.
    pub spans: Spans,
}

// Written out, so that one call lets it go.
impl Drop for Provenance {
    fn drop(self) {
        let Self {
            origins: _,
            texts: _,
            spans: _,
        } = self;
    }
}

/// A plan, and what it was read from.
#[derive(Drop)]
pub struct GivenPlan {
    pub plan: Plan,
    pub provenance: Provenance,
}

/// A text that was refused, for people.
#[derive(Drop)]
pub struct RefusedText {
    pub text: Vec<u8>,
    pub language: Language,
    pub place: Place,
    /// The briefs before it, of those that give the plan.
    pub before: Vec<Vec<u8>>,
    /// The items and the names of these, and of the text itself, also after the refusal.
    pub spans: Spans,
}

impl RefusedText {
    /// Which of the texts that give the plan it is, from 0 on.
    pub fn file(&self) -> u32 {
        u32::try_from(self.before.len()).unwrap_or(u32::MAX)
    }
}

/// Why a run goes no further.
#[derive(Drop)]
pub struct Halted {
    pub error: RunError,
    /// The text that was refused, where one was.
    pub text: Option<RefusedText>,
}

/// How a text is refused, as a plan or as a brief.
#[derive(Clone, Copy)]
pub struct Refusal {
    pub language: Language,
    pub refused: Refused,
}

impl Halted {
    /// The refusal of this text, after these, with the names in all of them.
    pub fn refused(text: Vec<u8>, before: Vec<Vec<u8>>, refusal: Refusal, spans: Spans) -> Halted
        ensures error { result.error ≡ run_error refusal.refused.error }
        ensures text { IfSome result.text (λ it. it.text ≡ text) }
        ensures before { IfSome result.text (λ it. it.before ≡ before) }
    {
        let Refused { error, place } = refusal.refused;
        Halted {
            error: RunError::from(error),
            text: match place {
                Some(place) => Some(RefusedText {
                    text,
                    language: refusal.language,
                    place,
                    before,
                    spans,
                }),
                None => None,
            },
        }
    }

    // An allocation failed.
    pub(crate) fn memory() -> Halted
        ensures error { result.error ≡ NoMemory }
        ensures text { IfSome result.text (λ it. ⊥) }
    {
        Halted {
            error: RunError::NoMemory,
            text: None,
        }
    }
}

impl From<RunError> for Halted {
    ghost from_gives = { λ error e. (e.error ≡ error) × IfSome e.text (λ it. ⊥) };

    fn from(error: RunError) -> Halted {
        Halted { error, text: None }
    }
}

impl From<AllocError> for Halted {
    ghost from_gives = { λ _ e. (e.error ≡ NoMemory) × IfSome e.text (λ it. ⊥) };

    fn from(_error: AllocError) -> Halted {
        Halted::memory()
    }
}

/// The plan that the text which the reader gives spells, or, where it does not begin as a plan text, the one that it means as a
/// brief. What begins as a brief of the second version is read as one, whatever its comments have.
///
/// # Errors
///
/// `Read` where the reader failed or gave no end, and `Plan` with the first refusal of the plan text or of the brief: P2 of the
/// plan text where it begins as neither. `NoMemory` where an allocation fails.
pub fn find_given<I: Input>(alloc: Global, text: &mut I) -> Result<GivenPlan, Halted>
    ensures found { IfOk result (λ it. (read : List ℕ) × ReadsText I.reader text.old read text.new
        × GivesPlan read (plan_contents it.plan) × (bytes_of it.provenance.texts.items ≡ read ∷ [])) }
    ensures stops { IfErr result (λ e. HaltsAtText I.reader RefusesGiven text.old e.error text.new) }
    ensures text { IfErr result (λ e. IfSome e.text (λ it.
        ReadsText I.reader text.old it.text.items text.new × (it.before.items ≡ []))) }
{
    let text = read_within(alloc, text, READS)?;
    let mut spans = Spans::new(alloc);
    match plan_of(alloc, text.as_slice(), &mut spans) {
        Ok(meaning) => of_one_text(alloc, meaning, text, spans),
        Err(refusal) => Err(Halted::refused(text, Vec::new(alloc), refusal, spans)),
    }
}

// What this text alone means.
fn of_one_text(
    alloc: Global,
    meaning: Meaning,
    text: Vec<u8>,
    spans: Spans,
) -> Result<GivenPlan, Halted>
    ensures plan { IfOk result (λ it. it.plan ≡ meaning.plan) }
    ensures texts { IfOk result (λ it. bytes_of it.provenance.texts.items ≡ text.items ∷ []) }
    ensures error { IfErr result (λ e. e.error ≡ NoMemory) }
    ensures no_text { IfErr result (λ e. IfSome e.text (λ it. ⊥)) }
{
    let mut texts = Vec::new(alloc);
    match texts.push(text) {
        Ok(()) => meaning.of(texts, spans),
        Err(_) => Err(Halted::memory()),
    }
}

// A plan, and where its parts stand in the briefs that mean it.
#[derive(Drop)]
pub(crate) struct Meaning {
    pub(crate) plan: Plan,
    pub(crate) origins: Option<Origins>,
}

impl Meaning {
    // With the texts that mean it, and the names in these, where they were kept.
    pub(crate) fn of(self, texts: Vec<Vec<u8>>, spans: Spans) -> Result<GivenPlan, Halted>
        ensures plan { IfOk result (λ it. it.plan ≡ self.plan) }
        ensures texts { IfOk result (λ it. it.provenance.texts ≡ texts) }
        ensures error { IfErr result (λ e. e.error ≡ NoMemory) }
        ensures no_text { IfErr result (λ e. IfSome e.text (λ it. ⊥)) }
    {
        if spans.check().is_err() {
            return Err(Halted::memory());
        }
        let Meaning { plan, origins } = self;
        Ok(GivenPlan {
            plan,
            provenance: Provenance {
                origins,
                texts,
                spans,
            },
        })
    }
}

/// The plan that the items of all briefs make up.
///
/// # Errors
///
/// `NoMemory` where an allocation fails.
pub(crate) fn meant_together(briefs: Briefs) -> Result<Meaning, AllocError>
    ensures { IfOk result (λ it. plan_contents it.plan ≡ plan_meant (together briefs)) }
{
    let origins = briefs.origins()?;
    Ok(Meaning {
        plan: briefs.plan()?,
        origins: Some(origins),
    })
}

fn plan_of(alloc: Global, text: &[u8], spans: &mut Spans) -> Result<Meaning, Refusal>
    ensures given { IfOk result (λ it. GivesPlan text.now (plan_contents it.plan)) }
    ensures refused { IfErr result (λ e.
        (e.refused.error ≡ PlanError.NoMemory) ⊎ IsNeither text.now e.refused.error) }
{
    if begins_second(text) {
        return as_brief(alloc, text, spans);
    }
    match read_plan_at(alloc, text, spans) {
        Ok(plan) => Ok(Meaning {
            plan,
            origins: None,
        }),
        Err(refused) if is_version(refused.error) => meant_by(alloc, text, refused, spans),
        Err(refused) => Err(Refusal {
            language: Language::Plan,
            refused,
        }),
    }
}

// The plan that the text means as a brief, where as a plan text it is refused so.
fn meant_by(
    alloc: Global,
    text: &[u8],
    head: Refused,
    spans: &mut Spans,
) -> Result<Meaning, Refusal>
    requires { is_version head.error ≡ true }
    ensures meant { IfOk result (λ it. Means text.now (plan_contents it.plan)) }
    ensures refused { First text.now head.error → IfErr result (λ e.
        (e.refused.error ≡ PlanError.NoMemory) ⊎ IsNeither text.now e.refused.error) }
{
    match as_brief(alloc, text, spans) {
        Ok(meaning) => Ok(meaning),
        Err(refusal) if is_version(refusal.refused.error) => Err(Refusal {
            language: Language::Plan,
            refused: head,
        }),
        Err(refusal) => Err(refusal),
    }
}

// The plan that the text means as a brief.
fn as_brief(alloc: Global, text: &[u8], spans: &mut Spans) -> Result<Meaning, Refusal>
    ensures meant { IfOk result (λ it. Means text.now (plan_contents it.plan)) }
    ensures refused { IfErr result (λ e.
        (e.refused.error ≡ PlanError.NoMemory) ⊎ IsRefused text.now e.refused.error) }
{
    let briefs = Briefs::new(alloc);
    match briefs.with_at(text, spans) {
        Ok(briefs) => match meant_together(briefs) {
            Ok(meaning) => Ok(meaning),
            Err(_) => Err(Refusal {
                language: Language::Brief,
                refused: Refused::memory(),
            }),
        },
        Err(refused) => Err(Refusal {
            language: Language::Brief,
            refused,
        }),
    }
}

fn begins_second(text: &[u8]) -> bool
    ensures { result ≡ begins_second text.now }
{
    match begin(text) {
        Ok(rest) => matches!(rest.letters(), Letters::Board),
        Err(_) => false,
    }
}

fn is_version(refusal: PlanError) -> bool
    ensures { result ≡ is_version refusal }
{
    matches!(refusal, PlanError::Version(_))
}
