// Texts with the same words, and texts that have a layout.

ghost use Rattle.std.specs.Prelude.{◌≡◌, ◌↔◌, ℕ, List, None, Ok, Err};
ghost use Rattle.brief_text.specs.Briefs.{text_read, Means};
ghost use Rattle.brief_text.specs.Drafts.{Draft};
ghost use Rattle.given_plans.specs.Given.{IsNeither};
ghost use Rattle.layout.specs.Refusals.{letters_in, refusal_of};
ghost use Rattle.layout.specs.SameWords.{SameWords};
ghost use Rattle.plan_core.specs.Contents.{Contents};
ghost use Rattle.plan_text.specs.Grammar.{Spells};
ghost use Rattle.plan_text.specs.Refusals.{First};
ghost use Rattle.plan_text.specs.declared.errors.PlanError.{PlanError};

/// Where two texts have the same words, each spells the plans that the other spells, and means the plan that the other means:
/// a text that `layout::formatted` gives, and the text that it was given. They are read alike after other briefs too, and
/// where one is refused the other is.
pub fn same_words_have_one_meaning()
    ensures spells { (one other : List ℕ) (plan : Contents) → SameWords one other → (Spells one plan ↔ Spells other plan) }
    ensures means { (one other : List ℕ) (plan : Contents) → SameWords one other → (Means one plan ↔ Means other plan) }
    ensures after_others { (one other : List ℕ) (draft after : Draft) → SameWords one other
        → ((text_read draft one ≡ Ok after) ↔ (text_read draft other ≡ Ok after)) }
    ensures refused_plans { (one other : List ℕ) (e : PlanError) → SameWords one other → First one e
        → (f : PlanError) × First other f }
    ensures refused_briefs { (one other : List ℕ) (draft : Draft) (e : PlanError) → SameWords one other
        → text_read draft one ≡ Err e → (f : PlanError) × (text_read draft other ≡ Err f) }
{}

/// Each text that a reader takes, of a plan or of a brief, has a layout. Where the first two tokens of a text are refused, it
/// is with the first refusal of a text that is neither a plan nor a brief.
pub fn what_is_read_is_laid_out()
    ensures plans { (text : List ℕ) (plan : Contents) → Spells text plan → refusal_of text ≡ None }
    ensures briefs { (text : List ℕ) (draft after : Draft) → text_read draft text ≡ Ok after → refusal_of text ≡ None }
    ensures heads { (text : List ℕ) (e : PlanError) → letters_in text ≡ Err e → IsNeither text e }
{}
