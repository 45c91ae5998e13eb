// What holds of every plan's canonical spelling, and of every brief that is written. A law does nothing: its contract is the
// theorem.

ghost use Rattle.std.specs.Prelude.{◌≡◌, false};
ghost use Rattle.plan_core.specs.Contents.{Contents};
ghost use Rattle.plan_core.specs.Limits.{IsWithinLimits};
ghost use Rattle.brief_text.specs.Briefs.{Means};
ghost use Rattle.brief_text.specs.Drafts.{Draft, no_items};
ghost use Rattle.brief_text.specs.Fitting.{MakeUp};
ghost use Rattle.brief_tokens.specs.Names.{has_brief_word};
ghost use Rattle.brief_text.specs.Splitting.{plan_meant};
ghost use Rattle.plan_text.specs.Grammar.{Spells};
ghost use Rattle.spellings.specs.Canonical.{plan_text};
ghost use Rattle.spellings.specs.Spelling.{brief_spelled};
ghost use Rattle.spellings.specs.Writing.{brief_items};

/// The canonical spelling of a plan spells that plan.
pub fn canonical_spellings_are_read()
    ensures { (plan : Contents) → IsWithinLimits plan → Spells (plan_text plan) plan }
{}

/// Each plan has items that make up a draft which means it.
pub fn plans_have_briefs()
    ensures { (plan : Contents) → IsWithinLimits plan
        → (draft : Draft) × MakeUp no_items (brief_items plan) draft × (plan_meant draft ≡ plan) }
{}

/// A brief that is written for a plan means it, where the words of briefs are none of its names.
pub fn briefs_are_written()
    ensures { (plan : Contents) → IsWithinLimits plan → has_brief_word plan ≡ false → Means (brief_spelled plan) plan }
{}
