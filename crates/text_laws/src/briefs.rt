// One brief, and several.

ghost use Rattle.std.specs.Prelude.{◌↔◌, ℕ, List};
ghost use Rattle.brief_text.specs.Briefs.{Means, AllMean};
ghost use Rattle.brief_text.specs.Grammar.{Spells};
ghost use Rattle.brief_text.specs.Trees.{BriefItem};
ghost use Rattle.plan_core.specs.Contents.{Contents};
ghost use Rattle.text_laws.specs.Several.{EachSpells, all_items, MakeUpPlan};

/// Several briefs are the one text of their items: as one brief means the plan that its items make up, several mean the plan
/// that the items of all make up, one text after another.
pub fn several_briefs_are_one_text_of_their_items()
    ensures one { (text : List ℕ) (plan : Contents)
        → (Means text plan ↔ ((items : List BriefItem) × Spells text items × MakeUpPlan items plan)) }
    ensures several { (texts : List (List ℕ)) (plan : Contents)
        → (AllMean texts plan ↔ ((lists : List (List BriefItem)) × EachSpells texts lists × MakeUpPlan (all_items lists) plan)) }
{}
