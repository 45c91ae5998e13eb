// What holds of every text of briefs. A law does nothing: its contract is the theorem.

ghost use Rattle.std.specs.Prelude.{◌≡◌, ◌<◌, ◌≤◌, ◌⊎◌, ℕ, List, length, true, Ok, Err};
ghost use Rattle.std.specs.List.{count_by};
ghost use Rattle.brief_text.specs.Choices.{Block, blocks, allows, is_choice, holds, Cuts, AreAscending};
ghost use Rattle.brief_text.specs.Trees.{Choice};
ghost use Rattle.plan_core.specs.Contents.{Contents};
ghost use Rattle.plan_text.specs.declared.errors.PlanError.{PlanError};
ghost use Rattle.brief_text.specs.Briefs.{text_read, Means};
ghost use Rattle.brief_text.specs.Drafts.{Draft, no_items};
ghost use Rattle.brief_text.specs.Fitting.{Says};
ghost use Rattle.brief_text.specs.Splitting.{plan_meant};

/// The definition by which a text is read after others gives the items that the grammar spells, where each fits, and it
/// gives what all such items make up.
pub fn texts_are_read_as_spelled()
    ensures read { (text : List ℕ) (draft after : Draft) → text_read draft text ≡ Ok after → Says text draft after }
    ensures spelled { (text : List ℕ) (draft after : Draft) → Says text draft after → text_read draft text ≡ Ok after }
{}

/// A text, read after others, says exactly one list of items that fit and has no refusal, or it has one and says none.
pub fn texts_have_one_reading()
    ensures one_tree { (text : List ℕ) (draft P Q : Draft) (p : Says text draft P) (q : Says text draft Q)
        → p.items ≡ q.items }
    ensures one_draft { (text : List ℕ) (draft P Q : Draft) → Says text draft P → Says text draft Q → P ≡ Q }
    ensures not_both { (text : List ℕ) (draft after : Draft) (e : PlanError)
        → Says text draft after → text_read draft text ≡ Err e → ⊥ }
    ensures one_of_both { (text : List ℕ) (draft : Draft) → ((after : Draft) × Says text draft after)
        ⊎ ((e : PlanError) × (text_read draft text ≡ Err e)) }
{}

/// A brief means the plan that its items make up, and no other.
pub fn briefs_mean_what_they_say()
    ensures said { (text : List ℕ) (plan : Contents) → Means text plan
        → (draft : Draft) × Says text no_items draft × (plan ≡ plan_meant draft) }
    ensures meant { (text : List ℕ) (draft : Draft) → Says text no_items draft → Means text (plan_meant draft) }
{}

/// The blocks of a choice have its values and no others, each value in one of them. They stand in ascending order, and no
/// fewer blocks have the same values.
pub fn choices_are_cut_into_the_fewest_blocks()
    ensures cut { (choice : Choice) → Cuts choice (blocks choice) }
    ensures once { (choice : Choice) (value : ℕ) → value < 256 → allows choice value ≡ true
        → count_by (holds value) (blocks choice) ≡ 1 }
    ensures ascending { (choice : Choice) → AreAscending (blocks choice) }
    ensures fewest { (choice : Choice) (others : List Block) → is_choice choice ≡ true → Cuts choice others
        → length (blocks choice) ≤ length others }
{}
