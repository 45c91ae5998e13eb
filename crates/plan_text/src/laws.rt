// What holds of every text. A law does nothing: its contract is the theorem.

ghost use Rattle.std.specs.Prelude.{◌≡◌, ℕ, ◌⊎◌, List, Ok};
ghost use Rattle.plan_core.specs.Contents.{Contents};
ghost use Rattle.plan_text.specs.declared.errors.PlanError.{PlanError};
ghost use Rattle.plan_text.specs.Grammar.{Spells};
ghost use Rattle.plan_text.specs.Reader.{text_read};
ghost use Rattle.plan_text.specs.Refusals.{First};

/// The definition by which a text is read gives the plan that the grammar spells, and gives each plan that it spells.
pub fn texts_are_read_as_spelled()
    ensures read { (text : List ℕ) (plan : Contents) → text_read text ≡ Ok plan → Spells text plan }
    ensures spelled { (text : List ℕ) (plan : Contents) → Spells text plan → text_read text ≡ Ok plan }
{}

/// A text spells exactly one plan and has no first refusal, or it has exactly one first refusal and spells no plan.
pub fn texts_have_one_reading()
    ensures one_plan { (text : List ℕ) (P Q : Contents) → Spells text P → Spells text Q → P ≡ Q }
    ensures one_refusal { (text : List ℕ) (e f : PlanError) → First text e → First text f → e ≡ f }
    ensures not_both { (text : List ℕ) (P : Contents) (e : PlanError) → Spells text P → First text e → ⊥ }
    ensures one_of_both { (text : List ℕ) → ((P : Contents) × Spells text P) ⊎ ((e : PlanError) × First text e) }
{}
