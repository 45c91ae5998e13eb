// What briefs mean, beside what they say.

ghost use Rattle.std.specs.Prelude.{◌≡◌, ℕ, true, false, List, Some, map, slice_get, Contains};
ghost use Rattle.std.specs.List.{count_by};
ghost use Rattle.std.specs.Map.{keys_of};
ghost use Rattle.brief_text.specs.Briefs.{Means, AllMean};
ghost use Rattle.brief_text.specs.Drafts.{Draft};
ghost use Rattle.brief_text.specs.Splitting.{part_name, parts_of, parts, plan_meant};
ghost use Rattle.plan_core.specs.Contents.{Contents};
ghost use Rattle.plan_core.specs.Limits.{IsWithinLimits};
ghost use Rattle.plan_core.specs.Participants.{apart, participants_of};
ghost use Rattle.plan_core.specs.declared.plans.Participant.TheVariants.{Sending};
ghost use Rattle.text_laws.specs.Adding.{NoneIsRefused};
ghost use Rattle.text_laws.specs.Covering.{Sent, sent_by, told_apart, SendsFor};
ghost use Rattle.text_laws.specs.Sendings.{sends, lists};
ghost use Rattle.text_laws.specs.Several.{WasRead};

/// What briefs mean keeps the limits of plans, by which it was judged where it was read. So a builder refuses none of its
/// controllers as they are added, and whoever makes the plan fails for memory alone.
pub fn meant_plans_keep_the_limits()
    ensures one { (text : List ℕ) (plan : Contents) → Means text plan → IsWithinLimits plan }
    ensures several { (texts : List (List ℕ)) (plan : Contents) → AllMean texts plan → IsWithinLimits plan }
    ensures so_far { (draft : Draft) → WasRead draft → IsWithinLimits draft.plan }
    ensures added { (draft : Draft) → WasRead draft → NoneIsRefused draft.plan (parts draft) }
{}

/// Each message that a controller lists is in exactly one of the parts into which labels split it, and no other message is in
/// any.
pub fn each_message_is_in_one_part()
    ensures once { (draft : Draft) (controller : List ℕ × List (List ℕ)) (message : List ℕ)
        → WasRead draft → Contains draft.controllers controller
        → lists controller message ≡ true → count_by (sends message) (parts_of draft controller) ≡ 1 }
    ensures no_other { (draft : Draft) (controller : List ℕ × List (List ℕ)) (message : List ℕ)
        → WasRead draft → Contains draft.controllers controller
        → lists controller message ≡ false → count_by (sends message) (parts_of draft controller) ≡ 0 }
{}

/// The controllers of the plan are the parts of those of the briefs. Its participants that are no interrupts are the messages
/// that controllers list, each once: one sends it for its controller, and none sends another.
pub fn each_listed_message_has_one_participant()
    ensures somebody { (draft : Draft) (controller : List ℕ × List (List ℕ)) (message : List ℕ)
        → WasRead draft → Contains draft.controllers controller → lists controller message ≡ true
        → (p : ℕ) × SendsFor draft p (sent_by controller message) }
    ensures nobody_else { (draft : Draft) (p q : ℕ) (x : Sent)
        → WasRead draft → SendsFor draft p x → SendsFor draft q x → p ≡ q }
    ensures listed { (draft : Draft) (p : ℕ) (x : Sent) → WasRead draft → SendsFor draft p x
        → (controller : List ℕ × List (List ℕ)) × Contains draft.controllers controller
        × (controller.0 ≡ x.controller) × (lists controller x.message ≡ true) }
    ensures controllers { (draft : Draft) → WasRead draft
        → keys_of (plan_meant draft).controllers ≡ map part_name (parts draft) }
    ensures each { (draft : Draft) (p c k : ℕ) → WasRead draft
        → slice_get (participants_of (plan_meant draft)) p ≡ Some (Sending c k) → (x : Sent) × SendsFor draft p x }
{}

/// Two participants that send messages of controllers never start together exactly where one controller of the briefs sends
/// both, or a `never` covers them: it names the two controllers, whole or by labels that stand for these messages.
pub fn sendings_are_apart_as_briefs_say()
    ensures { (draft : Draft) (p q : ℕ) (x y : Sent) → WasRead draft → SendsFor draft p x → SendsFor draft q y
        → apart (plan_meant draft) p q ≡ told_apart draft x y }
{}
