// What holds of the texts of every message. Each function is a law: it does nothing, and its contract is the theorem.

ghost use Rattle.std.specs.Prelude.{◌≡◌, ◌+◌, ◌*◌, ◌≤◌, List, length};
ghost use Rattle.message_tree.specs.declared.bits.Address.{Address};
ghost use Rattle.message_tree.specs.declared.bits.Bit.{Bit};
ghost use Rattle.message_tree.specs.declared.bits.Pattern.{Pattern};
ghost use Rattle.message_tree.specs.Patterns.{pattern_bits, address_bits};
ghost use Rattle.message_tree.specs.declared.items.Item.TheVariants.{Stop, Claim};
ghost use Rattle.message_tree.specs.declared.tree.Frame.{Frame};
ghost use Rattle.message_tree.specs.Trees.{FrameTree};
ghost use Rattle.message_tree.specs.Texts.{FrameText, InterruptText};
ghost use Rattle.message_tree.specs.Sizes.{IsMost, IsLongest, bits_in, frame_slots, frame_bytes};
ghost use Rattle.message_tree.specs.Laws.{HasText, EndsWith, HearsBoth, NeverHears, NoneBeginsAnother};

/// Every message has a text. A text ends with its only STOP and has no claim. Where a target answers, it may answer
/// either bit. No text is a proper beginning of another. The longest has the slots that `Frame::slots` counts. The most
/// bits in a text are nine for each of the bytes that `Frame::longest` counts, and it has at most ten slots for each.
pub fn texts_of_messages()
    ensures some { (f : FrameTree) → HasText (FrameText f) }
    ensures stop { (f : FrameTree) → EndsWith Stop (FrameText f) }
    ensures answers { (f : FrameTree) → HearsBoth (FrameText f) }
    ensures whole { (f : FrameTree) → NoneBeginsAnother (FrameText f) }
    ensures longest { (f : FrameTree) → IsLongest (FrameText f) (frame_slots f) }
    ensures bytes { (f : FrameTree) → IsMost bits_in (FrameText f) (9 * frame_bytes f) }
    ensures slots { (f : FrameTree) → frame_slots f ≤ 10 * frame_bytes f }
{}

/// Every interrupt has a text. A text ends with its only claim and has no STOP, and no target answers in it.
/// It has two slots more than its address has bits.
pub fn texts_of_interrupts()
    ensures some { (address : List Bit) → HasText (InterruptText address) }
    ensures claim { (address : List Bit) → EndsWith Claim (InterruptText address) }
    ensures silent { (address : List Bit) → NeverHears (InterruptText address) }
    ensures longest { (address : List Bit) → IsLongest (InterruptText address) (length address + 2) }
    ensures whole { (address : List Bit) → NoneBeginsAnother (InterruptText address) }
{}

/// Patterns with the same bits are the same, and so are addresses.
pub fn patterns_are_their_bits()
    ensures patterns { (p q : Pattern) → pattern_bits p ≡ pattern_bits q → p ≡ q }
    ensures addresses { (a b : Address) → address_bits a ≡ address_bits b → a ≡ b }
{}
