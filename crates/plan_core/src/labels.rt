// How participants are written, and how they are found by that.

ghost use Rattle.std.specs.Prelude.{◌≡◌, ◌≢◌, ℕ, List, ◌++◌, ◌<◌, ◌↔◌, codes, string_bytes, IsTrue, IfOk, MatchOption};
ghost use Rattle.plan_core.specs.Contents.{Contents};
ghost use Rattle.plan_core.specs.Labels.{label_of};
ghost use Rattle.plan_core.specs.Limits.{IsWithinLimits};
ghost use Rattle.plan_core.specs.Participants.{participant_count};

use crate::plans::{Participant, Plan};
use std::alloc::{AllocError, Global};

impl Plan {
    ghost use Rattle.plan_core.specs.PlanContents.{plan_contents};

    /// The label of the participant with this number: `controller/message` for a sending, and `!interrupt` for an
    /// interrupt.
    pub fn label(&self, alloc: Global, i: u32) -> Result<String, AllocError>
        requires { i < participant_count (plan_contents self.now) }
        ensures { IfOk result (λ label. string_bytes label ≡ label_of (plan_contents self.now) i) }
    {
        match self.participant(i) {
            Participant::Sending {
                controller,
                message,
            } => {
                let controller = self.controller_name(controller).as_str();
                let message = self.message_name(message).as_str();
                sending_label(alloc, controller, message)
            }
            Participant::Interrupt(k) => interrupt_label(alloc, self.interrupt_name(k).as_str()),
        }
    }

    /// The number of the participant with this label, or `None` where no participant has it.
    pub fn find(&self, label: &str) -> Option<u32>
        ensures { MatchOption result ((i : ℕ) → i < participant_count (plan_contents self.now) →
            label_of (plan_contents self.now) i ≢ label.now)
            (λ i. (i < participant_count (plan_contents self.now)) ×
            (label_of (plan_contents self.now) i ≡ label.now)) }
    {
        for i in 0..self.participants() {
            if self.has_label(i, label) {
                return Some(i);
            }
        }
        None
    }

    fn has_label(&self, i: u32, label: &str) -> bool
        requires { i < participant_count (plan_contents self.now) }
        ensures { IsTrue result ↔ (label_of (plan_contents self.now) i ≡ label.now) }
    {
        let label = label.as_bytes();
        match self.participant(i) {
            Participant::Sending {
                controller,
                message,
            } => {
                let controller = self.controller_name(controller).as_str();
                let message = self.message_name(message).as_str();
                is_sending_label(label, controller.as_bytes(), message.as_bytes())
            }
            Participant::Interrupt(k) => {
                let name = self.interrupt_name(k).as_str();
                is_interrupt_label(label, name.as_bytes())
            }
        }
    }
}

fn sending_label(alloc: Global, controller: &str, message: &str) -> Result<String, AllocError>
    ensures { IfOk result (λ label. string_bytes label ≡ controller.now ++ (codes "/" ++ message.now)) }
{
    format!(in alloc; "{controller}/{message}")
}

fn interrupt_label(alloc: Global, name: &str) -> Result<String, AllocError>
    ensures { IfOk result (λ label. string_bytes label ≡ codes "!" ++ name.now) }
{
    format!(in alloc; "!{name}")
}

fn is_sending_label(label: &[u8], controller: &[u8], message: &[u8]) -> bool
    ensures { IsTrue result ↔ (controller.now ++ (codes "/" ++ message.now) ≡ label.now) }
{
    match rest_after(label, controller) {
        Some(rest) => match rest_after(rest, "/".as_bytes()) {
            Some(rest) => rest == message,
            None => false,
        },
        None => false,
    }
}

fn is_interrupt_label(label: &[u8], name: &[u8]) -> bool
    ensures { IsTrue result ↔ (codes "!" ++ name.now ≡ label.now) }
{
    match rest_after(label, "!".as_bytes()) {
        Some(rest) => rest == name,
        None => false,
    }
}

// What stands after `front`, where the bytes begin with it.
fn rest_after<'a>(bytes: &'a [u8], front: &[u8]) -> Option<&'a [u8]>
    ensures { MatchOption result ((rest : List ℕ) → front.now ++ rest ≢ bytes.now)
        (λ rest. front.now ++ rest.now ≡ bytes.now) }
{
    bytes.strip_prefix(front)
}

/// No two participants of a plan have one label, so that `find` gives back the number that `label` was asked for. The
/// function does nothing, and its contract is the theorem.
pub fn labels_differ()
    ensures { (plan : Contents) → IsWithinLimits plan → (i j : ℕ) → i < participant_count plan →
        j < participant_count plan → label_of plan i ≡ label_of plan j → i ≡ j }
{}
