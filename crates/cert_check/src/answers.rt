// What a check of a certificate answers.

use certificate::{CertFault, Refusal};
use plan_core::Plan;

/// What a certificate says of a plan.
#[derive(Clone, Copy, PartialEq, Eq)]
pub enum Answer {
    /// The certificate proves each pair of the plan: the plan is safe.
    Safe,
    /// The certificate shows a fault of one pair of the plan: the plan is not safe.
    Unsafe,
    /// The certificate shows neither.
    Wrong(CertFault),
}

/// The answer for a certificate.
#[derive(Drop)]
pub struct Judged {
    pub answer: Answer,
    /// Where the text is refused, if it is: after C1 and C3.
    pub refusal: Option<Refusal>,
}

/// A plan, and the answer for it and a certificate.
#[derive(Drop)]
pub struct Answered {
    pub plan: Plan,
    pub answer: Answer,
    /// Where the text of the certificate is refused, if it is: after C1 and C3.
    pub refusal: Option<Refusal>,
}
