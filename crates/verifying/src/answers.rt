// The answer to a certificate, as a line and as a status.

ghost use Rattle.std.specs.Prelude.{◌≡◌, IfOk, string_bytes};
ghost use Rattle.verifying.specs.Answers.{verify_line, answer_status};

use cert_check::Answer;
use certificate::CertFault;
use run_parts::Status;
use std::alloc::{AllocError, Global};

/// The status of a run that ends with this answer.
pub fn status_of_answer(answer: Answer) -> Status
    ensures { result ≡ answer_status answer }
{
    match answer {
        Answer::Safe => Status::Good,
        Answer::Unsafe => Status::Bad,
        Answer::Wrong(_) => Status::Refused,
    }
}

/// The line of an answer.
pub fn answer_line(alloc: Global, answer: Answer) -> Result<String, AllocError>
    ensures { IfOk result (λ line. string_bytes line ≡ verify_line answer) }
{
    match answer {
        Answer::Safe => format!(in alloc; "accepted safe\n"),
        Answer::Unsafe => format!(in alloc; "accepted unsafe\n"),
        Answer::Wrong(CertFault::Format(line)) => format!(in alloc; "wrong C1 line {line}\n"),
        Answer::Wrong(CertFault::Count) => format!(in alloc; "wrong C2\n"),
        Answer::Wrong(CertFault::TooDeep(line)) => format!(in alloc; "wrong C3 line {line}\n"),
        Answer::Wrong(CertFault::Pair(pair)) => format!(in alloc; "wrong C5 pair {pair}\n"),
    }
}
