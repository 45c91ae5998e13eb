// The run over two readers, and the exit status of the program.

ghost use Rattle.std.specs.Prelude.{◌≡◌, IfNone, IfSome, None, Some};
ghost use Rattle.run_parts.specs.PlanTexts.{RefusesPlan, SpellsPlan};
ghost use Rattle.run_parts.specs.Runs.{HaltsAtBoth, ReadsBoth, Reports, Stops};
ghost use Rattle.run_parts.specs.Statuses.{status_code};
ghost use Rattle.run_parts.specs.declared.runs.Status.{Status};
ghost use Rattle.verifying.specs.Verified.{Verified};

use run_parts::{Input, Output, RunError, exit_code};
use std::alloc::Global;
use verifying::run_verify;

/// How the program ends: its exit status, and what is refused, where something is.
#[derive(Clone, Copy)]
pub struct Ending {
    pub code: u8,
    pub refused: Option<RunError>,
}

impl Ending {
    ghost use Rattle.std.specs.Prelude.{◌≡◌, None, Some};

    /// With this status, and nothing refused.
    pub fn quietly(code: u8) -> Ending
        ensures code { result.code ≡ code }
        ensures refused { result.refused ≡ None }
    {
        Ending {
            code,
            refused: None,
        }
    }

    /// A refusal: status 2.
    pub fn refused(error: RunError) -> Ending
        ensures code { result.code ≡ 2 }
        ensures refused { result.refused ≡ Some error }
    {
        Ending {
            code: 2,
            refused: Some(error),
        }
    }
}

/// Writes what the certificate that the second reader gives says of the plan that the first reader gives: the run of
/// `run_verify`, and its exit status: 0, 1 and 2 for `Good`, `Bad` and `Refused`, and 2 where it has no whole report.
pub fn verified<I: Input, J: Input, O: Output>(
    alloc: Global,
    plan: &mut I,
    cert: &mut J,
    out: &mut O,
) -> Ending
    ensures report { IfNone result.refused ((status : Status) × (result.code ≡ status_code status)
        × Reports (ReadsBoth I.reader J.reader) Verified O.writer
        (plan.old, cert.old) out.old status (plan.new, cert.new) out.new) }
    ensures stops { IfSome result.refused (λ error. (result.code ≡ 2)
        × Stops (ReadsBoth I.reader J.reader) Verified O.writer (HaltsAtBoth I.reader J.reader RefusesPlan SpellsPlan)
        (plan.old, cert.old) out.old error (plan.new, cert.new) out.new) }
{
    let ended = run_verify(alloc, plan, cert, out);
    Ending {
        code: exit_code(ended),
        refused: ended.err(),
    }
}
