//! Checks message plans of controllers and targets that share one two-wire bus.
#![tactic(auto)]

mod runs;
mod tasks;
mod versions;

use runs::Terminals;
use std::io::IsTerminal;
use std::process::ExitCode;

fn main(rt: HostRuntime) -> ExitCode {
    let terminals = Terminals {
        input: rt.stdin().is_terminal(),
        out: rt.stdout().is_terminal(),
        err: rt.stderr().is_terminal(),
    };
    ExitCode::from(runs::run(&rt, terminals))
}
