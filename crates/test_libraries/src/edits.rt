// What an edit does to the unsafe pairs of a plan.

ghost use Rattle.plan_core.specs.PlanContents.{plan_contents};
ghost use Rattle.verdicts.specs.Faults.{AreFaults, fault_list};

use mending::left_by;
use plan_core::Plan;
use plan_text::read_plan;
use std::alloc::Global;
use std::test::Fail;
use verdicts::{Faults, faults};

// Where m stops, n and o send a bit. So both pairs of m are unsafe.
const PLAN: &str = "\
plan 2
message m write 1001000 stop else stop ;
message n write 1001000 0000000x stop else stop else stop ;
message o write 1001000 00000010 stop else stop else stop ;
controller a m ;
controller b n o ;
interrupt i 1001001 ;
";

// The plan as it is edited, and what is left of the pairs of m with n and with o: 1 for a pair that is. `new` where another
// pair is unsafe.
type Case = (&'static str, &'static str);

static EDITED: [Case; 8] = [
    (PLAN, "11"),
    // m sends a byte too
    (
        "\
plan 2
message m write 1001000 0000001x stop else stop else stop ;
message n write 1001000 0000000x stop else stop else stop ;
message o write 1001000 00000010 stop else stop else stop ;
controller a m ;
controller b n o ;
interrupt i 1001001 ;
",
        "00",
    ),
    // n has another address
    (
        "\
plan 2
message m write 1001000 stop else stop ;
message n write 1001010 0000000x stop else stop else stop ;
message o write 1001000 00000010 stop else stop else stop ;
controller a m ;
controller b n o ;
interrupt i 1001001 ;
",
        "01",
    ),
    // a and b never start together
    (
        "\
plan 2
message m write 1001000 stop else stop ;
message n write 1001000 0000000x stop else stop else stop ;
message o write 1001000 00000010 stop else stop else stop ;
controller a m ;
controller b n o ;
interrupt i 1001001 ;
never a b ;
",
        "00",
    ),
    // the other way round: there m is the second of each pair; and without the interrupt
    (
        "\
plan 2
message o write 1001000 00000010 stop else stop else stop ;
message n write 1001000 0000000x stop else stop else stop ;
message m write 1001000 stop else stop ;
controller z o n ;
controller y m ;
",
        "11",
    ),
    // n is no longer sent, o by a controller of its own
    (
        "\
plan 2
message m write 1001000 stop else stop ;
message o write 1001000 00000010 stop else stop else stop ;
controller a m ;
controller c o ;
interrupt i 1001001 ;
",
        "01",
    ),
    // another message stands in the place of m
    (
        "\
plan 2
message p write 1001000 stop else stop ;
message n write 1001000 0000000x stop else stop else stop ;
message o write 1001000 00000010 stop else stop else stop ;
controller a p ;
controller b n o ;
interrupt i 1001001 ;
",
        "new",
    ),
    // the only unsafe pair is n with an interrupt that is called as the message m
    (
        "\
plan 2
message m write 1001010 stop else stop ;
message n read 1001001 1 stop else stop ;
message o write 1001000 00000010 stop else stop else stop ;
controller a m ;
controller b n o ;
interrupt m 1001001 ;
",
        "new",
    ),
];

fn told(left: &[bool]) -> &'static str {
    match left {
        [false, false] => "00",
        [false, true] => "01",
        [true, false] => "10",
        [true, true] => "11",
        _ => "",
    }
}

// Whether this is left of the unsafe pairs of the plan, where it is edited so.
fn is_left(alloc: Global, plan: &Plan, before: &Faults, edited: &Plan, wanted: &str) -> bool
    requires { AreFaults (plan_contents plan.now) (fault_list before.now) }
{
    match faults(alloc, edited) {
        Ok(after) => match left_by(alloc, plan, before, edited, &after) {
            Ok(Some(left)) => told(left.as_slice()) == wanted,
            Ok(None) => wanted == "new",
            Err(_) => false,
        },
        Err(_) => false,
    }
}

fn is_left_by(alloc: Global, plan: &Plan, before: &Faults, case: &Case) -> bool
    requires { AreFaults (plan_contents plan.now) (fault_list before.now) }
{
    match read_plan(alloc, case.0.as_bytes()) {
        Ok(edited) => is_left(alloc, plan, before, &edited, case.1),
        Err(_) => false,
    }
}

#[test]
fn an_edit_leaves_pairs_that_are_known_by_what_they_send(rt: HostRuntime) -> Result<(), Fail> {
    let plan = read_plan(rt.alloc(), PLAN.as_bytes())?;
    let before = faults(rt.alloc(), &plan)?;
    assert!(rt; before.len() == 2);
    for case in &EDITED {
        assert!(rt; is_left_by(rt.alloc(), &plan, &before, case));
    }
    Ok(())
}
