// What holds of every path. A law does nothing: its contract is the statement.

ghost use Rattle.std.specs.Prelude.{List};
ghost use Rattle.capture_check.specs.declared.listening.Mark.{Mark};
ghost use Rattle.lessons.specs.declared.paths.Step.{Step};
ghost use Rattle.lessons.specs.Plans.{HasMarks};

/// Each path is that of some transaction, so that a plan which has it explains one.
#[tactic(auto, using(crate::proofs::PossiblePaths::some_marks))]
pub fn paths_have_marks()
    ensures { (path : List Step) → (marks : List Mark) × HasMarks path marks }
{}
