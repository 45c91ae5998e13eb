// What is left of a capture without its short pulses. A law does nothing: its contract is the theorem.

ghost use Rattle.std.specs.Prelude.{◌≡◌, ℕ, List};
ghost use Rattle.vcd_read.specs.declared.samples.Sample.{Sample};
ghost use Rattle.pulses.specs.declared.following.QuietFollower.{QuietFollower};
ghost use Rattle.pulses.specs.Following.{HasHandedOut, NoneHasEnded};
ghost use Rattle.pulses.specs.Laws.{AreInOrder, AreChanges, HasNoShortRun};
ghost use Rattle.pulses.specs.Pulses.{quiet, scl, sda};

/// Samples that come in the order of time, each with a change, and in which no run is short, stay as they are. Of any
/// samples in the order of time each run that is left lasts, but for the first of a line and its last. And what has been
/// left out once leaves nothing for a second time.
pub fn only_short_runs_are_left_out()
    ensures unchanged { (least : ℕ) (samples : List Sample) → AreInOrder samples → AreChanges samples →
        HasNoShortRun least scl samples → HasNoShortRun least sda samples → quiet least samples ≡ samples }
    ensures lasting { (least : ℕ) (samples : List Sample) → AreInOrder samples →
        HasNoShortRun least scl (quiet least samples) × HasNoShortRun least sda (quiet least samples) }
    ensures once { (least : ℕ) (samples : List Sample) → AreInOrder samples →
        quiet least (quiet least samples) ≡ quiet least samples }
{}

/// What has ended is handed out: of the transactions that are left in a follower none comes first whatever samples follow.
pub fn all_that_ended_is_handed_out()
    ensures { (f : QuietFollower) → HasHandedOut f → NoneHasEnded f }
{}
