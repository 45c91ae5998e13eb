// The samples of dumps. They are such as the laws of `pulses` ask for.

ghost use Rattle.std.specs.Prelude.{◌≡◌, ℕ, List, Ok};
ghost use Rattle.pulses.specs.Laws.{AreChanges, AreInOrder};
ghost use Rattle.vcd_read.specs.Dumps.{samples_of};
ghost use Rattle.vcd_read.specs.Probes.{Finder};
ghost use Rattle.vcd_read.specs.declared.samples.Sample.{Sample};

/// The samples of a dump that is accepted come in the order of time, and each differs from the one before it in the level of a
/// line. So what `pulses::laws` says of such samples holds of every dump.
pub fn samples_of_dumps_are_changes_in_order()
    ensures in_order { (scl sda : Finder) (text : List ℕ) (samples : List Sample) →
        samples_of scl sda text ≡ Ok samples → AreInOrder samples }
    ensures changes { (scl sda : Finder) (text : List ℕ) (samples : List Sample) →
        samples_of scl sda text ≡ Ok samples → AreChanges samples }
{}
