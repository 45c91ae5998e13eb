// Whoever takes the transactions of a dump.

ghost use Rattle.std.specs.Prelude.{map, OnOk, IfErr};
ghost use Rattle.std.specs.List.{AllZip};
ghost use Rattle.plan_core.specs.Contents.{Contents};
ghost use Rattle.plan_core.specs.PlanContents.{plan_contents};
ghost use Rattle.capture_check.specs.Explained.{AreExplainers};
ghost use Rattle.capture_check.specs.Views.{recorded};
ghost use Rattle.decoding.specs.Sinks.{Sink};

use capture_check::{Transaction, explain_all};
use plan_core::Plan;
use run_parts::RunError;
use std::alloc::Global;
use std::thread::Threads;

/// Takes transactions in the order in which they end.
pub trait TransactionSink {
    ghost sink: { Sink Self };
    // what its calls need of its type, as that a handle can be shared by threads
    ghost needs: { Type 0 } = { Unit {0} };

    /// Takes the next transactions: those that ended in a block of the dump, or at its end. There may be none.
    fn take(&mut self, transactions: &[Transaction]) -> Result<(), RunError>
        requires { needs }
        ensures taken { OnOk result (sink.takes self.old (map recorded transactions.now) self.new) }
        ensures stops { IfErr result (λ error. sink.stops self.old (map recorded transactions.now) error self.new) };
}

/// Takes transactions with the participants of a plan that explain each.
pub trait ExplainedSink {
    ghost sink: { Contents → Sink Self };

    /// Takes the next transactions, and those who explain each.
    fn take(
        &mut self,
        alloc: Global,
        plan: &Plan,
        transactions: &[Transaction],
        explainers: &[Vec<u32>],
    ) -> Result<(), RunError>
        requires { AllZip (λ t ps. AreExplainers (plan_contents plan.now) (recorded t) ps.items)
            transactions.now explainers.now }
        ensures taken { OnOk result (
            (sink (plan_contents plan.now)).takes self.old (map recorded transactions.now) self.new) }
        ensures stops { IfErr result (λ error.
            (sink (plan_contents plan.now)).stops self.old (map recorded transactions.now) error self.new) };
}

/// Takes transactions, and hands them on with those who explain each.
#[derive(Drop)]
pub struct Explaining<'a, R, S> {
    pub rt: &'a R,
    pub alloc: Global,
    pub plan: &'a Plan,
    pub sink: S,
}

impl<R: Threads + Sync, S: ExplainedSink> TransactionSink for Explaining<'_, R, S> {
    ghost use Rattle.std.specs.Thread.{IsSync};
    ghost use Rattle.decoding.specs.Explaining.{explaining_sink};

    ghost sink = { explaining_sink S.sink };

    ghost needs = { IsSync R.row };

    fn take(&mut self, transactions: &[Transaction]) -> Result<(), RunError> {
        let explainers = explain_all(self.rt, self.alloc, self.plan, transactions)?;
        self.sink
            .take(self.alloc, self.plan, transactions, explainers.as_slice())
    }
}
