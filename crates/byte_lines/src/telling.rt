// The sink that gathers the lines of transactions.

ghost use Rattle.std.specs.Prelude.{◌≡◌, ◌+◌, IfOk};

use crate::lines::{push_count, push_transaction};
use capture_check::{Transaction, Until};
use decoding::TransactionSink;
use run_parts::RunError;
use std::alloc::{AllocError, Global};

/// What `decode` says of a dump.
#[derive(Drop)]
pub struct ByteReport {
    /// A line for each transaction, and one that counts them.
    pub report: String,
    /// How many transactions there are.
    pub transactions: u64,
    /// How many of them a STOP ended.
    pub stopped: u64,
}

/// The lines of the transactions so far, and how many of them a STOP ended.
#[derive(Drop)]
pub struct ByteTelling {
    pub(crate) alloc: Global,
    pub(crate) lines: String,
    pub(crate) transactions: u64,
    pub(crate) stopped: u64,
}

impl ByteTelling {
    ghost use Rattle.std.specs.Prelude.{[], ◌++◌, ◌∷◌, OnOk, string_bytes};
    ghost use Rattle.byte_lines.specs.Lines.{count_line};
    ghost use Rattle.byte_lines.specs.Views.{TellsMore};
    ghost use Rattle.capture_check.specs.Views.{recorded};

    /// No transaction yet.
    pub fn new(alloc: Global) -> ByteTelling
        ensures lines { string_bytes result.lines ≡ [] }
        ensures transactions { result.transactions ≡ 0 }
        ensures stopped { result.stopped ≡ 0 }
    {
        ByteTelling {
            alloc,
            lines: String::new(alloc),
            transactions: 0,
            stopped: 0,
        }
    }

    // The line of one more transaction.
    fn push(&mut self, transaction: &Transaction) -> Result<(), AllocError>
        ensures { OnOk result (TellsMore self.old (recorded transaction.now ∷ []) self.new) }
    {
        push_transaction(self.alloc, &mut self.lines, transaction)?;
        self.transactions = one_more(self.transactions)?;
        if let Until::Stopped(_) = transaction.until {
            self.stopped = one_more(self.stopped)?;
        }
        Ok(())
    }

    /// The whole report, and what it says.
    ///
    /// # Errors
    ///
    /// Where an allocation fails.
    pub fn finish(self) -> Result<ByteReport, AllocError>
        ensures report { IfOk result (λ it. string_bytes it.report ≡ string_bytes self.lines ++ count_line self.stopped) }
        ensures transactions { IfOk result (λ it. it.transactions ≡ self.transactions) }
        ensures stopped { IfOk result (λ it. it.stopped ≡ self.stopped) }
    {
        let ByteTelling {
            alloc: _,
            mut lines,
            transactions,
            stopped,
        } = self;
        push_count(&mut lines, stopped)?;
        Ok(ByteReport {
            report: lines,
            transactions,
            stopped,
        })
    }
}

// Each that is counted has a line, and no run comes to more lines than the number holds.
fn one_more(count: u64) -> Result<u64, AllocError>
    ensures { IfOk result (λ more. more ≡ count + 1) }
{
    match count.checked_add(1) {
        Some(more) => Ok(more),
        None => Err(AllocError),
    }
}

impl TransactionSink for ByteTelling {
    ghost use Rattle.byte_lines.specs.Views.{byte_sink};

    ghost sink = { byte_sink };

    fn take(&mut self, transactions: &[Transaction]) -> Result<(), RunError> {
        for transaction in transactions {
            self.push(transaction)?;
        }
        Ok(())
    }
}
