// How the transactions of a capture are written.

use bus_rows::Paint;

/// How the lines of a capture are written.
#[derive(Clone, Copy)]
pub struct Layout {
    /// Whether lines for people stand below those of transactions.
    pub explain: bool,
    pub paint: Paint,
    /// Whether all that has ended is written before the dump is read on.
    pub live: bool,
    /// Whether the first transaction that nobody explains is the last one.
    pub stops: bool,
}
