// Lexemes, and what they are made of.

/// Which characters are parts of words, beside letters, digits and `_`, and which stand by themselves, beside `;`.
#[derive(Clone, Copy, PartialEq, Eq)]
pub enum Letters {
    /// No others: the first version of plans.
    Plain,
    /// `.` is a part of words: the second version of plans.
    Dots,
    /// `.` and `/` are parts of words, and `(`, `)` and `*` stand by themselves: briefs.
    Brief,
    /// Those of briefs; from `"` to the next `"` of the line is a word, and comments have any bytes: the second version of
    /// briefs.
    Board,
}

/// What stands at one place of a text, after the white space and the comments before it.
#[derive(Clone, Copy)]
pub enum Symbol<'a> {
    /// A maximal run of parts of words, or a string with its quotes.
    Word(&'a [u8]),
    /// A character that stands by itself.
    Sign(u8),
    /// An ASCII character that belongs to no lexeme.
    Stray,
    /// A byte of 128 or more, outside of comments, or inside of one that has no such bytes.
    Foreign,
    /// The end of the text.
    End,
}

/// A symbol with its line.
#[derive(Clone, Copy)]
pub struct Lexeme<'a> {
    pub symbol: Symbol<'a>,
    pub line: u64,
}

/// Where a lexeme stands: how many bytes of its text are left where the one before it ends, where it begins itself, and where
/// it ends.
#[derive(Clone, Copy)]
pub struct Spot {
    pub before: usize,
    pub start: usize,
    pub end: usize,
}
