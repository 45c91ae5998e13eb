// How lines are written.

use crate::columns::{Cell, widen};
use crate::lines::{Line, Lines, Token};
use crate::pages::Page;
use std::alloc::{AllocError, Global};

// The longest name that makes room for itself, which is the longest one that the languages have.
const NAME: usize = 32;

// How many columns a line may have before its comment, if others are to stand below that.
const COLUMNS: usize = 80;

/// The lines as they are laid out.
///
/// # Errors
///
/// Where an allocation fails.
pub(crate) fn written(alloc: Global, lines: &Lines<'_>) -> Result<Vec<u8>, AllocError> {
    let names = names_of(alloc, lines)?;
    let mut codes = Page::new(alloc);
    let cells = codes_of(alloc, lines, names.as_slice(), &mut codes)?;
    let mut page = Page::new(alloc);
    let mut start = 0usize;
    for (line, cell) in lines.all().iter().zip(cells.as_slice().iter()) {
        let code = codes.part(start, cell.own);
        put_line(&mut page, *line, code, *cell);
        start = start.saturating_add(cell.own);
    }
    page.finish()
}

// A line with the empty one before it, and its tokens as they are written.
fn put_line(page: &mut Page, line: Line<'_>, code: &[u8], cell: Cell) {
    if line.is_parted {
        page.put(b"\n");
    }
    page.put(code);
    if let Some(comment) = line.comment {
        page.blanks(blanks_before_comment(line, code, cell));
        page.put(comment);
    }
    page.put(b"\n");
}

// A comment on a line of its own stands where a token would.
fn blanks_before_comment(line: Line<'_>, code: &[u8], cell: Cell) -> usize {
    if code.is_empty() {
        line.indent
    } else {
        cell.blanks().saturating_add(2)
    }
}

// ---- names

// The name of each line that is a row: so wide are those that it stands with.
fn names_of(alloc: Global, lines: &Lines<'_>) -> Result<Vec<Cell>, AllocError> {
    let mut cells = Vec::new(alloc);
    let mut above: Option<Row<'_>> = None;
    for line in lines.all() {
        let row = row_of(lines.tokens_of(*line));
        cells.push(name_cell(row, above, line.is_parted))?;
        above = row;
    }
    widen(cells.as_mut_slice());
    Ok(cells)
}

// A line that begins an item, of which it has a name and a word after that, and on which no other item begins.
#[derive(Clone, Copy)]
struct Row<'a> {
    keyword: &'a [u8],
    name: usize,
    is_wide: bool,
}

fn row_of<'a>(tokens: &[Token<'a>]) -> Option<Row<'a>> {
    let [keyword, name, third, rest @ ..] = tokens else {
        return None;
    };
    let is_item = keyword.number == 0 && third.number == 2 && begins_none(rest);
    let are_words = !keyword.is_sign() && !name.is_sign() && !third.is_sign();
    if is_item && are_words && name.bytes.len() <= NAME {
        Some(Row {
            keyword: keyword.bytes,
            name: name.bytes.len(),
            is_wide: third.is_wide,
        })
    } else {
        None
    }
}

// Whether none of these tokens begins an item.
fn begins_none(tokens: &[Token<'_>]) -> bool {
    tokens.iter().all(|token| token.number != 0)
}

fn name_cell(row: Option<Row<'_>>, above: Option<Row<'_>>, is_parted: bool) -> Cell {
    let Some(row) = row else {
        return Cell::alone(0);
    };
    let joins = match above {
        Some(above) => !is_parted && above.keyword == row.keyword,
        None => false,
    };
    Cell {
        is_wide: row.is_wide,
        joins,
        ..Cell::alone(row.name)
    }
}

// ---- tokens

// Writes the tokens of all lines, and answers how wide each line is by them.
fn codes_of(
    alloc: Global,
    lines: &Lines<'_>,
    names: &[Cell],
    codes: &mut Page,
) -> Result<Vec<Cell>, AllocError> {
    let mut cells = Vec::new(alloc);
    let mut above = false;
    for (line, name) in lines.all().iter().zip(names.iter()) {
        let start = codes.len();
        put_tokens(codes, *line, lines.tokens_of(*line), *name);
        let own = codes.len().saturating_sub(start);
        cells.push(note_cell(*line, own, above))?;
        above = own > 0;
    }
    widen(cells.as_mut_slice());
    Ok(cells)
}

// So wide is a line before its comment. It stands with the one above where both have tokens.
fn note_cell(line: Line<'_>, own: usize, above: bool) -> Cell {
    let has_note = line.comment.is_some() && own <= COLUMNS;
    Cell {
        width: if has_note { own } else { 0 },
        joins: above && own > 0 && !line.is_parted,
        ..Cell::alone(own)
    }
}

// The tokens of a line.
fn put_tokens(page: &mut Page, line: Line<'_>, tokens: &[Token<'_>], name: Cell) {
    let mut before: Option<Token<'_>> = None;
    for token in tokens {
        let blanks = match before {
            Some(before) => blanks_between(before, *token),
            None => line.indent,
        };
        page.blanks(blanks);
        if name.is_wide && token.number == 2 {
            page.blanks(name.blanks());
        }
        page.put(token.bytes);
        before = Some(*token);
    }
}

fn blanks_between(before: Token<'_>, token: Token<'_>) -> usize {
    let is_call = matches!(before.bytes, b"wr" | b"rd") && token.bytes == b"(".as_slice();
    if is_call || matches!(before.bytes, b"(" | b"*") || matches!(token.bytes, b")" | b"*") {
        0
    } else {
        1
    }
}
