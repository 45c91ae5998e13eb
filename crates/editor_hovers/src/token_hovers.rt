// What is said of a token that is no name.

use crate::check_hovers::check_hover;
use crate::deeds::{Deed, Deeds, Found};
use crate::literal_hovers::{address_hover, byte_hover};
use crate::never_hovers::never_hover;
use brief_tokens::{Keyword, Symbol};
use editor_texts::Known;
use lexer::Letters;
use origins::{Item, ItemKind, Kind, Language, NamedTexts, Span, Spans};
use std::alloc::{AllocError, Global};

/// An item, its number among all, and a place in it, after so many bytes of its text.
#[derive(Clone, Copy)]
pub(crate) struct ItemPlace {
    pub(crate) item: Item,
    pub(crate) number: usize,
    offset: usize,
}

/// The item around this place of the text of this number.
pub(crate) fn item_at(spans: &Spans, file: u32, offset: usize) -> Option<ItemPlace> {
    for (number, item) in spans.items().iter().enumerate() {
        let Span {
            file: of,
            start,
            end,
        } = item.span;
        if of == file && start <= offset && offset <= end {
            return Some(ItemPlace {
                item: *item,
                number,
                offset,
            });
        }
    }
    None
}

/// What is said of the token there, which is no name: of the word `never` what its item does, of an address whose it is, of a data
/// byte which one it is, and of a `pec` or a `sum` its value. None of others.
///
/// # Errors
///
/// Where an allocation fails.
pub(crate) fn token_hover(
    alloc: Global,
    known: &Known,
    names: &NamedTexts<'_>,
    place: ItemPlace,
) -> Result<Option<String>, AllocError> {
    let Span { file, start, .. } = place.item.span;
    let text = names.text(file);
    let letters = letters_of(known.reading.spans(), file);
    let Some(found) = Deeds::new(text, letters, place.item).find(place.offset) else {
        return Ok(None);
    };
    match place.item.kind {
        ItemKind::Never if place.offset <= start.saturating_add("never".len()) => {
            never_hover(alloc, known, names, place.number)
        }
        ItemKind::Gives(Kind::Device | Kind::Byte | Kind::Interrupt) => {
            literal_hover(alloc, names, found)
        }
        ItemKind::Gives(Kind::Message) => match found.deed {
            Deed::Check => check_at(alloc, known, names, place, letters, found),
            _ => literal_hover(alloc, names, found),
        },
        _ => Ok(None),
    }
}

// The letters of a text. The words of a plan text are words of a brief, too.
fn letters_of(spans: &Spans, file: u32) -> Letters {
    match spans.head(file) {
        Some(head) if head.language == Language::Brief && head.version == 2 => Letters::Board,
        _ => Letters::Brief,
    }
}

fn literal_hover(
    alloc: Global,
    names: &NamedTexts<'_>,
    found: Found<'_>,
) -> Result<Option<String>, AllocError> {
    let Symbol::Word(word) = found.symbol else {
        return Ok(None);
    };
    match found.deed {
        Deed::Header | Deed::Address => address_hover(alloc, names, word),
        Deed::Byte | Deed::Except => byte_hover(alloc, names, word),
        _ => Ok(None),
    }
}

fn check_at(
    alloc: Global,
    known: &Known,
    names: &NamedTexts<'_>,
    place: ItemPlace,
    letters: Letters,
    found: Found<'_>,
) -> Result<Option<String>, AllocError> {
    let is_sum = matches!(found.symbol, Symbol::Keyword(Keyword::Sum));
    let text = names.text(place.item.span.file);
    let deeds = Deeds::new(text, letters, place.item);
    check_hover(
        alloc,
        known,
        names,
        (place.number, place.offset),
        deeds,
        is_sum,
    )
}
