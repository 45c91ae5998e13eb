// Where items stand, and the names in them.

use crate::values::{BEGINNING, Span};
use origins::{Head, Item, Kind, Language, NamedTexts, Role, Spans};
use plan_core::Participant;
use plan_words::PlanWords;
use std::alloc::{AllocError, Global};

/// The names that items get in the texts which give a plan. No two of a kind have the same.
#[derive(Drop)]
pub(crate) struct Items<'a> {
    texts: NamedTexts<'a>,
    spans: &'a Spans,
}

impl<'a> Items<'a> {
    /// Those of these texts.
    pub(crate) fn of(
        alloc: Global,
        texts: &'a [Vec<u8>],
        spans: &'a Spans,
    ) -> Result<Items<'a>, AllocError> {
        let mut named = NamedTexts::new(alloc, spans)?;
        for text in texts {
            named.add(text.as_slice())?;
        }
        Ok(Items {
            texts: named,
            spans,
        })
    }

    /// The text of this number.
    pub(crate) fn text(&self, file: u32) -> &'a [u8] {
        self.texts.text(file)
    }

    /// Whether it is a brief of the second version.
    pub(crate) fn is_second(&self, file: u32) -> bool {
        match self.spans.head(file) {
            Some(
                Head {
                    language: Language::Brief,
                    version,
                },
            ) => version == 2,
            _ => false,
        }
    }

    /// The item that gives this name to one of this kind.
    pub(crate) fn giving(&self, kind: Kind, name: &str) -> Option<Item> {
        self.texts.item(self.texts.given(kind, name.as_bytes())?)
    }

    /// The item whose name begins where these bytes do.
    pub(crate) fn item_at(&self, span: Span) -> Option<Item> {
        for at in self.texts.names() {
            if at.span.file == span.file && at.span.start == span.start {
                return self.texts.item(*at);
            }
        }
        None
    }

    /// Whether an item names what has this name and is of this kind.
    pub(crate) fn is_used(&self, kind: Kind, name: &str) -> bool {
        for at in self.texts.names() {
            if at.role == Role::Used && at.kind == kind && self.texts.word(*at) == name.as_bytes() {
                return true;
            }
        }
        false
    }

    /// Where the item of this kind stands that gives this name: the name.
    pub(crate) fn named(&self, kind: Kind, name: &str) -> Option<Span> {
        Some(self.texts.given(kind, name.as_bytes())?.span)
    }

    /// Where what a participant sends stands: its message, or the interrupt that it is. Where no item gives its name, the beginning
    /// of the first text.
    pub(crate) fn sender(&self, words: PlanWords<'_>, p: u32) -> Span {
        let named = match words.message_of(p) {
            Some(message) => self.named(Kind::Message, words.message_name(message)),
            None => self.named(Kind::Interrupt, interrupt_name(words, p)),
        };
        named.unwrap_or(BEGINNING)
    }
}

fn interrupt_name(words: PlanWords<'_>, p: u32) -> &str {
    let plan = words.plan();
    if plan.participants() <= p {
        return "";
    }
    match plan.participant(p) {
        Participant::Interrupt(interrupt) => plan.interrupt_name(interrupt).as_str(),
        Participant::Sending { .. } => "",
    }
}
