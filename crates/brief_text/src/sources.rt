// What is left of a brief, and what one token or two say there.

ghost use Rattle.std.specs.Prelude.{◌≡◌, ◌≤◌, ◌⊎◌, IfOk, IfErr, None, true, false};
ghost use Rattle.plan_core.specs.NameBytes.{name_bytes};
ghost use Rattle.plan_core.specs.declared.limits.TheConstants.{MOST_NODES};
ghost use Rattle.plan_text.specs.Places.{Passes};
ghost use Rattle.brief_text.specs.Items.{address_in, pattern_in, side_in};
ghost use Rattle.brief_text.specs.Words.{is_brief_name};
ghost use Rattle.brief_tokens.specs.Reading.{unexpected_at};
ghost use Rattle.brief_text.specs.Places.{Place, token_as, name_in, end_in, open_in, close_in, past, to_at, data_at};

use crate::boards::Board;
use crate::syntax::{Lengths, NameFound, Party, Value};
use crate::traces::{Trace, Wanted};
use crate::words::{address, around_slash, data};
use brief_tokens::{Keyword, Sign, Symbol, Token, Tokens, is_board_word, is_brief_word};
use lexer::Letters;
use message_tree::{Address, Pattern};
use origins::Spans;
use plan_core::{Name, NameError};
use plan_text::places::Over;
use plan_text::{PlanError, Refused};
use std::alloc::Global;

/// What is left of a brief, and what the message that is read has so far.
#[derive(Drop)]
pub(crate) struct Source<'a> {
    pub(crate) alloc: Global,
    /// The first token that is left.
    pub(crate) token: Token<'a>,
    /// What follows it.
    pub(crate) tokens: Tokens<'a>,
    /// How many headers and data bytes the message has, as a plan has them.
    pub(crate) nodes: u32,
    /// The range of one of its bytes.
    pub(crate) range: Option<Lengths>,
    // for refusals: the token that was taken last, and by how much the message is too long
    trace: Trace,
    pub(crate) over: Option<Over>,
    // the names so far
    spans: Spans,
    ghost nodes_fit: { nodes ≤ MOST_NODES },
}

/// What a token says, with its line.
#[derive(Drop)]
pub(crate) struct Found<T: Drop> {
    pub(crate) value: T,
    pub(crate) line: u64,
}

impl<'a> Source<'a> {
    ghost use Rattle.brief_tokens.specs.Reading.{left};
    ghost use Rattle.brief_text.specs.Standing.{place, before, draft, said, side, FindsOut};

    /// The whole of these tokens.
    pub(crate) fn new(alloc: Global, mut tokens: Tokens<'a>, spans: Spans) -> Self
        ensures { place result ≡ record { tokens = left tokens.entry; nodes = 0; range = None } }
    {
        let made = tokens.letters() == Letters::Board;
        Source {
            alloc,
            token: tokens.next(),
            tokens,
            nodes: 0,
            range: None,
            trace: Trace::new(made),
            over: None,
            spans,
        }
    }

    /// The next token, which is to be this.
    pub(crate) fn next(&mut self, wanted: Wanted) -> Token<'a>
        ensures place { place self.old ≡ before result (place self.new) }
        ensures first { result ≡ self.old.token }
    {
        let token = self.token;
        self.trace = self.trace.taken(token, self.tokens.spot(), wanted);
        self.tokens.record(token, &mut self.spans);
        self.token = self.tokens.next();
        token
    }

    /// The names so far.
    pub(crate) fn into_spans(self) -> Spans {
        self.spans
    }

    /// The names so far, and those of what is left.
    pub(crate) fn into_all_spans(self) -> Spans {
        let mut tokens = self.tokens;
        let mut spans = self.spans;
        if tokens.record(self.token, &mut spans) {
            tokens.record_rest(&mut spans);
        }
        spans
    }

    /// The refusal of the token that was taken last.
    pub(crate) fn refusal(&self, error: PlanError) -> Refused
        ensures { result.error ≡ error }
    {
        self.trace.refused(error, self.tokens.text(), self.over)
    }

    /// NAME
    pub(crate) fn name(&mut self) -> Result<NameFound, PlanError>
        ensures { FindsOut (λ it. name_bytes it.name) (λ it. it.line) result (token_as name_in (place self.old))
            (place self.new) }
    {
        let token = self.next(Wanted::Name);
        let name = self.name_of(token)?;
        Ok(NameFound {
            name,
            line: token.line,
        })
    }

    /// The NAME of a controller
    pub(crate) fn controller(&mut self) -> Result<NameFound, PlanError>
        ensures { FindsOut (λ it. name_bytes it.name) (λ it. it.line) result (token_as name_in (place self.old))
            (place self.new) }
    {
        let token = self.next(Wanted::Controller);
        let name = self.name_of(token)?;
        Ok(NameFound {
            name,
            line: token.line,
        })
    }

    /// The NAME of a device
    pub(crate) fn device(&mut self) -> Result<NameFound, PlanError>
        ensures { FindsOut (λ it. name_bytes it.name) (λ it. it.line) result (token_as name_in (place self.old))
            (place self.new) }
    {
        let token = self.next(Wanted::Device);
        let name = self.name_of(token)?;
        Ok(NameFound {
            name,
            line: token.line,
        })
    }

    /// The NAME that this token is.
    pub(crate) fn name_of(&self, token: Token<'_>) -> Result<Name, PlanError>
        ensures { (after : Place) → FindsOut name_bytes (λ it. token.entry.line) result
            (token_as name_in (before token.entry after)) after }
    {
        let Symbol::Word(word) = token.symbol else {
            return Err(token.unexpected());
        };
        let Ok(text) = str::from_utf8(word) else {
            return Err(token.unexpected());
        };
        match Name::new(self.alloc, text) {
            Ok(name) => Ok(name),
            Err(NameError::BadName) => Err(token.unexpected()),
            Err(NameError::NoMemory) => Err(PlanError::NoMemory),
        }
    }

    /// ADDRESS
    pub(crate) fn address(&mut self) -> Result<Found<Address>, PlanError>
        ensures { FindsOut (λ it. it.value) (λ it. it.line) result (token_as address_in (place self.old))
            (place self.new) }
    {
        let token = self.next(Wanted::Address);
        let Symbol::Word(word) = token.symbol else {
            return Err(token.unexpected());
        };
        let Some(value) = address(word) else {
            return Err(token.unexpected());
        };
        Ok(Found {
            value,
            line: token.line,
        })
    }

    /// DATA
    pub(crate) fn pattern(&mut self) -> Result<Found<Pattern>, PlanError>
        ensures { FindsOut (λ it. it.value) (λ it. it.line) result (token_as pattern_in (place self.old))
            (place self.new) }
    {
        let token = self.next(Wanted::Byte);
        let Symbol::Word(word) = token.symbol else {
            return Err(token.unexpected());
        };
        let Some(value) = data(word) else {
            return Err(token.unexpected());
        };
        Ok(Found {
            value,
            line: token.line,
        })
    }

    /// ADDRESS, or the NAME of a device, which is to be this.
    pub(crate) fn to(
        &mut self,
        board: &Board,
        wanted: Wanted,
    ) -> Result<Found<Value<Address>>, PlanError>
        ensures { FindsOut (λ it. said it.value) (λ it. it.line) result (to_at (draft board.now) (place self.old))
            (place self.new) }
    {
        let token = self.next(wanted);
        let Symbol::Word(word) = token.symbol else {
            return Err(token.unexpected());
        };
        let line = token.line;
        if let Some(address) = address(word) {
            let value = Value::Spelled(address);
            return Ok(Found { value, line });
        }
        let name = self.name_of(token)?;
        if !board.has_device(&name) {
            return Err(PlanError::Unknown(line));
        }
        let value = Value::Named(NameFound { name, line });
        Ok(Found { value, line })
    }

    /// DATA, `any`, or the NAME of a data byte
    pub(crate) fn data(&mut self, board: &Board) -> Result<Found<Value<Pattern>>, PlanError>
        ensures { FindsOut (λ it. said it.value) (λ it. it.line) result (data_at (draft board.now) (place self.old))
            (place self.new) }
    {
        let token = self.next(Wanted::Data);
        let line = token.line;
        match token.symbol {
            Symbol::Keyword(Keyword::Any) => {
                let value = Value::Spelled(Pattern::new(0, 0));
                Ok(Found { value, line })
            }
            Symbol::Word(word) => {
                if let Some(bits) = data(word) {
                    let value = Value::Spelled(bits);
                    return Ok(Found { value, line });
                }
                let name = self.name_of(token)?;
                if !board.has_byte(&name) {
                    return Err(PlanError::Unknown(line));
                }
                let value = Value::Named(NameFound { name, line });
                Ok(Found { value, line })
            }
            _ => Err(token.unexpected()),
        }
    }

    /// A controller by its NAME, or what one sends by its label
    pub(crate) fn party(&mut self, letters: Letters) -> Result<Party, PlanError>
        ensures { FindsOut side (λ it. it.line) result (token_as (side_in letters) (place self.old)) (place self.new) }
    {
        let token = self.next(Wanted::Party);
        let Symbol::Word(word) = token.symbol else {
            return Err(token.unexpected());
        };
        let line = token.line;
        let Some((controller, label)) = around_slash(word) else {
            let controller = self.name_of(token)?;
            return Ok(Party {
                controller,
                label: None,
                line,
            });
        };
        if word.len() > 32 {
            return Err(token.unexpected());
        }
        let controller = self.half(controller, token, letters)?;
        let label = self.half(label, token, letters)?;
        Ok(Party {
            controller,
            label: Some(label),
            line,
        })
    }

    // A NAME that is one half of this token.
    fn half(&self, half: &[u8], token: Token<'_>, letters: Letters) -> Result<Name, PlanError>
        ensures name { IfOk result (λ it. (name_bytes it ≡ half.now) × (is_brief_name letters half.now ≡ true)) }
        ensures refused { IfErr result (λ e. (e ≡ PlanError.NoMemory) ⊎
            ((is_brief_name letters half.now ≡ false) × (e ≡ unexpected_at token.entry))) }
    {
        let Ok(text) = str::from_utf8(half) else {
            return Err(token.unexpected());
        };
        if is_brief_word(text) || letters == Letters::Board && is_board_word(text) {
            return Err(token.unexpected());
        }
        match Name::new(self.alloc, text) {
            Ok(name) => Ok(name),
            Err(NameError::BadName) => Err(token.unexpected()),
            Err(NameError::NoMemory) => Err(PlanError::NoMemory),
        }
    }

    /// `(` before an address
    pub(crate) fn open_address(&mut self) -> Result<(), PlanError>
        ensures { Passes result (past open_in (place self.old)) (place self.new) }
    {
        let token = self.next(Wanted::OpenAddress);
        match token.symbol {
            Symbol::Sign(Sign::Open) => Ok(()),
            _ => Err(token.unexpected()),
        }
    }

    /// `)` after it
    pub(crate) fn close_address(&mut self) -> Result<(), PlanError>
        ensures { Passes result (past close_in (place self.old)) (place self.new) }
    {
        let token = self.next(Wanted::CloseAddress);
        match token.symbol {
            Symbol::Sign(Sign::Close) => Ok(()),
            _ => Err(token.unexpected()),
        }
    }

    /// The `;` of a message, and its line
    pub(crate) fn message_end(&mut self) -> Result<u64, PlanError>
        ensures { FindsOut (λ it. tt) (λ it. it) result (token_as end_in (place self.old)) (place self.new) }
    {
        let token = self.next(Wanted::End);
        match token.symbol {
            Symbol::Sign(Sign::Semicolon) => Ok(token.line),
            _ => Err(token.unexpected()),
        }
    }

    /// `;`
    pub(crate) fn semicolon(&mut self) -> Result<(), PlanError>
        ensures { Passes result (past end_in (place self.old)) (place self.new) }
    {
        let token = self.next(Wanted::End);
        match token.symbol {
            Symbol::Sign(Sign::Semicolon) => Ok(()),
            _ => Err(token.unexpected()),
        }
    }
}
