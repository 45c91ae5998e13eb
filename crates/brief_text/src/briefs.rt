// Several briefs, one after another, and the plan that all their items make up.

ghost use Rattle.std.specs.Prelude.{◌≡◌, Ok, IfOk, IfErr};
ghost use Rattle.plan_core.specs.PlanContents.{plan_contents};
ghost use Rattle.plan_text.specs.Places.{Refuses};
ghost use Rattle.brief_text.specs.Briefs.{text_read};
ghost use Rattle.brief_text.specs.Drafts.{no_items};
ghost use Rattle.brief_text.specs.Splitting.{plan_meant};
ghost use Rattle.brief_text.specs.Together.{together, Follows};

use crate::boards::Board;
use crate::items::read_text;
use origins::{Origins, Spans};
use plan_core::Plan;
use plan_text::{PlanError, Refused};
use std::alloc::{AllocError, Global};

/// Briefs that have been read, whose items make up one plan. Names, limits and splits hold across all of them.
#[derive(Drop)]
pub struct Briefs {
    alloc: Global,
    board: Board,
}

impl Briefs {
    /// No brief. It takes no memory.
    #[tactic(auto, unfolding(crate::specs::Together::together))]
    pub fn new(alloc: Global) -> Briefs
        ensures { together result ≡ no_items }
    {
        Briefs {
            alloc,
            board: Board::new(alloc),
        }
    }

    /// Reads a further brief, which is a whole one: it begins with `brief 1` itself.
    ///
    /// # Errors
    ///
    /// The first refusal of this brief after those before it, as `expand_brief` has them, with its line there.
    /// `NoMemory` where an allocation fails before another refusal is met.
    #[tactic(auto, unfolding(crate::specs::Together::together))]
    pub fn with(self, text: &[u8]) -> Result<Briefs, PlanError>
        ensures { Follows result (text_read (together self) text.now) }
    {
        let mut unasked = Spans::unasked(self.alloc);
        match self.with_at(text, &mut unasked) {
            Ok(briefs) => Ok(briefs),
            Err(refused) => Err(refused.error),
        }
    }

    /// The same, with the place of the refusal in this brief. Its items and its names are added to these of texts before it.
    ///
    /// # Errors
    ///
    /// As those of `with`.
    #[tactic(auto, unfolding(crate::specs::Together::together))]
    pub fn with_at(self, text: &[u8], spans: &mut Spans) -> Result<Briefs, Refused>
        ensures read { IfOk result (λ briefs. text_read (together self) text.now ≡ Ok (together briefs)) }
        ensures refused { IfErr result (λ e. Refuses (text_read (together self) text.now) e.error) }
    {
        let Briefs { alloc, board } = self;
        let mut board = board;
        read_text(alloc, &mut board, text, spans)?;
        board.file = board.file.saturating_add(1);
        Ok(Briefs { alloc, board })
    }

    /// The plan that the items of all briefs make up.
    #[tactic(auto, unfolding(crate::specs::Together::together))]
    pub fn plan(self) -> Result<Plan, AllocError>
        ensures { IfOk result (λ plan. plan_contents plan ≡ plan_meant (together self)) }
    {
        self.board.finish()
    }

    /// Where the controllers, the messages and the interrupts of that plan stand in the briefs, and what people call them
    /// there.
    pub fn origins(&self) -> Result<Origins, AllocError> {
        self.board.origins()
    }
}
