//! What people call the participants and the controllers of a plan, and where these stand: in the words of the briefs that
//! mean it, where it was given so, and else in its own.
//!
//! A brief may split a controller, so that a plan has `bmc_set/set` where people have written `bmc/set`. Only words for
//! people are made here: the exact lines of reports have the names of the plan.
#![tactic(auto)]

mod sides;

use growing_text::{Text, push_shown};
use origins::{ControllerOrigin, FamilyOrigin, Origins, Spot};
use plan_core::{Name, Participant, Plan};
pub use sides::{Sides, sides_of};
use std::alloc::{AllocError, Global};

/// The files of the briefs that mean a plan, as the command line names them.
#[derive(Clone, Copy)]
pub struct BriefFiles<'a> {
    pub first: &'a str,
    pub further: &'a [&'a str],
}

impl<'a> BriefFiles<'a> {
    /// The file of the brief with this number, from 0 on, or what stands for standard input.
    pub fn of(self, number: u32) -> Option<&'a str> {
        let path = match number.checked_sub(1) {
            None => self.first,
            Some(after) => *self.further.get(after as usize)?,
        };
        Some(called(path))
    }
}

/// What people call the file of this path: of standard input they know no name.
pub fn called(path: &str) -> &str {
    match path {
        "-" | "/dev/stdin" => "<stdin>",
        _ => path,
    }
}

/// A line of a file.
#[derive(Clone, Copy, PartialEq, Eq)]
pub struct FileLine<'a> {
    pub file: &'a str,
    pub line: u64,
}

impl FileLine<'_> {
    /// `FILE:LINE`, as editors take it. What is hidden in the name is escaped.
    ///
    /// # Errors
    ///
    /// Where an allocation fails.
    pub fn spelled(self, alloc: Global) -> Result<String, AllocError> {
        let mut text = Text::new(alloc);
        push_shown(&mut text, self.file);
        text.push(":");
        text.push_number(self.line);
        text.finish()
    }
}

/// A plan, in the words of people.
#[derive(Clone, Copy)]
pub struct PlanWords<'a> {
    plan: &'a Plan,
    origins: Option<&'a Origins>,
    files: BriefFiles<'a>,
    is_first_version: bool,
}

impl<'a> PlanWords<'a> {
    /// A plan, and where its parts stand in the briefs of these files, if briefs mean it; and whether it is given as a plan text of
    /// the first version.
    pub fn new(
        plan: &'a Plan,
        origins: Option<&'a Origins>,
        files: BriefFiles<'a>,
        is_first_version: bool,
    ) -> PlanWords<'a> {
        PlanWords {
            plan,
            origins,
            files,
            is_first_version,
        }
    }

    /// Whether the plan is given as a plan text of the first version, in which no `never` stands.
    pub fn is_first_version(self) -> bool {
        self.is_first_version
    }

    /// The plan itself.
    pub fn plan(self) -> &'a Plan {
        self.plan
    }

    /// The files that gave the plan.
    pub fn files(self) -> BriefFiles<'a> {
        self.files
    }

    /// Whether briefs mean the plan.
    pub fn has_briefs(self) -> bool {
        self.origins.is_some()
    }

    /// The label of a participant, and nothing for a number that is none.
    ///
    /// # Errors
    ///
    /// Where an allocation fails.
    pub fn label(self, alloc: Global, p: u32) -> Result<String, AllocError> {
        if self.plan.participants() <= p {
            return Ok(String::new(alloc));
        }
        match self.plan.participant(p) {
            Participant::Sending {
                controller,
                message,
            } => {
                let mut text = Text::new(alloc);
                text.push(self.name(controller));
                text.push("/");
                if message < self.plan.messages() {
                    text.push(self.plan.message_name(message).as_str());
                }
                text.finish()
            }
            Participant::Interrupt(_) => self.plan.label(alloc, p),
        }
    }

    /// What stands for a controller in a `never`: its name, or the label of which it is the part. Nothing for a number that is
    /// none.
    ///
    /// # Errors
    ///
    /// Where an allocation fails.
    pub fn side(self, alloc: Global, controller: u32) -> Result<String, AllocError> {
        let mut text = Text::new(alloc);
        text.push(self.name(controller));
        if let Some(origin) = self.origin(controller) {
            if let Some(label) = &origin.label {
                text.push("/");
                text.push(label.as_str());
            }
        }
        text.finish()
    }

    /// The number of the family that makes this message of the plan. None where no brief means the plan, or no family makes it.
    pub fn family_of(self, message: u32) -> Option<usize> {
        if self.plan.messages() <= message {
            return None;
        }
        family_of(self.origins?, self.plan.message_name(message))
    }

    /// The label of a family in a `never`, as this controller of the plan has it: `bmc/page`. Nothing of it for a number that is
    /// none.
    ///
    /// # Errors
    ///
    /// Where an allocation fails.
    pub fn family_label(
        self,
        alloc: Global,
        controller: u32,
        family: usize,
    ) -> Result<String, AllocError> {
        let mut text = Text::new(alloc);
        text.push(self.name(controller));
        text.push("/");
        text.push(self.family_name(family));
        text.finish()
    }

    /// The name that the item of a message gives it: that of its family, where one makes it. Nothing for a number that is none.
    pub fn message_name(self, message: u32) -> &'a str {
        match self.family_of(message) {
            Some(family) => self.family_name(family),
            None if message < self.plan.messages() => self.plan.message_name(message).as_str(),
            None => "",
        }
    }

    fn family_name(self, family: usize) -> &'a str {
        match self.origins {
            Some(origins) => match origins.families.get(family) {
                Some(family) => family.name.as_str(),
                None => "",
            },
            None => "",
        }
    }

    /// Whether this controller of the plan is what a label stands for.
    pub fn is_part(self, controller: u32) -> bool {
        self.label_of(controller).is_some()
    }

    /// Whether what stands for the first of these controllers in a `never` means the second one too: a controller means all its
    /// parts, and the label of a family its part and those of its messages.
    pub fn means(self, named: u32, c: u32) -> bool {
        named == c || self.is_one(named, c) && self.means_part(named, c)
    }

    // The same of two parts of one controller.
    fn means_part(self, named: u32, c: u32) -> bool {
        match (self.label_of(named), self.label_of(c)) {
            (None, _) => true,
            (Some(_), None) => false,
            (Some(label), Some(other)) => self.is_made(label, other),
        }
    }

    // Whether the family of this name makes this message.
    fn is_made(self, family: &Name, message: &Name) -> bool {
        match self.origins {
            Some(origins) => origins
                .families
                .iter()
                .any(|it| it.name == *family && makes(it, message)),
            None => false,
        }
    }

    // The label of which a controller of the plan is the part.
    fn label_of(self, controller: u32) -> Option<&'a Name> {
        self.origin(controller)?.label.as_ref()
    }

    /// Whether these two controllers of the plan are parts of one controller.
    pub fn is_one(self, one: u32, other: u32) -> bool {
        self.name(one) == self.name(other)
    }

    /// The message of a participant that is no interrupt.
    pub fn message_of(self, p: u32) -> Option<u32> {
        let (_, message) = self.sending(p)?;
        Some(message)
    }

    /// Where what a participant sends stands: its message, or the interrupt that it is.
    pub fn item_at(self, p: u32) -> Option<FileLine<'a>> {
        let origins = self.origins?;
        if self.plan.participants() <= p {
            return None;
        }
        let spot = match self.plan.participant(p) {
            Participant::Sending { message, .. } => origins.messages.get(message as usize)?,
            Participant::Interrupt(interrupt) => origins.interrupts.get(interrupt as usize)?,
        };
        self.at(*spot)
    }

    /// Where a message of the plan stands. None for a number that is none, and where no brief means the plan.
    pub fn message_at(self, message: u32) -> Option<FileLine<'a>> {
        let spot = self.origins?.messages.get(message as usize)?;
        self.at(*spot)
    }

    /// Where the controller of a participant stands. None for an interrupt.
    pub fn controller_at(self, p: u32) -> Option<FileLine<'a>> {
        let (controller, _) = self.sending(p)?;
        self.at(self.origin(controller)?.spot)
    }

    // The controller and the message of a participant that is no interrupt.
    fn sending(self, p: u32) -> Option<(u32, u32)> {
        if self.plan.participants() <= p {
            return None;
        }
        match self.plan.participant(p) {
            Participant::Sending {
                controller,
                message,
            } => Some((controller, message)),
            Participant::Interrupt(_) => None,
        }
    }

    fn origin(self, controller: u32) -> Option<&'a ControllerOrigin> {
        self.origins?.controllers.get(controller as usize)
    }

    /// The name of a controller of the plan, or of the one of which it is a part. Nothing for a number that is none.
    pub fn name(self, controller: u32) -> &'a str {
        match self.origin(controller) {
            Some(origin) => origin.controller.as_str(),
            None if controller < self.plan.controllers() => {
                self.plan.controller_name(controller).as_str()
            }
            None => "",
        }
    }

    /// The line of a place in the briefs.
    pub fn at(self, spot: Spot) -> Option<FileLine<'a>> {
        let file = self.files.of(spot.file)?;
        Some(FileLine {
            file,
            line: spot.line,
        })
    }
}

/// The number of the family that makes the message of this name in the plan.
pub fn family_of(origins: &Origins, message: &Name) -> Option<usize> {
    origins
        .families
        .iter()
        .position(|family| makes(family, message))
}

fn makes(family: &FamilyOrigin, message: &Name) -> bool {
    family.messages.iter().any(|name| *name == *message)
}
