// The briefs that what is learned is given after: which transactions their messages explain, and the names that they have.

use crate::paths::NoPath;
use brief_tokens::is_board_word;
use capture_check::{Transaction, explain};
use message_tree::{Address, Frame, Pattern};
use origins::Origins;
use plan_core::limits::{MOST_CONTROLLERS, MOST_MESSAGES, MOST_SENDINGS};
use plan_core::{BuildError, Builder, Name, Participant, Plan};
use std::alloc::{AllocError, Global};

/// The briefs of a board that are given first: what is learned is a further file after them.
#[derive(Drop)]
pub struct BriefBefore<'a> {
    /// The file that is told of them.
    pub(crate) file: &'a str,
    pub(crate) texts: &'a [Vec<u8>],
    plan: &'a Plan,
    origins: &'a Origins,
    // whether what is learned can be in the second version
    is_second: bool,
    // all messages of the plan, in its order, which one controller lists
    messages: Plan,
    // by the number of the message
    is_listed: Vec<bool>,
}

/// How many messages there is room for, and what is said of those that find none; and how many the controllers may list, each
/// of its own.
#[derive(Clone, Copy)]
pub(crate) struct Room {
    pub(crate) messages: usize,
    pub(crate) full: NoPath,
    pub(crate) sendings: u32,
}

/// The room where no brief is given first.
pub(crate) fn room_alone() -> Room {
    Room {
        messages: MOST_MESSAGES as usize,
        full: NoPath::NoRoom,
        sendings: MOST_SENDINGS,
    }
}

/// Where a transaction is explained.
#[derive(Clone, Copy)]
pub(crate) enum Explained {
    Nowhere,
    /// By this message, which a controller lists.
    Listed(u32),
    /// By this message, which no controller lists.
    Unlisted(u32),
}

impl<'a> BriefBefore<'a> {
    /// The briefs of a board, whose texts mean this plan together. People know them by this file. Where one of them is in the
    /// second version, what is learned may be.
    ///
    /// # Errors
    ///
    /// Where an allocation fails.
    pub fn new(
        alloc: Global,
        file: &'a str,
        texts: &'a [Vec<u8>],
        is_second: bool,
        plan: &'a Plan,
        origins: &'a Origins,
    ) -> Result<BriefBefore<'a>, AllocError> {
        Ok(BriefBefore {
            file,
            texts,
            plan,
            origins,
            is_second: is_second && !names_a_word(plan, origins),
            messages: with_all(alloc, plan)?,
            is_listed: listed_in(alloc, plan)?,
        })
    }

    /// Whether `extend` can add to the controller of this name: it is one of the briefs, and no `never` names it.
    pub(crate) fn can_extend(&self, name: &str) -> bool {
        if !self.is_second {
            return false;
        }
        let mut is_there = false;
        for controller in 0..self.plan.controllers() {
            if self.is_called(controller, name) {
                if is_kept_apart(self.plan, controller) {
                    return false;
                }
                is_there = true;
            }
        }
        is_there
    }

    // How many messages no controller lists.
    fn unlisted(&self) -> u32 {
        let mut count = 0u32;
        for is_listed in self.is_listed.iter() {
            if !*is_listed {
                count = count.saturating_add(1);
            }
        }
        count
    }

    fn sendings(&self) -> u32 {
        self.plan
            .participants()
            .saturating_sub(self.plan.interrupts())
    }

    // Whether a further controller can list what no controller lists.
    fn lists_more(&self) -> bool {
        self.plan.controllers() < MOST_CONTROLLERS
            && self.sendings().saturating_add(self.unlisted()) <= MOST_SENDINGS
    }

    /// How many further messages there is room for, where the further controllers list so many of its own.
    pub(crate) fn room(&self, listed: u32) -> Room {
        let messages = MOST_MESSAGES.saturating_sub(self.plan.messages());
        let sendings = MOST_SENDINGS.saturating_sub(self.sendings());
        let sendings = sendings.saturating_sub(listed);
        let (most, full) = if self.plan.controllers() >= MOST_CONTROLLERS {
            (0, NoPath::NoController)
        } else if sendings < messages {
            (sendings, NoPath::NoSending)
        } else {
            (messages, NoPath::NoRoom)
        };
        Room {
            messages: most as usize,
            full,
            sendings,
        }
    }

    /// Which of its messages explains a transaction. One that no controller lists counts where a further one can list it.
    pub(crate) fn explained(
        &self,
        alloc: Global,
        transaction: &Transaction,
    ) -> Result<Explained, AllocError> {
        let numbers = explain(alloc, &self.messages, transaction)?;
        for number in numbers.iter() {
            if self.is_listed.get(*number as usize).copied() == Some(true) {
                return Ok(Explained::Listed(*number));
            }
        }
        match numbers.first() {
            Some(number) if self.lists_more() => Ok(Explained::Unlisted(*number)),
            _ => Ok(Explained::Nowhere),
        }
    }

    /// The name of a message of its plan.
    pub(crate) fn message_name(&self, number: u32) -> Option<&'a str> {
        if number < self.plan.messages() {
            Some(self.plan.message_name(number).as_str())
        } else {
            None
        }
    }

    /// How many messages its plan has.
    pub(crate) fn count(&self) -> u32 {
        self.plan.messages()
    }

    /// Whether a message has this name, or a family.
    pub(crate) fn has_message(&self, word: &str) -> bool {
        for number in 0..self.plan.messages() {
            if self.plan.message_name(number).as_str() == word {
                return true;
            }
        }
        self.origins
            .families
            .iter()
            .any(|family| family.name.as_str() == word)
    }

    /// Whether a controller of this name lists the message.
    pub(crate) fn lists(&self, controller: &str, message: u32) -> bool {
        for p in 0..self.plan.participants() {
            if let Participant::Sending {
                controller: number,
                message: sent,
            } = self.plan.participant(p)
                && sent == message
                && self.is_called(number, controller)
            {
                return true;
            }
        }
        false
    }

    fn is_called(&self, controller: u32, name: &str) -> bool {
        match self.origins.controllers.get(controller as usize) {
            Some(origin) => origin.controller.as_str() == name,
            None => false,
        }
    }

    /// Whether a controller has this name.
    pub(crate) fn has_controller(&self, word: &str) -> bool {
        for number in 0..self.plan.controllers() {
            if self.plan.controller_name(number).as_str() == word {
                return true;
            }
        }
        self.origins
            .controllers
            .iter()
            .any(|origin| origin.controller.as_str() == word)
    }

    /// The one device with this address in all bits.
    pub(crate) fn device(&self, address: u8) -> Option<&'a str> {
        let wanted = Address::new(0x7f, address);
        let mut found = None;
        for device in self.origins.devices.iter() {
            if device.address == wanted {
                if found.is_some() {
                    return None;
                }
                found = Some(device.name.as_str());
            }
        }
        found
    }

    /// The one name of just these bits of a data byte, of which some are known.
    pub(crate) fn byte(&self, byte: u8, known: u8) -> Option<&'a str> {
        let wanted = Pattern::new(known, byte);
        let mut found = None;
        for named in self.origins.bytes.iter() {
            if named.bits == wanted {
                if found.is_some() {
                    return None;
                }
                found = Some(named.name.as_str());
            }
        }
        found
    }
}

// Whether a device, a byte, a message, a family or a controller has a name that is a word of the second version.
fn names_a_word(plan: &Plan, origins: &Origins) -> bool {
    let mut devices = origins.devices.iter();
    let mut bytes = origins.bytes.iter();
    let mut families = origins.families.iter();
    let mut controllers = origins.controllers.iter();
    devices.any(|it| is_board_word(it.name.as_str()))
        || bytes.any(|it| is_board_word(it.name.as_str()))
        || families.any(|it| is_board_word(it.name.as_str()))
        || controllers.any(|it| is_board_word(it.controller.as_str()))
        || (0..plan.messages()).any(|number| is_board_word(plan.message_name(number).as_str()))
}

fn is_kept_apart(plan: &Plan, controller: u32) -> bool {
    for number in 0..plan.nevers() {
        let (first, second) = plan.never(number);
        if first == controller || second == controller {
            return true;
        }
    }
    false
}

// A plan of these messages, which one controller lists.
fn with_all(alloc: Global, plan: &Plan) -> Result<Plan, AllocError> {
    let mut builder = Builder::new(alloc);
    add_all(alloc, &mut builder, plan)?;
    Ok(builder.finish())
}

fn add_all(alloc: Global, builder: &mut Builder, plan: &Plan) -> Result<(), AllocError> {
    let mut names = Vec::new(alloc);
    for number in 0..plan.messages() {
        let name = plan.message_name(number).as_str();
        add_message(alloc, builder, name, plan.message(number))?;
        names.push(name_of(alloc, name)?)?;
    }
    let controller = name_of(alloc, "all")?;
    added(builder.controller(controller, names.as_slice()))
}

fn add_message(
    alloc: Global,
    builder: &mut Builder,
    name: &str,
    message: &Frame,
) -> Result<(), AllocError> {
    let message = message.copy(alloc)?;
    added(builder.message(name_of(alloc, name)?, message))
}

// A plan had room for it, so all that can be wrong is that an allocation failed.
fn added(made: Result<(), BuildError>) -> Result<(), AllocError> {
    match made {
        Ok(()) => Ok(()),
        Err(_) => Err(AllocError),
    }
}

// A copy of a name of the plan, which has the form of one.
fn name_of(alloc: Global, text: &str) -> Result<Name, AllocError> {
    match Name::new(alloc, text) {
        Ok(name) => Ok(name),
        Err(_) => Err(AllocError),
    }
}

fn listed_in(alloc: Global, plan: &Plan) -> Result<Vec<bool>, AllocError> {
    let mut is_listed = Vec::new(alloc);
    for number in 0..plan.messages() {
        let mut is_in_one = false;
        for controller in 0..plan.controllers() {
            if plan.controller_messages(controller).contains(&number) {
                is_in_one = true;
            }
        }
        is_listed.push(is_in_one)?;
    }
    Ok(is_listed)
}
