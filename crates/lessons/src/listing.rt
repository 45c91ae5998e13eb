// Which controllers there are, and what each of them lists.

use crate::families::Item;
use crate::naming::Name;
use crate::seen::{Sights, bit_of};
use crate::trees::Tree;
use crate::words::plain_word;
use brief_tokens::is_board_word;
use growing_text::{Lines, Text};
use std::alloc::{AllocError, Global};

/// A controller of the brief, and what it lists: messages of the briefs before it, and further ones, by their numbers.
#[derive(Drop)]
pub(crate) struct Controller {
    pub(crate) name: String,
    /// Whether the briefs before have it, and it is given these as well.
    pub(crate) is_extended: bool,
    // the name that was wanted, and whether a line of the controller was followed
    base: String,
    is_known: bool,
    pub(crate) before: Vec<u32>,
    pub(crate) messages: Vec<usize>,
}

/// The controllers of these messages: one that lists them all, and what was seen of the brief before that no controller of it
/// lists. Where lines of controllers were followed each has its own, and the one lists what nobody was seen to send. Beside a
/// brief, and beside others, there is none that has nothing.
pub(crate) fn controllers_of(
    alloc: Global,
    seen: &Sights<'_>,
    trees: &Vec<Tree>,
    items: &Vec<Item>,
) -> Result<Vec<Controller>, AllocError> {
    let senders = senders_of(alloc, trees, items)?;
    let mut controllers: Vec<Controller> = Vec::new(alloc);
    for (number, drive) in seen.drives.all.iter().enumerate() {
        let is_extended = can_extend(seen, drive.controller);
        let name = if is_extended {
            String::from_str(alloc, drive.controller)?
        } else {
            free_name(alloc, seen, &controllers, drive.controller, true)?
        };
        let own = Controller {
            is_extended,
            ..listed(
                alloc,
                seen,
                name,
                drive.controller,
                senders.as_slice(),
                Some(number),
            )?
        };
        push_some(&mut controllers, own)?;
    }
    let name = free_name(alloc, seen, &controllers, "seen", false)?;
    let rest = listed(alloc, seen, name, "seen", senders.as_slice(), None)?;
    if seen.before.is_none() && seen.drives.is_empty() {
        controllers.push(rest)?;
    } else {
        push_some(&mut controllers, rest)?;
    }
    Ok(controllers)
}

// Whether this controller of the briefs before is given more. No controller that is followed may have a name that is a word of
// the second version, in which that is said.
fn can_extend(seen: &Sights<'_>, controller: &str) -> bool {
    let mut drives = seen.drives.all.iter();
    match seen.before {
        Some(before) => {
            before.can_extend(controller) && !drives.any(|drive| is_board_word(drive.controller))
        }
        None => false,
    }
}

fn push_some(controllers: &mut Vec<Controller>, one: Controller) -> Result<(), AllocError> {
    if !one.before.is_empty() || !one.messages.is_empty() {
        controllers.push(one)?;
    }
    Ok(())
}

// Which controllers each message is of.
fn senders_of(alloc: Global, trees: &Vec<Tree>, items: &Vec<Item>) -> Result<Vec<u32>, AllocError> {
    let mut senders = Vec::new(alloc);
    for item in items.iter() {
        senders.push(match trees.get(item.written) {
            Some(tree) => tree.by,
            None => 0,
        })?;
    }
    Ok(senders)
}

// The messages of the controller with this number, or of none, under this name.
fn listed(
    alloc: Global,
    seen: &Sights<'_>,
    name: String,
    base: &str,
    senders: &[u32],
    number: Option<usize>,
) -> Result<Controller, AllocError> {
    let mut one = Controller {
        name,
        is_extended: false,
        base: String::from_str(alloc, base)?,
        is_known: number.is_some(),
        before: Vec::new(alloc),
        messages: Vec::new(alloc),
    };
    if let Some(before) = seen.before {
        for message in 0..before.count() {
            if is_unlisted(seen, message, number) {
                one.before.push(message)?;
            }
        }
    }
    for (message, by) in senders.iter().enumerate() {
        if is_of(*by, number) {
            one.messages.push(message)?;
        }
    }
    Ok(one)
}

// Whether no controller of the brief before lists this message, and it was seen of the one with this number, or of none.
fn is_unlisted(seen: &Sights<'_>, message: u32, number: Option<usize>) -> bool {
    for unlisted in seen.unlisted.iter() {
        if unlisted.message == message {
            return is_of(unlisted.by, number);
        }
    }
    false
}

fn is_of(by: u32, number: Option<usize>) -> bool {
    match number {
        Some(number) => by & bit_of(number) != 0,
        None => by == 0,
    }
}

// A plan has fewer controllers than this, and so have those that are followed.
const MOST_NAMES: u64 = 128;

// This name, or the first of `seen_2`, `seen_3` and so on that nobody else has: no controller of the brief before, none of these,
// and none that is followed, as the one that wants it may be itself.
fn free_name(
    alloc: Global,
    seen: &Sights<'_>,
    controllers: &Vec<Controller>,
    base: &str,
    is_known: bool,
) -> Result<String, AllocError> {
    for number in 1..MOST_NAMES {
        let name = numbered(alloc, base, number)?;
        let is_own = is_known && number == 1;
        if !is_given(seen, controllers, name.as_str())
            && (is_own || !is_followed(seen, name.as_str()))
        {
            return Ok(name);
        }
    }
    numbered(alloc, base, MOST_NAMES)
}

fn is_given(seen: &Sights<'_>, controllers: &Vec<Controller>, name: &str) -> bool {
    if let Some(before) = seen.before
        && before.has_controller(name)
    {
        return true;
    }
    controllers.iter().any(|one| one.name.as_str() == name)
}

fn is_followed(seen: &Sights<'_>, name: &str) -> bool {
    let mut drives = seen.drives.all.iter();
    drives.any(|drive| drive.controller == name)
}

fn numbered(alloc: Global, base: &str, number: u64) -> Result<String, AllocError> {
    let mut text = Text::new(alloc);
    text.push(base);
    if number > 1 {
        text.push("_");
        text.push_number(number);
    }
    text.finish()
}

// Beside a brief a further controller is a draft: what it lists belongs to those of the brief.
fn push_note(alloc: Global, line: &mut Lines, seen: &Sights<'_>, controller: &Controller) {
    let Some(before) = seen.before else {
        return;
    };
    if controller.base.as_str() == controller.name.as_str() && controller.is_known {
        return;
    }
    line.begin("# before a check, put these into", "#  ");
    if controller.is_known {
        line.word(controller.base.as_str());
        line.word("of");
    } else {
        line.tell("the controllers of", &[]);
    }
    line.word_made(plain_word(alloc, before.file));
    line.end();
}

/// The controllers, where the messages have these names.
pub(crate) fn push_controllers(
    alloc: Global,
    line: &mut Lines,
    seen: &Sights<'_>,
    controllers: &Vec<Controller>,
    names: &[Name],
) {
    for controller in controllers.iter() {
        line.end();
        push_note(alloc, line, seen, controller);
        line.begin(
            if controller.is_extended {
                "extend"
            } else {
                "controller"
            },
            "   ",
        );
        line.word(controller.name.as_str());
        for number in controller.before.iter() {
            if let Some(before) = seen.before {
                line.word(before.message_name(*number).unwrap_or(""));
            }
        }
        for number in controller.messages.iter() {
            if let Some(name) = names.get(*number) {
                line.word_made(name.word(alloc));
            }
        }
        line.word(";");
        line.end();
    }
}
