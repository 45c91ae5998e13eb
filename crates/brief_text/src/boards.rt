// What the items of briefs make up so far: names are looked up in it, and what stands next is judged by it.

ghost use Rattle.std.specs.Prelude.{◌≡◌, ◌||◌, ◌<◌, ◌≤◌, ◌++◌, ◌∷◌, [], length, map, not, sum_by, is_some, IfOk, OnOk, None};
ghost use Rattle.std.specs.List.{flat_map, list_any, prefix_len};
ghost use Rattle.std.specs.Option.{option_map};
ghost use Rattle.plan_text.specs.Places.{Passes};
ghost use Rattle.brief_text.specs.Places.{Place};
ghost use Rattle.std.specs.Map.{lookup};
ghost use Rattle.std.specs.Str.{bytes_eq};
ghost use Rattle.plan_core.specs.BuilderContents.{builder_contents};
ghost use Rattle.plan_core.specs.NameBytes.{name_bytes};
ghost use Rattle.plan_core.specs.Building.{interrupt_refusal, with_interrupt};
ghost use Rattle.plan_core.specs.declared.limits.TheConstants.{MOST_MESSAGES, MOST_SENDINGS};
ghost use Rattle.brief_text.specs.Drafts.{no_items, address_said, bits_said, stands_for, stands_alone_for, extended, with_label, is_new_label, same_side};
ghost use Rattle.brief_text.specs.Splitting.{side_name};
ghost use Rattle.brief_text.specs.Meanings.{is_twice};
ghost use Rattle.brief_text.specs.Judging.{is_family, is_message, message_refusal_of, named_refusal, taken_names, is_taken};
ghost use Rattle.brief_text.specs.Judging.{controller_refusal_of, extend_refusal_of, is_labelled, is_side_of, listed_by, listing_refusal, have_one_of, is_side};
ghost use Rattle.brief_text.specs.Judging.{part_refusal, first_refusal, second_refusal, range_refusal, are_sides};

use crate::groups::{InPlace, listed};
use crate::lint::Uses;
use crate::meanings::member_text;
use crate::naming::{Named, copied};
use crate::splitting::push_all;
use crate::syntax::{Lengths, NameFound, Party, Value};
use message_tree::{Address, Pattern};
use origins::Spot;
use plan_core::limits::{MOST_CONTROLLERS, MOST_MESSAGES, MOST_SENDINGS};
use plan_core::{BuildError, Builder, Name};
use plan_text::PlanError;
use std::alloc::{AllocError, Global};

/// A controller with the names of all messages that it lists.
#[derive(Drop)]
pub(crate) struct Listing {
    pub(crate) name: Name,
    pub(crate) messages: Vec<Name>,
    pub(crate) spot: Spot,
}

/// A name, and those that it makes or that stand in it: a group with its devices, or a message with what it makes by one.
#[derive(Drop)]
pub(crate) struct NameList {
    pub(crate) name: Name,
    pub(crate) names: Vec<Name>,
}

/// A `never` as it is written.
#[derive(Drop)]
pub(crate) struct Never {
    pub(crate) first: Party,
    pub(crate) second: Party,
}

/// What the items of briefs make up so far.
pub(crate) struct Board {
    pub(crate) alloc: Global,
    pub(crate) devices: Named<Address>,
    pub(crate) bytes: Named<Pattern>,
    /// The messages and the interrupts of the plan.
    pub(crate) builder: Builder,
    /// How many messages it has.
    pub(crate) messages: u32,
    pub(crate) families: Named<Lengths>,
    /// The groups. Each is among the devices, too.
    pub(crate) groups: Vec<NameList>,
    /// The messages in which a group stands, each with the names that it makes.
    pub(crate) grouped: Vec<NameList>,
    pub(crate) controllers: Vec<Listing>,
    /// How many messages all of them list.
    pub(crate) sendings: usize,
    /// The parties with labels, as they were first named.
    pub(crate) labels: Vec<Party>,
    pub(crate) nevers: Vec<Never>,
    /// Where each message stands, where each interrupt does, and which brief is read, from 0 on.
    pub(crate) spots: Vec<Spot>,
    pub(crate) interrupts: Vec<Spot>,
    pub(crate) file: u32,
    /// Which devices and data bytes stand where, and which of them are used.
    pub(crate) uses: Uses,
    ghost counted: { messages ≡ length (builder_contents builder).messages },
    ghost room: { messages ≤ MOST_MESSAGES },
    ghost listed: { sendings ≡ sum_by (λ it. length it.messages.items) controllers.items },
    ghost few: { sendings ≤ MOST_SENDINGS },
}

// Written out, so that one call lets it go.
impl Drop for Board {
    fn drop(self) {
        let Self {
            alloc: _,
            devices: _,
            bytes: _,
            builder: _,
            messages: _,
            families: _,
            groups: _,
            grouped: _,
            controllers: _,
            sendings: _,
            labels: _,
            nevers: _,
            spots: _,
            interrupts: _,
            file: _,
            uses: _,
        } = self;
    }
}

impl Board {
    ghost use Rattle.brief_text.specs.Standing.{draft, said, side, sides, with_device};

    /// The messages and the interrupts of the plan.
    pub(crate) fn into_builder(self) -> Builder
        ensures { builder_contents result ≡ (draft self).plan }
    {
        let Self {
            alloc: _,
            devices: _,
            bytes: _,
            builder,
            messages: _,
            families: _,
            groups: _,
            grouped: _,
            controllers: _,
            sendings: _,
            labels: _,
            nevers: _,
            spots: _,
            interrupts: _,
            file: _,
            uses: _,
        } = self;
        builder
    }

    /// No items.
    pub(crate) fn new(alloc: Global) -> Self
        ensures { draft result ≡ no_items }
    {
        Board {
            alloc,
            devices: Named::new(alloc),
            bytes: Named::new(alloc),
            builder: Builder::new(alloc),
            messages: 0,
            families: Named::new(alloc),
            groups: Vec::new(alloc),
            grouped: Vec::new(alloc),
            controllers: Vec::new(alloc),
            sendings: 0,
            labels: Vec::new(alloc),
            nevers: Vec::new(alloc),
            spots: Vec::new(alloc),
            interrupts: Vec::new(alloc),
            file: 0,
            uses: Uses::new(alloc),
        }
    }

    /// Whether a device has this name.
    pub(crate) fn has_device(&self, name: &Name) -> bool
        ensures { result ≡ is_some (lookup (bytes_eq (name_bytes name.now)) (draft self.now).devices) }
    {
        self.devices.get(name).is_some()
    }

    /// Whether a data byte has this name.
    pub(crate) fn has_byte(&self, name: &Name) -> bool
        ensures { result ≡ is_some (lookup (bytes_eq (name_bytes name.now)) (draft self.now).bytes) }
    {
        self.bytes.get(name).is_some()
    }

    /// The address that is meant, with this device in the place of a group.
    pub(crate) fn address_with(&self, in_place: Option<InPlace<'_>>, to: &Value<Address>) -> Address
        ensures { result ≡ address_said (with_device (draft self.now) in_place.entry) (said to.now) }
    {
        if let (Some(device), Value::Named(named)) = (in_place, to) {
            if named.name == *device.group {
                return device.address;
            }
        }
        self.address(to)
    }

    /// The address that is meant. Each name is that of a device by then.
    pub(crate) fn address(&self, to: &Value<Address>) -> Address
        ensures { result ≡ address_said (draft self.now) (said to.now) }
    {
        match to {
            Value::Spelled(address) => *address,
            Value::Named(named) => match self.devices.get(&named.name) {
                Some(address) => address,
                None => Address::new(0, 0),
            },
        }
    }

    /// The data byte that is meant. Each name is that of a byte by then.
    pub(crate) fn bits(&self, bits: &Value<Pattern>) -> Pattern
        ensures { result ≡ bits_said (draft self.now) (said bits.now) }
    {
        match bits {
            Value::Spelled(bits) => *bits,
            Value::Named(named) => match self.bytes.get(&named.name) {
                Some(bits) => bits,
                None => Pattern::new(0, 0),
            },
        }
    }

    // ---- messages and families

    /// Why a message of this name is refused, whatever its frames.
    #[tactic(auto, unfolding(crate::specs::Judging::message_refusal_of))]
    pub(crate) fn message_refusal(&self, name: &Name) -> Option<BuildError>
        ensures { result ≡ message_refusal_of (draft self.now) (name_bytes name.now) }
    {
        if self.is_family(name) {
            Some(BuildError::Twice)
        } else {
            self.builder.message_name_refusal(name)
        }
    }

    // Whether a family has this name, by numbers or by a group.
    fn is_family(&self, name: &Name) -> bool
        ensures { result ≡ is_family (draft self.now) (name_bytes name.now) }
    {
        self.families.get(name).is_some() || listed(self.grouped.as_slice(), name).is_some()
    }

    /// Whether a message or a family has this name.
    pub(crate) fn is_message(&self, name: &Name) -> bool
        ensures { result ≡ is_message (draft self.now) (name_bytes name.now) }
    {
        is_twice(self.message_refusal(name))
    }

    /// The refusal of a family of this name with the range on this line, where there is one.
    pub(crate) fn range_refusal(
        &self,
        name: &Name,
        range: Lengths,
        line: u64,
    ) -> Result<(), PlanError>
        ensures { (at : Place) → Passes result (range_refusal (draft self.now) (name_bytes name.now) range line at) at }
    {
        if member_text(self.alloc, name, range.greatest as u32)?.len() > 32 {
            return Err(PlanError::Unexpected(line));
        }
        let members = self.members(name, range)?;
        if self.has_one_of(members.as_slice()) {
            return Err(PlanError::Twice(line));
        }
        if self.messages as usize + members.len() > MOST_MESSAGES as usize {
            return Err(PlanError::TooMany(line));
        }
        Ok(())
    }

    /// Whether a message or a family has one of these names.
    pub(crate) fn has_one_of(&self, names: &[Name]) -> bool
        ensures { result ≡ list_any (λ name. is_message (draft self.now) (name_bytes name)) names.now }
    {
        names.iter().any(|name| self.is_message(name))
    }

    /// The messages that this name stands for.
    pub(crate) fn named(&self, name: &Name) -> Result<Vec<Name>, AllocError>
        ensures { IfOk result (λ it. map name_bytes it.items ≡ stands_for (draft self.now) (name_bytes name.now)) }
    {
        match listed(self.grouped.as_slice(), name) {
            Some(grouped) => self.all_named(grouped.names.as_slice()),
            None => self.named_alone(name),
        }
    }

    // Those that these names stand for.
    fn all_named(&self, names: &[Name]) -> Result<Vec<Name>, AllocError>
        ensures { IfOk result (λ it. map name_bytes it.items ≡
            flat_map (stands_alone_for (draft self.now)) (map name_bytes names.now)) }
    {
        let mut all = Vec::new(self.alloc);
        for name in names {
            self.push_named_alone(&mut all, name)?;
        }
        Ok(all)
    }

    fn push_named_alone(&self, all: &mut Vec<Name>, name: &Name) -> Result<(), AllocError>
        ensures { OnOk result (map name_bytes all.new.items ≡ map name_bytes all.old.items ++
            stands_alone_for (draft self.now) (name_bytes name.now)) }
    {
        let named = self.named_alone(name)?;
        push_all(self.alloc, all, named.as_slice())
    }

    /// All of the family with this name, or the message with it.
    pub(crate) fn named_alone(&self, name: &Name) -> Result<Vec<Name>, AllocError>
        ensures { IfOk result (λ it. map name_bytes it.items ≡ stands_alone_for (draft self.now) (name_bytes name.now)) }
    {
        match self.families.get(name) {
            Some(range) => self.members(name, range),
            None => {
                let mut only = Vec::new(self.alloc);
                only.push(copied(self.alloc, name)?)?;
                Ok(only)
            }
        }
    }

    // ---- controllers

    /// Why a controller of this name is refused, whatever its messages.
    pub(crate) fn controller_refusal(&self, name: &Name) -> Result<Option<BuildError>, AllocError>
        ensures { IfOk result (λ it. it ≡ controller_refusal_of (draft self.now) (name_bytes name.now)) }
    {
        if self.is_taken(name.as_str()) {
            return Ok(Some(BuildError::Twice));
        }
        if self.parts()?.len() >= MOST_CONTROLLERS as usize {
            return Ok(Some(BuildError::TooMany));
        }
        Ok(None)
    }

    // Whether a controller has this name, or a label takes it.
    fn is_taken(&self, name: &str) -> bool
        ensures { result ≡ is_taken (draft self.now) name.now }
    {
        self.has_controller(name) || self.has_part(name)
    }

    fn has_controller(&self, name: &str) -> bool
        ensures { result ≡ list_any (λ it. bytes_eq name.now (name_bytes it.name)) self.now.controllers.items }
    {
        self.controllers
            .iter()
            .any(|controller| *name == *controller.name.as_str())
    }

    // Whether a label takes this name.
    fn has_part(&self, name: &str) -> bool
        ensures { result ≡ list_any (λ it. bytes_eq name.now (side_name (side it))) self.now.labels.items }
    {
        self.labels.iter().any(|label| label.is_named(name))
    }

    /// Why a further message or family of this name is refused to a controller that has some messages already and is given
    /// others as well; `further` is what the name stands for.
    pub(crate) fn listing_refusal(
        &self,
        has: &[Name],
        given: &[Name],
        name: &Name,
        further: &[Name],
    ) -> Option<BuildError>
        requires { map name_bytes further.now ≡ stands_for (draft self.now) (name_bytes name.now) }
        ensures { result ≡ listing_refusal (draft self.now) (map name_bytes has.now) (map name_bytes given.now)
            (name_bytes name.now) }
    {
        if !self.is_message(name) {
            Some(BuildError::Unknown)
        } else if either_has_one_of(has, given, further) {
            Some(BuildError::Twice)
        } else if self.sendings + given.len() + further.len() > MOST_SENDINGS as usize {
            Some(BuildError::TooMany)
        } else {
            None
        }
    }

    /// Adds a controller that lists these messages. It has been judged where it stands that there is room for them.
    pub(crate) fn add_controller(
        &mut self,
        named: NameFound,
        messages: Vec<Name>,
    ) -> Result<(), AllocError>
        ensures { OnOk result (draft self.new ≡ record (draft self.old) {
          controllers = (draft self.old).controllers ++ (name_bytes named.name, map name_bytes messages.items) ∷ [];
        }) }
    {
        let sendings = self.sendings.saturating_add(messages.len());
        if sendings > MOST_SENDINGS as usize {
            return Err(AllocError);
        }
        let spot = Spot {
            file: self.file,
            line: named.line,
        };
        self.controllers.push(Listing {
            name: named.name,
            messages,
            spot,
        })?;
        self.sendings = sendings;
        Ok(())
    }

    /// Why further messages are refused to a controller of this name, whatever they are.
    pub(crate) fn extend_refusal(&self, name: &Name) -> Option<BuildError>
        ensures { result ≡ extend_refusal_of (draft self.now) (name_bytes name.now) }
    {
        if self.controller(name).is_none() {
            Some(BuildError::Unknown)
        } else if self.is_kept_apart(name) {
            Some(BuildError::Twice)
        } else {
            None
        }
    }

    // Whether a label of this controller has been named, or a `never` names it.
    fn is_kept_apart(&self, name: &Name) -> bool
        ensures { result ≡ (is_labelled (draft self.now) (name_bytes name.now) ||
            list_any (is_side_of (name_bytes name.now)) (draft self.now).nevers) }
    {
        self.is_split(name) || self.has_never_of(name)
    }

    // Whether a `never` names this controller.
    fn has_never_of(&self, name: &Name) -> bool
        ensures { result ≡ list_any (λ it. is_side_of (name_bytes name.now) (sides it)) self.now.nevers.items }
    {
        self.nevers.iter().any(|never| never.is_side_of(name))
    }

    /// The messages that the controller of this name lists.
    pub(crate) fn listed_by(&self, name: &Name) -> &[Name]
        ensures { map name_bytes result.now ≡ listed_by (draft self.now) (name_bytes name.now) }
    {
        match self.controller(name) {
            Some(controller) => controller.messages.as_slice(),
            None => &[],
        }
    }

    /// Adds messages to what the controller of this name lists. It has been judged where it stands that there is one, and
    /// that there is room for them.
    pub(crate) fn extend_controller(
        &mut self,
        name: &Name,
        messages: Vec<Name>,
    ) -> Result<(), AllocError>
        ensures { OnOk result (draft self.new ≡ record (draft self.old) {
          controllers = extended (name_bytes name.now) (map name_bytes messages.items) (draft self.old).controllers;
        }) }
    {
        let sendings = self.sendings.saturating_add(messages.len());
        if sendings > MOST_SENDINGS as usize {
            return Err(AllocError);
        }
        let place = self.place_of(name);
        let mut messages = messages;
        match self.controllers.get_mut(place) {
            Some(controller) => {
                controller.messages.append(&mut messages)?;
                self.sendings = sendings;
                Ok(())
            }
            None => Err(AllocError),
        }
    }

    // How many controllers stand before the one of this name.
    fn place_of(&self, name: &Name) -> usize
        ensures { result ≡ prefix_len (λ it. not (bytes_eq (name_bytes name.now) (name_bytes it.name)))
            self.now.controllers.items }
    {
        self.controllers
            .iter()
            .take_while(|controller| *name != controller.name)
            .count()
    }

    /// Adds an interrupt that is not refused.
    #[tactic(auto, using(crate::proofs::MessageLemmas::same_messages))]
    pub(crate) fn add_interrupt(&mut self, named: NameFound, address: u8) -> Result<(), AllocError>
        requires new { interrupt_refusal (draft self.old).plan (name_bytes named.name) ≡ None }
        requires small { address < 128 }
        ensures { OnOk result (draft self.new ≡ record (draft self.old) {
          plan = with_interrupt (draft self.old).plan (name_bytes named.name) address;
        }) }
    {
        self.interrupts.push(Spot {
            file: self.file,
            line: named.line,
        })?;
        self.builder.add_interrupt(named.name, address)
    }

    // The controller of this name.
    fn controller(&self, name: &Name) -> Option<&Listing>
        ensures { option_map (λ it. map name_bytes it.now.messages.items) result ≡
            lookup (bytes_eq (name_bytes name.now)) (draft self.now).controllers }
    {
        for controller in self.controllers.as_slice() {
            if *name == controller.name {
                return Some(controller);
            }
        }
        None
    }

    // ---- `never`

    /// Names what a `never` names first, or says why it may not.
    pub(crate) fn name_first(&mut self, first: &Party) -> Result<Option<BuildError>, AllocError>
        ensures refusal { IfOk result (λ it. it ≡ first_refusal (draft self.old) (side first.now)) }
        ensures named { IfOk result (λ it. it ≡ None → draft self.new ≡ with_label (draft self.old) (side first.now)) }
    {
        if self.is_side(first)? {
            self.name_label(first)
        } else {
            Ok(Some(BuildError::Unknown))
        }
    }

    /// Names what a `never` names after the first, or says why it may not.
    pub(crate) fn name_second(
        &mut self,
        first: &Party,
        second: &Party,
    ) -> Result<Option<BuildError>, AllocError>
        ensures refusal { IfOk result (λ it. it ≡ second_refusal (draft self.old) (side first.now) (side second.now)) }
        ensures named { IfOk result (λ it. it ≡ None → draft self.new ≡ with_label (draft self.old) (side second.now)) }
    {
        if first.controller == second.controller {
            Ok(Some(BuildError::Twice))
        } else if !self.is_side(second)? {
            Ok(Some(BuildError::Unknown))
        } else if self.has_never(first, second) {
            Ok(Some(BuildError::Twice))
        } else {
            self.name_label(second)
        }
    }

    // Whether there is this controller, and it lists what the label stands for, or some of it.
    fn is_side(&self, party: &Party) -> Result<bool, AllocError>
        ensures { IfOk result (λ it. it ≡ is_side (draft self.now) (side party.now)) }
    {
        let Some(controller) = self.controller(&party.controller) else {
            return Ok(false);
        };
        let Some(label) = &party.label else {
            return Ok(true);
        };
        let named = self.named(label)?;
        Ok(have_one_of(controller.messages.as_slice(), named.as_slice()))
    }

    // A new label takes the name of its part, and may make one controller more.
    fn name_label(&mut self, party: &Party) -> Result<Option<BuildError>, AllocError>
        ensures refusal { IfOk result (λ it. it ≡ part_refusal (draft self.old) (side party.now)) }
        ensures named { IfOk result (λ it. it ≡ None → draft self.new ≡ with_label (draft self.old) (side party.now)) }
    {
        if !self.is_new_label(party) {
            return Ok(None);
        }
        let name = party.name(self.alloc)?;
        if self.is_taken(name.as_str()) {
            return Ok(Some(BuildError::Twice));
        }
        self.labels.push(party.copied(self.alloc)?)?;
        if self.parts()?.len() > MOST_CONTROLLERS as usize {
            return Ok(Some(BuildError::TooMany));
        }
        Ok(None)
    }

    // Whether the party has a label that has not been named yet.
    fn is_new_label(&self, party: &Party) -> bool
        ensures { result ≡ is_new_label (draft self.now) (side party.now) }
    {
        party.label.is_some() && !self.has_label(party)
    }

    // Whether this label has been named.
    fn has_label(&self, party: &Party) -> bool
        ensures { result ≡ list_any (λ it. same_side (side it) (side party.now)) self.now.labels.items }
    {
        self.labels.iter().any(|label| label.is_same(party))
    }

    // Whether a `never` names these two.
    fn has_never(&self, first: &Party, second: &Party) -> bool
        ensures { result ≡ list_any (λ it. are_sides (side first.now) (side second.now) (sides it)) self.now.nevers.items }
    {
        self.nevers.iter().any(|never| never.is_of(first, second))
    }
}

// Whether one of these names is listed in the first list or in the second.
fn either_has_one_of(listed: &[Name], others: &[Name], names: &[Name]) -> bool
    ensures { result ≡ (have_one_of (map name_bytes listed.now) (map name_bytes names.now) ||
        have_one_of (map name_bytes others.now) (map name_bytes names.now)) }
{
    have_one_of(listed, names) || have_one_of(others, names)
}

// Whether one of these names is listed.
pub(crate) fn have_one_of(listed: &[Name], names: &[Name]) -> bool
    ensures { result ≡
        list_any (λ name. list_any (λ other. bytes_eq (name_bytes other) (name_bytes name)) listed.now) names.now }
{
    names.iter().any(|name| listed.contains(name))
}

impl Never {
    ghost use Rattle.brief_text.specs.Standing.{side, sides};

    // Whether it names this controller.
    fn is_side_of(&self, controller: &Name) -> bool
        ensures { result ≡ is_side_of (name_bytes controller.now) (sides self.now) }
    {
        self.first.controller == *controller || self.second.controller == *controller
    }

    // Whether it names these two, in either order.
    fn is_of(&self, one: &Party, other: &Party) -> bool
        ensures { result ≡ are_sides (side one.now) (side other.now) (sides self.now) }
    {
        (self.first.is_same(one) && self.second.is_same(other))
            || (self.first.is_same(other) && self.second.is_same(one))
    }
}

fn is_twice(refusal: Option<BuildError>) -> bool
    ensures { result ≡ is_twice refusal }
{
    matches!(refusal, Some(BuildError::Twice))
}
