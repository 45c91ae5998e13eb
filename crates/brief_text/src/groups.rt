// Groups of devices: one stands in a message, which means a message for each of its devices.

ghost use Rattle.std.specs.Prelude.{◌≡◌, ◌≤◌, ◌++◌, ◌∷◌, [], map, not, None, IfOk, OnOk};
ghost use Rattle.std.specs.List.{flat_map, list_any};
ghost use Rattle.std.specs.Map.{lookup};
ghost use Rattle.std.specs.Option.{option_map};
ghost use Rattle.std.specs.Str.{bytes_eq};
ghost use Rattle.std.specs.String.{string_bytes};
ghost use Rattle.plan_core.specs.NameBytes.{name_bytes};
ghost use Rattle.plan_text.specs.Places.{Passes};
ghost use Rattle.brief_text.specs.Drafts.{any_address, is_group, devices_of, device_name, names_made, families_of};
ghost use Rattle.brief_text.specs.Drafts.{group_said, made_groups, frame_groups, bytes_groups, tail_groups, members};
ghost use Rattle.brief_text.specs.Drafts.{device_meant, grouped_meant, with_made, address_said};
ghost use Rattle.brief_text.specs.Trees.{named};
ghost use Rattle.brief_text.specs.Judging.{device_refusal, grouped_by, how_many, longest, is_long, further_names, repeats};
ghost use Rattle.brief_text.specs.Meanings.{message_of};
ghost use Rattle.brief_text.specs.Places.{Place};
ghost use Rattle.brief_text.specs.Standing.{draft, said, made_of, naming, brief_frame, brief_bytes, brief_tail};

use crate::boards::{Board, NameList};
use crate::meanings::{Message, count};
use crate::naming::{copied, spelled};
use crate::splitting::{is_among, push_all};
use crate::syntax::{DataSyntax, FrameSyntax, Lengths, MadeSyntax, NameFound, TailSyntax, Value};
use message_tree::Address;
use plan_core::limits::MOST_MESSAGES;
use plan_core::{BuildError, Name};
use plan_text::PlanError;
use std::alloc::{AllocError, Global};

/// A device in the place of a group: what the name of the group means there.
#[derive(Clone, Copy)]
pub(crate) struct InPlace<'a> {
    pub(crate) group: &'a Name,
    pub(crate) address: Address,
}

impl Board {
    // ---- the items

    /// Whether a group has this name.
    pub(crate) fn is_group(&self, name: &Name) -> bool
        ensures { result ≡ is_group (draft self.now) (name_bytes name.now) }
    {
        listed(self.groups.as_slice(), name).is_some()
    }

    /// Why a further device of this name is refused to a group that has these.
    #[tactic(auto, unfolding(crate::specs::Judging::device_refusal))]
    pub(crate) fn device_refusal(&self, before: &[Name], name: &Name) -> Option<BuildError>
        ensures { result ≡ device_refusal (draft self.now) (map name_bytes before.now) (name_bytes name.now) }
    {
        if !self.has_device(name) || self.is_group(name) {
            Some(BuildError::Unknown)
        } else if is_among(before, name) {
            Some(BuildError::Twice)
        } else {
            None
        }
    }

    /// Adds a group of these devices. Its name stands among those of devices, too.
    pub(crate) fn add_group(&mut self, name: Name, devices: Vec<Name>) -> Result<(), AllocError>
        requires { lookup (bytes_eq (name_bytes name)) (draft self.old).devices ≡ None }
        ensures { OnOk result (draft self.new ≡ record (draft self.old) {
          devices = (draft self.old).devices ++ (name_bytes name, any_address) ∷ [];
          groups = (draft self.old).groups ++ (name_bytes name, map name_bytes devices.items) ∷ [];
        }) }
    {
        let among = copied(self.alloc, &name)?;
        self.devices.add(among, open_address())?;
        self.groups.push(NameList {
            name,
            names: devices,
        })?;
        Ok(())
    }

    // The devices of a group.
    fn devices_of(&self, group: &Name) -> &[Name]
        ensures { map name_bytes result.now ≡ devices_of (draft self.now) (name_bytes group.now) }
    {
        match listed(self.groups.as_slice(), group) {
            Some(group) => group.names.as_slice(),
            None => &[],
        }
    }

    /// The names that a message makes by a group.
    pub(crate) fn names_made(&self, name: &Name) -> &[Name]
        ensures { map name_bytes result.now ≡ names_made (draft self.now) (name_bytes name.now) }
    {
        match listed(self.grouped.as_slice(), name) {
            Some(grouped) => grouped.names.as_slice(),
            None => &[],
        }
    }

    // ---- the groups that stand in a message

    /// The groups in these frames, as they are read.
    pub(crate) fn groups_in(&self, frame: &FrameSyntax) -> Result<Vec<Name>, AllocError>
        ensures { IfOk result (λ it. map name_bytes it.items ≡ frame_groups (draft self.now) (brief_frame frame.now)) }
    {
        let mut groups = Vec::new(self.alloc);
        self.push_groups(&mut groups, frame)?;
        Ok(groups)
    }

    #[cycle(groups)]
    fn push_groups(&self, groups: &mut Vec<Name>, frame: &FrameSyntax) -> Result<(), AllocError>
        ensures { OnOk result (map name_bytes groups.new.items ≡
            map name_bytes groups.old.items ++ frame_groups (draft self.now) (brief_frame frame.now)) }
    {
        match frame {
            FrameSyntax::Write { to, refused, acked } => {
                self.push_group(groups, to)?;
                self.push_tail_groups(groups, refused)?;
                self.push_data_groups(groups, acked)
            }
            FrameSyntax::Read {
                to,
                count: _,
                refused,
                after,
            } => {
                self.push_group(groups, to)?;
                self.push_tail_groups(groups, refused)?;
                self.push_tail_groups(groups, after)
            }
        }
    }

    #[cycle(groups)]
    fn push_data_groups(&self, groups: &mut Vec<Name>, data: &DataSyntax) -> Result<(), AllocError>
        ensures { OnOk result (map name_bytes groups.new.items ≡
            map name_bytes groups.old.items ++ bytes_groups (draft self.now) (brief_bytes «data».now)) }
    {
        match data {
            DataSyntax::Byte {
                bits: _,
                often: _,
                refused,
                acked,
            } => {
                self.push_tail_groups(groups, refused)?;
                self.push_data_groups(groups, acked)
            }
            DataSyntax::Made {
                made,
                refused,
                acked,
            } => {
                self.push_made_group(groups, made)?;
                self.push_tail_groups(groups, refused)?;
                self.push_data_groups(groups, acked)
            }
            DataSyntax::Last(tail) => self.push_tail_groups(groups, tail),
        }
    }

    #[cycle(groups)]
    fn push_tail_groups(&self, groups: &mut Vec<Name>, tail: &TailSyntax) -> Result<(), AllocError>
        ensures { OnOk result (map name_bytes groups.new.items ≡
            map name_bytes groups.old.items ++ tail_groups (draft self.now) (brief_tail tail.now)) }
    {
        match tail {
            TailSyntax::Stop => Ok(()),
            TailSyntax::Frames(frame) => self.push_groups(groups, frame),
        }
    }

    fn push_made_group(&self, groups: &mut Vec<Name>, made: &MadeSyntax) -> Result<(), AllocError>
        ensures { OnOk result (map name_bytes groups.new.items ≡
            map name_bytes groups.old.items ++ made_groups (draft self.now) (made_of made.now)) }
    {
        match made {
            MadeSyntax::Header { reads: _, to } => self.push_group(groups, to),
            _ => Ok(()),
        }
    }

    // The name in the place of an address, where it is that of a group.
    fn push_group(&self, groups: &mut Vec<Name>, to: &Value<Address>) -> Result<(), AllocError>
        ensures { OnOk result (map name_bytes groups.new.items ≡
            map name_bytes groups.old.items ++ group_said (draft self.now) (said to.now)) }
    {
        let Value::Named(named) = to else {
            return Ok(());
        };
        if self.is_group(&named.name) {
            groups.push(copied(self.alloc, &named.name)?)?;
        }
        Ok(())
    }

    // ---- what a message makes by them

    /// The refusal of what a message of this name and with this range makes by these groups, at a token on this line.
    pub(crate) fn grouped_refusal(
        &self,
        name: &Name,
        range: Option<Lengths>,
        groups: &[Name],
        line: u64,
    ) -> Result<(), PlanError>
        ensures { (at : Place) → Passes result (grouped_by (draft self.now) (name_bytes name.now) range
            (map name_bytes groups.now) line at) at }
    {
        match groups {
            [] => Ok(()),
            [group, others @ ..] => self.group_refusal(name, range, group, others, line),
        }
    }

    fn group_refusal(
        &self,
        name: &Name,
        range: Option<Lengths>,
        group: &Name,
        others: &[Name],
        line: u64,
    ) -> Result<(), PlanError>
        ensures { (at : Place) → Passes result (grouped_by (draft self.now) (name_bytes name.now) range
            (name_bytes group.now ∷ map name_bytes others.now) line at) at }
    {
        if has_other(others, group) {
            return Err(PlanError::Unexpected(line));
        }
        let devices = self.devices_of(group);
        if devices.len() > MOST_MESSAGES as usize {
            return Err(PlanError::TooMany(line));
        }
        if self.messages + devices.len() as u32 * how_many(range) > MOST_MESSAGES {
            return Err(PlanError::TooMany(line));
        }
        if has_long(self.alloc, name, devices, range)? {
            return Err(PlanError::Unexpected(line));
        }
        let names = self.device_names(name, devices)?;
        let further = self.further_names(range, names.as_slice())?;
        if self.has_one_of(further.as_slice()) {
            return Err(PlanError::Twice(line));
        }
        if repeats(further.as_slice()) {
            return Err(PlanError::Twice(line));
        }
        Ok(())
    }

    // The names that a message makes for these devices.
    fn device_names(&self, name: &Name, devices: &[Name]) -> Result<Vec<Name>, AllocError>
        ensures { IfOk result (λ it. map name_bytes it.items ≡
            map (λ device. device_name (name_bytes name.now) (name_bytes device)) devices.now) }
    {
        let mut names = Vec::new(self.alloc);
        for device in devices {
            push_device_name(self.alloc, &mut names, name, device)?;
        }
        Ok(names)
    }

    // These names, and those of the messages of each.
    fn further_names(&self, range: Option<Lengths>, names: &[Name]) -> Result<Vec<Name>, AllocError>
        ensures { IfOk result (λ it. map name_bytes it.items ≡ further_names range (map name_bytes names.now)) }
    {
        let mut further = Vec::new(self.alloc);
        push_all(self.alloc, &mut further, names)?;
        match range {
            None => Ok(further),
            Some(range) => {
                self.push_members(&mut further, range, names)?;
                Ok(further)
            }
        }
    }

    fn push_members(
        &self,
        further: &mut Vec<Name>,
        range: Lengths,
        names: &[Name],
    ) -> Result<(), AllocError>
        ensures { OnOk result (map name_bytes further.new.items ≡ map name_bytes further.old.items ++
            flat_map (λ name. members name range) (map name_bytes names.now)) }
    {
        for name in names {
            self.push_members_of(further, range, name)?;
        }
        Ok(())
    }

    fn push_members_of(
        &self,
        further: &mut Vec<Name>,
        range: Lengths,
        name: &Name,
    ) -> Result<(), AllocError>
        ensures { OnOk result (map name_bytes further.new.items ≡ map name_bytes further.old.items ++
            members (name_bytes name.now) range) }
    {
        let members = self.members(name, range)?;
        push_all(self.alloc, further, members.as_slice())
    }

    /// Adds what a message makes by a group.
    pub(crate) fn add_grouped(
        &mut self,
        named: NameFound,
        range: Option<Lengths>,
        frames: &FrameSyntax,
        group: &Name,
    ) -> Result<(), AllocError>
        ensures { OnOk result (draft self.new ≡
            with_made (draft self.old) (name_bytes named.name) range (brief_frame frames.now) (name_bytes group.now ∷ [])) }
    {
        let messages = self.grouped_meant(&named.name, range, frames, group)?;
        let names = self.device_names(&named.name, self.devices_of(group))?;
        self.push_messages(messages, named.line)?;
        self.use_devices(group);
        self.add_families(range, names.as_slice())?;
        self.push_grouped(named.name, names)?;
        Ok(())
    }

    // The devices of a group are used: a message has the group.
    fn use_devices(&mut self, group: &Name)
        ensures { draft self.new ≡ draft self.old }
    {
        if let Some(devices) = listed(self.groups.as_slice(), group) {
            self.uses.devices(devices.names.as_slice());
        }
    }

    // A message of this name makes these by a group.
    fn push_grouped(&mut self, name: Name, names: Vec<Name>) -> Result<(), AllocError>
        ensures { OnOk result (draft self.new ≡ record (draft self.old) {
          grouped = (draft self.old).grouped ++ (name_bytes name, map name_bytes names.items) ∷ [];
        }) }
    {
        self.grouped.push(NameList { name, names })?;
        Ok(())
    }

    // The messages for all devices of a group.
    fn grouped_meant(
        &self,
        name: &Name,
        range: Option<Lengths>,
        frames: &FrameSyntax,
        group: &Name,
    ) -> Result<Vec<Message>, AllocError>
        ensures { IfOk result (λ it. map message_of it.items ≡
            grouped_meant (draft self.now) (name_bytes name.now) range (brief_frame frames.now) (name_bytes group.now)) }
    {
        let mut messages = Vec::new(self.alloc);
        for device in self.devices_of(group) {
            self.push_device_meant(&mut messages, name, range, frames, group, device)?;
        }
        Ok(messages)
    }

    fn push_device_meant(
        &self,
        messages: &mut Vec<Message>,
        name: &Name,
        range: Option<Lengths>,
        frames: &FrameSyntax,
        group: &Name,
        device: &Name,
    ) -> Result<(), AllocError>
        ensures { OnOk result (map message_of messages.new.items ≡ map message_of messages.old.items ++
            device_meant (draft self.now) (name_bytes name.now) range (brief_frame frames.now) (name_bytes group.now)
            (name_bytes device.now)) }
    {
        let mut further = self.device_meant(name, range, frames, group, device)?;
        messages.append(&mut further)?;
        Ok(())
    }

    // Those for one device.
    fn device_meant(
        &self,
        name: &Name,
        range: Option<Lengths>,
        frames: &FrameSyntax,
        group: &Name,
        device: &Name,
    ) -> Result<Vec<Message>, AllocError>
        ensures { IfOk result (λ it. map message_of it.items ≡ device_meant (draft self.now) (name_bytes name.now) range
            (brief_frame frames.now) (name_bytes group.now) (name_bytes device.now)) }
    {
        let name = named_for(self.alloc, name, device)?;
        let in_place = InPlace {
            group,
            address: self.device_address(device),
        };
        self.messages_meant(Some(in_place), &name, range, frames)
    }

    // The address of the device of this name.
    fn device_address(&self, device: &Name) -> Address
        ensures { result ≡ address_said (draft self.now) (named (name_bytes device.now)) }
    {
        match self.devices.get(device) {
            Some(address) => address,
            None => open_address(),
        }
    }

    // Where there is a range, each of these names is that of a family. None is by then.
    fn add_families(&mut self, range: Option<Lengths>, names: &[Name]) -> Result<(), AllocError>
        ensures { OnOk result (draft self.new ≡ record (draft self.old) {
          families = (draft self.old).families ++ families_of range (map name_bytes names.now);
        }) }
    {
        match range {
            None => Ok(()),
            Some(range) => self.families.add_all(self.alloc, names, range),
        }
    }
}

/// The list of this name.
pub(crate) fn listed<'l>(lists: &'l [NameList], name: &Name) -> Option<&'l NameList>
    ensures { option_map (λ it. map name_bytes it.now.names.items) result ≡
        lookup (bytes_eq (name_bytes name.now)) (map naming lists.now) }
{
    for list in lists {
        if *name == list.name {
            return Some(list);
        }
    }
    None
}

// An address of which no bit is known.
fn open_address() -> Address
    ensures { result ≡ any_address }
{
    Address::new(0, 0)
}

// Whether one of these is another name.
fn has_other(names: &[Name], name: &Name) -> bool
    ensures { result ≡ list_any (λ other. not (bytes_eq (name_bytes other) (name_bytes name.now))) names.now }
{
    names.iter().any(|other| *other != *name)
}

// Whether one of these names stands twice.
fn repeats(names: &[Name]) -> bool
    ensures { result ≡ repeats (map name_bytes names.now) }
{
    match names {
        [] => false,
        [first, rest @ ..] => {
            let is_again = is_among(rest, first);
            let is_later = repeats(rest);
            is_again || is_later
        }
    }
}

// Whether one of the names that a message makes for these devices is too long.
fn has_long(
    alloc: Global,
    name: &Name,
    devices: &[Name],
    range: Option<Lengths>,
) -> Result<bool, AllocError>
    ensures { IfOk result (λ it. it ≡ list_any (is_long range)
        (map (λ device. device_name (name_bytes name.now) (name_bytes device)) devices.now)) }
{
    match devices {
        [] => Ok(false),
        [device, others @ ..] => {
            let one_is = is_long(alloc, name, device, range)?;
            let others_are = has_long(alloc, name, others, range)?;
            Ok(one_is || others_are)
        }
    }
}

fn is_long(
    alloc: Global,
    name: &Name,
    device: &Name,
    range: Option<Lengths>,
) -> Result<bool, AllocError>
    ensures { IfOk result (λ it. it ≡ is_long range (device_name (name_bytes name.now) (name_bytes device.now))) }
{
    Ok(longest_text(alloc, name, device, range)?.len() > 32)
}

// How many messages a name stands for.
fn how_many(range: Option<Lengths>) -> u32
    ensures count { result ≡ how_many range }
    ensures small { result ≤ 256 }
{
    match range {
        None => 1,
        Some(range) => count(range),
    }
}

fn push_device_name(
    alloc: Global,
    names: &mut Vec<Name>,
    name: &Name,
    device: &Name,
) -> Result<(), AllocError>
    ensures { OnOk result (map name_bytes names.new.items ≡ map name_bytes names.old.items ++
        device_name (name_bytes name.now) (name_bytes device.now) ∷ []) }
{
    names.push(named_for(alloc, name, device)?)?;
    Ok(())
}

// The name that a message makes for a device. It has the form of a name by then.
fn named_for(alloc: Global, name: &Name, device: &Name) -> Result<Name, AllocError>
    ensures { IfOk result (λ it. name_bytes it ≡ device_name (name_bytes name.now) (name_bytes device.now)) }
{
    spelled(alloc, device_text(alloc, name, device)?.as_str())
}

// Its text.
fn device_text(alloc: Global, name: &Name, device: &Name) -> Result<String, AllocError>
    ensures { IfOk result (λ it. string_bytes it ≡ device_name (name_bytes name.now) (name_bytes device.now)) }
{
    let mut text = String::from_str(alloc, name.as_str())?;
    text.push('_')?;
    text.push_str(device.as_str())?;
    Ok(text)
}

// The longest text of a name that a message makes for a device.
fn longest_text(
    alloc: Global,
    name: &Name,
    device: &Name,
    range: Option<Lengths>,
) -> Result<String, AllocError>
    ensures { IfOk result (λ it. string_bytes it ≡ longest range (device_name (name_bytes name.now) (name_bytes device.now))) }
{
    let mut text = device_text(alloc, name, device)?;
    if let Some(range) = range {
        let greatest = range.greatest;
        write!(text, "_{greatest}")?;
    }
    Ok(text)
}
