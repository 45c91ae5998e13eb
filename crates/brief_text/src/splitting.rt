// From what briefs say to the plan: controllers are split by the labels of `never`.

ghost use Rattle.std.specs.Prelude.{◌≡◌, ◌++◌, ◌∷◌, ◌||◌, ◌&&◌, [], map, not, IfOk, OnOk, if◌then◌else◌};
ghost use Rattle.std.specs.List.{filter, flat_map, list_any};
ghost use Rattle.std.specs.Str.{bytes_eq};
ghost use Rattle.plan_core.specs.BuilderContents.{builder_contents};
ghost use Rattle.plan_core.specs.Building.{with_controller};
ghost use Rattle.plan_core.specs.NameBytes.{name_bytes};
ghost use Rattle.plan_core.specs.PlanContents.{plan_contents};
ghost use Rattle.brief_text.specs.Splitting.{parts, parts_of, plan_meant, label_names, is_of_device, is_of_labelled, label_messages, labels_of, is_label, is_in_part};
ghost use Rattle.brief_text.specs.Splitting.{sends_any, rest_part, label_part, part_name, label_means, side_means};
ghost use Rattle.brief_text.specs.Splitting.{pairs_apart, pairs_among, pairs_between, pairs_meant, parts_meant, are_of_one};
ghost use Rattle.brief_text.specs.Splitting.{whole, with_parts, with_pair, with_pairs};
ghost use Rattle.brief_text.specs.Drafts.{Draft};
ghost use Rattle.brief_text.specs.Standing.{draft, listing, side, sides};
ghost use Rattle.brief_text.specs.Parting.{part, apart, names_of};

use crate::boards::{Board, Listing, Never};
use crate::naming::copied;
use crate::syntax::Party;
use origins::{ControllerOrigin, FamilyOrigin, Origins, Spot};
use plan_core::{BuildError, Builder, Name, Plan};
use std::alloc::{AllocError, Global};

/// A controller of the plan: a whole one, what is left of it, or what one of its labels stands for.
#[derive(Drop)]
pub(crate) struct Part {
    party: Party,
    messages: Vec<Name>,
    spot: Spot,
}

/// Two controllers of the plan that never start together.
#[derive(Drop)]
struct Apart {
    first: Name,
    second: Name,
}

/// The controllers of the plan, and those of them that never start together.
#[derive(Drop)]
struct Split {
    parts: Vec<Part>,
    pairs: Vec<Apart>,
}

impl Board {
    /// The plan that was meant.
    #[tactic(auto, unfolding(crate::specs::Splitting::plan_meant))]
    pub(crate) fn finish(self) -> Result<Plan, AllocError>
        ensures { IfOk result (λ it. plan_contents it ≡ plan_meant (draft self)) }
    {
        let split = self.split()?;
        planned(self.alloc, self.into_builder(), &split)
    }

    // What the items of the plan are split into.
    fn split(&self) -> Result<Split, AllocError>
        ensures parts { IfOk result (λ it. map part it.parts.items ≡ parts (draft self.now)) }
        ensures pairs { IfOk result (λ it. map apart it.pairs.items ≡ pairs_apart (draft self.now)) }
    {
        let parts = self.parts()?;
        let pairs = self.pairs_apart(parts.as_slice())?;
        Ok(Split { parts, pairs })
    }

    /// Where the controllers, the messages and the interrupts of the plan come from.
    pub(crate) fn origins(&self) -> Result<Origins, AllocError> {
        let mut controllers = Vec::new(self.alloc);
        for part in self.parts()?.as_slice() {
            let party = part.party.copied(self.alloc)?;
            controllers.push(ControllerOrigin {
                controller: party.controller,
                label: party.label,
                spot: part.spot,
            })?;
        }
        Ok(Origins {
            controllers,
            messages: Vec::from_slice(self.alloc, self.spots.as_slice())?,
            interrupts: Vec::from_slice(self.alloc, self.interrupts.as_slice())?,
            families: self.all_families()?,
            devices: self.uses.all_devices()?,
            bytes: self.uses.all_bytes()?,
        })
    }

    // The families, each with its messages.
    fn all_families(&self) -> Result<Vec<FamilyOrigin>, AllocError> {
        let mut families = Vec::new(self.alloc);
        for family in self.families.names(self.alloc)?.as_slice() {
            self.push_family(&mut families, family)?;
        }
        for grouped in self.grouped.as_slice() {
            self.push_family(&mut families, &grouped.name)?;
        }
        Ok(families)
    }

    fn push_family(
        &self,
        families: &mut Vec<FamilyOrigin>,
        family: &Name,
    ) -> Result<(), AllocError> {
        let name = copied(self.alloc, family)?;
        let messages = self.named(family)?;
        families.push(FamilyOrigin { name, messages })?;
        Ok(())
    }

    /// The controllers of the plan.
    pub(crate) fn parts(&self) -> Result<Vec<Part>, AllocError>
        ensures { IfOk result (λ it. map part it.items ≡ parts (draft self.now)) }
    {
        let mut parts = Vec::new(self.alloc);
        for controller in self.controllers.as_slice() {
            self.push_parts(&mut parts, controller)?;
        }
        Ok(parts)
    }

    // The parts of a controller: one where no label of it is named.
    fn push_parts(&self, parts: &mut Vec<Part>, controller: &Listing) -> Result<(), AllocError>
        ensures { OnOk result (map part parts.new.items ≡
            map part parts.old.items ++ parts_of (draft self.now) (listing controller.now)) }
    {
        if self.is_split(&controller.name) {
            self.push_split(parts, controller)
        } else {
            push_whole(self.alloc, parts, controller)
        }
    }

    /// Whether a label of this controller is named.
    pub(crate) fn is_split(&self, controller: &Name) -> bool
        ensures { result ≡
            list_any (λ it. bytes_eq (side it).controller (name_bytes controller.now)) self.now.labels.items }
    {
        self.labels
            .iter()
            .any(|label| label.controller == *controller)
    }

    // What is left of a controller, and then the part of each of its labels. What has no message is left out.
    fn push_split(&self, parts: &mut Vec<Part>, controller: &Listing) -> Result<(), AllocError>
        ensures { OnOk result (map part parts.new.items ≡ map part parts.old.items ++
            filter sends_any (rest_part (draft self.now) (labels_of (draft self.now) (listing controller.now).0)
            (listing controller.now).1 (listing controller.now).0
            ∷ map (label_part (draft self.now) (labels_of (draft self.now) (listing controller.now).0)
            (listing controller.now).1) (labels_of (draft self.now) (listing controller.now).0))) }
    {
        self.push_rest(parts, controller)?;
        for label in self.labels.as_slice() {
            self.push_label(parts, label, controller)?;
        }
        Ok(())
    }

    // What is left of a controller, where it has a message.
    fn push_rest(&self, parts: &mut Vec<Part>, controller: &Listing) -> Result<(), AllocError>
        ensures { OnOk result (map part parts.new.items ≡ map part parts.old.items ++
            filter sends_any (rest_part (draft self.now) (labels_of (draft self.now) (listing controller.now).0)
            (listing controller.now).1 (listing controller.now).0 ∷ [])) }
    {
        let party = whole_party(self.alloc, &controller.name)?;
        let labelled = self.labelled(&controller.name)?;
        let messages = all_but(
            self.alloc,
            controller.messages.as_slice(),
            labelled.as_slice(),
        )?;
        push_sending(
            parts,
            Part {
                party,
                messages,
                spot: controller.spot,
            },
        )
    }

    // The messages that the labels of this controller stand for.
    fn labelled(&self, controller: &Name) -> Result<Vec<Name>, AllocError>
        ensures { IfOk result (λ it. map name_bytes it.items ≡
            flat_map (label_messages (draft self.now)) (labels_of (draft self.now) (name_bytes controller.now))) }
    {
        let mut labelled = Vec::new(self.alloc);
        for label in self.labels.as_slice() {
            self.push_labelled(&mut labelled, label, controller)?;
        }
        Ok(labelled)
    }

    // The messages of a label, if it is one of this controller.
    fn push_labelled(
        &self,
        labelled: &mut Vec<Name>,
        label: &Party,
        controller: &Name,
    ) -> Result<(), AllocError>
        ensures { OnOk result (map name_bytes labelled.new.items ≡ map name_bytes labelled.old.items ++
            (if bytes_eq (side label.now).controller (name_bytes controller.now)
            then label_messages (draft self.now) (side label.now) else [])) }
    {
        if label.controller != *controller {
            return Ok(());
        }
        let named = self.label_messages(label)?;
        push_all(self.alloc, labelled, named.as_slice())
    }

    // The messages that a label stands for.
    fn label_messages(&self, party: &Party) -> Result<Vec<Name>, AllocError>
        ensures { IfOk result (λ it. map name_bytes it.items ≡ label_messages (draft self.now) (side party.now)) }
    {
        match &party.label {
            None => Ok(Vec::new(self.alloc)),
            Some(label) => self.named(label),
        }
    }

    // The part of a label, if it is one of this controller and has a message.
    fn push_label(
        &self,
        parts: &mut Vec<Part>,
        label: &Party,
        controller: &Listing,
    ) -> Result<(), AllocError>
        ensures { OnOk result (map part parts.new.items ≡ map part parts.old.items ++
            (if bytes_eq (side label.now).controller (listing controller.now).0
            then filter sends_any (label_part (draft self.now) (labels_of (draft self.now) (listing controller.now).0)
            (listing controller.now).1 (side label.now) ∷ []) else [])) }
    {
        if label.controller != controller.name {
            return Ok(());
        }
        let party = label.copied(self.alloc)?;
        let messages = self.messages_of(label, controller.messages.as_slice())?;
        push_sending(
            parts,
            Part {
                party,
                messages,
                spot: controller.spot,
            },
        )
    }

    // Those of these messages that are in the part of a label.
    fn messages_of(&self, label: &Party, listed: &[Name]) -> Result<Vec<Name>, AllocError>
        ensures { IfOk result (λ it. map name_bytes it.items ≡ filter
            (is_in_part (draft self.now) (labels_of (draft self.now) (side label.now).controller) (side label.now))
            (map name_bytes listed.now)) }
    {
        let named = self.label_messages(label)?;
        let mut messages = Vec::new(self.alloc);
        for message in listed {
            let is_in_part = self.is_in_part(label, named.as_slice(), message)?;
            push_if(self.alloc, &mut messages, is_in_part, message)?;
        }
        Ok(messages)
    }

    // Whether a message is in the part of a label, which stands for these.
    fn is_in_part(&self, label: &Party, named: &[Name], message: &Name) -> Result<bool, AllocError>
        requires { map name_bytes named.now ≡ label_messages (draft self.now) (side label.now) }
        ensures { IfOk result (λ it. it ≡ is_in_part (draft self.now) (labels_of (draft self.now) (side label.now).controller)
            (side label.now) (name_bytes message.now)) }
    {
        let is_of_device = self.is_of_device(label, message)?;
        let is_left = self.is_left_to(label, message) && !is_of_device;
        Ok(is_among(named, message) && is_left)
    }

    // Whether a device for which the label stands has a label of its own, which stands for the message.
    fn is_of_device(&self, label: &Party, message: &Name) -> Result<bool, AllocError>
        ensures { IfOk result (λ it. it ≡ is_of_device (draft self.now)
            (labels_of (draft self.now) (side label.now).controller) (side label.now) (name_bytes message.now)) }
    {
        self.is_of_one(&label.controller, message, self.label_names(label))
    }

    // Whether a label of this controller is one of these names, which stands for the message.
    fn is_of_one(
        &self,
        controller: &Name,
        message: &Name,
        names: &[Name],
    ) -> Result<bool, AllocError>
        ensures { IfOk result (λ it. it ≡ list_any (is_of_labelled (draft self.now)
            (labels_of (draft self.now) (name_bytes controller.now)) (name_bytes message.now)) (map name_bytes names.now)) }
    {
        match names {
            [] => Ok(false),
            [name, others @ ..] => {
                let is_first = self.is_of_labelled(controller, message, name)?;
                let is_other = self.is_of_one(controller, message, others)?;
                Ok(is_first || is_other)
            }
        }
    }

    // Whether a label of this controller is this name, which stands for the message.
    fn is_of_labelled(
        &self,
        controller: &Name,
        message: &Name,
        name: &Name,
    ) -> Result<bool, AllocError>
        ensures { IfOk result (λ it. it ≡ is_of_labelled (draft self.now)
            (labels_of (draft self.now) (name_bytes controller.now)) (name_bytes message.now) (name_bytes name.now)) }
    {
        if !self.has_label_of(controller, name) {
            return Ok(false);
        }
        let named = self.named_alone(name)?;
        Ok(is_among(named.as_slice(), message))
    }

    // The names of devices for which a label stands.
    fn label_names(&self, party: &Party) -> &[Name]
        ensures { map name_bytes result.now ≡ label_names (draft self.now) (side party.now) }
    {
        match &party.label {
            None => &[],
            Some(label) => self.names_made(label),
        }
    }

    // Whether the label is this message, or none of its controller is.
    fn is_left_to(&self, label: &Party, message: &Name) -> bool
        ensures { result ≡ (is_label (name_bytes message.now) (side label.now) ||
            not (list_any (is_label (name_bytes message.now))
            (labels_of (draft self.now) (side label.now).controller))) }
    {
        label.is_label(message) || !self.has_label_of(&label.controller, message)
    }

    // Whether a label of this controller is this message.
    fn has_label_of(&self, controller: &Name, message: &Name) -> bool
        ensures { result ≡ list_any (λ it. bytes_eq (side it).controller (name_bytes controller.now) &&
            is_label (name_bytes message.now) (side it)) self.now.labels.items }
    {
        self.labels.iter().any(|label| label.controller == *controller && label.is_label(message))
    }

    // The names of the parts that never start together.
    #[tactic(auto, unfolding(crate::specs::Splitting::pairs_apart))]
    fn pairs_apart(&self, all: &[Part]) -> Result<Vec<Apart>, AllocError>
        requires { map part all.now ≡ parts (draft self.now) }
        ensures { IfOk result (λ it. map apart it.items ≡ pairs_apart (draft self.now)) }
    {
        let mut pairs = Vec::new(self.alloc);
        push_pairs_of_one(self.alloc, &mut pairs, all)?;
        self.push_nevers(&mut pairs, all)?;
        Ok(pairs)
    }

    // What each `never` means.
    fn push_nevers(&self, pairs: &mut Vec<Apart>, all: &[Part]) -> Result<(), AllocError>
        requires { map part all.now ≡ parts (draft self.now) }
        ensures { OnOk result (map apart pairs.new.items ≡ map apart pairs.old.items ++
            map names_of (flat_map (pairs_meant (draft self.now)) (draft self.now).nevers)) }
    {
        for never in self.nevers.as_slice() {
            self.push_never(pairs, never, all)?;
        }
        Ok(())
    }

    // Each part that the first means with each that the second means.
    fn push_never(
        &self,
        pairs: &mut Vec<Apart>,
        never: &Never,
        all: &[Part],
    ) -> Result<(), AllocError>
        requires { map part all.now ≡ parts (draft self.now) }
        ensures { OnOk result (map apart pairs.new.items ≡
            map apart pairs.old.items ++ map names_of (pairs_meant (draft self.now) (sides never.now))) }
    {
        let firsts = self.names_meant(&never.first, all)?;
        let seconds = self.names_meant(&never.second, all)?;
        push_pairs_between(self.alloc, pairs, firsts.as_slice(), seconds.as_slice())
    }

    // What a label stands for: names of devices, and messages.
    fn label_parts(&self, party: &Party) -> Result<Vec<Name>, AllocError>
        ensures { IfOk result (λ it. map name_bytes it.items ≡
            label_names (draft self.now) (side party.now) ++ label_messages (draft self.now) (side party.now)) }
    {
        let mut parts = Vec::new(self.alloc);
        push_all(self.alloc, &mut parts, self.label_names(party))?;
        let messages = self.label_messages(party)?;
        push_all(self.alloc, &mut parts, messages.as_slice())?;
        Ok(parts)
    }

    // The names of the parts that a party means.
    fn names_meant(&self, party: &Party, all: &[Part]) -> Result<Vec<Name>, AllocError>
        requires { map part all.now ≡ parts (draft self.now) }
        ensures { IfOk result (λ it. map name_bytes it.items ≡
            map part_name (parts_meant (draft self.now) (side party.now))) }
    {
        let named = self.label_parts(party)?;
        let mut names = Vec::new(self.alloc);
        for part in all {
            let name = part.party.name(self.alloc)?;
            let is_meant = means(party, named.as_slice(), part);
            push_if(self.alloc, &mut names, is_meant, &name)?;
        }
        Ok(names)
    }
}

// Whether a party whose label stands for these names means the part.
fn means(party: &Party, names: &[Name], it: &Part) -> bool
    ensures { (draft : Draft) → map name_bytes names.now ≡ label_names draft (side party.now) ++ label_messages draft (side party.now) →
        result ≡ side_means draft (side party.now) (part it.now) }
{
    party.controller == it.party.controller && label_means(party, names, it)
}

fn label_means(party: &Party, names: &[Name], it: &Part) -> bool
    ensures { (draft : Draft) → map name_bytes names.now ≡ label_names draft (side party.now) ++ label_messages draft (side party.now) →
        result ≡ label_means draft (side party.now).label (part it.now).side.label }
{
    match (&party.label, &it.party.label) {
        (None, _) => true,
        (Some(_), None) => false,
        (Some(label), Some(other)) => *label == *other || is_among(names, other),
    }
}

// The parts of one controller, each with each that comes after it.
fn push_pairs_of_one(alloc: Global, pairs: &mut Vec<Apart>, all: &[Part]) -> Result<(), AllocError>
    ensures { OnOk result (map apart pairs.new.items ≡ map apart pairs.old.items ++
        map names_of (filter are_of_one (pairs_among (map part all.now)))) }
{
    let mut left = all;
    while let [first, rest @ ..] = left {
        push_beside(alloc, pairs, first, rest)?;
        left = rest;
    }
    Ok(())
}

// A part with each of these that is of the same controller.
fn push_beside(
    alloc: Global,
    pairs: &mut Vec<Apart>,
    first: &Part,
    others: &[Part],
) -> Result<(), AllocError>
    ensures { OnOk result (map apart pairs.new.items ≡ map apart pairs.old.items ++
        map names_of (filter are_of_one (map (λ other. (part first.now, other)) (map part others.now)))) }
{
    for second in others {
        push_if_of_one(alloc, pairs, first, second)?;
    }
    Ok(())
}

fn push_if_of_one(
    alloc: Global,
    pairs: &mut Vec<Apart>,
    first: &Part,
    second: &Part,
) -> Result<(), AllocError>
    ensures { OnOk result (map apart pairs.new.items ≡ map apart pairs.old.items ++
        (if are_of_one (part first.now, part second.now) then names_of (part first.now, part second.now) ∷ [] else [])) }
{
    if first.party.controller != second.party.controller {
        return Ok(());
    }
    pairs.push(Apart {
        first: first.party.name(alloc)?,
        second: second.party.name(alloc)?,
    })?;
    Ok(())
}

// Each of the first with each of the second.
fn push_pairs_between(
    alloc: Global,
    pairs: &mut Vec<Apart>,
    firsts: &[Name],
    seconds: &[Name],
) -> Result<(), AllocError>
    ensures { OnOk result (map apart pairs.new.items ≡ map apart pairs.old.items ++
        pairs_between (map name_bytes firsts.now) (map name_bytes seconds.now)) }
{
    for first in firsts {
        push_pairs_with(alloc, pairs, first, seconds)?;
    }
    Ok(())
}

// One with each of the second.
fn push_pairs_with(
    alloc: Global,
    pairs: &mut Vec<Apart>,
    first: &Name,
    seconds: &[Name],
) -> Result<(), AllocError>
    ensures { OnOk result (map apart pairs.new.items ≡ map apart pairs.old.items ++
        map (λ second. (name_bytes first.now, second)) (map name_bytes seconds.now)) }
{
    for second in seconds {
        pairs.push(Apart {
            first: copied(alloc, first)?,
            second: copied(alloc, second)?,
        })?;
    }
    Ok(())
}

// A controller as it stands.
fn push_whole(alloc: Global, parts: &mut Vec<Part>, controller: &Listing) -> Result<(), AllocError>
    ensures { OnOk result (map part parts.new.items ≡ map part parts.old.items ++
        record { side = whole (listing controller.now).0; messages = (listing controller.now).1 } ∷ []) }
{
    let party = whole_party(alloc, &controller.name)?;
    let messages = all_copied(alloc, controller.messages.as_slice())?;
    parts.push(Part {
        party,
        messages,
        spot: controller.spot,
    })?;
    Ok(())
}

fn whole_party(alloc: Global, controller: &Name) -> Result<Party, AllocError>
    ensures { IfOk result (λ it. side it ≡ whole (name_bytes controller.now)) }
{
    Ok(Party {
        controller: copied(alloc, controller)?,
        label: None,
        line: 0,
    })
}

// A part that has a message.
fn push_sending(parts: &mut Vec<Part>, one: Part) -> Result<(), AllocError>
    ensures { OnOk result (map part parts.new.items ≡
        map part parts.old.items ++ filter sends_any (part one ∷ [])) }
{
    if one.messages.is_empty() {
        return Ok(());
    }
    parts.push(one)?;
    Ok(())
}

// The plan of these messages and interrupts, with controllers.
fn planned(alloc: Global, mut builder: Builder, split: &Split) -> Result<Plan, AllocError>
    ensures { IfOk result (λ it. plan_contents it ≡ with_pairs
        (with_parts (builder_contents builder) (map part split.now.parts.items)) (map apart split.now.pairs.items)) }
{
    add_parts(alloc, &mut builder, split.parts.as_slice())?;
    add_pairs(&mut builder, split.pairs.as_slice())?;
    Ok(builder.finish())
}

// The controllers of the plan. None is refused: all that a plan asks has been judged where it stands.
fn add_parts(alloc: Global, builder: &mut Builder, parts: &[Part]) -> Result<(), AllocError>
    ensures { OnOk result (builder_contents builder.new ≡
        with_parts (builder_contents builder.old) (map part parts.now)) }
{
    for part in parts {
        add_part(alloc, builder, part)?;
    }
    Ok(())
}

fn add_part(alloc: Global, builder: &mut Builder, it: &Part) -> Result<(), AllocError>
    ensures { OnOk result (builder_contents builder.new ≡
        with_controller (builder_contents builder.old) (part_name (part it.now)) (part it.now).messages) }
{
    let name = it.party.name(alloc)?;
    match builder.controller(name, it.messages.as_slice()) {
        Ok(()) => Ok(()),
        Err(_) => Err(AllocError),
    }
}

fn add_pairs(builder: &mut Builder, pairs: &[Apart]) -> Result<(), AllocError>
    ensures { OnOk result (builder_contents builder.new ≡
        with_pairs (builder_contents builder.old) (map apart pairs.now)) }
{
    for pair in pairs {
        add_pair(builder, pair)?;
    }
    Ok(())
}

// A pair that the plan has already is not added again.
fn add_pair(builder: &mut Builder, pair: &Apart) -> Result<(), AllocError>
    ensures { OnOk result (builder_contents builder.new ≡ with_pair (builder_contents builder.old) (apart pair.now)) }
{
    match builder.never(&pair.first, &pair.second) {
        Err(BuildError::NoMemory) => Err(AllocError),
        _ => Ok(()),
    }
}

// Those of these names that are none of the others.
fn all_but(alloc: Global, names: &[Name], others: &[Name]) -> Result<Vec<Name>, AllocError>
    ensures { IfOk result (λ it. map name_bytes it.items ≡ filter
        (λ name. not (list_any (λ other. bytes_eq other name) (map name_bytes others.now))) (map name_bytes names.now)) }
{
    let mut left = Vec::new(alloc);
    for name in names {
        push_if(alloc, &mut left, !is_among(others, name), name)?;
    }
    Ok(left)
}

fn all_copied(alloc: Global, names: &[Name]) -> Result<Vec<Name>, AllocError>
    ensures { IfOk result (λ it. map name_bytes it.items ≡ map name_bytes names.now) }
{
    let mut copies = Vec::new(alloc);
    push_all(alloc, &mut copies, names)?;
    Ok(copies)
}

/// Whether one of these is this name.
pub(crate) fn is_among(names: &[Name], name: &Name) -> bool
    ensures { result ≡ list_any (λ other. bytes_eq other (name_bytes name.now)) (map name_bytes names.now) }
{
    names.contains(name)
}

// The name after those that stand, where it is wanted.
fn push_if(
    alloc: Global,
    to: &mut Vec<Name>,
    is_wanted: bool,
    name: &Name,
) -> Result<(), AllocError>
    ensures { OnOk result (map name_bytes to.new.items ≡
        map name_bytes to.old.items ++ (if is_wanted then name_bytes name.now ∷ [] else [])) }
{
    if is_wanted {
        to.push(copied(alloc, name)?)?;
    }
    Ok(())
}

/// The same names after those that stand.
pub(crate) fn push_all(alloc: Global, to: &mut Vec<Name>, names: &[Name]) -> Result<(), AllocError>
    ensures { OnOk result (map name_bytes to.new.items ≡ map name_bytes to.old.items ++ map name_bytes names.now) }
{
    for name in names {
        to.push(copied(alloc, name)?)?;
    }
    Ok(())
}
