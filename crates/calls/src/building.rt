// A plan that is built again.

use crate::making::push_bytes;
use crate::scarcity::be_there_again;
use crate::tasks::Task;
use growing_text::Text;
use message_tree::Frame;
use plan_core::{BuildError, Builder, Name, NameError, Plan};
use run_parts::{RunError, Status};
use spellings::print_plan;
use std::alloc::Global;

/// Writes, in place of `print`, the spelling of the plan that a builder makes of all that this plan has.
pub fn spell_again(task: &Task<'_>, plan: &Plan, page: &mut Text) -> Result<Status, RunError> {
    let mut builder = Builder::new(task.alloc);
    let built = add_all(task.alloc, &mut builder, plan);
    push_plan(task.alloc, builder, page);
    match built {
        Ok(()) => Ok(Status::Good),
        Err(error) => Err(error),
    }
}

fn push_plan(alloc: Global, builder: Builder, page: &mut Text) {
    push_bytes(print_plan(alloc, &builder.finish()), page);
}

/// Adds all that a plan has, in the same order. Where an allocation fails the builder is as it was, and is asked once
/// more when there is memory.
pub fn add_all(alloc: Global, builder: &mut Builder, plan: &Plan) -> Result<(), RunError> {
    for k in 0..items_of(plan) {
        match add(alloc, builder, plan, k) {
            Ok(()) => {}
            Err(RunError::NoMemory) => {
                be_there_again(alloc);
                add(alloc, builder, plan, k)?;
            }
            Err(error) => return Err(error),
        }
    }
    Ok(())
}

fn items_of(plan: &Plan) -> u32 {
    plan.messages()
        .saturating_add(plan.controllers())
        .saturating_add(plan.interrupts())
        .saturating_add(plan.nevers())
}

// Adds the item with this number: messages come first, then controllers, interrupts, and those that never start together.
fn add(alloc: Global, builder: &mut Builder, plan: &Plan, k: u32) -> Result<(), RunError> {
    if k < plan.messages() {
        return add_message(alloc, builder, plan.message_name(k), plan.message(k));
    }
    let k = k - plan.messages();
    if k < plan.controllers() {
        let sent = names_of(alloc, plan, plan.controller_messages(k));
        return add_controller(alloc, builder, plan.controller_name(k), sent);
    }
    let k = k - plan.controllers();
    if k < plan.interrupts() {
        let address = plan.interrupt_address(k);
        return add_interrupt(alloc, builder, plan.interrupt_name(k), address);
    }
    let k = k - plan.interrupts();
    if k < plan.nevers() {
        let (first, second) = plan.never(k);
        return built(builder.never(plan.controller_name(first), plan.controller_name(second)));
    }
    Ok(())
}

fn add_message(
    alloc: Global,
    builder: &mut Builder,
    name: &Name,
    message: &Frame,
) -> Result<(), RunError> {
    let name = copied(alloc, name)?;
    let message = message.copy(alloc)?;
    built(builder.message(name, message))
}

fn add_controller(
    alloc: Global,
    builder: &mut Builder,
    name: &Name,
    sent: Result<Vec<Name>, RunError>,
) -> Result<(), RunError> {
    let sent = sent?;
    let name = copied(alloc, name)?;
    built(builder.controller(name, sent.as_slice()))
}

fn add_interrupt(
    alloc: Global,
    builder: &mut Builder,
    name: &Name,
    address: u8,
) -> Result<(), RunError> {
    let name = copied(alloc, name)?;
    built(builder.interrupt(name, address))
}

// The names of these messages.
fn names_of(alloc: Global, plan: &Plan, messages: &[u32]) -> Result<Vec<Name>, RunError> {
    let mut names = Vec::new(alloc);
    for k in messages {
        if *k < plan.messages() {
            names.push(copied(alloc, plan.message_name(*k))?)?;
        }
    }
    Ok(names)
}

fn copied(alloc: Global, name: &Name) -> Result<Name, RunError> {
    match Name::new(alloc, name.as_str()) {
        Ok(name) => Ok(name),
        Err(NameError::NoMemory) => Err(RunError::NoMemory),
        Err(NameError::BadName) => Err(RunError::Read),
    }
}

// A builder that refuses what a plan has fails as no run of the trials does that spells a plan.
fn built(step: Result<(), BuildError>) -> Result<(), RunError> {
    match step {
        Ok(()) => Ok(()),
        Err(BuildError::NoMemory) => Err(RunError::NoMemory),
        Err(_) => Err(RunError::Read),
    }
}
