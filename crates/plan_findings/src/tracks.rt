// What each starter puts along the wire of a rehearsal.

use bench_run::{Rehearsal, filled};
use bus_rows::{Bytes, bytes_of_wire, pass};
use message_tree::Item;
use places::Place;
use plan_core::Plan;
use std::alloc::{AllocError, Global};

/// A rehearsal, looked at: the bytes of its wire, and what each starter puts.
#[derive(Drop)]
pub struct WireTracks {
    pub bytes: Bytes,
    pub tracks: Vec<Track>,
}

/// What a starter puts in each slot, up to the one in which it loses: the symbol of its item, and `.` where it listens.
#[derive(Drop)]
pub struct Track {
    /// The number of the starter.
    pub participant: u32,
    pub puts: String,
    /// The slot in which it loses.
    pub lost: Option<usize>,
}

/// What the starters of a rehearsal put along its wire.
///
/// # Errors
///
/// Where an allocation fails.
pub fn tracks_of(alloc: Global, rehearsal: &Rehearsal) -> Result<WireTracks, AllocError> {
    let wire = rehearsal.played.wire.as_slice();
    let bytes = bytes_of_wire(alloc, wire)?;
    let plan = rehearsal.accepted.plan();
    let tracks = all_tracks(alloc, plan, &rehearsal.starters, wire, rehearsal.fill)?;
    Ok(WireTracks { bytes, tracks })
}

fn all_tracks(
    alloc: Global,
    plan: &Plan,
    starters: &[u32],
    wire: &[Item],
    fill: bool,
) -> Result<Vec<Track>, AllocError> {
    let mut tracks = Vec::with_capacity(alloc, starters.len())?;
    for p in starters {
        if *p < plan.participants() {
            tracks.push(track_of(alloc, *p, Place::start(plan.sends(*p)), wire, fill)?)?;
        }
    }
    Ok(tracks)
}

fn track_of(
    alloc: Global,
    participant: u32,
    start: Place<'_>,
    wire: &[Item],
    fill: bool,
) -> Result<Track, AllocError> {
    let mut puts = String::new(alloc);
    let lost = push_puts(&mut puts, start, wire, fill)?;
    Ok(Track {
        participant,
        puts,
        lost,
    })
}

// What is put while the wire shows these items, and the slot in which that loses.
fn push_puts(
    puts: &mut String,
    start: Place<'_>,
    wire: &[Item],
    fill: bool,
) -> Result<Option<usize>, AllocError> {
    let mut place = start;
    for (slot, item) in wire.iter().enumerate() {
        let put = put_at(place, *item, fill);
        puts.push(match put {
            Some(Item::Heard(_)) | None => '.',
            Some(put) => put.symbol(),
        })?;
        if !pass(&mut place, *item) || put.unwrap_or(*item) != *item {
            return Ok(Some(slot));
        }
    }
    Ok(None)
}

// What is put where the wire shows this item: who listens hears it.
fn put_at(place: Place<'_>, item: Item, fill: bool) -> Option<Item> {
    let put = filled(place.offered(), fill)?;
    Some(put.item(item == Item::Heard(true)))
}
