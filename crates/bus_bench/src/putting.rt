// What a seat may put, and putting it.

ghost use Rattle.std.specs.Prelude.{◌≡◌};
ghost use Rattle.plays.specs.Games.{answer_at};

use crate::errors::PutError;
use crate::seats::{Bench, Seat, Standing};
use crate::steps::Puts;
use places::Offered;
use plays::Put;

impl<'a> Bench<'a> {
    // The bit of the targets in this slot.
    pub(crate) fn answer(&self, slot: u32) -> bool
        ensures { result ≡ answer_at self.now.answers slot }
    {
        answer_in(&self.terms.answers, slot)
    }
}

// The bit of the targets in this slot, of these answers.
pub(crate) fn answer_in(answers: &[bool], slot: u32) -> bool
    ensures { result ≡ answer_at answers.now slot }
{
    answers.get(slot as usize).copied().unwrap_or(true)
}

impl<'a> Seat<'a> {
    ghost use Rattle.std.specs.Prelude.{◌↔◌, IfOk, IfErr};
    ghost use Rattle.message_tree.specs.declared.items.Item.{Item};
    ghost use Rattle.places.specs.Offers.{MayPut};
    ghost use Rattle.bus_bench.specs.Seats.{MayOffer, CanPut, IsPutRefusal, after_put, HasPlay};

    /// What the seat may put in its slot: exactly what the participant may send after what the seat has seen, and
    /// nothing once it has lost or ended.
    pub fn offered(&self) -> Offered
        ensures { (x : Item) → MayPut result x ↔ MayOffer self.now x }
    {
        match self.standing {
            Standing::Playing => self.place.offered(),
            Standing::Lost | Standing::Ended => Offered::Nothing,
        }
    }

    /// Puts in the seat's slot. Over where the seat has lost or ended; else Early where it has put in this slot and has
    /// not seen it complete; else NotOffered where this is not offered. A refused put changes nothing. The bench is the
    /// seat's own, which is the caller's duty.
    pub fn put(&mut self, bench: &Bench<'a>, put: Put) -> Result<(), PutError>
        requires { bench.now ≡ self.old.bench }
        ensures done { IfOk result (λ _. CanPut self.old put × (self.new ≡ after_put put self.old)) }
        ensures refused { IfErr result (λ e. IsPutRefusal e self.old put × (self.new ≡ self.old)) }
        ensures play { HasPlay self.new }
        ensures bench { self.new.bench ≡ self.old.bench }
    {
        if self.standing != Standing::Playing {
            return Err(PutError::Over);
        }
        if self.own.is_some() {
            return Err(PutError::Early);
        }
        if !self
            .place
            .offered()
            .allows(put.item(bench.answer(self.slot)))
        {
            return Err(PutError::NotOffered);
        }
        bench
            .wire
            .shared
            .fetch_add::<Puts>(&mut self.ticket, self.slot as usize, put.contribution());
        self.own = Some(put);
        Ok(())
    }
}
