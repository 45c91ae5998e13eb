// Looking at a slot.

ghost use Rattle.std.specs.Prelude.{◌≡◌};
ghost use Rattle.plan_core.specs.Rounds.{is_item};
ghost use Rattle.bus_bench.specs.Seats.{standing_behind};

use crate::errors::Sight;
use crate::seats::{Bench, Seat, Standing};
use crate::steps::Sees;
use message_tree::Item;
use plays::Tally;

impl<'a> Seat<'a> {
    ghost use Rattle.std.specs.Prelude.{◌≡◌, ◌≢◌, length};
    ghost use Rattle.bus_bench.specs.Seats.{Saw, HasPlay};

    /// Looks at the seat's slot. Ended where the seat has lost or ended; else NotPut where it has not put in this slot;
    /// else Waiting where another live seat has not: then there is a play with just the wire that this seat has seen, so
    /// a single starter never waits. Else the slot is complete: On where the seat is still live, and Lost where it is not.
    /// The bench is the seat's own, which is the caller's duty.
    pub fn see(&mut self, bench: &Bench<'a>) -> Sight
        requires { bench.now ≡ self.old.bench }
        ensures seen { Saw result self.old self.new }
        ensures play { HasPlay self.new }
        ensures bench { self.new.bench ≡ self.old.bench }
        ensures alone { length self.old.bench.starters ≡ 1 → result ≢ Sight.Waiting }
    {
        if self.standing != Standing::Playing {
            return Sight::Ended;
        }
        let Some(own) = self.own else {
            return Sight::NotPut;
        };
        let word = bench
            .wire
            .shared
            .load::<Sees>(&mut self.ticket, self.slot as usize);
        let tally = Tally::new(word);
        if tally.arrivals() < self.live {
            return Sight::Waiting;
        }
        let answer = bench.answer(self.slot);
        let shown = tally.shown(answer);
        self.live = tally.left(self.live);
        self.slot += 1;
        self.own = None;
        if !are_one(own.item(answer), shown) {
            self.standing = Standing::Lost;
            return Sight::Lost(shown);
        }
        self.place = self.place.after(shown);
        self.standing = standing_on(shown);
        Sight::On(shown)
    }
}

// Whether the two are one item.
fn are_one(own: Item, shown: Item) -> bool
    ensures { result ≡ is_item own shown }
{
    own == shown
}

// How a live seat stands after this item of the wire: a STOP and a claim end the run.
fn standing_on(item: Item) -> Standing
    ensures { result ≡ standing_behind item }
{
    match item {
        Item::Stop | Item::Claim => Standing::Ended,
        _ => Standing::Playing,
    }
}
