// A bench with its host and its seats, all of one opening.
ghost use Rattle.std.specs.Prelude.{◌≡◌, All};

use bus_bench::{
    Bench, FinishFault, Host, Offered, OpenError, Played, Put, PutError, Seat, Sight, Unfinished,
    finish, open_bench,
};
use cert_check::Accepted;
use std::alloc::{AllocError, Global};

/// A bench with its host and its seats. Seats change places, and each keeps its number among the starters.
#[derive(Drop)]
pub struct Sitting<'a> {
    bench: Bench<'a>,
    host: Host,
    seats: Vec<Seat<'a>>,
    numbers: Vec<usize>,
    ghost hosted: { host ≡ bench },
    ghost seated: { All (λ seat. seat.bench ≡ bench) seats.items },
}

impl<'a> Sitting<'a> {
    /// A bench for these starters, on which nothing has been put.
    pub fn open(
        alloc: Global,
        accepted: &'a Accepted,
        starters: &[u32],
        answers: &[bool],
    ) -> Result<Sitting<'a>, OpenError> {
        let Ok(numbers) = numbers_below(alloc, starters.len()) else {
            return Err(OpenError::NoMemory);
        };
        match open_bench(alloc, accepted, starters, answers) {
            Ok((bench, host, seats)) => Ok(Sitting {
                bench,
                host,
                seats,
                numbers,
            }),
            Err(refusal) => Err(refusal),
        }
    }

    pub fn len(&self) -> usize {
        self.seats.len()
    }

    /// What the seat of the starter with this number may put, and nothing where there is none.
    pub fn offered(&self, number: usize) -> Offered {
        match self.place_of(number) {
            Some(place) if place < self.seats.len() => self.seats[place].offered(),
            _ => Offered::Nothing,
        }
    }

    /// Its seat puts. A seat that is not there is over.
    pub fn put(&mut self, number: usize, put: Put) -> Result<(), PutError> {
        match self.place_of(number) {
            Some(place) if place < self.seats.len() => self.seats[place].put(&self.bench, put),
            _ => Err(PutError::Over),
        }
    }

    /// Its seat looks. A seat that is not there has ended.
    pub fn see(&mut self, number: usize) -> Sight {
        match self.place_of(number) {
            Some(place) if place < self.seats.len() => self.seats[place].see(&self.bench),
            _ => Sight::Ended,
        }
    }

    /// Its seat comes to this place, and the one that was there to where it was.
    pub fn bring(&mut self, number: usize, to: usize) {
        let Some(place) = self.place_of(number) else {
            return;
        };
        if place < self.seats.len() && to < self.seats.len() {
            self.seats.swap(place, to);
        }
        if place < self.numbers.len() && to < self.numbers.len() {
            self.numbers.swap(place, to);
        }
    }

    fn place_of(&self, number: usize) -> Option<usize> {
        for place in 0..self.numbers.len() {
            if self.numbers[place] == number {
                return Some(place);
            }
        }
        None
    }

    /// Gives the first so many seats back, in their order, and keeps the others. Says what was played, or why nothing was,
    /// and then all is handed back; but nothing where there was no memory to part the seats.
    pub fn end(
        self,
        alloc: Global,
        count: usize,
    ) -> (Result<Played, FinishFault>, Option<Sitting<'a>>) {
        let Sitting {
            bench,
            host,
            mut seats,
            numbers,
        } = self;
        let Ok(mut away) = seats.split_off(count.min(seats.len())) else {
            return (Err(FinishFault::NoMemory), None);
        };
        match finish(alloc, bench, host, seats) {
            Ok(played) => (Ok(played), None),
            Err(
                Unfinished {
                    bench,
                    host,
                    mut seats,
                    why,
                },
            ) => {
                if seats.append(&mut away).is_err() {
                    return (Err(FinishFault::NoMemory), None);
                }
                let sitting = Sitting {
                    bench,
                    host,
                    seats,
                    numbers,
                };
                (Err(why), Some(sitting))
            }
        }
    }
}

// 0 up to this number.
fn numbers_below(alloc: Global, end: usize) -> Result<Vec<usize>, AllocError> {
    let mut numbers = Vec::new(alloc);
    for number in 0..end {
        numbers.push(number)?;
    }
    Ok(numbers)
}
