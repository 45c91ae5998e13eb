// The different paths that a capture has shown.

ghost use Rattle.std.specs.Prelude.{◌≡◌, ◌≢◌, [], ◌∷◌, true, false, None, map, OnOk, IfOk, IfSome};
ghost use Rattle.capture_check.specs.Transactions.{Recorded};
ghost use Rattle.capture_check.specs.Views.{recorded};
ghost use Rattle.lessons.specs.Lessons.{odd_in, path_seen, paths_in};
ghost use Rattle.lessons.specs.Seen.{HasEveryTime, IsAmong, IsStopped, Sees};

use crate::before::{BriefBefore, Explained, Room, room_alone};
use crate::fitting::has_marks;
use crate::paths::{NoPath, Step, key_of, path_of};
use capture_check::{Drove, Mark, Transaction, Until};
use decoding::TransactionSink;
use drives::is_collision;
use dump_tokens::{Drives, Scale, View, Window};
use run_parts::RunError;
use std::alloc::{AllocError, Global};
use std::collections::BTreeMap;

/// A path, how often it was seen, and when first.
#[derive(Drop)]
pub(crate) struct Sight {
    pub(crate) path: Vec<Step>,
    pub(crate) times: u64,
    pub(crate) first: u64,
    /// Which controllers it is of, where lines of theirs were followed.
    pub(crate) by: u32,
}

/// A message of the brief before that no controller of it lists, or none of these by whom it was seen.
#[derive(Clone, Copy)]
pub(crate) struct Unlisted {
    pub(crate) message: u32,
    pub(crate) by: u32,
}

/// A transaction that is no path, and when it began.
#[derive(Clone, Copy)]
pub(crate) struct Odd {
    pub(crate) why: NoPath,
    pub(crate) times: u64,
    pub(crate) first: u64,
}

/// All that was seen, each path once, in the order in which they first came.
#[derive(Drop)]
pub struct Sights<'a> {
    alloc: Global,
    pub(crate) view: View,
    scale: Option<Scale>,
    /// The brief that what is learned is given after, where there is one.
    pub(crate) before: Option<&'a BriefBefore<'a>>,
    /// How many transactions messages of that brief explain.
    pub(crate) explained: u64,
    /// The messages among these that no controller of the brief lists, or not those by whom they were seen.
    pub(crate) unlisted: Vec<Unlisted>,
    /// The controllers whose lines are followed.
    pub(crate) drives: Drives<'a>,
    // by the bytes of a path: its number, or the message of the brief before that explains it
    numbers: BTreeMap<Vec<u8>, usize>,
    in_brief: BTreeMap<Vec<u8>, InBrief>,
    pub(crate) sights: Vec<Sight>,
    pub(crate) odd: Vec<Odd>,
    /// How many transactions a STOP ended.
    pub(crate) stopped: u64,
}

impl<'a> Sights<'a> {
    /// Nothing was seen of a dump whose numbers count this. What is learned of it is given after this brief.
    pub fn new(
        alloc: Global,
        view: View,
        scale: Option<Scale>,
        before: Option<&'a BriefBefore<'a>>,
    ) -> Sights<'a> {
        Sights {
            alloc,
            view,
            scale,
            before,
            explained: 0,
            unlisted: Vec::new(alloc),
            drives: Drives::NONE,
            numbers: BTreeMap::new(alloc),
            in_brief: BTreeMap::new(alloc),
            sights: Vec::new(alloc),
            odd: Vec::new(alloc),
            stopped: 0,
        }
    }

    /// The same where lines of controllers are followed, which share the messages out.
    pub fn with_drives(self, drives: Drives<'a>) -> Sights<'a> {
        Sights { drives, ..self }
    }

    /// How many messages there is room for.
    pub(crate) fn room(&self) -> Room {
        match self.before {
            Some(before) => before.room(self.listed()),
            None => room_alone(),
        }
    }

    // How many messages of the brief before the further controllers list, each of its own.
    fn listed(&self) -> u32 {
        let mut count = 0u32;
        for unlisted in self.unlisted.iter() {
            count = count.saturating_add(listing(unlisted.by));
        }
        count
    }

    /// What the numbers of the dump count, where times are told in parts of a second.
    pub(crate) fn told_scale(&self) -> Option<Scale> {
        if self.view.si { self.scale } else { None }
    }

    // One that no STOP ended does not count, nor one that is not told by its time.
    fn see(
        &mut self,
        transaction: &Transaction,
        by: u32,
        is_collision: bool,
    ) -> Result<(), AllocError>
        ensures { OnOk result (Sees self.old (recorded transaction.now ∷ []) self.new) }
    {
        if !is_stopped(transaction.until) || !self.tells(transaction.from) {
            return Ok(());
        }
        self.stopped = self.stopped.saturating_add(1);
        if is_collision {
            return self.see_odd(NoPath::Collision, transaction.from);
        }
        match path_of(self.alloc, transaction.marks.as_slice())? {
            Ok(path) => self.see_path(path, transaction, by),
            Err(why) => self.see_odd(why, transaction.from),
        }
    }

    // Whether a transaction that begins then is told.
    fn tells(&self, from: u64) -> bool
        ensures { HasEveryTime self.now → result ≡ true }
    {
        match self.view.window {
            Window {
                from: None,
                to: None,
            } => true,
            window => window.has(self.scale, from),
        }
    }

    fn see_odd(&mut self, why: NoPath, from: u64) -> Result<(), AllocError>
        ensures { OnOk result ((t : Recorded) → Sees self.old (t ∷ []) self.new) }
    {
        add_odd(&mut self.odd, why, 1, from)
    }

    fn see_path(
        &mut self,
        path: Vec<Step>,
        transaction: &Transaction,
        by: u32,
    ) -> Result<(), AllocError>
        requires { IsStopped transaction.now.until }
        ensures { OnOk result (Sees self.old (recorded transaction.now ∷ []) self.new) }
    {
        let key = key_of(self.alloc, path.as_slice())?;
        match self.numbers.get(key.as_slice()).copied() {
            Some(number) => self.see_again(number, transaction, by),
            None => {
                if self.is_in_brief(key.as_slice(), transaction, by)? {
                    return Ok(());
                }
                self.see_new(key, path, transaction, by)
            }
        }
    }

    // A path that is seen for the first time.
    fn see_new(
        &mut self,
        key: Vec<u8>,
        path: Vec<Step>,
        transaction: &Transaction,
        by: u32,
    ) -> Result<(), AllocError>
        requires { IsStopped transaction.now.until }
        ensures { OnOk result (Sees self.old (recorded transaction.now ∷ []) self.new) }
    {
        if !has_marks(path.as_slice(), transaction.marks.as_slice()) {
            return self.see_odd(NoPath::Lost, transaction.from);
        }
        let number = self.sights.len();
        if self.numbers.insert(key, number).is_err() {
            return Err(AllocError);
        }
        self.sights.push(Sight {
            path,
            times: 1,
            first: transaction.from,
            by,
        })?;
        Ok(())
    }

    // The path with this number once more. One that the transaction does not have would count as none.
    fn see_again(
        &mut self,
        number: usize,
        transaction: &Transaction,
        by: u32,
    ) -> Result<(), AllocError>
        ensures { OnOk result (Sees self.old (recorded transaction.now ∷ []) self.new) }
    {
        if !has_path(self.sights.as_slice(), number, transaction.marks.as_slice()) {
            return self.see_odd(NoPath::Lost, transaction.from);
        }
        count_again(&mut self.sights, number, by);
        Ok(())
    }

    // Whether a message of the brief before explains the transaction, with these bytes of its path: then it is counted there.
    fn is_in_brief(
        &mut self,
        key: &[u8],
        transaction: &Transaction,
        by: u32,
    ) -> Result<bool, AllocError>
        ensures alone { IfOk result (λ is. self.old.before ≡ None → is ≡ false) }
        ensures sights { OnOk result (paths_in self.new ≡ paths_in self.old) }
        ensures odd { OnOk result (odd_in self.new ≡ odd_in self.old) }
        ensures before { OnOk result (self.new.before ≡ self.old.before) }
        ensures view { OnOk result (self.new.view ≡ self.old.view) }
    {
        let Some(before) = self.before else {
            return Ok(false);
        };
        let place = match self.in_brief.get(key).copied() {
            Some(place) => place,
            None => match self.find_in_brief(before, key, transaction)? {
                Some(place) => place,
                None => return Ok(false),
            },
        };
        self.see_in_brief(place, by)?;
        Ok(true)
    }

    // What of the brief explains this transaction. It is kept.
    fn find_in_brief(
        &mut self,
        before: &BriefBefore<'_>,
        key: &[u8],
        transaction: &Transaction,
    ) -> Result<Option<InBrief>, AllocError>
        ensures sights { OnOk result (self.new.sights ≡ self.old.sights) }
        ensures odd { OnOk result (self.new.odd ≡ self.old.odd) }
        ensures before { OnOk result (self.new.before ≡ self.old.before) }
        ensures view { OnOk result (self.new.view ≡ self.old.view) }
    {
        let place = match before.explained(self.alloc, transaction)? {
            Explained::Nowhere => return Ok(None),
            Explained::Listed(message) => InBrief::Listed(message),
            Explained::Unlisted(message) => InBrief::Unlisted(message),
        };
        let key = key.to_vec(self.alloc)?;
        if self.in_brief.insert(key, place).is_err() {
            return Err(AllocError);
        }
        Ok(Some(place))
    }

    // Counts one that the brief explains.
    fn see_in_brief(&mut self, place: InBrief, by: u32) -> Result<(), AllocError>
        ensures sights { OnOk result (self.new.sights ≡ self.old.sights) }
        ensures odd { OnOk result (self.new.odd ≡ self.old.odd) }
        ensures before { OnOk result (self.new.before ≡ self.old.before) }
        ensures view { OnOk result (self.new.view ≡ self.old.view) }
    {
        match place {
            InBrief::Unlisted(message) => see_unlisted(&mut self.unlisted, message, by)?,
            InBrief::Listed(message) => {
                let others = self.not_listing(message, by);
                if others != 0 {
                    see_unlisted(&mut self.unlisted, message, others)?;
                }
            }
        }
        self.explained = self.explained.saturating_add(1);
        Ok(())
    }

    // Those of these controllers that do not list a message in the brief.
    fn not_listing(&self, message: u32, by: u32) -> u32 {
        let Some(before) = self.before else {
            return 0;
        };
        let mut others = 0u32;
        for (number, drive) in self.drives.all.iter().enumerate() {
            let bit = bit_of(number);
            if by & bit != 0 && !before.lists(drive.controller, message) {
                others |= bit;
            }
        }
        others
    }
}

fn see_unlisted(unlisted: &mut Vec<Unlisted>, message: u32, by: u32) -> Result<(), AllocError> {
    for other in unlisted.iter_mut() {
        if other.message == message {
            other.by |= by;
            return Ok(());
        }
    }
    unlisted.push(Unlisted { message, by })?;
    Ok(())
}

// Whether the path with this number is that of a transaction with these marks.
fn has_path(sights: &[Sight], number: usize, marks: &[Mark]) -> bool
    ensures { result ≡ true → IsAmong (map path_seen sights.now) marks.now }
{
    match sights.get(number) {
        Some(sight) => has_marks(sight.path.as_slice(), marks),
        None => false,
    }
}

// It was seen once more, of these controllers.
fn count_again(sights: &mut Vec<Sight>, number: usize, by: u32)
    ensures { map path_seen sights.new.items ≡ map path_seen sights.old.items }
{
    if let Some(sight) = sights.get_mut(number) {
        sight.times = sight.times.saturating_add(1);
        sight.by |= by;
    }
}

fn is_stopped(until: Until) -> bool
    ensures all { IsStopped until → result ≡ true }
    ensures only { result ≡ true → IsStopped until }
{
    matches!(until, Until::Stopped(_))
}

/// Counts transactions that are in no message for this reason.
pub(crate) fn add_odd(
    odds: &mut Vec<Odd>,
    why: NoPath,
    times: u64,
    from: u64,
) -> Result<(), AllocError>
    ensures { OnOk result (odds.new.items ≢ []) }
{
    let Some(place) = place_of(odds.as_slice(), why) else {
        return add_new(odds, why, times, from);
    };
    if let Some(odd) = odds.get_mut(place) {
        odd.times = odd.times.saturating_add(times);
    }
    Ok(())
}

// Where this reason stands.
fn place_of(odds: &[Odd], why: NoPath) -> Option<usize>
    ensures { IfSome result (λ place. odds.now ≢ []) }
{
    odds.iter().position(|odd| odd.why == why)
}

fn add_new(odds: &mut Vec<Odd>, why: NoPath, times: u64, from: u64) -> Result<(), AllocError>
    ensures { OnOk result (odds.new.items ≢ []) }
{
    odds.push(Odd {
        why,
        times,
        first: from,
    })?;
    Ok(())
}

// The message of the brief before that explains a path: one that a controller lists, or another.
#[derive(Clone, Copy)]
enum InBrief {
    Listed(u32),
    Unlisted(u32),
}

/// The bit of the controller with this number, in the order in which they were given.
pub(crate) fn bit_of(number: usize) -> u32 {
    match u32::try_from(number) {
        Ok(number) if number < 32 => 1u32.wrapping_shl(number),
        _ => 0,
    }
}

/// How many controllers list a message that is of these, or of none that is followed.
pub(crate) fn listing(by: u32) -> u32 {
    by.count_ones().max(1)
}

// Which controllers a transaction is of: those who made its STOP.
fn by(drove: &Option<Drove>) -> u32 {
    match drove {
        Some(drove) => drove.last(),
        None => 0,
    }
}

// Whether those who made its STOP have sent different bits, so that nobody has sent what the bus shows.
fn has_collided(transaction: &Transaction) -> bool {
    match &transaction.drove {
        Some(drove) => is_collision(drove, transaction.marks.as_slice()),
        None => false,
    }
}

impl TransactionSink for Sights<'_> {
    ghost use Rattle.lessons.specs.Seen.{seeing_sink};

    ghost sink = { seeing_sink };

    fn take(&mut self, transactions: &[Transaction]) -> Result<(), RunError> {
        for transaction in transactions {
            self.see(
                transaction,
                by(&transaction.drove),
                has_collided(transaction),
            )?;
        }
        Ok(())
    }
}
