//! A handoff: a giver hands a value to a worker, and has it back with the work done.
ghost use Rattle.std.specs.Prelude.{◌≡◌, IfOk, IfSome, MatchBool, [], ◌∷◌, None, Option, Some};
ghost use Rattle.handoff.specs.declared.rule.Part.{Part};
ghost use Rattle.handoff.specs.declared.rule.Part.TheVariants.{Idle, Works};
ghost use Rattle.handoff.specs.Seated.{AwaitsWork, Has, HasEnded, HasGiven, IsDismissed, IsWorking, MayGive};

use crate::rule::{
    Begins, Ends, Gives, GivesBack, Handing, Looks, Seats, SeesEnd, TakesBack, Task, View,
};
use atomic_table::{Seat, Table};
use std::alloc::{AllocError, Global};
use std::marker::Model;
use std::sync::Wait;
use std::sync::atomic::{AtomicBool, Ordering};
use std::time::Duration;

/// The word where the giver has the slot, or may take it back.
const IDLE: u32 = 0;

/// The word where the worker has the slot, or may take it.
const GIVEN: u32 = 1;

/// The word where nothing more is given.
const ENDED: u32 = 2;

/// How often the giver waits for a worker to come, about a millisecond each time.
const WAITS: u32 = 200;

/// The right of one of the two threads to its side of a handoff. It has no bytes.
pub type HandSeat<T, K> = Seat<Option<T>, View<T, K>>;

/// A word and a slot that a giver and a worker hand to and fro. It can't be dropped.
pub struct Handoff<T: Task<K>, K> {
    table: Table<Option<T>, View<T, K>, K, Handing<T>, Global>,
    /// A worker has come.
    here: AtomicBool,
    /// The giver has waited for one.
    awaited: AtomicBool,
}

impl<T: Task<K>, K> Model for Handoff<T, K> {
    ghost use Rattle.std.specs.Prelude.{◌≡◌};
    ghost use Rattle.handoff.specs.Seated.{HandoffOf};

    ghost Value = { HandoffOf K };

    ghost view = { λ h. record { id = h.table.shared.table_id; key = h.table.shared.key } };

    ghost invariant = { λ h. (h.table.shared.table_id.words ≡ 1) × (h.table.shared.table_id.slots ≡ 1) };
}

impl<T: Task<K>, K> Handoff<T, K> {
    /// A handoff under this key, with the giver's seat and the worker's.
    pub fn make(
        alloc: Global,
        key: &K,
    ) -> Result<(Handoff<T, K>, HandSeat<T, K>, HandSeat<T, K>), AllocError>
        ensures key { IfOk result (λ r. r.0.key ≡ key.now) }
        ensures giver { IfOk result (λ r. MayGive r.0 r.1) }
        ensures worker { IfOk result (λ r. AwaitsWork r.0 r.2) }
    {
        let (table, mut giver) = Table::vacant(alloc, &[IDLE as u64], 1, key)?;
        table.shared.store::<Begins>(&mut giver, 0, IDLE as u64);
        let worker = table.shared.split_seat::<Seats>(&mut giver);
        let handoff = Handoff {
            table,
            here: AtomicBool::new(false),
            awaited: AtomicBool::new(false),
        };
        Ok((handoff, giver, worker))
    }

    /// Tells the giver that a worker has come.
    pub fn come(&self) {
        self.here.store(true, Ordering::SeqCst);
        self.table.shared.wake_all(0);
    }

    /// Whether a worker has come. The first time it waits for one, for about a fifth of a second.
    pub fn has_worker<R: Wait>(&self, rt: &R) -> bool {
        if !self.awaited.load(Ordering::SeqCst) {
            self.await_worker(rt);
            self.awaited.store(true, Ordering::SeqCst);
        }
        self.here.load(Ordering::SeqCst)
    }

    /// Waits for a worker to come, for about a fifth of a second at most.
    fn await_worker<R: Wait>(&self, rt: &R) {
        for _ in 0..WAITS {
            if self.here.load(Ordering::SeqCst) {
                return;
            }
            self.table
                .shared
                .park_timeout(rt, 0, IDLE, Duration::from_millis(1));
        }
    }

    /// Hands a value to the worker. It doesn't wait.
    pub fn give(&self, giver: &mut HandSeat<T, K>, value: T)
        requires giver { MayGive self.now giver.old }
        requires can { T.can self.now.key value }
        ensures given { HasGiven self.now value giver.new }
    {
        match self.exchange(giver, Some(value)) {
            Some(_) => unreachable!(),
            None => self.put(giver),
        }
        self.table.shared.wake_all(0);
    }

    /// Waits until the worker is done, and has the value back.
    pub fn take_back<R: Wait>(&self, rt: &R, giver: &mut HandSeat<T, K>) -> T
        requires giver { (v : T) × HasGiven self.now v giver.old }
        ensures giver { MayGive self.now giver.new }
        ensures done { (v : T) → HasGiven self.now v giver.old → T.done self.now.key v result }
    {
        for _ in rt.forever() {
            if let Some(value) = self.try_take_back(giver) {
                return value;
            }
            self.table.shared.park(rt, 0, GIVEN);
        }
        unreachable!()
    }

    /// Ends the worker's work. It doesn't wait.
    pub fn end(&self, giver: &mut HandSeat<T, K>)
        requires giver { MayGive self.now giver.old }
        ensures ended { HasEnded self.now giver.new }
    {
        self.table.shared.store::<Ends>(giver, 0, ENDED as u64);
        self.table.shared.wake_all(0);
    }

    /// Waits for a value to work on. There is none once the giver has ended.
    pub fn next<R: Wait>(&self, rt: &R, worker: &mut HandSeat<T, K>) -> Option<T>
        requires worker { AwaitsWork self.now worker.old }
        ensures can { IfSome result (λ v. T.can self.now.key v) }
        ensures works { IfSome result (λ v. IsWorking self.now v worker.new) }
        ensures ended { result ≡ None → IsDismissed self.now worker.new }
    {
        for _ in rt.forever() {
            if self.sees_end(worker) {
                return None;
            }
            if let Some(value) = self.try_next(worker) {
                return Some(value);
            }
            self.table.shared.park(rt, 0, IDLE);
        }
        unreachable!()
    }

    /// Hands the value back to the giver. It doesn't wait.
    pub fn give_back(&self, worker: &mut HandSeat<T, K>, value: T)
        requires worker { (v : T) × (IsWorking self.now v worker.old × T.done self.now.key v value) }
        ensures worker { AwaitsWork self.now worker.new }
    {
        match self.exchange(worker, Some(value)) {
            Some(_) => unreachable!(),
            None => self.put_back(worker),
        }
        self.table.shared.wake_all(0);
    }

    /// Ends the handoff.
    pub fn close(self, giver: HandSeat<T, K>)
        requires giver { HasEnded self giver }
    {
        let Handoff {
            table,
            here: _,
            awaited: _,
        } = self;
        let mut closed = table.close_with(giver);
        match closed.take(0) {
            Some(_) => unreachable!(),
            None => closed.free(),
        }
    }

    /// What lies in the slot that the seat has goes out, and another comes in.
    fn exchange(&self, seat: &mut HandSeat<T, K>, new: Option<T>) -> Option<T>
        requires slot { (part : Part T) × ((old : Option T) × Has self.now part ((0, old) ∷ []) seat.old) }
        ensures slot { (part : Part T) (old : Option T) → Has self.now part ((0, old) ∷ []) seat.old → Has self.now part ((0, new) ∷ []) seat.new × (result ≡ old) }
    {
        self.table.shared.exchange(seat, 0, new)
    }

    /// Puts the giver's slot back with the value in it.
    fn put(&self, giver: &mut HandSeat<T, K>)
        requires giver { (v : T) × (T.can self.now.key v × Has self.now Idle ((0, Some v) ∷ []) giver.old) }
        ensures given { (v : T) → Has self.now Idle ((0, Some v) ∷ []) giver.old → HasGiven self.now v giver.new }
    {
        self.table.shared.store::<Gives>(giver, 0, GIVEN as u64);
    }

    /// Takes the slot, where the worker has put it back.
    fn take(&self, giver: &mut HandSeat<T, K>) -> bool
        requires giver { (v : T) × HasGiven self.now v giver.old }
        ensures taken { (v : T) → HasGiven self.now v giver.old → MatchBool result ((w : T) × (T.done self.now.key v w × Has self.now Idle ((0, Some w) ∷ []) giver.new)) (HasGiven self.now v giver.new) }
    {
        self.table.shared.load::<TakesBack<T>>(giver, 0) == IDLE as u64
    }

    /// Has the value back, where the worker is done.
    fn try_take_back(&self, giver: &mut HandSeat<T, K>) -> Option<T>
        requires giver { (v : T) × HasGiven self.now v giver.old }
        ensures idle { IfSome result (λ w. MayGive self.now giver.new) }
        ensures done { (v : T) → HasGiven self.now v giver.old → IfSome result (λ w. T.done self.now.key v w) }
        ensures waits { result ≡ None → (v : T) → HasGiven self.now v giver.old → HasGiven self.now v giver.new }
    {
        if self.take(giver) {
            self.exchange(giver, None)
        } else {
            None
        }
    }

    /// Takes the slot, where there is a value in it.
    fn look(&self, worker: &mut HandSeat<T, K>) -> bool
        requires worker { AwaitsWork self.now worker.old }
        ensures taken { MatchBool result ((v : T) × (T.can self.now.key v × Has self.now (Works v) ((0, Some v) ∷ []) worker.new)) (AwaitsWork self.now worker.new) }
    {
        self.table.shared.load::<Looks<T>>(worker, 0) == GIVEN as u64
    }

    /// Sees whether the giver has ended.
    fn sees_end(&self, worker: &mut HandSeat<T, K>) -> bool
        requires worker { AwaitsWork self.now worker.old }
        ensures ended { MatchBool result (IsDismissed self.now worker.new) (AwaitsWork self.now worker.new) }
    {
        self.table.shared.load::<SeesEnd>(worker, 0) == ENDED as u64
    }

    /// A value to work on, where one is given.
    fn try_next(&self, worker: &mut HandSeat<T, K>) -> Option<T>
        requires worker { AwaitsWork self.now worker.old }
        ensures works { IfSome result (λ v. T.can self.now.key v × IsWorking self.now v worker.new) }
        ensures waits { result ≡ None → AwaitsWork self.now worker.new }
    {
        if self.look(worker) {
            self.exchange(worker, None)
        } else {
            None
        }
    }

    /// Puts the worker's slot back with the value in it.
    fn put_back(&self, worker: &mut HandSeat<T, K>)
        requires worker { (v : T) × ((w : T) × (T.done self.now.key v w × Has self.now (Works v) ((0, Some w) ∷ []) worker.old)) }
        ensures worker { AwaitsWork self.now worker.new }
    {
        self.table.shared.store::<GivesBack>(worker, 0, IDLE as u64);
    }
}
