//! The lock by which an end of a queue is lent: a word, 1 while the end is lent, and a slot in which the end lies while it isn't.
ghost use Rattle.std.specs.Prelude.{◌≡◌, IfErr, IfOk, Option, Some, None};
ghost use Rattle.signal_queue.specs.declared.ends.End as ends;
ghost use Rattle.signal_queue.specs.Locks.{FoundLent, HasGivenBack, HoldsLock};

use crate::ends::{End, Side};
use crate::pass::QueueSeat;
use atomic_table::{Play, Refused, Seat, Table, TableRule};
use pass_names::Retries;
use std::alloc::{AllocError, Global};
use std::marker::{Model, PhantomData};
use std::sync::Wait;

/// What a seat did with its lock before. No value of it is made.
pub enum Past {
    /// Nothing.
    New,
    /// It came when somebody else had the end.
    Refused,
    /// It had the end, and has put it back.
    GaveBack,
}

/// What a seat of a lock knows. No value of it is made.
pub struct LockView {
    /// A seat of the queue that the lock's end is of.
    pub of: QueueSeat,
    /// It has the end.
    pub holds: bool,
    pub past: Past,
}

/// The rule of a lock.
pub struct LockRule<S: Side> {
    side: PhantomData<S>,
}

impl<S: Side> TableRule<Option<End>, LockView, QueueSeat> for LockRule<S> {
    ghost use Rattle.signal_queue.specs.Locks.{IsLock, first_lock_view};

    ghost holds = { IsLock S.is_end };

    ghost first = { first_lock_view };
}

/// A look whether the end is lent.
pub struct Sees;

impl Play<Option<End>, LockView> for Sees {
    ghost use Rattle.signal_queue.specs.Locks.{SeesLock};

    ghost then = { SeesLock };
}

/// A try.
pub struct Tries<S: Side> {
    side: PhantomData<S>,
}

impl<S: Side> Play<Option<End>, LockView> for Tries<S> {
    ghost use Rattle.signal_queue.specs.Locks.{TriesLock};

    ghost then = { TriesLock S.is_end };
}

/// The end is put back.
pub struct Frees;

impl Play<Option<End>, LockView> for Frees {
    ghost use Rattle.signal_queue.specs.Locks.{FreesLock};

    ghost then = { FreesLock };
}

/// A seat of a lock.
pub type LockSeat = Seat<Option<End>, LockView>;

/// The hold of a lock, with an end or for one. It can't be dropped: only `give` takes it.
pub struct Hold {
    seat: LockSeat,
}

impl Model for Hold {
    ghost use Rattle.signal_queue.specs.Locks.{SeatOfLock};

    ghost Value = { SeatOfLock };

    ghost view = { λ h. h.seat };
}

/// The lock of an end.
#[derive(Drop)]
pub struct EndLock<S: Side> {
    table: Table<Option<End>, LockView, QueueSeat, LockRule<S>, Global>,
}

impl<S: Side> Model for EndLock<S> {
    ghost use Rattle.std.specs.Prelude.{◌≡◌};
    ghost use Rattle.signal_queue.specs.Locks.{LockOf};

    ghost Value = { LockOf };

    ghost view = { λ l. record { id = l.table.shared.table_id; of = l.table.shared.key } };

    ghost invariant = { λ l. (l.table.shared.table_id.words ≡ 1) × (l.table.shared.table_id.slots ≡ 1) };
}

impl<S: Side> EndLock<S> {
    /// A lock with the end in it, of the queue that the other seat is of.
    pub fn make(alloc: Global, end: End, of: &QueueSeat) -> Result<EndLock<S>, AllocError>
        requires { S.is_end of.now end }
        ensures { IfOk result (λ l. l.of ≡ of.now) }
    {
        let slots = vec![in alloc; Some(end)]?;
        match Table::new(alloc, &[0], slots, of) {
            Ok((table, _)) => Ok(EndLock { table }),
            Err(Refused { slots: _ }) => Err(AllocError),
        }
    }

    /// Takes the end, once nobody else has it.
    pub fn take<R: Wait>(&self, rt: &R) -> (End, Hold)
        ensures end { S.is_end self.now.of result.0 }
        ensures holds { HoldsLock self.now None result.1 }
    {
        for _ in Retries::new(rt) {
            if let Ok(taken) = self.try_take() {
                return taken;
            }
        }
        unreachable!()
    }

    /// One try to take the end. Where there is none, the seat is one that came when somebody else had it.
    fn try_take(&self) -> Result<(End, Hold), LockSeat>
        ensures taken { IfOk result (λ r. S.is_end self.now.of r.0 × HoldsLock self.now None r.1) }
        ensures refused { IfErr result (λ seat. FoundLent self.now seat) }
    {
        let Hold { mut seat } = self.try_lock()?;
        match self.exchange(&mut seat, None) {
            Some(end) => Ok((end, Hold { seat })),
            None => unreachable!(),
        }
    }

    /// One try to take the lock, which then has the end in its slot.
    fn try_lock(&self) -> Result<Hold, LockSeat>
        ensures taken { IfOk result (λ hold. (end : ends.End) × (S.is_end self.now.of end × HoldsLock self.now (Some end) hold)) }
        ensures refused { IfErr result (λ seat. FoundLent self.now seat) }
    {
        let shared = &self.table.shared;
        let (word, seat) = shared.load_new_seat::<Sees>(0);
        if word != 0 {
            return Err(seat);
        }
        let (found, seat) = shared.swap_new_seat::<Tries<S>>(0, 1);
        if found == 0 {
            Ok(Hold { seat })
        } else {
            Err(seat)
        }
    }

    /// Gives the end back. It doesn't wait. The seat is the hold's, behind that.
    pub fn give(&self, hold: Hold, end: End) -> LockSeat
        requires end { S.is_end self.now.of end }
        requires holds { HoldsLock self.now None hold }
        ensures gave { HasGivenBack self.now hold result }
    {
        let Hold { mut seat } = hold;
        self.exchange(&mut seat, Some(end));
        self.free(seat)
    }

    /// What lies in the slot of a lock that the seat has goes out, and another comes in.
    fn exchange(&self, seat: &mut LockSeat, new: Option<End>) -> Option<End>
        requires holds { (old : Option ends.End) × HoldsLock self.now old seat.old }
        ensures holds { HoldsLock self.now new seat.new }
        ensures same { seat.new.id ≡ seat.old.id }
        ensures out { (old : Option ends.End) → HoldsLock self.now old seat.old → result ≡ old }
    {
        self.table.shared.exchange(seat, 0, new)
    }

    /// Ends a hold.
    fn free(&self, mut seat: LockSeat) -> LockSeat
        requires { (end : ends.End) × (S.is_end self.now.of end × HoldsLock self.now (Some end) seat) }
        ensures { HasGivenBack self.now seat result }
    {
        self.table.shared.store::<Frees>(&mut seat, 0, 0);
        seat
    }
}
