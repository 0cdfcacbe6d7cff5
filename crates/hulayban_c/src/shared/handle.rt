//! A seat's handle of C: null, or the pointer of a box. It is `Handle` again, of seats: no type with parameters can cross to C, nor be a
//! field of what crosses. The proofs of the two are one, in `proofs/HandleWalks.antt`.
ghost use Rattle.std.specs.Prelude.{◌≡◌, Option, Some, None, MatchOption};
ghost use Rattle.std.specs.Coded.{coded_option};
ghost use Rattle.hulayban_c.specs.Seats.{SeatAt};
ghost use Rattle.hulayban_c.specs.contracts.shared.seat.Seat.{the_row};

use crate::shared::seat::Seat;
use crate::unboxed::Unboxed;
use std::alloc::Global;
use std::marker::Model;
use std::mem;
use std::ptr::null_mut;

/// A seat of one thread in C, or none. In C it is a struct of one pointer: a `Global` takes no bytes. `kept` is the seat, where there is one.
#[repr(C)]
pub struct SeatHandle {
    at: *mut u8,
    alloc: Global,
    pub ghost kept: { Option SeatAt } by { coded_option the_row.coded },
}

impl Model for SeatHandle {
    ghost use Rattle.hulayban_c.specs.Handles.{handle_owns};
    ghost use Rattle.hulayban_c.specs.contracts.shared.seat.Seat.{the_row};

    ghost also_owns = { λ s. handle_owns the_row s.alloc s.at s.kept };
}

impl SeatHandle {
    /// A handle without a seat, as `HRT_NO_SEAT` is.
    pub fn none(alloc: Global) -> SeatHandle
        ensures { result.kept ≡ None }
    {
        SeatHandle {
            at: null_mut(),
            alloc,
        }
    }

    /// The handle of a box that was taken apart.
    fn of_unboxed(seat: Unboxed<Seat, Global>) -> SeatHandle
        ensures { result.kept ≡ Some seat.value }
    {
        let Unboxed { at, heap } = seat;
        SeatHandle {
            at: at as *mut u8,
            alloc: heap,
        }
    }

    /// The box of a handle, taken apart, if it has one.
    fn into_unboxed(self) -> Option<Unboxed<Seat, Global>>
        ensures { MatchOption result (self.kept ≡ None) (λ u. self.kept ≡ Some u.value) }
    {
        let SeatHandle { at, alloc } = self;
        if at.is_null() {
            None
        } else {
            Some(Unboxed {
                at: at as *mut Seat,
                heap: alloc,
            })
        }
    }

    /// The seat of a handle, if it has one. It has none afterwards.
    pub fn take(&mut self, alloc: Global) -> Option<Box<Seat>>
        ensures taken { MatchOption result (self.old.kept ≡ None) (λ b. self.old.kept ≡ Some b.value) }
        ensures none { self.new.kept ≡ None }
    {
        let held = mem::replace(self, SeatHandle::none(alloc));
        match held.into_unboxed() {
            None => None,
            Some(seat) => Some(seat.rebox()),
        }
    }

    /// Puts a seat behind a handle.
    pub fn put(&mut self, seat: Box<Seat>)
        ensures { self.new.kept ≡ Some seat.value }
    {
        drop(mem::replace(self, SeatHandle::of_unboxed(Unboxed::unbox(seat))));
    }
}

impl Drop for SeatHandle {
    fn drop(self) {
        if let Some(seat) = self.into_unboxed() {
            drop(seat.rebox());
        }
    }
}

unsafe impl Send for SeatHandle {}
