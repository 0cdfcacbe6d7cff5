//! A box taken apart: a handle of C keeps no box, but its two fields.
ghost use Rattle.std.specs.Prelude.{◌≡◌};
ghost use Rattle.std.specs.Box.Ownership.{box_owns};

use std::alloc::Allocator;
use std::marker::Model;

/// Where the value of a box lies, and the heap that it lies on. It owns what the box owned.
pub struct Unboxed<T, A: Allocator> {
    pub at: *mut T,
    pub heap: A,
    pub ghost value: { T },
}

impl<T, A: Allocator> Model for Unboxed<T, A> {
    ghost also_owns = { λ u. box_owns (A.dealloc_token u.heap) T.row u.at u.value };
}

impl<T, A: Allocator> Unboxed<T, A> {
    /// Takes a box apart.
    pub fn unbox(whole: Box<T, A>) -> Unboxed<T, A>
    where
        T: Drop,
        ensures { result.value ≡ whole.value }
    {
        let (at, heap) = Box::into_raw_with_allocator(whole);
        Unboxed { at, heap }
    }

    /// Puts a box together again.
    pub fn rebox(self) -> Box<T, A>
        ensures { result.value ≡ self.value }
    {
        let Unboxed { at, heap } = self;
        unsafe { Box::from_raw(heap, at) }
    }
}
