//! A handle of C: null, or the pointer of a box.
ghost use Rattle.std.specs.Prelude.{◌≡◌, Option, Some, None, MatchOption};
ghost use Rattle.std.specs.Coded.{coded_option};
ghost use Rattle.timer_core.specs.Kept.{Kept};
ghost use Rattle.hulayban_c.specs.contracts.home.Home.{the_row};

use crate::home::Home;
use crate::unboxed::Unboxed;
use std::alloc::Global;
use std::marker::Model;
use std::mem;
use std::ptr::null_mut;

/// All timers of one caller in C, or none. In C it is a struct of one pointer: a `Global` takes no bytes. `kept` is the timers and bases,
/// where there are some.
#[repr(C)]
pub struct Handle {
    at: *mut u8,
    alloc: Global,
    pub ghost kept: { Option Kept } by { coded_option the_row.coded },
}

impl Model for Handle {
    ghost use Rattle.hulayban_c.specs.Handles.{handle_owns};
    ghost use Rattle.hulayban_c.specs.contracts.home.Home.{the_row};

    ghost also_owns = { λ s. handle_owns the_row s.alloc s.at s.kept };
}

impl Handle {
    /// A handle without timers, as `HRT_NONE` is.
    pub fn none(alloc: Global) -> Handle
        ensures { result.kept ≡ None }
    {
        Handle {
            at: null_mut(),
            alloc,
        }
    }

    /// The handle of a box that was taken apart.
    fn of_unboxed(home: Unboxed<Home, Global>) -> Handle
        ensures { result.kept ≡ Some home.value }
    {
        let Unboxed { at, heap } = home;
        Handle {
            at: at as *mut u8,
            alloc: heap,
        }
    }

    /// The box of a handle, taken apart, if it has one.
    fn into_unboxed(self) -> Option<Unboxed<Home, Global>>
        ensures { MatchOption result (self.kept ≡ None) (λ u. self.kept ≡ Some u.value) }
    {
        let Handle { at, alloc } = self;
        if at.is_null() {
            None
        } else {
            Some(Unboxed {
                at: at as *mut Home,
                heap: alloc,
            })
        }
    }

    /// All timers of a handle, if it has any. It has none afterwards.
    pub fn take(&mut self, alloc: Global) -> Option<Box<Home>>
        ensures taken { MatchOption result (self.old.kept ≡ None) (λ b. self.old.kept ≡ Some b.value) }
        ensures none { self.new.kept ≡ None }
    {
        let held = mem::replace(self, Handle::none(alloc));
        match held.into_unboxed() {
            None => None,
            Some(home) => Some(home.rebox()),
        }
    }

    /// Puts all timers behind a handle.
    pub fn put(&mut self, home: Box<Home>)
        ensures { self.new.kept ≡ Some home.value }
    {
        drop(mem::replace(self, Handle::of_unboxed(Unboxed::unbox(home))));
    }
}

impl Drop for Handle {
    fn drop(self) {
        if let Some(home) = self.into_unboxed() {
            drop(home.rebox());
        }
    }
}

unsafe impl Send for Handle {}
