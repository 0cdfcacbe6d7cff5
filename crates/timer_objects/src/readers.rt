//! Readers of descriptors that wait, and the bells that wake them.
ghost use Rattle.std.specs.Prelude.{◌≡◌, ◌+◌, ◌<◌, ◌≤◌, ◌^◌, length, IfOk};
ghost use Rattle.timer_objects.specs.BlockingReads.{descriptors_below};

use crate::object::{Decl, Kind};
use crossbeam_utils::sync::{Parker, Unparker};
use std::alloc::{AllocError, Global};
use std::marker::Model;
use std::sync::Wait;

/// The one reader of a descriptor that may wait. It isn't copied, so one thread at a time has it.
#[derive(Drop)]
pub struct Reader {
    id: u32,
    parker: Parker,
}

impl Model for Reader {
    ghost use Rattle.std.specs.Prelude.{ℕ};

    ghost Value = { ℕ };

    ghost view = { λ r. r.id };
}

impl Reader {
    /// The number of its descriptor.
    pub fn id(&self) -> u32
        ensures { result ≡ self.now }
    {
        self.id
    }

    /// Waits until it is woken, or goes on if it was since it last waited.
    pub(crate) fn wait<R: Wait>(&mut self, rt: &R)
        ensures { self.new ≡ self.old }
    {
        self.parker.park(rt);
    }
}

/// That the bell of an object was rung, if it has one. `ring` alone makes it.
#[derive(Drop)]
pub(crate) struct Rung {
    id: u32,
}

impl Model for Rung {
    ghost use Rattle.std.specs.Prelude.{ℕ};

    ghost Value = { ℕ };

    ghost view = { λ r. r.id };
}

/// That the bell of each object of a smaller number was rung, if it has one. `and` alone makes the number greater.
#[derive(Drop)]
pub struct RungBelow {
    next: u64,
}

impl Model for RungBelow {
    ghost use Rattle.std.specs.Prelude.{ℕ};

    ghost Value = { ℕ };

    ghost view = { λ r. r.next };
}

impl RungBelow {
    /// None was.
    pub(crate) fn none() -> RungBelow
        ensures { result ≡ 0 }
    {
        RungBelow { next: 0 }
    }

    /// That of the next object was too.
    pub(crate) fn and(self, rung: Rung) -> RungBelow
        requires next { rung ≡ self }
        requires few { self < 2 ^ 32 }
        ensures { result ≡ self + 1 }
    {
        let Rung { id: _ } = rung;
        let RungBelow { next } = self;
        RungBelow { next: next + 1 }
    }
}

/// The bells of objects: one of each descriptor that has a reader.
#[derive(Drop)]
pub struct Bells {
    bells: Vec<Option<Unparker>>,
}

impl Bells {
    /// None.
    pub(crate) fn none(alloc: Global) -> Bells {
        Bells {
            bells: Vec::new(alloc),
        }
    }

    /// One of each descriptor, and their readers in the order of the descriptors' numbers.
    pub(crate) fn of_descriptors(
        alloc: Global,
        decls: &[Decl],
    ) -> Result<(Bells, Vec<Reader>), AllocError>
        requires few { length decls.now ≤ 2 ^ 32 }
        ensures readers { IfOk result (λ r. r.1.items ≡ descriptors_below decls.now (length decls.now)) }
    {
        let mut bells = Vec::new(alloc);
        let mut readers = Vec::new(alloc);
        for id in 0..decls.len() {
            let bell = match decls[id].kind {
                Kind::Fd => {
                    let parker = Parker::new(alloc)?;
                    let bell = parker.unparker().clone()?;
                    readers.push(Reader {
                        id: id as u32,
                        parker,
                    })?;
                    Some(bell)
                }
                Kind::Raw | Kind::Posix | Kind::Sleeper | Kind::Queued => None,
            };
            bells.push(bell)?;
        }
        Ok((Bells { bells }, readers))
    }

    /// Wakes the reader of a descriptor, if it has one: now, or as soon as it waits.
    pub(crate) fn ring(&self, id: u32) -> Rung
        ensures { result ≡ id }
    {
        if let Some(Some(bell)) = self.bells.get(id as usize) {
            bell.unpark();
        }
        Rung { id }
    }
}
