//! What the table keeps for a base.
ghost use Rattle.std.specs.Prelude.{◌≡◌, Some, None};

use crate::slot::BaseSlot;
use std::marker::Model;

/// A base, where it is at home. The words behind it keep it off the line of the next one.
#[derive(Drop)]
pub struct BaseCell {
    slot: Option<BaseSlot>,
    apart: [u64; 16],
}

impl Model for BaseCell {
    ghost use Rattle.std.specs.Prelude.{Option};
    ghost use Rattle.seq_timer.specs.Systems.{BaseContent};

    ghost Value = { Option BaseContent };

    ghost view = { λ c. c.slot };
}

impl BaseCell {
    /// A base at home.
    pub fn of(slot: BaseSlot) -> BaseCell
        ensures { result ≡ Some slot }
    {
        BaseCell {
            slot: Some(slot),
            apart: [0; 16],
        }
    }

    /// Takes the base out.
    pub fn take(&mut self) -> Option<BaseSlot>
        ensures taken { result ≡ self.old }
        ensures left { self.new ≡ None }
    {
        self.slot.take()
    }

    /// Puts a base in, and gives what was there.
    pub fn put(&mut self, slot: BaseSlot) -> Option<BaseSlot>
        ensures put { self.new ≡ Some slot }
        ensures before { result ≡ self.old }
    {
        self.slot.replace(slot)
    }
}
