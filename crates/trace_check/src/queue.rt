//! The expiries of one queue that a later one may have waited for.
ghost use Rattle.std.specs.Prelude.{◌≡◌, ◌||◌, ℕ, [], OnOk};
ghost use Rattle.std.specs.List.{list_any};
ghost use Rattle.trace_check.specs.Holding.{is_late};

use crate::mark::Mark;
use std::alloc::{AllocError, Global};
use std::marker::Model;

/// The expiries of one queue, oldest first, without those that a later one covers.
#[derive(Drop)]
pub struct MarkList {
    marks: Vec<Mark>,
}

impl Model for MarkList {
    ghost use Rattle.std.specs.Prelude.{List};
    ghost use Rattle.trace_check.specs.declared.mark.Mark.{Mark};

    ghost Value = { List Mark };

    ghost view = { λ q. q.marks.items };
}

impl MarkList {
    pub fn new(alloc: Global) -> MarkList
        ensures { result ≡ [] }
    {
        MarkList {
            marks: Vec::new(alloc),
        }
    }

    /// Notes one more expiry.
    pub fn note(&mut self, mark: Mark) -> Result<(), AllocError>
        ensures { OnOk result ((expires order : ℕ) → list_any (is_late expires order) self.new ≡ (is_late expires order mark || list_any (is_late expires order) self.old)) }
    {
        while let Some(last) = self.marks.last().copied() {
            if !last.is_covered_by(&mark) {
                break;
            }
            self.marks.pop();
        }
        self.marks.push(mark)?;
        Ok(())
    }

    /// Whether one of these expiries passed a timer that waited since event `order`.
    pub fn has_late(&self, expires: u64, order: u64) -> bool
        ensures { result ≡ list_any (is_late expires order) self.now }
    {
        for mark in &self.marks {
            if mark.is_late(expires, order) {
                return true;
            }
        }
        false
    }
}
