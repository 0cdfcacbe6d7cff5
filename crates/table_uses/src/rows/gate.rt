//! A gate as a value of a row: who enters gets a claim, which only its pass can end.
ghost use Rattle.std.specs.Prelude.{◌≡◌, ℕ, ◌+◌, [], ◌∷◌, IfSome, MatchOption, MatchBool};
ghost use Rattle.counted_row.specs.Views.{IsPassOfRow, MayLock, Sees, HasClaim};
ghost use Rattle.counted_row.specs.Calls.{Commits, ReadsValue};
ghost use Rattle.table_uses.specs.Gates.{gating};
ghost use Rattle.table_uses.specs.declared.rows.gate.Turn.TheVariants.{Enter, Leave};

use counted_row::{Object, Row, RowPass};
use std::sync::Wait;

/// The last stamp at which a call may be made.
const LAST_STAMP: u64 = (1 << 48) - 1;

/// A gate that one at a time may be inside of. Who enters gets a claim, which leaving ends.
#[derive(Clone, Copy, Debug, PartialEq, Eq)]
pub struct Gate {
    pub inside: bool,
    pub entries: u64,
}

#[derive(Clone, Copy, Debug, PartialEq, Eq)]
pub enum Turn {
    Enter,
    Leave,
}

impl Object for Gate {
    type Call = Turn;

    type Reply = u64;

    ghost use Rattle.table_uses.specs.Gates.{gating};

    ghost meaning = { gating };

    fn apply(&mut self, call: &Turn) -> u64 {
        match *call {
            Turn::Enter => {
                self.inside = true;
                self.entries += 1;
            }
            Turn::Leave => self.inside = false,
        }
        self.entries
    }

    fn counts() {}
}

/// Enters if nobody is inside, and answers the number of the entry, which names the claim.
pub fn enter<R: Wait>(
    rt: &R,
    row: &Row<Gate>,
    pass: &mut RowPass<Gate>,
    index: usize,
) -> Option<u64>
    requires lock { MayLock row.now pass.old index }
    ensures row { IsPassOfRow row.now pass.new }
    ensures turn { MatchOption result
        (ReadsValue gating pass.old pass.new index)
        (λ n. (enters : Commits gating pass.old pass.new index Enter) × (n ≡ enters.state.entries + 1)) }
    ensures claim { IfSome result (λ n. HasClaim index (n ∷ []) pass.new.knows.claims) }
{
    let held = row.lock(rt, pass, index);
    let gate = *held.state();
    if gate.inside || gate.entries == u64::MAX || held.stamp() > LAST_STAMP {
        row.release(pass, held);
        None
    } else {
        let (_, number) = row.commit(pass, held, Turn::Enter);
        Some(number)
    }
}

/// Enters once the gate is found open, in so many looks.
pub fn enter_soon<R: Wait>(
    rt: &R,
    row: &Row<Gate>,
    pass: &mut RowPass<Gate>,
    index: usize,
    looks: u64,
) -> Option<u64>
    requires lock { MayLock row.now pass.old index }
    ensures row { IsPassOfRow row.now pass.new }
    ensures turn { MatchOption result
        (Sees pass.old pass.new)
        (λ n. (enters : Commits gating pass.old pass.new index Enter) × (n ≡ enters.state.entries + 1)) }
{
    for _ in 0..looks {
        if let Some(number) = enter(rt, row, pass, index) {
            return Some(number);
        }
    }
    None
}

/// Leaves, unless the history is full. The claim is that of the pass's own entry.
pub fn leave<R: Wait>(
    rt: &R,
    row: &Row<Gate>,
    pass: &mut RowPass<Gate>,
    index: usize,
    number: u64,
) -> bool
    requires lock { MayLock row.now pass.old index }
    requires claim { HasClaim index (number ∷ []) pass.old.knows.claims }
    ensures row { IsPassOfRow row.now pass.new }
    ensures turn { MatchBool result
        ((leaves : Commits gating pass.old pass.new index Leave) × (number ≡ leaves.state.entries))
        (ReadsValue gating pass.old pass.new index) }
{
    let held = row.lock(rt, pass, index);
    if held.stamp() > LAST_STAMP {
        row.release(pass, held);
        return false;
    }
    row.commit(pass, held, Turn::Leave);
    true
}
