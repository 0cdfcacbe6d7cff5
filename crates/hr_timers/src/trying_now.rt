//! Cancelling a timer at one try that waits for nobody.
ghost use Rattle.std.specs.Prelude.{◌≡◌, ◌≤◌, ◌<◌, ◌^◌, ◌-◌, ◌⊎◌, ℕ, length, slice_index};
ghost use Rattle.pass_names.specs.Names.{IsLast};
ghost use Rattle.hr_timers.specs.Known.{HoldsBase, IsAtRest, LocksGoOnIn, pass_of};
ghost use Rattle.base_row.specs.Calls.{known_of};
ghost use Rattle.hr_timers.specs.Calls.{NowFits, HeldFits};
ghost use Rattle.hr_timers.specs.Tries.{WasBusy};
ghost use Rattle.hr_timers.specs.declared.answer.NowAnswer.TheVariants as nows;

use crate::answer::NowAnswer;
use crate::cancelling::cancel_held;
use crate::under_lock::leave;
use base_row::{BaseRow, HeldBase, Pass, Unlogged};
use seq_timer::CancelAnswer;

/// Looks at the timer's word, and tries the lock of the base that it names once.
pub fn cancel_now(row: &BaseRow, pass: &mut Pass, timer: u32) -> NowAnswer
    requires rest { IsAtRest row.now pass.old }
    requires timer { timer < length row.now.about.timers }
    ensures rest { IsAtRest row.now pass.new }
    ensures cancels { NowFits row.now.about (pass_of pass.old) (pass_of pass.new) timer result }
    ensures idle { ((pass.new.knows.takes ≡ pass.old.knows.takes) × ((b : ℕ) → result ≡ nows.Contended b → ⊥)) ⊎ WasBusy row.now.about (known_of pass.old.knows) (known_of pass.new.knows) timer }
    ensures alone { IsLast pass.old.knows.id → (b : ℕ) → result ≡ nows.Contended b → 2 ^ 64 - 2 ≤ slice_index pass.new.knows.met b }
    ensures locks { LocksGoOnIn pass.old.knows pass.new.knows }
{
    let word = row.load_word(pass, timer);
    if word.moving {
        return NowAnswer::Moving { base: word.base };
    }
    if !word.enqueued && !word.running {
        return NowAnswer::Tried(CancelAnswer::Idle { stamp: word.stamp });
    }
    let Some(held) = row.try_lock_base(pass, word.base) else {
        return NowAnswer::Contended { base: word.base };
    };
    cancel_held_now(row, pass, held, timer, word.base)
}

/// The same under the lock of the base that the timer's word named.
fn cancel_held_now(
    row: &BaseRow,
    pass: &mut Pass,
    held: HeldBase,
    timer: u32,
    base: u32,
) -> NowAnswer
    requires holds { HoldsBase row.now pass.old held }
    requires timer { timer < length row.now.about.timers }
    requires base { held.base ≡ base }
    ensures rest { IsAtRest row.now pass.new }
    ensures cancels { HeldFits row.now.about (pass_of pass.old) (pass_of pass.new) timer base result }
    ensures locks { LocksGoOnIn pass.old.knows pass.new.knows }
{
    let word = row.load_word(pass, timer);
    if word.base != base {
        leave(row, pass, held, timer);
        return NowAnswer::Moved {
            from: base,
            to: word.base,
        };
    }
    if word.moving {
        leave(row, pass, held, timer);
        return NowAnswer::Moving { base };
    }
    NowAnswer::Tried(cancel_held(row, pass, &mut Unlogged, held, timer))
}
