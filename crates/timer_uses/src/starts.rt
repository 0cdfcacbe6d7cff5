//! The start that an object wants, made on its high-resolution timer.
ghost use Rattle.std.specs.Prelude.{◌≡◌, ◌<◌, ℕ, Some, length};
ghost use Rattle.timer_setting.specs.Phases.{IsOutcomeOf};
ghost use Rattle.timer_core.specs.Kept.{IsSameSize, IsSpent, timer_in};

use ktime::Reading;
use timer_core::{Core, StartAnswer};
use timer_queue::Queue;
use timer_setting::{Arm, Wanted};

/// Makes the start that an object wants, if it wants one, and answers the outcome.
pub fn make_start<Q: Queue>(
    core: &mut Core<Q>,
    id: u32,
    wanted: Option<Wanted>,
    base: u32,
    reading: Reading,
) -> Arm
    requires timer { id < length core.old.timers }
    requires base { base < length core.old.bases }
    ensures outcome { IsOutcomeOf result wanted }
    ensures armed { (generation : ℕ) → result ≡ Arm.Armed generation → (timer_in core.new id).armed ≡ Some generation }
    ensures unarmed { (stamp : ℕ) → result ≡ Arm.Unarmed stamp → IsSpent (timer_in core.old id) × (core.new ≡ core.old) }
    ensures sizes { IsSameSize core.old core.new }
{
    let Some(wanted) = wanted else {
        return Arm::NotAsked;
    };
    match core.start(id, wanted.mode, wanted.ns, base, reading) {
        StartAnswer::Started { generation, .. } => Arm::Armed(generation),
        StartAnswer::Spent { stamp } => Arm::Unarmed(stamp),
    }
}
