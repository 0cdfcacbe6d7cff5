//! What the calls' clauses fix.
ghost use Rattle.std.specs.Prelude.{◌≡◌, ℕ, List, Option};
ghost use Rattle.ktime.specs.Readings.{ClockReading};
ghost use Rattle.base_row.specs.declared.view.Opening.{Opening};
ghost use Rattle.hr_timers.specs.Known.{KnownOfTimers};
ghost use Rattle.hulayban.specs.Expiries.{BaseWaits, LooksAlike};
ghost use Rattle.hulayban.specs.Lanes.{RetiresEach, SplitsEach};
ghost use Rattle.hulayban.specs.Shares.{AreOfOneHistory};
ghost use Rattle.hulayban.specs.Systems.{HandleOf, SystemOf};

/// By one reading, and with each queue of the base looked at when the same had been seen, `next_expiry` has one answer.
pub fn a_next_expiry_is_fixed()
    ensures { (o : Opening) (v w v' w' : KnownOfTimers) (base : ℕ) (reading : ClockReading) (a a' : Option ℕ) (c : BaseWaits o v w base reading a)
        (d : BaseWaits o v' w' base reading a') → LooksAlike c.hard_waits d.hard_waits → LooksAlike c.soft_waits d.soft_waits → a ≡ a' }
{}

/// Handles that were split off a first one, and taken in again, are of one history: what each had seen begins what the first one has seen in the end. So it is
/// of the lanes of `run_all` (`splits`, `retires` of `RunsLanes`).
pub fn handles_share_one_history()
    ensures { (x : SystemOf) (old mid new : HandleOf) (begun ended : List HandleOf) → SplitsEach x old begun mid → RetiresEach x mid ended new
        → AreOfOneHistory old new begun ended }
{}
