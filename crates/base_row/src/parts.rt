//! What a row's table is made of.
ghost use Rattle.base_row.specs.Places.{counter_at, lock_at, most_counters, word_at};
ghost use Rattle.std.specs.Prelude.{◌≡◌, ◌<◌, ◌≤◌, ◌^◌, Some, IfOk, IfSome, length, replicate};
ghost use Rattle.base_row.specs.Rules.{number_of, standing_number};
ghost use Rattle.seq_timer.specs.declared.standing.Standing as standings;
ghost use Rattle.seq_timer.specs.Systems.{no_base};

use crate::cell::BaseCell;
use crate::slot::BaseSlot;
use seq_timer::{Standing, TimerState, pack, word_of};
use std::alloc::{AllocError, Global};

/// The place of the heir in a base's word.
const HEIR: u64 = 65536;

/// A base's number from which it is off line.
const OFF_LINE: u64 = 16777216;

/// The number in a timer's word.
#[tactic(auto, unfolding(crate::specs::Rules::number_of))]
pub fn number_of(timer: &TimerState) -> u64
    requires base { timer.now.base < 256 }
    ensures { result ≡ number_of timer.now }
{
    pack(word_of(timer))
}

/// Where a base's lock word stands.
pub fn lock_index(base: usize) -> usize
    requires few { base < 2 ^ 32 }
    ensures { result ≡ lock_at base }
{
    16 * base + 16
}

/// Where a timer's word stands.
pub fn timer_index(bases: usize, timer: usize) -> usize
    requires few { (bases < 2 ^ 32) × (timer < 2 ^ 32) }
    ensures { result ≡ word_at bases timer }
{
    16 * bases + 16 + 16 * timer
}

/// Where a counter's word stands.
pub fn counter_index(counter: usize) -> usize
    requires few { counter < 2 ^ 32 }
    ensures { result ≡ counter_at counter }
{
    16 * (counter / 2) + 1 + counter % 2
}

/// How many counters there may be beside so many bases and timers: they take no memory of their own.
pub fn most_counters(bases: u32, timers: usize) -> u32
    requires few { (bases ≤ 256) × (timers ≤ 16777216) }
    ensures { result ≡ most_counters bases timers }
{
    4 * bases + 2 * (timers as u32) + 2
}

/// The number in a base's word.
#[tactic(auto, unfolding(crate::specs::Rules::standing_number))]
pub fn pack_standing(standing: &Standing) -> u64
    requires few { standing.now.stamp < 65536 }
    ensures { result ≡ standing_number standing.now }
{
    match standing.heir {
        Some(heir) => standing.stamp + (u64::from(heir) * HEIR + OFF_LINE),
        None => standing.stamp,
    }
}

/// What the number in a base's word says.
#[tactic(auto, unfolding(crate::specs::Rules::standing_number))]
pub fn unpack_standing(number: u64) -> Standing
    ensures { (s : standings.Standing) → s.stamp < 65536 → IfSome s.heir (λ h. h < 256) → standing_number s ≡ number → result ≡ s }
{
    let heir = (number / HEIR % 256) as u32;
    Standing {
        stamp: number % HEIR,
        heir: if number < OFF_LINE { None } else { Some(heir) },
    }
}

/// So many words, each 0.
pub fn zeros(alloc: Global, count: usize) -> Result<Vec<u64>, AllocError>
    ensures { IfOk result (λ v. v.items ≡ replicate count 0) }
{
    Ok(vec![in alloc; 0u64; count]?)
}

/// So many bases without timers, each in a slot of its own. The last one keeps this list.
pub fn empty_slots(
    alloc: Global,
    count: u32,
    timers: Vec<TimerState>,
) -> Result<Vec<BaseCell>, AllocError>
    requires some { 0 < count }
    requires few { length timers.items < 2 ^ 32 }
    ensures { IfOk result (λ v. v.items ≡ replicate count (Some (no_base timers.items))) }
{
    let mut slots = slots_but_one(alloc, count - 1, timers.as_slice())?;
    slots.push(BaseCell::of(BaseSlot::of(alloc, timers)?))?;
    Ok(slots)
}

/// So many, with room for one more.
fn slots_but_one(
    alloc: Global,
    count: u32,
    timers: &[TimerState],
) -> Result<Vec<BaseCell>, AllocError>
    requires few { length timers.now < 2 ^ 32 }
    ensures { IfOk result (λ v. v.items ≡ replicate count (Some (no_base timers.now))) }
{
    let mut slots = Vec::with_capacity(alloc, count as usize + 1)?;
    for _ in 0..count {
        slots.push(BaseCell::of(BaseSlot::make(alloc, timers)?))?;
    }
    Ok(slots)
}
