//! What calls on a seat tell C of what the timers answer.
ghost use Rattle.std.specs.Prelude.{◌≡◌};
ghost use Rattle.hulayban_c.specs.SharedTells.{busy_tells, carried_tells, claim_tells, contended_tells, here_tells, kept_tells, landed_tells, looking_tells, miss_tells, moved_tells, now_tells, on_base, peek_shared, unsent_tells};

use crate::codes::{BUSY, CARRIED, CLAIMED, CONTENDED, DONE, MOVING, SPENT};
use crate::crossing::clock_number;
use crate::shared::answer::{SAYS_NOTHING, SharedAnswer, as_shared};
use crate::told::{cancel_tells, next_tells, of_count, of_generation};
use hr_timers::{ClaimNumbers, Landed, Miss, NowAnswer, StartAnswer, Unsent};
use seq_timer::{Peek, Placement};

/// Of a timer and a base.
pub fn on_base(timer: u32, base: u32) -> SharedAnswer
    ensures { result ≡ on_base timer base }
{
    SharedAnswer {
        timer,
        base,
        ..SAYS_NOTHING
    }
}

/// That another seat took the lock of this base.
pub fn contended_tells(timer: u32, base: u32) -> (i32, SharedAnswer)
    ensures { result ≡ contended_tells timer base }
{
    (CONTENDED, on_base(timer, base))
}

/// Why one try didn't get the lock of its timer's base.
pub fn miss_tells(timer: u32, miss: Miss) -> (i32, SharedAnswer)
    ensures { result ≡ miss_tells timer miss }
{
    match miss {
        Miss::Contended { base } => contended_tells(timer, base),
        Miss::Moving { base } => (MOVING, on_base(timer, base)),
        Miss::Moved { from: _, to } => moved_tells(timer, to),
    }
}

/// That the timer came to this base.
fn moved_tells(timer: u32, base: u32) -> (i32, SharedAnswer)
    ensures { result ≡ moved_tells timer base }
{
    let answer = SharedAnswer {
        moved: 1,
        ..on_base(timer, base)
    };
    (MOVING, answer)
}

/// How a started timer is kept.
fn kept_tells(timer: u32, generation: u64, placement: Placement) -> SharedAnswer
    ensures { result ≡ kept_tells timer generation placement }
{
    SharedAnswer {
        timer,
        base: placement.base,
        clock: clock_number(placement.clock),
        generation,
        number: generation,
        soft: placement.soft,
        expires: placement.expires,
        ..SAYS_NOTHING
    }
}

/// What a start tells that moved its timer nowhere.
pub fn here_tells(timer: u32, answer: StartAnswer, first: bool) -> (i32, SharedAnswer)
    ensures { result ≡ here_tells timer answer first }
{
    match answer {
        StartAnswer::Spent { stamp } => as_shared((SPENT, of_count(timer, stamp))),
        StartAnswer::Started {
            was_armed,
            generation,
            asked: _,
            outs,
            placement,
        } => {
            let answer = SharedAnswer {
                armed: u32::from(was_armed),
                moved: u32::from(outs != 0),
                first: u32::from(first),
                ..kept_tells(timer, generation, placement)
            };
            (DONE, answer)
        }
    }
}

/// What a start tells whose timer has come to another base.
pub fn landed_tells(timer: u32, was_armed: bool, landed: Landed) -> (i32, SharedAnswer)
    ensures { result ≡ landed_tells timer was_armed landed }
{
    let answer = SharedAnswer {
        armed: u32::from(was_armed),
        moved: 1,
        first: u32::from(landed.first),
        ..kept_tells(timer, landed.generation, landed.placement)
    };
    (DONE, answer)
}

/// That the seat carries the timer to this base.
pub fn carried_tells(timer: u32, base: u32) -> (i32, SharedAnswer)
    ensures { result ≡ carried_tells timer base }
{
    (CARRIED, on_base(timer, base))
}

/// Why a timer wasn't sent off its base.
pub fn unsent_tells(timer: u32, unsent: Unsent) -> (i32, SharedAnswer)
    ensures { result ≡ unsent_tells timer unsent }
{
    match unsent {
        Unsent::Missed(miss) => miss_tells(timer, miss),
        Unsent::Spent { stamp } => as_shared((SPENT, of_count(timer, stamp))),
        Unsent::Stays { base } => moved_tells(timer, base),
    }
}

/// What a cancel tells.
pub fn now_tells(timer: u32, answer: NowAnswer) -> (i32, SharedAnswer)
    ensures { result ≡ now_tells timer answer }
{
    match answer {
        NowAnswer::Tried(answer) => as_shared(cancel_tells(timer, answer)),
        NowAnswer::Contended { base } => contended_tells(timer, base),
        NowAnswer::Moving { base } => (MOVING, on_base(timer, base)),
        NowAnswer::Moved { from: _, to } => moved_tells(timer, to),
    }
}

/// What a claim tells of the timer that it claims.
pub fn claim_tells(claim: ClaimNumbers) -> (i32, SharedAnswer)
    ensures { result ≡ claim_tells claim }
{
    let answer = SharedAnswer {
        generation: claim.generation,
        number: claim.number,
        ..on_base(claim.timer, claim.base)
    };
    (CLAIMED, answer)
}

/// Whose function runs where a claim asks.
pub fn busy_tells(timer: u32, generation: u64) -> (i32, SharedAnswer)
    ensures { result ≡ busy_tells timer generation }
{
    as_shared((BUSY, of_generation(timer, generation, 0)))
}

/// How a timer's word shows it.
pub fn peek_shared(timer: u32, peek: Peek) -> (i32, SharedAnswer)
    ensures { result ≡ peek_shared timer peek }
{
    let answer = SharedAnswer {
        armed: u32::from(peek.enqueued),
        running: u32::from(peek.running),
        moving: u32::from(peek.moving),
        number: peek.stamp,
        ..on_base(timer, peek.base)
    };
    (DONE, answer)
}

/// What looks at a base tell: how long it may be left alone, or that another seat took its lock.
pub fn looking_tells(base: u32, looked: Option<Option<u64>>) -> (i32, SharedAnswer)
    ensures { result ≡ looking_tells base looked }
{
    match looked {
        None => contended_tells(0, base),
        Some(wait) => as_shared(next_tells(wait)),
    }
}
