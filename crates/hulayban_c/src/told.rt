//! What calls tell C of what the timers answer.
ghost use Rattle.std.specs.Prelude.{◌≡◌};
ghost use Rattle.hulayban_c.specs.Numbers.{clock_number};
ghost use Rattle.hulayban_c.specs.Calls.{IsReturned, cancel_tells, claimed_tells, finish_tells, forward_tells, of_generation, next_tells, peek_tells, of_count, start_tells};

use crate::codes::{AGAIN, ARMED, CANCELLED, DONE, RUNNING, SPENT};
use crate::crossing::{Answer, NOTHING, clock_number};
use seq_timer::{CancelAnswer, Finished, ForwardAnswer, Rearmed, TimerState};
use timer_core::StartAnswer;

/// Of a timer with so many entries.
pub fn of_count(timer: u32, stamp: u64) -> Answer
    ensures { result ≡ of_count timer stamp }
{
    Answer {
        timer,
        number: stamp,
        ..NOTHING
    }
}

/// Of a generation, and the number of an entry.
pub fn of_generation(timer: u32, generation: u64, number: u64) -> Answer
    ensures { result ≡ of_generation timer generation number }
{
    Answer {
        timer,
        generation,
        number,
        ..NOTHING
    }
}

/// What a start tells.
pub fn start_tells(timer: u32, answer: StartAnswer) -> (i32, Answer)
    ensures { result ≡ start_tells timer answer }
{
    match answer {
        StartAnswer::Spent { stamp } => (SPENT, of_count(timer, stamp)),
        StartAnswer::Started {
            was_armed,
            generation,
            moved_to,
            placement,
        } => {
            let answer = Answer {
                timer,
                base: placement.base,
                clock: clock_number(placement.clock),
                armed: u32::from(was_armed),
                moved: u32::from(moved_to.is_some()),
                generation,
                number: generation,
                soft: placement.soft,
                expires: placement.expires,
                ..NOTHING
            };
            (DONE, answer)
        }
    }
}

/// What a cancel tells.
pub fn cancel_tells(timer: u32, answer: CancelAnswer) -> (i32, Answer)
    ensures { result ≡ cancel_tells timer answer }
{
    match answer {
        CancelAnswer::Idle { stamp } => (DONE, of_count(timer, stamp)),
        CancelAnswer::Cancelled { generation, number } => {
            (CANCELLED, of_generation(timer, generation, number))
        }
        CancelAnswer::Running { generation, stamp } => {
            (RUNNING, of_generation(timer, generation, stamp))
        }
    }
}

/// How the timer of a claim was armed, by its generation, the number of the claim's entry, and how the timer is kept behind it.
pub fn claimed_tells(timer: u32, generation: u64, number: u64, state: &TimerState) -> Answer
    ensures { result ≡ record (of_generation timer generation number) { base = state.now.base; clock = clock_number state.now.clock; soft = state.now.soft; expires = state.now.expires } }
{
    Answer {
        base: state.base(),
        clock: clock_number(state.clock()),
        soft: state.soft(),
        expires: state.expires(),
        ..of_generation(timer, generation, number)
    }
}

/// What a forward tells.
pub fn forward_tells(timer: u32, answer: ForwardAnswer) -> (i32, Answer)
    ensures { result ≡ forward_tells timer answer }
{
    match answer {
        ForwardAnswer::Forwarded { number, moved } => {
            let answer = Answer {
                timer,
                number,
                count: moved.count,
                soft: moved.soft,
                expires: moved.expires,
                ..NOTHING
            };
            (DONE, answer)
        }
        ForwardAnswer::Spent { stamp } => (SPENT, of_count(timer, stamp)),
        ForwardAnswer::Armed { generation, stamp } => (
            ARMED,
            of_generation(timer, generation, stamp),
        ),
    }
}

/// What a finish tells.
pub fn finish_tells(timer: u32, finished: Finished) -> (i32, Answer)
    ensures { result ≡ finish_tells timer finished.number finished.rearmed }
{
    match finished.rearmed {
        Rearmed::No => (DONE, of_count(timer, finished.number)),
        Rearmed::Again { generation } => (AGAIN, of_generation(timer, generation, finished.number)),
        Rearmed::Spent { .. } => (SPENT, of_count(timer, finished.number)),
    }
}

/// How long a base may be left alone.
pub fn next_tells(wait: Option<u64>) -> (i32, Answer)
    ensures { result ≡ next_tells wait }
{
    match wait {
        None => (DONE, NOTHING),
        Some(wait) => (ARMED, Answer { wait, ..NOTHING }),
    }
}

/// How a timer is kept.
pub fn peek_tells(timer: u32, state: &TimerState) -> Answer
    ensures { result ≡ peek_tells timer state.now }
{
    Answer {
        timer,
        base: state.base(),
        clock: clock_number(state.clock()),
        armed: u32::from(state.armed().is_some()),
        running: u32::from(state.running().is_some()),
        generation: state.armed().unwrap_or(0),
        number: state.stamp(),
        soft: state.soft(),
        expires: state.expires(),
        ..NOTHING
    }
}

/// Gives C what is told: an answer is written, and a number returned.
pub fn give<A: Copy>(out: &mut A, told: Result<(i32, A), i32>) -> i32
    ensures { IsReturned result out.old out.new told }
{
    match told {
        Ok((code, answer)) => {
            *out = answer;
            code
        }
        Err(code) => code,
    }
}

// What a call does on what a handle keeps: takes it out, makes the call, puts it back, and gives C what was told.
macro_rules! on_timers {
    ($alloc:ident, $out:ident, $handle:ident.$call:ident($($argument:ident),*)) => {{
        let Some(mut kept) = $handle.take($alloc) else {
            return $crate::codes::NO_TIMERS;
        };
        let told = kept.$call($($argument),*);
        $handle.put(kept);
        $crate::told::give($out, told)
    }};
}

pub(crate) use on_timers;
