//! The check of a kernel's trace for C, which gives the trace as text in memory.
ghost use Rattle.std.specs.Prelude.{◌≡◌, IfOk};
ghost use Rattle.hulayban_trace.specs.Checks.{AnswersCheck, IsChecked, cause_number, check_tells, misfit_tells, of_line, what_number};

use crate::causes::{
    CAUSE_NO_CLOCKID, CAUSE_NO_EXPIRES, CAUSE_NO_HRTIMER, CAUSE_NO_MODE, CAUSE_NO_NOW,
    CAUSE_NO_PROCESSOR, CAUSE_NO_SOFTEXPIRES, CAUSE_NO_TIMER_EVENTS, CAUSE_NO_WAS_ARMED,
    CAUSE_NOT_ARMED, CAUSE_NOT_RUNNING, CAUSE_OTHER_CONTEXT, CAUSE_OTHER_PROCESSOR,
    CAUSE_OUT_OF_ORDER, CAUSE_PAST_TIME, CAUSE_RUNNING, CAUSE_SECOND_FUNCTION, CAUSE_SET_UP_ARMED,
    CAUSE_SET_UP_RUNNING, CAUSE_SOFT_AFTER_HARD, CAUSE_TOO_EARLY, CAUSE_WAS_ARMED,
    CAUSE_WAS_NOT_ARMED,
};
use crate::codes::{FITS, MISFIT, NO_EVENTS, NO_MEMORY, UNREADABLE};
use std::alloc::{AllocError, Global};
use trace_check::Misfit;
use trace_read::{Verdict, read_whole};
use trace_text::Unreadable;

/// What a check tells beside its number. What it says nothing of is 0.
#[repr(C)]
#[derive(Clone, Copy, Debug, PartialEq, Eq)]
pub struct CheckAnswer {
    pub line: u64,
    pub events: u64,
    pub timers: u64,
    pub processors: u64,
    pub soft: u64,
    pub now: u64,
    pub timer: u64,
    pub cause: u32,
}

/// The number of a cause.
fn cause_number(cause: Misfit) -> u32
    ensures { result ≡ cause_number cause }
{
    match cause {
        Misfit::SetUpArmed => CAUSE_SET_UP_ARMED,
        Misfit::SetUpRunning => CAUSE_SET_UP_RUNNING,
        Misfit::SoftAfterHard => CAUSE_SOFT_AFTER_HARD,
        Misfit::PastTime => CAUSE_PAST_TIME,
        Misfit::WasNotArmed => CAUSE_WAS_NOT_ARMED,
        Misfit::WasArmed => CAUSE_WAS_ARMED,
        Misfit::NotArmed => CAUSE_NOT_ARMED,
        Misfit::Running => CAUSE_RUNNING,
        Misfit::OtherProcessor => CAUSE_OTHER_PROCESSOR,
        Misfit::OtherContext => CAUSE_OTHER_CONTEXT,
        Misfit::TooEarly { .. } => CAUSE_TOO_EARLY,
        Misfit::SecondFunction { .. } => CAUSE_SECOND_FUNCTION,
        Misfit::OutOfOrder => CAUSE_OUT_OF_ORDER,
        Misfit::NotRunning => CAUSE_NOT_RUNNING,
    }
}

/// The number of what is wrong in a line.
fn what_number(what: Unreadable) -> u32
    ensures { result ≡ what_number what }
{
    match what {
        Unreadable::Timer => CAUSE_NO_HRTIMER,
        Unreadable::Processor => CAUSE_NO_PROCESSOR,
        Unreadable::Clock => CAUSE_NO_CLOCKID,
        Unreadable::Mode => CAUSE_NO_MODE,
        Unreadable::SoftExpires => CAUSE_NO_SOFTEXPIRES,
        Unreadable::Expires => CAUSE_NO_EXPIRES,
        Unreadable::WasArmed => CAUSE_NO_WAS_ARMED,
        Unreadable::Now => CAUSE_NO_NOW,
    }
}

/// A line, and what is wrong with it.
fn of_line(line: u64, cause: u32) -> CheckAnswer
    ensures { result ≡ of_line line cause }
{
    CheckAnswer {
        line,
        events: 0,
        timers: 0,
        processors: 0,
        soft: 0,
        now: 0,
        timer: 0,
        cause,
    }
}

/// What the check tells of a line that doesn't fit.
fn misfit_tells(line: u64, cause: Misfit) -> CheckAnswer
    ensures { result ≡ misfit_tells line cause }
{
    let found = of_line(line, cause_number(cause));
    match cause {
        Misfit::TooEarly { soft, now } => CheckAnswer { soft, now, ..found },
        Misfit::SecondFunction { timer } => CheckAnswer { timer, ..found },
        _ => found,
    }
}

/// What the check of a trace tells that is answered so, with so many timers and processors.
fn check_tells(verdict: Verdict, timers: u64, processors: u64) -> (i32, CheckAnswer)
    ensures { result ≡ check_tells verdict timers processors }
{
    match verdict {
        Verdict::Fits { events } => {
            let found = CheckAnswer {
                events,
                timers,
                processors,
                ..of_line(0, 0)
            };
            (FITS, found)
        }
        Verdict::NoEvents => (NO_EVENTS, of_line(0, CAUSE_NO_TIMER_EVENTS)),
        Verdict::Refused { line, cause } => (MISFIT, misfit_tells(line, cause)),
        Verdict::Unreadable { line, what } => (UNREADABLE, of_line(line, what_number(what))),
    }
}

/// Gives C what is told.
fn give(out: &mut CheckAnswer, told: (i32, CheckAnswer)) -> i32
    ensures returned { result ≡ told.0 }
    ensures after { out.new ≡ told.1 }
{
    *out = told.1;
    told.0
}

/// What the check of a trace tells.
fn check(alloc: Global, text: &[u8]) -> Result<(i32, CheckAnswer), AllocError>
    ensures { IfOk result (λ told. IsChecked text.now told) }
{
    let (verdict, tally) = read_whole(alloc, text)?;
    Ok(check_tells(verdict, tally.timers() as u64, tally.processors() as u64))
}

/// Checks a trace: whether it is a history that the model gives, or else which line is the first that can't be read, or with which no history shows
/// the lines so far, and why, or that no line tells an event of a timer.
#[unsafe(no_mangle)]
#[tactic(auto, using(crate::proofs::Checked::checked))]
pub extern "C" fn hrt_check(alloc: Global, text: &[u8], out: &mut CheckAnswer) -> i32
    ensures { AnswersCheck text.now result out.old out.new }
{
    match check(alloc, text) {
        Ok(told) => give(out, told),
        Err(_) => NO_MEMORY,
    }
}
