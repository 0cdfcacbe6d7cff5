//! The line for a trace that isn't answered as one that fits.
ghost use Rattle.std.specs.Prelude.{◌≡◌, ◌++◌, false, IfOk, codes, string_bytes};
ghost use Rattle.std.specs.Fmt.{decimal, digits};
ghost use Rattle.trace_read.specs.declared.verdict.Verdict.TheVariants.{NoEvents};
ghost use Rattle.trace_top.specs.Texts.{cause_rest, misfit_word, told_line, verdict_text, what_word};

use std::alloc::{AllocError, Global};
use trace_check::Misfit;
use trace_read::Verdict;
use trace_text::Unreadable;

/// The word of a cause.
fn cause_word(cause: Misfit) -> &'static str
    ensures { result.now ≡ misfit_word cause }
{
    match cause {
        Misfit::SetUpArmed => "SetUpArmed",
        Misfit::SetUpRunning => "SetUpRunning",
        Misfit::SoftAfterHard => "SoftAfterHard",
        Misfit::PastTime => "PastTime",
        Misfit::WasNotArmed => "WasNotArmed",
        Misfit::WasArmed => "WasArmed",
        Misfit::NotArmed => "NotArmed",
        Misfit::Running => "Running",
        Misfit::OtherProcessor => "OtherProcessor",
        Misfit::OtherContext => "OtherContext",
        Misfit::TooEarly { .. } => "TooEarly",
        Misfit::SecondFunction { .. } => "SecondFunction",
        Misfit::OutOfOrder => "OutOfOrder",
        Misfit::NotRunning => "NotRunning",
    }
}

/// The word of what is wrong in a line.
fn what_word(what: Unreadable) -> &'static str
    ensures { result.now ≡ what_word what }
{
    match what {
        Unreadable::Timer => "no hrtimer",
        Unreadable::Processor => "no processor",
        Unreadable::Clock => "no clockid",
        Unreadable::Mode => "no mode",
        Unreadable::SoftExpires => "no softexpires",
        Unreadable::Expires => "no expires",
        Unreadable::WasArmed => "no was_armed",
        Unreadable::Now => "no now",
    }
}

/// The line of this number and its reason.
fn line_text(alloc: Global, line: u64, reason: &str) -> Result<String, AllocError>
    ensures { IfOk result (λ t. string_bytes t ≡ told_line line reason.now) }
{
    Ok(format!(in alloc; "line {line}: {reason}\n")?)
}

/// A soft expiry that hadn't come.
fn early_text(alloc: Global, word: &str, soft: u64, time: u64) -> Result<String, AllocError>
    ensures { IfOk result (λ t. string_bytes t ≡ word.now ++ (codes " soft " ++ decimal soft ++ codes " now " ++ decimal time)) }
{
    Ok(format!(in alloc; "{word} soft {soft} now {time}")?)
}

/// A function that runs.
fn second_text(alloc: Global, word: &str, timer: u64) -> Result<String, AllocError>
    ensures { IfOk result (λ t. string_bytes t ≡ word.now ++ (codes " hrtimer " ++ digits 16 false timer)) }
{
    Ok(format!(in alloc; "{word} hrtimer {timer:x}")?)
}

/// A cause with what it tells.
fn cause_text(alloc: Global, cause: Misfit) -> Result<String, AllocError>
    ensures { IfOk result (λ t. string_bytes t ≡ misfit_word cause ++ cause_rest cause) }
{
    let word = cause_word(cause);
    match cause {
        Misfit::TooEarly { soft, now } => early_text(alloc, word, soft, now),
        Misfit::SecondFunction { timer } => second_text(alloc, word, timer),
        _ => String::from_str(alloc, word),
    }
}

/// The line that tells that a trace has no event of a timer.
fn empty_text(alloc: Global) -> Result<String, AllocError>
    ensures { IfOk result (λ t. string_bytes t ≡ verdict_text NoEvents) }
{
    String::from_str(alloc, "no timer events\n")
}

/// The line that tells how a trace is answered, where that isn't that it fits.
pub fn text_of(alloc: Global, verdict: Verdict) -> Result<String, AllocError>
    ensures { IfOk result (λ t. string_bytes t ≡ verdict_text verdict) }
{
    match verdict {
        Verdict::Fits { .. } => Ok(String::new(alloc)),
        Verdict::NoEvents => empty_text(alloc),
        Verdict::Refused { line, cause } => {
            let reason = cause_text(alloc, cause)?;
            line_text(alloc, line, &reason)
        }
        Verdict::Unreadable { line, what } => line_text(alloc, line, what_word(what)),
    }
}
