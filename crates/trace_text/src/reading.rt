//! Reads a line.
ghost use Rattle.std.specs.Prelude.{◌≡◌, IfOk, map};
ghost use Rattle.std.specs.List.{list_any};
ghost use Rattle.trace_text.specs.Reading.{ends_loss, event_in, event_of, is_comment, event_line, site_of, tells_loss};

use crate::event::{KernelEvent, Site};
use crate::fields::{field, time, timer, was_armed};
use crate::heads::{Head, find};
use crate::modes::{TimerMode, clock, mode};
use crate::names::EventName;
use crate::unreadable::Unreadable;
use crate::words::words;
use ktime::effective;
use std::alloc::{AllocError, Global};

/// Where a line was told.
fn site(head: Head) -> Result<Site, Unreadable>
    ensures { result ≡ site_of head }
{
    match head.processor {
        Some(processor) => Ok(Site {
            processor,
            context: head.context,
        }),
        None => Err(Unreadable::Processor),
    }
}

/// What is wrong, or the timer that is set up, its clock and its context.
fn set_up(words: &[&[u8]], head: Head) -> Result<KernelEvent, Unreadable>
    ensures { result ≡ event_of EventName.SetUp head (map (λ w. w.now) words.now) }
{
    let timer = timer(words)?;
    let Some(name) = field(b"clockid=", words) else {
        return Err(Unreadable::Clock);
    };
    let Some(word) = field(b"mode=", words) else {
        return Err(Unreadable::Mode);
    };
    let Some(TimerMode { mode, context }) = mode(word) else {
        return Err(Unreadable::Mode);
    };
    let clock = match clock(name) {
        Some(clock) => Some(effective(clock, mode, clock)),
        None => None,
    };
    Ok(KernelEvent::SetUp {
        timer,
        clock,
        context,
    })
}

/// The event of a line, by its name, by what stands before that, and by the words behind it.
fn event(name: EventName, head: Head, words: &[&[u8]]) -> Result<KernelEvent, Unreadable>
    ensures { result ≡ event_of name head (map (λ w. w.now) words.now) }
{
    match name {
        EventName::SetUp => set_up(words, head),
        EventName::Start => Ok(KernelEvent::Start {
            timer: timer(words)?,
            soft: time(b"softexpires=", Unreadable::SoftExpires, words)?,
            expires: time(b"expires=", Unreadable::Expires, words)?,
            was_armed: was_armed(words)?,
        }),
        EventName::Cancel => Ok(KernelEvent::Cancel {
            timer: timer(words)?,
        }),
        EventName::Entry => Ok(KernelEvent::Entry {
            timer: timer(words)?,
            site: site(head)?,
            now: time(b"now=", Unreadable::Now, words)?,
        }),
        EventName::Exit => Ok(KernelEvent::Exit {
            timer: timer(words)?,
            site: site(head)?,
        }),
    }
}

/// Whether one of these words ends a line that tells of lost events.
fn ends_loss(words: &[&[u8]]) -> bool
    ensures { result ≡ list_any ends_loss (map (λ w. w.now) words.now) }
{
    for word in words {
        if *word == b"EVENTS]".as_slice() || *word == b"DROPPED]".as_slice() {
            return true;
        }
    }
    false
}

/// Whether lines were lost where these words stand.
fn tells_loss(words: &[&[u8]]) -> bool
    ensures { result ≡ tells_loss (map (λ w. w.now) words.now) }
{
    let Some((first, rest)) = words.split_first() else {
        return false;
    };
    if *first == b"#####".as_slice() {
        return true;
    }
    if first.strip_prefix(b"CPU:").is_none() {
        return false;
    }
    ends_loss(rest)
}

/// Whether these words are a comment.
fn is_comment(words: &[&[u8]]) -> bool
    ensures { result ≡ is_comment (map (λ w. w.now) words.now) }
{
    match words.first() {
        Some(word) => word.strip_prefix(b"#").is_some(),
        None => false,
    }
}

/// The event that the words of a line tell.
#[tactic(auto, unfolding(crate::specs::Reading::event_in, crate::specs::Reading::read_event))]
fn event_among(words: &[&[u8]]) -> Result<Option<KernelEvent>, Unreadable>
    ensures { result ≡ event_in (map (λ w. w.now) words.now) }
{
    if tells_loss(words) {
        return Ok(Some(KernelEvent::Lost));
    }
    if is_comment(words) {
        return Ok(None);
    }
    match find(words) {
        Some((name, head, fields)) => event(name, head, fields).map(Some),
        None => Ok(None),
    }
}

/// What a line tells of a timer, without its newline: `None` where it is of something else, and what is wrong in it where it is of a timer and
/// can't be read.
pub fn read_line(
    alloc: Global,
    line: &[u8],
) -> Result<Result<Option<KernelEvent>, Unreadable>, AllocError>
    ensures { IfOk result (λ r. r ≡ event_line line.now) }
{
    let words = words(alloc, line)?;
    Ok(event_among(&words))
}
