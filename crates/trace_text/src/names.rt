//! The names of events.
ghost use Rattle.std.specs.Prelude.{◌≡◌};
ghost use Rattle.trace_text.specs.Names.{name_in};

/// The event that a line tells.
#[derive(Clone, Copy, Debug, PartialEq, Eq)]
pub enum EventName {
    SetUp,
    Start,
    Cancel,
    Entry,
    Exit,
}

/// The event that a word names.
#[tactic(auto, unfolding(crate::specs::Names::event_named))]
pub fn name(word: &[u8]) -> Option<EventName>
    ensures { result ≡ name_in word.now }
{
    let alone = word.strip_prefix(b"timer:").unwrap_or(word);
    let rest = alone.strip_prefix(b"hrtimer_")?;
    if rest == b"start:".as_slice() {
        Some(EventName::Start)
    } else if rest == b"expire_entry:".as_slice() {
        Some(EventName::Entry)
    } else if rest == b"expire_exit:".as_slice() {
        Some(EventName::Exit)
    } else if rest == b"cancel:".as_slice() {
        Some(EventName::Cancel)
    } else if rest == b"setup:".as_slice() || rest == b"init:".as_slice() {
        Some(EventName::SetUp)
    } else {
        None
    }
}
