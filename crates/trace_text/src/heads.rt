//! What a line says before the name of its event.
ghost use Rattle.std.specs.Prelude.{◌≡◌, map, option_map};
ghost use Rattle.trace_text.specs.Names.{context_in, first_event, next_head, no_head, processor_in};

use crate::names::{EventName, name};
use crate::numbers::number;
use seq_timer::Context;

/// What is told before an event's name so far: the last processor, and the context by the flags behind it.
#[derive(Clone, Copy, Debug, PartialEq, Eq)]
pub struct Head {
    pub processor: Option<u32>,
    pub context: Option<Context>,
    /// Whether the processor was the last word, so that flags may be next.
    pub flags_next: bool,
}

/// The processor that a word names, as `[003]` does.
fn processor(word: &[u8]) -> Option<u32>
    ensures { result ≡ processor_in word.now }
{
    let digits = word.strip_prefix(b"[")?.strip_suffix(b"]")?;
    Some(number(10, u64::from(u32::MAX), digits)? as u32)
}

/// The context that flags tell, where they tell one.
#[tactic(auto, unfolding(crate::specs::Names::context_flag))]
fn context(flags: &[u8]) -> Option<Context>
    ensures { result ≡ context_in flags.now }
{
    match flags.get(2) {
        Some(b'h' | b'H') => Some(Context::Hard),
        Some(b's') => Some(Context::Soft),
        _ => None,
    }
}

impl Head {
    /// Nothing is told yet.
    fn new() -> Head
        ensures { result ≡ no_head }
    {
        Head {
            processor: None,
            context: None,
            flags_next: false,
        }
    }

    /// The head with one more word.
    fn next(self, word: &[u8]) -> Head
        ensures { result ≡ next_head self word.now }
    {
        if let Some(processor) = processor(word) {
            return Head {
                processor: Some(processor),
                context: None,
                flags_next: true,
            };
        }
        Head {
            processor: self.processor,
            context: if self.flags_next {
                context(word)
            } else {
                self.context
            },
            flags_next: false,
        }
    }
}

/// The first event that one of these words names, what stands before it, and the words behind it.
pub fn find<'a, 'b>(words: &'b [&'a [u8]]) -> Option<(EventName, Head, &'b [&'a [u8]])>
    ensures { option_map (λ f. (f.0, (f.1, map (λ w. w.now) f.2.now))) result ≡ first_event no_head (map (λ w. w.now) words.now) }
{
    let mut head = Head::new();
    let mut count = 0;
    for word in words {
        count += 1;
        if let Some(name) = name(word) {
            return Some((name, head, &words[count..]));
        }
        head = head.next(word);
    }
    None
}
