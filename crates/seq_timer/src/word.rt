//! Packing a state word, and reading it back.
ghost use Rattle.std.specs.Prelude.{◌≡◌, ◌<◌, ◌*◌, ◌^◌, Some, IfSome, IfNone};
ghost use Rattle.seq_timer.specs.Histories.{peek_of};
ghost use Rattle.seq_timer.specs.declared.observation.Peek as declared;
ghost use Rattle.seq_timer.specs.Words.{IsWord, packed};

use crate::{Peek, TimerState};

/// The word of a timer.
pub fn word_of(timer: &TimerState) -> Peek
    requires base { timer.now.base < 256 }
    ensures word { result ≡ peek_of timer.now }
    ensures fits { IsWord result }
{
    timer.bounded();
    timer.peek()
}

/// A word as a number: bits 0 to 47 the stamp, 48 to 55 the base, 56 enqueued, 57 running, 58 moving.
pub fn pack(word: Peek) -> u64
    requires word { IsWord word }
    ensures { result ≡ packed word }
{
    let flags = u64::from(word.enqueued) + u64::from(word.running) * 2 + u64::from(word.moving) * 4;
    word.stamp + u64::from(word.base) * STAMPS + flags * STAMPS * BASES
}

/// The word that packs to a number. It is `None` where no word does: where one of the bits 59 to 63 is set, or moving beside
/// enqueued or running.
pub fn unpack(number: u64) -> Option<Peek>
    ensures word { IfSome result (λ w. IsWord w × (packed w ≡ number)) }
    ensures back { (w : declared.Peek) → IsWord w → packed w ≡ number → result ≡ Some w }
    ensures none { IfNone result ((w : declared.Peek) → IsWord w → packed w ≡ number → ⊥) }
{
    let flags = number / STAMPS / BASES;
    let word = read(number);
    if flags <= 4 { Some(word) } else { None }
}

/// The word that packs to a number, where one does. Else it says nothing.
pub fn read(number: u64) -> Peek
    ensures back { (w : declared.Peek) → IsWord w → packed w ≡ number → result ≡ w }
    ensures word { number < 5 * 2 ^ 56 → IsWord result × (packed result ≡ number) }
{
    let flags = number / STAMPS / BASES;
    Peek {
        stamp: number % STAMPS,
        base: (number / STAMPS % BASES) as u32,
        enqueued: flags % 2 == 1,
        running: flags / 2 % 2 == 1,
        moving: flags / 4 % 2 == 1,
    }
}

/// Stamps are below this number.
const STAMPS: u64 = 1 << 48;

/// Bases are below this number.
const BASES: u64 = 256;
