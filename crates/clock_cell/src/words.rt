//! A reading as the words of the clock's cell.
ghost use Rattle.std.specs.Prelude.{◌≡◌};
ghost use Rattle.ktime.specs.Readings.{IsTimely};
ghost use Rattle.clock_cell.specs.Words.{cell_words, reading_in};

use ktime::Reading;

pub fn cell_words(reading: &Reading) -> [u64; 5]
    ensures { result ≡ cell_words reading.now }
{
    [
        reading.stamp,
        reading.mono,
        reading.real,
        reading.boot,
        reading.changes,
    ]
}

pub fn reading_in(words: &[u64; 5]) -> Reading
    requires { IsTimely (reading_in words.now) }
    ensures { result ≡ reading_in words.now }
{
    let [stamp, mono, real, boot, changes] = *words;
    Reading {
        stamp,
        mono,
        real,
        boot,
        changes,
    }
}
