//! What holds of all words.
ghost use Rattle.std.specs.Prelude.{◌≡◌, ◌<◌, ◌^◌};
ghost use Rattle.seq_timer.specs.declared.observation.Peek.{Peek};
ghost use Rattle.seq_timer.specs.Words.{IsWord, packed};

/// Two words that pack to one number are the same, and the number fits into 59 bits.
pub fn one_word_one_number()
    ensures same { (w v : Peek) → IsWord w → IsWord v → packed w ≡ packed v → w ≡ v }
    ensures short { (w : Peek) → IsWord w → packed w < 2 ^ 59 }
{}
