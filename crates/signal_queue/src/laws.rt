//! Laws of a queue's histories.
ghost use Rattle.std.specs.Prelude.{◌≡◌, ◌≤◌, ◌++◌, ◌∷◌, ℕ, [], List, Some, length, slice_get};
ghost use Rattle.signal_queue.specs.declared.signal.Signal.{Signal};
ghost use Rattle.signal_queue.specs.declared.signal.Turn.{Turn};
ghost use Rattle.signal_queue.specs.declared.signal.Turn.TheVariants.{Popped};
ghost use Rattle.signal_queue.specs.Turns.{AreTurns, popped, pushed, waiting_after};

/// A pop takes the signal that waits longest; and what was pushed is what was popped, and then what waits, each signal once; no more wait than there
/// is room for.
pub fn each_pop_takes_the_oldest()
    ensures oldest { (room : ℕ) (before after : List Turn) (s : Signal) → AreTurns room [] (before ++ Popped s ∷ after) → slice_get (waiting_after [] before) 0 ≡ Some s }
    ensures whole { (room : ℕ) (turns : List Turn) → AreTurns room [] turns → pushed turns ≡ popped turns ++ waiting_after [] turns }
    ensures room { (room : ℕ) (turns : List Turn) → AreTurns room [] turns → length (waiting_after [] turns) ≤ room }
{}
