//! Calls of a queue of signals.
ghost use Rattle.std.specs.Prelude.{◌≡◌, ℕ, Option};
ghost use Rattle.signal_queue.specs.Calls.{PopsSignal, PushesSignal};
ghost use Rattle.signal_queue.specs.Rules.{turns};
ghost use Rattle.signal_queue.specs.Views.{KnowsQueue};
ghost use Rattle.signal_queue.specs.declared.signal.Signal as signal;
ghost use Rattle.signal_queue.specs.declared.signals.Push as pushing;
ghost use Rattle.signal_queue.specs.declared.view.QueueView as view;
ghost use Rattle.answer_laws.specs.Rows.{SamePlaces};
ghost use Rattle.answer_laws.specs.Signals.{pop_moment, push_moment};

/// After the same turns of the queue a push has one answer: it found room or not. The room is that of the pass's queue.
pub fn a_push_is_fixed()
    ensures { (room : ℕ) (v w w' : view.QueueView) (s : signal.Signal) (a a' : pushing.Push) (p : PushesSignal room v w s a) (q : PushesSignal room v w' s a')
        → w.room ≡ room → w'.room ≡ room → push_moment room v w s a p ≡ push_moment room v w' s a' q
        → (a ≡ a') × (turns w ≡ turns w') × SamePlaces w.pass w'.pass }
{}

/// After the same turns of the queue a pop has one answer: the signal that waited longest, or none.
pub fn a_pop_is_fixed()
    ensures { (v w w' : view.QueueView) (a a' : Option signal.Signal) (p : PopsSignal v w a) (q : PopsSignal v w' a')
        → KnowsQueue w → KnowsQueue w' → pop_moment v w a p ≡ pop_moment v w' a' q → (a ≡ a') × (turns w ≡ turns w') × SamePlaces w.pass w'.pass }
{}
