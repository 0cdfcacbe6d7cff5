//! What the functions of a handler's timers do.
ghost use Rattle.std.specs.Prelude.{◌≡◌, ℕ, List};
ghost use Rattle.ktime.specs.Readings.{ClockReading};
ghost use Rattle.base_row.specs.declared.log.Receipt.{Receipt};
ghost use Rattle.base_row.specs.declared.view.Opening.{Opening};
ghost use Rattle.hr_timers.specs.declared.handler.Restart as restarts;
ghost use Rattle.hr_timers.specs.Known.{KnownOfTimers};
ghost use Rattle.hr_timers.specs.declared.numbers.ClaimNumbers as claimed;
ghost use Rattle.signal_queue.specs.Rules.{turns};
ghost use Rattle.signal_queue.specs.declared.view.QueueView as queue;
ghost use Rattle.timer_objects.specs.Callbacks.{RunsCallback};
ghost use Rattle.timer_objects.specs.Known.{ObjectsOf, ObjectsPass, seen_of};
ghost use Rattle.timer_objects.specs.Signals.{FiresQueued};
ghost use Rattle.timer_objects.specs.Triggers.{Triggers};
ghost use Rattle.timer_objects.specs.declared.callback.Callback as callbacks;
ghost use Rattle.timer_objects.specs.declared.log.ObjectReceipt as noted;
ghost use Rattle.timer_setting.specs.declared.object_call.ObjectCall as calls;
ghost use Rattle.answer_laws.specs.ObjectReads.{callback_moment, queued_at, trigger_at};
ghost use Rattle.answer_laws.specs.Outcomes.{SameOwn};
ghost use Rattle.answer_laws.specs.Rows.{SameOfRow, SamePlaces};

/// After one history of its object a trigger is entered or refused, and one receipt is noted.
pub fn a_trigger_is_fixed()
    ensures { (x : ObjectsOf) (p q q' : ObjectsPass) (log l l' : List noted.ObjectReceipt) (v w w' : KnownOfTimers) (n : claimed.ClaimNumbers)
        (call : calls.ObjectCall) (c : Triggers x p q log l v w n call) (d : Triggers x p q' log l' v w' n call)
        → trigger_at x p q log l v w n call c ≡ trigger_at x p q' log l' v w' n call d
        → (l ≡ l') × SameOfRow q q' × SameOwn w w' × (seen_of q n.timer ≡ seen_of q' n.timer) }
{}

/// After one history of a queued timer, and the same turns of the queue, its expiry sends a signal, or finds no room, or is refused.
pub fn a_queued_expiry_is_fixed()
    ensures { (o : Opening) (x : ObjectsOf) (p q q' : ObjectsPass) (log l l' : List noted.ObjectReceipt) (v w w' : KnownOfTimers)
        (s t t' : queue.QueueView) (id g : ℕ) (reading : ClockReading) (c : FiresQueued o x p q log l v w s t id g reading)
        (d : FiresQueued o x p q' log l' v w' s t' id g reading)
        → queued_at x p q log l v w o s t id g reading c ≡ queued_at x p q' log l' v w' o s t' id g reading d
        → ((l ≡ l') × SameOfRow q q' × SameOwn w w' × (seen_of q id ≡ seen_of q' id)) × (turns t ≡ turns t') × SamePlaces t.pass t'.pass }
{}

/// At one moment, and sent to the same bases, the callback of a timer by itself makes the same entries and notes the same receipts.
pub fn a_callback_is_fixed()
    ensures { (o : Opening) (v w w' : KnownOfTimers) (n : claimed.ClaimNumbers) (reading : ClockReading) (log l l' : List Receipt) (k : callbacks.Callback)
        (a a' : restarts.Restart) (c : RunsCallback o v w n reading log l k a) (d : RunsCallback o v w' n reading log l' k a')
        → callback_moment o v w n reading log l k a c ≡ callback_moment o v w' n reading log l' k a' d → (a ≡ a') × (l ≡ l') × SameOwn w w' }
{}
