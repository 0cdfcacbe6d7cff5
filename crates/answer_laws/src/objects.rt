//! Calls on objects.
ghost use Rattle.std.specs.Prelude.{◌≡◌, ℕ};
ghost use Rattle.ktime.specs.Readings.{ClockReading};
ghost use Rattle.base_row.specs.declared.view.Opening.{Opening};
ghost use Rattle.timer_objects.specs.BlockingReads.{ReadsBlocking};
ghost use Rattle.timer_objects.specs.Calls.{Accepts, Caller, Gettimes, Interrupts, LooksOverrun, LooksReadable, LooksSlept, ReadsFd, SettimeMade, SleepMade};
ghost use Rattle.timer_objects.specs.Known.{ObjectsOf, ObjectsPass, seen_of};
ghost use Rattle.timer_objects.specs.Rearming.{FindsObject};
ghost use Rattle.timer_objects.specs.declared.answers.Overrun as overruns;
ghost use Rattle.timer_objects.specs.declared.answers.Readable as readables;
ghost use Rattle.timer_objects.specs.declared.answers.Slept as slepts;
ghost use Rattle.timer_objects.specs.declared.answers.BlockingRead as blocking;
ghost use Rattle.timer_objects.specs.declared.answers.Gettime as gettimes;
ghost use Rattle.timer_objects.specs.declared.object.Kind as kinds;
ghost use Rattle.timer_objects.specs.declared.object.Object as objects;
ghost use Rattle.timer_setting.specs.declared.answers.AcceptAnswer as acceptances;
ghost use Rattle.timer_setting.specs.declared.answers.InterruptAnswer as interrupts;
ghost use Rattle.timer_setting.specs.declared.answers.ReadAnswer as reads;
ghost use Rattle.timer_setting.specs.declared.answers.SettimeAnswer as settings;
ghost use Rattle.timer_setting.specs.declared.answers.SleepAnswer as sleeps;
ghost use Rattle.signal_queue.specs.Rules.{turns};
ghost use Rattle.signal_queue.specs.declared.view.QueueView as queue;
ghost use Rattle.timer_objects.specs.Signals.{TakesNext};
ghost use Rattle.timer_objects.specs.declared.signals.NextSignal as nexts;
ghost use Rattle.answer_laws.specs.ObjectReads.{blocking_at, next_at};
ghost use Rattle.answer_laws.specs.Rows.{SameOfRow, SamePlaces};
ghost use Rattle.answer_laws.specs.Objects.{AreOne, SameCaller, SameWork, accept_at, gettime_at, interrupt_at, read_at, settime_at, sleep_at};

/// At one moment a settime with valid arguments has one answer, makes the same entries, and notes the same receipts.
pub fn a_settime_is_fixed()
    ensures { (x : ObjectsOf) (o : Opening) (old new new' : Caller) (id flags value interval : ℕ) (reading : ClockReading) (a a' : settings.SettimeAnswer)
        (c : SettimeMade x o old new id flags value interval reading a) (d : SettimeMade x o old new' id flags value interval reading a')
        → AreOne (settime_at x o old new id flags value interval reading a c) (settime_at x o old new' id flags value interval reading a' d)
        → (a ≡ a') × SameWork new new' id }
{}

/// At one moment a sleep with valid arguments has one answer, makes the same entries, and notes the same receipts.
pub fn a_sleep_is_fixed()
    ensures { (x : ObjectsOf) (o : Opening) (old new new' : Caller) (id flags time : ℕ) (reading : ClockReading) (a a' : sleeps.SleepAnswer)
        (c : SleepMade x o old new id flags time reading a) (d : SleepMade x o old new' id flags time reading a')
        → AreOne (sleep_at x o old new id flags time reading a c) (sleep_at x o old new' id flags time reading a' d) → (a ≡ a') × SameWork new new' id }
{}

/// At one moment an interrupt has one answer, makes the same entries, and notes the same receipts.
pub fn an_interrupt_is_fixed()
    ensures { (x : ObjectsOf) (o : Opening) (old new new' : Caller) (id : ℕ) (reading : ClockReading) (a a' : interrupts.InterruptAnswer)
        (c : Interrupts x o old new id reading a) (d : Interrupts x o old new' id reading a')
        → AreOne (interrupt_at x o old new id reading a c) (interrupt_at x o old new' id reading a' d) → (a ≡ a') × SameWork new new' id }
{}

/// At one moment an accept has one answer, makes the same entries, and notes the same receipts.
pub fn an_accept_is_fixed()
    ensures { (x : ObjectsOf) (o : Opening) (old new new' : Caller) (id : ℕ) (reading : ClockReading) (a a' : acceptances.AcceptAnswer)
        (c : Accepts x o old new id reading a) (d : Accepts x o old new' id reading a')
        → AreOne (accept_at x o old new id reading a c) (accept_at x o old new' id reading a' d) → (a ≡ a') × SameWork new new' id }
{}

/// At one moment a read has one answer, makes the same entries, and notes the same receipts (`at_once`). So has one that waits, by the reading at which it
/// ends (`waits`). How long it waits is free.
pub fn a_read_is_fixed()
    ensures at_once { (x : ObjectsOf) (o : Opening) (old new new' : Caller) (id len : ℕ) (reading : ClockReading) (a a' : reads.ReadAnswer)
        (c : ReadsFd x o old new id len reading a) (d : ReadsFd x o old new' id len reading a')
        → AreOne (read_at x o old new id len reading a c) (read_at x o old new' id len reading a' d) → (a ≡ a') × SameWork new new' id }
    ensures waits { (x : ObjectsOf) (o : Opening) (old new new' : Caller) (id len : ℕ) (reading : ClockReading) (a a' : blocking.BlockingRead)
        (c : ReadsBlocking x o old new id len reading a) (d : ReadsBlocking x o old new' id len reading a')
        → AreOne (blocking_at x o old new id len reading a c) (blocking_at x o old new' id len reading a' d) → (a ≡ a') × SameWork new new' id }
{}

/// At one moment a gettime has one answer. Of a descriptor it makes the same entries; of a POSIX timer it is a look.
pub fn a_gettime_is_fixed()
    ensures { (x : ObjectsOf) (o : Opening) (old new new' : Caller) (id : ℕ) (reading : ClockReading) (kind : kinds.Kind) (a a' : gettimes.Gettime)
        (c : Gettimes x o old new id reading kind a) (d : Gettimes x o old new' id reading kind a')
        → AreOne (gettime_at x o old new id reading kind a c) (gettime_at x o old new' id reading kind a' d) → (a ≡ a') × SameWork new new' id }
{}

/// After one history of an object a look finds one object, with one count of entries, and tells one thing of it.
pub fn a_look_at_an_object_is_fixed()
    ensures finds { (p q q' : ObjectsPass) (id : ℕ) (object object' : objects.Object) (n n' : ℕ) → FindsObject p q id object n
        → FindsObject p q' id object' n' → seen_of q id ≡ seen_of q' id → (object ≡ object') × (n ≡ n') × SameOfRow q q' }
    ensures readable { (old new new' : Caller) (id : ℕ) (reading : ClockReading) (a a' : readables.Readable) → LooksReadable old new id reading a
        → LooksReadable old new' id reading a' → seen_of new.objects id ≡ seen_of new'.objects id → (a ≡ a') × SameWork new new' id }
    ensures overrun { (old new new' : Caller) (id : ℕ) (a a' : overruns.Overrun) → LooksOverrun old new id a → LooksOverrun old new' id a'
        → seen_of new.objects id ≡ seen_of new'.objects id → (a ≡ a') × SameWork new new' id }
    ensures slept { (old new new' : Caller) (id : ℕ) (a a' : slepts.Slept) → LooksSlept old new id a → LooksSlept old new' id a'
        → seen_of new.objects id ≡ seen_of new'.objects id → (a ≡ a') × SameWork new new' id }
{}

/// After the same turns of the queue, and at one moment of the signal's timer, the next signal is one, and one thing becomes of it.
pub fn a_next_signal_is_fixed()
    ensures { (x : ObjectsOf) (o : Opening) (old new new' : Caller) (s t t' : queue.QueueView) (reading : ClockReading) (a a' : nexts.NextSignal)
        (c : TakesNext x o old new s t reading a) (d : TakesNext x o old new' s t' reading a')
        → (next_at x o old new s t reading a c).popped ≡ (next_at x o old new' s t' reading a' d).popped
        → AreOne (next_at x o old new s t reading a c).object (next_at x o old new' s t' reading a' d).object
        → (a ≡ a') × SameCaller new new' × (turns t ≡ turns t') × SamePlaces t.pass t'.pass }
{}
