//! All calls of a system's handles stand in one history.
ghost use Rattle.std.specs.Prelude.{◌≡◌, ℕ, List, Option, Result, map};
ghost use Rattle.std.specs.List.{AllByRecursion};
ghost use Rattle.ktime.specs.Readings.{ClockReading};
ghost use Rattle.ktime.specs.declared.timespec.TimeSpec.{TimeSpec};
ghost use Rattle.ktime.specs.declared.write.ClockFault.{ClockFault};
ghost use Rattle.ktime.specs.declared.write.Write.{Write};
ghost use Rattle.seq_timer.specs.declared.answer.CancelAnswer.{CancelAnswer};
ghost use Rattle.seq_timer.specs.declared.context.Context.{Context};
ghost use Rattle.seq_timer.specs.declared.observation.Peek.{Peek};
ghost use Rattle.hr_timers.specs.declared.answer.NowAnswer.{NowAnswer};
ghost use Rattle.hr_timers.specs.declared.answer.OfflineAnswer.{OfflineAnswer};
ghost use Rattle.hr_timers.specs.declared.answer.OnlineAnswer.{OnlineAnswer};
ghost use Rattle.hr_timers.specs.declared.answer.StartAnswer.{StartAnswer};
ghost use Rattle.hr_timers.specs.declared.expiry.ExpireAnswer.{ExpireAnswer};
ghost use Rattle.timer_setting.specs.declared.answers.AcceptAnswer.{AcceptAnswer};
ghost use Rattle.timer_setting.specs.declared.answers.InterruptAnswer.{InterruptAnswer};
ghost use Rattle.timer_setting.specs.declared.answers.ReadAnswer.{ReadAnswer};
ghost use Rattle.timer_setting.specs.declared.answers.SettimeAnswer.{SettimeAnswer};
ghost use Rattle.timer_setting.specs.declared.answers.SleepAnswer.{SleepAnswer};
ghost use Rattle.timer_objects.specs.declared.answers.Gettime.{Gettime};
ghost use Rattle.timer_objects.specs.declared.answers.Overrun.{Overrun};
ghost use Rattle.timer_objects.specs.declared.answers.Readable.{Readable};
ghost use Rattle.timer_objects.specs.declared.answers.Slept.{Slept};
ghost use Rattle.timer_objects.specs.declared.signals.NextSignal.{NextSignal};
ghost use Rattle.hulayban.specs.Calls.{DoesAccept, DoesCancel, DoesCancelNow, DoesGetoverrun, DoesGettime, DoesInterrupt, DoesNextSignal, DoesNow, DoesOffline, DoesOnline, DoesPeek, DoesRead, DoesReadable, DoesSettime, DoesSleep, DoesSlept, DoesStart, DoesWrite};
ghost use Rattle.hulayban.specs.Expiries.{DoesNextExpiry};
ghost use Rattle.hulayban.specs.Lanes.{RetiresEach, SplitsEach};
ghost use Rattle.answer_laws.specs.Between.{FunctionsMakeBetween};
ghost use Rattle.answer_laws.specs.Lives.{AreInOneHistory, GoesOnHere, IsLife, Life, last_handle};
ghost use Rattle.hulayban.specs.Serving.{DoesExpire};
ghost use Rattle.hulayban.specs.Systems.{HandleOf, SystemOf};
ghost use Rattle.hulayban.specs.declared.objects.Settime.{Settime};
ghost use Rattle.hulayban.specs.declared.timers.Request.{Request};

use hr_timers::Handler;

/// What each call makes of the one history stands between what its handle had seen before it and what it has seen behind it.
pub fn a_call_stands_in_the_one_history()
    ensures now { (x : SystemOf) (old new : HandleOf) (reading : ClockReading) → DoesNow x old new reading → GoesOnHere x old new }
    ensures write { (x : SystemOf) (old new : HandleOf) (write : Write) (a : Result ClockReading ClockFault)
        → DoesWrite x old new write a → GoesOnHere x old new }
    ensures start { (x : SystemOf) (old new : HandleOf) (timer : ℕ) (request : Request) (a : StartAnswer)
        → DoesStart x old new timer request a → GoesOnHere x old new }
    ensures cancel { (x : SystemOf) (old new : HandleOf) (timer : ℕ) (a : CancelAnswer) → DoesCancel x old new timer a → GoesOnHere x old new }
    ensures cancel_now { (x : SystemOf) (old new : HandleOf) (timer : ℕ) (a : NowAnswer) → DoesCancelNow x old new timer a → GoesOnHere x old new }
    ensures peek { (x : SystemOf) (old new : HandleOf) (timer : ℕ) (a : Peek) → DoesPeek x old new timer a → GoesOnHere x old new }
    ensures next_expiry { (x : SystemOf) (old new : HandleOf) (base : ℕ) (a : Option ℕ) → DoesNextExpiry x old new base a → GoesOnHere x old new }
    ensures offline { (x : SystemOf) (old new : HandleOf) (base heir budget : ℕ) (a : OfflineAnswer)
        → DoesOffline x old new base heir budget a → GoesOnHere x old new }
    ensures online { (x : SystemOf) (old new : HandleOf) (base : ℕ) (a : OnlineAnswer) → DoesOnline x old new base a → GoesOnHere x old new }
    ensures settime { (x : SystemOf) (old new : HandleOf) (id : ℕ) (setting : Settime) (a : SettimeAnswer)
        → DoesSettime x old new id setting a → GoesOnHere x old new }
    ensures gettime { (x : SystemOf) (old new : HandleOf) (id : ℕ) (a : Gettime) → DoesGettime x old new id a → GoesOnHere x old new }
    ensures read { (x : SystemOf) (old new : HandleOf) (id len : ℕ) (a : ReadAnswer) → DoesRead x old new id len a → GoesOnHere x old new }
    ensures accept { (x : SystemOf) (old new : HandleOf) (id : ℕ) (a : AcceptAnswer) → DoesAccept x old new id a → GoesOnHere x old new }
    ensures sleep { (x : SystemOf) (old new : HandleOf) (id flags : ℕ) (time : TimeSpec) (a : SleepAnswer)
        → DoesSleep x old new id flags time a → GoesOnHere x old new }
    ensures interrupt { (x : SystemOf) (old new : HandleOf) (id : ℕ) (a : InterruptAnswer) → DoesInterrupt x old new id a → GoesOnHere x old new }
    ensures readable { (x : SystemOf) (old new : HandleOf) (id : ℕ) (a : Readable) → DoesReadable x old new id a → GoesOnHere x old new }
    ensures getoverrun { (x : SystemOf) (old new : HandleOf) (id : ℕ) (a : Overrun) → DoesGetoverrun x old new id a → GoesOnHere x old new }
    ensures slept { (x : SystemOf) (old new : HandleOf) (id : ℕ) (a : Slept) → DoesSlept x old new id a → GoesOnHere x old new }
    ensures next_signal { (x : SystemOf) (old new : HandleOf) (a : NextSignal) → DoesNextSignal x old new a → GoesOnHere x old new }
{}

/// So does an expiry run, where the caller's functions do.
pub fn an_expiry_run_stands_in_the_one_history<H: Handler>()
    ensures { (x : SystemOf) (old new : HandleOf) (context : Context) (base budget : ℕ) (own own' : H) (a : ExpireAnswer)
        → FunctionsMakeBetween H.meaning x.timers.about → DoesExpire H.meaning x old new context base budget own own' a → GoesOnHere x old new }
{}

/// All calls of all handles stand in one history, where each goes on so. Handles were split off a first one, made their calls, and were taken in again. What a
/// handle has seen before and behind each call begins that history, and the calls of a handle stand in their order. Where the first one is then the only
/// handle, each entry of a timer or a base is one call's, once, and stands between that call's begin and its end, or the first one had made it before.
pub fn all_calls_stand_in_one_history()
    ensures { (x : SystemOf) (old mid new : HandleOf) (lives : List Life) → SplitsEach x old (map (λ (l : Life). l.begun) lives) mid
        → AllByRecursion (IsLife x) lives → RetiresEach x mid (map last_handle lives) new → AreInOneHistory x old new lives }
{}
