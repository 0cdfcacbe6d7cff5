//! The calls on POSIX timers, timer descriptors and sleepers.
ghost use Rattle.std.specs.Prelude.{◌≡◌, ◌≢◌, ◌≤◌, ◌<◌, [], IfOk, OnOk, length};
ghost use Rattle.timer_objects.specs.declared.object.Kind.TheVariants as over;
ghost use Rattle.timer_objects.specs.Calls.{Accepts, Gettimes, Interrupts, LooksOverrun, LooksReadable, LooksSlept, ReadsFd, Settimes, Sleeps};
ghost use Rattle.timer_objects.specs.Known.{decl_at};
ghost use Rattle.timer_setting.specs.declared.answers.AcceptAnswer.{AcceptAnswer};
ghost use Rattle.timer_setting.specs.declared.answers.ReadAnswer.{ReadAnswer};
ghost use Rattle.timer_setting.specs.declared.answers.SettimeAnswer.{SettimeAnswer};
ghost use Rattle.timer_setting.specs.declared.answers.InterruptAnswer.{InterruptAnswer};
ghost use Rattle.timer_setting.specs.declared.answers.SleepAnswer.{SleepAnswer};
ghost use Rattle.timer_objects.specs.declared.answers.Gettime.{Gettime};
ghost use Rattle.timer_objects.specs.declared.answers.Overrun.{Overrun};
ghost use Rattle.timer_objects.specs.declared.answers.Slept.{Slept};
ghost use Rattle.timer_objects.specs.declared.answers.Readable.{Readable};
ghost use Rattle.record_text.specs.declared.record.Answer.TheVariants as answers;
ghost use Rattle.lane_notes.specs.Called.{CallsLook, CallsObject, IsPosixTimer, LeavesLane, LeavesRest, ReadsClock, accept_told, gettime_told, interrupt_told, lane_of, read_told, settime_told, sleep_told, slept_told, with_done, IsSettable, IsOfKind};
ghost use Rattle.lane_notes.specs.Worlds.{ArePassesOf};

use crate::world::World;
use hr_timers::Log;
use ktime::{Reading, TimeSpec};
use lane_notes::{Lane, note_object_receipts, note_receipts};
use record_text::Answer;
use sleeper::SleptAnswer;
use std::alloc::{AllocError, Global};
use std::sync::Wait;
use timer_objects::{Gettime, Kind, ObjectLog, Slept};
use timer_setting::{AcceptAnswer, InterruptAnswer, ReadAnswer, SettimeAnswer, SleepAnswer};

/// The logs of one call, with room for what it can note.
#[derive(Drop)]
pub(crate) struct Logs {
    pub(crate) timers: Log,
    pub(crate) objects: ObjectLog,
}

/// Logs with room for a cancel and a start of the timer, with an Out to each base that it is sent to, and the entry of the object.
pub(crate) fn make_logs(alloc: Global) -> Result<Logs, AllocError>
    ensures empty { IfOk result (λ l. (l.timers.receipts ≡ []) × (l.objects.receipts ≡ [])) }
    ensures room { IfOk result (λ l. (68 ≤ l.timers.spare) × (1 ≤ l.objects.spare)) }
{
    let mut logs = Logs {
        timers: Log::make(alloc),
        objects: ObjectLog::make(alloc),
    };
    logs.timers.reserve(68)?;
    logs.objects.reserve(1)?;
    Ok(logs)
}

/// Notes what a call has logged.
pub(crate) fn note_logs(lane: &mut Lane, logs: &Logs) -> Result<(), AllocError>
    ensures rest { LeavesRest lane.old lane.new }
    ensures notes { OnOk result (lane.new.notes ≡ with_done lane.old.notes lane.old.label logs.now.timers.receipts logs.now.objects.receipts) }
{
    let label = lane.label;
    note_receipts(&mut lane.notes, label, logs.timers.receipts())?;
    note_object_receipts(&mut lane.notes, label, logs.objects.receipts())
}

/// A call on an object by a lane's passes, with these logs.
macro_rules! on_object {
    ($rt:ident, $world:ident, $lane:ident, $log:expr, $object_log:expr; $call:ident($($word:ident),+)) => {
        $world.objects.$call(
            $rt,
            &$world.timers,
            &mut $lane.pass.timers,
            &mut $lane.pass.objects,
            &mut $log,
            &mut $object_log,
            $($word),+
        )
    };
}

/// A call on an object by a reading of the clock, with logs of its own, and the notes of these.
macro_rules! noted {
    ($rt:ident, $alloc:ident, $world:ident, $lane:ident, $reading:ident; $call:ident($($word:ident),+)) => {{
        let mut logs = make_logs($alloc)?;
        let answer = on_object!($rt, $world, $lane, logs.timers, logs.objects; $call($($word),+, $reading));
        note_logs($lane, &logs)?;
        answer
    }};
}

/// A settime.
pub(crate) fn settime<R: Wait>(
    rt: &R,
    alloc: Global,
    world: &World,
    lane: &mut Lane,
    timer: u32,
    flags: u64,
    value: TimeSpec,
    interval: TimeSpec,
    reading: Reading,
) -> Result<Answer, AllocError>
    requires pass { ArePassesOf world.now lane.old.pass }
    requires reading { ReadsClock lane.old.pass lane.old.pass reading }
    requires object { IsSettable world.now timer }
    ensures leaves { LeavesLane world.now lane.old lane.new }
    ensures call { IfOk result (λ a. (s : SettimeAnswer) × (a ≡ settime_told s) × CallsObject world.now (lane_of lane.old) (lane_of lane.new) a (λ old new reading. Settimes world.now.objects world.now.timers.about old new timer flags value interval reading s)) }
{
    let answer = noted!(rt, alloc, world, lane, reading; settime(timer, flags, value, interval));
    Ok(settime_answer(answer))
}

/// What a settime answers.
fn settime_answer(answer: SettimeAnswer) -> Answer
    ensures { result ≡ settime_told answer }
{
    match answer {
        SettimeAnswer::Old { left, interval } => Answer::Old { left, interval },
        SettimeAnswer::BadFlags | SettimeAnswer::BadTime => Answer::Invalid,
        SettimeAnswer::Spent { stamp } => Answer::Spent { stamp },
        SettimeAnswer::Unarmed { stamp } => Answer::Unarmed { stamp },
        SettimeAnswer::Canceled => Answer::Canceled,
    }
}

/// A gettime: a look at a POSIX timer, an entry of a descriptor.
pub(crate) fn gettime<R: Wait>(
    rt: &R,
    alloc: Global,
    world: &World,
    lane: &mut Lane,
    timer: u32,
    reading: Reading,
) -> Result<Answer, AllocError>
    requires pass { ArePassesOf world.now lane.old.pass }
    requires reading { ReadsClock lane.old.pass lane.old.pass reading }
    requires object { IsSettable world.now timer }
    ensures leaves { LeavesLane world.now lane.old lane.new }
    ensures call { IfOk result (λ a. (g : Gettime) × CallsObject world.now (lane_of lane.old) (lane_of lane.new) a (λ old new reading. Gettimes world.now.objects world.now.timers.about old new timer reading (decl_at world.now.objects timer).kind g × (a ≡ gettime_told (decl_at world.now.objects timer).kind reading.stamp g))) }
{
    let answer = noted!(rt, alloc, world, lane, reading; gettime(timer));
    Ok(gettime_answer(answer, world.objects.kind(timer), reading.stamp))
}

/// What a gettime by this reading answers.
fn gettime_answer(answer: Gettime, kind: Kind, reading: u64) -> Answer
    ensures { result ≡ gettime_told kind reading answer }
{
    match (answer, kind) {
        (Gettime::Spent { stamp }, _) => Answer::Spent { stamp },
        (Gettime::Left { left, interval, .. }, Kind::Fd) => Answer::Left { left, interval },
        (
            Gettime::Left {
                left,
                interval,
                stamp,
            },
            Kind::Raw | Kind::Posix | Kind::Sleeper | Kind::Queued,
        ) => Answer::LeftAt {
            left,
            interval,
            reading,
            stamp,
        },
    }
}

/// The acceptance of a POSIX timer's signal.
pub(crate) fn accept<R: Wait>(
    rt: &R,
    alloc: Global,
    world: &World,
    lane: &mut Lane,
    timer: u32,
    reading: Reading,
) -> Result<Answer, AllocError>
    requires pass { ArePassesOf world.now lane.old.pass }
    requires reading { ReadsClock lane.old.pass lane.old.pass reading }
    requires kind { IsPosixTimer world.now timer }
    ensures leaves { LeavesLane world.now lane.old lane.new }
    ensures call { IfOk result (λ a. (s : AcceptAnswer) × (a ≡ accept_told s) × CallsObject world.now (lane_of lane.old) (lane_of lane.new) a (λ old new reading. Accepts world.now.objects world.now.timers.about old new timer reading s)) }
{
    let answer = noted!(rt, alloc, world, lane, reading; accept(timer));
    Ok(accept_answer(answer))
}

/// What the acceptance of a signal answers.
fn accept_answer(answer: AcceptAnswer) -> Answer
    ensures { result ≡ accept_told answer }
{
    match answer {
        AcceptAnswer::Accepted { overrun } => Answer::Accepted { overrun },
        AcceptAnswer::NoSignal => Answer::NoSignal,
        AcceptAnswer::Spent { stamp } => Answer::Spent { stamp },
    }
}

/// A read of a descriptor.
pub(crate) fn read<R: Wait>(
    rt: &R,
    alloc: Global,
    world: &World,
    lane: &mut Lane,
    timer: u32,
    len: u64,
    reading: Reading,
) -> Result<Answer, AllocError>
    requires pass { ArePassesOf world.now lane.old.pass }
    requires reading { ReadsClock lane.old.pass lane.old.pass reading }
    requires kind { IsOfKind world.now over.Fd timer }
    ensures leaves { LeavesLane world.now lane.old lane.new }
    ensures call { IfOk result (λ a. (s : ReadAnswer) × (a ≡ read_told s) × CallsObject world.now (lane_of lane.old) (lane_of lane.new) a (λ old new reading. ReadsFd world.now.objects world.now.timers.about old new timer len reading s)) }
{
    let answer = noted!(rt, alloc, world, lane, reading; read(timer, len));
    Ok(read_answer(answer))
}

/// What a read answers.
fn read_answer(answer: ReadAnswer) -> Answer
    ensures { result ≡ read_told answer }
{
    match answer {
        ReadAnswer::Count { total } => Answer::Count { total },
        ReadAnswer::ShortBuffer => Answer::Invalid,
        ReadAnswer::Spent { stamp } => Answer::Spent { stamp },
        ReadAnswer::Canceled => Answer::Canceled,
        ReadAnswer::Again => Answer::Again,
    }
}

/// The overrun of the last accepted signal.
pub(crate) fn overrun<R: Wait>(
    rt: &R,
    alloc: Global,
    world: &World,
    lane: &mut Lane,
    timer: u32,
) -> Answer
    requires pass { ArePassesOf world.now lane.old.pass }
    requires kind { IsPosixTimer world.now timer }
    ensures leaves { LeavesLane world.now lane.old lane.new }
    ensures call { (found : Overrun) × CallsLook world.now (lane_of lane.old) (lane_of lane.new) result (λ old new. LooksOverrun old new timer found) (answers.Overrun found.overrun found.stamp) }
{
    let mut log = Log::make(alloc);
    let mut object_log = ObjectLog::make(alloc);
    let found = on_object!(rt, world, lane, log, object_log; getoverrun(timer));
    Answer::Overrun {
        overrun: found.overrun,
        stamp: found.stamp,
    }
}

/// Whether a descriptor is ready to be read.
pub(crate) fn readable<R: Wait>(
    rt: &R,
    alloc: Global,
    world: &World,
    lane: &mut Lane,
    timer: u32,
    reading: Reading,
) -> Answer
    requires pass { ArePassesOf world.now lane.old.pass }
    requires reading { ReadsClock lane.old.pass lane.old.pass reading }
    requires kind { IsOfKind world.now over.Fd timer }
    ensures leaves { LeavesLane world.now lane.old lane.new }
    ensures call { (found : Readable) × CallsObject world.now (lane_of lane.old) (lane_of lane.new) result (λ old new reading. LooksReadable old new timer reading found × (result ≡ answers.Readable found.ready reading.stamp found.stamp)) }
{
    let mut log = Log::make(alloc);
    let mut object_log = ObjectLog::make(alloc);
    let found = on_object!(rt, world, lane, log, object_log; readable(timer, reading));
    Answer::Readable {
        ready: found.ready,
        reading: reading.stamp,
        stamp: found.stamp,
    }
}

/// A sleep.
pub(crate) fn sleep<R: Wait>(
    rt: &R,
    alloc: Global,
    world: &World,
    lane: &mut Lane,
    timer: u32,
    flags: u64,
    time: TimeSpec,
    reading: Reading,
) -> Result<Answer, AllocError>
    requires pass { ArePassesOf world.now lane.old.pass }
    requires reading { ReadsClock lane.old.pass lane.old.pass reading }
    requires kind { IsOfKind world.now over.Sleeper timer }
    ensures leaves { LeavesLane world.now lane.old lane.new }
    ensures call { IfOk result (λ a. (s : SleepAnswer) × (a ≡ sleep_told s) × CallsObject world.now (lane_of lane.old) (lane_of lane.new) a (λ old new reading. Sleeps world.now.objects world.now.timers.about old new timer flags time reading s)) }
{
    let answer = noted!(rt, alloc, world, lane, reading; sleep(timer, flags, time));
    Ok(sleep_answer(answer))
}

/// What a sleep answers.
fn sleep_answer(answer: SleepAnswer) -> Answer
    ensures { result ≡ sleep_told answer }
{
    match answer {
        SleepAnswer::Slept => Answer::Slept,
        SleepAnswer::Asleep => Answer::Asleep,
        SleepAnswer::Unarmed { stamp } => Answer::Unarmed { stamp },
        SleepAnswer::Spent { stamp } => Answer::Spent { stamp },
        SleepAnswer::Occupied { stamp } => Answer::Occupied { stamp },
        SleepAnswer::BadFlags | SleepAnswer::BadTime => Answer::Invalid,
    }
}

/// The end of a sleep by a signal.
pub(crate) fn interrupt<R: Wait>(
    rt: &R,
    alloc: Global,
    world: &World,
    lane: &mut Lane,
    timer: u32,
    reading: Reading,
) -> Result<Answer, AllocError>
    requires pass { ArePassesOf world.now lane.old.pass }
    requires reading { ReadsClock lane.old.pass lane.old.pass reading }
    requires kind { IsOfKind world.now over.Sleeper timer }
    ensures leaves { LeavesLane world.now lane.old lane.new }
    ensures call { IfOk result (λ a. (s : InterruptAnswer) × (a ≡ interrupt_told s) × CallsObject world.now (lane_of lane.old) (lane_of lane.new) a (λ old new reading. Interrupts world.now.objects world.now.timers.about old new timer reading s)) }
{
    let answer = noted!(rt, alloc, world, lane, reading; interrupt(timer));
    Ok(interrupt_answer(answer))
}

/// What an interrupt answers.
fn interrupt_answer(answer: InterruptAnswer) -> Answer
    ensures { result ≡ interrupt_told answer }
{
    match answer {
        InterruptAnswer::Slept => Answer::Slept,
        InterruptAnswer::Left { ns } => Answer::SleepLeft { ns },
        InterruptAnswer::Interrupted => Answer::Interrupted,
        InterruptAnswer::Spent { stamp } => Answer::Spent { stamp },
        InterruptAnswer::Awake { stamp } => Answer::Awake { stamp },
    }
}

/// How a sleeper is.
pub(crate) fn slept<R: Wait>(
    rt: &R,
    alloc: Global,
    world: &World,
    lane: &mut Lane,
    timer: u32,
) -> Answer
    requires pass { ArePassesOf world.now lane.old.pass }
    requires kind { IsOfKind world.now over.Sleeper timer }
    ensures leaves { LeavesLane world.now lane.old lane.new }
    ensures call { (found : Slept) × CallsLook world.now (lane_of lane.old) (lane_of lane.new) result (λ old new. LooksSlept old new timer found) (slept_told found.answer found.stamp) }
{
    let mut log = Log::make(alloc);
    let mut object_log = ObjectLog::make(alloc);
    let found = on_object!(rt, world, lane, log, object_log; slept(timer));
    slept_answer(found)
}

/// What a look at a sleeper answers.
fn slept_answer(found: Slept) -> Answer
    ensures { result ≡ slept_told found.answer found.stamp }
{
    let stamp = found.stamp;
    match found.answer {
        SleptAnswer::Sleeping => Answer::Sleeping { stamp },
        SleptAnswer::Slept => Answer::SleptAt { stamp },
        SleptAnswer::Awake => Answer::Awake { stamp },
    }
}
