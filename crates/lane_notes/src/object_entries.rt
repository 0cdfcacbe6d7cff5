//! The line of an object's entry, whatever the object's kind.
ghost use Rattle.std.specs.Prelude.{◌≡◌};
ghost use Rattle.timer_setting.specs.declared.object_call.ObjectCall.TheVariants as calls;
ghost use Rattle.lane_notes.specs.Objects.{accept_noted, arm_noted, object_entry_noted, interrupt_noted, read_noted, set_noted, skip_generation, sleep_noted, trigger_noted, trigger_skip};

use ktime::Reading;
use record_text::{
    AcceptReply, Armed, InterruptReply, ObjectEntry, ReadReply, SettimeReply, SleepReply,
};
use timer_setting::{
    AcceptAnswer, Arm, GettimeAnswer, InterruptAnswer, ObjectCall, ObjectReply, ReadAnswer,
    SettimeAnswer, SettimeCall, SleepAnswer, SleepCall, TriggerAnswer,
};

/// What is noted of a call on an object: its entry, or the generation of an expiry that a full history refused.
pub(crate) type NoteOrSkip = (Option<ObjectEntry>, Option<u64>);

/// What is noted of a call and its reply, where they belong together.
pub(crate) fn told(call: ObjectCall, reply: ObjectReply) -> NoteOrSkip
    ensures { result ≡ (object_entry_noted call reply, skip_generation call reply) }
{
    match call {
        ObjectCall::Settime(call) => (settime(call, reply), None),
        ObjectCall::Trigger {
            generation,
            reading,
        } => match reply {
            ObjectReply::Trigger(answer) => trigger_noted(generation, reading, answer),
            _ => (None, None),
        },
        ObjectCall::Accept { reading, arm } => (accept(reading, arm, reply), None),
        ObjectCall::Read { reading, arm } => (read(reading, arm, reply), None),
        ObjectCall::Gettime { reading, arm } => (gettime(reading, arm, reply), None),
        ObjectCall::Sleep(call) => (sleep(call, reply), None),
        ObjectCall::Interrupt { reading } => (interrupt(reading, reply), None),
        ObjectCall::Overflow {
            generation,
            reading,
        } => (overflow(generation, reading, reply), None),
    }
}

/// The entry of a settime that made one.
fn settime(call: SettimeCall, reply: ObjectReply) -> Option<ObjectEntry>
    ensures { result ≡ object_entry_noted (calls.Settime call) reply }
{
    let ObjectReply::Settime(answer) = reply else {
        return None;
    };
    let reply = set_noted(answer)?;
    Some(ObjectEntry::Settime {
        flags: call.flags,
        value: call.value,
        interval: call.interval,
        reading: call.reading.stamp,
        arm: arm_noted(call.arm),
        reply,
    })
}

/// What is noted of an expiry: its entry, or its generation where it was refused.
fn trigger_noted(generation: u64, reading: Reading, answer: TriggerAnswer) -> NoteOrSkip
    ensures { result ≡ (trigger_noted generation reading answer, trigger_skip generation answer) }
{
    let counted = match answer {
        TriggerAnswer::Counted => true,
        TriggerAnswer::Stale => false,
        TriggerAnswer::Spent { .. } => return (None, Some(generation)),
    };
    let entry = ObjectEntry::Trigger {
        generation,
        reading: reading.stamp,
        counted,
    };
    (Some(entry), None)
}

/// The entry of an expiry whose signal found no room.
fn overflow(generation: u64, reading: Reading, reply: ObjectReply) -> Option<ObjectEntry>
    ensures { result ≡ object_entry_noted (calls.Overflow generation reading) reply }
{
    let ObjectReply::Full = reply else {
        return None;
    };
    Some(ObjectEntry::Overflow {
        generation,
        reading: reading.stamp,
    })
}

/// The entry of an acceptance that made one.
fn accept(reading: Reading, arm: Arm, reply: ObjectReply) -> Option<ObjectEntry>
    ensures { result ≡ object_entry_noted (calls.Accept reading arm) reply }
{
    let ObjectReply::Accept(answer) = reply else {
        return None;
    };
    let reply = accept_noted(answer)?;
    Some(ObjectEntry::Accept {
        reading: reading.stamp,
        arm: arm_noted(arm),
        reply,
    })
}

/// The entry of a read that made one.
fn read(reading: Reading, arm: Arm, reply: ObjectReply) -> Option<ObjectEntry>
    ensures { result ≡ object_entry_noted (calls.Read reading arm) reply }
{
    let ObjectReply::Read(answer) = reply else {
        return None;
    };
    let reply = read_noted(answer)?;
    Some(ObjectEntry::Read {
        reading: reading.stamp,
        arm: arm_noted(arm),
        reply,
    })
}

/// The entry of a look at the setting that made one.
fn gettime(reading: Reading, arm: Arm, reply: ObjectReply) -> Option<ObjectEntry>
    ensures { result ≡ object_entry_noted (calls.Gettime reading arm) reply }
{
    let ObjectReply::Gettime(GettimeAnswer::Left { left, interval }) = reply else {
        return None;
    };
    Some(ObjectEntry::Gettime {
        reading: reading.stamp,
        arm: arm_noted(arm),
        left,
        interval,
    })
}

/// The entry of a sleep that made one.
fn sleep(call: SleepCall, reply: ObjectReply) -> Option<ObjectEntry>
    ensures { result ≡ object_entry_noted (calls.Sleep call) reply }
{
    let ObjectReply::Sleep(answer) = reply else {
        return None;
    };
    let reply = sleep_noted(answer)?;
    Some(ObjectEntry::Sleep {
        flags: call.flags,
        time: call.time,
        reading: call.reading.stamp,
        arm: arm_noted(call.arm),
        reply,
    })
}

/// The entry of an interrupt that made one.
fn interrupt(reading: Reading, reply: ObjectReply) -> Option<ObjectEntry>
    ensures { result ≡ object_entry_noted (calls.Interrupt reading) reply }
{
    let ObjectReply::Interrupt(answer) = reply else {
        return None;
    };
    let reply = interrupt_noted(answer)?;
    Some(ObjectEntry::Interrupt {
        reading: reading.stamp,
        reply,
    })
}

/// What became of the start that a call wanted.
fn arm_noted(arm: Arm) -> Armed
    ensures { result ≡ arm_noted arm }
{
    match arm {
        Arm::NotAsked => Armed::None,
        Arm::Armed(generation) => Armed::Generation { generation },
        Arm::Unarmed(_) => Armed::Unarmed,
    }
}

/// What a settime that made an entry was answered.
fn set_noted(answer: SettimeAnswer) -> Option<SettimeReply>
    ensures { result ≡ set_noted answer }
{
    match answer {
        SettimeAnswer::Old { left, interval } => Some(SettimeReply::Old { left, interval }),
        SettimeAnswer::Canceled => Some(SettimeReply::Canceled),
        SettimeAnswer::Unarmed { stamp } => Some(SettimeReply::Unarmed { stamp }),
        SettimeAnswer::BadFlags | SettimeAnswer::BadTime | SettimeAnswer::Spent { .. } => None,
    }
}

/// What an acceptance that made an entry was answered.
fn accept_noted(answer: AcceptAnswer) -> Option<AcceptReply>
    ensures { result ≡ accept_noted answer }
{
    match answer {
        AcceptAnswer::Accepted { overrun } => Some(AcceptReply::Accepted { overrun }),
        AcceptAnswer::NoSignal => Some(AcceptReply::NoSignal),
        AcceptAnswer::Spent { .. } => None,
    }
}

/// What a read that made an entry was answered.
fn read_noted(answer: ReadAnswer) -> Option<ReadReply>
    ensures { result ≡ read_noted answer }
{
    match answer {
        ReadAnswer::Count { total } => Some(ReadReply::Count { total }),
        ReadAnswer::Again => Some(ReadReply::Again),
        ReadAnswer::Canceled => Some(ReadReply::Canceled),
        ReadAnswer::ShortBuffer | ReadAnswer::Spent { .. } => None,
    }
}

/// What a sleep that made an entry was answered.
fn sleep_noted(answer: SleepAnswer) -> Option<SleepReply>
    ensures { result ≡ sleep_noted answer }
{
    match answer {
        SleepAnswer::Slept => Some(SleepReply::Slept),
        SleepAnswer::Asleep => Some(SleepReply::Asleep),
        SleepAnswer::Unarmed { stamp } => Some(SleepReply::Unarmed { stamp }),
        SleepAnswer::BadFlags
        | SleepAnswer::BadTime
        | SleepAnswer::Spent { .. }
        | SleepAnswer::Occupied { .. } => None,
    }
}

/// What an interrupt that made an entry was answered.
fn interrupt_noted(answer: InterruptAnswer) -> Option<InterruptReply>
    ensures { result ≡ interrupt_noted answer }
{
    match answer {
        InterruptAnswer::Slept => Some(InterruptReply::Slept),
        InterruptAnswer::Left { ns } => Some(InterruptReply::Left { ns }),
        InterruptAnswer::Interrupted => Some(InterruptReply::Interrupted),
        InterruptAnswer::Spent { .. } | InterruptAnswer::Awake { .. } => None,
    }
}
