//! The calls that make an entry in an object's history, whatever the object's kind.
use crate::answers::{
    AcceptAnswer, GettimeAnswer, InterruptAnswer, ReadAnswer, SettimeAnswer, SleepAnswer,
};
use crate::arming::Arm;
use crate::settime_call::SettimeCall;
use crate::sleep_call::SleepCall;
use crate::trigger_answer::TriggerAnswer;
use ktime::Reading;

/// A call that makes an entry in an object's history. `arm` is the outcome of the start that the call wanted. A kind of object has some of them.
#[derive(Clone, Copy, Debug, PartialEq, Eq)]
pub enum ObjectCall {
    /// A POSIX timer or a descriptor is set.
    Settime(SettimeCall),
    /// The function of the object's timer runs.
    Trigger { generation: u64, reading: Reading },
    /// The signal of a POSIX timer is accepted.
    Accept { reading: Reading, arm: Arm },
    /// A descriptor is read.
    Read { reading: Reading, arm: Arm },
    /// A descriptor's setting is asked for.
    Gettime { reading: Reading, arm: Arm },
    /// A sleeper falls asleep.
    Sleep(SleepCall),
    /// A sleep is ended, or its end told.
    Interrupt { reading: Reading },
    /// The function of a POSIX timer's high-resolution timer runs, and its queue has no room for the signal.
    Overflow { generation: u64, reading: Reading },
}

/// What such a call answers.
#[derive(Clone, Copy, Debug, PartialEq, Eq)]
pub enum ObjectReply {
    /// The object's kind has no such call.
    None,
    Settime(SettimeAnswer),
    Trigger(TriggerAnswer),
    Accept(AcceptAnswer),
    Read(ReadAnswer),
    Gettime(GettimeAnswer),
    Sleep(SleepAnswer),
    Interrupt(InterruptAnswer),
    /// The signal found no room.
    Full,
}
