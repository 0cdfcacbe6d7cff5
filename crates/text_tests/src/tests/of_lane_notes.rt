//! Tests of notes and of the record that is made of them.
use crate::tests::of_record_text::shows;
use hr_timers::{Noted, Receipt};
use ktime::{ClockId, Mode, Reading, Write};
use lane_notes::{BaseNote, Notes, note_object_receipts, note_receipts, record_of};
use posix_timer::{AcceptAnswer, Arm, TriggerAnswer};
use record_text::{ClockLine, Label, Version};
use seq_timer::{Asked, BaseEvent, Event, Moved, Observation, Placement, Reply, Restarted};
use std::alloc::{AllocError, Global};
use timer_fd::GettimeAnswer;
use timer_objects::{ObjectCall, ObjectReceipt, ObjectReply};

fn label(lane: u32, call: u32) -> Label {
    Label { lane, call }
}

fn entry(timer: u32, number: u64, event: Event, reply: Reply) -> Receipt {
    Receipt {
        timer,
        number,
        event,
        reply: Noted::Entry(reply),
    }
}

fn start(timer: u32, was_armed: bool) -> Receipt {
    let asked = Asked {
        mode: Mode::Abs,
        ns: 100,
        slack: 50,
        reading: Reading::at(7),
        base: 2,
    };
    let placement = Placement {
        base: 2,
        clock: ClockId::Monotonic,
        soft: 100,
        expires: 150,
    };
    let reply = Reply::Start {
        placement,
        was_armed,
    };
    entry(timer, 1, Event::Start(asked), reply)
}

fn claim() -> Receipt {
    let event = Event::Claim {
        base: 2,
        reading: Reading::at(100),
    };
    entry(0, 2, event, Reply::Claim { generation: 1 })
}

fn forward() -> Receipt {
    let event = Event::Forward {
        reading: Reading::at(101),
        interval: 50,
    };
    let moved = Moved {
        count: 1,
        soft: 150,
        expires: 200,
    };
    entry(0, 3, event, Reply::Forward { moved })
}

fn finish() -> Receipt {
    let reply = Reply::Finish {
        generation: 1,
        restarted: Restarted::Again { generation: 4 },
    };
    entry(0, 4, Event::Finish { restart: true }, reply)
}

/// What a callback was told after the second entry.
fn look(observation: Observation) -> Receipt {
    Receipt {
        timer: 0,
        number: 2,
        event: Event::Cancel,
        reply: Noted::Look(observation),
    }
}

fn write(time: u64, lane: u32) -> ClockLine {
    ClockLine {
        label: label(lane, 0),
        write: Write::Advance { by: 5 },
        mono: time,
        real: time,
        boot: time,
        changes: 0,
    }
}

/// An entry of base 1.
fn shift(call: u32, number: u64, event: BaseEvent) -> BaseNote {
    BaseNote {
        label: label(0, call),
        base: 1,
        number,
        event,
    }
}

/// The notes of one lane's calls, which wrote the clock second, and put a base on line again.
fn first_lane(alloc: Global) -> Result<Notes, AllocError> {
    let mut notes = Notes::new(alloc);
    notes.note_write(2, write(10, 0))?;
    let receipts = [
        finish(),
        look(Observation::Running { generation: 1 }),
        look(Observation::Idle),
        claim(),
    ];
    note_receipts(&mut notes, label(1, 0), &receipts)?;
    notes.note_base(shift(9, 2, BaseEvent::Online))?;
    Ok(notes)
}

/// The notes of another lane's calls, which wrote the clock first, and took the base off line. There is no timer 7.
fn second_lane(alloc: Global) -> Result<Notes, AllocError> {
    let mut notes = Notes::new(alloc);
    notes.note_write(1, write(5, 3))?;
    notes.note_base(shift(4, 1, BaseEvent::Offline { heir: 0 }))?;
    let receipts = [
        look(Observation::Spent),
        start(0, false),
        forward(),
        start(1, true),
        start(7, true),
    ];
    note_receipts(&mut notes, label(0, 5), &receipts)?;
    Ok(notes)
}

const RECORD: &str = "record 2
clock 1 3 0 advance 5 5 5 5 0
clock 2 0 0 advance 5 10 10 10 0
base 1 1 0 4 offline 0
base 1 2 0 9 online
timer 0 1 0 5 start abs 100 50 0 2 2 monotonic 100 150 0
timer 0 2 1 0 claim 2 0 1
look 0 2 0 5 spent
look 0 2 1 0 running 1
timer 0 3 0 5 forward 0 50 1 150 200
timer 0 4 1 0 finish again 1 4
timer 1 1 0 5 start abs 100 50 0 2 2 monotonic 100 150 1
end
";

#[test]
fn notes_out_of_order_make_the_record(rt: HostRuntime) -> Result<(), AllocError> {
    let alloc = rt.alloc();
    let mut notes = Notes::new(alloc);
    notes.append(first_lane(alloc)?)?;
    notes.append(second_lane(alloc)?)?;
    let record = record_of(alloc, Version::Two, notes, 2, 2, Vec::new(alloc))?;
    shows(&rt, alloc, &record, RECORD)
}

fn of_object(object: u32, number: u64, call: ObjectCall, reply: ObjectReply) -> ObjectReceipt {
    ObjectReceipt {
        object,
        number,
        call,
        reply,
    }
}

/// An expiry of a POSIX timer.
fn trigger(number: u64, generation: u64, answer: TriggerAnswer) -> ObjectReceipt {
    let call = ObjectCall::Trigger {
        generation,
        reading: Reading::at(100),
    };
    of_object(1, number, call, ObjectReply::Trigger(answer))
}

/// An acceptance of its signal.
fn accept() -> ObjectReceipt {
    let call = ObjectCall::Accept {
        reading: Reading::at(100),
        arm: Arm::Armed(5),
    };
    let reply = ObjectReply::Accept(AcceptAnswer::Accepted { overrun: 2 });
    of_object(1, 2, call, reply)
}

/// A look at a descriptor's setting.
fn gettime() -> ObjectReceipt {
    let call = ObjectCall::Gettime {
        reading: Reading::at(40),
        arm: Arm::NotAsked,
    };
    let reply = ObjectReply::Gettime(GettimeAnswer::Left {
        left: 60,
        interval: 10,
    });
    of_object(0, 1, call, reply)
}

const OBJECTS: &str = "record 1
object 0 1 1 4 gettime 0 none 60 10
object 1 1 1 4 trigger 3 0 counted
object 1 2 1 4 accept 0 5 accepted 2
skip 1 2 1 4 5
end
";

#[test]
fn receipts_of_objects_make_lines_and_skips(rt: HostRuntime) -> Result<(), AllocError> {
    let alloc = rt.alloc();
    let mut notes = Notes::new(alloc);
    let receipts = [
        trigger(2, 5, TriggerAnswer::Spent { stamp: 2 }),
        accept(),
        trigger(1, 3, TriggerAnswer::Counted),
        gettime(),
    ];
    note_object_receipts(&mut notes, label(1, 4), &receipts)?;
    let record = record_of(alloc, Version::One, notes, 2, 2, Vec::new(alloc))?;
    shows(&rt, alloc, &record, OBJECTS)
}
