//! A record with lines and answers that no run of an example gives: its text, and its summary.
use record_text::{
    Answer, CallbackReply, Entry, ItemList, Label, Look, ObjectEntry, ObjectLine, RunRecord, Skip,
    TimerLine, Version, text, text_determines_the_record,
};
use script_text::summary;
use seq_timer::{EventBy, Reply, Restarted};
use std::alloc::{AllocError, Global};
use std::process::Abort;

const BY: Label = Label { lane: 3, call: 7 };

fn one<T: Drop>(alloc: Global, item: T) -> Result<ItemList<T>, AllocError> {
    let mut items = ItemList::new(alloc);
    items.push(item)?;
    Ok(items)
}

/// A restart that was refused, and a callback that was told that its timer is armed.
fn timer_line(alloc: Global) -> Result<TimerLine, AllocError> {
    let look = Look {
        label: BY,
        reply: CallbackReply::Armed { generation: 5 },
    };
    let entry = Entry {
        event: EventBy::Finish { restart: true },
        reply: Reply::Finish {
            generation: 5,
            restarted: Restarted::Spent,
        },
    };
    let looks = one(alloc, look)?;
    Ok(TimerLine {
        label: BY,
        entry,
        looks,
    })
}

/// A stale expiry, and one that was refused.
fn object_line(alloc: Global) -> Result<ObjectLine, AllocError> {
    let entry = ObjectEntry::Trigger {
        generation: 4,
        reading: 2,
        counted: false,
    };
    let skip = Skip {
        label: BY,
        generation: 8,
    };
    let skips = one(alloc, skip)?;
    Ok(ObjectLine {
        label: BY,
        entry,
        skips,
    })
}

/// Of the answers that begin with one word, those of an expiry run and of a call that takes a base off line; and some of their own.
fn answers(alloc: Global) -> Result<ItemList<Answer>, AllocError> {
    let fired = ItemList::from_vec(vec![in alloc; 3, 1]?);
    let answers = vec![in alloc;
        Answer::Busy {
            reading: 4,
            fired,
            timer: 2,
            generation: 8,
        },
        Answer::OfflineBusy {
            moved: 4,
            timer: 2,
            generation: 8,
        },
        Answer::OfflineSpent {
            moved: 0,
            timer: 63,
            stamp: 1124,
        },
        Answer::BaseSpent { stamp: 65534 },
        Answer::ClockSpent,
        Answer::Range { would_be: 1 << 64 },
    ]?;
    Ok(ItemList::from_vec(answers))
}

fn record(alloc: Global) -> Result<RunRecord, AllocError> {
    let timer_line = timer_line(alloc)?;
    let timer = one(alloc, timer_line)?;
    let object_line = object_line(alloc)?;
    let object = one(alloc, object_line)?;
    let lane = answers(alloc)?;
    let timers = one(alloc, timer)?;
    let objects = one(alloc, object)?;
    let answers = one(alloc, lane)?;
    Ok(RunRecord {
        version: Version::Two,
        clock: ItemList::new(alloc),
        bases: ItemList::new(alloc),
        timers,
        objects,
        answers,
    })
}

const TEXT: &str = "record 2
timer 0 1 3 7 finish again 5 spent
look 0 1 3 7 armed 5
object 0 1 3 7 trigger 4 2 stale
skip 0 1 3 7 8
call 0 0 busy 2 4 2 8 3 1
call 0 1 busy 4 2 8
call 0 2 spent 0 63 1124
call 0 3 basespent 65534
call 0 4 clockspent
call 0 5 range 18446744073709551616
end
";

/// Compares the text of a record.
pub(super) fn shows(
    rt: &impl Abort,
    alloc: Global,
    record: &RunRecord,
    want: &str,
) -> Result<(), AllocError> {
    let bytes = text(alloc, record)?;
    assert_eq!(rt; bytes.as_slice(), want.as_bytes());
    Ok(())
}

#[test]
fn each_line_and_answer_has_its_words(rt: HostRuntime) -> Result<(), AllocError> {
    let record = record(rt.alloc())?;
    text_determines_the_record();
    shows(&rt, rt.alloc(), &record, TEXT)
}

const SUMMARY: &[u8] = b"summary 1\nlanes 1\ncalls 6\nclock 0\nentries 1\nclaims 0\ncancels 0\n\
    periods 0\nend\n";

#[test]
fn sums_a_record_up(rt: HostRuntime) -> Result<(), AllocError> {
    let record = record(rt.alloc())?;
    let bytes = summary(rt.alloc(), &record)?;
    assert_eq!(rt; bytes.as_slice(), SUMMARY);
    Ok(())
}
