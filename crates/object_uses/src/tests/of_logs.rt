//! The log of an expiry run, as callers use it.
use super::assert_equal;
use hr_timers::{Log, Noted, Receipt, ReceiptSink};
use seq_timer::{Event, Observation, Reply};
use std::test::Fail;

#[test]
fn receipts_stand_in_the_order_of_their_notes(rt: HostRuntime) -> Result<(), Fail> {
    let mut log = Log::make(rt.alloc());
    assert_equal(&rt, log.spare(), 0);
    log.reserve(2)?;
    let cancel = Reply::Cancel { generation: 6 };
    let first = Receipt {
        timer: 3,
        number: 7,
        event: Event::Cancel,
        reply: Noted::Entry(cancel),
    };
    let second = Receipt {
        timer: 3,
        number: 7,
        event: Event::Cancel,
        reply: Noted::Look(Observation::Idle),
    };
    log.note(3, 7, Event::Cancel, cancel);
    log.note_look(3, 7, Event::Cancel, Observation::Idle);
    assert_equal(&rt, log.receipts(), [first, second].as_slice());
    assert_equal(&rt, log.spare(), 0);
    log.clear();
    assert_equal(&rt, log.receipts().len(), 0);
    assert_equal(&rt, log.spare(), 2);
    Ok(())
}
