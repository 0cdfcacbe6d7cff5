//! The calls of one thread, each on its happy path, and the receipts of their entries.
use super::assert_equal;
use super::stand::{FD, NONE, QUEUED, Stand, Step, Told};
use hr_timers::ExpireAnswer;
use ktime::{ClockId, Reading};
use posix_timer::AcceptAnswer;
use sleeper::SleptAnswer;
use std::sync::Wait;
use std::test::Fail;
use timer_fd::ReadAnswer;
use timer_objects::{Gettime, Overrun, Readable, Slept};
use timer_setting::{InterruptAnswer, SleepAnswer};

/// The first step after which the caller was told something else, and what that was.
fn first_told<R: Wait>(
    rt: &R,
    stand: &mut Stand,
    cases: &[(Step, Reading, Told)],
) -> Option<(Step, Told)> {
    for case in cases {
        let (step, reading, told) = *case;
        let answer = stand.take(rt, step, reading);
        if answer != told {
            return Some((step, answer));
        }
    }
    None
}

/// What is left of a timer that was armed again, once its object has so many entries.
fn left(stamp: u64) -> Told {
    Told::Gettime(Gettime::Left {
        left: 5,
        interval: 10,
        stamp,
    })
}

#[test]
fn each_call_is_answered(rt: HostRuntime) -> Result<(), Fail> {
    let mut stand = Stand::make(rt.alloc(), ClockId::Monotonic, 100)?;
    let (zero, due, late) = (Reading::at(0), Reading::at(100), Reading::at(135));
    let overrun = Overrun {
        overrun: 3,
        stamp: 3,
    };
    let ready = Readable {
        ready: true,
        stamp: 2,
    };
    let slept = Slept {
        answer: SleptAnswer::Slept,
        stamp: 2,
    };
    let cases = [
        (Step::Settime(QUEUED, 1, 100, 10), zero, Told::Settime(NONE)),
        (Step::Settime(FD, 1, 100, 10), zero, Told::Settime(NONE)),
        (Step::Sleep(100), zero, Told::Sleep(SleepAnswer::Asleep)),
        (
            Step::Expire,
            due,
            Told::Expire(ExpireAnswer::Done { fired: 3 }),
        ),
        (
            Step::Accept,
            late,
            Told::Accept(AcceptAnswer::Accepted { overrun: 3 }),
        ),
        (Step::Overrun, late, Told::Overrun(overrun)),
        (Step::Gettime(QUEUED), late, left(3)),
        (Step::Readable, late, Told::Readable(ready)),
        (
            Step::Read(8),
            late,
            Told::Read(ReadAnswer::Count { total: 4 }),
        ),
        (Step::Gettime(FD), late, left(4)),
        (Step::Slept, late, Told::Slept(slept)),
        (
            Step::Interrupt,
            late,
            Told::Interrupt(InterruptAnswer::Slept),
        ),
    ];
    assert_equal(&rt, first_told(&rt, &mut stand, &cases), None);
    assert_equal(&rt, stand.log.receipts().len(), 11);
    assert_equal(&rt, stand.calls.receipts().len(), 7);
    stand.close();
    Ok(())
}
