//! A read of a descriptor beside the run that expires its timer, by two threads: whichever comes first, no expiry is lost and none counted twice.
ghost use Rattle.std.specs.Prelude.{◌≤◌, ◌<◌};

use super::assert_equal;
use super::stand::{FD, NONE, Stand, Step, Told, number_at};
use crate::{Expired, read_beside};
use hr_timers::{ExpireAnswer, Log};
use ktime::{ClockId, Reading};
use std::alloc::{AllocError, Global};
use std::sync::Wait;
use std::test::Fail;
use std::thread::Threads;
use timer_fd::ReadAnswer;
use timer_objects::Callback;

impl Stand {
    /// One thread runs the functions of due timers, the other reads the descriptor.
    #[tactic(auto, using(crate::proofs::Rooms::room_on))]
    fn read_beside<R: Threads + Wait + Sync>(
        &mut self,
        rt: &R,
        alloc: Global,
        reading: Reading,
        runs: &mut Log,
    ) -> (Result<Expired, AllocError>, ReadAnswer)
        requires room { (4 ≤ self.old.0) × (0 < self.old.1) × (4 ≤ runs.old.spare) }
    {
        read_beside(
            rt,
            alloc,
            &self.timers,
            &mut self.pass,
            &self.objects,
            &mut self.objects_pass,
            &[Callback::Once, Callback::Once, Callback::Once],
            0,
            2,
            FD,
            reading,
            runs,
            &mut self.log,
            &mut self.calls,
        )
    }
}

#[test]
fn a_read_beside_a_run_loses_no_expiry(rt: HostRuntime) -> Result<(), Fail> {
    let mut runs = Log::make(rt.alloc());
    runs.reserve(4)?;
    let mut stand = Stand::make(rt.alloc(), ClockId::Monotonic, 100)?;
    let late = Reading::at(135);
    let step = Step::Settime(FD, 1, 100, 10);
    let set = stand.take(&rt, step, Reading::at(0));
    assert_equal(&rt, set, Told::Settime(NONE));
    assert!(rt; stand.reserve(8, 2).is_ok());
    let (ran, first) = stand.read_beside(&rt, rt.alloc(), late, &mut runs);
    let Ok(
        Expired {
            answer,
            callback_log: _,
            object_log,
        },
    ) = ran
    else {
        stand.close();
        return Err(AllocError.into());
    };
    assert_equal(&rt, answer, ExpireAnswer::Done { fired: 1 });
    let count = ReadAnswer::Count { total: 4 };
    let (told, rest, order) = if first == ReadAnswer::Again {
        (ReadAnswer::Again, count, (Some(2), Some(3)))
    } else {
        (count, ReadAnswer::Again, (Some(3), Some(2)))
    };
    assert_equal(&rt, first, told);
    assert_equal(&rt, stand.take(&rt, Step::Read(8), late), Told::Read(rest));
    let read = number_at(stand.calls.receipts(), 1);
    let trigger = number_at(object_log.receipts(), 0);
    assert_equal(&rt, (read, trigger), order);
    assert_equal(&rt, number_at(stand.calls.receipts(), 2), Some(4));
    stand.close();
    Ok(())
}
