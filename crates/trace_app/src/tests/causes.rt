//! Each cause, by a short trace; and short traces that fit.
use super::answered;
use std::test::Fail;
use trace_top::Status;

/// A trace, how the program ends for it, and what it writes.
type Case = (&'static str, Status, &'static str);

const REFUSED: [Case; 20] = [
    (
        "hrtimer_setup: hrtimer=a clockid=CLOCK_MONOTONIC mode=ABS\nhrtimer_start: hrtimer=a expires=9 softexpires=9\nhrtimer_setup: hrtimer=a clockid=CLOCK_MONOTONIC mode=ABS\n",
        Status::Refused,
        "line 3: SetUpArmed\n",
    ),
    (
        "[0] d.h. 1: hrtimer_expire_entry: hrtimer=a now=9\nhrtimer_setup: hrtimer=a clockid=CLOCK_MONOTONIC mode=ABS\n",
        Status::Refused,
        "line 2: SetUpRunning\n",
    ),
    (
        "hrtimer_start: hrtimer=a expires=8 softexpires=9\n",
        Status::Refused,
        "line 1: SoftAfterHard\n",
    ),
    (
        "hrtimer_cancel: hrtimer=a\nhrtimer_start: hrtimer=a expires=9 softexpires=9 was_armed=1\n",
        Status::Refused,
        "line 2: WasNotArmed\n",
    ),
    (
        "hrtimer_start: hrtimer=a expires=9 softexpires=9\nhrtimer_start: hrtimer=a expires=9 softexpires=9 was_armed=0\n",
        Status::Refused,
        "line 2: WasArmed\n",
    ),
    (
        "hrtimer_cancel: hrtimer=a\nhrtimer_cancel: hrtimer=a\n",
        Status::Refused,
        "line 2: NotArmed\n",
    ),
    (
        "hrtimer_cancel: hrtimer=a\n[0] d.h. 1: hrtimer_expire_entry: hrtimer=a now=9\n",
        Status::Refused,
        "line 2: NotArmed\n",
    ),
    (
        "[0] d.h. 1: hrtimer_expire_entry: hrtimer=a now=9\nhrtimer_start: hrtimer=a expires=9 softexpires=9\nhrtimer_cancel: hrtimer=a\n",
        Status::Refused,
        "line 3: Running\n",
    ),
    (
        "[0] d.h. 1: hrtimer_expire_entry: hrtimer=a now=9\n[1] d.h. 1: hrtimer_expire_entry: hrtimer=a now=9\n",
        Status::Refused,
        "line 2: Running\n",
    ),
    (
        "[0] d.h. 1: hrtimer_expire_entry: hrtimer=a now=9\nhrtimer_start: hrtimer=a expires=9 softexpires=9\n[0] d.h. 1: hrtimer_expire_exit: hrtimer=a\n[1] d.h. 1: hrtimer_expire_entry: hrtimer=a now=9\n",
        Status::Refused,
        "line 4: OtherProcessor\n",
    ),
    (
        "[0] d.h. 1: hrtimer_expire_exit: hrtimer=a\n[1] d.h. 1: hrtimer_expire_entry: hrtimer=a now=9\n",
        Status::Refused,
        "line 2: OtherProcessor\n",
    ),
    (
        "hrtimer_setup: hrtimer=a clockid=CLOCK_MONOTONIC mode=REL|SOFT\nhrtimer_start: hrtimer=a expires=9 softexpires=9\n[0] d.h. 1: hrtimer_expire_entry: hrtimer=a now=9\n",
        Status::Refused,
        "line 3: OtherContext\n",
    ),
    (
        "[0] d.h. 1: hrtimer_expire_entry: hrtimer=a now=9\n[0] ..s. 1: hrtimer_expire_exit: hrtimer=a\n",
        Status::Refused,
        "line 2: OtherContext\n",
    ),
    (
        "hrtimer_start: hrtimer=a expires=12 softexpires=9\n[0] d.h. 1: hrtimer_expire_entry: hrtimer=a now=8\n",
        Status::Refused,
        "line 2: TooEarly soft 9 now 8\n",
    ),
    (
        "[0] d.h. 1: hrtimer_expire_entry: hrtimer=ffff8881a now=9\n[0] d.h. 1: hrtimer_expire_entry: hrtimer=b now=9\n",
        Status::Refused,
        "line 2: SecondFunction hrtimer ffff8881a\n",
    ),
    (
        "hrtimer_setup: hrtimer=a clockid=CLOCK_MONOTONIC mode=ABS\nhrtimer_setup: hrtimer=b clockid=CLOCK_REALTIME mode=REL\nhrtimer_start: hrtimer=a expires=7 softexpires=7\nhrtimer_start: hrtimer=b expires=8 softexpires=8\n[0] d.h. 1: hrtimer_expire_entry: hrtimer=b now=9\n[0] d.h. 1: hrtimer_expire_exit: hrtimer=b\n[0] d.h. 1: hrtimer_expire_entry: hrtimer=a now=9\n",
        Status::Refused,
        "line 7: OutOfOrder\n",
    ),
    (
        "hrtimer_setup: hrtimer=a clockid=CLOCK_MONOTONIC mode=ABS\nhrtimer_setup: hrtimer=b clockid=CLOCK_MONOTONIC mode=ABS\nhrtimer_start: hrtimer=a expires=8 softexpires=8\nhrtimer_start: hrtimer=b expires=8 softexpires=8\n[0] d.h. 1: hrtimer_expire_entry: hrtimer=b now=9\n[0] d.h. 1: hrtimer_expire_exit: hrtimer=b\n[0] d.h. 1: hrtimer_expire_entry: hrtimer=a now=9",
        Status::Refused,
        "line 7: OutOfOrder\n",
    ),
    (
        "hrtimer_cancel: hrtimer=a\n[0] d.h. 1: hrtimer_expire_exit: hrtimer=a\n",
        Status::Refused,
        "line 2: NotRunning\n",
    ),
    (
        "[0] d.h. 1: hrtimer_expire_entry: hrtimer=a now=9\n[1] d.h. 1: hrtimer_expire_exit: hrtimer=a\n",
        Status::Refused,
        "line 2: NotRunning\n",
    ),
    (
        "[0] d.h. 1: hrtimer_expire_exit: hrtimer=a\n[0] d.h. 1: hrtimer_expire_exit: hrtimer=b\n",
        Status::Refused,
        "line 2: NotRunning\n",
    ),
];

const EMPTY: [&str; 5] = [
    "",
    "# tracer: nop\n\nkworker-7 [001] ..... 4.5: sched_switch: prev_comm=a\n",
    "CPU:3 [LOST 12 EVENTS]\n##### CPU 2 buffer started ####\n",
    "hrt 1\nbases 1\nlanes 1\n",
    "\x1f\x08\0\0\0\n\x17\x08Dtracing",
];

const FIT: [Case; 8] = [
    (
        "x [4294967295] d.h. 1: hrtimer_expire_entry: hrtimer=1 now=1",
        Status::Fits,
        "ok 1 events, 1 timers, 1 processors\n",
    ),
    (
        "hrtimer_setup: hrtimer=a clockid=CLOCK_MONOTONIC mode=ABS\nhrtimer_setup: hrtimer=b clockid=CLOCK_REALTIME mode=ABS\nhrtimer_start: hrtimer=a expires=7 softexpires=7\nhrtimer_start: hrtimer=b expires=8 softexpires=8\n[0] d.h. 1: hrtimer_expire_entry: hrtimer=b now=9\n[0] d.h. 1: hrtimer_expire_exit: hrtimer=b\n[0] d.h. 1: hrtimer_expire_entry: hrtimer=a now=9\n",
        Status::Fits,
        "ok 7 events, 2 timers, 1 processors\n",
    ),
    (
        "hrtimer_setup: hrtimer=a clockid=CLOCK_MONOTONIC mode=ABS\nhrtimer_setup: hrtimer=b clockid=CLOCK_MONOTONIC mode=ABS\nhrtimer_start: hrtimer=a expires=7 softexpires=7\nhrtimer_start: hrtimer=b expires=8 softexpires=8\n[1] d.h. 1: hrtimer_expire_entry: hrtimer=b now=9\n[0] d.h. 1: hrtimer_expire_entry: hrtimer=a now=9\n",
        Status::Fits,
        "ok 6 events, 2 timers, 2 processors\n",
    ),
    (
        "[0] ..s. 1: hrtimer_expire_entry: hrtimer=a now=9\n[0] d.h. 1: hrtimer_expire_entry: hrtimer=b now=9\n[0] d.h. 1: hrtimer_expire_exit: hrtimer=b\n[0] ..s. 1: hrtimer_expire_exit: hrtimer=a\n",
        Status::Fits,
        "ok 4 events, 2 timers, 1 processors\n",
    ),
    (
        "hrtimer_cancel: hrtimer=a\nCPU:0 [LOST 3 EVENTS]\nhrtimer_cancel: hrtimer=a\n",
        Status::Fits,
        "ok 3 events, 1 timers, 0 processors\n",
    ),
    (
        "hrtimer_setup: hrtimer=a clockid=CLOCK_TAI mode=ABS\nhrtimer_start: hrtimer=a expires=9223372036854775807 softexpires=0 was_armed=0\nhrtimer_start: hrtimer=0xa expires=9 softexpires=9 was_armed=1\n",
        Status::Fits,
        "ok 3 events, 1 timers, 0 processors\n",
    ),
    (
        "hrtimer_setup: hrtimer=a clockid=CLOCK_BOOTTIME mode=REL|PINNED|SOFT\nhrtimer_start: hrtimer=a expires=9 softexpires=9\nswapper 0 [002] 1.5: timer:hrtimer_expire_entry: hrtimer=a function=f [m] now=9\nswapper 0 [002] 1.5: timer:hrtimer_expire_exit: hrtimer=a\n",
        Status::Fits,
        "ok 4 events, 1 timers, 1 processors\n",
    ),
    (
        "[0] d.h. 1: hrtimer_expire_exit: hrtimer=a\nhrtimer_start: hrtimer=a expires=9 softexpires=9\n[0] dNH. 1: hrtimer_expire_entry: hrtimer=a now=9\n",
        Status::Fits,
        "ok 3 events, 1 timers, 1 processors\n",
    ),
];

#[test]
fn each_cause_refuses_a_trace_at_its_line(rt: HostRuntime) -> Result<(), Fail> {
    for (text, status, told) in REFUSED {
        let answer = answered(rt.alloc(), &["hrt_check"], text.as_bytes())?;
        assert_eq!(rt; answer.0, status, "{text}");
        assert_eq!(rt; answer.1.as_slice(), told.as_bytes(), "{text}");
    }
    Ok(())
}

#[test]
fn a_text_without_a_timers_event_is_told(rt: HostRuntime) -> Result<(), Fail> {
    for text in EMPTY {
        let answer = answered(rt.alloc(), &["hrt_check"], text.as_bytes())?;
        assert_eq!(rt; answer.0, Status::NoEvents, "{text}");
        assert_eq!(rt;
            answer.1.as_slice(),
            b"no timer events\n".as_slice(),
            "{text}"
        );
    }
    Ok(())
}

#[test]
fn what_a_trace_does_not_tell_may_be_anything(rt: HostRuntime) -> Result<(), Fail> {
    for (text, status, told) in FIT {
        let answer = answered(rt.alloc(), &["hrt_check"], text.as_bytes())?;
        assert_eq!(rt; answer.0, status, "{text}");
        assert_eq!(rt; answer.1.as_slice(), told.as_bytes(), "{text}");
    }
    Ok(())
}
