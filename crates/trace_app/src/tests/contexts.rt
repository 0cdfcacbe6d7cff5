//! Traces of which no line tells a context, as `perf` prints them.
use super::answered;
use std::test::Fail;
use trace_top::Status;

/// A trace, how the program ends for it, and what it writes.
type Case = (&'static str, Status, &'static str);

const FIT: [Case; 6] = [
    (
        // A soft function set up before the recording, and a hard one inside it.
        "[0] 1: hrtimer_expire_entry: hrtimer=a now=9\n[0] 1: hrtimer_expire_entry: hrtimer=b now=9\n[0] 1: hrtimer_expire_exit: hrtimer=b\n[0] 1: hrtimer_expire_exit: hrtimer=a\n",
        Status::Fits,
        "ok 4 events, 2 timers, 1 processors\n",
    ),
    (
        // The soft one ran already when the recording began.
        "[0] 1: hrtimer_expire_entry: hrtimer=b now=9\n[0] 1: hrtimer_expire_exit: hrtimer=b\n[0] 1: hrtimer_expire_exit: hrtimer=a\n",
        Status::Fits,
        "ok 3 events, 2 timers, 1 processors\n",
    ),
    (
        // Its set-up tells that it is soft.
        "hrtimer_setup: hrtimer=a clockid=CLOCK_MONOTONIC mode=ABS|SOFT\nhrtimer_start: hrtimer=a expires=9 softexpires=9\n[0] 1: hrtimer_expire_entry: hrtimer=a now=9\n[0] 1: hrtimer_expire_entry: hrtimer=b now=9\n[0] 1: hrtimer_expire_exit: hrtimer=b\n[0] 1: hrtimer_expire_exit: hrtimer=a\n",
        Status::Fits,
        "ok 6 events, 2 timers, 1 processors\n",
    ),
    (
        // Of two that pass one another one may be soft.
        "hrtimer_setup: hrtimer=a clockid=CLOCK_MONOTONIC mode=ABS\nhrtimer_setup: hrtimer=b clockid=CLOCK_MONOTONIC mode=ABS\nhrtimer_start: hrtimer=a expires=7 softexpires=7\nhrtimer_start: hrtimer=b expires=8 softexpires=8\n[0] 1: hrtimer_expire_entry: hrtimer=b now=9\n[0] 1: hrtimer_expire_exit: hrtimer=b\n[0] 1: hrtimer_expire_entry: hrtimer=a now=9\n[0] 1: hrtimer_expire_exit: hrtimer=a\n",
        Status::Fits,
        "ok 8 events, 2 timers, 1 processors\n",
    ),
    (
        // A line tells that the inner one is hard.
        "[0] 1: hrtimer_expire_entry: hrtimer=a now=9\n[0] d.h. 1: hrtimer_expire_entry: hrtimer=b now=9\n[0] d.h. 1: hrtimer_expire_exit: hrtimer=b\n[0] 1: hrtimer_expire_exit: hrtimer=a\nhrtimer_start: hrtimer=a expires=9 softexpires=9\n[0] 1: hrtimer_expire_entry: hrtimer=a now=9\n[0] ..s. 1: hrtimer_expire_exit: hrtimer=a\n",
        Status::Fits,
        "ok 7 events, 2 timers, 1 processors\n",
    ),
    (
        // Two ran when the recording began, and nothing tells which is which.
        "[0] 1: hrtimer_expire_exit: hrtimer=a\n[0] 1: hrtimer_expire_exit: hrtimer=b\n[0] 1: hrtimer_expire_entry: hrtimer=c now=9\n[0] 1: hrtimer_expire_exit: hrtimer=c\n",
        Status::Fits,
        "ok 4 events, 3 timers, 1 processors\n",
    ),
];

const REFUSED: [Case; 10] = [
    (
        // Three run at once.
        "[0] 1: hrtimer_expire_entry: hrtimer=a now=9\n[0] 1: hrtimer_expire_entry: hrtimer=b now=9\n[0] 1: hrtimer_expire_entry: hrtimer=c now=9\n",
        Status::Refused,
        "line 3: SecondFunction hrtimer b\n",
    ),
    (
        // The outer one is told to be hard, by its set-up.
        "hrtimer_setup: hrtimer=a clockid=CLOCK_MONOTONIC mode=ABS|HARD\nhrtimer_start: hrtimer=a expires=9 softexpires=9\n[0] 1: hrtimer_expire_entry: hrtimer=a now=9\n[0] 1: hrtimer_expire_entry: hrtimer=b now=9\n",
        Status::Refused,
        "line 4: SecondFunction hrtimer a\n",
    ),
    (
        // The inner one is told to be soft, by its set-up.
        "hrtimer_setup: hrtimer=b clockid=CLOCK_MONOTONIC mode=ABS|SOFT\nhrtimer_start: hrtimer=b expires=9 softexpires=9\n[0] 1: hrtimer_expire_entry: hrtimer=a now=9\n[0] 1: hrtimer_expire_entry: hrtimer=b now=9\n",
        Status::Refused,
        "line 4: SecondFunction hrtimer a\n",
    ),
    (
        // A soft one begins inside a hard one, as the lines' flags tell.
        "[0] d.h. 1: hrtimer_expire_entry: hrtimer=a now=9\n[0] ..s. 1: hrtimer_expire_entry: hrtimer=b now=9\n",
        Status::Refused,
        "line 2: SecondFunction hrtimer a\n",
    ),
    (
        // What ran around another one is soft, and begins inside one.
        "[0] 1: hrtimer_expire_entry: hrtimer=a now=9\n[0] 1: hrtimer_expire_entry: hrtimer=b now=9\n[0] 1: hrtimer_expire_exit: hrtimer=b\n[0] 1: hrtimer_expire_exit: hrtimer=a\n[0] 1: hrtimer_expire_entry: hrtimer=c now=9\nhrtimer_start: hrtimer=a expires=9 softexpires=9\n[0] 1: hrtimer_expire_entry: hrtimer=a now=9\n",
        Status::Refused,
        "line 7: SecondFunction hrtimer c\n",
    ),
    (
        // What ran inside another one is hard, and another begins inside it.
        "[0] 1: hrtimer_expire_entry: hrtimer=a now=9\n[0] 1: hrtimer_expire_entry: hrtimer=b now=9\n[0] 1: hrtimer_expire_exit: hrtimer=b\n[0] 1: hrtimer_expire_exit: hrtimer=a\nhrtimer_start: hrtimer=b expires=9 softexpires=9\n[0] 1: hrtimer_expire_entry: hrtimer=b now=9\n[0] 1: hrtimer_expire_entry: hrtimer=c now=9\n",
        Status::Refused,
        "line 7: SecondFunction hrtimer b\n",
    ),
    (
        // What ran around another one is told to be hard.
        "[0] 1: hrtimer_expire_entry: hrtimer=a now=9\n[0] 1: hrtimer_expire_entry: hrtimer=b now=9\n[0] 1: hrtimer_expire_exit: hrtimer=b\n[0] d.h. 1: hrtimer_expire_exit: hrtimer=a\n",
        Status::Refused,
        "line 4: OtherContext\n",
    ),
    (
        // Three ran at once when the recording began.
        "[0] 1: hrtimer_expire_entry: hrtimer=b now=9\n[0] 1: hrtimer_expire_entry: hrtimer=c now=9\n[0] 1: hrtimer_expire_exit: hrtimer=c\n[0] 1: hrtimer_expire_exit: hrtimer=b\n[0] 1: hrtimer_expire_exit: hrtimer=a\n",
        Status::Refused,
        "line 5: NotRunning\n",
    ),
    (
        // Two are left from before the recording, where a function has begun.
        "[0] 1: hrtimer_expire_entry: hrtimer=b now=9\n[0] 1: hrtimer_expire_exit: hrtimer=b\n[0] 1: hrtimer_expire_exit: hrtimer=a\n[0] 1: hrtimer_expire_exit: hrtimer=c\n",
        Status::Refused,
        "line 4: NotRunning\n",
    ),
    (
        // A soft function began, so that none is left from before the recording.
        "[0] ..s. 1: hrtimer_expire_entry: hrtimer=b now=9\n[0] ..s. 1: hrtimer_expire_exit: hrtimer=b\n[0] 1: hrtimer_expire_exit: hrtimer=a\n",
        Status::Refused,
        "line 3: NotRunning\n",
    ),
];

#[test]
fn an_untold_context_may_be_either(rt: HostRuntime) -> Result<(), Fail> {
    for (text, status, told) in FIT {
        let answer = answered(rt.alloc(), &["hrt_check"], text.as_bytes())?;
        assert_eq!(rt; answer.0, status, "{text}");
        assert_eq!(rt; answer.1.as_slice(), told.as_bytes(), "{text}");
    }
    Ok(())
}

#[test]
fn no_contexts_make_these_right(rt: HostRuntime) -> Result<(), Fail> {
    for (text, status, told) in REFUSED {
        let answer = answered(rt.alloc(), &["hrt_check"], text.as_bytes())?;
        assert_eq!(rt; answer.0, status, "{text}");
        assert_eq!(rt; answer.1.as_slice(), told.as_bytes(), "{text}");
    }
    Ok(())
}
