//! Lines as tracefs, `trace-cmd` and `perf` print them, and lines that can't be read.
use super::answered;
use ktime::ClockId;
use seq_timer::Context;
use std::test::Fail;
use trace_text::{KernelEvent, Site, read_line};
use trace_top::Status;

const READ: [(&str, Option<KernelEvent>); 10] = [
    (
        "            task-4287       [003] .....  4607.088209: hrtimer_setup: hrtimer=000000003aa2b693 clockid=CLOCK_MONOTONIC mode=REL|HARD",
        Some(KernelEvent::SetUp {
            timer: 0x3aa2b693,
            clock: Some(ClockId::Monotonic),
            context: Some(Context::Hard),
        }),
    ),
    (
        "            load-4297       [001] .....  4607.094955: hrtimer_setup: hrtimer=000000003d3c3c14 clockid=CLOCK_REALTIME mode=REL",
        Some(KernelEvent::SetUp {
            timer: 0x3d3c3c14,
            clock: Some(ClockId::Monotonic),
            context: None,
        }),
    ),
    (
        "           sleep  9623 [001]  2548.544828:        timer:hrtimer_setup: hrtimer=0xffffc9000b20bc20 clockid=CLOCK_REALTIME mode=0x5",
        Some(KernelEvent::SetUp {
            timer: 0xffffc9000b20bc20,
            clock: Some(ClockId::Monotonic),
            context: Some(Context::Soft),
        }),
    ),
    (
        "            task-32582     [000] dNh1.  4607.092017: hrtimer_start: hrtimer=0000000020d8be55 function=tick_nohz_handler expires=4607096000000 softexpires=4607095000000 mode=ABS was_armed=0",
        Some(KernelEvent::Start {
            timer: 0x20d8be55,
            soft: 4607095000000,
            expires: 4607096000000,
            was_armed: Some(false),
        }),
    ),
    (
        "          <idle>-0     [001]   391.201014: hrtimer_start:        hrtimer=0xffff88007fc8f020 function=tick_sched_timer expires=391204000000 softexpires=391204000000",
        Some(KernelEvent::Start {
            timer: 0xffff88007fc8f020,
            soft: 391204000000,
            expires: 391204000000,
            was_armed: None,
        }),
    ),
    (
        "          <idle>-0     [001] d..2.   391.201012: hrtimer_cancel:       hrtimer=0xffff88007fc8f020",
        Some(KernelEvent::Cancel {
            timer: 0xffff88007fc8f020,
        }),
    ),
    (
        "            task-4171       [001] d.h..  4607.095025: hrtimer_expire_entry: hrtimer=000000003d3c3c14 function=hrtimer_wakeup now=4607095024052",
        Some(KernelEvent::Entry {
            timer: 0x3d3c3c14,
            site: Site {
                processor: 1,
                context: Some(Context::Hard),
            },
            now: 4607095024052,
        }),
    ),
    (
        "swapper     0 [003]  4607.092007: timer:hrtimer_expire_exit: hrtimer=0xffff88007fc8f020",
        Some(KernelEvent::Exit {
            timer: 0xffff88007fc8f020,
            site: Site {
                processor: 3,
                context: None,
            },
        }),
    ),
    ("##### CPU 2 buffer started ####", Some(KernelEvent::Lost)),
    (
        "          <idle>-0     [001] d..2.   391.201012: sched_waking: comm=hrtimer",
        None,
    ),
];

const UNREADABLE: [(&str, &str); 10] = [
    ("hrtimer_cancel:\n", "line 1: no hrtimer\n"),
    (
        "hrtimer_cancel: hrtimer=(____ptrval____)\n",
        "line 1: no hrtimer\n",
    ),
    (
        "\nhrtimer_expire_exit: hrtimer=a\n",
        "line 2: no processor\n",
    ),
    (
        "[x] hrtimer_expire_entry: hrtimer=a now=1\n",
        "line 1: no processor\n",
    ),
    (
        "[0] hrtimer_expire_entry: hrtimer=a now=\n",
        "line 1: no now\n",
    ),
    (
        "[0] hrtimer_expire_entry: hrtimer=a now=9223372036854775808\n",
        "line 1: no now\n",
    ),
    (
        "hrtimer_start: hrtimer=a softexpires=1\n",
        "line 1: no expires\n",
    ),
    (
        "hrtimer_start: hrtimer=a expires=1\n",
        "line 1: no softexpires\n",
    ),
    (
        "hrtimer_init: hrtimer=a clockid=CLOCK_MONOTONIC mode=ABS|LATE\n",
        "line 1: no mode\n",
    ),
    ("hrtimer_init: hrtimer=a mode=ABS\n", "line 1: no clockid\n"),
];

#[test]
fn lines_of_each_tool_are_read(rt: HostRuntime) -> Result<(), Fail> {
    for (line, event) in READ {
        assert_eq!(rt;
            read_line(rt.alloc(), line.as_bytes())?,
            Ok(event),
            "{line}"
        );
    }
    Ok(())
}

#[test]
fn a_line_that_cannot_be_read_is_told(rt: HostRuntime) -> Result<(), Fail> {
    for (text, told) in UNREADABLE {
        let answer = answered(rt.alloc(), &["hrt_check"], text.as_bytes())?;
        assert_eq!(rt; answer.0, Status::Unreadable, "{text}");
        assert_eq!(rt; answer.1.as_slice(), told.as_bytes(), "{text}");
    }
    Ok(())
}
