//! Tests of `timer_setting`: what both kinds of object share, each with its own flags.
use super::{assert_equal, ns};
use ktime::TimeSpec;
use timer_setting::{BadArgument, times_of};

#[test]
fn flags_are_looked_at_before_times(rt: HostRuntime) {
    let good = TimeSpec { sec: 1, nsec: 10 };
    let bad = ns(1_000_000_000);
    let times = Ok((1_000_000_010, 7));
    assert_equal(&rt, times_of(0, good, ns(7)), times);
    assert_equal(&rt, times_of(2, bad, good), Err(BadArgument::Flags));
    assert_equal(&rt, posix_timer::times_of(1, good, ns(7)), times);
    assert_equal(&rt, timer_fd::times_of(3, good, ns(7)), times);
}
