//! Scripts of both versions that are read whole, with a line of each form, and refusals of lines that hrt's own tests and examples don't have.
use ktime::{ClockId, Mode, TimeSpec, Write};
use record_text::Version;
use script_text::{
    Call, Callback, Declaration, Kind, LaneCall, ParseError, Round, StartRequest,
    at_most_one_script_is_read, bytes_are_read_or_refused, number, parse,
};
use seq_timer::Context;
use std::alloc::Global;
use std::process::Abort;

fn declared(clock: ClockId, kind: Kind) -> Declaration {
    Declaration { clock, kind }
}

fn raw(clock: ClockId, callback: Callback) -> Declaration {
    let context = Context::Hard;
    declared(clock, Kind::Raw { context, callback })
}

/// A timer of the soft context.
fn soft(clock: ClockId, callback: Callback) -> Declaration {
    let context = Context::Soft;
    declared(clock, Kind::Raw { context, callback })
}

fn start(timer: u32, mode: Mode, ns: u64, slack: Option<u64>, base: u32) -> Call {
    let request = StartRequest {
        mode,
        ns,
        slack,
        base,
    };
    Call::Start { timer, request }
}

fn settime(timer: u32, flags: u64, value: (u64, u64), interval: (u64, u64)) -> Call {
    Call::Settime {
        timer,
        flags,
        value: TimeSpec {
            sec: value.0,
            nsec: value.1,
        },
        interval: TimeSpec {
            sec: interval.0,
            nsec: interval.1,
        },
    }
}

fn expire(context: Context, base: u32, budget: u64) -> Call {
    Call::Expire {
        context,
        base,
        budget,
    }
}

fn clock(write: Write) -> Call {
    Call::Clock { write }
}

/// Compares the calls of a round, which are all of lane 0.
fn has_calls(rt: &impl Abort, round: &Round, want: &[Call]) {
    let calls = round.calls.as_slice();
    assert_eq!(rt; calls.len(), want.len());
    for (found, call) in calls.iter().zip(want) {
        let call = *call;
        assert_eq!(rt; *found, LaneCall { lane: 0, call });
    }
}

const ONE: &str = "#\u{7} anything\n\nhrt 1\nbases 2\nlanes 1\nlimit 281474976710640\n\
    raw 0 monotonic once\nraw 1 realtime every 10\n# more\nraw 2 boottime cancels\n\
    raw 3 monotonic starts 5 1\nposix 4 realtime 1\nfd 5 boottime 0\nround\n\
    0 start 0 rel 100 0\n0 start 1 abs 9223372036854775807 1\n0 cancel 2\n\n0 peek 3\nround\n\
    0 settime 4 1 5 999999999 0 7\n0 settime 5 3 8 0 9223372036854775807 1000000000\n\
    0 gettime 4\n0 gettime 5\n0 accept 4\n0 overrun 4\n0 read 5 8\n0 readable 5\n\
    round\nround\n0 expire 1 4096\n0 advance 1\n0 set 2\n0 suspend 3";

fn declarations() -> [Declaration; 6] {
    [
        raw(ClockId::Monotonic, Callback::Once),
        raw(ClockId::Realtime, Callback::Every { interval: 10 }),
        raw(ClockId::Boottime, Callback::Cancels),
        raw(ClockId::Monotonic, Callback::Starts { ns: 5, base: 1 }),
        declared(ClockId::Realtime, Kind::Posix { base: 1 }),
        declared(ClockId::Boottime, Kind::Fd { base: 0 }),
    ]
}

/// The calls of the rounds.
fn raw_calls() -> [Call; 4] {
    [
        start(0, Mode::Rel, 100, None, 0),
        start(1, Mode::Abs, 9223372036854775807, None, 1),
        Call::Cancel { timer: 2 },
        Call::Peek { timer: 3 },
    ]
}

fn object_calls() -> [Call; 8] {
    [
        settime(4, 1, (5, 999999999), (0, 7)),
        settime(5, 3, (8, 0), (9223372036854775807, 1000000000)),
        Call::Gettime { timer: 4 },
        Call::Gettime { timer: 5 },
        Call::Accept { timer: 4 },
        Call::Overrun { timer: 4 },
        Call::Read { timer: 5, len: 8 },
        Call::Readable { timer: 5 },
    ]
}

fn last_calls() -> [Call; 4] {
    [
        expire(Context::Hard, 1, 4096),
        clock(Write::Advance { by: 1 }),
        clock(Write::Set { to: 2 }),
        clock(Write::Suspend { by: 3 }),
    ]
}

#[test]
fn reads_a_script_whole(rt: HostRuntime) {
    let Ok(script) = parse(rt.alloc(), ONE.as_bytes()) else {
        panic!(rt; "refused");
    };
    assert_eq!(rt; script.version, Version::One);
    let terms = (script.bases, script.lanes, script.limit);
    assert_eq!(rt; terms, (2, 1, 281474976710640));
    assert_eq!(rt; script.timers.as_slice(), declarations().as_slice());
    let [a, b, c, d] = script.rounds.as_slice() else {
        panic!(rt; "rounds");
    };
    has_calls(&rt, a, &raw_calls());
    has_calls(&rt, b, &object_calls());
    has_calls(&rt, c, &[]);
    has_calls(&rt, d, &last_calls());
    at_most_one_script_is_read();
    bytes_are_read_or_refused();
}

const TWO: &str = "hrt 2\nbases 64\nlanes 1\nlimit 281474976708608\n\
    soft 0 realtime once\nsoft 1 boottime every 10\nsleeper 2 realtime 63\n\
    queued 3 monotonic 0\nround\n\
    0 startrange 0 rel 100 50 63\n0 startrange 1 abs 7 9223372036854775807 0\n0 start 1 rel 5 1\n\
    0 softexpire 63 4096\n0 offline 1 0 4\n0 online 1\n\
    0 sleep 2 1 5 999999999\n0 interrupt 2\n0 slept 2\n\
    0 accept 3\n0 sigwait\n";

fn calls_of_two() -> [Call; 11] {
    [
        start(0, Mode::Rel, 100, Some(50), 63),
        start(1, Mode::Abs, 7, Some(9223372036854775807), 0),
        start(1, Mode::Rel, 5, None, 1),
        expire(Context::Soft, 63, 4096),
        Call::Offline {
            base: 1,
            heir: 0,
            budget: 4,
        },
        Call::Online { base: 1 },
        Call::Sleep {
            timer: 2,
            flags: 1,
            time: TimeSpec {
                sec: 5,
                nsec: 999999999,
            },
        },
        Call::Interrupt { timer: 2 },
        Call::Slept { timer: 2 },
        Call::Accept { timer: 3 },
        Call::Sigwait,
    ]
}

#[test]
fn reads_a_script_of_version_2_whole(rt: HostRuntime) {
    let Ok(script) = parse(rt.alloc(), TWO.as_bytes()) else {
        panic!(rt; "refused");
    };
    assert_eq!(rt; script.version, Version::Two);
    let terms = (script.bases, script.lanes, script.limit);
    assert_eq!(rt; terms, (64, 1, 281474976708608));
    let declarations = [
        soft(ClockId::Realtime, Callback::Once),
        soft(ClockId::Boottime, Callback::Every { interval: 10 }),
        declared(ClockId::Realtime, Kind::Sleeper { base: 63 }),
        declared(ClockId::Monotonic, Kind::Queued { base: 0 }),
    ];
    assert_eq!(rt; script.timers.as_slice(), declarations.as_slice());
    let [round] = script.rounds.as_slice() else {
        panic!(rt; "rounds");
    };
    has_calls(&rt, round, &calls_of_two());
    assert_eq!(rt; number(b"9223372036854775807"), Some(9223372036854775807));
}

/// A timer of each kind, and a round's beginning.
const KINDS: &str = "hrt 2\nbases 3\nlanes 2\nlimit 100\n\
    raw 0 monotonic once\nposix 1 realtime 0\nfd 2 boottime 0\nsoft 3 monotonic once\n\
    sleeper 4 monotonic 0\nqueued 5 realtime 0\nround\n";

/// Calls that are not for the kind of their timer: objects are started by their settings alone, and a soft timer is a raw one.
const WRONG_KINDS: [&str; 18] = [
    "0 settime 0 0 1 0 0 0",
    "0 gettime 3",
    "0 start 2 rel 5 0",
    "0 startrange 1 rel 5 5 0",
    "0 cancel 1",
    "0 accept 2",
    "0 accept 3",
    "0 overrun 2",
    "0 read 1 8",
    "0 readable 1",
    "0 readable 3",
    "0 settime 4 0 1 0 0 0",
    "0 start 4 rel 5 0",
    "0 sleep 1 0 0 5",
    "0 interrupt 2",
    "0 slept 0",
    "0 start 5 rel 5 0",
    "0 read 5 8",
];

/// Calls of lanes other than the first, also of one that the script doesn't have.
const LANES: [&str; 4] = [
    "1 offline 1 0 4",
    "1 online 1",
    "1 offline 3 3 4097",
    "2 online 3",
];

/// Heirs that aren't below their base, also some that the script doesn't have.
const HEIRS: [&str; 4] = [
    "0 offline 1 1 4",
    "0 offline 0 0 4",
    "0 offline 1 2 4097",
    "0 offline 2 9223372036854775807 4",
];

const NUMBERS: [&str; 6] = [
    "0 startrange 0 rel 5 05 0",
    "0 softexpire 0 04",
    "0 offline 1 00 4",
    "00 online 1",
    "0 sleep 4 0 0 05",
    "00 sigwait",
];

/// Compares what is told of each of these lines behind the ones of all kinds.
fn tells(rt: &impl Abort, alloc: Global, told: &str, lines: &[&str]) {
    for line in lines {
        let script = format!(in alloc; "{KINDS}{line}\n").expect(rt, "memory");
        let Err(ParseError::Refused(refused)) = parse(alloc, script.as_bytes()) else {
            panic!(rt; "read: {line}");
        };
        let text = refused.text(alloc).expect(rt, "memory");
        assert_eq!(rt; text.as_str(), told, "{line}");
    }
}

#[test]
fn tells_the_first_cause_against_a_call(rt: HostRuntime) {
    tells(&rt, rt.alloc(), "line 12: WrongKind\n", &WRONG_KINDS);
    tells(&rt, rt.alloc(), "line 12: LaneLimit\n", &LANES);
    tells(&rt, rt.alloc(), "line 12: HeirLimit\n", &HEIRS);
    tells(&rt, rt.alloc(), "line 12: BadNumber\n", &NUMBERS);
}
