//! Runs of two or three lanes, whose order a gate forces: what calls that meet answer, and that lanes run beside each other.
use super::run_words;
use hrt_top::{Status, on_bytes};
use lane_run::{Gate, Point};
use std::sync::Wait;
use std::sync::atomic::{AtomicBool, AtomicUsize, Ordering};
use std::test::Fail;
use std::thread::Threads;

/// How often a lane looks whether it may go on.
const TURNS: u32 = 4_000_000_000;

/// How often a lane that may go on looks once more. Meanwhile the calls that the lanes before it were let into go on.
const WAITS: u32 = 100_000;

/// A lane at a point of one of its calls.
type Place = (u32, u32, Point);

/// A gate that lets lanes go on in one order of places: a lane at a point is held until all before the last place of this point
/// in the order were passed, and passes its places on the way. A point that isn't in the order is free. Once a lane has waited
/// too long, no lane is held any more.
#[derive(Drop)]
struct Ordered<'a> {
    order: &'a [Place],
    passed: AtomicUsize,
    given_up: AtomicBool,
}

impl<'a> Ordered<'a> {
    fn new(order: &'a [Place]) -> Self {
        Ordered {
            order,
            passed: AtomicUsize::new(0),
            given_up: AtomicBool::new(false),
        }
    }

    /// Waits until so many places were passed, and then for a while.
    fn wait(&self, places: usize) {
        for _ in 0..TURNS {
            if self.passed.load(Ordering::SeqCst) >= places
                || self.given_up.load(Ordering::SeqCst)
            {
                return self.look_on();
            }
        }
        self.given_up.store(true, Ordering::SeqCst);
    }

    /// Lets a while pass.
    fn look_on(&self) {
        for _ in 0..WAITS {
            let _ = self.passed.load(Ordering::SeqCst);
        }
    }

    /// Whether all places were passed, in their order.
    fn is_kept(&self) -> bool {
        self.passed.load(Ordering::SeqCst) == self.order.len()
            && !self.given_up.load(Ordering::SeqCst)
    }
}

impl Gate for Ordered<'_> {
    fn at(&self, lane: u32, call: u32, point: Point) {
        for (place, at) in self.order.iter().enumerate() {
            if *at == (lane, call, point) {
                self.wait(place);
                self.passed
                    .fetch_max(place.saturating_add(1), Ordering::SeqCst);
            }
        }
    }
}

/// Whether a script, run by this order, gives the record of these pieces, and the order was kept.
fn gives<R: Threads + Wait + Sync + AllocGlobal>(
    rt: &R,
    script: &[u8],
    order: &[Place],
    record: &[&[u8]],
) -> Result<bool, Fail> {
    let mut whole = Vec::new(rt.alloc());
    for piece in record {
        whole.extend_from_slice(piece)?;
    }
    let gate = Ordered::new(order);
    let words = run_words(rt.alloc())?;
    let (status, sink) = on_bytes(rt, &words, script, &gate);
    Ok(status == Status::Ok && gate.is_kept() && sink.kept.bytes() == Some(whole.as_slice()))
}

/// Lane 0 starts a timer. Then it cancels it, while lane 1 runs what is due.
const CANCEL_AND_EXPIRE: &[u8] = b"hrt 1\n\
    bases 1\n\
    lanes 2\n\
    limit 100\n\
    raw 0 monotonic once\n\
    round\n\
    0 start 0 rel 0 0\n\
    round\n\
    0 cancel 0\n\
    1 expire 0 4\n";

/// The record of an expiry whose function ran, around what the cancel was told.
const EXPIRED: &[u8] = b"record 1\n\
    timer 0 1 0 0 start rel 0 0 0 0 monotonic 0 0\n\
    timer 0 2 1 0 claim 0 0 1\n\
    timer 0 3 1 0 finish stop 1 none\n\
    call 0 0 started 1 0 0\n";

const EXPIRED_END: &[u8] = b"call 1 0 done 1 0 0\nend\n";

#[test]
fn lanes_run_beside(rt: HostRuntime) -> Result<(), Fail> {
    // The cancel is held until the callback has begun, and the callback until the cancel was answered: `running`.
    let order = [
        (1, 0, Point::Callback),
        (0, 1, Point::Call),
        (0, 1, Point::After),
        (1, 0, Point::Callback),
    ];
    let record = [EXPIRED, b"call 0 1 running 1 2\n", EXPIRED_END];
    assert!(rt; gives(&rt, CANCEL_AND_EXPIRE, &order, &record)?);
    Ok(())
}

/// Each lane starts a timer on a base of its own. Then each runs the one function that is due there.
const TWO_BASES: &[u8] = b"hrt 1\n\
    bases 2\n\
    lanes 2\n\
    limit 100\n\
    raw 0 monotonic once\n\
    raw 1 monotonic once\n\
    round\n\
    0 start 0 rel 0 0\n\
    1 start 1 rel 0 1\n\
    round\n\
    0 expire 0 1\n\
    1 expire 1 1\n";

const TWO_BASES_RECORD: &[u8] = b"record 1\n\
    timer 0 1 0 0 start rel 0 0 0 0 monotonic 0 0\n\
    timer 0 2 0 1 claim 0 0 1\n\
    timer 0 3 0 1 finish stop 1 none\n\
    timer 1 1 1 0 out 1 0\n\
    timer 1 2 1 0 start rel 0 0 1 1 monotonic 0 0\n\
    timer 1 3 1 1 claim 1 0 2\n\
    timer 1 4 1 1 finish stop 2 none\n\
    call 0 0 started 1 0 0\n\
    call 0 1 more 1 0 0\n\
    call 1 0 started 2 1 0\n\
    call 1 1 more 1 0 1\n\
    end\n";

#[test]
fn callbacks_meet(rt: HostRuntime) -> Result<(), Fail> {
    // Each callback is held until the other one has begun.
    let order = [
        (0, 1, Point::Callback),
        (1, 1, Point::Callback),
        (0, 1, Point::Callback),
    ];
    assert!(rt; gives(&rt, TWO_BASES, &order, &[TWO_BASES_RECORD])?);
    Ok(())
}

/// Lane 0 sets a POSIX timer. Then it sets it anew, while lane 1 runs its function.
const SET_AND_EXPIRE: &[u8] = b"hrt 1\n\
    bases 1\n\
    lanes 2\n\
    limit 100\n\
    posix 0 monotonic 0\n\
    round\n\
    0 settime 0 1 0 1 0 0\n\
    0 advance 1\n\
    round\n\
    0 settime 0 1 0 50 0 0\n\
    1 expire 0 1\n";

const SET_AND_EXPIRE_RECORD: &[u8] = b"record 1\n\
    clock 1 0 1 advance 1 1 1 1 0\n\
    timer 0 1 0 0 start abs 1 0 0 0 monotonic 1 0\n\
    timer 0 2 1 0 claim 0 1 1\n\
    timer 0 3 1 0 finish stop 1 none\n\
    timer 0 4 0 2 start abs 50 1 0 0 monotonic 50 0\n\
    object 0 1 0 0 settime 1 1 0 0 1 old 0 0\n\
    object 0 2 1 0 trigger 1 1 counted\n\
    object 0 3 0 2 settime 1 50 0 1 4 old 0 0\n\
    call 0 0 old 0 0\n\
    call 0 1 clock 1\n\
    call 0 2 old 0 0\n\
    call 1 0 more 1 1 0\n\
    end\n";

#[test]
fn a_settime_waits_for_the_function_of_its_timer(rt: HostRuntime) -> Result<(), Fail> {
    // The settime is held until the function has begun. That goes on at once, or once the settime is about to be called.
    let order = [
        (1, 0, Point::Callback),
        (0, 2, Point::Call),
        (1, 0, Point::Callback),
    ];
    assert!(rt; gives(&rt, SET_AND_EXPIRE, &order[..2], &[SET_AND_EXPIRE_RECORD])?);
    assert!(rt; gives(&rt, SET_AND_EXPIRE, &order, &[SET_AND_EXPIRE_RECORD])?);
    Ok(())
}

/// The same, and lane 2 accepts the timer's signal.
const SET_AND_ACCEPT: &[u8] = b"hrt 1\n\
    bases 1\n\
    lanes 3\n\
    limit 100\n\
    posix 0 monotonic 0\n\
    round\n\
    0 settime 0 1 0 1 0 0\n\
    0 advance 1\n\
    round\n\
    0 settime 0 1 0 50 0 0\n\
    1 expire 0 1\n\
    2 accept 0\n";

const SET_AND_ACCEPT_RECORD: &[u8] = b"record 1\n\
    clock 1 0 1 advance 1 1 1 1 0\n\
    timer 0 1 0 0 start abs 1 0 0 0 monotonic 1 0\n\
    timer 0 2 1 0 claim 0 1 1\n\
    timer 0 3 1 0 finish stop 1 none\n\
    timer 0 4 0 2 start abs 50 1 0 0 monotonic 50 0\n\
    object 0 1 0 0 settime 1 1 0 0 1 old 0 0\n\
    object 0 2 2 0 accept 1 none nosignal\n\
    object 0 3 1 0 trigger 1 1 counted\n\
    object 0 4 0 2 settime 1 50 0 1 4 old 0 0\n\
    call 0 0 old 0 0\n\
    call 0 1 clock 1\n\
    call 0 2 old 0 0\n\
    call 1 0 more 1 1 0\n\
    call 2 0 nosignal\n\
    end\n";

#[test]
fn a_settime_that_waits_has_let_its_object_go(rt: HostRuntime) -> Result<(), Fail> {
    // The function is held until the accept was answered, and that is called while the settime waits for the function.
    let order = [
        (1, 0, Point::Callback),
        (0, 2, Point::Call),
        (2, 0, Point::Call),
        (2, 0, Point::After),
        (1, 0, Point::Callback),
    ];
    assert!(rt; gives(&rt, SET_AND_ACCEPT, &order, &[SET_AND_ACCEPT_RECORD])?);
    Ok(())
}

/// Lane 0 starts a timer that repeats. Then it looks at it twice, while lane 1 runs what is due.
const LOOK_AND_EXPIRE: &[u8] = b"hrt 1\n\
    bases 1\n\
    lanes 2\n\
    limit 100\n\
    raw 0 monotonic every 100\n\
    round\n\
    0 start 0 rel 0 0\n\
    round\n\
    0 peek 0\n\
    0 peek 0\n\
    1 expire 0 1\n";

const LOOK_AND_EXPIRE_RECORD: &[u8] = b"record 1\n\
    timer 0 1 0 0 start rel 0 0 0 0 monotonic 0 0\n\
    timer 0 2 1 0 claim 0 0 1\n\
    timer 0 3 1 0 forward 0 100 1 100\n\
    timer 0 4 1 0 finish again 1 4\n\
    call 0 0 started 1 0 0\n\
    call 0 1 peek 2 0 0 1 0\n\
    call 0 2 peek 4 0 1 0 0\n\
    call 1 0 more 1 0 0\n\
    end\n";

#[test]
fn a_callback_is_held_before_its_work(rt: HostRuntime) -> Result<(), Fail> {
    // The first look comes while the callback is held: the timer runs, and has no entry of the callback yet.
    let order = [
        (1, 0, Point::Callback),
        (0, 1, Point::Call),
        (0, 1, Point::After),
        (1, 0, Point::Callback),
        (1, 0, Point::After),
        (0, 2, Point::Call),
    ];
    assert!(rt; gives(&rt, LOOK_AND_EXPIRE, &order, &[LOOK_AND_EXPIRE_RECORD])?);
    Ok(())
}
