//! Runs of sixteen lanes that all meet: each is held, before its first call or in its callback, until all have come so far.
use super::run_words;
use hrt_top::{Status, on_bytes};
use lane_run::{Gate, Point};
use std::alloc::{AllocError, Global};
use std::sync::Wait;
use std::sync::atomic::{AtomicBool, AtomicUsize, Ordering};
use std::test::Fail;
use std::thread::Threads;

/// How often a lane looks whether it may go on.
const TURNS: u32 = 4_000_000_000;

/// How many lanes meet.
const LANES: u32 = 16;

/// A gate that holds each lane at this point until as many have come there. Once a lane has waited too long, no lane is held any more.
#[derive(Drop)]
struct Meeting {
    point: Point,
    come: AtomicUsize,
    given_up: AtomicBool,
}

impl Meeting {
    fn new(point: Point) -> Self {
        Meeting {
            point,
            come: AtomicUsize::new(0),
            given_up: AtomicBool::new(false),
        }
    }

    /// Whether as many have come as there are lanes.
    fn is_full(&self) -> bool {
        self.come.load(Ordering::SeqCst) >= LANES as usize
    }

    /// Waits until all have come.
    fn wait(&self) {
        for _ in 0..TURNS {
            if self.is_full() || self.given_up.load(Ordering::SeqCst) {
                return;
            }
        }
        self.given_up.store(true, Ordering::SeqCst);
    }
}

impl Gate for Meeting {
    fn at(&self, _lane: u32, _call: u32, point: Point) {
        if point == self.point {
            self.come.fetch_add(1, Ordering::SeqCst);
            self.wait();
        }
    }
}

/// A script in which each lane starts a timer on a base of its own, and then runs what is due there. The timer is its own too, or the same for all.
fn script(alloc: Global, is_shared: bool) -> Result<Vec<u8>, AllocError> {
    let mut script = Vec::new(alloc);
    let head = format!(in alloc; "hrt 2\nbases {LANES}\nlanes {LANES}\nlimit 100\n")?;
    script.extend_from_slice(head.as_bytes())?;
    for timer in 0..LANES {
        let line = format!(in alloc; "raw {timer} monotonic once\n")?;
        script.extend_from_slice(line.as_bytes())?;
    }
    script.extend_from_slice(b"round\n")?;
    for lane in 0..LANES {
        let timer = if is_shared { 0 } else { lane };
        let calls = format!(in alloc;
            "{lane} start {timer} rel 0 {lane}\n{lane} expire {lane} 1\n"
        )?;
        script.extend_from_slice(calls.as_bytes())?;
    }
    Ok(script)
}

/// Whether all lanes of the script met at this point, and its record was written.
fn meet<R: Threads + Wait + Sync + AllocGlobal>(
    rt: &R,
    is_shared: bool,
    point: Point,
) -> Result<bool, Fail> {
    let gate = Meeting::new(point);
    let words = run_words(rt.alloc())?;
    let script = script(rt.alloc(), is_shared)?;
    let (status, _) = on_bytes(rt, &words, &script, &gate);
    Ok(status == Status::Ok && gate.is_full() && !gate.given_up.load(Ordering::SeqCst))
}

#[test]
fn callbacks_of_sixteen_lanes_meet(rt: HostRuntime) -> Result<(), Fail> {
    assert!(rt; meet(&rt, false, Point::Callback)?);
    Ok(())
}

#[test]
fn sixteen_lanes_start_one_timer_at_once(rt: HostRuntime) -> Result<(), Fail> {
    assert!(rt; meet(&rt, true, Point::Call)?);
    Ok(())
}
