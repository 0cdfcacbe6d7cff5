//! Whole runs over streams in memory: the points of the gate that a run passes.
mod adapters;
mod ends;
mod generated;
mod lanes;
mod many_lanes;
mod refusals;
mod streams;
mod transfer;
mod words;

use hrt_top::{Status, on_bytes};
use lane_run::{Gate, Point};
use std::alloc::{AllocError, Global};
use std::sync::Mutex;
use std::test::Fail;

pub fn command(alloc: Global, words: &[&str]) -> Result<Vec<String>, AllocError> {
    let mut all = Vec::new(alloc);
    for word in words {
        all.push(String::from_str(alloc, word)?)?;
    }
    Ok(all)
}

fn run_words(alloc: Global) -> Result<Vec<String>, AllocError> {
    command(alloc, &["hrt", "run"])
}

const ONE_SHOT: &[u8] = b"hrt 1\n\
    bases 1\n\
    lanes 1\n\
    limit 100\n\
    raw 0 monotonic once\n\
    round\n\
    0 start 0 rel 100 0\n\
    0 advance 100\n\
    0 expire 0 4\n\
    0 cancel 0\n\
    0 peek 0\n";

const ONE_SHOT_RECORD: &[u8] = b"record 1\n\
    clock 1 0 1 advance 100 100 100 100 0\n\
    timer 0 1 0 0 start rel 100 0 0 0 monotonic 100 0\n\
    timer 0 2 0 2 claim 0 1 1\n\
    timer 0 3 0 2 finish stop 1 none\n\
    call 0 0 started 1 0 0\n\
    call 0 1 clock 1\n\
    call 0 2 done 1 1 0\n\
    call 0 3 idle 3\n\
    call 0 4 peek 3 0 0 0 0\n\
    end\n";

// A gate that notes each point that is passed: its lane, its call and which it is.
#[derive(Drop)]
struct NotingGate {
    passed: Mutex<Vec<(u32, u32, Point)>>,
}

impl Gate for NotingGate {
    fn at(&self, lane: u32, call: u32, point: Point) {
        if let Some(mut passed) = self.passed.try_lock() {
            // A point for which there is no memory is missed in the test.
            let _ = passed.push((lane, call, point));
        }
    }
}

const TWO_CALLBACKS: &[u8] = b"hrt 1\n\
    bases 1\n\
    lanes 1\n\
    limit 100\n\
    raw 0 monotonic once\n\
    posix 1 monotonic 0\n\
    round\n\
    0 start 0 abs 1 0\n\
    0 settime 1 1 0 2 0 0\n\
    round\n\
    0 advance 5\n\
    0 expire 0 4\n\
    0 expire 0 4\n";

#[test]
fn each_call_passes_its_points_once_and_in_order(rt: HostRuntime) -> Result<(), Fail> {
    let gate = NotingGate {
        passed: Mutex::new(Vec::new(rt.alloc())),
    };
    let words = run_words(rt.alloc())?;
    let (status, _) = on_bytes(&rt, &words, TWO_CALLBACKS, &gate);
    assert_eq!(rt; status, Status::Ok);
    // The first expire runs two callbacks, and the second finds nothing due.
    let points = [
        (0, 0, Point::Call),
        (0, 0, Point::After),
        (0, 1, Point::Call),
        (0, 1, Point::After),
        (0, 2, Point::Call),
        (0, 2, Point::After),
        (0, 3, Point::Call),
        (0, 3, Point::Callback),
        (0, 3, Point::Callback),
        (0, 3, Point::After),
        (0, 4, Point::Call),
        (0, 4, Point::After),
    ];
    let passed = gate.passed.into_inner();
    assert_eq!(rt; passed.as_slice(), points.as_slice());
    Ok(())
}
