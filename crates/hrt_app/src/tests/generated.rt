//! Scripts that are made from a number: the summary that is written, and that nothing is read for it.
use super::command;
use hrt_top::{BytesSink, BytesSource, Status, top};
use lane_run::OpenGate;
use std::alloc::AllocError;
use std::sync::Wait;
use std::test::Fail;
use std::thread::Threads;

/// The outcome of these words; a source that was read is a read fault, whatever came of it.
fn outcome<R: Threads + Wait + Sync + AllocGlobal>(
    rt: &R,
    words: &[&str],
    sink: &mut BytesSink<'_>,
) -> Result<Status, AllocError> {
    let words = command(rt.alloc(), words)?;
    let mut source = BytesSource::new(b"hrt 2\n", 4096, &[1]);
    let status = top(rt, &words, &mut source, sink, &OpenGate);
    if source.plan.calls > 0 {
        return Ok(Status::ReadFault);
    }
    Ok(status)
}

const THREE_CALLS: &[u8] = b"summary 1\n\
    lanes 1\n\
    calls 6\n\
    clock 2\n\
    entries 7\n\
    claims 2\n\
    cancels 0\n\
    periods 1\n\
    end\n";

const TWO_LANES: &[u8] = b"summary 1\n\
    lanes 2\n\
    calls 6\n\
    clock 2\n\
    entries 4\n\
    claims 1\n\
    cancels 0\n\
    periods 1\n\
    end\n";

const NO_CALLS: &[u8] = b"summary 1\n\
    lanes 1\n\
    calls 2\n\
    clock 1\n\
    entries 0\n\
    claims 0\n\
    cancels 0\n\
    periods 0\n\
    end\n";

#[test]
fn a_script_that_is_made_is_summed_up(rt: HostRuntime) -> Result<(), Fail> {
    let cases: [(&[&str], &[u8]); 3] = [
        (
            &["hrt", "gen", "--seed", "1", "--lanes", "1", "--calls", "3"],
            THREE_CALLS,
        ),
        (
            &["hrt", "gen", "--seed", "1", "--lanes", "2", "--calls", "1"],
            TWO_LANES,
        ),
        (
            &["hrt", "gen", "--seed", "1", "--lanes", "1", "--calls", "0"],
            NO_CALLS,
        ),
    ];
    for (words, text) in cases {
        let mut sink = BytesSink::new(rt.alloc(), 7, &[]);
        let status = outcome(&rt, words, &mut sink)?;
        assert_eq!(rt; status, Status::Ok);
        assert_eq!(rt; sink.kept.bytes(), Some(text));
    }
    Ok(())
}

#[test]
fn a_write_that_fails_leaves_a_prefix_of_the_summary(rt: HostRuntime) -> Result<(), Fail> {
    let words: &[&str] = &["hrt", "gen", "--seed", "1", "--lanes", "1", "--calls", "3"];
    let cases: [(u64, &[u8]); 2] = [(1, b""), (3, b"summary 1\nlane")];
    for (failing, taken) in cases {
        let failing = [failing];
        let mut sink = BytesSink::new(rt.alloc(), 7, &failing);
        let status = outcome(&rt, words, &mut sink)?;
        assert_eq!(rt; status, Status::WriteFault);
        assert_eq!(rt; sink.kept.bytes(), Some(taken));
        assert_eq!(rt; sink.plan.faults, 1);
    }
    Ok(())
}
