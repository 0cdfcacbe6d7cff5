//! Streams that give or take little: each call that may fail, one byte a call, and a read of nothing before the end.
ghost use Rattle.std.specs.Prelude.{None};

use super::{ONE_SHOT, ONE_SHOT_RECORD, run_words};
use hrt_top::{BytesSink, BytesSource, Failed, Source, Status, top};
use lane_run::OpenGate;
use std::test::Fail;

#[test]
fn whichever_write_fails_all_that_stands_before_it_was_written(
    rt: HostRuntime,
) -> Result<(), Fail> {
    let words = run_words(rt.alloc())?;
    // One byte a write.
    for (i, _) in ONE_SHOT_RECORD.iter().enumerate() {
        let failing = [(i as u64).saturating_add(1)];
        let mut source = BytesSource::new(ONE_SHOT, 4096, &[]);
        let mut sink = BytesSink::new(rt.alloc(), 1, &failing);
        let status = top(&rt, &words, &mut source, &mut sink, &OpenGate);
        assert_eq!(rt; status, Status::WriteFault);
        assert_eq!(rt; sink.kept.bytes(), ONE_SHOT_RECORD.get(..i));
        assert_eq!(rt; (sink.plan.calls, sink.plan.faults), (failing[0], 1));
        assert_eq!(rt; source.plan.faults, 0);
    }
    Ok(())
}

#[test]
fn whichever_read_fails_nothing_is_written(rt: HostRuntime) -> Result<(), Fail> {
    let words = run_words(rt.alloc())?;
    // One byte a read, and a last read that finds the end.
    for failing in 1..=127 {
        let failing = [failing];
        let mut source = BytesSource::new(ONE_SHOT, 1, &failing);
        let mut sink = BytesSink::new(rt.alloc(), 4096, &[]);
        let status = top(&rt, &words, &mut source, &mut sink, &OpenGate);
        assert_eq!(rt; status, Status::ReadFault);
        assert_eq!(rt; (source.plan.calls, source.plan.faults), (failing[0], 1));
        assert_eq!(rt; (sink.plan.calls, sink.plan.faults), (0, 0));
    }
    Ok(())
}

/// A source of pieces, one a read, that tells nothing of them.
#[derive(Drop)]
struct Pieces<'a> {
    pieces: &'a [&'a [u8]],
    reads: usize,
}

impl<'a> Source for Pieces<'a> {
    ghost left = { λ _. None };

    ghost faults = { λ _. 0 };

    fn read(&mut self, buf: &mut [u8]) -> Result<usize, Failed> {
        let next = self.reads;
        self.reads = next.saturating_add(1);
        let Some(piece) = self.pieces.get(next) else {
            return Ok(0);
        };
        let n = piece.len().min(buf.len());
        buf[..n].copy_from_slice(&piece[..n]);
        Ok(n)
    }
}

#[test]
fn a_read_of_nothing_is_the_end(rt: HostRuntime) -> Result<(), Fail> {
    let words = run_words(rt.alloc())?;
    let empty: &[u8] = b"";
    let head: &[u8] = b"hrt 1\nbases 1\nlanes 1\n";
    let limit: &[u8] = b"limit 100\n";
    let record: &[u8] = b"record 1\nend\n";
    // The pieces, the reads that are made, and what comes of them.
    let cases: [(&[&[u8]], usize, Status, &[u8]); 4] = [
        (&[head, limit, empty, b"0 peek 0\n"], 3, Status::Ok, record),
        (
            &[head, empty, limit],
            2,
            Status::Refused,
            b"line 4: Unfinished\n",
        ),
        (
            &[empty, head, limit],
            1,
            Status::Refused,
            b"line 1: Unfinished\n",
        ),
        (&[head, limit], 3, Status::Ok, record),
    ];
    for (pieces, reads, status, taken) in cases {
        let mut source = Pieces { pieces, reads: 0 };
        let mut sink = BytesSink::new(rt.alloc(), 4096, &[]);
        let found = top(&rt, &words, &mut source, &mut sink, &OpenGate);
        assert_eq!(rt; found, status);
        assert_eq!(rt; sink.kept.bytes(), Some(taken));
        assert_eq!(rt; source.reads, reads);
    }
    Ok(())
}
