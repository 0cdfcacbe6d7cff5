//! How a run ends whose source or sink fails or moves few bytes a call: its status, what was written, how often each stream was called, and
//! its count of faults.
use super::{ONE_SHOT, ONE_SHOT_RECORD, run_words};
use hrt_top::{BytesSink, BytesSource, Status, top};
use lane_run::OpenGate;
use std::sync::Wait;
use std::test::Fail;
use std::thread::Threads;

/// How a run ended: the status; how often the source was called and its count of faults; and both of the sink.
#[derive(Clone, Copy, Debug, PartialEq, Eq)]
pub struct End {
    status: Status,
    source: (u64, u64),
    sink: (u64, u64),
}

/// A run over streams that move at most so many bytes a call and fail at the listed calls, and how it ends.
#[derive(Clone, Copy)]
pub struct Case<'a> {
    bytes: &'a [u8],
    reads: (usize, &'a [u64]),
    writes: (usize, &'a [u64]),
    end: End,
    taken: &'a [u8],
}

/// The first of these cases that ended otherwise, and how.
pub fn first_other<R: Threads + Wait + Sync + AllocGlobal>(
    rt: &R,
    cases: &[Case<'_>],
) -> Result<Option<(usize, End)>, Fail> {
    let words = run_words(rt.alloc())?;
    for (i, case) in cases.iter().enumerate() {
        let mut source = BytesSource::new(case.bytes, case.reads.0, case.reads.1);
        let mut sink = BytesSink::new(rt.alloc(), case.writes.0, case.writes.1);
        let status = top(rt, &words, &mut source, &mut sink, &OpenGate);
        let end = End {
            status,
            source: (source.plan.calls, source.plan.faults),
            sink: (sink.plan.calls, sink.plan.faults),
        };
        if end != case.end || sink.kept.bytes() != Some(case.taken) {
            return Ok(Some((i, end)));
        }
    }
    Ok(None)
}

/// Runs over a script of 126 bytes whose record has 260, and over bytes that are refused.
const STREAMS: [Case<'_>; 6] = [
    Case {
        bytes: ONE_SHOT,
        reads: (4096, &[2]),
        writes: (4096, &[]),
        end: End {
            status: Status::ReadFault,
            source: (2, 1),
            sink: (0, 0),
        },
        taken: b"",
    },
    Case {
        bytes: ONE_SHOT,
        reads: (1, &[]),
        writes: (4096, &[]),
        end: End {
            status: Status::Ok,
            source: (127, 0),
            sink: (1, 0),
        },
        taken: ONE_SHOT_RECORD,
    },
    Case {
        bytes: ONE_SHOT,
        reads: (4096, &[]),
        writes: (1, &[]),
        end: End {
            status: Status::Ok,
            source: (2, 0),
            sink: (260, 0),
        },
        taken: ONE_SHOT_RECORD,
    },
    Case {
        bytes: ONE_SHOT,
        reads: (4096, &[]),
        writes: (5, &[3]),
        end: End {
            status: Status::WriteFault,
            source: (2, 0),
            sink: (3, 1),
        },
        taken: b"record 1\nc",
    },
    Case {
        bytes: b"hrt 3\n",
        reads: (4096, &[]),
        writes: (4096, &[1]),
        end: End {
            status: Status::WriteFault,
            source: (2, 0),
            sink: (1, 1),
        },
        taken: b"",
    },
    Case {
        bytes: b"hrt 3\n",
        reads: (4096, &[]),
        writes: (1, &[]),
        end: End {
            status: Status::Refused,
            source: (2, 0),
            sink: (16, 0),
        },
        taken: b"line 1: Version\n",
    },
];

/// A run over bytes that are read so many at a time, where the listed reads fail.
pub fn reading<'a>(
    bytes: &'a [u8],
    most: usize,
    failing: &'a [u64],
    end: End,
    taken: &'a [u8],
) -> Case<'a> {
    let reads = (most, failing);
    Case {
        bytes,
        reads,
        writes: (4096, &[]),
        end,
        taken,
    }
}

/// The end of a run whose bytes are refused after so many reads.
pub fn refused(reads: u64) -> End {
    End {
        status: Status::Refused,
        source: (reads, 0),
        sink: (1, 0),
    }
}

/// The first run that ended otherwise over bytes of the greatest size, or with one more, of which the read behind the last byte fails. It is
/// made only where no byte is too many.
fn first_other_at_the_greatest_size<R: Threads + Wait + Sync + AllocGlobal>(
    rt: &R,
) -> Result<Option<(usize, End)>, Fail> {
    let many = vec![in rt.alloc(); b'#'; 1_048_577]?;
    let most = many.split_last().map_or(b"".as_slice(), |(_, most)| most);
    let line = b"line 0: TooLong\n";
    let cut = End {
        status: Status::ReadFault,
        source: (257, 1),
        sink: (0, 0),
    };
    let cut_by_one = End {
        source: (1_048_577, 1),
        ..cut
    };
    let cases = [
        reading(&many, 4096, &[258], refused(257), line),
        reading(&many, 1, &[1_048_578], refused(1_048_577), line),
        reading(most, 4096, &[257], cut, b""),
        reading(most, 1, &[1_048_577], cut_by_one, b""),
    ];
    first_other(rt, &cases)
}

#[test]
fn failing_streams_and_bytes_of_the_greatest_size(rt: HostRuntime) -> Result<(), Fail> {
    assert_eq!(rt; first_other(&rt, &STREAMS)?, None);
    assert_eq!(rt; first_other_at_the_greatest_size(&rt)?, None);
    Ok(())
}

#[test]
fn reading_stops_once_more_was_taken_than_a_script_may_have(rt: HostRuntime) -> Result<(), Fail> {
    let words = run_words(rt.alloc())?;
    let bytes = vec![in rt.alloc(); b'#'; 1_100_000]?;
    // So many bytes a read; the reads that are made; and the bytes that are left.
    for (most, reads, left) in [
        (1, 1_048_577, 51_423),
        (1000, 1049, 51_000),
        (4096, 257, 47_328),
    ] {
        let mut source = BytesSource::new(&bytes, most, &[]);
        let mut sink = BytesSink::new(rt.alloc(), 4096, &[]);
        let status = top(&rt, &words, &mut source, &mut sink, &OpenGate);
        assert_eq!(rt; status, Status::Refused);
        assert_eq!(rt; sink.kept.bytes(), Some(b"line 0: TooLong\n".as_slice()));
        assert_eq!(rt; (source.plan.calls, source.left.len()), (reads, left));
    }
    Ok(())
}
