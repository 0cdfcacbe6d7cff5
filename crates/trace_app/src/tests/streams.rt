//! Words that ask for nothing, and streams that fail.
use super::{answered, command};
use std::io::{self, Read, Write};
use std::test::Fail;
use trace_top::{Counted, Status, top};

/// A stream of std whose every call is an error.
#[derive(Drop)]
struct Broken;

impl Read for Broken {
    fn read(&mut self, _buf: &mut [u8]) -> io::Result<usize> {
        Err(io::Error::from(io::ErrorKind::BrokenPipe))
    }
}

impl Write for Broken {
    fn write(&mut self, _buf: &[u8]) -> io::Result<usize> {
        Err(io::Error::from(io::ErrorKind::BrokenPipe))
    }

    fn flush(&mut self) -> io::Result<()> {
        Ok(())
    }
}

#[test]
fn other_words_ask_for_nothing(rt: HostRuntime) -> Result<(), Fail> {
    let cases: [&[&str]; 4] = [
        &[],
        &["hrt_check", "--help"],
        &["hrt_check", "--summary", "x"],
        &["hrt_check", ""],
    ];
    for words in cases {
        let answer = answered(rt.alloc(), words, b"")?;
        assert_eq!(rt; answer.0, Status::Usage);
        assert!(rt; answer.1.is_empty());
    }
    Ok(())
}

#[test]
fn streams_that_fail_have_statuses_of_their_own(rt: HostRuntime) -> Result<(), Fail> {
    let words = command(rt.alloc(), &["hrt_check"])?;
    let mut sink = Counted::new(Vec::new(rt.alloc()));
    let status = top(rt.alloc(), &words, &mut Counted::new(Broken), &mut sink);
    assert_eq!(rt; status, Status::ReadFault);
    assert!(rt; sink.inner.is_empty());
    let mut source = Counted::new(b"".as_slice());
    let status = top(rt.alloc(), &words, &mut source, &mut Counted::new(Broken));
    assert_eq!(rt; status, Status::WriteFault);
    Ok(())
}

#[test]
fn a_summary_has_a_line_for_each_kind_and_each_processor(rt: HostRuntime) -> Result<(), Fail> {
    let text =
        "hrtimer_start: hrtimer=a expires=5 softexpires=5\nhrtimer_start: hrtimer=b expires=5 softexpires=5\n[1] ..s. 1: hrtimer_expire_entry: hrtimer=b now=7\n[1] d.h. 1: hrtimer_expire_entry: hrtimer=a now=9\n";
    let told =
        "ok 4 events, 2 timers, 1 processors\nset-ups                 0\nstarts                  2\ncancels                 0\nexpiries                2\nreturns                 0\nlosses                  0\nmost queued at once     2\nlatest on 1 hard       4 ns\nlatest on 1 soft       2 ns\n";
    let answer = answered(rt.alloc(), &["hrt_check", "--summary"], text.as_bytes())?;
    assert_eq!(rt; answer.0, Status::Fits);
    assert_eq!(rt; answer.1.as_slice(), told.as_bytes());
    Ok(())
}

#[test]
fn a_summary_counts_nothing_over_a_loss(rt: HostRuntime) -> Result<(), Fail> {
    let text =
        "hrtimer_start: hrtimer=a expires=5 softexpires=5\nhrtimer_start: hrtimer=b expires=5 softexpires=5\nCPU:0 [LOST 3 EVENTS]\nhrtimer_start: hrtimer=a expires=7 softexpires=7\nhrtimer_start: hrtimer=c expires=7 softexpires=7\nhrtimer_start: hrtimer=d expires=7 softexpires=7\n[4294967295] d.h. 1: hrtimer_expire_entry: hrtimer=b now=9\n[1] d.h. 1: hrtimer_expire_exit: hrtimer=c\n";
    let told =
        "ok 8 events, 4 timers, 2 processors\nset-ups                 0\nstarts                  5\ncancels                 0\nexpiries                1\nreturns                 1\nlosses                  1\nmost queued at once     3\nlatest on 4294967295 hard       0 ns\n";
    let answer = answered(rt.alloc(), &["hrt_check", "--summary"], text.as_bytes())?;
    assert_eq!(rt; answer.0, Status::Fits);
    assert_eq!(rt; answer.1.as_slice(), told.as_bytes());
    Ok(())
}

#[test]
fn each_status_has_its_number_and_its_line(rt: HostRuntime) {
    let cases = [
        (Status::Fits, 0, None),
        (
            Status::Usage,
            2,
            Some("usage: hrt_check [--summary] < TRACE"),
        ),
        (Status::Unreadable, 3, None),
        (Status::ReadFault, 4, Some("hrt_check: read fault")),
        (Status::WriteFault, 5, Some("hrt_check: write fault")),
        (Status::OutOfMemory, 6, Some("hrt_check: out of memory")),
        (Status::Refused, 7, None),
        (Status::NoEvents, 8, None),
    ];
    for (status, code, message) in cases {
        assert_eq!(rt; status.code(), code);
        assert_eq!(rt; status.message(), message);
    }
}
