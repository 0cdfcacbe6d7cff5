//! The streams of std as a source and a sink.
use hrt_top::{Counted, Failed, Sink, Source};
use std::io::{self, Read, Write};
use std::test::Fail;

// A stream of std whose every call is an error.
#[derive(Drop)]
struct Broken;

impl Read for Broken {
    fn read(&mut self, _buf: &mut [u8]) -> io::Result<usize> {
        Err(io::Error::from(io::ErrorKind::BrokenPipe))
    }
}

impl Write for Broken {
    fn write(&mut self, _buf: &[u8]) -> io::Result<usize> {
        Err(io::Error::from(io::ErrorKind::BrokenPipe))
    }

    fn flush(&mut self) -> io::Result<()> {
        Ok(())
    }
}

#[test]
fn the_streams_of_std_hand_on_their_bytes_and_count_their_errors(
    rt: HostRuntime,
) -> Result<(), Fail> {
    let mut buf = [0u8; 4];
    let mut source = Counted::new(b"hrt".as_slice());
    assert_eq!(rt; source.read(&mut buf), Ok(3));
    assert_eq!(rt; buf, *b"hrt\0");
    assert_eq!(rt; source.read(&mut buf), Ok(0));
    assert_eq!(rt; source.faults, 0);
    let mut source = Counted::new(Broken);
    assert_eq!(rt; source.read(&mut buf), Err(Failed));
    assert_eq!(rt; source.faults, 1);

    let mut sink = Counted::new(Vec::new(rt.alloc()));
    assert_eq!(rt; sink.write(b"hrt"), Ok(3));
    assert_eq!(rt; sink.write(b""), Ok(0));
    assert_eq!(rt; sink.inner.as_slice(), b"hrt".as_slice());
    assert_eq!(rt; sink.faults, 0);
    let mut room = [0u8; 2];
    let mut full = Counted::new(room.as_mut_slice());
    assert_eq!(rt; full.write(b"hrt"), Ok(2));
    assert_eq!(rt; full.write(b"t"), Err(Failed));
    assert_eq!(rt; full.faults, 1);
    let mut sink = Counted::new(Broken);
    assert_eq!(rt; sink.write(b"hrt"), Err(Failed));
    assert_eq!(rt; sink.faults, 1);
    Ok(())
}
