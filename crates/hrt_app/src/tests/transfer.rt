//! As many bytes as a script may have, read and written.
use hrt_top::{BytesSink, BytesSource, CHUNK, Failed, MOST_BYTES, read_all, write_all};
use std::test::Fail;

#[test]
fn as_many_bytes_as_a_script_may_have_are_moved(rt: HostRuntime) -> Result<(), Fail> {
    let mut given = Vec::new(rt.alloc());
    for place in 0..MOST_BYTES {
        given.push((place % 251) as u8)?;
    }
    let mut source = BytesSource::new(&given, CHUNK, &[]);
    let mut sink = BytesSink::new(rt.alloc(), CHUNK, &[]);
    let written = match read_all(rt.alloc(), &mut source) {
        Ok(bytes) => write_all(&mut sink, &bytes),
        Err(_) => Err(Failed),
    };
    assert_eq!(rt; written, Ok(()));
    assert!(rt; sink.kept.bytes() == Some(given.as_slice()));
    Ok(())
}
