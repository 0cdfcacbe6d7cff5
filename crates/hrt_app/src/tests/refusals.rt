//! Bytes that no script has: each is refused by its first line that isn't read and the first cause against that.
use super::ends::{first_other, reading, refused};
use super::run_words;
use hrt_top::{Status, on_bytes};
use lane_run::OpenGate;
use std::alloc::{AllocError, Global};
use std::sync::Wait;
use std::test::Fail;
use std::thread::Threads;

/// A script's first four lines.
const HEAD: &[u8] = b"hrt 1\nbases 1\nlanes 1\nlimit 100\n";

/// Bytes that no script has, a case a line: the number of the line and the cause that refuse them; `|`; and the bytes, where `@` stands for
/// a script's first four lines and `/` for a newline.
const REFUSED: &[u8] = b"\
1: Unfinished|
1: Version|hrt 3/
1: BadSpace|hrt  1/
1: WordCount|hrt 1 1/
2: UnknownWord|hrt 1/bas
2: BadNumber|hrt 1/bases 01/
2: BaseLimit|hrt 1/bases 9/
2: BadPlace|hrt 1/lanes 1/
5: BadId|@raw 1 monotonic once/
5: BadPlace|@0 peek 0/
6: LaneLimit|@round/1 advance 5/
6: NoTimer|@round/0 peek 0/
6: BudgetLimit|@round/0 expire 0 4097/
7: WrongKind|@raw 0 monotonic once/round/0 read 0 8/
";

/// Words and numbers that version 2 alone has, in a script of version 1, and those that it doesn't have either.
const OF_A_VERSION: &[u8] = b"\
2: Unfinished|hrt 2/
2: BaseLimit|hrt 2/bases 65/
4: EventLimit|hrt 2/bases 64/lanes 64/limit 281474976708609/
4: EventLimit|hrt 1/bases 8/lanes 16/limit 281474976710641/
5: UnknownWord|@soft 0 monotonic once/
5: UnknownWord|hrt 2/bases 1/lanes 1/limit 1/soft 0 monotonic cancels/
6: UnknownWord|@round/0 softexpire 0 4/
6: UnknownWord|@round/0 startrange 0 rel 5 5 0/
";

/// Zero bytes, carriage returns, tabs, and bytes past 126, in UTF-8 or not.
const STRANGE: &[u8] = b"\
1: BadByte|\x00
2: BadByte|hrt 1/\x00/
1: BadByte|hrt 1\x00/
1: BadByte|hrt 1\r/bases 1\r/
1: BadByte|hrt 1\rbases 1/
2: BadByte|hrt 1/\r/bases 1/
2: BadByte|hrt 1/\tbases 1/
1: BadByte|hrt 1\x7f/
1: BadByte|\xef\xbb\xbfhrt 1/
2: BadByte|hrt 1/b\xc3\xa4ses 1/
2: BadByte|hrt 1/bases\xc2\xa01/
2: BadByte|hrt 1/\xff\xfe/
";

/// Lines against which there are two causes or more. The first in the order of causes is told.
const TWO_CAUSES: &[u8] = b"\
2: BadByte|hrt 1/ bases\x00 1/
1: BadSpace| nothing of this kind/
1: BadSpace|nothing  of this kind/
1: UnknownWord|nothing 01 01/
1: WordCount|hrt 01 1/
1: BadNumber|lanes 01/
1: BadNumber|raw 01 hourly once/
1: UnknownWord|raw 0 hourly every 01/
1: BadPlace|lanes 17/
6: LaneLimit|@round/1 read 0 8/
6: BaseLimit|@round/0 expire 1 4097/
7: BaseLimit|@raw 0 monotonic once/round/0 start 0 abs 5 1/0 read 0 8/
";

/// What stands before the first of a byte, and what stands behind it.
fn cut(text: &[u8], at: u8) -> (&[u8], &[u8]) {
    for (i, byte) in text.iter().enumerate() {
        if *byte == at {
            return (
                text.get(..i).unwrap_or(b""),
                text.get(i + 1..).unwrap_or(b""),
            );
        }
    }
    (text, b"")
}

/// The bytes that a case writes.
fn written(alloc: Global, text: &[u8]) -> Result<Vec<u8>, AllocError> {
    let mut bytes = Vec::new(alloc);
    for byte in text {
        match byte {
            b'@' => bytes.extend_from_slice(HEAD)?,
            b'/' => bytes.push(b'\n')?,
            _ => bytes.push(*byte)?,
        }
    }
    Ok(bytes)
}

/// How many of these cases are refused by the line that they name, at the end of a source of one byte a read, and with no fault.
fn refused_as_named<R: Threads + Wait + Sync + AllocGlobal>(
    rt: &R,
    cases: &[u8],
) -> Result<u32, Fail> {
    let mut as_named: u32 = 0;
    let mut rest = cases;
    for _ in 0..u32::MAX {
        if rest.is_empty() {
            break;
        }
        let (case, after) = cut(rest, b'\n');
        let (told, text) = cut(case, b'|');
        let line = joined(rt.alloc(), b"line ", told, 1, b"\n")?;
        let bytes = written(rt.alloc(), text)?;
        // A last read finds the end.
        let end = refused((bytes.len() as u64).saturating_add(1));
        if first_other(rt, &[reading(&bytes, 1, &[], end, &line)])?.is_none() {
            as_named = as_named.saturating_add(1);
        }
        rest = after;
    }
    Ok(as_named)
}

/// Bytes that are made of a front, a piece that is repeated so often, and a back; and the line that refuses them.
const LONG: [(&[u8], &[u8], usize, &[u8], &[u8]); 14] = [
    (b"", b"a", 65_536, b"\n", b"line 1: UnknownWord\n"),
    (b"", b" ", 65_536, b"\n", b"line 1: BadSpace\n"),
    (b"hrt", b" 1", 32_768, b"\n", b"line 1: WordCount\n"),
    (b"hrt 1\n", b"\x00", 65_536, b"\n", b"line 2: BadByte\n"),
    (b"hrt 1\n", b"\r", 65_536, b"", b"line 2: BadByte\n"),
    (b"hrt 1\n", b"\xff", 1_048_570, b"", b"line 2: BadByte\n"),
    (b"hrt ", b"1", 1000, b"\n", b"line 1: BadNumber\n"),
    (b"hrt ", b"1", 1_048_572, b"", b"line 1: BadNumber\n"),
    (b"hrt 1\nbases ", b"0", 1000, b"1\n", b"line 2: BadNumber\n"),
    (
        b"hrt 1\nbases 1\nlanes 1\nlimit 100\nround\n0 advance ",
        b"9",
        1000,
        b"\n",
        b"line 6: BadNumber\n",
    ),
    (
        b"hrt 1\nbases 1\nlanes 1\nlimit 100\nround\n",
        b"7",
        1000,
        b" advance 1\n",
        b"line 6: BadNumber\n",
    ),
    (b"", b"\n", 65_536, b"hrt 3\n", b"line 65537: Version\n"),
    (b"#", b"\x00", 65_536, b"\nhrt 3\n", b"line 2: Version\n"),
    (b"", b"#\r\n", 65_536, b"hrt 3\n", b"line 65537: Version\n"),
];

/// The bytes of a front, a piece so often, and a back.
fn joined(
    alloc: Global,
    front: &[u8],
    piece: &[u8],
    times: usize,
    back: &[u8],
) -> Result<Vec<u8>, AllocError> {
    let mut bytes = Vec::new(alloc);
    bytes.extend_from_slice(front)?;
    for _ in 0..times {
        bytes.extend_from_slice(piece)?;
    }
    bytes.extend_from_slice(back)?;
    Ok(bytes)
}

#[test]
fn bytes_that_no_script_has_are_refused_by_line_and_cause(rt: HostRuntime) -> Result<(), Fail> {
    assert_eq!(rt; refused_as_named(&rt, REFUSED)?, 14);
    assert_eq!(rt; refused_as_named(&rt, OF_A_VERSION)?, 8);
    assert_eq!(rt; refused_as_named(&rt, STRANGE)?, 12);
    assert_eq!(rt; refused_as_named(&rt, TWO_CAUSES)?, 12);
    Ok(())
}

#[test]
fn long_lines_and_numbers_of_a_thousand_digits_are_refused(rt: HostRuntime) -> Result<(), Fail> {
    let words = run_words(rt.alloc())?;
    for (front, piece, times, back, line) in LONG {
        let bytes = joined(rt.alloc(), front, piece, times, back)?;
        let (status, sink) = on_bytes(&rt, &words, &bytes, &OpenGate);
        assert_eq!(rt; status, Status::Refused);
        assert_eq!(rt; sink.kept.bytes(), Some(line));
    }
    Ok(())
}

#[test]
fn a_line_of_any_bytes_behind_a_hash_is_skipped(rt: HostRuntime) -> Result<(), Fail> {
    let words = run_words(rt.alloc())?;
    let script =
        b"#\x00\r\xff\n\nhrt 1\nbases 1\n# \xc3\xa4  \x7f\nlanes 1\n#hrt 2\nlimit 100\n#\t";
    let (status, sink) = on_bytes(&rt, &words, script, &OpenGate);
    assert_eq!(rt; status, Status::Ok);
    assert_eq!(rt; sink.kept.bytes(), Some(b"record 1\nend\n".as_slice()));
    Ok(())
}
