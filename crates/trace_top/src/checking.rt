//! Checks the text of a source.
ghost use Rattle.std.specs.Prelude.{◌≡◌, ◌≤◌, ◌++◌, List, ℕ, IfOk, OnOk, IsErrOf};
ghost use Rattle.std.specs.Io.KnownBytes.{Consumes};
ghost use Rattle.trace_top.specs.Checking.{HasChecked};
ghost use Rattle.trace_read.specs.Lines.{verdict_on};
ghost use Rattle.trace_read.specs.Readers.{HasReadSoFar, told_by};
ghost use Rattle.byte_streams.specs.Streams.{Rose};
ghost use Rattle.trace_top.specs.declared.checking.CheckFault.TheVariants.{OutOfMemory};

use byte_streams::Source;
use std::alloc::AllocError;
use trace_read::{Reader, Verdict};

/// The most bytes that one read of a source asks for.
const CHUNK: usize = 65536;

/// Why a text wasn't checked.
#[derive(Clone, Copy, Debug, PartialEq, Eq)]
pub enum CheckFault {
    Failed,
    OutOfMemory,
}

impl From<AllocError> for CheckFault {
    ghost from_gives = { λ _ e. e ≡ OutOfMemory };

    fn from(_: AllocError) -> Self {
        CheckFault::OutOfMemory
    }
}

/// Reads a source until its text can be answered: to its end, or to a line that can't be read or with which no history shows the lines so far.
pub fn check<S: Source>(reader: &mut Reader, source: &mut S) -> Result<Verdict, CheckFault>
    requires new { HasReadSoFar reader.old verdict_on told_by }
    ensures read { IfOk result (λ verdict. HasChecked (S.left source.old) (S.left source.new) verdict reader.new.tally) }
    ensures ok { OnOk result (S.faults source.new ≡ S.faults source.old) }
    ensures failed { IsErrOf result CheckFault.Failed → Rose (S.faults source.old) (S.faults source.new) }
    ensures given_up { IsErrOf result CheckFault.OutOfMemory → S.faults source.new ≡ S.faults source.old }
    ensures later { S.faults source.old ≤ S.faults source.new }
{
    let mut buf = [0u8; CHUNK];
    for _ in 0..u64::MAX {
        match source.read(&mut buf) {
            Ok(0) => return Ok(reader.end()?),
            Ok(n) => {
                if let Some(verdict) = reader.take(&buf[..n])? {
                    return Ok(verdict);
                }
            }
            Err(_) => return Err(CheckFault::Failed),
        }
    }
    Err(CheckFault::OutOfMemory)
}
