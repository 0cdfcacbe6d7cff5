//! Reading a source to its end.
ghost use Rattle.std.specs.Prelude.{◌≡◌, ◌≤◌, ◌+◌, ℕ, List, length, take, IfOk, OnOk, IsErrOf};
ghost use Rattle.std.specs.Io.KnownBytes.{Consumes};
ghost use Rattle.byte_streams.specs.Streams.{Rose, HasCause};
ghost use Rattle.hrt_top.specs.Transfer.{IsRead, TakesAtMost, most_bytes};
ghost use Rattle.hrt_top.specs.declared.transfer.ReadFault.TheVariants.{OutOfMemory};

use byte_streams::Source;
use std::alloc::{AllocError, Global};

/// The most bytes that a script may have.
pub const MOST_BYTES: usize = 1_048_576;

/// The most bytes that one read of a source asks for.
pub const CHUNK: usize = 4096;

/// Why a source wasn't read.
#[derive(Clone, Copy, Debug, PartialEq, Eq)]
pub enum ReadFault {
    Failed,
    OutOfMemory,
}

impl From<AllocError> for ReadFault {
    ghost from_gives = { λ _ e. e ≡ OutOfMemory };

    fn from(_: AllocError) -> Self {
        ReadFault::OutOfMemory
    }
}

/// Reads a source to its end, or until more than `MOST_BYTES` were taken.
pub fn read_all<S: Source>(alloc: Global, source: &mut S) -> Result<Vec<u8>, ReadFault>
    ensures read { IfOk result (λ bytes. IsRead (S.left source.old) (S.left source.new) bytes.items) }
    ensures ok { OnOk result (S.faults source.new ≡ S.faults source.old) }
    ensures failed { IsErrOf result ReadFault.Failed → Rose (S.faults source.old) (S.faults source.new) }
    ensures given_up { IsErrOf result ReadFault.OutOfMemory → S.faults source.new ≡ S.faults source.old }
    ensures short { IsErrOf result ReadFault.Failed → TakesAtMost (S.left source.old) (S.left source.new) most_bytes }
    ensures later { S.faults source.old ≤ S.faults source.new }
{
    let mut bytes = Vec::new(alloc);
    let mut buf = [0u8; CHUNK];
    while bytes.len() <= MOST_BYTES {
        match source.read(&mut buf) {
            Ok(0) => return Ok(bytes),
            Ok(n) => bytes.extend_from_slice(&buf[..n])?,
            Err(_) => return Err(ReadFault::Failed),
        }
    }
    Ok(bytes)
}
