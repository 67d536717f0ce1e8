//! All that a source has.
ghost use Rattle.std.specs.Prelude.{◌≡◌, ◌≤◌, ◌<◌, ◌++◌, ◌+◌, IfErr, IfOk, IfSome, IsErrOf, OnOk, length, vec_len};
ghost use Rattle.line_loop.specs.Calls.{ReadsInTurn};
ghost use Rattle.console_command.specs.Source.{IsRead, IsUnread, are_well};
ghost use Rattle.console_command.specs.declared.source.Unread.TheVariants.{OutOfMemory};

use line_loop::Source;
use std::alloc::{AllocError, Global};

/// How many bytes are read at once at most.
const CHUNK: usize = 65_536;

/// How many bytes a dump may have.
const MOST_READ: usize = 268_435_456;

/// Why not all that a source has is read.
#[derive(Clone, Copy)]
pub(crate) enum Unread {
    /// There are more than 268435456 bytes.
    TooLong,
    OutOfMemory,
    /// A read failed.
    Broken,
}

impl From<AllocError> for Unread {
    ghost from_gives = { λ _ e. e ≡ OutOfMemory };

    fn from(_error: AllocError) -> Unread {
        Unread::OutOfMemory
    }
}

/// Reads to the end. A read that goes on behind the most bytes that there may be is the last; none is tried again.
pub(crate) fn read_all<R: Source>(alloc: Global, reader: &mut R) -> Result<Vec<u8>, Unread>
    ensures read { IfOk result (λ bytes. IfSome (R.remaining reader.old) (λ all. IsRead all (R.remaining reader.new) bytes.items)) }
    ensures unread { IfErr result (λ unread. IfSome (R.remaining reader.old) (λ all. IsUnread all (R.remaining reader.new) unread)) }
    ensures calls { ReadsInTurn R.reads reader.old reader.new (are_well result) }
{
    let mut chunk = vec![in alloc; 0; CHUNK]?;
    let mut bytes = Vec::new(alloc);
    'chunks: loop {
        let Ok(count) = reader.read_chunk(chunk.as_mut_slice()) else {
            return Err(Unread::Broken);
        };
        if count == 0 {
            return Ok(bytes);
        }
        if let Err(unread) = take_in(&mut bytes, &chunk[..count]) {
            return Err(unread);
        }
    }
}

// Puts a chunk behind what was read.
fn take_in(bytes: &mut Vec<u8>, chunk: &[u8]) -> Result<(), Unread>
    requires { vec_len bytes.old ≤ 268435456 }
    ensures taken { OnOk result (bytes.new.items ≡ bytes.old.items ++ chunk.now) }
    ensures fits { OnOk result (vec_len bytes.new ≤ 268435456) }
    ensures too_long { IsErrOf result Unread.TooLong → 268435456 < vec_len bytes.old + length chunk.now }
    ensures within { IsErrOf result Unread.OutOfMemory → vec_len bytes.old + length chunk.now ≤ 268435456 }
    ensures unbroken { IsErrOf result Unread.Broken → ⊥ }
{
    if chunk.len() > MOST_READ - bytes.len() {
        return Err(Unread::TooLong);
    }
    bytes.extend_from_slice(chunk)?;
    Ok(())
}
