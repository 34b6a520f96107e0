ghost use Rattle.std.specs.Prelude.{◌<◌, length, vec_len, IfOk};
ghost use Rattle.eip_host.specs.Known.{Refilled};

use eip_text::NoMemory;
use std::alloc::Global;
use std::io::Read;

/// How many bytes are asked of a reader at once.
const PIECE: usize = 65_536;

/// Why nothing more was read.
#[derive(Clone, Copy, Debug, PartialEq, Eq)]
pub enum ReadFault {
    /// The reader answered an error.
    Failed,
    /// There was no memory, and nothing was read.
    NoMemory,
}

/// Room for what one reading gives.
pub fn new_piece(alloc: Global) -> Result<Vec<u8>, NoMemory>
    ensures { IfOk result (λ piece. 0 < vec_len piece) }
{
    Ok(vec![in alloc; 0; PIECE]?)
}

/// Reads once, and puts what came behind the bytes: whether any came, which at the reader's end is false. Room is
/// made before the reading, so that no byte is lost for want of memory.
pub fn read_behind<R: Read>(
    bytes: &mut Vec<u8>,
    piece: &mut [u8],
    reader: &mut R,
) -> Result<bool, ReadFault>
    requires { 0 < length piece.old }
    ensures { Refilled bytes.old.items (R.remaining reader.old) result bytes.new.items (R.remaining reader.new) }
{
    if bytes.reserve(piece.len()).is_err() {
        return Err(ReadFault::NoMemory);
    }
    let Ok(count) = reader.read(piece) else {
        return Err(ReadFault::Failed);
    };
    bytes.extend_from_slice(&piece[..count]).unwrap();
    Ok(count > 0)
}
