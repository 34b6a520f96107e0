ghost use Rattle.std.specs.Prelude.{◌≡◌, ◌<◌, length, vec_len, IfOk};
ghost use Rattle.eip_text.specs.Causes.{Rises};
ghost use Rattle.eip_line.specs.Known.{Refilled};
ghost use Rattle.eip_line.specs.Links.{link_failure};

use crate::link::{Link, LinkFault};
use eip_text::NoMemory;
use eip_uri::Uri;
use std::alloc::Global;

/// How many bytes are asked of a link at once.
const PIECE: usize = 65_536;

/// Room for what one reading gives.
pub fn new_piece(alloc: Global) -> Result<Vec<u8>, NoMemory>
    ensures { IfOk result (λ piece. 0 < vec_len piece) }
{
    Ok(vec![in alloc; 0; PIECE]?)
}

/// Reads once, and puts what came behind the bytes: whether any came, which at the end of what the link has is false.
/// Room is made before the reading, so that no byte is lost for want of memory.
pub fn read_behind<L: Link>(
    bytes: &mut Vec<u8>,
    piece: &mut [u8],
    link: &mut L,
    from: &Uri,
) -> Result<bool, LinkFault>
    requires { 0 < length piece.old }
    ensures refilled { Refilled bytes.old.items (L.unread link.old) result bytes.new.items (L.unread link.new) }
    ensures written { L.written link.new ≡ L.written link.old }
    ensures faults { Rises (link_failure result) (L.link_faults link.old) (L.link_faults link.new) }
{
    if bytes.reserve(piece.len()).is_err() {
        return Err(LinkFault::NoMemory);
    }
    match link.read(from, piece) {
        Ok(count) => {
            bytes.extend_from_slice(&piece[..count]).unwrap();
            Ok(count > 0)
        }
        Err(fault) => Err(fault),
    }
}
