//! Records on a link: the length in four octets, and as many octets of JSON.
ghost use Rattle.std.specs.Prelude.{◌≡◌};
ghost use Rattle.item_wire.specs.Frames.{frame_of, octets_seen};

use byteorder::{BigEndian, ByteOrder};
use thiserror::Error;

/// How many octets the length has.
const LENGTH_SIZE: usize = 4;

/// The most octets of JSON that a record has.
const MAX_RECORD_SIZE: u32 = 65_536;

/// A record says that it has more octets than one may have.
#[derive(Clone, Copy, Debug, PartialEq, Eq, Error)]
#[error("a record of {length} octets")]
pub struct TooLong {
    pub length: u32,
}

/// The octets of JSON of the first record, where they are all there. It takes no memory.
pub fn frame(bytes: &[u8]) -> Result<Option<&[u8]>, TooLong>
    ensures { octets_seen result ≡ frame_of bytes.now }
{
    if bytes.len() < LENGTH_SIZE {
        return Ok(None);
    }
    let length = BigEndian::read_u32(bytes);
    if length > MAX_RECORD_SIZE {
        return Err(TooLong { length });
    }
    let rest = &bytes[LENGTH_SIZE..];
    let size = length as usize;
    if rest.len() < size {
        return Ok(None);
    }
    Ok(Some(&rest[..size]))
}
