//! Numbers at fixed places of octets. An octet that is not there is 0.
ghost use Rattle.std.specs.Prelude.{◌≡◌, ◌<◌, slice_index};
ghost use Rattle.byteorder.specs.Endian.{big_number};

pub(crate) fn octet_at(octets: &[u8], index: usize) -> u8
    ensures { result ≡ slice_index octets.now index }
{
    if index < octets.len() {
        octets[index]
    } else {
        0
    }
}

fn digit_at(octets: &[u8], index: usize) -> u32
    ensures value { result ≡ slice_index octets.now index }
    ensures small { result < 256 }
{
    u32::from(octet_at(octets, index))
}

/// The number in the first four octets.
pub(crate) fn address_in(octets: &[u8]) -> u32
    ensures { result ≡ big_number 4 octets.now }
{
    digit_at(octets, 0) * 0x100_0000
        + digit_at(octets, 1) * 0x1_0000
        + digit_at(octets, 2) * 0x100
        + digit_at(octets, 3)
}
