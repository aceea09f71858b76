//! Octets that are shown as text.
ghost use Rattle.std.specs.Prelude.{◌≡◌};
ghost use Rattle.std.specs.Str.{IsUtf8};
ghost use Rattle.explanations.specs.Words.{utf8_front};

use std::str;

/// The longest front of octets that is UTF-8.
pub(crate) fn utf8_front(octets: &[u8]) -> &str
    ensures { result.now ≡ utf8_front octets.now }
{
    match str::from_utf8(octets) {
        Ok(text) => text,
        Err(error) => text_before(&octets[..error.valid_up_to()]),
    }
}

/// Octets that are UTF-8, as text.
fn text_before(octets: &[u8]) -> &str
    requires { IsUtf8 octets.now }
    ensures { result.now ≡ octets.now }
{
    match str::from_utf8(octets) {
        Ok(text) => text,
        Err(_) => unreachable!(),
    }
}
