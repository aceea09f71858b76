//! Parts that lie one after the other: a type, the length of a value, and the value.
ghost use Rattle.std.specs.Prelude.{◌≡◌, ◌++◌, ◌<◌, length, IfNone, IfSome};
ghost use Rattle.bgp_wire.specs.Parts.{octets_of, IsOverrun};

/// The part at the front of some octets, and the octets after it.
#[derive(Clone, Copy)]
pub(crate) struct Front<'a> {
    pub(crate) kind: u8,
    pub(crate) value: &'a [u8],
    pub(crate) after: &'a [u8],
}

/// None where the octets do not hold the part whole.
pub(crate) fn split_part(octets: &[u8]) -> Option<Front<'_>>
    requires { 0 < length octets.now }
    ensures found { IfSome result (λ front. octets.now
        ≡ octets_of (record { kind = front.kind; value = front.value.now }) ++ front.after.now) }
    ensures overrun { IfNone result (IsOverrun octets.now) }
{
    if octets.len() < 2 {
        return None;
    }
    let len = usize::from(octets[1]);
    let rest = &octets[2..];
    if rest.len() < len {
        return None;
    }
    let (value, after) = rest.split_at(len);
    Some(Front {
        kind: octets[0],
        value,
        after,
    })
}
