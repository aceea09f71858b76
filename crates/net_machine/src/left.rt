//! Where a network is left for others.
ghost use Rattle.std.specs.Prelude.{◌≡◌, None, Some};

use crate::net::Net;

/// A value is put in a place, and what was there is let go.
fn put<T: Drop>(place: &mut T, value: T)
    ensures { place.new ≡ value }
{
    *place = value;
}

/// Leaves no network.
pub fn leave_none(net: &mut Option<Net>)
    ensures { net.new ≡ None }
{
    put(net, None);
}

/// Leaves a network.
pub fn leave(net: &mut Option<Net>, took: Net)
    ensures { net.new ≡ Some took }
{
    put(net, Some(took));
}
