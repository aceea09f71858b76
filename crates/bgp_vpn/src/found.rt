//! The attributes that an UPDATE is asked for.
ghost use Rattle.std.specs.Prelude.{◌≡◌, [], option_copied};
ghost use Rattle.bgp_wire.specs.Attributes.{fields_of};
ghost use Rattle.bgp_vpn.specs.Found.{value_or, IsFound, Adds};

use crate::known::{
    AS_PATH, EXTENDED_COMMUNITIES, MP_REACH_NLRI, MP_UNREACH_NLRI, NEXT_HOP, ORIGIN,
};
use bgp_wire::Attribute;

/// The values of the attributes that were found, of those that have been walked over.
#[derive(Clone, Copy)]
pub(crate) struct Found<'a> {
    pub(crate) origin: Option<&'a [u8]>,
    pub(crate) as_path: Option<&'a [u8]>,
    pub(crate) next_hop: Option<&'a [u8]>,
    pub(crate) reach: Option<&'a [u8]>,
    pub(crate) unreach: Option<&'a [u8]>,
    pub(crate) communities: Option<&'a [u8]>,
}

/// The value of an attribute that has this type, or what was found before.
fn value_or<'a>(kind: u8, attribute: &Attribute<'a>, before: Option<&'a [u8]>) -> Option<&'a [u8]>
    ensures { option_copied result ≡ value_or kind (fields_of attribute.now) (option_copied before.entry) }
{
    if attribute.kind == kind {
        Some(attribute.value)
    } else {
        before
    }
}

impl<'a> Found<'a> {
    pub(crate) fn nothing() -> Found<'a>
        ensures { IsFound result [] }
    {
        Found {
            origin: None,
            as_path: None,
            next_hop: None,
            reach: None,
            unreach: None,
            communities: None,
        }
    }

    /// One attribute more.
    pub(crate) fn add(&mut self, attribute: &Attribute<'a>)
        ensures { Adds self.old (fields_of attribute.now) self.new }
    {
        self.origin = value_or(ORIGIN, attribute, self.origin);
        self.as_path = value_or(AS_PATH, attribute, self.as_path);
        self.next_hop = value_or(NEXT_HOP, attribute, self.next_hop);
        self.reach = value_or(MP_REACH_NLRI, attribute, self.reach);
        self.unreach = value_or(MP_UNREACH_NLRI, attribute, self.unreach);
        self.communities = value_or(EXTENDED_COMMUNITIES, attribute, self.communities);
    }
}
