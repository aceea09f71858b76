//! Changes of what is asked, written as UPDATEs of one entry each.
ghost use Rattle.std.specs.Prelude.{◌≡◌, ◌≤◌, ◌<◌, ◌^◌, ◌++◌, ◌∷◌, [], length, take, Bool, OnOk, OnErr, IfOk};
ghost use Rattle.std.specs.List.{flat_map};
ghost use Rattle.byteorder.specs.Endian.{big_bytes};
ghost use Rattle.ov_sync.specs.declared.Delta.{Delta};
ghost use Rattle.ov_sync.specs.Keyed.{key_of};
ghost use Rattle.bgp_wire.specs.Attributes.{attribute_octets};
ghost use Rattle.bgp_wire.specs.Spelling.{spelling, IsReadAgain};
ghost use Rattle.bgp_vpn.specs.Pieces.{octets_for};
ghost use Rattle.bgp_vpn.specs.Written.{attribute};
ghost use Rattle.rt_membership.specs.Asked.{IsAsked};
ghost use Rattle.rt_membership.specs.Memberships.{Asks};
ghost use Rattle.rt_membership.specs.Written.{written_reach, written_unreach, attributes_of, written_parts, written};
ghost use Rattle.rt_membership.specs.Written.{FitsItsTypes, MakesIt};

use crate::asked::Asked;
use crate::entry::octets_for;
use crate::known::{MOST_OCTETS, MP_REACH_NLRI, MP_UNREACH_NLRI};
use bgp_wire::write_attributes;
use byteorder::{BigEndian, ByteOrder};
use ov_sync::Delta;
use ov_types::{Addr, NoMemory};
use std::alloc::Global;

/// The attributes of each UPDATE that announces (RFC 4271, section 5.1): ORIGIN, whose value is IGP, an empty AS_PATH, and
/// a LOCAL_PREF of 100.
const WELL_KNOWN: [u8; 14] = [0x40, 1, 1, 0, 0x40, 2, 0, 0x40, 5, 4, 0, 0, 0, 100];

/// The start of a value of MP_REACH_NLRI: AFI 1, SAFI 132, and the length of a next hop.
const REACH: [u8; 4] = [0, 1, 132, 4];

/// The start of a value of MP_UNREACH_NLRI: AFI 1, SAFI 132.
const UNREACH: [u8; 3] = [0, 1, 132];

/// The 96 bits of what is asked.
fn octets_of(origin: u32, target: u64) -> [u8; MOST_OCTETS]
    ensures octets { result ≡ big_bytes 4 origin ++ big_bytes 8 target }
    ensures origin { origin < 2 ^ 32 }
    ensures target { target < 2 ^ 64 }
{
    let mut octets = [0; MOST_OCTETS];
    BigEndian::write_u32(&mut octets, origin);
    BigEndian::write_u64(&mut octets[4..], target);
    octets
}

/// Appends the entry of so many of these bits.
fn push_entry(length: u8, octets: &[u8; MOST_OCTETS], out: &mut Vec<u8>) -> Result<(), NoMemory>
    requires { length ≤ 96 }
    ensures { OnOk result (out.new.items ≡ out.old.items ++ length ∷ take (octets_for length) octets.now) }
{
    out.push(length)?;
    out.extend_from_slice(&octets[..octets_for(length)])?;
    Ok(())
}

/// The value of MP_REACH_NLRI.
#[tactic(auto, using(crate::proofs::Writing::at_most))]
fn reach_value(alloc: Global, asked: &Asked, next_hop: Addr) -> Result<Vec<u8>, NoMemory>
    requires { IsAsked asked.now }
    ensures value { IfOk result (λ value. value.items ≡ written_reach asked.now next_hop) }
    ensures fits { FitsItsTypes asked.now }
{
    let octets = octets_of(asked.origin, asked.target.0);
    let mut value = Vec::new(alloc);
    value.extend_from_slice(&REACH)?;
    value.extend_from_slice(&next_hop.0.to_be_bytes())?;
    value.push(0)?;
    push_entry(asked.length, &octets, &mut value)?;
    Ok(value)
}

/// The value of MP_UNREACH_NLRI.
#[tactic(auto, using(crate::proofs::Writing::at_most))]
fn unreach_value(alloc: Global, asked: &Asked) -> Result<Vec<u8>, NoMemory>
    requires { IsAsked asked.now }
    ensures value { IfOk result (λ value. value.items ≡ written_unreach asked.now) }
    ensures fits { FitsItsTypes asked.now }
{
    let octets = octets_of(asked.origin, asked.target.0);
    let mut value = Vec::new(alloc);
    value.extend_from_slice(&UNREACH)?;
    push_entry(asked.length, &octets, &mut value)?;
    Ok(value)
}

/// Appends an attribute with the flag Optional, whose length has one octet.
fn push_optional(kind: u8, value: &[u8], out: &mut Vec<u8>) -> Result<(), NoMemory>
    requires { length value.now < 256 }
    ensures { OnOk result (out.new.items ≡ out.old.items ++ attribute_octets (attribute 0x80 kind value.now)) }
{
    out.extend_from_slice(&[0x80, kind, value.len() as u8])?;
    out.extend_from_slice(value)?;
    Ok(())
}

/// The attributes of what is asked.
#[tactic(auto, using(crate::proofs::Writing::put_makes, crate::proofs::Writing::put_length, crate::proofs::Writing::reach_length))]
fn put_attributes(alloc: Global, asked: &Asked, next_hop: Addr) -> Result<Vec<u8>, NoMemory>
    requires { IsAsked asked.now }
    ensures octets { IfOk result (λ octets. octets.items
        ≡ flat_map attribute_octets (attributes_of (Delta.Put asked.now tt) next_hop)) }
    ensures change { MakesIt (Delta.Put asked.now tt) next_hop }
    ensures length { length (flat_map attribute_octets (attributes_of (Delta.Put asked.now tt) next_hop)) ≤ 64 }
{
    let value = reach_value(alloc, asked, next_hop)?;
    let mut octets = Vec::new(alloc);
    octets.extend_from_slice(&WELL_KNOWN)?;
    push_optional(MP_REACH_NLRI, value.as_slice(), &mut octets)?;
    Ok(octets)
}

/// The attributes of what is no longer asked.
#[tactic(auto, using(crate::proofs::Writing::drop_makes, crate::proofs::Writing::drop_length, crate::proofs::Writing::unreach_length))]
fn drop_attributes(alloc: Global, asked: &Asked, next_hop: Addr) -> Result<Vec<u8>, NoMemory>
    requires { IsAsked asked.now }
    ensures octets { IfOk result (λ octets. octets.items
        ≡ flat_map attribute_octets (attributes_of (Delta.Drop asked.now) next_hop)) }
    ensures change { MakesIt (Delta.Drop asked.now) next_hop }
    ensures length { length (flat_map attribute_octets (attributes_of (Delta.Drop asked.now) next_hop)) ≤ 64 }
{
    let value = unreach_value(alloc, asked)?;
    let mut octets = Vec::new(alloc);
    push_optional(MP_UNREACH_NLRI, value.as_slice(), &mut octets)?;
    Ok(octets)
}

/// The attributes of a change.
fn attributes_of(
    alloc: Global,
    delta: &Delta<Asked, ()>,
    next_hop: Addr,
) -> Result<Vec<u8>, NoMemory>
    requires { IsAsked (key_of delta.now) }
    ensures octets { IfOk result (λ octets. octets.items
        ≡ flat_map attribute_octets (attributes_of delta.now next_hop)) }
    ensures change { MakesIt delta.now next_hop }
    ensures length { length (flat_map attribute_octets (attributes_of delta.now next_hop)) ≤ 64 }
{
    match delta {
        Delta::Put(asked, ()) => put_attributes(alloc, asked, next_hop),
        Delta::Drop(asked) => drop_attributes(alloc, asked, next_hop),
    }
}

/// Appends the UPDATE of one change of what is asked, whole or not at all (RFC 4760, sections 3 and 4; RFC 4684,
/// section 4).
///
/// What is asked has the attributes ORIGIN, AS_PATH, LOCAL_PREF and MP_REACH_NLRI, whose next hop has four octets; what
/// is no longer asked has MP_UNREACH_NLRI alone.
pub fn write_membership(
    alloc: Global,
    delta: &Delta<Asked, ()>,
    next_hop: Addr,
    out: &mut Vec<u8>,
) -> Result<(), NoMemory>
    requires { IsAsked (key_of delta.now) }
    ensures ok { OnOk result (out.new.items ≡ out.old.items ++ spelling (written delta.now next_hop)) }
    ensures err { OnErr result (out.new.items ≡ out.old.items) }

    // What is written is read again, as that one change, in both readings.
    ensures read_again { IsReadAgain (written delta.now next_hop) }
    ensures change { (wide : Bool) → Asks wide (written_parts delta.now next_hop) (delta.now ∷ []) }
    ensures length { length (spelling (written delta.now next_hop)) ≤ 4096 }
{
    let attributes = attributes_of(alloc, delta, next_hop)?;
    write_attributes(alloc, attributes.as_slice(), out)
}
