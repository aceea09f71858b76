//! Changes, written as UPDATEs of one route each.
ghost use Rattle.std.specs.Prelude.{◌≡◌, ◌≤◌, ◌<◌, ◌^◌, ◌++◌, [], ◌∷◌, length, Bool, false, IsTrue, OnOk, OnErr, IfOk};
ghost use Rattle.std.specs.List.{flat_map, AllByRecursion};
ghost use Rattle.byteorder.specs.Endian.{big_bytes};
ghost use Rattle.ov_types.specs.Targets.{is_target};
ghost use Rattle.bgp_wire.specs.Attributes.{is_extended, attribute_octets};
ghost use Rattle.bgp_wire.specs.Spelling.{spelling, IsReadAgain};
ghost use Rattle.bgp_vpn.specs.Routes.{route_octets};
ghost use Rattle.bgp_vpn.specs.Updates.{Changes};
ghost use Rattle.bgp_vpn.specs.Written.{IfPut, FitsItsTypes, route_of, attribute, origin, as_path, local_preference};
ghost use Rattle.bgp_vpn.specs.Written.{written_reach, written_unreach, target_octets, communities_of, attributes_of};
ghost use Rattle.bgp_vpn.specs.Written.{written, written_parts, MakesIt};

use crate::known::{
    AS_PATH, EXTENDED_COMMUNITIES, LEAST_BITS, LOCAL_PREF, MP_REACH_NLRI, MP_UNREACH_NLRI,
    OPTIONAL, OPTIONAL_AND_TRANSITIVE, ORIGIN, TRANSITIVE,
};
use crate::pieces::octets_for;
use bgp_wire::write_attributes;
use byteorder::{BigEndian, ByteOrder};
use ov_sync::Delta;
use ov_types::{NoMemory, Target, VpnKey, VpnRoute};
use std::alloc::Global;

/// The label field of a route that is withdrawn (RFC 8277, section 2.4).
const WITHDRAWN: u32 = 0x80_0000;

/// The start of a value of MP_REACH_NLRI: AFI 1, SAFI 128, and a next hop of 12 octets whose distinguisher is 0.
const REACH: [u8; 12] = [0, 1, 128, 12, 0, 0, 0, 0, 0, 0, 0, 0];

/// The start of a value of MP_UNREACH_NLRI: AFI 1, SAFI 128.
const UNREACH: [u8; 3] = [0, 1, 128];

/// Appends an attribute whose length has one octet.
fn push_attribute(flags: u8, kind: u8, value: &[u8], out: &mut Vec<u8>) -> Result<(), NoMemory>
    requires short { length value.now < 256 }
    requires not_extended { is_extended flags ≡ false }
    ensures { OnOk result (out.new.items ≡ out.old.items ++ attribute_octets (attribute flags kind value.now)) }
{
    out.extend_from_slice(&[flags, kind, value.len() as u8])?;
    out.extend_from_slice(value)?;
    Ok(())
}

/// The octets of a route before its prefix: its length in bits, its label field and its distinguisher.
fn route_start(bits: u8, field: u32, rd: u64) -> [u8; 12]
    requires { field < 2 ^ 24 }
    ensures octets { result ≡ bits ∷ (big_bytes 3 field ++ big_bytes 8 rd) }
    ensures distinguisher { rd < 2 ^ 64 }
{
    let mut octets = [bits; 12];
    BigEndian::write_u24(&mut octets[1..], field);
    BigEndian::write_u64(&mut octets[4..], rd);
    octets
}

fn address_octets(address: u32) -> [u8; 4]
    ensures octets { result ≡ big_bytes 4 address }
    ensures address { address < 2 ^ 32 }
{
    address.to_be_bytes()
}

/// The octets of the route of a key, with this label field.
fn route_of(alloc: Global, key: &VpnKey, field: u32) -> Result<Vec<u8>, NoMemory>
    requires { field < 2 ^ 24 }
    ensures ok { IfOk result (λ octets. octets.items ≡ route_octets (route_of key.now field)) }
    ensures key { FitsItsTypes key.now }
{
    let len = key.prefix.len();
    let start = route_start(LEAST_BITS + len, field, key.rd.0);
    let address = address_octets(key.prefix.addr().0);
    let mut octets = Vec::new(alloc);
    octets.extend_from_slice(&start)?;
    octets.extend_from_slice(&address[..octets_for(len)])?;
    Ok(octets)
}

/// The value of MP_REACH_NLRI.
fn reach_value(alloc: Global, key: &VpnKey, route: &VpnRoute) -> Result<Vec<u8>, NoMemory>
    requires { route.now.label.0 < 2 ^ 20 }
    ensures value { IfOk result (λ value. value.items ≡ written_reach key.now route.now) }
    ensures key { FitsItsTypes key.now }
    ensures next_hop { route.now.next_hop.0 < 2 ^ 32 }
{
    let next_hop = address_octets(route.next_hop.0);
    let octets = route_of(alloc, key, route.label.0 * 16 + 1)?;
    let mut value = Vec::new(alloc);
    value.extend_from_slice(&REACH)?;
    value.extend_from_slice(&next_hop)?;
    value.push(0)?;
    value.extend_from_slice(octets.as_slice())?;
    Ok(value)
}

/// The value of MP_UNREACH_NLRI.
fn unreach_value(alloc: Global, key: &VpnKey) -> Result<Vec<u8>, NoMemory>
    ensures value { IfOk result (λ value. value.items ≡ written_unreach key.now) }
    ensures key { FitsItsTypes key.now }
{
    let octets = route_of(alloc, key, WITHDRAWN)?;
    let mut value = Vec::new(alloc);
    value.extend_from_slice(&UNREACH)?;
    value.extend_from_slice(octets.as_slice())?;
    Ok(value)
}

/// The targets, each as eight octets.
fn target_octets(alloc: Global, targets: &[Target]) -> Result<Vec<u8>, NoMemory>
    ensures { IfOk result (λ octets. octets.items ≡ flat_map target_octets targets.now) }
{
    let mut octets = Vec::new(alloc);
    for target in targets {
        octets.extend_from_slice(&target.0.to_be_bytes())?;
    }
    Ok(octets)
}

/// Appends the extended communities, where there are some.
#[tactic(auto, using(crate::proofs::WrittenTargets::targets_length))]
fn push_communities(alloc: Global, targets: &[Target], out: &mut Vec<u8>) -> Result<(), NoMemory>
    requires { length targets.now ≤ 31 }
    ensures { OnOk result (out.new.items ≡ out.old.items ++ flat_map attribute_octets (communities_of targets.now)) }
{
    if targets.is_empty() {
        return Ok(());
    }
    let value = target_octets(alloc, targets)?;
    push_attribute(
        OPTIONAL_AND_TRANSITIVE,
        EXTENDED_COMMUNITIES,
        value.as_slice(),
        out,
    )
}

/// Appends the attributes that go with each route: ORIGIN, AS_PATH and LOCAL_PREF (RFC 4271, section 5.1).
fn push_well_known(out: &mut Vec<u8>) -> Result<(), NoMemory>
    ensures { OnOk result (out.new.items ≡ out.old.items
        ++ flat_map attribute_octets (origin ∷ as_path ∷ local_preference ∷ [])) }
{
    push_attribute(TRANSITIVE, ORIGIN, &[0], out)?;
    push_attribute(TRANSITIVE, AS_PATH, &[], out)?;
    push_attribute(TRANSITIVE, LOCAL_PREF, &[0, 0, 0, 100], out)
}

/// The attributes of a route that is put.
#[tactic(auto, using(crate::proofs::WrittenUpdates::put_makes, crate::proofs::WrittenUpdates::put_length))]
fn put_attributes(alloc: Global, key: &VpnKey, route: &VpnRoute) -> Result<Vec<u8>, NoMemory>
    requires few_targets { length route.now.targets ≤ 31 }
    requires route_targets { AllByRecursion (λ t. IsTrue (is_target t.0)) route.now.targets }
    requires label { route.now.label.0 < 2 ^ 20 }
    ensures octets { IfOk result (λ octets. octets.items
        ≡ flat_map attribute_octets (attributes_of (Delta.Put key.now route.now))) }
    ensures change { MakesIt (Delta.Put key.now route.now) }
    ensures length { length (flat_map attribute_octets (attributes_of (Delta.Put key.now route.now))) ≤ 512 }
{
    let targets = route.targets.items();
    let value = reach_value(alloc, key, route)?;
    let mut octets = Vec::new(alloc);
    push_well_known(&mut octets)?;
    push_attribute(OPTIONAL, MP_REACH_NLRI, value.as_slice(), &mut octets)?;
    push_communities(alloc, targets, &mut octets)?;
    Ok(octets)
}

/// The attributes of a route that is dropped.
#[tactic(auto, using(crate::proofs::WrittenUpdates::drop_makes, crate::proofs::WrittenUpdates::drop_length))]
fn drop_attributes(alloc: Global, key: &VpnKey) -> Result<Vec<u8>, NoMemory>
    ensures octets { IfOk result (λ octets. octets.items
        ≡ flat_map attribute_octets (attributes_of (Delta.Drop key.now))) }
    ensures change { MakesIt (Delta.Drop key.now) }
    ensures length { length (flat_map attribute_octets (attributes_of (Delta.Drop key.now))) ≤ 512 }
{
    let value = unreach_value(alloc, key)?;
    let mut octets = Vec::new(alloc);
    push_attribute(OPTIONAL, MP_UNREACH_NLRI, value.as_slice(), &mut octets)?;
    Ok(octets)
}

/// The attributes of a change.
fn attributes_of(alloc: Global, delta: &Delta<VpnKey, VpnRoute>) -> Result<Vec<u8>, NoMemory>
    requires few_targets { IfPut delta.now (λ route. length route.targets ≤ 31) }
    requires route_targets { IfPut delta.now (λ route. AllByRecursion (λ t. IsTrue (is_target t.0)) route.targets) }
    requires label { IfPut delta.now (λ route. route.label.0 < 2 ^ 20) }
    ensures octets { IfOk result (λ octets. octets.items ≡ flat_map attribute_octets (attributes_of delta.now)) }
    ensures change { MakesIt delta.now }
    ensures length { length (flat_map attribute_octets (attributes_of delta.now)) ≤ 512 }
{
    match delta {
        Delta::Put(key, route) => put_attributes(alloc, key, route),
        Delta::Drop(key) => drop_attributes(alloc, key),
    }
}

/// Appends the UPDATE of one change, whole or not at all (RFC 4760, sections 3 and 4; RFC 4364, section 4.3).
///
/// What is put has the attributes ORIGIN, AS_PATH, LOCAL_PREF, MP_REACH_NLRI and, where it has route targets, EXTENDED
/// COMMUNITIES; what is dropped has MP_UNREACH_NLRI alone.
pub fn write_update(
    alloc: Global,
    delta: &Delta<VpnKey, VpnRoute>,
    out: &mut Vec<u8>,
) -> Result<(), NoMemory>
    // The length of the extended communities has one octet.
    requires few_targets { IfPut delta.now (λ route. length route.targets ≤ 31) }
    requires route_targets { IfPut delta.now (λ route. AllByRecursion (λ t. IsTrue (is_target t.0)) route.targets) }
    requires label { IfPut delta.now (λ route. route.label.0 < 2 ^ 20) }
    ensures ok { OnOk result (out.new.items ≡ out.old.items ++ spelling (written delta.now)) }
    ensures err { OnErr result (out.new.items ≡ out.old.items) }

    // What is written is read again, as that one change, in both readings.
    ensures read_again { IsReadAgain (written delta.now) }
    ensures change { (wide : Bool) → Changes wide (written_parts delta.now) (delta.now ∷ []) }
    ensures length { length (spelling (written delta.now)) ≤ 4096 }
{
    let attributes = attributes_of(alloc, delta)?;
    write_attributes(alloc, attributes.as_slice(), out)
}
