//! What the grammar of UPDATEs promises.
ghost use Rattle.std.specs.Prelude.{◌≡◌, ◌<◌, ◌+◌, ◌*◌, ◌-◌, ◌^◌, ◌⊎◌, ◌↔◌, ℕ, List, Some, length, map, Contains};
ghost use Rattle.std.specs.Prelude.{IsTrue, Bool, true, false, []};
ghost use Rattle.std.specs.List.{AllByRecursion};
ghost use Rattle.ov_types.specs.declared.vpn.VpnKey.{VpnKey};
ghost use Rattle.ov_types.specs.declared.vpn.VpnRoute.{VpnRoute};
ghost use Rattle.ov_sync.specs.declared.Delta.{Delta};
ghost use Rattle.bgp_wire.specs.declared.fault.WireFault.{WireFault};
ghost use Rattle.ov_types.specs.declared.targets.Target.{Target};
ghost use Rattle.ov_types.specs.Targets.{is_target, IsAscending};
ghost use Rattle.bgp_wire.specs.Attributes.{AttributeFields, AreAttributes};
ghost use Rattle.bgp_wire.specs.Content.{UpdateFields};
ghost use Rattle.bgp_wire.specs.Messages.{AreOctets};
ghost use Rattle.bgp_vpn.specs.Pieces.{are_prefixes, are_segments};
ghost use Rattle.bgp_vpn.specs.Segments.{SegmentFields, AreSegments, ReadsAlike};
ghost use Rattle.bgp_vpn.specs.Checks.{update_fault};
ghost use Rattle.bgp_vpn.specs.Routes.{RouteFields, ArePrefixes, label_of, distinguisher_of, key_of, drop_of};
ghost use Rattle.bgp_vpn.specs.Values.{next_hop_of, routes_behind, next_hop_in, targets_in, communities, targets_among};
ghost use Rattle.bgp_vpn.specs.Values.{value_at};
ghost use Rattle.bgp_vpn.specs.Spellings.{spelled_route, AgreeIn, reach_value};
ghost use Rattle.bgp_vpn.specs.Updates.{changes_of, Changes, HasUpdateFault};
ghost use Rattle.bgp_vpn.specs.Written.{IfPut};

/// An UPDATE makes changes or has a fault: always one of the two, only one, and in one way.
pub fn an_update_says_one_thing()
    ensures some { (wide : Bool) (parts : UpdateFields) → AreOctets parts.attributes
        → ((deltas : List (Delta VpnKey VpnRoute)) × Changes wide parts deltas)
        ⊎ ((f : WireFault) × HasUpdateFault wide parts f) }
    ensures never_both { (wide : Bool) (parts : UpdateFields) (deltas : List (Delta VpnKey VpnRoute)) (f : WireFault)
        → Changes wide parts deltas → HasUpdateFault wide parts f → ⊥ }
    ensures changes { (wide : Bool) (parts : UpdateFields) (a b : List (Delta VpnKey VpnRoute)) → Changes wide parts a → Changes wide parts b
        → a ≡ b }
    ensures fault { (wide : Bool) (parts : UpdateFields) (f g : WireFault) → HasUpdateFault wide parts f → HasUpdateFault wide parts g → f ≡ g }
{}

/// What a route says does not depend on what its spelling leaves open.
pub fn spellings_of_a_route_are_one()
    // The lower four bits of the label field are passed over.
    ensures label { (bits label low rd : ℕ) (prefix : List ℕ) → label < 2 ^ 20 → low < 16
        → label_of (spelled_route bits (label * 16 + low) rd prefix) ≡ record { 0 = label } }
    ensures distinguisher { (bits field rd : ℕ) (prefix : List ℕ) → rd < 2 ^ 64
        → distinguisher_of (spelled_route bits field rd prefix) ≡ record { 0 = rd } }

    // A withdrawal does not depend on the label field, and no key on the trailing bits of the prefix.
    ensures withdrawal { (bits field other rd : ℕ) (prefix : List ℕ)
        → drop_of (spelled_route bits field rd prefix) ≡ drop_of (spelled_route bits other rd prefix) }
    ensures trailing_bits { (bits field rd : ℕ) (p q : List ℕ) → AgreeIn (bits - 88) p q
        → key_of (spelled_route bits field rd p) ≡ key_of (spelled_route bits field rd q) }
{}

/// The first octets of a next hop and the reserved octet are passed over.
pub fn spellings_of_a_next_hop_are_one()
    ensures next_hop { (first : List ℕ) (hop reserved : ℕ) (routes : List ℕ) → length first ≡ 8 → hop < 2 ^ 32
        → next_hop_of (Some (reach_value first hop reserved routes)) ≡ record { 0 = hop } }
    ensures routes { (first : List ℕ) (hop reserved : ℕ) (routes : List ℕ) → length first ≡ 8
        → routes_behind 17 (Some (reach_value first hop reserved routes)) ≡ routes }
{}

/// Routes of equal keys and labels, with equal next hops and targets, make equal changes.
pub fn equal_routes_make_equal_changes()
    ensures { (a b : List AttributeFields) (withdrawn gone reached found : List RouteFields)
        → next_hop_in a ≡ next_hop_in b → targets_in a ≡ targets_in b
        → map key_of withdrawn ≡ map key_of gone → map key_of reached ≡ map key_of found
        → map label_of reached ≡ map label_of found
        → changes_of a withdrawn reached ≡ changes_of b gone found }
{}

/// The targets of an UPDATE are those of its extended communities that are route targets, each once and ascending.
pub fn targets_are_those_communities()
    ensures each { (value : List ℕ) (t : Target)
        → Contains (targets_among value) t ↔ (Contains (communities value) t.0 × IsTrue (is_target t.0)) }
    ensures ascending { (value : List ℕ) → IsAscending (targets_among value) }
{}

/// The tests on routes and on segments of an AS_PATH hold of exactly the octets that are lists of these.
pub fn tests_hold_of_exactly_the_lists()
    ensures prefixes { (least greatest : ℕ) (octets : List ℕ) → IsTrue (are_prefixes least greatest octets)
        → (prefixes : List RouteFields) × ArePrefixes least greatest octets prefixes }
    ensures no_other_prefixes { (least greatest : ℕ) (octets : List ℕ) (prefixes : List RouteFields)
        → ArePrefixes least greatest octets prefixes → IsTrue (are_prefixes least greatest octets) }
    ensures segments { (size : ℕ) (octets : List ℕ) → IsTrue (are_segments size octets)
        → (segments : List SegmentFields) × AreSegments size octets segments }
    ensures no_other_segments { (size : ℕ) (octets : List ℕ) (segments : List SegmentFields)
        → AreSegments size octets segments → IsTrue (are_segments size octets) }
{}

/// Where octets are below 256, the label of each route that is put has 20 bits (RFC 3032, section 2.1).
pub fn labels_have_20_bits()
    ensures { (wide : Bool) (parts : UpdateFields) (deltas : List (Delta VpnKey VpnRoute)) → AreOctets parts.attributes
        → Changes wide parts deltas → AllByRecursion (λ d. IfPut d (λ route. route.label.0 < 2 ^ 20)) deltas }
{}

/// What an UPDATE says wide and what it says otherwise differ in segments alone: where the value of each AS_PATH is
/// segments of numbers of four octets exactly where it is segments of numbers of two, the first check that fails is the
/// same, and so are the changes.
pub fn readings_differ_in_segments_alone()
    ensures first_check { (parts : UpdateFields) (attributes : List AttributeFields) (tail : List ℕ)
        → AllByRecursion ReadsAlike attributes
        → update_fault true parts attributes tail ≡ update_fault false parts attributes tail }
    ensures changes { (parts : UpdateFields) (attributes : List AttributeFields) (tail : List ℕ)
        (deltas : List (Delta VpnKey VpnRoute)) → AreAttributes parts.attributes attributes tail
        → AllByRecursion ReadsAlike attributes → Changes true parts deltas ↔ Changes false parts deltas }
    ensures fault { (parts : UpdateFields) (attributes : List AttributeFields) (tail : List ℕ) (f : WireFault)
        → AreAttributes parts.attributes attributes tail → AllByRecursion ReadsAlike attributes
        → HasUpdateFault true parts f ↔ HasUpdateFault false parts f }
{}

/// An AS_PATH without segments reads alike both ways, and so does every attribute that is none.
pub fn a_path_without_segments_reads_alike()
    ensures { (a : AttributeFields) → (a.kind ≡ 2 → a.value ≡ []) → ReadsAlike a }
{}

/// The AS_PATH of an UPDATE that passes all checks is segments: of numbers of four octets where it is read wide, and of
/// two otherwise.
pub fn a_path_is_segments_of_its_reading()
    ensures wide { (parts : UpdateFields) (deltas : List (Delta VpnKey VpnRoute)) (attributes : List AttributeFields)
        (path : List ℕ) → Changes true parts deltas → AreAttributes parts.attributes attributes []
        → value_at 2 attributes ≡ Some path → (segments : List SegmentFields) × AreSegments 4 path segments }
    ensures narrow { (parts : UpdateFields) (deltas : List (Delta VpnKey VpnRoute)) (attributes : List AttributeFields)
        (path : List ℕ) → Changes false parts deltas → AreAttributes parts.attributes attributes []
        → value_at 2 attributes ≡ Some path → (segments : List SegmentFields) × AreSegments 2 path segments }
{}
