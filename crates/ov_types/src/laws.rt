//! What comparisons and copies mean, which texts tell numbers apart, and what it means that a count of faults rose, on which
//! the causes of all faults of reading, writing and sending rest: laws, each of them the contract of a function that does
//! nothing.
ghost use Rattle.std.specs.Prelude.{◌≡◌, ◌↔◌, ◌⊎◌, ◌<◌, ◌^◌, ◌-◌, ℕ, IsTrue, List};
ghost use Rattle.ov_types.specs.Prefix.{Block, block_cmp};
ghost use Rattle.ov_types.specs.Keys.{low_key_cmp, down_key_cmp, up_key_cmp};
ghost use Rattle.ov_types.specs.OneText.{AddressHasOneText, PrefixHasOneText, NameIsItsText};
ghost use Rattle.ov_types.specs.declared.keys.DownKey.{DownKey as Down};
ghost use Rattle.ov_types.specs.declared.keys.UpKey.{UpKey as Up};
ghost use Rattle.ov_types.specs.declared.objects.AclRule.{AclRule as AclEntry};
ghost use Rattle.ov_types.specs.declared.objects.LowKey.{LowKey as Key};
ghost use Rattle.ov_types.specs.declared.objects.LowValue.{LowValue as Object};
ghost use Rattle.ov_types.specs.declared.rows.AgentRows.{AgentRows as Rows};
ghost use Rattle.ov_types.specs.declared.rows.Entry.{Entry as RouteEntry};
ghost use Rattle.ov_types.specs.declared.targets.Target.{Target as Number};
ghost use Rattle.ov_types.specs.declared.vpn.VpnRoute.{VpnRoute as Route};
ghost use Rattle.ov_types.specs.Counts.{Rose};
ghost use Rattle.ov_types.specs.Targets.{is_target};
ghost use Rattle.ov_types.specs.Texts.{distinguisher_text, target_text};
ghost use Rattle.ov_types.specs.Telling.{DifferInTheirSubtype};

use crate::keys::{DownKey, UpKey};
use crate::objects::{AclRule, LowKey, LowValue};
use crate::prefix::Prefix;
use crate::rows::{AgentRows, Entry};
use crate::targets::Targets;
use crate::vpn::VpnRoute;

/// Prefixes go by address, then by length. Keys go by kind in the order in which the kinds are listed, and then by
/// number.
pub fn keys_are_ordered()
    ensures prefixes { (a b : Block) → ⟦<Prefix as Ord>⟧.cmp a b ≡ block_cmp a b }
    ensures low { (a b : Key) → ⟦<LowKey as Ord>⟧.cmp a b ≡ low_key_cmp a b }
    ensures down { (a b : Down) → ⟦<DownKey as Ord>⟧.cmp a b ≡ down_key_cmp a b }
    ensures up { (a b : Up) → ⟦<UpKey as Ord>⟧.cmp a b ≡ up_key_cmp a b }
{}

/// Values that compare alike are one, and a value compares like itself.
pub fn alike_is_equal()
    ensures objects { (a b : Object) → IsTrue (⟦<LowValue as PartialEq>⟧.eq a b) ↔ (a ≡ b) }
    ensures acl_rules { (a b : AclEntry) → IsTrue (⟦<AclRule as PartialEq>⟧.eq a b) ↔ (a ≡ b) }
    ensures targets { (a b : List Number) → IsTrue (⟦<Targets as PartialEq>⟧.eq a b) ↔ (a ≡ b) }
    ensures routes { (a b : Route) → IsTrue (⟦<VpnRoute as PartialEq>⟧.eq a b) ↔ (a ≡ b) }
    ensures entries { (a b : RouteEntry) → IsTrue (⟦<Entry as PartialEq>⟧.eq a b) ↔ (a ≡ b) }
    ensures agents { (a b : Rows) → IsTrue (⟦<AgentRows as PartialEq>⟧.eq a b) ↔ (a ≡ b) }
{}

/// A copy of a value is that value.
pub fn copies_are_equal()
    ensures objects { (a b : Object) → ⟦<LowValue as Clone>⟧.is_clone a b → a ≡ b }
    ensures targets { (a b : List Number) → ⟦<Targets as Clone>⟧.is_clone a b → a ≡ b }
    ensures routes { (a b : Route) → ⟦<VpnRoute as Clone>⟧.is_clone a b → a ≡ b }
    ensures agents { (a b : Rows) → ⟦<AgentRows as Clone>⟧.is_clone a b → a ≡ b }
{}

/// Addresses, prefixes and names have one text each.
pub fn texts_are_one()
    ensures address { AddressHasOneText }
    ensures prefix { PrefixHasOneText }
    ensures name { NameIsItsText }
{}

/// Two distinguishers have two texts.
pub fn distinguishers_are_told_apart()
    ensures { (m n : ℕ) → m < 2 ^ 64 → n < 2 ^ 64 → distinguisher_text m ≡ distinguisher_text n → m ≡ n }
{}

/// Two targets, whatever their eight octets are, have one text exactly where they are of one type that has a form of its own
/// and differ in nothing but their subtype, which these forms do not show. Two route targets have two texts.
pub fn targets_are_told_apart()
    ensures exactly { (m n : ℕ) → m < 2 ^ 64 → n < 2 ^ 64
        → (target_text m ≡ target_text n) ↔ ((m ≡ n) ⊎ DifferInTheirSubtype m n) }
    ensures route_targets { (m n : ℕ) → m < 2 ^ 64 → n < 2 ^ 64 → IsTrue (is_target m) → IsTrue (is_target n)
        → target_text m ≡ target_text n → m ≡ n }
{}

/// A count rose exactly where it grew, or stands at the last value, past which it does not count.
pub fn counts_rise_where_they_grow()
    ensures { (before now : ℕ) → before < 2 ^ 64 → now < 2 ^ 64
        → Rose before now ↔ ((before < now) ⊎ (now ≡ 2 ^ 64 - 1)) }
{}
