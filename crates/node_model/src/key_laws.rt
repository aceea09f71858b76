//! Laws of the one key and the one value of all sessions: each is the contract of a function that does nothing.
ghost use Rattle.std.specs.Prelude.{◌≡◌, ◌↔◌, IsTrue, map};
ghost use Rattle.std.specs.Option.{option_map};
ghost use Rattle.std.specs.FinMap.{FinMap, IsAntisymmetric, get};
ghost use Rattle.ov_sync.specs.declared.Delta.{Delta};
ghost use Rattle.ov_sync.specs.Embed.{embedded, moved_delta};
ghost use Rattle.ov_sync.specs.Keyed as keyed;
ghost use Rattle.ov_types.specs.declared.keys.DownKey.{DownKey as Down};
ghost use Rattle.ov_types.specs.declared.keys.UpKey.{UpKey as Up};
ghost use Rattle.ov_types.specs.declared.numbers.Label.{Label as LabelValue};
ghost use Rattle.ov_types.specs.declared.objects.LowKey.{LowKey as LowKeyValue};
ghost use Rattle.ov_types.specs.declared.objects.LowValue.{LowValue as LowObject};
ghost use Rattle.ov_types.specs.declared.rows.Entry.{Entry as RouteEntry};
ghost use Rattle.ov_types.specs.declared.vpn.VpnKey.{VpnKey as VpnKeyValue};
ghost use Rattle.ov_types.specs.declared.vpn.VpnRoute.{VpnRoute as VpnRouteValue};
ghost use Rattle.node_model.specs.Keys.{Key, Low, Vpn, key_cmp, of_down, of_up};
ghost use Rattle.node_model.specs.Values.{Value, Object, Route, Entry as EntryOf, Label as LabelOf, same_value};
ghost use Rattle.node_model.specs.Maps.{difference};

use ov_types::{DownKey, Entry, Label, LowKey, LowValue, UpKey, VpnKey, VpnRoute};

/// Among all keys those of one direction keep their own order.
pub fn keys_keep_their_orders()
    ensures feed { (a b : LowKeyValue) → key_cmp (Low a) (Low b) ≡ ⟦<LowKey as Ord>⟧.cmp a b }
    ensures peers { (a b : VpnKeyValue) → key_cmp (Vpn a) (Vpn b) ≡ ⟦<VpnKey as Ord>⟧.cmp a b }
    ensures to_agents { (a b : Down) → key_cmp (of_down a) (of_down b) ≡ ⟦<DownKey as Ord>⟧.cmp a b }
    ensures of_agents { (a b : Up) → key_cmp (of_up a) (of_up b) ≡ ⟦<UpKey as Ord>⟧.cmp a b }
{}

/// Among all values those of one direction are compared as by themselves.
pub fn values_keep_their_equality()
    ensures objects { (a b : LowObject) → same_value (Object a) (Object b) ≡ ⟦<LowValue as PartialEq>⟧.eq a b }
    ensures routes { (a b : VpnRouteValue) → same_value (Route a) (Route b) ≡ ⟦<VpnRoute as PartialEq>⟧.eq a b }
    ensures entries { (a b : RouteEntry) → same_value (EntryOf a) (EntryOf b) ≡ ⟦<Entry as PartialEq>⟧.eq a b }
    ensures labels { (a b : LabelValue) → same_value (LabelOf a) (LabelOf b) ≡ ⟦<Label as PartialEq>⟧.eq a b }
{}

/// Keys that are ordered alike are one, and values that compare alike are one.
pub fn alike_is_equal()
    ensures keys { IsAntisymmetric key_cmp }
    ensures values { (a b : Value) → IsTrue (same_value a b) ↔ (a ≡ b) }
{}

/// A map of one direction, where its keys keep their order and its values their equality, is told and changed as its
/// image among all keys.
pub fn a_map_is_told_as_its_image<K: Ord, V: Eq>()
    requires { IsAntisymmetric K.cmp }
    ensures told { (f : K → Key) (g : V → Value) → ((x y : K) → key_cmp (f x) (f y) ≡ K.cmp x y)
        → ((v w : V) → same_value (g v) (g w) ≡ V.eq v w)
        → (a b : FinMap K.cmp V)
        → difference (embedded f g a) (embedded f g b) ≡ map (moved_delta f g) (keyed.difference V.eq a b) }
    ensures changed { (f : K → Key) (g : V → Value) → ((x y : K) → key_cmp (f x) (f y) ≡ K.cmp x y)
        → (m : FinMap K.cmp V) (d : Delta K V)
        → keyed.changed {R = key_cmp} (embedded f g m) (moved_delta f g d) ≡ embedded f g (keyed.changed m d) }
    ensures held { (f : K → Key) (g : V → Value) → ((x y : K) → key_cmp (f x) (f y) ≡ K.cmp x y)
        → (m : FinMap K.cmp V) (k : K) → get (embedded {S = key_cmp} f g m) (f k) ≡ option_map g (get m k) }
{}
