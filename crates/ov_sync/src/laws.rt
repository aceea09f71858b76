//! Laws of keyed maps over a queue.
ghost use Rattle.std.specs.Prelude.{◌≡◌, ◌≢◌, ◌↔◌, ◌++◌, ◌∷◌, [], List, IsTrue, Option, if◌then◌else◌, map};
ghost use Rattle.std.specs.Bool.{Decides};
ghost use Rattle.std.specs.Ordering.{eq_by_cmp};
ghost use Rattle.std.specs.List.Sorted.{IsStrictlySortedBy};
ghost use Rattle.std.specs.FinMap.{FinMap, IsAntisymmetric, get};
ghost use Rattle.ov_sync.specs.declared.Delta.{Delta};
ghost use Rattle.ov_sync.specs.Embed.{embedded, moved_delta};
ghost use Rattle.ov_sync.specs.Keyed.{AgreeBut, IsInStep, after, changed, difference, is_changed, key_of, set_key, set_keys, told_keys};

/// The changes from one map to another, applied in order, lead there.
pub fn a_difference_leads<K: Ord, V: Eq>()
    requires keys { IsAntisymmetric K.cmp }
    requires values { (a b : V) → Decides (V.eq a b) (a ≡ b) }
    ensures { (sent wanted : FinMap K.cmp V) → after sent (difference V.eq sent wanted) ≡ wanted }
{}

/// A key is changed exactly where the two maps differ, and the changes are in the order of their keys, each of which
/// occurs once.
pub fn each_changed_key_is_told_once<K: Ord, V: Eq>()
    requires keys { IsAntisymmetric K.cmp }
    requires values { (a b : V) → Decides (V.eq a b) (a ≡ b) }
    ensures exactly { (a b : FinMap K.cmp V) (k : K)
        → IsTrue (is_changed K.cmp (difference V.eq a b) k) ↔ (get a k ≢ get b k) }
    ensures ascending { (a b : FinMap K.cmp V) → IsStrictlySortedBy K.cmp (map key_of (difference V.eq a b)) }
{}

/// Where nothing differs, nothing is told.
pub fn nothing_new_is_told<K: Ord, V: Eq>()
    requires values { (a b : V) → Decides (V.eq a b) (a ≡ b) }
    ensures { (a : FinMap K.cmp V) → difference V.eq a a ≡ [] }
{}

/// What is held, with the changes on their way applied, is what was sent: this stays so where the sender tells what it
/// wants now, and where the first change is delivered.
pub fn the_ends_stay_in_step<K: Ord, V: Eq>()
    requires keys { IsAntisymmetric K.cmp }
    requires values { (a b : V) → Decides (V.eq a b) (a ≡ b) }
    ensures sender { (held sent wanted : FinMap K.cmp V) (queue : List (Delta K V)) → IsInStep held queue sent
        → IsInStep held (queue ++ difference V.eq sent wanted) wanted }
    ensures delivery { (held sent : FinMap K.cmp V) (first : Delta K V) (queue : List (Delta K V))
        → IsInStep held (first ∷ queue) sent
        → IsInStep (changed held first) queue sent }
{}

/// A map under other keys that lie in the same order is told by the same changes under those keys, and changes as it
/// does.
pub fn a_difference_embeds<K: Ord, V: Eq, L: Ord, W: Eq>()
    requires keys { IsAntisymmetric K.cmp }
    requires images { IsAntisymmetric L.cmp }
    ensures told { (f : K → L) (g : V → W) → ((x y : K) → L.cmp (f x) (f y) ≡ K.cmp x y)
        → ((v w : V) → W.eq (g v) (g w) ≡ V.eq v w)
        → (a b : FinMap K.cmp V)
        → difference {R = L.cmp} W.eq (embedded f g a) (embedded f g b) ≡ map (moved_delta f g) (difference V.eq a b) }
    ensures changed { (f : K → L) (g : V → W) → ((x y : K) → L.cmp (f x) (f y) ≡ K.cmp x y)
        → (m : FinMap K.cmp V) (d : Delta K V)
        → changed {R = L.cmp} (embedded f g m) (moved_delta f g d) ≡ embedded f g (changed m d) }
{}

/// A map that has what is wanted at one key, and is another one at all others, is that one where the key is set.
pub fn one_key_is_set<K: Ord, V>()
    requires keys { IsAntisymmetric K.cmp }
    ensures { (before later : FinMap K.cmp V) (key : K) (wanted : Option V)
        → ((k : K) → get later k ≡ (if eq_by_cmp K.cmp k key then wanted else get before k))
        → later ≡ set_key before key wanted }
{}

/// Where what was sent is what is wanted at all keys but some, telling these keys in their order what is wanted of each
/// tells the whole difference, and what was sent is what is wanted then.
pub fn telling_the_keys_that_may_differ_tells_all<K: Ord, V: Eq>()
    requires keys { IsAntisymmetric K.cmp }
    requires values { (a b : V) → Decides (V.eq a b) (a ≡ b) }
    ensures changes { (sent wanted : FinMap K.cmp V) (keys : List K)
        → IsStrictlySortedBy K.cmp keys → AgreeBut keys sent wanted
        → told_keys V.eq wanted sent keys ≡ difference V.eq sent wanted }
    ensures sent { (sent wanted : FinMap K.cmp V) (keys : List K) → AgreeBut keys sent wanted
        → set_keys wanted sent keys ≡ wanted }
{}
