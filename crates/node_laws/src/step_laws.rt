//! Laws of a step of a node, for every kind of node over every kind of link: each is the contract of a function that
//! does nothing.
ghost use Rattle.std.specs.Prelude.{◌≡◌, ◌≢◌, ◌↔◌, ℕ, List, length, Option, IsTrue};
ghost use Rattle.std.specs.FinMap.{get};
ghost use Rattle.node_model.specs.OvSync.Keyed.{after, is_changed};
ghost use Rattle.node_model.specs.Keys.{Key, key_cmp};
ghost use Rattle.node_model.specs.Maps.{Map, difference};
ghost use Rattle.node_model.specs.Step.{Beginning, NodeKind, Post, Steps};
ghost use Rattle.node_laws.specs.Stepped.{AreTold, HoldTheSame, NoneFailsInPass, Stepped, WantsByHoldings};

/// The changes that a session is told lead from what was sent to what is wanted, and are of the keys at which these
/// differ alone.
pub fn changes_lead_to_what_is_wanted()
    ensures leads { (sent wanted : Map) → after sent (difference sent wanted) ≡ wanted }
    ensures exactly { (sent wanted : Map) (k : Key)
        → IsTrue (is_changed key_cmp (difference sent wanted) k) ↔ (get sent k ≢ get wanted k) }
{}

/// In a step each link takes a front of the replies and of the changes from what was sent to what the ends want as the
/// pass begins, the whole exactly where it does not fail. A session whose link failed ends closed and empty, and the
/// lowest such session is named. Every other session that may send has as sent what was wanted as the pass began; one
/// that may not is told nothing but replies. But for the input's, it keeps its phase and what it holds.
pub fn steps_tell_what_was_wanted<L>()
    ensures { (accepted : L → Option (List (List ℕ))) (breaks : L → Option (List ℕ)) (faults : L → ℕ)
        → (k : NodeKind) (posts after : List Post) (session : ℕ) (given : Beginning) (links left : List L) (lowest : Option ℕ)
        → Steps k accepted breaks faults posts after session given links left lowest
        ↔ Stepped accepted breaks faults k posts after session given links left lowest }
{}

/// Where no send fails in the pass of a step, what a node holds at its end is what it wanted by: on each session that
/// may send, what was sent is what the ends want there once the step is over.
pub fn what_is_held_at_the_end_is_told<L>()
    ensures { (accepted : L → Option (List (List ℕ))) (breaks : L → Option (List ℕ)) (faults : L → ℕ)
        → (k : NodeKind) (posts after : List Post) (session : ℕ) (given : Beginning) (links left : List L) (lowest : Option ℕ)
        → WantsByHoldings k
        → (s : Stepped accepted breaks faults k posts after session given links left lowest)
        → NoneFailsInPass (length posts) session s.reply_failed s.failed
        → HoldTheSame s.start after × AreTold k after }
{}
