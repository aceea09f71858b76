//! What items and changes promise each other, as laws: each is the contract of a function that does nothing.
ghost use Rattle.std.specs.Prelude.{◌≡◌, ◌≢◌, ◌≤◌, ◌++◌, [], ℕ, List, Some, None, length, IfSome, IsTrue, is_some, not};
ghost use Rattle.std.specs.FinMap.{empty};
ghost use Rattle.std.specs.List.{AllByRecursion, concat};
ghost use Rattle.ov_sync.specs.Keyed.{after as after_all, changed};
ghost use Rattle.ov_types.specs.Name.{is_name};
ghost use Rattle.item_wire.specs.Happenings.{SessionFields, after, answer};
ghost use Rattle.item_wire.specs.Inputs.{may_send};
ghost use Rattle.item_wire.specs.Records.{spelling};
ghost use Rattle.item_wire.specs.declared.event.ItemEvent.TheVariants.{Record, Up as CameUp};
ghost use Rattle.item_wire.specs.declared.event.ItemState.TheVariants.{Idle, Opened, Up};
ghost use Rattle.item_wire.specs.declared.event.ItemCause.{ItemCause};
ghost use Rattle.item_wire.specs.declared.input.Came.{Came};
ghost use Rattle.item_wire.specs.declared.input.Came.TheVariants.{Hello as HelloCame, OtherRecord};
ghost use Rattle.item_wire.specs.declared.item.Item.{Item};
ghost use Rattle.item_wire.specs.declared.item.Item.TheVariants.{Hello};
ghost use Rattle.node_model.specs.Keys.{key_cmp};
ghost use Rattle.node_model.specs.Maps.{Change, Map, difference};
ghost use Rattle.node_core.specs.Hearing.{Hears, heard, next_in};
ghost use Rattle.node_core.specs.Left.{Leaves, PartsLeave, and_then, session_after};
ghost use Rattle.node_core.specs.Told.{AllFit, CanBeTold, ChangeFits, IsTyped, IsWritable, change_of, is_hello};
ghost use Rattle.node_core.specs.Told.{item_of, spelled};

/// Every item but a hello is a change, and it is the item of that change.
pub fn items_are_changes()
    ensures each { (item : Item) → is_some (change_of item) ≡ not (is_hello item) }
    ensures back { (item : Item) → IfSome (change_of item) (λ change. item_of change ≡ Some item) }
{}

/// A change that has an item is the change of that item.
pub fn changes_are_items()
    ensures { (change : Change) → IfSome (item_of change) (λ item. change_of item ≡ Some change) }
{}

/// What came in a record can be told on.
pub fn what_is_read_can_be_told()
    ensures { (item : Item) → IsWritable item → IfSome (change_of item) ChangeFits }
{}

/// What fits can be told, with what the types of keys and values settle.
pub fn what_fits_can_be_told()
    ensures { (change : Change) → ChangeFits change → IsTyped change → CanBeTold change }
{}

/// Between two maps in which all fits, each change fits.
pub fn differences_fit()
    ensures { (sent wanted : Map) → AllFit sent → AllFit wanted
        → AllByRecursion ChangeFits (difference sent wanted) }
{}

/// A map in which all fits stays one under changes that fit, and the map of nothing is one.
pub fn changes_keep_what_fits()
    ensures nothing { AllFit (empty {R = key_cmp}) }
    ensures one { (m : Map) (change : Change) → AllFit m → ChangeFits change → AllFit (changed m change) }
    ensures all { (m : Map) (changes : List Change) → AllFit m → AllByRecursion ChangeFits changes
        → AllFit (after_all m changes) }
{}

/// Two changes of one spelling are one.
pub fn spellings_are_told_apart()
    ensures { (a b : Change) → CanBeTold a → CanBeTold b → spelled a ≡ spelled b → a ≡ b }
{}

/// The octets of a change that the other end may send bring its item first, whatever follows them, and a session that
/// is up hands it out.
pub fn changes_are_heard()
    ensures first { (s : SessionFields) (change : Change) (told : CanBeTold change) (more : List ℕ)
        → IsTrue (may_send s.from told.item)
        → next_in s (spelled change ++ more) ≡ Some (OtherRecord told.item, more) }
    ensures out { (s : SessionFields) (item : Item) → s.state ≡ Up → answer s (OtherRecord item) ≡ Record item }
    ensures up { (s : SessionFields) (item : Item) → s.state ≡ Up → after s (OtherRecord item) ≡ s }
{}

/// The octets of the other end's hello bring it first, whatever follows them, and a session that was opened comes up.
pub fn hellos_are_heard()
    ensures first { (s : SessionFields) (more : List ℕ) → IsTrue (is_name s.peer)
        → next_in s (spelling (Hello s.peer) ++ more) ≡ Some (HelloCame, more) }
    ensures event { (s : SessionFields) → s.state ≡ Opened → answer s HelloCame ≡ CameUp }
    ensures up { (s : SessionFields) → s.state ≡ Opened → after s HelloCame ≡ record s { state = Up } }
{}

/// Octets bring inputs and leave octets, and only these: no more than 65,539, which is one fewer than the longest record
/// has, and none once the session went down.
pub fn what_is_left_is_one()
    ensures some { (s : SessionFields) (octets : List ℕ)
        → (inputs : List Came) × (left : List ℕ) × Leaves s octets inputs left }
    ensures one { (s : SessionFields) (octets : List ℕ) (i j : List Came) (a b : List ℕ) → Leaves s octets i a
        → Leaves s octets j b → (i ≡ j) × (a ≡ b) }
    ensures hears { (s : SessionFields) (octets : List ℕ) (inputs : List Came) (left : List ℕ)
        → Leaves s octets inputs left → Hears s octets inputs }
    ensures few { (s : SessionFields) (octets : List ℕ) (inputs : List Came) (left : List ℕ)
        → Leaves s octets inputs left → length left ≤ 65539 }
    ensures part { (s : SessionFields) (octets : List ℕ) (inputs : List Came) (left : List ℕ)
        → Leaves s octets inputs left → (heard s inputs).cause ≡ None
        → next_in (session_after s inputs) left ≡ None }
    ensures none { (s : SessionFields) (octets : List ℕ) (inputs : List Came) (left : List ℕ) (cause : ItemCause)
        → Leaves s octets inputs left → (heard s inputs).cause ≡ Some cause → left ≡ [] }
{}

/// Octets that come to a session that is not Idle may be cut anywhere. Where the first part leaves the session up, what
/// is left of it is heard again before the second part, and all that is heard of both is what is heard of the whole:
/// the records in order, the state, and why the session went down. Where the first part takes the session down, the
/// second changes nothing.
pub fn octets_may_be_cut()
    ensures up { (s : SessionFields) (a b : List ℕ) (first more : List Came) (kept left : List ℕ) → s.state ≢ Idle
        → Leaves s a first kept → (heard s first).cause ≡ None → Leaves (session_after s first) (kept ++ b) more left
        → Leaves s (a ++ b) (first ++ more) left }
    ensures both { (s : SessionFields) (first more : List Came) → (heard s first).cause ≡ None
        → heard s (first ++ more) ≡ and_then (heard s first) (heard (session_after s first) more) }
    ensures down { (s : SessionFields) (a b : List ℕ) (inputs : List Came) (left : List ℕ) (cause : ItemCause)
        → s.state ≢ Idle → Leaves s a inputs left → (heard s inputs).cause ≡ Some cause
        → Leaves s (a ++ b) inputs left }

    // Any number of parts.
    ensures parts { (parts : List (List ℕ)) (s : SessionFields) (kept : List ℕ) (inputs : List Came) (left : List ℕ)
        → s.state ≢ Idle → next_in s kept ≡ None → PartsLeave s kept parts inputs left
        → Leaves s (kept ++ concat parts) inputs left }
{}
