//! What records promise.
ghost use Rattle.std.specs.Prelude.{◌≡◌, ◌≤◌, ◌++◌, ℕ, List, length, IsTrue, false, IfSome, is_some, Some, Ok};
ghost use Rattle.ov_sync.specs.declared.Delta.{Delta};
ghost use Rattle.ov_sync.specs.declared.Delta.TheVariants.{Put};
ghost use Rattle.ov_types.specs.declared.keys.DownKey.{DownKey};
ghost use Rattle.ov_types.specs.declared.keys.DownValue.{DownValue};
ghost use Rattle.ov_types.specs.declared.keys.UpKey.{UpKey};
ghost use Rattle.ov_types.specs.declared.objects.LowKey.{LowKey};
ghost use Rattle.ov_types.specs.declared.objects.LowValue.{LowValue};
ghost use Rattle.serde_json.specs.Data.{Data};
ghost use Rattle.serde_json.specs.Find.{get};
ghost use Rattle.item_wire.specs.declared.event.ItemState.{ItemState};
ghost use Rattle.item_wire.specs.declared.input.Came.{Came as CameTo};
ghost use Rattle.item_wire.specs.declared.fault.Field.{Field as Member};
ghost use Rattle.item_wire.specs.declared.item.Item.{Item as Record};
ghost use Rattle.item_wire.specs.Changes.{UpValue, has_key, fed, item_fed, told, item_told, said, item_said};
ghost use Rattle.item_wire.specs.Frames.{framed, frame_of};
ghost use Rattle.item_wire.specs.Happenings.{next_state, next_event};
ghost use Rattle.item_wire.specs.Inputs.{is_of_feed, is_of_control, is_of_agent};
ghost use Rattle.item_wire.specs.Members.{name_of};
ghost use Rattle.item_wire.specs.Ranges.{is_in_range};
ghost use Rattle.item_wire.specs.Reading.{item_of, item_in};
ghost use Rattle.item_wire.specs.Records.{record_of, json_text, spelling, has_lists};
ghost use Rattle.item_wire.specs.Words.{step_of};

/// Each state does with each input what its words say.
pub fn each_cell_says_its_words()
    ensures { (state : ItemState) (came : CameTo)
        → (next_state state came, next_event state came) ≡ step_of state came }
{}

/// A record on a link is told by its octets, whatever follows it.
pub fn records_are_told_by_their_octets()
    ensures { (json more : List ℕ) → length json ≤ 65536 → frame_of (framed json ++ more) ≡ Ok (Some json) }
{}

/// What a value reads as is told by the members of records alone; others are passed over.
pub fn other_members_are_passed_over()
    ensures { (d e : Data) → ((field : Member) → get (name_of field) d ≡ get (name_of field) e)
        → item_of d ≡ item_of e }
{}

/// Each item within its ranges is what its record reads as.
pub fn records_are_read()
    ensures { (item : Record) → IsTrue (is_in_range item) → item_of (record_of item) ≡ Ok item }
{}

/// Each item within its ranges is what the octets that are written of it read as.
pub fn items_are_read()
    ensures { (item : Record) → IsTrue (is_in_range item) → item_in (json_text item) ≡ Ok item }
{}

/// Two items within their ranges that are spelled alike are one.
pub fn items_of_one_spelling_are_equal()
    ensures { (a b : Record) → IsTrue (is_in_range a) → IsTrue (is_in_range b) → spelling a ≡ spelling b → a ≡ b }
{}

/// An item within its ranges that has no list has few octets of JSON.
pub fn most_records_are_short()
    ensures { (item : Record) → IsTrue (is_in_range item) → has_lists item ≡ false → length (json_text item) ≤ 128 }
{}

/// An item is a change of a direction exactly where it may come there, and it is the item of that change.
pub fn items_are_changes()
    ensures feed { (item : Record) → is_some (fed item) ≡ is_of_feed item }
    ensures control { (item : Record) → is_some (told item) ≡ is_of_control item }
    ensures agent { (item : Record) → is_some (said item) ≡ is_of_agent item }
    ensures item_fed { (item : Record) → IfSome (fed item) (λ change. item_fed change ≡ Some item) }
    ensures item_told { (item : Record) → IfSome (told item) (λ change. item_told change ≡ Some item) }
    ensures item_said { (item : Record) → IfSome (said item) (λ change. item_said change ≡ Some item) }
{}

/// A change that has an item is the change of that item, so that it has no other. The put of an object has one exactly
/// where the object stands under its key.
pub fn changes_are_items()
    ensures object { (key : LowKey) (value : LowValue) → is_some (item_fed (Put key value)) ≡ has_key key value }
    ensures fed { (change : Delta LowKey LowValue) → IfSome (item_fed change) (λ item. fed item ≡ Some change) }
    ensures told { (change : Delta DownKey DownValue) → IfSome (item_told change) (λ item. told item ≡ Some change) }
    ensures said { (change : Delta UpKey UpValue) → IfSome (item_said change) (λ item. said item ≡ Some change) }
{}
