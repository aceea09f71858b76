//! What is true of every log that is read, in the words of its subject.
ghost use Rattle.std.specs.Prelude.{◌≡◌, ◌↔◌, ◌∷◌, ℕ, List, [], Ok, Err, Decides, codes};
ghost use Rattle.std.specs.List.{AllByRecursion};
ghost use Rattle.serde_json.specs.Data.{Data, string, array, Items as Entries};
ghost use Rattle.bgp_wire.specs.Content.{OpenFields, UpdateFields};
ghost use Rattle.config_model.specs.declared.fault.DocKind.TheVariants.{Range};
ghost use Rattle.config_model.specs.EventDocuments.{one_document};
ghost use Rattle.config_model.specs.EventLaws.{NotOneIsRange, OtherIsUnknown, NoObjectIsKind};
ghost use Rattle.config_model.specs.Laws.{FirstIsMissed, OtherTextIsRange, fault_at, is_among};
ghost use Rattle.config_model.specs.Paths.{member_path};
ghost use Rattle.decode_answers.specs.declared.entry.LogEntry.{LogEntry};
ghost use Rattle.decode_answers.specs.OneMessage.{IsOneOpen, IsOneUpdate, is_one_open, is_one_update};
ghost use Rattle.decode_answers.specs.Entries.{HasEntryForm};
ghost use Rattle.decode_answers.specs.LogReading.{entry_at, log_at};
ghost use Rattle.decode_answers.specs.LogWriting.{Writes, WritesEach, WritesLog, SpellsNoOpen, SpellsNoUpdate};

/// The tests of octets pass exactly where the octets are one OPEN, and one UPDATE.
#[tactic(auto, using(crate::proofs::Deciding::open_decides, crate::proofs::Deciding::update_decides))]
pub fn octets_pass_where_they_are_one_message()
    ensures opens { (octets : List ℕ) → Decides (is_one_open octets) ((fields : OpenFields) × IsOneOpen octets fields) }
    ensures updates { (octets : List ℕ)
        → Decides (is_one_update octets) ((parts : UpdateFields) × IsOneUpdate octets parts) }
{}

/// Each entry of a log that is read has the octets of one whole message where it has any.
#[tactic(auto, using(crate::proofs::Forms::log_form))]
pub fn logs_have_their_form()
    ensures { (path : List ℕ) (d : Data) (log : List LogEntry) → log_at path d ≡ Ok log
        → AllByRecursion HasEntryForm log }
{}

/// An entry is read exactly where it is written: as the text of its word, or as an object with just the member of its
/// word, whose text spells one whole message of that kind.
#[tactic(auto, using(crate::proofs::EntriesWritten::entry_both))]
pub fn entries_are_read_where_they_are_written()
    ensures { (path : List ℕ) (d : Data) (e : LogEntry) → (entry_at path d ≡ Ok e) ↔ Writes d e }
{}

/// A log is read only where it is written, as an object with just the member `events`, a list of its entries in order;
/// and there it is.
#[tactic(auto, using(crate::proofs::EntriesWritten::log_written, crate::proofs::EntriesWritten::log_read))]
pub fn logs_are_read_where_they_are_written()
    ensures only { (path : List ℕ) (d : Data) (log : List LogEntry) → log_at path d ≡ Ok log → WritesLog d log }
    ensures there { (path : List ℕ) (items : Entries) (log : List LogEntry) → WritesEach items log
        → log_at path (one_document (codes "events") (array items)) ≡ Ok log }
{}

/// A log without `events` misses them.
#[tactic(auto, using(crate::proofs::NoEntry::log_missed))]
pub fn logs_without_events_miss_them()
    ensures { FirstIsMissed log_at (codes "events") }
{}

/// A text under `opened` or `update` that spells no whole message of that kind is out of range, at its own path.
#[tactic(auto, using(crate::proofs::NoEntry::other_open, crate::proofs::NoEntry::other_update))]
pub fn other_texts_are_no_messages()
    ensures opened { (path text : List ℕ) → SpellsNoOpen text
        → entry_at path (one_document (codes "opened") (string text))
        ≡ Err (fault_at (member_path path (codes "opened")) Range) }
    ensures update { (path text : List ℕ) → SpellsNoUpdate text
        → entry_at path (one_document (codes "update") (string text))
        ≡ Err (fault_at (member_path path (codes "update")) Range) }
{}

/// An object in place of an entry is out of range with no member or with more than one, and one member of another name
/// is unknown.
#[tactic(auto, using(crate::proofs::NoEntry::entry_not_one, crate::proofs::NoEntry::entry_unknown))]
pub fn entries_have_one_member()
    ensures not_one { NotOneIsRange entry_at }
    ensures other { OtherIsUnknown entry_at (codes "opened" ∷ codes "update" ∷ []) }
{}

/// A text that is none of the words of an entry is out of range in its place; what is neither text nor object is of
/// another kind.
#[tactic(auto, using(crate::proofs::NoEntry::other_word, crate::proofs::NoEntry::no_entry))]
pub fn other_values_are_no_entries()
    ensures text { OtherTextIsRange entry_at (is_among (codes "closed" ∷ codes "expired" ∷ codes "show" ∷ [])) }
    ensures kind { NoObjectIsKind entry_at }
{}
