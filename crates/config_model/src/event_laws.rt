//! What is true of every edit and event that is read, in the words of its subject.
ghost use Rattle.std.specs.Prelude.{codes, ◌∷◌, []};
ghost use Rattle.config_model.specs.Edit.{put_at, delete_at, edit_at};
ghost use Rattle.config_model.specs.Event.{event_at, run_at};
ghost use Rattle.config_model.specs.EventDocuments.{edit_document, event_document, run_document};
ghost use Rattle.config_model.specs.EventLaws.{edit_form, event_form, run_form, EditHasJust, EventHasJust, RunHasJust};
ghost use Rattle.config_model.specs.EventLaws.{NotOneIsRange, OtherIsUnknown, NoObjectIsKind};
ghost use Rattle.config_model.specs.Laws.{IsRead, FirstIsMissed, OtherTextIsRange, is_among};

/// Each edit and event, and what `run` takes, if of the written form, has a document, which reads as it.
pub fn events_are_read()
    ensures edit { IsRead edit_at edit_form edit_document }
    ensures event { IsRead event_at event_form event_document }
    ensures run { IsRead run_at run_form run_document }
{}

/// An edit has one member, an event is a text or has one member, and what `run` takes has three; each has no other.
pub fn events_have_just_their_members()
    ensures edit { EditHasJust }
    ensures event { EventHasJust }
    ensures run { RunHasJust }
    ensures first { FirstIsMissed run_at (codes "topology") }
{}

/// An object with no member or with more than one is out of range where one member is wanted.
pub fn objects_have_one_member()
    ensures event { NotOneIsRange event_at }
    ensures edit { NotOneIsRange edit_at }
    ensures put { NotOneIsRange put_at }
    ensures delete { NotOneIsRange delete_at }
{}

/// One member is unknown where its name is none of those that are told apart.
pub fn other_words_are_unknown()
    ensures event { OtherIsUnknown event_at
        (codes "edit" ∷ codes "deliver" ∷ codes "deliver-bytes" ∷ codes "lose" ∷ codes "connect" ∷ codes "restart"
        ∷ codes "show" ∷ codes "trace" ∷ codes "break" ∷ []) }
    ensures edit { OtherIsUnknown edit_at (codes "put" ∷ codes "delete" ∷ []) }
    ensures put { OtherIsUnknown put_at
        (codes "network" ∷ codes "port" ∷ codes "policy" ∷ codes "service" ∷ codes "chain"
        ∷ codes "node" ∷ []) }
    ensures delete { OtherIsUnknown delete_at
        (codes "network" ∷ codes "port" ∷ codes "policy" ∷ codes "service" ∷ codes "chain"
        ∷ codes "node" ∷ []) }
{}

/// A text that is not an event's is out of range; what is neither text nor object is of another kind.
pub fn other_values_are_no_events()
    ensures text { OtherTextIsRange event_at (is_among (codes "round" ∷ codes "settle" ∷ [])) }
    ensures event { NoObjectIsKind event_at }
    ensures edit { NoObjectIsKind edit_at }
{}
