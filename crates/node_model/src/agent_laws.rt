//! Laws of what an agent holds and wants: each is the contract of a function that does nothing.
ghost use Rattle.std.specs.Prelude.{◌≡◌, ◌↔◌, ◌++◌, ◌∷◌, [], ℕ, Some, IsTrue, true, false};
ghost use Rattle.std.specs.List.{AllByRecursion};
ghost use Rattle.std.specs.FinMap.{get};
ghost use Rattle.ov_types.specs.Prefix.{Block};
ghost use Rattle.ov_types.specs.declared.numbers.InstanceId.{InstanceId};
ghost use Rattle.ov_types.specs.declared.rows.Entry.{Entry as RouteEntry};
ghost use Rattle.node_model.specs.Members.{Member};
ghost use Rattle.node_model.specs.Keys.{Publish};
ghost use Rattle.node_model.specs.Values.{Label};
ghost use Rattle.node_model.specs.Maps.{objects};
ghost use Rattle.node_model.specs.Agent.{Heard, Holdings, IsNeeded, IsPublished, besides_rows, is_needed, route_from};
ghost use Rattle.node_model.specs.Agent.{routes, slice_in_use, wanted};

/// The slice in use is that of the first session that is up; where none is, it is empty.
pub fn the_first_session_that_is_up_counts()
    ensures first { (before : Holdings) (s : Heard) (after : Holdings) → AllByRecursion (λ t. t.is_up ≡ false) before
        → s.is_up ≡ true
        → slice_in_use (before ++ s ∷ after) ≡ objects s.map }
    ensures none { (h : Holdings) → AllByRecursion (λ t. t.is_up ≡ false) h → slice_in_use h ≡ [] }
{}

/// What an agent wants does not depend on rows.
pub fn rows_do_not_matter_to_wants()
    ensures { (h g : Holdings) → besides_rows h ≡ besides_rows g → wanted h ≡ wanted g }
{}

/// An agent publishes exactly the attachments of the slice in use, each in its instance under its host prefix; where
/// two have one instance and one prefix, with the lower label.
pub fn attachments_are_published()
    ensures { (h : Holdings) (i : InstanceId) (prefix : Block) (label : ℕ)
        → (get (wanted h) (Publish i prefix) ≡ Some (Label (record { 0 = label })))
        ↔ IsPublished (slice_in_use h) i prefix label }
{}

/// An agent needs exactly the instances of its ports and circuits, and those that a rule of its access lists enters.
pub fn instances_that_are_needed()
    ensures { (h : Holdings) (i : InstanceId) → IsTrue (is_needed h i) ↔ IsNeeded (slice_in_use h) i }
{}

/// The routes that an agent uses are of the instances that it needs alone, and each is that of the first session that
/// is up and has it.
pub fn routes_are_of_needed_instances()
    ensures { (h : Holdings) (i : InstanceId) (prefix : Block) (hop : RouteEntry)
        → Member ((i, prefix), hop) (routes h) ↔ (IsTrue (is_needed h i) × (route_from h i prefix ≡ Some hop)) }
{}
