//! Laws of what an agent wants: each is the contract of a function that does nothing.
ghost use Rattle.std.specs.Prelude.{◌≡◌, ℕ, None, Some, true, if◌then◌else◌};
ghost use Rattle.std.specs.List.{AllByRecursion};
ghost use Rattle.ov_types.specs.declared.numbers.InstanceId.{InstanceId};
ghost use Rattle.ov_types.specs.declared.objects.LowKey.{LowKey};
ghost use Rattle.node_core.specs.Told.{AllFit};
ghost use Rattle.node_core.specs.NodeModel.Agent.{Heard, Holdings, is_needed, route_from, routes, rows, slice_in_use, wanted};
ghost use Rattle.node_core.specs.NodeModel.Maps.{Change};
ghost use Rattle.node_core.specs.NodeModel.Step.{At};
ghost use Rattle.agent_tables.specs.Listed.{SameBut, is_list, list_between, list_key};
ghost use Rattle.agent_tables.specs.Touched.{RowKey, SameRoutes, route_key, told, with_row};

/// Where what is held can be told, so can all that is wanted.
pub fn what_is_wanted_can_be_told()
    ensures { (h : Holdings) → AllByRecursion (λ (s : Heard). AllFit s.map) h → AllFit (wanted h) }
{}

/// A change of one route of one session changes at most the row of its key, where its instance is needed: it is that of
/// the first session that is up and has it. What is wanted of the control nodes stays.
pub fn a_route_changes_one_row()
    ensures rows { (h : Holdings) (session : ℕ) (s : Heard) (change : Change) (k : RowKey) → At h session s
        → route_key (Some change) ≡ Some k
        → rows (told h session s change) ≡ record (rows h) {
          routes = if is_needed h k.0
              then with_row (routes h) k (route_from (told h session s change) k.0 k.1) else routes h;
        } }
    ensures wanted { (h : Holdings) (session : ℕ) (s : Heard) (change : Change) (k : RowKey) → At h session s
        → route_key (Some change) ≡ Some k → wanted (told h session s change) ≡ wanted h }
{}

/// A change of what is no route leaves the routes that are heard as they were. What an agent forwards by on such routes
/// is the same wherever the same routes are heard and the same instances are needed, whatever else is held.
pub fn what_is_no_route_changes_no_route()
    ensures heard { (h : Holdings) (session : ℕ) (s : Heard) (change : Change) → At h session s
        → route_key (Some change) ≡ None → SameRoutes h (told h session s change) }
    ensures routes { (h g : Holdings) → SameRoutes h g → ((i : InstanceId) → is_needed h i ≡ is_needed g i)
        → routes h ≡ routes g }
{}

/// What is wanted of the control nodes is a function of the slice in use.
pub fn wants_are_of_the_slice_in_use()
    ensures { (h g : Holdings) → slice_in_use h ≡ slice_in_use g → wanted h ≡ wanted g }
{}

/// Where another access list, or none, stands between two networks in the slice in use, and the agent needs the same
/// instances, it wants the same of its control nodes.
pub fn an_access_list_is_not_published()
    ensures { (k : LowKey) → is_list k ≡ true → (h g : Holdings) → SameBut k h g
        → ((i : InstanceId) → is_needed h i ≡ is_needed g i) → wanted h ≡ wanted g }
{}

/// A change of the access list between two networks, on one session, leaves every route that is heard, and of the slice in
/// use all but that list.
pub fn an_access_list_changes_alone()
    ensures { (h : Holdings) (session : ℕ) (s : Heard) (change : Change) (n : InstanceId × InstanceId) → At h session s
        → list_key (Some change) ≡ Some n → SameBut (list_between n) h (told h session s change) }
{}
