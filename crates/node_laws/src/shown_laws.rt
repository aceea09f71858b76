//! Laws of the rows that nodes show: each is the contract of a function that does nothing.
ghost use Rattle.std.specs.Prelude.{◌↔◌, ℕ, map};
ghost use Rattle.std.specs.Ordering.{nat_cmp};
ghost use Rattle.std.specs.List.Sorted.{IsStrictlySortedBy};
ghost use Rattle.ov_types.specs.Keys.{low_key_cmp, row_key_cmp};
ghost use Rattle.ov_types.specs.Prefix.{Block};
ghost use Rattle.ov_types.specs.declared.numbers.InstanceId.{InstanceId};
ghost use Rattle.ov_types.specs.declared.objects.LowKey.{LowKey};
ghost use Rattle.ov_types.specs.declared.objects.LowValue.{LowValue};
ghost use Rattle.ov_types.specs.declared.rows.Attached.{Attached};
ghost use Rattle.ov_types.specs.declared.rows.TableRow.{TableRow};
ghost use Rattle.node_model.specs.Members.{Member};
ghost use Rattle.node_model.specs.Paths.{Holdings};
ghost use Rattle.node_model.specs.Reaching.{AreShort};
ghost use Rattle.node_model.specs.Tables.{rows};
ghost use Rattle.node_model.specs.Agent as agent;
ghost use Rattle.node_model.specs.Agent.{slice_in_use};
ghost use Rattle.node_laws.specs.Received.{AreNetworks, IsShown};
ghost use Rattle.node_laws.specs.Labelled.{IsAccessList, LeadsTo};

/// A control node shows exactly the rows of the tables of its known instances, and, where networks have numbers below
/// those of places and no use has more than 15 services, in the order of their keys.
pub fn control_nodes_show_their_tables()
    ensures exactly { (h : Holdings) (i : InstanceId) (prefix : Block) (row : TableRow)
        → Member ((i, prefix), row) (rows h) ↔ IsShown h i prefix row }
    ensures ascending { (h : Holdings) → AreNetworks h.feed → AreShort h.feed
        → IsStrictlySortedBy row_key_cmp (map (λ e. e.0) (rows h)) }
{}

/// An agent shows exactly the labels and the access lists of the slice in use, each list in the order of its keys.
pub fn agents_show_the_slice_in_use()
    ensures labels { (h : agent.Holdings) (label : ℕ) (a : Attached)
        → Member (record { 0 = label }, a) (agent.rows h).labels ↔ LeadsTo (slice_in_use h) label a }
    ensures labels_ascend { (h : agent.Holdings)
        → IsStrictlySortedBy nat_cmp (map (λ e. e.0.0) (agent.rows h).labels) }
    ensures acls { (h : agent.Holdings) (k : LowKey) (v : LowValue)
        → Member (k, v) (agent.rows h).acls ↔ IsAccessList (slice_in_use h) k v }
    ensures acls_ascend { (h : agent.Holdings)
        → IsStrictlySortedBy low_key_cmp (map (λ e. e.0) (agent.rows h).acls) }
    ensures routes_ascend { (h : agent.Holdings)
        → IsStrictlySortedBy row_key_cmp (map (λ e. e.0) (agent.rows h).routes) }
{}
