//! Laws of verdicts, each the contract of a function that does nothing.
ghost use Rattle.std.specs.Prelude.{◌≡◌, ◌≢◌, ◌↔◌, ◌<◌, ◌++◌, ◌∷◌, [], ℕ, IsTrue, List, None, length};
ghost use Rattle.std.specs.List.{All, Contains};
ghost use Rattle.ov_types.specs.Access.{holds, verdict, verdict_of};
ghost use Rattle.ov_types.specs.declared.numbers.InstanceId.{InstanceId};
ghost use Rattle.ov_types.specs.declared.objects.AclRule.{AclRule};
ghost use Rattle.ov_types.specs.declared.objects.LowKey.{LowKey};
ghost use Rattle.ov_types.specs.declared.objects.LowValue.{LowValue};
ghost use Rattle.ov_types.specs.declared.packet.Packet.{Packet};
ghost use Rattle.ov_types.specs.declared.packet.Tuple.{Tuple};
ghost use Rattle.ov_types.specs.declared.verdict.Verdict.{Verdict};
ghost use Rattle.ov_types.specs.declared.verdict.Verdict.TheVariants.{Pass, Denied, NoDestination};
ghost use Rattle.flow_acl.specs.Deciding.{Decides, Holds, IsMap, Leads};
ghost use Rattle.flow_acl.specs.Flows.{GoAlike, flow_of, is_flow, with_new};
ghost use Rattle.flow_acl.specs.declared.flow.FlowKey.{FlowKey};

/// There is no destination exactly where no list of the network holds it.
pub fn a_destination_is_one_that_a_list_holds()
    ensures { (lists : List (LowKey × LowValue)) (network : ℕ) (p : Packet)
        → (verdict lists network p ≡ NoDestination)
        ↔ ((object : LowKey × LowValue) (to : ℕ) (rules : List AclRule) → Contains lists object
        → ¬ Leads network p.destination.0 to rules object) }
{}

/// Among the lists that hold the destination the one that leads to the least network decides. Where it leads to the
/// network that the packet leaves, the packet passes, whatever its entries. Else its first entry that holds the tuple
/// decides, and where none does the packet is denied by no rule.
pub fn the_least_list_decides()
    ensures inside { (lists : List (LowKey × LowValue)) (network : ℕ) (rules : List AclRule) (p : Packet) → IsMap lists
        → Decides lists network p.destination.0 network rules → verdict lists network p ≡ Pass }
    ensures first { (lists : List (LowKey × LowValue)) (network to : ℕ) (before : List AclRule) (r : AclRule)
        (behind : List AclRule) (p : Packet) → IsMap lists → to ≢ network
        → Decides lists network p.destination.0 to (before ++ r ∷ behind)
        → All (λ e. ¬ Holds e p.tuple) before → Holds r p.tuple
        → verdict lists network p ≡ verdict_of r.action r.rule }
    ensures none { (lists : List (LowKey × LowValue)) (network to : ℕ) (rules : List AclRule) (p : Packet) → IsMap lists
        → to ≢ network → Decides lists network p.destination.0 to rules → All (λ e. ¬ Holds e p.tuple) rules
        → verdict lists network p ≡ Denied None }
{}

/// An entry holds the tuples of its protocol, or of any, whose ports lie in its ranges, both ends included.
pub fn an_entry_holds_its_tuples()
    ensures { (r : AclRule) (t : Tuple) → IsTrue (holds r t) ↔ Holds r t }
{}

/// Two packets are of one flow exactly where they leave one network, go to one destination and have one tuple, whatever
/// ports of the network they come from.
pub fn a_flow_is_of_a_network_and_not_of_a_port()
    ensures { (left other : InstanceId) (p q : Packet)
        → IsTrue (is_flow (flow_of left p) (flow_of other q)) ↔ GoAlike left other p q }
{}

/// At most 1,024 verdicts are kept. A new one stands before those that were there: before all of them where there were
/// fewer, and before all but the last where there were 1,024.
pub fn so_many_verdicts_are_kept()
    ensures fewer { (f : FlowKey) (v : Verdict) (kept : List (FlowKey × Verdict)) → length kept < 1024
        → with_new f v kept ≡ (f, v) ∷ kept }
    ensures full { (f : FlowKey) (v : Verdict) (front : List (FlowKey × Verdict)) (last : FlowKey × Verdict)
        → length (front ++ last ∷ []) ≡ 1024 → with_new f v (front ++ last ∷ []) ≡ (f, v) ∷ front }
{}
