//! What choices and visits promise, as laws: each is the contract of a function that does nothing.
ghost use Rattle.std.specs.Prelude.{◌≡◌, ◌≢◌, ◌<◌, ◌⊎◌, ◌↔◌, ◌++◌, ◌∷◌, ℕ, List, length, map, reverse, IsTrue, Ok};
ghost use Rattle.std.specs.List.{All, AllPairs, list_all};
ghost use Rattle.std.specs.List.Sorted.{IsStrictlyIncreasing};
ghost use Rattle.serde_json.specs.Data.{Data};
ghost use Rattle.ov_types.specs.declared.numbers.PortNo.{PortNo};
ghost use Rattle.ov_types.specs.declared.packet.Outcome.TheVariants as Outcomes;
ghost use Rattle.ov_types.specs.declared.packet.Packet.{Packet};
ghost use Rattle.config_types.specs.declared.config.Config.{Config};
ghost use Rattle.config_types.specs.declared.topology.Topology.{Topology};
ghost use Rattle.config_check.specs.Rules.{first_broken};
ghost use Rattle.reach_plain.specs.Reachability.{reachability};
ghost use Rattle.scale_out.specs.declared.groups.Group.{Group as Several};
ghost use Rattle.scale_out.specs.declared.visits.Spread.TheVariants.{Delivered};
ghost use Rattle.scale_out.specs.declared.visits.Visit.{Visit as Stop};
ghost use Rattle.scale_out.specs.Choice.{chosen, IsChosen};
ghost use Rattle.scale_out.specs.Form.{has_group_form};
ghost use Rattle.scale_out.specs.GroupDocuments.{groups_document};
ghost use Rattle.scale_out.specs.Reading.{groups_at, has_service};
ghost use Rattle.scale_out.specs.Spread.{spread, reply};

/// Exactly one of some ascending members is chosen: the one with the greatest score, and the least of several such.
pub fn one_member_is_chosen()
    ensures { (members : List ℕ) (key m : ℕ) → 0 < length members → IsStrictlyIncreasing members
        → (chosen members key ≡ m) ↔ IsChosen members key m }
{}

/// Where a member that is not chosen is taken out of a list, the choice stays. Where a member is added, the choice stays
/// or is the new member.
pub fn choices_stay()
    ensures taken { (before after : List ℕ) (member key : ℕ) → IsStrictlyIncreasing (before ++ member ∷ after)
        → chosen (before ++ member ∷ after) key ≢ member
        → chosen (before ++ after) key ≡ chosen (before ++ member ∷ after) key }
    ensures added { (before after : List ℕ) (member key : ℕ) → IsStrictlyIncreasing (before ++ member ∷ after)
        → (chosen (before ++ member ∷ after) key ≡ chosen (before ++ after) key)
        ⊎ (chosen (before ++ member ∷ after) key ≡ member) }
{}

/// In a valid configuration, where a packet is delivered to a port, and the packet from that port to the first one's
/// source address, with the ports exchanged, is delivered through the same services in reverse, it visits the same
/// members in reverse.
pub fn replies_visit_in_reverse()
    ensures { (topology : Topology) (c : Config) (groups : List Several) (p : Packet) (port back : PortNo)
        (visits : List Stop) → first_broken topology c ≡ None → spread c groups p ≡ Delivered port visits
        → reachability c (reply c p port) ≡ Outcomes.Delivered back (reverse (map (λ v. v.service) visits))
        → spread c groups (reply c p port) ≡ Delivered back (reverse visits) }
{}

/// The groups that are read of a value are of services that the configuration has, no two of one service.
pub fn groups_are_of_services_of_their_own()
    ensures { (c : Config) (path : List ℕ) (d : Data) (groups : List Several) → groups_at c path d ≡ Ok groups
        → All (λ g. IsTrue (has_service c g.service)) groups × AllPairs (λ g h. g.service ≢ h.service) groups }
{}

/// Each list of groups of the form, of services that the configuration has and no two of one service, has a document,
/// with each member under its own name, and it reads as that list wherever it stands.
pub fn groups_are_read()
    ensures { (c : Config) (groups : List Several) → IsTrue (list_all has_group_form groups)
        → All (λ g. IsTrue (has_service c g.service)) groups → AllPairs (λ g h. g.service ≢ h.service) groups
        → (path : List ℕ) → groups_at c path (groups_document groups) ≡ Ok groups }
{}
