//! What the nodes of a network hold, want and show, as what the sessions of its machine hold: laws alone.
ghost use Rattle.std.specs.List.{AllByRecursion};
ghost use Rattle.running_laws.specs.Wired.{ForwardsAlike, JoinsTwo, NamesAreOfPlaces, NodesAreSeats, NodesGoBySeats};
ghost use Rattle.running_laws.specs.Wired.{NoneIsWhereNoneIs, NoOtherIsSeated, PairsArePlaces, PlacesAreNamed};
ghost use Rattle.running_laws.specs.Wired.{PlacesHaveSessions, SeatsAreNodes, SessionsAreInOrder, SessionsHavePlaces};
ghost use Rattle.running_laws.specs.Wired.{WhereJoined};
ghost use Rattle.running_laws.specs.Wired.{WhereSeated, WhereSeatsAre};

/// Among the seats of the nodes of a valid configuration each end of a session is found by the names of its node and of
/// the other one, and the end of the other node by the same names the other way round.
pub fn places_are_found_by_names()
    ensures named { WhereSeated PlacesAreNamed }
    ensures found { WhereSeated NamesAreOfPlaces }
{}

/// Each end that a seat has is the end of one session of the machine, each session has its two ends at seats, and no
/// session joins a node to itself.
pub fn places_and_sessions_belong_together()
    ensures places { WhereJoined PlacesHaveSessions }
    ensures sessions { WhereJoined SessionsHavePlaces }
    ensures none { WhereJoined NoneIsWhereNoneIs }
    ensures two { WhereJoined (λ seats w. AllByRecursion JoinsTwo w.sessions) }
{}

/// Where each end is as its seat has it, what the machine's nodes want, may send and tell on a session is what the
/// nodes at the seats do, of their own ends alone.
pub fn nodes_go_by_what_their_seats_hold()
    ensures { WhereSeatsAre NodesGoBySeats }
{}

/// Each control node and each agent has one seat after the first, which shows what the machine's node shows, and no
/// other name has such a seat.
pub fn seats_show_what_nodes_show()
    ensures nodes { WhereSeatsAre NodesAreSeats }
    ensures seats { WhereSeatsAre SeatsAreNodes }
    ensures others { WhereSeatsAre NoOtherIsSeated }
{}

/// The agents' seats forward packets by what the machine's agents forward them by, in the same order.
pub fn seats_forward_as_agents_do()
    ensures { WhereSeatsAre ForwardsAlike }
{}

/// The sessions stand in the order of a round: the feeds of the control nodes, then each control node's sessions with
/// those after it, and then those of each agent with the control nodes that it lists, all in the order of the topology.
/// In a valid configuration each of them is found by the names of its two nodes.
pub fn sessions_stand_in_the_order_of_a_round()
    ensures order { SessionsAreInOrder }
    ensures places { PairsArePlaces }
{}
