//! What all configurations since a moment have in common is back so many rounds later, whatever was in flight and whatever
//! edits go on. Laws alone.

ghost use Rattle.machine_moment_laws.specs.Common.{AccessListsAreOfSome, NothingElseLeads};
ghost use Rattle.machine_moment_laws.specs.Recovery.{AllIsBack, AtMomentsSince, DeliversAgain, GoesTheWayAgain, Later};

/// Take any moment at which no session is down, whatever is held and in flight then. From two rounds later on, each access
/// list in use is that of a configuration since that moment. Each round counts, whatever sessions edits bring meanwhile, and to
/// settle counts as one.
pub fn old_access_lists_are_gone_after_two_rounds()
    ensures { AtMomentsSince (Later 2 AccessListsAreOfSome) }
{}

/// Take any moment at which no session is down. From five rounds later on, no old route is left that leads an address
/// elsewhere than the common part does.
pub fn common_routes_lead_alone_after_five_rounds()
    ensures { AtMomentsSince (Later 5 NothingElseLeads) }
{}

/// Take any moment at which no session is down. From five rounds later on, and one more for each service of the longest
/// use in common, all that is common is back: at each agent whose compute node stands the same in all configurations,
/// each label, the key of each access list, and each route.
pub fn what_is_common_is_back()
    ensures { AtMomentsSince AllIsBack }
{}

/// Take any moment at which no session is down. A packet that is looked up in an instance goes the whole way that the
/// common part leads it from there: from five rounds later on, and one more for each service of that way.
pub fn packets_go_the_common_way_again()
    ensures { AtMomentsSince GoesTheWayAgain }
{}

/// Take any moment at which no session is down. A packet whose source port is common, and that each configuration leads
/// along a common way to one port, is delivered again. It goes by the way of one of them, through just its services,
/// whatever other edits go on meanwhile: from five rounds later on, and one more for each service of the longest of its
/// own ways.
pub fn packets_are_delivered_again()
    ensures { AtMomentsSince DeliversAgain }
{}
