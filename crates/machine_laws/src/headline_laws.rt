//! A network with a valid configuration: what it shows once it is settled, and that it settles. Laws alone.
ghost use Rattle.machine_laws.specs.Moments.{SettleSettles, SettlesInTime, ShowsCompiled};
ghost use Rattle.machine_laws.specs.Headline.{AfterAnySchedule, AgentsShowRows, ControlNodesShowTables};
ghost use Rattle.machine_laws.specs.Headline.{SettledIsReachable};

/// After any schedule of edits, deliveries, losses of sessions and restarts: once every session is up and nothing is in
/// flight, what each control node and each agent shows is exactly what the low-level objects of the configuration of
/// that moment compile to.
pub fn settled_networks_are_compiled()
    ensures { AfterAnySchedule (λ size w. ShowsCompiled w) }
{}

/// Once every session is up and nothing is in flight, each control node shows exactly the tables of all instances of
/// the configuration of that moment, and the agent of each compute node exactly the rows that this configuration has
/// for the node's address.
pub fn settled_tables_are_those_of_the_configuration()
    ensures controls { AfterAnySchedule (λ size w. ControlNodesShowTables w) }
    ensures agents { AfterAnySchedule (λ size w. AgentsShowRows w) }
{}

/// Once every session is up and nothing is in flight, each packet has the outcome that policies alone give: it is
/// delivered exactly where its ports share a network or a policy permits it, having visited that policy's service
/// instances in order.
pub fn settled_networks_deliver_what_policies_permit()
    ensures { AfterAnySchedule (λ size w. SettledIsReachable w) }
{}

/// From any moment where no session is down and no break is pending, every list of K + 5 rounds of deliveries ends
/// settled, where K is the number of services of the longest chain in effect.
pub fn rounds_settle()
    ensures { AfterAnySchedule SettlesInTime }
{}

/// From any moment `settle` ends settled, in at most K + 6 rounds.
pub fn settle_settles()
    ensures { AfterAnySchedule (λ size w. SettleSettles w) }
{}
