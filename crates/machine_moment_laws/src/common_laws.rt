//! What all configurations of a change have in common stays while the change goes on, in any order of deliveries. Laws
//! alone.

ghost use Rattle.std.specs.Prelude.{List, ◌∷◌};
ghost use Rattle.ov_types.specs.declared.prefix.Addr.{Addr};
ghost use Rattle.schedule_script.specs.ConfigCheck.Checked.{Checked};
ghost use Rattle.node_laws.specs.NodeModel.Members.{Member};
ghost use Rattle.machine_model.specs.Setup.{opening};
ghost use Rattle.machine_laws.specs.Compiled.{agent_rows};
ghost use Rattle.machine_laws.specs.Headline.{IsWritten};
ghost use Rattle.machine_moment_laws.specs.Arriving.{DeliversByOne, GoesTheCommonWay, StartsWhereCommon};
ghost use Rattle.machine_moment_laws.specs.Arriving.{VerdictsAreOfSome};
ghost use Rattle.machine_moment_laws.specs.Common.{AccessListsAreOfSome, HasAllRows, NothingElseLeads};
ghost use Rattle.machine_moment_laws.specs.Common.{WhatIsCommonStays, common, rows_in_common};
ghost use Rattle.machine_moment_laws.specs.Windows.{AtMomentsOfWindows};

/// At every moment of every window each access list that an agent has in use is that of a configuration of the window so
/// far.
pub fn access_lists_are_of_some_configuration()
    ensures { AtMomentsOfWindows AccessListsAreOfSome }
{}

/// At every moment of every window, in any order of deliveries: each agent whose compute node stands the same in all
/// configurations of the window so far has what these configurations have in common compiles to. It has each label, the key
/// of each access list, and each route, with the very compute node and label that it leads to: but for routes to an address
/// that changed hands between networks which the instance imports. So it has of each port that all configurations have there in
/// one network its label, and the access lists and routes that it needs, whatever its address.
pub fn what_is_common_stays()
    ensures { AtMomentsOfWindows WhatIsCommonStays }
{}

/// The labels, access lists and routes that an agent has in common are all that the common part compiles to by itself,
/// and those of ports that all configurations have there in one network besides.
pub fn what_the_common_part_compiles_to_is_common()
    ensures { (b : Checked) (ds : List Checked) → ((c : Checked) → Member c (b ∷ ds) → IsWritten (opening c)) → (address : Addr)
        → HasAllRows (rows_in_common (b ∷ ds) address) (agent_rows (common (b ∷ ds)) address) }
{}

/// An agent has in no instance, of a network or of a place of a use, another route that contains an address which a
/// common route contains: so the longest prefix there is that of the common route.
pub fn common_routes_lead_alone()
    ensures { AtMomentsOfWindows NothingElseLeads }
{}

/// A packet that is looked up in an instance, at any moment of any window, goes the whole way that the common part
/// leads it from there: through just the services of that way, in order, to the port at its end, whatever is under way
/// meanwhile.
pub fn packets_go_the_common_way()
    ensures { AtMomentsOfWindows GoesTheCommonWay }
{}

/// The verdict of an agent on a packet that heads from one network to another in all configurations of the window so far, and
/// to no third, is that of the access list which one of these configurations has between the two: never a mixture of several,
/// and never that the packet has no destination.
pub fn verdicts_are_of_some_configuration()
    ensures { AtMomentsOfWindows VerdictsAreOfSome }
{}

/// A packet whose source port all configurations have at one node and in one network, whatever its address, starts at the agent
/// of that node, in that network, whichever agents have heard of the port meanwhile.
pub fn packets_start_where_common_ports_are()
    ensures { AtMomentsOfWindows StartsWhereCommon }
{}

/// A packet whose source port all configurations have at one node and in one network, and that each configuration of
/// the window so far leads along a common way to one port, is delivered there, by the way of one of them, through just
/// its services: never by a mixture of several.
pub fn packets_are_delivered_by_the_way_of_one_configuration()
    ensures { AtMomentsOfWindows DeliversByOne }
{}
