//! What is asked of what is held.
ghost use Rattle.std.specs.FinMap.{get};
ghost use Rattle.std.specs.Option.{option_map};
ghost use Rattle.std.specs.Prelude.{◌≡◌, ◌≤◌, ◌<◌, IfOk, IfSome, None, is_some, map, option_copied, true};
ghost use Rattle.vpn_holdings.specs.NodeLaws.Quiet.{PublishesNothing};
ghost use Rattle.ov_sync.specs.Keyed.{key_of};
ghost use Rattle.path_select.specs.NodeModel.Keys.{Subscribe};
ghost use Rattle.path_select.specs.NodeModel.Maps.{object};
ghost use Rattle.path_select.specs.NodeModel.Paths.{own_paths};
ghost use Rattle.path_select.specs.NodeModel.Reaching.{AreShort, publisher, reoriginated_paths};
ghost use Rattle.path_select.specs.NodeModel.Tables.{known_instances};
ghost use Rattle.path_select.specs.NodeModel.Uses.{imports, is_known};
ghost use Rattle.path_select.specs.NodeModel.Wants.{slice, subscriptions};
ghost use Rattle.vpn_holdings.specs.Answers.{is_up_at, rows_at};
ghost use Rattle.vpn_holdings.specs.At.{row_at};
ghost use Rattle.vpn_holdings.specs.Gathered.{UsesAreInRange, held_keys, in_order};
ghost use Rattle.vpn_holdings.specs.Listing.{sliced, told_in};
ghost use Rattle.vpn_holdings.specs.Moved.{targets_by_publication, targets_by_route};
ghost use Rattle.vpn_holdings.specs.Ranges.{Fits};
ghost use Rattle.vpn_holdings.specs.Routes.{path_of};
ghost use Rattle.vpn_holdings.specs.Touched.{rows_by_key, touched_rows};
ghost use Rattle.vpn_holdings.specs.TouchedKeys.{first_keyed, key_published, keys_led};
ghost use Rattle.vpn_holdings.specs.Views.{up_order};

use crate::listing::{listed, shown};
use crate::stored::{entry_at, row_key};
use crate::tables::VpnTables;
use ov_sync::Delta;
use ov_types::{
    Addr, InstanceId, Label, LowKey, LowValue, NoMemory, Prefix, TableRow, Target, UpKey, VpnKey,
    VpnRoute,
};
use vpn_holdings::Route;

/// What is held.
impl VpnTables {
    /// The object that is held at a key. It takes no memory.
    pub fn low(&self, key: &LowKey) -> Option<&LowValue>
        ensures object { option_copied result ≡ object self.now.feed key.now }
        ensures fits { IfSome result (λ value. Fits key.now value.now) }
    {
        self.held.low(key)
    }

    /// The AS number. It takes no memory.
    pub fn asn(&self) -> u32
        ensures { result ≡ self.now.asn }
    {
        self.held.asn()
    }

    /// No held use has more than 15 services.
    pub fn uses_are_short(&self)
        ensures { AreShort self.now.feed }
    {
        self.held.uses_are_short();
    }

    /// Held uses have small numbers, and are short.
    pub fn uses_are_in_range(&self)
        ensures { UsesAreInRange self.now.feed }
    {
        self.held.uses_are_in_range();
    }

    /// Whether an instance is a held network's, or a place of a held use. It takes no memory.
    pub fn is_known(&self, i: InstanceId) -> bool
        ensures { result ≡ is_known self.now.feed i }
    {
        self.held.is_known(i)
    }

    /// The known instances, in order: the networks that are held, and then the places of the uses that are held.
    pub fn known_instances(&self) -> Result<Vec<InstanceId>, NoMemory>
        ensures { IfOk result (λ instances. instances.items ≡ known_instances self.now.feed) }
    {
        self.held.known_instances()
    }

    /// The instances that an instance imports the routes of: none where it is not known.
    pub fn imports(&self, i: InstanceId) -> Result<Vec<InstanceId>, NoMemory>
        ensures { IfOk result (λ instances. instances.items ≡ imports self.now.feed i) }
    {
        self.held.imports(i)
    }

    /// The address and the label of a circuit's publication; where two agents publish it, of the lower session. No
    /// circuit has a number above 131071. It takes no memory.
    pub fn publisher(&self, circuit: u32) -> Option<(Addr, Label)>
        ensures counts { circuit ≤ 131071 → result ≡ publisher self.now circuit }
        ensures no_circuit { 131071 < circuit → result ≡ None }
    {
        self.held.publisher(circuit)
    }
}

/// What follows of what is held.
impl VpnTables {
    /// The row of an instance for a prefix, where it has one: what `table` has there. It is looked up.
    pub fn row(&self, i: InstanceId, prefix: &Prefix) -> Result<Option<TableRow>, NoMemory>
        ensures { IfOk result (λ row. row ≡ row_at self.now i prefix.now) }
    {
        let entry = entry_at(&self.stored, row_key(i, prefix));
        Ok(shown(entry.path))
    }

    /// The rows of an instance, in the order of their prefixes: of each prefix that is among the paths that it
    /// received or that are re-originated into it, the one of the least path.
    pub fn table(&self, i: InstanceId) -> Result<Vec<(Prefix, TableRow)>, NoMemory>
        ensures { IfOk result (λ rows. rows.items ≡ rows_at self.now i) }
    {
        listed(self.alloc, &self.stored, i)
    }

    /// Whether a subnet of a side of the use that the instance is a hop of is reachable from there: false for another
    /// instance or subnet. It takes no memory.
    pub fn up(&self, hop: InstanceId, subnet: &Prefix, right: bool) -> bool
        ensures { result ≡ is_up_at self.now hop subnet.now right }
    {
        let entry = entry_at(&self.stored, row_key(hop, subnet));
        entry.is_up(right)
    }

    /// The own routes, by session and then by publication. Two may have one key; the first of these counts.
    pub fn own_routes(&self) -> Result<Vec<Route>, NoMemory>
        ensures { IfOk result (λ routes. map path_of routes.items ≡ own_paths self.now) }
    {
        self.held.own_routes()
    }

    /// The first own route of a key, where there is one. It takes no memory.
    pub fn own_keyed(&self, key: &VpnKey) -> Option<Route>
        ensures { option_map path_of result ≡ first_keyed key.now (own_paths self.now) }
    {
        self.held.own_keyed(key)
    }

    /// The re-originated routes: of each held use by number, the right side's before the left's, by the distance that
    /// they lead from, and then by subnet. Two may have one key; the first of these counts.
    pub fn reoriginated_paths(&self) -> Result<Vec<Route>, NoMemory>
        ensures { IfOk result (λ routes. map path_of routes.items ≡ reoriginated_paths self.now) }
    {
        self.held.reoriginated_paths()
    }

    /// The first re-originated route of a key, where there is one. It takes no memory.
    pub fn led_keyed(&self, key: &VpnKey) -> Option<Route>
        ensures { option_map path_of result ≡ first_keyed key.now (reoriginated_paths self.now) }
    {
        self.held.led_keyed(key)
    }
}

/// What an address or a session is to be told.
impl VpnTables {
    /// The slice of an address: the attachments there, and the access lists of the networks of its ports, in the order
    /// of their keys.
    pub fn slice(&self, address: Addr) -> Result<Vec<(LowKey, LowValue)>, NoMemory>
        ensures { IfOk result (λ objects. objects.items ≡ slice self.now.feed address) }
    {
        self.held.slice(address)
    }

    /// The object of a key, where it is of the slice of an address. It takes no memory but for the object.
    pub fn sliced(&self, address: Addr, key: &LowKey) -> Result<Option<LowValue>, NoMemory>
        ensures { IfOk result (λ object. object ≡ sliced self.now.feed address key.now) }
    {
        self.held.sliced(address, key)
    }

    /// The keys of what all agents told, each once, in order.
    pub fn up_keys(&self) -> Result<Vec<UpKey>, NoMemory>
        ensures keys { IfOk result (λ keys. keys.items ≡ in_order up_order (held_keys self.now)) }
        ensures in_range { UsesAreInRange self.now.feed }
    {
        self.held.up_keys()
    }

    /// The instances that the agent of a session subscribed, in order: none where the session is no agent's.
    pub fn subscriptions(&self, session: u16) -> Result<Vec<InstanceId>, NoMemory>
        ensures { IfOk result (λ instances. instances.items ≡ subscriptions (told_in self.now.agents session).map) }
    {
        self.held.subscriptions(session)
    }

    /// Whether the agent of a session subscribed an instance. It takes no memory.
    pub fn subscribes(&self, session: u16, i: InstanceId) -> bool
        ensures { result ≡ is_some (get (told_in self.now.agents session).map (Subscribe i)) }
    {
        self.held.subscribes(session, i)
    }

    /// Whether nothing is published on a session, whatever is subscribed. It takes no memory.
    pub fn publishes_nothing(&self, session: u16) -> bool
        ensures only_if_nothing { result ≡ true → PublishesNothing (told_in self.now.agents session).map }
        ensures if_nothing { PublishesNothing (told_in self.now.agents session).map → result ≡ true }
    {
        self.held.publishes_nothing(session)
    }

    /// The address of the agent of a session: 0.0.0.0 where the session is no agent's. It takes no memory.
    pub fn address_of(&self, session: u16) -> Addr
        ensures { result ≡ (told_in self.now.agents session).address }
    {
        self.held.address_of(session)
    }
}

/// What a change touches.
impl VpnTables {
    /// The targets before and after a change of a peer's route.
    pub fn targets_by_route(
        &self,
        session: u16,
        delta: &Delta<VpnKey, VpnRoute>,
    ) -> Result<Vec<Target>, NoMemory>
        ensures { IfOk result (λ targets. targets.items ≡ targets_by_route self.now session delta.now) }
    {
        self.held.targets_by_route(session, delta)
    }

    /// The rows that a change of a peer's route may change.
    pub fn touched_by_route(
        &self,
        session: u16,
        delta: &Delta<VpnKey, VpnRoute>,
    ) -> Result<Vec<(InstanceId, Prefix)>, NoMemory>
        ensures { IfOk result (λ rows. rows.items
            ≡ touched_rows self.now (targets_by_route self.now session delta.now) (key_of delta.now).prefix) }
    {
        self.held.touched_by_route(session, delta)
    }

    /// The rows that a change of what an agent told may change: of a subscription none.
    pub fn touched_by_publication(
        &self,
        session: u16,
        delta: &Delta<UpKey, Label>,
    ) -> Result<Vec<(InstanceId, Prefix)>, NoMemory>
        ensures { IfOk result (λ rows. rows.items
            ≡ rows_by_key self.now (targets_by_publication self.now session delta.now) (key_of delta.now)) }
    {
        self.held.touched_by_publication(session, delta)
    }

    /// The keys of the routes that may lead on along the uses that are touched by these targets: towards each circuit
    /// that is published here, whether a subnet is up or not. It looks at no path.
    pub fn keys_led(&self, targets: &[Target]) -> Result<Vec<VpnKey>, NoMemory>
        ensures { IfOk result (λ keys. keys.items ≡ keys_led self.now targets.now) }
    {
        self.held.keys_led(targets)
    }

    /// The key of the own route of a publication: none where the session is no agent's, and none of a subscription. It
    /// takes no memory.
    pub fn key_published(&self, session: u16, key: &UpKey) -> Option<VpnKey>
        ensures { result ≡ key_published self.now session key.now }
    {
        self.held.key_published(session, key)
    }
}
