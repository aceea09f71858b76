//! Lists of objects that have names.
ghost use Rattle.std.specs.Prelude.{◌≡◌, List, ℕ, IfOk};
ghost use Rattle.config_check.specs.Edits.{place_of, with_put, without, network_name, port_name, policy_name};
ghost use Rattle.config_check.specs.Edits.{service_name, chain_name, node_name};

use config_types::{Chain, Network, Node, Policy, Port, Service};
use ov_types::{Items, Name, NoMemory};

/// What has a name, which is its own among those of its kind.
pub(crate) trait Named: Drop {
    ghost name_of: { Self → List ℕ };

    fn name(&self) -> Name
        ensures { result ≡ name_of self.now };
}

impl Named for Network {
    ghost name_of = { network_name };

    fn name(&self) -> Name {
        self.name
    }
}

impl Named for Port {
    ghost name_of = { port_name };

    fn name(&self) -> Name {
        self.name
    }
}

impl Named for Policy {
    ghost name_of = { policy_name };

    fn name(&self) -> Name {
        self.name
    }
}

impl Named for Service {
    ghost name_of = { service_name };

    fn name(&self) -> Name {
        self.name
    }
}

impl Named for Chain {
    ghost name_of = { chain_name };

    fn name(&self) -> Name {
        self.name
    }
}

impl Named for Node {
    ghost name_of = { node_name };

    fn name(&self) -> Name {
        self.name
    }
}

/// The place of the object of a name.
pub(crate) fn place_of<T: Named>(items: &[T], name: Name) -> Option<usize>
    ensures { result ≡ place_of T.name_of name items.now }
{
    items.iter().position(|item| item.name() == name)
}

/// The object takes the place of the one of its name, or is appended.
pub(crate) fn with_put<T: Named>(items: Items<T>, item: T) -> Result<Items<T>, NoMemory>
    ensures { IfOk result (λ xs. xs ≡ with_put T.name_of item items) }
{
    let mut all = items.into_vec();
    match place_of(&all, item.name()) {
        Some(place) => all[place] = item,
        None => all.push(item)?,
    }
    Ok(Items::from_vec(all))
}

/// The object of a name is taken out.
pub(crate) fn without<T: Named>(items: Items<T>, name: Name) -> Items<T>
    ensures { result ≡ without T.name_of name items }
{
    let mut all = items.into_vec();
    if let Some(place) = place_of(&all, name) {
        let _ = all.remove(place);
    }
    Items::from_vec(all)
}
