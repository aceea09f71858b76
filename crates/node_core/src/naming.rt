//! The configuration node's name.
ghost use Rattle.std.specs.Prelude.{◌≡◌};
ghost use Rattle.node_model.specs.Naming.{config};

use ov_types::Name;

/// The configuration node's name.
pub fn config_name() -> Name
    ensures { result ≡ config }
{
    match Name::new("config") {
        Some(name) => name,
        None => unreachable!(),
    }
}
