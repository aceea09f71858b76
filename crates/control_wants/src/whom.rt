//! The agents for which a key is marked.
ghost use Rattle.std.specs.Prelude.{◌≡◌, true, None, Some};
ghost use Rattle.ov_types.specs.declared.keys.DownKey.{DownKey as DownKeyOf};
ghost use Rattle.vpn_tables.specs.NodeModel.Paths.{Told};
ghost use Rattle.control_wants.specs.Marks.{is_marked, is_of};

use ov_types::Addr;

/// The agents of which a key is marked.
#[derive(Clone, Copy)]
pub enum Whom {
    Every,
    /// The agents that subscribe the instance of a row; of an object of slices all.
    Subscribers,
    /// The agents at an address.
    Only(Addr),
}

/// The agents for which a key is marked, once these are marked too.
pub(crate) fn joined(before: Option<Whom>, whom: Whom) -> Whom
    ensures keeps { (a : Told) (key : DownKeyOf) → is_marked a key before ≡ true → is_of a key result ≡ true }
    ensures first { before ≡ None → result ≡ whom }
    ensures same { before ≡ Some whom → result ≡ whom }
    ensures adds { (a : Told) (key : DownKeyOf) → is_of a key whom ≡ true → is_of a key result ≡ true }
{
    match (before, whom) {
        (None, _) | (Some(Whom::Subscribers), Whom::Subscribers) => whom,
        (Some(Whom::Only(one)), Whom::Only(other)) if one.0 == other.0 => whom,
        _ => Whom::Every,
    }
}
