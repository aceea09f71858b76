//! Names and addresses by number.
ghost use Rattle.std.specs.Prelude.{◌≡◌, ◌≤◌, ◌<◌, length, IfOk, IsTrue, ◌+◌, ◌%◌};
ghost use Rattle.ov_types.specs.Name.{is_name};
ghost use Rattle.scenario_gen.specs.Naming.{numbered, address};
ghost use Rattle.scenario_gen.specs.Nodes.{controller_at, node_at};

use ov_types::{Addr, Name, NoMemory};
use std::alloc::Global;

/// The name of a word with a number behind it.
#[tactic(auto, using(crate::proofs::Names::numbered_is_name))]
pub(crate) fn numbered(alloc: Global, word: &str, number: u16) -> Result<Name, NoMemory>
    requires word { IsTrue (is_name word.now) }
    requires short { length word.now ≤ 27 }
    ensures { IfOk result (λ name. name ≡ numbered word.now number) }
{
    let text = format!(in alloc; "{word}{number}")?;
    match Name::new(text.as_str()) {
        Some(name) => Ok(name),
        None => unreachable!(),
    }
}

/// The control node that a count reaches which goes round the three.
pub(crate) fn controller_at(alloc: Global, count: u16) -> Result<Name, NoMemory>
    ensures { IfOk result (λ name. name ≡ controller_at count) }
{
    numbered(alloc, "c", 1 + count % 3)
}

/// The compute node that a count reaches which goes round the twenty.
pub(crate) fn node_at(alloc: Global, count: u16) -> Result<Name, NoMemory>
    ensures { IfOk result (λ name. name ≡ node_at count) }
{
    numbered(alloc, "n", 1 + count % 20)
}

/// The address of four octets.
pub(crate) fn address(a: u8, b: u8, c: u8, d: u16) -> Addr
    requires { a < 255 }
    ensures { result ≡ address a b c d }
{
    let high = u32::from(a) * 256 + u32::from(b);
    let low = u32::from(c) * 256 + u32::from(d);
    Addr(high * 65_536 + low)
}
