//! The lines of the entries of access lists. They are most of what `compile` writes, so they go without the formatter.
ghost use Rattle.std.specs.Prelude.{◌≡◌, ◌≤◌, ◌+◌, ◌++◌, ◌∷◌, [], length, codes, flat_map, IfOk, OnOk, string_bytes};
ghost use Rattle.ov_types.specs.Rows.{rule_text};
ghost use Rattle.report.specs.Objects.{action_text, entry_line, entry_text, key_text, protocol_text};

use crate::line::Line;
use crate::objects::KeyText;
use ov_io::TextOut;
use ov_types::{AclAction, AclRule, LowKey, NoMemory, RuleNo};
use std::alloc::{AllocError, Global};

/// Puts what an entry does before a line.
fn prepend_action(line: &mut Line, action: AclAction)
    requires { length line.old + 11 ≤ 128 }
    ensures text { line.new ≡ action_text action ++ line.old }
    ensures short { length line.new ≤ length line.old + 11 }
{
    match action {
        AclAction::Pass => line.prepend(b"pass"),
        AclAction::Deny => line.prepend(b"deny"),
        AclAction::Enter(instance) => {
            line.prepend_short_number(instance.0);
            line.prepend(b"enter ");
        }
    }
}

/// Puts the protocol of an entry before a line.
fn prepend_protocol(line: &mut Line, protocol: Option<u8>)
    requires { length line.old + 3 ≤ 128 }
    ensures text { line.new ≡ protocol_text protocol ++ line.old }
    ensures short { length line.new ≤ length line.old + 3 }
{
    match protocol {
        None => line.prepend(b"any"),
        Some(number) => line.prepend_octet(number),
    }
}

/// Puts the number of a rule before a line.
fn prepend_rule(line: &mut Line, rule: RuleNo)
    requires { length line.old + 11 ≤ 128 }
    ensures text { line.new ≡ rule_text rule ++ line.old }
    ensures short { length line.new ≤ length line.old + 11 }
{
    line.prepend_short_number(rule.position);
    line.prepend(b"/");
    line.prepend_short_number(rule.sequence);
}

/// What stands in the line of an entry behind the name of its list.
#[tactic(auto, unfolding(crate::specs::Objects::entry_text))]
fn entry_end(entry: &AclRule) -> Line
    ensures { result ≡ codes " " ++ ((codes "rule " ++ entry_text entry.now) ++ (10 ∷ [])) }
{
    let mut line = Line::new();
    line.prepend(b"\n");
    prepend_action(&mut line, entry.action);
    line.prepend(b" ");
    line.prepend_range(entry.dports);
    line.prepend(b" ");
    line.prepend_range(entry.sports);
    line.prepend(b" ");
    prepend_protocol(&mut line, entry.protocol);
    line.prepend(b" ");
    prepend_rule(&mut line, entry.rule);
    line.prepend(b"rule ");
    line.prepend(b" ");
    line
}

/// What names an access list, behind a front.
fn named(alloc: Global, front: &str, key: LowKey) -> Result<String, AllocError>
    ensures { IfOk result (λ s. string_bytes s ≡ front.now ++ key_text key) }
{
    let key = KeyText(key);
    format!(in alloc; "{front}{key}")
}

/// Appends the lines of the entries of an access list, each behind a front.
#[tactic(auto, unfolding(crate::specs::Objects::object_line, crate::specs::Objects::entry_line))]
pub(crate) fn append_entries(
    alloc: Global,
    front: &str,
    key: LowKey,
    entries: &[AclRule],
    out: &mut TextOut,
) -> Result<(), NoMemory>
    ensures { OnOk result (out.new ≡ out.old ++ flat_map (entry_line front.now key) entries.now) }
{
    let name = named(alloc, front, key)?;
    for entry in entries {
        let line = entry_end(entry);
        out.push_both(name.as_bytes(), line.octets())?;
    }
    Ok(())
}
