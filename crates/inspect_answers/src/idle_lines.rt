//! The lines of what decides nothing, or is not in use.
ghost use Rattle.std.specs.Prelude.{◌≡◌, ◌++◌, IfOk, OnOk, OnErr, codes, string_bytes};
ghost use Rattle.ov_types.specs.Rows.{rule_text};
ghost use Rattle.inspect_changes.specs.Report.Lists.{more_text};
ghost use Rattle.inspect_answers.specs.IdleLines.{chain_line, idle_line, idle_line_in, policy_line, rule_line, rule_words};
ghost use Rattle.inspect_answers.specs.IdleLines.{rules_text};

use config_types::Config;
use inspect_changes::LinesOf;
use inspect_json::{Form, IdleJson};
use inspect_rules::Idle;
use ov_io::TextOut;
use ov_types::{Name, NoMemory, RuleNo};
use std::alloc::{AllocError, Global};

fn append_behind_comma(rule: RuleNo, text: &mut String) -> Result<(), AllocError>
    ensures { OnOk result (string_bytes text.new ≡ string_bytes text.old ++ (codes "," ++ rule_text rule)) }
{
    write!(text, ",{rule}")
}

/// Appends rules, each behind a comma.
fn append_more(rules: &[RuleNo], text: &mut String) -> Result<(), AllocError>
    ensures { OnOk result (string_bytes text.new ≡ string_bytes text.old ++ more_text rule_text rules.now) }
{
    for rule in rules {
        append_behind_comma(*rule, text)?;
    }
    Ok(())
}

/// Rules joined by commas, and `-` where there are none.
#[tactic(auto, unfolding(crate::specs::IdleLines::rules_text))]
fn joined_rules(alloc: Global, rules: &[RuleNo]) -> Result<String, AllocError>
    ensures { IfOk result (λ s. string_bytes s ≡ rules_text rules.now) }
{
    match rules {
        [] => String::from_str(alloc, "-"),
        [first, others @ ..] => {
            let mut text = String::new(alloc);
            write!(text, "{first}")?;
            append_more(others, &mut text)?;
            Ok(text)
        }
    }
}

/// A rule, and a text of those that stand before it.
fn words_behind(alloc: Global, rule: RuleNo, behind: &str) -> Result<String, AllocError>
    ensures { IfOk result (λ s. string_bytes s
        ≡ codes "rule " ++ (rule_text rule ++ (codes " unused behind " ++ behind.now))) }
{
    format!(in alloc; "rule {rule} unused behind {behind}")
}

/// A rule, and those that stand before it.
fn rule_words(alloc: Global, rule: RuleNo, before: &[RuleNo]) -> Result<String, AllocError>
    ensures { IfOk result (λ s. string_bytes s ≡ rule_words rule before.now) }
{
    let behind = joined_rules(alloc, before)?;
    words_behind(alloc, rule, behind.as_str())
}

#[tactic(auto, unfolding(crate::specs::IdleLines::rule_line))]
fn append_rule(
    alloc: Global,
    rule: RuleNo,
    before: &[RuleNo],
    out: &mut TextOut,
) -> Result<(), NoMemory>
    ensures ok { OnOk result (out.new ≡ out.old ++ rule_line rule before.now) }
    ensures err { OnErr result (out.new ≡ out.old) }
{
    let words = rule_words(alloc, rule, before)?;
    write!(out, "{words}\n")
}

#[tactic(auto, unfolding(crate::specs::IdleLines::policy_line))]
fn append_policy(name: Name, networks: usize, out: &mut TextOut) -> Result<(), NoMemory>
    ensures ok { OnOk result (out.new ≡ out.old ++ policy_line name networks) }
    ensures err { OnErr result (out.new ≡ out.old) }
{
    write!(out, "policy {name} attached by {networks}\n")
}

#[tactic(auto, unfolding(crate::specs::IdleLines::chain_line))]
fn append_chain(name: Name, out: &mut TextOut) -> Result<(), NoMemory>
    ensures ok { OnOk result (out.new ≡ out.old ++ chain_line name) }
    ensures err { OnErr result (out.new ≡ out.old) }
{
    write!(out, "chain {name} unused\n")
}

/// Appends the line of text of what decides nothing, or is not in use.
fn append_text(alloc: Global, found: &Idle, out: &mut TextOut) -> Result<(), NoMemory>
    ensures ok { OnOk result (out.new ≡ out.old ++ idle_line found.now) }
    ensures err { OnErr result (out.new ≡ out.old) }
{
    match found {
        Idle::Rule { rule, before } => append_rule(alloc, *rule, before.as_slice(), out),
        Idle::Policy { name, networks } => append_policy(*name, *networks, out),
        Idle::Chain { name } => append_chain(*name, out),
    }
}

/// The line of what decides nothing, or is not in use, of a configuration, in a form.
#[derive(Clone, Copy)]
pub(crate) struct IdleIn<'a> {
    pub(crate) form: Form,
    pub(crate) config: &'a Config,
}

impl LinesOf<Idle> for IdleIn<'_> {
    ghost lines = { λ w found. idle_line_in w.form w.config.now found };

    fn append(&self, alloc: Global, found: &Idle, out: &mut TextOut) -> Result<(), NoMemory> {
        match self.form {
            Form::Text => append_text(alloc, found, out),
            Form::Json => {
                let lines = IdleJson {
                    config: self.config,
                };
                lines.append(alloc, found, out)
            }
        }
    }
}
