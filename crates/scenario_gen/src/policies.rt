//! The policies: three of each tenant.
ghost use Rattle.std.specs.Prelude.{◌≡◌, IfOk};
ghost use Rattle.scenario_gen.specs.Policies.{rule_of, front_rules, back_rules, management_rules};
ghost use Rattle.scenario_gen.specs.Policies.{policies_of};

use crate::listing::OfTenant;
use crate::naming::numbered;
use config_types::{Action, Direction, End, Policy, Protocol, Rule};
use ov_types::{Items, NoMemory, Range16};
use std::alloc::Global;

/// The IP protocol TCP.
const TCP: u8 = 6;

/// A rule of both directions about TCP to one port number, from any.
fn rule_of(source: End, destination: End, port: u16, action: Action) -> Rule
    ensures { result ≡ rule_of source destination port action }
{
    Rule {
        direction: Direction::BothWays,
        source,
        destination,
        protocol: Protocol::Number(TCP),
        source_ports: Range16 {
            lo: 0,
            hi: u16::MAX,
        },
        destination_ports: Range16 { lo: port, hi: port },
        action,
    }
}

/// Telnet is denied, and the web servers reach the applications through the tenant's chain.
#[tactic(auto, unfolding(crate::specs::Policies::front_rules))]
fn front_rules(alloc: Global, tenant: u16) -> Result<Items<Rule>, NoMemory>
    ensures { IfOk result (λ rules. rules ≡ front_rules tenant) }
{
    let web = End::Named(numbered(alloc, "w", tenant)?);
    let application = End::Named(numbered(alloc, "a", tenant)?);
    let chain = numbered(alloc, "k", tenant)?;
    let through = Action::Through {
        chain,
        use_no: tenant,
    };
    let telnet = rule_of(End::Any, End::Any, 23, Action::Deny);
    let http = rule_of(web, application, 80, through);
    Ok(Items::from_vec(vec![in alloc; telnet, http]?))
}

/// The applications reach the databases.
#[tactic(auto, unfolding(crate::specs::Policies::back_rules))]
fn back_rules(alloc: Global, tenant: u16) -> Result<Items<Rule>, NoMemory>
    ensures { IfOk result (λ rules. rules ≡ back_rules tenant) }
{
    let application = End::Named(numbered(alloc, "a", tenant)?);
    let database = End::Named(numbered(alloc, "d", tenant)?);
    let queries = rule_of(application, database, 5432, Action::Pass);
    Ok(Items::from_vec(vec![in alloc; queries]?))
}

/// The management reaches all.
#[tactic(auto, unfolding(crate::specs::Policies::management_rules))]
fn management_rules(alloc: Global, tenant: u16) -> Result<Items<Rule>, NoMemory>
    ensures { IfOk result (λ rules. rules ≡ management_rules tenant) }
{
    let management = End::Named(numbered(alloc, "m", tenant)?);
    let shells = rule_of(management, End::Any, 22, Action::Pass);
    Ok(Items::from_vec(vec![in alloc; shells]?))
}

impl OfTenant for Policy {
    ghost of_tenant = { λ n t. policies_of t };

    #[tactic(auto, unfolding(crate::specs::Policies::policies_of))]
    fn append_to(
        items: &mut Items<Self>,
        alloc: Global,
        _scenario: u16,
        tenant: u16,
    ) -> Result<(), NoMemory> {
        items.push(Policy {
            name: numbered(alloc, "pf", tenant)?,
            sequence: 3 * tenant + 1,
            rules: front_rules(alloc, tenant)?,
        })?;
        items.push(Policy {
            name: numbered(alloc, "pb", tenant)?,
            sequence: 3 * tenant + 2,
            rules: back_rules(alloc, tenant)?,
        })?;
        items.push(Policy {
            name: numbered(alloc, "pm", tenant)?,
            sequence: 3 * tenant + 3,
            rules: management_rules(alloc, tenant)?,
        })
    }
}
