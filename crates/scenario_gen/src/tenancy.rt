//! The tenants of a scenario.
ghost use Rattle.std.specs.Prelude.{◌≡◌, ◌≤◌};
ghost use Rattle.scenario_gen.specs.Tenants.{tenants};

/// How many tenants the scenario of a number has, and so how many uses of chains. It takes no memory.
pub fn tenants(scenario: u16) -> u16
    requires { 1 ≤ scenario }
    ensures count { result ≡ tenants scenario }
    ensures few { result ≤ 16 }
{
    1 + (scenario - 1) % 16
}
