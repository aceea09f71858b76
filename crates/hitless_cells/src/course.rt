//! By which way a packet goes.
ghost use Rattle.std.specs.Prelude.{◌≡◌, nat_le, length, IsTrue};
ghost use Rattle.std.specs.List.{list_all};
ghost use Rattle.hitless_cells.specs.Courses.{course_by, course_on};

use config_types::{Action, Config, Network};
use ov_types::Tuple;
use policy_rules::{Match, deciding};

/// By which way a packet goes from one network into another.
#[derive(Clone, Copy)]
pub enum Course {
    /// Inside one network.
    Inside,
    /// By a pass rule.
    Passing,
    /// Through the services of a use, in their order, or reversed where its rule is matched mirrored.
    Through { use_no: u16, mirrored: bool },
}

/// The way by which the rule that decides lets packets through.
fn course_by(found: Option<Match>) -> Option<Course>
    ensures { result ≡ course_by found }
{
    let Some(found) = found else {
        return None;
    };
    match found.rule.rule.action {
        Action::Pass => Some(Course::Passing),
        Action::Deny => None,
        Action::Through { use_no, .. } => Some(Course::Through {
            use_no,
            mirrored: found.mirrored,
        }),
    }
}

/// The way by which a tuple goes from one network into another, if it is let through.
pub(crate) fn course_on(
    config: &Config,
    own: &Network,
    target: &Network,
    tuple: &Tuple,
) -> Option<Course>
    requires { IsTrue (list_all (λ p. nat_le (length p.rules) 16) config.now.policies) }
    ensures { result ≡ course_on config.now own.now target.now tuple.now }
{
    if target.name == own.name {
        return Some(Course::Inside);
    }
    course_by(deciding(config, own, target, tuple))
}
