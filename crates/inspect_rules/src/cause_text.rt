//! The texts of what outcomes come of.
ghost use Rattle.std.specs.Prelude.{Some};
ghost use Rattle.inspect_rules.specs.CauseLines.{cause_text, condition_text, mirrored_text, place_text, policy_text, reading_text};

use crate::cause::{Cause, Condition};
use ov_types::{Name, RuleNo};
use std::fmt;

/// A condition, as it is printed.
#[derive(Clone, Copy)]
struct ConditionText(Condition);

impl fmt::Display for ConditionText {
    ghost output = { λ x. Some (condition_text x.0) };

    fn fmt<W: fmt::Write>(&self, f: &mut fmt::Formatter<W>) -> fmt::Result {
        match self.0 {
            Condition::Protocol => write!(f, "protocol"),
            Condition::SourcePorts => write!(f, "source-ports"),
            Condition::DestinationPorts => write!(f, "destination-ports"),
            Condition::Direction => write!(f, "direction"),
        }
    }
}

/// What fails of a rule read mirrored, as it is printed.
#[derive(Clone, Copy)]
struct MirroredText(Option<Condition>);

impl fmt::Display for MirroredText {
    ghost output = { λ x. Some (mirrored_text x.0) };

    fn fmt<W: fmt::Write>(&self, f: &mut fmt::Formatter<W>) -> fmt::Result {
        match self.0 {
            None => write!(f, "-"),
            Some(condition) => {
                let condition = ConditionText(condition);
                write!(f, "{condition}")
            }
        }
    }
}

/// The policy of a rule, as it is printed.
#[derive(Clone, Copy)]
struct PolicyText(Option<Name>);

impl fmt::Display for PolicyText {
    ghost output = { λ x. Some (policy_text x.0) };

    fn fmt<W: fmt::Write>(&self, f: &mut fmt::Formatter<W>) -> fmt::Result {
        match self.0 {
            None => write!(f, "-"),
            Some(name) => write!(f, "{name}"),
        }
    }
}

/// A rule, by its policy and its position there.
#[derive(Clone, Copy)]
struct PlaceText {
    rule: RuleNo,
    policy: Option<Name>,
}

impl fmt::Display for PlaceText {
    ghost output = { λ x. Some (place_text x.rule x.policy) };

    fn fmt<W: fmt::Write>(&self, f: &mut fmt::Formatter<W>) -> fmt::Result {
        let policy = PolicyText(self.policy);
        let position = self.rule.position;
        write!(f, "policy {policy} position {position}")
    }
}

/// How a rule is read, as it is printed.
#[derive(Clone, Copy)]
struct ReadingText(bool);

impl fmt::Display for ReadingText {
    ghost output = { λ x. Some (reading_text x.0) };

    fn fmt<W: fmt::Write>(&self, f: &mut fmt::Formatter<W>) -> fmt::Result {
        if self.0 {
            write!(f, "mirrored")
        } else {
            write!(f, "forwards")
        }
    }
}

/// What an outcome comes of, as it is printed.
#[derive(Clone, Copy)]
pub struct CauseText(pub Cause);

impl fmt::Display for CauseText {
    ghost output = { λ x. Some (cause_text x.0) };

    fn fmt<W: fmt::Write>(&self, f: &mut fmt::Formatter<W>) -> fmt::Result {
        match self.0 {
            Cause::From { network } => write!(f, "from network {network}"),
            Cause::To { network } => write!(f, "to network {network}"),
            Cause::Skipped {
                rule,
                policy,
                forwards,
                mirrored,
            } => {
                let place = PlaceText { rule, policy };
                let forwards = ConditionText(forwards);
                let mirrored = MirroredText(mirrored);
                write!(f, "skipped {place} forwards {forwards} mirrored {mirrored}")
            }
            Cause::Decided {
                rule,
                policy,
                mirrored,
            } => {
                let place = PlaceText { rule, policy };
                let reading = ReadingText(mirrored);
                write!(f, "decided {place} {reading}")
            }
            Cause::Attached { network, policy } => {
                write!(f, "attached network {network} policy {policy}")
            }
            Cause::Unrelated { network } => write!(f, "unrelated network {network}"),
        }
    }
}
