//! The line of a configuration that breaks a rule.
ghost use Rattle.std.specs.Prelude.{◌≡◌, option_map};
ghost use Rattle.explanations.specs.Sentences.{refused_sentence};
ghost use Rattle.explanations.specs.Refusals.{refused_in, refused_words, words_in};
ghost use Rattle.explanations.specs.Words.{behind_blank, first_word};

use crate::rule::{RuleKind, id_claim, limit_claim, rule_named};
use crate::text::utf8_front;
use std::fmt;

/// A rule, and the texts of the objects that break it, in the order of the line; empty where there are fewer than three.
/// It prints as one sentence.
#[derive(Clone, Copy)]
pub struct Refused<'a> {
    pub rule: RuleKind,
    pub first: &'a str,
    pub second: &'a str,
    pub third: &'a str,
}

impl fmt::Display for Refused<'_> {
    ghost use Rattle.std.specs.Prelude.{Some};
    ghost use Rattle.explanations.specs.Sentences.{refused_sentence};

    ghost output = { λ r. Some (refused_sentence r.rule r.first.now r.second.now r.third.now) };

    fn fmt<W: fmt::Write>(&self, f: &mut fmt::Formatter<W>) -> fmt::Result {
        let (first, second, third) = (self.first, self.second, self.third);
        match self.rule {
            RuleKind::Limit => {
                let claim = limit_claim(first);
                write!(f, "{claim}")
            }
            RuleKind::DuplicateName => write!(
                f,
                "one name is given to two nodes, to two objects of one kind or to a service and a chain, or stands twice in the list of a compute node: {first}"
            ),
            RuleKind::DuplicateId => {
                let claim = id_claim(first);
                write!(f, "{claim} {second}")
            }
            RuleKind::BadReference => write!(
                f,
                "what is referred to has to exist, and nothing of the wanted kind is named {first}"
            ),
            RuleKind::SubnetReserved => write!(
                f,
                "250.0.0.0/15 is kept for the addresses of circuits, and subnet {second} of network {first} overlaps it"
            ),
            RuleKind::SubnetNested => write!(
                f,
                "the subnets of a network do not overlap, and {second} and {third} of network {first} do"
            ),
            RuleKind::AddressOutside => write!(
                f,
                "the address of a port is in a subnet of its network, and that of port {first} is in none"
            ),
            RuleKind::AddressTaken => write!(
                f,
                "the ports of a network have addresses of their own, and ports {first} and {second} have the same"
            ),
            RuleKind::ChainNeedsNetworks => write!(
                f,
                "a rule through a chain names both of its networks, and rule {first} has any"
            ),
            RuleKind::ChainSameNetwork => write!(
                f,
                "a rule through a chain is between two networks, and rule {first} names one twice"
            ),
            RuleKind::ChainLoop => {
                write!(f, "a chain does not lead to itself, and chain {first} does")
            }
            RuleKind::ChainTooLong => write!(
                f,
                "a chain comes to at most 15 services with those of the chains in it, and chain {first} to more"
            ),
            RuleKind::ServiceTwice => write!(
                f,
                "a chain passes each service once, and chain {first} comes to service {second} twice"
            ),
            RuleKind::SubnetOverlap => write!(
                f,
                "networks that are related, or related to one network, share no addresses, and {first} and {second} do"
            ),
        }
    }
}

/// The rule that a line tells, and its objects.
#[tactic(auto, unfolding(crate::specs::Refusals::refused_in))]
pub fn refused_in(line: &[u8]) -> Option<Refused<'_>>
    ensures { option_map refused_words result ≡ refused_in line.now }
{
    let told = line.strip_prefix(b"refused ")?;
    let words = told.strip_suffix(b"\n")?;
    words_in(utf8_front(words))
}

/// The rule that the first word names, and the other words as objects.
#[tactic(auto, unfolding(crate::specs::Refusals::words_in))]
fn words_in(words: &str) -> Option<Refused<'_>>
    ensures { option_map refused_words result ≡ words_in words.now }
{
    let (word, objects) = cut_at_blank(words);
    let rule = rule_named(word)?;
    let (first, others) = cut_at_blank(objects);
    let (second, third) = cut_at_blank(others);
    Some(Refused {
        rule,
        first,
        second,
        third,
    })
}

/// A text cut at its first blank; where there is none, the text and nothing.
fn cut_at_blank(text: &str) -> (&str, &str)
    ensures first { result.0.now ≡ first_word text.now }
    ensures rest { result.1.now ≡ behind_blank text.now }
{
    match text.split_once(' ') {
        Some(parts) => parts,
        None => (text, ""),
    }
}
