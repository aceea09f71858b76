//! Routes where they lie.
ghost use Rattle.std.specs.Prelude.{◌≡◌, ◌∷◌, [], IfSome, IfNone};
ghost use Rattle.bgp_vpn.specs.Routes.{IsRoute};
ghost use Rattle.bgp_vpn.specs.Spelled.{fields_of};
ghost use Rattle.bgp_vpn.specs.Said.{labeled_of, labeled_in};

use crate::route::{Route, key_of, label_of, split_route};
use ov_types::{Label, VpnKey};
use std::marker::Model;

/// A route that an UPDATE announces or withdraws: its key and its label.
#[derive(Clone, Copy)]
pub struct Labeled {
    pub key: VpnKey,
    pub label: Label,
}

/// The routes of one attribute of an UPDATE, in order.
#[derive(Drop)]
pub struct Routes<'a> {
    rest: &'a [u8],
}

impl<'a> Model for Routes<'a> {
    ghost use Rattle.std.specs.Prelude.{List};
    ghost use Rattle.bgp_vpn.specs.declared.routes.Labeled.{Labeled as LabeledValue};
    ghost use Rattle.bgp_vpn.specs.Said.{labeled_in};

    ghost Value = { List LabeledValue };

    ghost view = { λ r. labeled_in r.rest.now };
}

impl<'a> Routes<'a> {
    pub(crate) fn new(octets: &'a [u8]) -> Routes<'a>
        ensures { result ≡ labeled_in octets.now }
    {
        Routes { rest: octets }
    }
}

fn labeled_of(route: &Route<'_>) -> Labeled
    requires { IsRoute (fields_of route.now) }
    ensures { result ≡ labeled_of (fields_of route.now) }
{
    Labeled {
        key: key_of(route),
        label: label_of(route),
    }
}

/// The route at the front, and the octets after it.
#[tactic(auto, using(crate::proofs::SaidLemmas::none_labeled))]
fn split_labeled(octets: &[u8]) -> Option<(Labeled, &[u8])>
    ensures found { IfSome result (λ front. labeled_in octets.now ≡ front.0 ∷ labeled_in front.1.now) }
    ensures none { IfNone result (labeled_in octets.now ≡ []) }
{
    let (route, after) = split_route(octets)?;
    let labeled = labeled_of(&route);
    Some((labeled, after))
}

impl<'a> Iterator for Routes<'a> {
    ghost use Rattle.std.specs.Prelude.{length};
    ghost use Rattle.std.specs.Iterator.{at_most};
    ghost use Rattle.bgp_vpn.specs.Said.{NextRoute};

    type Item = Labeled;

    ghost next_gives = { NextRoute };

    ghost remaining = { λ routes. at_most (length routes) };

    fn next(&mut self) -> Option<Labeled> {
        match split_labeled(self.rest) {
            Some((route, after)) => {
                self.rest = after;
                Some(route)
            }
            None => None,
        }
    }
}
