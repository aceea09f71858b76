//! How many routes are sent to a peer that asks.
ghost use Rattle.std.specs.Prelude.{◌≡◌, length};
ghost use Rattle.std.specs.List.{filter};
ghost use Rattle.vpn_tables.specs.Views.{peer_of};
ghost use Rattle.rt_constrain.specs.Covering.{AreAsked, covers};
ghost use Rattle.rt_constrain.specs.Sharing.{share};

use crate::covering::covers;
use ov_types::{VpnKey, VpnRoute};
use rt_membership::Asked;
use std::collections::BTreeMap;

/// How many routes there are, and how many of them are sent.
#[derive(Clone, Copy)]
pub struct Share {
    pub sent: usize,
    pub all: usize,
}

/// How many of some routes are asked for.
fn covered_among(routes: &BTreeMap<VpnKey, VpnRoute>, asked: &[Asked]) -> usize
    requires { AreAsked asked.now }
    ensures { result ≡ length (filter (λ e. covers asked.now e.1) routes.now.entries) }
{
    // (for its clause: the routes are fewer than 2^64, so that their count does not overflow)
    let _all = routes.len();
    let mut count = 0;
    for (_, route) in routes.iter() {
        if covers(asked, route) {
            count += 1;
        }
    }
    count
}

/// How many of the routes that a control node would tell its peers are sent to a peer that asks for some targets, and
/// how many routes there are in all. It takes no memory.
pub fn share_of(routes: &BTreeMap<VpnKey, VpnRoute>, asked: &[Asked]) -> Share
    requires { AreAsked asked.now }
    ensures { result ≡ share asked.now (peer_of routes.now.entries) }
{
    let sent = covered_among(routes, asked);
    let all = routes.len();
    Share { sent, all }
}
