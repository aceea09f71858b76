//! The held uses of chains, each seen from an end.
ghost use Rattle.std.specs.Prelude.{◌≡◌, ◌≤◌};
ghost use Rattle.std.specs.Option.{option_map};
ghost use Rattle.path_select.specs.NodeModel.Reaching.{hop_at, circuit_at, subnets};
ghost use Rattle.path_select.specs.NodeModel.Uses.{as_use};
ghost use Rattle.vpn_holdings.specs.Ranges.{Fits};
ghost use Rattle.vpn_holdings.specs.Answers.{distance, seen_from, side_at};

use crate::holdings::VpnHoldings;
use ov_types::{InstanceId, LowKey, LowValue, Prefix};
use route_targets::{hop_instance, left_circuit, right_circuit};
use std::marker::Model;

/// A held use, seen from one of its ends. A distance counts places from that end: place 0 is before the first service
/// from the left, and each further one behind the next.
#[derive(Drop)]
pub(crate) struct Side<'a> {
    number: u16,
    left: InstanceId,
    right: InstanceId,
    left_subnets: &'a [Prefix],
    right_subnets: &'a [Prefix],
    services: u8,
    is_right: bool,
}

impl<'a> Model for Side<'a> {
    ghost use Rattle.path_select.specs.NodeModel.Reaching.{Side as SideValue};
    ghost use Rattle.std.specs.Prelude.{◌≤◌};

    ghost Value = { SideValue };

    ghost view = { λ s. record {
      chain = record {
        number = s.number;
        left = s.left;
        right = s.right;
        left_subnets = s.left_subnets.now;
        right_subnets = s.right_subnets.now;
        services = s.services;
      };
      is_right = s.is_right;
    } };

    ghost invariant = { λ s. (s.number ≤ 3071) × (s.services ≤ 15) };
}

impl<'a> Side<'a> {
    /// The number of the use, by which its object is held.
    pub(crate) fn number(&self) -> u16
        ensures number { result ≡ self.now.chain.number }
        ensures at_most { result ≤ 3071 }
    {
        self.number
    }

    /// How many services it has, and so the last of its places.
    pub(crate) fn services(&self) -> u8
        ensures number { result ≡ self.now.chain.services }
        ensures at_most { result ≤ 15 }
    {
        self.services
    }

    /// The network at the left end, whichever end it is seen from.
    pub(crate) fn left(&self) -> InstanceId
        ensures { result ≡ self.now.chain.left }
    {
        self.left
    }

    /// The network at the right end, whichever end it is seen from.
    pub(crate) fn right(&self) -> InstanceId
        ensures { result ≡ self.now.chain.right }
    {
        self.right
    }

    /// The subnets of the network at the end that it is seen from.
    pub(crate) fn subnets(&self) -> &'a [Prefix]
        ensures { result.now ≡ subnets self.now }
    {
        if self.is_right {
            self.right_subnets
        } else {
            self.left_subnets
        }
    }

    /// The instance of the place at a distance.
    pub(crate) fn hop_at(&self, distance: u8) -> InstanceId
        requires { distance ≤ self.now.chain.services }
        ensures { result ≡ hop_at self.now distance }
    {
        if self.is_right {
            hop_instance(self.number, self.services - distance)
        } else {
            hop_instance(self.number, distance)
        }
    }

    /// The circuit there that leads towards the end: of the service between the place and the next one nearer, where the
    /// distance is not 0.
    pub(crate) fn circuit_at(&self, distance: u8) -> u32
        requires { distance ≤ self.now.chain.services }
        ensures circuit { result ≡ circuit_at self.now distance }
        ensures at_most { result ≤ 131071 }
    {
        if self.is_right {
            left_circuit(self.number, self.services - distance + 1)
        } else {
            right_circuit(self.number, distance)
        }
    }

    /// How far a place of the use is from the end.
    pub(crate) fn distance_of(&self, place: u8) -> u8
        requires { place ≤ self.now.chain.services }
        ensures distance { result ≡ distance self.now place }
        ensures within { result ≤ self.now.chain.services }
    {
        if self.is_right {
            self.services - place
        } else {
            place
        }
    }
}

/// A use, where an object is one, seen from an end.
pub(crate) fn side_of<'a>(key: &LowKey, value: &'a LowValue, is_right: bool) -> Option<Side<'a>>
    requires { Fits key.now value.now }
    ensures { result ≡ option_map (seen_from is_right) (as_use key.now value.now) }
{
    let LowKey::ChainUse(number) = *key else {
        return None;
    };
    match value {
        LowValue::ChainUse {
            left,
            right,
            left_prefixes,
            right_prefixes,
            hops,
        } => Some(Side {
            number,
            left: *left,
            right: *right,
            left_subnets: left_prefixes.as_slice(),
            right_subnets: right_prefixes.as_slice(),
            services: hops.len() as u8,
            is_right,
        }),
        _ => None,
    }
}

impl VpnHoldings {
    /// The held use of a number, seen from an end: none where the object that is held at its key is no use. It takes no
    /// memory.
    pub(crate) fn side(&self, number: u16, is_right: bool) -> Option<Side<'_>>
        ensures { result ≡ side_at self.now.feed number is_right }
    {
        let key = LowKey::ChainUse(number);
        match self.low(&key) {
            Some(value) => side_of(&key, value, is_right),
            None => None,
        }
    }
}
