//! What a run reads: an input as a line spells it, or one that is made by a formula.

use crate::fault::CaseFault;
use std::alloc::{AllocError, Global};

/// The input of a run.
#[derive(Clone, Copy)]
pub(crate) enum Input<'a> {
    Spelled(&'a str),
    /// A number of things of the kind that the words name.
    Made(usize, &'a str),
}

impl<'a> Input<'a> {
    pub(crate) fn octets(self, alloc: Global) -> Result<Vec<u8>, CaseFault> {
        match self {
            Input::Spelled(text) => spelled(alloc, text),
            Input::Made(count, things) => made(alloc, count, things),
        }
    }
}

/// The octets of a text, in which a line feed, a carriage return and a tab are spelled as in JSON, and as `\x` the octet
/// 255, which is in no text.
fn spelled(alloc: Global, text: &str) -> Result<Vec<u8>, CaseFault> {
    let mut octets = Vec::new(alloc);
    let mut is_escaped = false;
    for octet in text.bytes() {
        if is_escaped {
            octets.push(escaped(octet))?;
            is_escaped = false;
        } else if octet == b'\\' {
            is_escaped = true;
        } else {
            octets.push(octet)?;
        }
    }
    Ok(octets)
}

fn escaped(octet: u8) -> u8 {
    match octet {
        b'n' => b'\n',
        b'r' => b'\r',
        b't' => b'\t',
        b'x' => 255,
        _ => octet,
    }
}

fn made(alloc: Global, count: usize, things: &str) -> Result<Vec<u8>, CaseFault> {
    match things {
        "blanks" => Ok(vec![in alloc; b' '; count]?),
        "keepalives" => Ok(keepalives(alloc, count)?),
        "networks of 8 ports" => Ok(networks_of_8_ports(alloc, count)?),
        _ => Err(CaseFault::Unreadable),
    }
}

/// KEEPALIVE messages in digits, each on a line.
fn keepalives(alloc: Global, count: usize) -> Result<Vec<u8>, AllocError> {
    let mut digits = Vec::new(alloc);
    for _message in 0..count {
        digits.extend_from_slice(b"ffffffffffffffffffffffffffffffff001304\n")?;
    }
    Ok(digits)
}

/// A document of so many unrelated networks of one subnet, each with 8 ports at one node.
fn networks_of_8_ports(alloc: Global, count: usize) -> Result<Vec<u8>, AllocError> {
    let mut document = String::new(alloc);
    document.push_str(
        r#"{"topology":{"as":64512,"controllers":[{"name":"c1","address":"192.0.2.1"}],"#,
    )?;
    document.push_str(r#""nodes":[{"name":"n1","address":"192.0.2.11","controllers":["c1"]}]},"#)?;
    document.push_str(r#""configuration":{"networks":["#)?;
    push_networks(count, &mut document)?;
    document.push_str(r#"],"ports":["#)?;
    push_ports(count, &mut document)?;
    document.push_str("]}}")?;
    document.as_bytes().to_vec(alloc)
}

/// Networks from number 1 on.
fn push_networks(count: usize, document: &mut String) -> Result<(), AllocError> {
    for network in 1..=count {
        let comma = if network == 1 { "" } else { "," };
        write!(
            document,
            r#"{comma}{{"name":"w{network}","id":{network},"subnets":["10.0.0.0/24"]}}"#
        )?;
    }
    Ok(())
}

/// Ports from number 0 on, 8 in each network.
fn push_ports(networks: usize, document: &mut String) -> Result<(), AllocError> {
    for port in 0..networks.saturating_mul(8) {
        let comma = if port == 0 { "" } else { "," };
        let network = 1 + port / 8;
        let host = 1 + port % 8;
        write!(
            document,
            r#"{comma}{{"name":"p{port}","id":{port},"network":"w{network}","address":"10.0.0.{host}","node":"n1"}}"#
        )?;
    }
    Ok(())
}
