//! Octets that are in flight on a link, taken out one by one.
ghost use Rattle.std.specs.Prelude.{◌≡◌, ◌+◌, ◌≤◌, ◌++◌, [], drop, length, slice_index_or, take, IfOk};
ghost use Rattle.std.specs.List.{concat};
ghost use Rattle.running_nodes.specs.Steps.{untaken};

use ov_link::FailingLink;
use ov_types::NoMemory;
use std::alloc::Global;

/// The first message, or nothing.
fn front(link: &FailingLink) -> &[u8]
    ensures { result.now ≡ slice_index_or link.now.accepted 0 [] }
{
    match link.front() {
        Some(message) => message,
        None => &[],
    }
}

/// Appends n octets of the first message, behind those that are passed over.
fn push_some(
    link: &FailingLink,
    skip: usize,
    n: usize,
    octets: &mut Vec<u8>,
) -> Result<(), NoMemory>
    requires { skip + n ≤ length (slice_index_or link.now.accepted 0 []) }
    ensures { IfOk result (λ _. octets.new.items
        ≡ octets.old.items ++ take n (drop skip (slice_index_or link.now.accepted 0 []))) }
{
    octets.extend_from_slice(&front(link)[skip..skip + n])?;
    Ok(())
}

/// Appends all octets of the first message, behind those that are passed over.
fn push_rest(link: &FailingLink, skip: usize, octets: &mut Vec<u8>) -> Result<(), NoMemory>
    ensures { IfOk result (λ _. octets.new.items
        ≡ octets.old.items ++ drop skip (slice_index_or link.now.accepted 0 [])) }
{
    let message = front(link);
    if skip < message.len() {
        octets.extend_from_slice(&message[skip..])?;
    }
    Ok(())
}

/// Takes octets out of a link: n of them, or all where there are fewer, behind those that are passed over, as they were
/// taken before. A message leaves with its last octet. No octet behind those is looked at.
pub(crate) fn take_octets(
    link: &mut FailingLink,
    alloc: Global,
    skip: usize,
    n: usize,
) -> Result<Vec<u8>, NoMemory>
    ensures octets { IfOk result (λ octets. octets.items ≡ take n (drop skip (concat link.old.accepted))) }
    ensures rest { IfOk result (λ _. link.new.accepted ≡ untaken (skip + n) link.old.accepted) }
    ensures breaks { link.new.breaks ≡ link.old.breaks }
{
    let mut octets = Vec::new(alloc);
    let mut skip = skip;
    let mut n = n;
    for _message in 0..link.len() {
        let size = front(link).len();
        let left = size.saturating_sub(skip);
        if n < left {
            push_some(link, skip, n, &mut octets)?;
            return Ok(octets);
        }
        push_rest(link, skip, &mut octets)?;
        link.pop();
        skip = skip.saturating_sub(size);
        n -= left;
    }
    Ok(octets)
}
