//! Which member of a service a packet visits.
ghost use Rattle.std.specs.Prelude.{◌≡◌, ◌<◌, ◌≤◌, ◌^◌, length};
ghost use Rattle.std.specs.List.{All, Contains};
ghost use Rattle.std.specs.List.Sorted.{IsStrictlyIncreasing};
ghost use Rattle.scale_out.specs.Choice.{score, chosen};

/// How well a member suits a packet's key.
#[tactic(auto, unfolding(crate::specs::Choice::score))]
fn score(key: u64, member: u16) -> u64
    requires { key < 2 ^ 34 }
    ensures { result ≡ score key member }
{
    (key + 257 * member as u64) * 40503 % 65536
}

/// The member that a packet with this key visits. It takes no memory.
pub fn choose(members: &[u16], key: u64) -> u16
    requires some { 0 < length members.now }
    requires ascending { IsStrictlyIncreasing members.now }
    requires key { key < 2 ^ 34 }
    ensures member { Contains members.now result }
    ensures greatest { All (λ m. score key m ≤ score key result) members.now }
    ensures least { All (λ m. score key m ≡ score key result → result ≤ m) members.now }
    ensures value { result ≡ chosen members.now key }
{
    let mut best = members[0];
    for member in members {
        if score(key, *member) > score(key, best) {
            best = *member;
        }
    }
    best
}
