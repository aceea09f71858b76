//! Laws of links.
ghost use Rattle.std.specs.Prelude.{◌≡◌, ◌≤◌, ◌+◌, ◌||◌, ◌==◌, ℕ, List, [], Some};
ghost use Rattle.ov_link.specs.Breaks.{counted, is_break, with_break};
ghost use Rattle.ov_link.specs.FailingState.{FailingState};

use crate::failing::FailingLink;
use crate::link::Link;
use crate::queue::QueueLink;

/// A queue tells all: its messages, that no send is to fail, and that none did.
pub fn a_queue_tells_all()
    ensures messages { (queue : List (List ℕ)) → ⟦<QueueLink as Link>⟧.accepted queue ≡ Some queue }
    ensures breaks { (queue : List (List ℕ)) → ⟦<QueueLink as Link>⟧.breaks queue ≡ Some [] }
    ensures faults { (queue : List (List ℕ)) → ⟦<QueueLink as Link>⟧.faults queue ≡ 0 }
{}

/// A link with breaks tells its messages, its breaks and its faults.
pub fn a_failing_link_tells_all()
    ensures messages { (link : FailingState) → ⟦<FailingLink as Link>⟧.accepted link ≡ Some link.accepted }
    ensures breaks { (link : FailingState) → ⟦<FailingLink as Link>⟧.breaks link ≡ Some link.breaks }
    ensures faults { (link : FailingState) → ⟦<FailingLink as Link>⟧.faults link ≡ link.faults }
{}

/// Once a send was made, each send that was to fail is one nearer. A break that is added is one more send that is to
/// fail.
pub fn each_send_brings_the_breaks_nearer()
    ensures counted { (breaks : List ℕ) (n : ℕ) → 1 ≤ n → is_break (counted breaks) n ≡ is_break breaks (n + 1) }
    ensures added { (breaks : List ℕ) (n later : ℕ)
        → is_break (with_break n breaks) later ≡ (is_break breaks later || n == later) }
{}
