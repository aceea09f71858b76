//! Whether something is kept that is published on a session. It takes no memory.
ghost use Rattle.std.specs.Prelude.{◌≡◌, ◌==◌};
ghost use Rattle.std.specs.List.{list_any};

use crate::places::Labels;

pub(crate) fn has_label(labels: &Labels, session: u16) -> bool
    ensures { result ≡ list_any (λ e. e.0.session == session) labels.now.entries }
{
    for (at, _label) in labels.iter() {
        if at.session == session {
            return true;
        }
    }
    false
}
