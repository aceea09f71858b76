//! Laws of every schedule whose configurations have sound low-level objects: each is the contract of a function that
//! does nothing.
ghost use Rattle.machine_laws.specs.Moments.{AtMoments, SettleSettles, SettlesInTime, ShowsCompiled};

/// At a settled moment of any schedule each node shows the rows that are compiled from the low-level objects of that
/// moment alone.
pub fn tables_are_compiled()
    ensures { AtMoments (λ size w. ShowsCompiled w) }
{}

/// From any moment where no session is down and no break is pending, every list of K + 5 rounds of deliveries ends
/// settled, where K is the number of services of the longest chain in effect.
pub fn rounds_settle()
    ensures { AtMoments SettlesInTime }
{}

/// From any moment `settle` ends settled, in at most K + 6 rounds.
pub fn settle_settles()
    ensures { AtMoments (λ size w. SettleSettles w) }
{}
