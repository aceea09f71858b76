//! What the definitions of what is asked, and of digits, promise.
ghost use Rattle.overlay.specs.Keeping.{EachInputIsKept};
ghost use Rattle.overlay.specs.Requests.{BlanksAreOne, CommandsAreNoRequests};
ghost use Rattle.overlay.specs.Saying.{EachEndHasItsLine};

/// Words that are a command ask nothing of `main` itself.
pub fn commands_are_no_requests()
    ensures { CommandsAreNoRequests }
{}

/// What `decode` passes over as blank is what people are told to be no fault of digits.
pub fn blanks_are_one()
    ensures { BlanksAreOne }
{}

/// For people digits are kept of the input of `decode`, and a document of the input of each other command that reads
/// one.
pub fn each_input_is_kept()
    ensures { EachInputIsKept }
{}

/// Each status that is told by itself has its line.
pub fn each_end_has_its_line()
    ensures { EachEndHasItsLine }
{}
