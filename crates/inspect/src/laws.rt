//! What the definitions of what is asked promise.
ghost use Rattle.inspect.specs.Requests.{CommandsNameFiles, CommandsAreNoRequests, DiffIsNoOther, DiffIsNoRequest, DiffNamesFiles};

/// Words that are a command ask nothing of `main` itself.
pub fn commands_are_no_requests()
    ensures { CommandsAreNoRequests }
{}

/// Words that are a command name a file.
pub fn commands_name_files()
    ensures { CommandsNameFiles }
{}

/// Words that ask what differs ask nothing of `main` itself, name two files, and are no other command.
#[tactic(auto, using(crate::proofs::Requests::diff_is_no_request, crate::proofs::Requests::diff_names_files, crate::proofs::Requests::diff_is_no_other))]
pub fn diff_is_a_command()
    ensures request { DiffIsNoRequest }
    ensures files { DiffNamesFiles }
    ensures other { DiffIsNoOther }
{}
