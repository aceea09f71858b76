//! A change that may not be there.
ghost use Rattle.std.specs.Prelude.{◌≡◌, ◌++◌, [], OnOk};
ghost use Rattle.std.specs.List.{cons_option};

use ov_types::NoMemory;

/// Appends a change, where there is one.
pub(crate) fn push_change<T: Drop>(changes: &mut Vec<T>, change: Option<T>) -> Result<(), NoMemory>
    ensures { OnOk result (changes.new.items ≡ changes.old.items ++ cons_option change []) }
{
    match change {
        None => Ok(()),
        Some(change) => {
            changes.push(change)?;
            Ok(())
        }
    }
}
