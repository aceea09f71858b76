//! What the definition of a log's text promises.
ghost use Rattle.std.specs.Prelude.{◌≡◌, ℕ, List};
ghost use Rattle.std.specs.List.{AllByRecursion};
ghost use Rattle.bgp_restart.specs.Events.{RestartEvent};
ghost use Rattle.decode_answers.specs.declared.entry.LogEntry.{LogEntry};
ghost use Rattle.decode_answers.specs.Entries.{HasEntryForm};
ghost use Rattle.decode_answers.specs.Logs.{IsLogText};

/// A log is always answered: whatever came before it and whatever number its first entry has, there is a text of it.
pub fn each_log_has_a_text()
    ensures { (events : List RestartEvent) (n : ℕ) (log : List LogEntry) → AllByRecursion HasEntryForm log
        → (text : List ℕ) × IsLogText events n log text }
{}

/// A log is answered in one way: no two texts are its answer.
pub fn logs_have_one_text()
    ensures { (events : List RestartEvent) (n : ℕ) (log : List LogEntry) (a b : List ℕ) → IsLogText events n log a
        → IsLogText events n log b → a ≡ b }
{}
