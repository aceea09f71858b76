//! The answers of the commands that read BGP messages. `decode`: what messages say that are spelled in hexadecimal digits.
//! `graceful`: the log of a session with a BGP peer, its written form and the exact reader of it, what its entries answer, and
//! which routes the peer leaves.
#![tactic(auto)]

mod decoding;
mod digits;
mod entries;
mod entry;
mod laws;
mod log_answer;
mod log_laws;
mod log_reader;
mod log_text_laws;
mod one_message;
mod replaying;

pub use decoding::answer_decode;
pub use entry::LogEntry;
pub use laws::{a_wide_open_before_counts, octets_have_a_report, octets_have_one_report};
pub use log_answer::answer_graceful;
pub use log_laws::{
    entries_are_read_where_they_are_written, entries_have_one_member,
    logs_are_read_where_they_are_written, logs_have_their_form, logs_without_events_miss_them,
    octets_pass_where_they_are_one_message, other_texts_are_no_messages,
    other_values_are_no_entries,
};
pub use log_reader::read_log;
pub use log_text_laws::{each_log_has_a_text, logs_have_one_text};
