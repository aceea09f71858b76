//! What the program says to people: its help, what to do where a run did not come to its end, and in plain sentences what
//! its lines say to programs; and ends that keep what these sentences need.
#![tactic(auto)]

mod allowed;
mod digits;
mod ends;
mod explanation;
mod form;
mod help;
mod json;
mod json_text;
mod laws;
mod place;
mod refused;
mod rule;
mod shown;
mod text;
mod wanted;
mod words;

pub use digits::DigitFault;
pub use ends::{FrontSink, HeardSource, KeptInput};
pub use explanation::{Explanation, explain_form, explain_refusal, explain_stop};
pub use form::{FormFault, FormKind, form_fault_in};
pub use help::{Advice, COMMANDS, HelpText, STATUSES, USAGE, UsageText};
pub use json::{JsonFault, json_fault};
pub use laws::{
    columns_are_counted, digits_are_scanned, lines_are_counted, paths_lead_to_phrases,
    refusals_are_told,
};
pub use place::TextPlace;
pub use refused::{Refused, refused_in};
pub use rule::RuleKind;
pub use words::{WordsFault, explain_words};
