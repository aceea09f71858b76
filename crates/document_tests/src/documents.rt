//! What cases have in common: documents, names and numbers.

use crate::fault::CaseFault;
use compile_answers::{Unfit, read_question};
use config_check::Valid;
use ov_types::Name;
use serde_json::Value;
use std::alloc::Global;

pub(crate) fn value_of(alloc: Global, text: &str) -> Result<Value, CaseFault> {
    match Value::from_str(alloc, text) {
        Ok(value) => Ok(value),
        Err(_) => Err(CaseFault::Unreadable),
    }
}

/// The topology and the configuration of a document, where they are valid.
pub(crate) fn checked(alloc: Global, document: &str) -> Result<Valid, Unfit> {
    read_question(alloc, document.as_bytes())
}

/// The valid configuration of a document, for a case that wants one.
pub(crate) fn valid(alloc: Global, document: &str) -> Result<Valid, CaseFault> {
    match checked(alloc, document) {
        Ok(valid) => Ok(valid),
        Err(_) => Err(CaseFault::Unreadable),
    }
}

pub(crate) fn name_of(text: &str) -> Result<Name, CaseFault> {
    Name::new(text).ok_or(CaseFault::Unreadable)
}

pub(crate) fn number_of(text: &str) -> Result<u16, CaseFault> {
    match text.parse() {
        Ok(number) => Ok(number),
        Err(_) => Err(CaseFault::Unreadable),
    }
}
