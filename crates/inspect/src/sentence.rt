//! What is said to people of a run, behind the program's name and the file's.
use explanations::Explanation;
use std::fmt;

/// A sentence about a file. It prints as a line.
#[derive(Clone, Copy)]
pub(crate) struct Sentence<'a> {
    pub(crate) file: &'a str,
    pub(crate) said: Explanation<'a>,
}

impl fmt::Display for Sentence<'_> {
    fn fmt<W: fmt::Write>(&self, f: &mut fmt::Formatter<W>) -> fmt::Result {
        let file = self.file;
        match self.said {
            Explanation::Advice(advice) => write!(f, "inspect: {file}: {advice}\n"),
            Explanation::JsonFault(fault) => write!(f, "inspect: {file}: {fault}\n"),
            Explanation::DigitFault(fault) => write!(f, "inspect: {file}: {fault}\n"),
            Explanation::FormFault(fault) => write!(f, "inspect: {file}: {fault}\n"),
            Explanation::Refused(refused) => write!(f, "inspect: {file}: {refused}\n"),
        }
    }
}
