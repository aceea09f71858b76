//! The texts of steps.
ghost use Rattle.std.specs.Prelude.{Some};
ghost use Rattle.inspect_walks.specs.Lines.{leads_text, name_text, owner_text, row_text, step_text};

use crate::told_step::{LeadsTo, Owner, ToldStep};
use ov_types::{Entry, Name, Prefix};
use std::fmt;

/// A name, as it is printed.
#[derive(Clone, Copy)]
struct NameText(Option<Name>);

impl fmt::Display for NameText {
    ghost output = { λ x. Some (name_text x.0) };

    fn fmt<W: fmt::Write>(&self, f: &mut fmt::Formatter<W>) -> fmt::Result {
        match self.0 {
            None => write!(f, "-"),
            Some(name) => write!(f, "{name}"),
        }
    }
}

/// A row, as it is printed.
#[derive(Clone, Copy)]
struct RowText(Option<(Prefix, Entry)>);

impl fmt::Display for RowText {
    ghost output = { λ x. Some (row_text x.0) };

    fn fmt<W: fmt::Write>(&self, f: &mut fmt::Formatter<W>) -> fmt::Result {
        match self.0 {
            None => write!(f, "-"),
            Some((prefix, entry)) => {
                let next_hop = entry.next_hop;
                let label = entry.label;
                write!(f, "{prefix} {next_hop} {label}")
            }
        }
    }
}

/// What an instance is of, as it is printed.
#[derive(Clone, Copy)]
struct OwnerText(Owner);

impl fmt::Display for OwnerText {
    ghost output = { λ x. Some (owner_text x.0) };

    fn fmt<W: fmt::Write>(&self, f: &mut fmt::Formatter<W>) -> fmt::Result {
        match self.0 {
            Owner::Network(name) => write!(f, "network {name}"),
            Owner::Hop(hop) => {
                let use_no = hop.use_no;
                let place = hop.place;
                write!(f, "use {use_no} hop {place}")
            }
            Owner::Nothing => write!(f, "-"),
        }
    }
}

/// What a step leads to, as it is printed.
#[derive(Clone, Copy)]
struct LeadsText(LeadsTo);

impl fmt::Display for LeadsText {
    ghost output = { λ x. Some (leads_text x.0) };

    fn fmt<W: fmt::Write>(&self, f: &mut fmt::Formatter<W>) -> fmt::Result {
        match self.0 {
            LeadsTo::Port(_, name) => {
                let name = NameText(name);
                write!(f, "port {name}")
            }
            LeadsTo::Service(_, name) => {
                let name = NameText(name);
                write!(f, "service {name}")
            }
            LeadsTo::Nothing => write!(f, "-"),
        }
    }
}

/// A step, as it is printed.
#[derive(Clone, Copy)]
pub struct StepText(pub ToldStep);

impl fmt::Display for StepText {
    ghost output = { λ x. Some (step_text x.0) };

    fn fmt<W: fmt::Write>(&self, f: &mut fmt::Formatter<W>) -> fmt::Result {
        let agent = NameText(self.0.agent);
        let instance = self.0.instance;
        let row = RowText(self.0.row);
        let owner = OwnerText(self.0.owner);
        let leads = LeadsText(self.0.leads);
        write!(
            f,
            "agent {agent} table {instance} {row} of {owner} to {leads}"
        )
    }
}
