//! The numbers that the configuration's own numbers determine: instances of hops, targets, distinguishers, labels, and
//! the circuits of services.
#![tactic(auto)]

pub mod laws;
mod numbers;

pub use numbers::{
    UseHop, circuit_address, circuit_instance, circuit_label, hop_instance, hop_of, left_circuit,
    other_side, port_label, rd, right_circuit, target,
};
