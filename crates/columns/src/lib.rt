//! Right-justified numbers, written into their columns and read from them.

#![tactic(auto)]

pub mod reader;
pub mod writer;
