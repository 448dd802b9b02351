// A record in its own sixteen bytes, read and written, and the numbers that every call judges.

#![tactic(auto)]

pub mod numbers;
pub mod reader;
pub mod writer;
