// What a line of commands says: the command that its first word names, and the decimal numbers after it.

#![tactic(auto)]

pub mod names;
pub mod numbers;
pub mod scan;
