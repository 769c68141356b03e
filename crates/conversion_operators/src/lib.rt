#![tactic(auto)]

pub mod flags;
pub mod names_of_strings;
