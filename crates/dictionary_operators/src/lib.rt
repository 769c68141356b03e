#![tactic(auto)]

pub mod entries;
pub mod open;
pub mod searches;
pub mod sizes;
