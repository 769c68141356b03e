#![tactic(auto)]

mod bucket;
mod entry;
pub mod join;
pub mod lookup;
pub mod table;
