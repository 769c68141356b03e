#![tactic(auto)]

pub mod copy;
pub mod excursion;
pub mod journal;
pub mod keeper;
pub mod limit;
pub mod note;
