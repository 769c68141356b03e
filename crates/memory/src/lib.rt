#![tactic(auto)]

pub mod cell;
pub mod dictionary;
pub mod key;
pub mod memory;
pub mod newer;
pub mod run;
pub mod saves;
pub mod saving;
