#![tactic(auto)]

pub mod framing;
pub mod leaving;
pub mod loops;
pub mod procedures;
