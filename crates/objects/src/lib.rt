#![tactic(auto)]

pub mod decimal_text;
pub mod equality;
pub mod fault;
pub mod front;
pub mod integer;
pub mod object;
pub mod operator;
pub mod store;
