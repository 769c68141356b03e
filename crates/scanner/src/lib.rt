#![tactic(auto)]

pub mod buffers;
pub mod counts;
pub mod cursor;
pub mod element;
pub mod equality;
pub mod guard;
pub mod lexer;
pub mod place;
pub mod procedures;
pub mod run;
pub mod scratch;
pub mod source;
pub mod state;
pub mod stock;
pub mod tally;
pub mod token;
