#![tactic(auto)]

pub mod equality;
pub mod object_text;
pub mod same_text;
pub mod text;
pub mod text_bytes;
pub mod text_output;
pub mod writing;
