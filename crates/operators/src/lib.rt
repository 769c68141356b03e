#![tactic(auto)]

pub mod arithmetic;
pub mod arrays;
pub mod frame;
pub mod keys;
pub mod machine;
pub mod machine_operands;
pub mod operand;
pub mod reading;
pub mod relations;
pub mod stack;
pub mod text;
