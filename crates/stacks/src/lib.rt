#![tactic(auto)]

pub mod counts;
pub mod operand_groups;
pub mod operand_moves;
pub mod operand_reads;
pub mod operands;
pub mod output;
pub mod output_calls;
pub mod stack;
pub mod stack_calls;
