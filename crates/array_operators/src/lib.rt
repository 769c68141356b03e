#![tactic(auto)]

pub mod aload;
pub mod astore;
pub mod entries;
pub mod gather;
pub mod get;
pub mod indices;
pub mod length;
pub mod marks;
pub mod put;
pub mod store;
