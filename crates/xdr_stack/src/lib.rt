//! A stack of nodes: few take no memory of their own.
#![tactic(auto)]

mod blocks;
mod chain;
mod stack;

pub use blocks::Blocks;
pub use stack::Stack;
