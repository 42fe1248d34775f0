// Blocks, at either width: the one loop over them, and how a state begins and ends.
#![tactic(auto)]

pub mod block;
pub mod blocks;
pub mod ends;
mod mark;
mod rows;
pub mod turns;
mod word;
