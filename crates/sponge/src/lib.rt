// Parts at either width, whole and in pieces.
#![tactic(auto)]

mod cuts;
mod padding;
pub mod parts;
pub mod pieces;
mod steps;
