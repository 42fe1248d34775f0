// What a width is: its words, with their bytes and rotation, and the rows and the state that are made of them.
#![tactic(auto)]

pub mod runs;
pub mod state;
mod w32;
mod w64;
pub mod word;
