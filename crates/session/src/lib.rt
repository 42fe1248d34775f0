// Sealing and checking in pieces, at either width: a session for one edition of a job. A call is lent one, and the next comes back by value.
#![tactic(auto)]

pub mod check;
mod parts;
pub mod seal;
pub mod session;
