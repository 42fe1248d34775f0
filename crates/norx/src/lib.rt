// What NORX 3.0 is stands in specs/, and the laws about it in proofs/. This crate has no code.
#![tactic(auto)]
