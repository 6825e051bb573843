// The chip's registers, and where the host's addresses lead.
#![tactic(auto)]

pub mod address;
pub mod registers;
