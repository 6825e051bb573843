// The rules of the chip: its types, the definition that every call is proved against, and the functions that the calls are made of.
#![tactic(auto)]

pub mod calls;
pub mod checks;
pub mod commands;
pub mod plans;
pub mod state;
