// What the chip's calls do to its core and to its array, piece by piece.
#![tactic(auto)]

pub mod actions;
pub mod ends;
pub mod pages;
pub mod power;
pub mod reads;
pub mod words;
