// The chip over any array, and its calls.
#![tactic(auto)]

mod chip;

pub use chip::Chip;
