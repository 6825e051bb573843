// The lines of a transcript: what each says, and its text.
#![tactic(auto)]

mod entries;
mod faults;

pub use entries::{Entry, add_entry};
pub use faults::{Code, Fault, Layer};
