// The forms of a script: its lines one by one, and what each of them asks.
#![tactic(auto)]

mod forms;
mod laws;
mod numbers;
mod parts;
mod reader;
mod shapes;

pub use laws::grammar_holds;
pub use parts::{Form, Kind, Line, Part, Place};
pub use reader::Reader;
