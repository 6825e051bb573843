// The entries of a transcript, each printed as one line.
ghost use Rattle.std.specs.Prelude.{◌≡◌, ◌++◌, Some, string_bytes, OnOk};
ghost use Rattle.script_entries.specs.Texts.{text, line_of};

use crate::faults::Code;
use script_forms::Place;
use std::alloc::AllocError;
use std::fmt;

// What one line of a transcript says.
#[derive(Clone, Copy, PartialEq, Eq, Debug)]
pub enum Entry {
    // A read's address, and the word that it answered.
    Word(u16, u16),
    // An accepted write's address and word.
    Written(u16, u16),
    // How many ticks ran.
    Ticked(u16),
    Warm,
    Cold,
    // What was refused, and where.
    // Stays: a refusal is a line of the transcript like any other, so an entry is no Result.
    Refused(Code, Place),
}

impl fmt::Display for Entry {
    ghost output = { λ x. Some (text x) };

    #[tactic(auto, using(crate::proofs::Hex::hex_word))]
    fn fmt<W: fmt::Write>(&self, f: &mut fmt::Formatter<W>) -> fmt::Result {
        match *self {
            Entry::Word(address, word) => write!(f, "(read ({address:04X} {word:04X}))"),
            Entry::Written(address, word) => write!(f, "(write ({address:04X} {word:04X}))"),
            Entry::Ticked(count) => write!(f, "(tick ({count:04X}))"),
            Entry::Warm => write!(f, "(warm)"),
            Entry::Cold => write!(f, "(cold)"),
            Entry::Refused(code, place) => {
                let Code { layer, number } = code;
                let Place { line, column } = place;
                write!(f, "(refused ({layer} {number} {line} {column}))")
            }
        }
    }
}

// Adds an entry and a line feed to what is printed.
pub fn add_entry(out: &mut String, entry: Entry) -> Result<(), AllocError>
    ensures { OnOk result (string_bytes out.new ≡ string_bytes out.old ++ line_of entry) }
{
    writeln!(out, "{entry}")
}
