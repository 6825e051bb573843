// Why a line is refused, or a script whole, and the layer and number that a transcript shows for it.
ghost use Rattle.std.specs.Prelude.{◌≡◌, Some};
ghost use Rattle.script_entries.specs.declared.faults.Fault.TheVariants.{Chip as by_chip};
ghost use Rattle.script_entries.specs.Codes.{code_of, layer_text};

use flash::Numbered;
use onenand_rules::calls::Refusal;
use std::fmt;

// A fault of a line, or of the whole script.
#[derive(Clone, Copy, PartialEq, Eq, Debug)]
pub enum Fault {
    // The chip refused the call that the form puts.
    Chip(Refusal),
    // The line is no form.
    NoForm,
    // The script has too many bytes.
    TooLong,
}

// Where a fault comes from.
#[derive(Clone, Copy, PartialEq, Eq, Debug)]
pub enum Layer {
    Chip,
    Script,
}

// What is shown of a fault.
// Stays: a transcript shows a number; the fault that it is of is the enum above.
#[derive(Clone, Copy, PartialEq, Eq, Debug)]
pub struct Code {
    pub layer: Layer,
    pub number: u8,
}

impl From<Refusal> for Fault {
    ghost from_gives = { λ e r. r ≡ by_chip e };

    fn from(refusal: Refusal) -> Fault {
        Fault::Chip(refusal)
    }
}

impl Fault {
    // The layer and the number of the fault. The chip's refusals keep their numbers.
    // Stays: a fault is no code and has one, which `code` says better than `From`.
    pub fn code(self) -> Code
        ensures { result ≡ code_of self }
    {
        let (layer, number) = match self {
            Fault::Chip(e) => (Layer::Chip, e.number()),
            Fault::NoForm => (Layer::Script, 12),
            Fault::TooLong => (Layer::Script, 13),
        };
        Code { layer, number }
    }
}

impl fmt::Display for Layer {
    ghost output = { λ x. Some (layer_text x) };

    fn fmt<W: fmt::Write>(&self, f: &mut fmt::Formatter<W>) -> fmt::Result {
        match self {
            Layer::Chip => write!(f, "chip"),
            Layer::Script => write!(f, "script"),
        }
    }
}
