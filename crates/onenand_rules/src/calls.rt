// Calls, and what they answer.
ghost use Rattle.onenand_rules.specs.Calls.{number_of};

use flash::Numbered;

// What a host does to the chip.
#[derive(Clone, Copy, PartialEq, Eq, Debug)]
pub enum Call {
    // A read of an address.
    Read(u16),
    // A write of a word to an address.
    Write(u16, u16),
    // One tick of the running command.
    Tick,
    // A warm or cold reset.
    Warm,
    Cold,
}

// Why a call is refused, with the number that the rules give to it. A refused call changes nothing.
#[derive(Clone, Copy, PartialEq, Eq, Debug)]
pub enum Refusal {
    // The address leads nowhere.
    Unassigned = 6,
    // The word lies in a sector that a running transfer uses.
    Taken = 7,
    // The place cannot be written.
    ReadOnly = 8,
    // A command runs.
    Busy = 9,
    // INT is 1.
    Pending = 10,
    // No command runs.
    NoCommand = 11,
}

impl Numbered for Refusal {
    ghost number_of = { number_of };

    fn number(self) -> u8 {
        self as u8
    }
}

// What a tick made of the command.
#[derive(Clone, Copy, PartialEq, Eq, Debug)]
pub enum Progress {
    Running,
    Ended,
}

// What a call answers that is not refused.
#[derive(Clone, Copy, PartialEq, Eq, Debug)]
pub enum Answer {
    // A read's word.
    Word(u16),
    // A write, a warm or a cold reset.
    Done,
    Ticked(Progress),
}
