// Commands by their code words, and what they show in F240h and raise in F241h.
ghost use Rattle.std.specs.Prelude.{◌≡◌, ◌≤◌};
ghost use Rattle.onenand_rules.specs.Commands.{command_of, is_reset, kind_of, status_bit, raised as raised_bits, running_status, error_status};

use onenand_protection::Lock;
use onenand_transfer::Part;

// A reset that is written as a command.
#[derive(Clone, Copy, PartialEq, Eq, Debug)]
pub enum ResetKind {
    Core,
    Hot,
}

// What a word written to F220h asks for.
#[derive(Clone, Copy, PartialEq, Eq, Debug)]
pub enum Command {
    Load(Part),
    Program(Part),
    CopyBack,
    Erase,
    Verify,
    // Makes the blocks of a range so.
    Protect(Lock),
    Reset(ResetKind),
    // A word that is no command.
    // Stays: such a word is accepted, runs for a tick and ends with Error, so it is a command among others, and not None.
    Unknown,
}

// What a command counts as in F240h and F241h.
#[derive(Clone, Copy, PartialEq, Eq, Debug)]
pub enum Kind {
    Loading,
    Programming,
    Erasing,
    Verifying,
    Other,
    Resetting,
}

// How a command ends that fails: with Error alone, or with Lock as well.
#[derive(Clone, Copy, PartialEq, Eq, Debug)]
pub enum Fault {
    Plain,
    Barred,
}

// The command that a word written to F220h is.
impl From<u16> for Command {
    ghost from_gives = { λ code command. command ≡ command_of code };

    fn from(code: u16) -> Command {
        match code {
            0x0000 => Command::Load(Part::Whole),
            0x0013 => Command::Load(Part::Spare),
            0x0080 => Command::Program(Part::Whole),
            0x001A => Command::Program(Part::Spare),
            0x001B => Command::CopyBack,
            0x0094 => Command::Erase,
            0x0071 => Command::Verify,
            0x0023 => Command::Protect(Lock::Unlocked),
            0x002A => Command::Protect(Lock::Locked),
            0x002C => Command::Protect(Lock::Tight),
            0x00F0 => Command::Reset(ResetKind::Core),
            0x00F3 => Command::Reset(ResetKind::Hot),
            _ => Command::Unknown,
        }
    }
}

impl Command {
    // Whether it is 00F0h or 00F3h.
    pub fn is_reset(self) -> bool
        ensures { result ≡ is_reset self }
    {
        matches!(self, Command::Reset(_))
    }

    // What it counts as in F240h and F241h.
    pub(crate) fn kind(self) -> Kind
        ensures { result ≡ kind_of self }
    {
        match self {
            Command::Load(_) => Kind::Loading,
            Command::Program(_) | Command::CopyBack => Kind::Programming,
            Command::Erase => Kind::Erasing,
            Command::Verify => Kind::Verifying,
            Command::Protect(_) | Command::Unknown => Kind::Other,
            Command::Reset(_) => Kind::Resetting,
        }
    }
}

impl Kind {
    // The kind bit of F240h.
    fn status_bit(self) -> u16
        ensures value { result ≡ status_bit self }
        ensures low { result ≤ 0x2000 }
    {
        match self {
            Kind::Loading => 0x2000,
            Kind::Programming => 0x1000,
            Kind::Erasing | Kind::Verifying => 0x0800,
            Kind::Other => 0x0000,
            Kind::Resetting => 0x0080,
        }
    }

    // F240h while such a command runs.
    pub fn running_status(self) -> u16
        ensures { result ≡ running_status self }
    {
        0x8000 + self.status_bit()
    }

    // F240h after such a command has failed.
    pub fn error_status(self, fault: Fault) -> u16
        ensures { result ≡ error_status fault self }
    {
        match fault {
            Fault::Plain => 0x0400 + self.status_bit(),
            Fault::Barred => 0x4400 + self.status_bit(),
        }
    }

    // What F241h gains as such a command ends.
    pub fn raised(self) -> u16
        ensures { result ≡ raised_bits self }
    {
        match self {
            Kind::Loading => 0x8080,
            Kind::Programming => 0x8040,
            Kind::Erasing => 0x8020,
            Kind::Verifying | Kind::Other => 0x8000,
            Kind::Resetting => 0x8010,
        }
    }
}
