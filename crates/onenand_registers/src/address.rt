// Where the host's addresses lead.
ghost use Rattle.std.specs.Prelude.{◌≡◌};
ghost use Rattle.onenand_registers.specs.Addresses.{place_of, register_at};

use crate::registers::Operand;

// What stands at an address. Addresses count words.
#[derive(Clone, Copy, PartialEq, Eq, Debug)]
pub enum Place {
    // A word of BootRAM: 512 main words, then 16 spare words.
    Boot(u16),
    // A word of DataRAM: 1,024 main words, then 32 spare words.
    Data(u16),
    // A word that never changes.
    Constant(u16),
    Device,
    Version,
    // A register that a command takes its operands from.
    Operand(Operand),
    Command,
    Config,
    Status,
    Interrupt,
    Protection,
    // Stays: as `Option<Place>` each arm of both tables would say `Some`, and a read and a write would match it all the same.
    Unassigned,
}

// The register at an address.
fn register(addr: u16) -> Place
    ensures { result ≡ register_at addr }
{
    match addr {
        0xF000 => Place::Constant(0x00EC),
        0xF001 => Place::Device,
        0xF002 => Place::Version,
        0xF003 => Place::Constant(0x0400),
        0xF004 => Place::Constant(0x0200),
        0xF005 => Place::Constant(0x0201),
        0xF006 => Place::Constant(0x0000),
        0xF100 => Place::Operand(Operand::Block),
        0xF102 => Place::Operand(Operand::CopyBlock),
        0xF103 => Place::Operand(Operand::CopyPage),
        0xF107 => Place::Operand(Operand::Page),
        0xF200 => Place::Operand(Operand::Buffer),
        0xF220 => Place::Command,
        0xF221 => Place::Config,
        0xF240 => Place::Status,
        0xF241 => Place::Interrupt,
        0xF24C => Place::Operand(Operand::First),
        0xF24D => Place::Operand(Operand::Last),
        0xF24E => Place::Protection,
        _ => Place::Unassigned,
    }
}

// Where an address leads: the RAM areas, then the registers, which all stand from F000h on.
// Stays: an address is a `u16` as every word is, and `Place::from` would not say which of them is meant.
pub fn place_of(addr: u16) -> Place
    ensures { result ≡ place_of addr }
{
    match addr {
        0x0000..=0x01FF => Place::Boot(addr),
        0x0200..=0x05FF => Place::Data(addr - 0x0200),
        0x8000..=0x800F => Place::Boot(512 + (addr - 0x8000)),
        0x8010..=0x802F => Place::Data(1024 + (addr - 0x8010)),
        _ if addr >= 0xF000 => register(addr),
        _ => Place::Unassigned,
    }
}
