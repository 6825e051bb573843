// A read.
ghost use Rattle.std.specs.Prelude.{◌≡◌};
ghost use Rattle.onenand_registers.specs.Addresses.{place_of};
ghost use Rattle.onenand_rules.specs.Calls.{read_reply};
ghost use Rattle.onenand_rules.specs.Reads.{shown};

use crate::words::word_at;
use onenand_registers::address::{Place, place_of};
use onenand_rules::calls::Refusal;
use onenand_rules::state::Core;

// What a read of an address shows.
// Stays: the places are rows of the chip's table, and a table of closures would say the same at more length.
pub fn show(core: &Core, addr: u16) -> Result<u16, Refusal>
    ensures { read_reply result ≡ shown core.now (place_of addr) }
{
    match place_of(addr) {
        Place::Boot(x) => Ok(word_at(&core.bootram, x as usize)),
        Place::Data(x) => {
            if core.running.takes(x) {
                Err(Refusal::Taken)
            } else {
                Ok(word_at(&core.dataram, x as usize))
            }
        }
        Place::Constant(w) => Ok(w),
        Place::Device => Ok(core.device),
        Place::Version => Ok(core.version),
        Place::Operand(o) => Ok(core.registers.operands.get(o)),
        Place::Command => Ok(core.registers.command),
        Place::Config => Ok(core.registers.config),
        Place::Status => Ok(core.registers.status),
        Place::Interrupt => Ok(core.registers.interrupt),
        Place::Protection => Ok(core.registers.protection),
        Place::Unassigned => Err(Refusal::Unassigned),
    }
}
