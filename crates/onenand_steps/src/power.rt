// Power-up.
ghost use Rattle.std.specs.Prelude.{◌≡◌};
ghost use Rattle.onenand_rules.specs.State.{state_for};
ghost use Rattle.onenand_rules.specs.Resets.{fresh_core, powered_up};

use crate::pages::boot_words;
use flash::{Array, BLANK, MAX_BLOCKS, PAGE_WORDS};
use onenand_protection::Lock;
use onenand_registers::registers::Registers;
use onenand_rules::plans::Running;
use onenand_rules::state::{Core, DATA_WORDS};

// What a chip holds as its power comes on, with these boot words.
fn fresh_core(device: u16, version: u16, bootram: [u16; PAGE_WORDS]) -> Core
    ensures { result ≡ fresh_core device version bootram }
{
    Core {
        device,
        version,
        registers: Registers::power_up(Lock::Locked.protection_word()),
        bootram,
        dataram: [BLANK; DATA_WORDS],
        locks: [Lock::Locked; MAX_BLOCKS],
        running: Running::Idle,
    }
}

// What a chip holds as its power comes on over an array. The array stays as it is.
// Stays: the definitions, and the registers that show them, take the two identity words apart; a struct of them would be
// made at each call and opened in each clause.
pub fn core_over<D: Array>(array: &mut D, device: u16, version: u16) -> Core
    ensures { state_for result (D.meaning array.new) ≡ powered_up device version (D.meaning array.old) }
{
    let boot = boot_words(array);
    fresh_core(device, version, boot)
}
