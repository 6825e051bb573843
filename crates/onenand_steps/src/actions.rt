// What one tick does, by its action.
ghost use Rattle.std.specs.Prelude.{◌≡◌};
ghost use Rattle.flash.specs.Meaning.{outcome_of, erasable, after_erase};
ghost use Rattle.onenand_rules.specs.declared.plans.Action.TheVariants.{LoadWord as load_word, ProgramWord as program_word, VerifyPage as verify_page, SetLocks as set_locks};
ghost use Rattle.onenand_rules.specs.Ticks.{succeeds, core_acted, array_acted};
ghost use Rattle.onenand_steps.specs.Moves.{location_of};

use crate::pages::is_blank;
use crate::words::{load, program};
use flash::{Array, Failed, Location};
use onenand_protection::Protection;
use onenand_rules::plans::Action;
use onenand_rules::state::Core;
use onenand_transfer::Transfer;

// Where word i of a transfer stands in the array.
fn location(t: Transfer, i: u16) -> Location
    ensures { result ≡ location_of t i }
{
    Location {
        block: t.block as usize,
        page: t.page_number() as usize,
        word: t.page_word(i) as usize,
    }
}

// Word i of a transfer, from the array to the buffer.
fn load_word<D: Array>(array: &mut D, core: &mut Core, t: Transfer, i: u16)
    ensures core { core.new ≡ core_acted core.old (D.meaning array.old) (load_word t i) }
    ensures flash { D.meaning array.new ≡ D.meaning array.old }
{
    load(
        array,
        location(t, i),
        &mut core.dataram,
        t.buffer_word(i) as usize,
    );
}

// Word i of a transfer, from the buffer to the array, if the array takes it.
fn program_word<D: Array>(array: &mut D, core: &Core, t: Transfer, i: u16) -> Result<(), Failed>
    ensures value { result ≡ outcome_of (succeeds (D.meaning array.old) (program_word t i)) }
    ensures flash { D.meaning array.new ≡ array_acted core.now (D.meaning array.old) (program_word t i) }
{
    program(
        array,
        location(t, i),
        &core.dataram,
        t.buffer_word(i) as usize,
    )
}

// Looks whether a page of a block is blank.
fn verify_page<D: Array>(array: &mut D, block: u16, page: u16) -> Result<(), Failed>
    ensures value { result ≡ outcome_of (succeeds (D.meaning array.old) (verify_page block page)) }
    ensures same { D.meaning array.new ≡ D.meaning array.old }
{
    if is_blank(array, block as usize, page as usize) {
        Ok(())
    } else {
        Err(Failed)
    }
}

// A protection command, obeyed or ignored.
fn set_locks<D: Array>(array: &D, core: &mut Core, protection: Protection)
    ensures { core.new ≡ core_acted core.old (D.meaning array.now) (set_locks protection) }
{
    if protection.apply(&mut core.locks, array.count()) {
        core.registers.protection = protection.lock.protection_word();
    }
}

// Does what one tick does. Where it fails, the command ends with Error.
// Stays: an action is data, as the plan is that the chip keeps from tick to tick, and the rules go by its cases; a closure
// could not be kept so. And only the chip, a crate above, holds array and core, with a row beside them; a struct of the two
// would be made for each tick and taken apart again.
pub fn act<D: Array>(array: &mut D, core: &mut Core, action: Action) -> Result<(), Failed>
    ensures value { result ≡ outcome_of (succeeds (D.meaning array.old) action) }
    ensures core { core.new ≡ core_acted core.old (D.meaning array.old) action }
    ensures flash { D.meaning array.new ≡ array_acted core.old (D.meaning array.old) action }
{
    match action {
        Action::Fail => return Err(Failed),
        Action::Wait => {}
        Action::LoadWord(t, i) => load_word(array, core, t, i),
        Action::ProgramWord(t, i) => program_word(array, core, t, i)?,
        Action::EraseBlock(block) => array.erase(block as usize)?,
        Action::VerifyPage(block, page) => verify_page(array, block, page)?,
        Action::SetLocks(protection) => set_locks(array, core, protection),
    }
    Ok(())
}
