// A read.
ghost use Rattle.std.specs.Prelude.{◌≡◌};
ghost use Rattle.onenand_rules.specs.declared.calls.Call.TheVariants.{Read as read_call};
ghost use Rattle.onenand_rules.specs.Calls.{read_reply};
ghost use Rattle.onenand_rules.specs.Steps.{step};
ghost use Rattle.onenand.specs.Chips.{state_of};

use crate::chip::Chip;
use flash::Array;
use onenand_rules::calls::Refusal;
use onenand_steps::reads::show;

impl<D: Array> Chip<D> {
    // The word at an address.
    pub fn read(&self, addr: u16) -> Result<u16, Refusal>
        ensures { read_reply result ≡ (step (state_of self.now) (read_call addr)).1 }
    {
        show(&self.core, addr)
    }
}
