// A write, and the acceptance of a command.
ghost use Rattle.std.specs.Prelude.{◌≡◌};
ghost use Rattle.onenand_rules.specs.declared.calls.Call.TheVariants.{Write as write_call};
ghost use Rattle.onenand_rules.specs.Calls.{write_reply};
ghost use Rattle.onenand_rules.specs.Writes.{pending, accepted, commanded};
ghost use Rattle.onenand_rules.specs.Steps.{step};
ghost use Rattle.onenand.specs.Chips.{state_of};

use crate::chip::Chip;
use flash::Array;
use onenand_registers::address::{Place, place_of};
use onenand_rows::Row;
use onenand_rules::calls::Refusal;
use onenand_rules::checks::Request;
use onenand_rules::commands::Command;
use onenand_rules::plans::Running;
use onenand_rules::state::Core;
use onenand_steps::words::set_word;

// Whether INT stands in the way of a command.
fn is_pending(core: &Core, command: Command) -> bool
    ensures { result ≡ pending core.now command }
{
    !command.is_reset() && core.registers.int()
}

impl<D: Array> Chip<D> {
    // Starts a command: it takes its operands, and is checked.
    fn start(&mut self, code: u16)
        ensures { state_of self.new ≡ accepted (state_of self.old) code }
    {
        let request = Request {
            command: Command::from(code),
            operands: self.core.registers.operands,
        };
        let plan = request.plan(&self.core.locks, self.array.count());
        self.core
            .registers
            .begin(code, plan.kind().running_status());
        self.core.running = Running::Runs(plan, 0);
        self.row = Row::of(self.core.running);
    }

    // A write to F220h.
    fn accept(&mut self, code: u16) -> Result<(), Refusal>
        ensures answer { write_reply result ≡ (commanded (state_of self.old) code).1 }
        ensures state { state_of self.new ≡ (commanded (state_of self.old) code).0 }
    {
        let command = Command::from(code);
        if self.core.running.is_busy(command) {
            Err(Refusal::Busy)
        } else if is_pending(&self.core, command) {
            Err(Refusal::Pending)
        } else {
            self.start(code);
            Ok(())
        }
    }

    // Writes a word to an address.
    pub fn write(&mut self, addr: u16, word: u16) -> Result<(), Refusal>
        ensures answer { write_reply result ≡ (step (state_of self.old) (write_call addr word)).1 }
        ensures state { state_of self.new ≡ (step (state_of self.old) (write_call addr word)).0 }
    {
        // Stays: the places are rows of the chip's table, and a table of closures would say the same at more length.
        match place_of(addr) {
            Place::Data(x) => {
                if self.core.running.takes(x) {
                    return Err(Refusal::Taken);
                }
                set_word(&mut self.core.dataram, x as usize, word);
                Ok(())
            }
            Place::Operand(o) => {
                self.core.registers.operands.write(o, word);
                Ok(())
            }
            Place::Command => self.accept(word),
            Place::Config => {
                self.core.registers.write_config(word);
                Ok(())
            }
            Place::Interrupt => {
                self.core.registers.write_interrupt(word);
                Ok(())
            }
            Place::Boot(_)
            | Place::Constant(_)
            | Place::Device
            | Place::Version
            | Place::Status
            | Place::Protection => Err(Refusal::ReadOnly),
            Place::Unassigned => Err(Refusal::Unassigned),
        }
    }
}
