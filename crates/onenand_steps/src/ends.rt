// The ends of a plan.
ghost use Rattle.std.specs.Prelude.{◌≡◌};
ghost use Rattle.onenand_rules.specs.Ticks.{closed, failed};

use onenand_registers::registers::Registers;
use onenand_rules::plans::Plan;

// The registers at the end of a plan that went well: those of a hot reset are made anew.
pub fn close(registers: &mut Registers, plan: Plan)
    ensures { registers.new ≡ closed plan registers.old }
{
    if plan.is_hot() {
        let protection = registers.protection;
        registers.reset(protection);
    } else {
        registers.end(0x0000, plan.kind().raised());
    }
}

// The registers at the end of a plan that failed.
pub fn fail(registers: &mut Registers, plan: Plan)
    ensures { registers.new ≡ failed plan registers.old }
{
    let kind = plan.kind();
    registers.end(kind.error_status(plan.fault()), kind.raised());
}
