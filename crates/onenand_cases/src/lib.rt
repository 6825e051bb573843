// Cases that were checked by hand, proved of the definition of the chip.
#![tactic(auto)]

ghost use Rattle.onenand_cases.specs.Cases.{HandChecked};

// Has no work: its contract is the theorem that every hand-checked case holds.
pub fn hand_checked()
    ensures { HandChecked }
{}
