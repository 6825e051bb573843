// Laws of the definition of the chip: what each call leaves as it was, and the promise over runs.
#![tactic(auto)]

ghost use Rattle.onenand_laws.specs.Frames.{Frames};
ghost use Rattle.onenand_laws.specs.Promise.{Promised};
ghost use Rattle.onenand_rules.specs.State.{State};

// Has no work: its contract is the theorem that every call leaves what its frame says, in any state.
pub fn frames_hold()
    ensures { (s : State) → Frames s }
{}

// Has no work: its contract is the theorem that the promise holds, over every array, device and version word and list of calls.
pub fn promise_holds()
    ensures { Promised }
{}
