// What an accepted command is going to do, tick by tick.
ghost use Rattle.std.specs.Prelude.{◌≡◌, ◌<◌, ◌≤◌};
ghost use Rattle.onenand_rules.specs.Plans.{ticks_of, action_of, plan_kind, plan_fault, is_hot, taken_by, taken, holds_off, busy};

use crate::commands::{Command, Fault, Kind, ResetKind};
use onenand_protection::Protection;
use onenand_transfer::Transfer;

// An erase and a verify take a tick for each page of a block.
const PAGE_TICKS: u16 = 64;

// What an accepted command is going to do, with all that it took of the registers.
#[derive(Clone, Copy, PartialEq, Eq, Debug)]
pub enum Plan {
    // It failed a check.
    Fails(Fault, Kind),
    Loads(Transfer),
    Programs(Transfer),
    // All its words are loaded first, and then programmed.
    Copies(Transfer, Transfer),
    Erases(u16),
    Verifies(u16),
    Protects(Protection),
    Resets(ResetKind),
}

// What runs, and how many ticks it has had.
// Stays: `takes` and `is_busy` are its methods, which the library's `Option<(Plan, u16)>` could not have.
#[derive(Clone, Copy, PartialEq, Eq, Debug)]
pub enum Running {
    Idle,
    Runs(Plan, u16),
}

// What one tick does.
#[derive(Clone, Copy, PartialEq, Eq, Debug)]
pub enum Action {
    Fail,
    Wait,
    // One word of a transfer, by its number.
    LoadWord(Transfer, u16),
    ProgramWord(Transfer, u16),
    EraseBlock(u16),
    // A page of a block.
    VerifyPage(u16, u16),
    SetLocks(Protection),
}

impl Plan {
    // How many ticks it takes at most.
    // Stays: two clauses say the bounds of the plain number, as of a transfer's words.
    pub fn ticks(self) -> u16
        ensures value { result ≡ ticks_of self }
        ensures some { 0 < result }
        ensures few { result ≤ 1056 }
    {
        match self {
            Plan::Loads(t) | Plan::Programs(t) => t.words(),
            Plan::Copies(from, to) => from.words() + to.words(),
            Plan::Erases(_) | Plan::Verifies(_) => PAGE_TICKS,
            Plan::Fails(_, _) | Plan::Protects(_) | Plan::Resets(_) => 1,
        }
    }

    // What its tick number k, from 0, does.
    pub fn action(self, k: u16) -> Action
        ensures { result ≡ action_of self k }
    {
        match self {
            Plan::Fails(_, _) => Action::Fail,
            Plan::Loads(t) => Action::LoadWord(t, k),
            Plan::Programs(t) => Action::ProgramWord(t, k),
            Plan::Copies(from, to) => {
                let n = from.words();
                if k < n {
                    Action::LoadWord(from, k)
                } else {
                    Action::ProgramWord(to, k - n)
                }
            }
            Plan::Erases(b) => {
                if k < PAGE_TICKS - 1 {
                    Action::Wait
                } else {
                    Action::EraseBlock(b)
                }
            }
            Plan::Verifies(b) => Action::VerifyPage(b, k),
            Plan::Protects(p) => Action::SetLocks(p),
            Plan::Resets(_) => Action::Wait,
        }
    }

    // What it counts as in F240h and F241h.
    pub fn kind(self) -> Kind
        ensures { result ≡ plan_kind self }
    {
        match self {
            Plan::Fails(_, kind) => kind,
            Plan::Loads(_) => Kind::Loading,
            Plan::Programs(_) | Plan::Copies(_, _) => Kind::Programming,
            Plan::Erases(_) => Kind::Erasing,
            Plan::Verifies(_) => Kind::Verifying,
            Plan::Protects(_) => Kind::Other,
            Plan::Resets(_) => Kind::Resetting,
        }
    }

    // What an end with Error shows.
    pub fn fault(self) -> Fault
        ensures { result ≡ plan_fault self }
    {
        match self {
            Plan::Fails(fault, _) => fault,
            _ => Fault::Plain,
        }
    }

    // Whether its end gives the registers their start values.
    pub fn is_hot(self) -> bool
        ensures { result ≡ is_hot self }
    {
        matches!(self, Plan::Resets(ResetKind::Hot))
    }

    // Whether it uses the sector of a DataRAM word.
    fn takes(self, x: u16) -> bool
        ensures { result ≡ taken_by self x }
    {
        match self {
            Plan::Loads(t) | Plan::Programs(t) | Plan::Copies(t, _) => t.takes(x),
            _ => false,
        }
    }

    // Whether not even a reset is accepted while it runs.
    fn holds_off(self) -> bool
        ensures { result ≡ holds_off self }
    {
        matches!(self, Plan::Protects(_) | Plan::Resets(_))
    }
}

impl Running {
    // Whether a DataRAM word is taken, so that the host cannot reach it.
    pub fn takes(self, x: u16) -> bool
        ensures { result ≡ taken self x }
    {
        match self {
            Running::Idle => false,
            Running::Runs(plan, _) => plan.takes(x),
        }
    }

    // Whether a command has to wait for what runs.
    pub fn is_busy(self, command: Command) -> bool
        ensures { result ≡ busy self command }
    {
        match self {
            Running::Idle => false,
            Running::Runs(plan, _) => !command.is_reset() || plan.holds_off(),
        }
    }
}
