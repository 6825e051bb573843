// The chip: an array of any type, beside what the chip itself holds.
mod reads;
mod writes;

ghost use Rattle.std.specs.Prelude.{◌≡◌, List, MatchOption};
ghost use Rattle.onenand_laws.specs.Promise.{Promise};
ghost use Rattle.onenand_rules.specs.declared.calls.Call.{Call};
ghost use Rattle.onenand_rules.specs.declared.calls.Call.TheVariants.{Tick as tick_call, Warm as warm_call, Cold as cold_call};
ghost use Rattle.onenand_rules.specs.declared.plans.Running.TheVariants.{Runs as runs_on};
ghost use Rattle.onenand_rules.specs.Calls.{tick_number, tick_reply, tick as tick_of};
ghost use Rattle.onenand_rules.specs.Ticks.{ticked};
ghost use Rattle.onenand_rules.specs.Resets.{powered_up};
ghost use Rattle.onenand_rules.specs.Steps.{step};
ghost use Rattle.onenand_rows.specs.Rows.{Suits};

use flash::{Array, MAX_BLOCKS};
use onenand_protection::Lock;
use onenand_rows::Row;
use onenand_rules::calls::{Progress, Refusal};
use onenand_rules::plans::{Plan, Running};
use onenand_rules::state::Core;
use onenand_steps::actions::act;
use onenand_steps::ends::{close, fail};
use onenand_steps::power::core_over;
use onenand_steps::words::move_word;

// A chip over an array of any type.
#[derive(Drop)]
pub struct Chip<D: Array> {
    array: D,
    // Where the words stand that the next ticks move, worked out ahead: it says nothing that the core does not.
    row: Option<Row>,
    core: Core,
    ghost suits: { Suits row core.running },
}

impl<D: Array> Chip<D> {
    ghost use Rattle.onenand.specs.Chips.{state_of};

    // A chip over an array, as its power comes on. Whatever list of calls is then put to it, the promise holds of it.
    pub fn power_up(mut array: D, device: u16, version: u16) -> Chip<D>
        ensures state { state_of result ≡ powered_up device version (D.meaning array) }
        ensures promise { (calls : List Call) → Promise device version (D.meaning array) calls }
    {
        let core = core_over(&mut array, device, version);
        let row = Row::of(core.running);
        Chip { array, core, row }
    }

    // The array back.
    pub fn into_array(self) -> D
        ensures { D.meaning result ≡ D.meaning self.array }
    {
        let Chip { array, .. } = self;
        array
    }

    // Tick number k of a running plan.
    fn run_on(&mut self, plan: Plan, k: u16) -> Progress
        ensures answer { tick_of (tick_number result) ≡ (ticked (state_of self.old) (runs_on plan k)).1 }
        ensures state { state_of self.new ≡ (ticked (state_of self.old) (runs_on plan k)).0 }
    {
        let progress = if act(&mut self.array, &mut self.core, plan.action(k)).is_err() {
            fail(&mut self.core.registers, plan);
            self.core.running = Running::Idle;
            Progress::Ended
        } else if k < plan.ticks() - 1 {
            self.core.running = Running::Runs(plan, k + 1);
            Progress::Running
        } else {
            close(&mut self.core.registers, plan);
            self.core.running = Running::Idle;
            Progress::Ended
        };
        self.row = Row::of(self.core.running);
        progress
    }

    // A tick along the row, after which the command runs on. Where there is none, nothing has changed, and the tick is
    // still to be done.
    fn go_along(&mut self) -> Option<Progress>
        ensures { MatchOption result
            (state_of self.new ≡ state_of self.old)
            (λ p. (tick_of (tick_number p) ≡ (step (state_of self.old) tick_call).1)
            × (state_of self.new ≡ (step (state_of self.old) tick_call).0)) }
    {
        if let Running::Runs(_, k) = &mut self.core.running
            && let Some(row) = self.row
            && row.is_along(*k)
            && move_word(&mut self.array, &mut self.core.dataram, row, *k - row.from).is_ok()
        {
            *k += 1;
            return Some(Progress::Running);
        }
        None
    }

    // One tick of the running command.
    // Stays: a match on what runs, since the plan is read back by `takes`, `is_busy` and `Row::of`, and a closure in its
    // place could not be.
    pub fn tick(&mut self) -> Result<Progress, Refusal>
        ensures answer { tick_reply result ≡ (step (state_of self.old) tick_call).1 }
        ensures state { state_of self.new ≡ (step (state_of self.old) tick_call).0 }
    {
        if let Some(progress) = self.go_along() {
            return Ok(progress);
        }
        match self.core.running {
            Running::Idle => Err(Refusal::NoCommand),
            Running::Runs(plan, k) => Ok(self.run_on(plan, k)),
        }
    }

    // A warm reset.
    pub fn warm(&mut self)
        ensures state { state_of self.new ≡ (step (state_of self.old) warm_call).0 }
    {
        self.core.registers.reset(Lock::Locked.protection_word());
        self.core.locks = [Lock::Locked; MAX_BLOCKS];
        self.core.running = Running::Idle;
        self.row = None;
    }

    // A cold reset.
    pub fn cold(&mut self)
        ensures state { state_of self.new ≡ (step (state_of self.old) cold_call).0 }
    {
        self.core = core_over(&mut self.array, self.core.device, self.core.version);
        self.row = Row::of(self.core.running);
    }
}
