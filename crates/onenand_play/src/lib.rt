// Lists of calls put to a chip.
#![tactic(auto)]

ghost use Rattle.std.specs.Prelude.{◌≡◌, map, IfOk, OnOk};
ghost use Rattle.onenand_rules.specs.Calls.{reply_of};
ghost use Rattle.onenand_rules.specs.Steps.{step, after as state_after, replies};
ghost use Rattle.onenand_laws.specs.Promise.{Stopped, Played};
ghost use Rattle.onenand.specs.Chips.{state_of};

use flash::Array;
use onenand::Chip;
use onenand_rules::calls::{Answer, Call, Refusal};
use std::alloc::{AllocError, Global};

// One call, and what it answers.
pub fn answer<D: Array>(chip: &mut Chip<D>, call: Call) -> Result<Answer, Refusal>
    ensures reply { reply_of result ≡ (step (state_of chip.old) call).1 }
    ensures state { state_of chip.new ≡ (step (state_of chip.old) call).0 }
{
    // Stays: a call is data that lists hold and laws speak of, and a closure in its place would hide what it is.
    match call {
        Call::Read(addr) => Ok(Answer::Word(chip.read(addr)?)),
        Call::Write(addr, word) => {
            chip.write(addr, word)?;
            Ok(Answer::Done)
        }
        Call::Tick => Ok(Answer::Ticked(chip.tick()?)),
        Call::Warm => {
            chip.warm();
            Ok(Answer::Done)
        }
        Call::Cold => {
            chip.cold();
            Ok(Answer::Done)
        }
    }
}

// Any list of calls, with all answers. Where memory runs out, some first calls of the list have been put.
pub fn play<D: Array>(
    chip: &mut Chip<D>,
    heap: Global,
    calls: &[Call],
) -> Result<Vec<Result<Answer, Refusal>>, AllocError>
    ensures replies { IfOk result (λ v. map reply_of v.items ≡ replies (state_of chip.old) calls.now) }
    ensures state { OnOk result (state_of chip.new ≡ state_after (state_of chip.old) calls.now) }
    ensures stopped { Stopped (state_of chip.old) calls.now (state_of chip.new) }
    ensures promise { OnOk result (Played (state_of chip.old) calls.now (state_of chip.new)) }
{
    let mut answers = Vec::new(heap);
    for call in calls {
        answers.push(answer(chip, *call))?;
    }
    Ok(answers)
}
