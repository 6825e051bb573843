// A rehearsal of one question. January's calibration stands in a block that is made lock-tight. An upgrade programs and
// erases other blocks, tries the protected one, and the mains fail inside a program. Is the calibration as it was?
#![tactic(auto)]

ghost use Rattle.std.specs.Prelude.{◌≡◌, ◌&&◌, ◌++◌, length, Some, IfOk, OnOk, ◌==◌};
ghost use Rattle.onenand_rules.specs.Steps.{after};
ghost use Rattle.onenand.specs.Chips.{state_of};
ghost use Rattle.calibration.specs.Words.{is_same, same_words};
ghost use Rattle.calibration.specs.Orders.{order};
ghost use Rattle.calibration.specs.Texts.{text};

use flash::{Array, BLANK, BLOCK_WORDS, Numbered};
use image::Image;
use onenand::Chip;
use onenand_play::play;
use onenand_rules::calls::{Answer, Call, Progress, Refusal};
use std::alloc::{AllocError, Global};
use std::fmt;
use std::iter::repeat_n;

// January's coefficients, and March's, go into the buffer sector D0_0, which F200h chooses.
const JANUARY: [Call; 9] = [
    Call::Write(0x0200, 0x1F40),
    Call::Write(0x0201, 0x2EE0),
    Call::Write(0x0202, 0x3E80),
    Call::Write(0x0203, 0x4E20),
    Call::Write(0x0204, 0x00C7),
    Call::Write(0x0205, 0x01A4),
    Call::Write(0x0206, 0x7FFF),
    Call::Write(0x0207, 0x0001),
    Call::Write(0xF200, 0x0801),
];

const MARCH: [Call; 9] = [
    Call::Write(0x0200, 0x1F41),
    Call::Write(0x0201, 0x2EE2),
    Call::Write(0x0202, 0x3E84),
    Call::Write(0x0203, 0x4E28),
    Call::Write(0x0204, 0x00C8),
    Call::Write(0x0205, 0x01A6),
    Call::Write(0x0206, 0x7FFE),
    Call::Write(0x0207, 0x0002),
    Call::Write(0xF200, 0x0801),
];

// The first words of that sector are read.
const TABLE: [Call; 8] = [
    Call::Read(0x0200),
    Call::Read(0x0201),
    Call::Read(0x0202),
    Call::Read(0x0203),
    Call::Read(0x0204),
    Call::Read(0x0205),
    Call::Read(0x0206),
    Call::Read(0x0207),
];

// A command with the calls before it, its ticks, and what it is called.
#[derive(Clone, Copy)]
struct Order {
    what: &'static str,
    first: &'static [Call],
    code: u16,
    ticks: usize,
}

// January: the calibration goes into block 1, which is then made lock-tight.
const IN_JANUARY: [Order; 4] = [
    Order {
        what: "unlock block 1, status",
        first: &[Call::Write(0xF24C, 1), Call::Write(0xF24D, 1)],
        code: 0x0023,
        ticks: 1,
    },
    Order {
        what: "erase block 1, status",
        first: &[Call::Write(0xF100, 1)],
        code: 0x0094,
        ticks: 64,
    },
    Order {
        what: "program block 1, status",
        first: &JANUARY,
        code: 0x0080,
        ticks: 264,
    },
    Order {
        what: "make block 1 lock-tight, status",
        first: &[],
        code: 0x002C,
        ticks: 1,
    },
];

// March: the upgrade changes block 2, and tries block 1.
const IN_MARCH: [Order; 6] = [
    Order {
        what: "unlock blocks 2 and 3, status",
        first: &[Call::Write(0xF24C, 2), Call::Write(0xF24D, 3)],
        code: 0x0023,
        ticks: 1,
    },
    Order {
        what: "erase block 2, status",
        first: &[Call::Write(0xF100, 2)],
        code: 0x0094,
        ticks: 64,
    },
    Order {
        what: "program block 2, status",
        first: &MARCH,
        code: 0x0080,
        ticks: 264,
    },
    Order {
        what: "try to program block 1, status",
        first: &[Call::Write(0xF100, 1)],
        code: 0x0080,
        ticks: 1,
    },
    Order {
        what: "try to erase block 1, status",
        first: &[],
        code: 0x0094,
        ticks: 1,
    },
    Order {
        what: "try to unlock block 1, status",
        first: &[Call::Write(0xF24C, 1), Call::Write(0xF24D, 1)],
        code: 0x0023,
        ticks: 1,
    },
];

// A program of block 3 that the mains cut after three ticks.
const CUT: [Order; 1] = [Order {
    what: "program block 3, status after 3 ticks",
    first: &[Call::Write(0xF100, 3)],
    code: 0x0080,
    ticks: 3,
}];

// What came of a call.
type Answered = Result<Answer, Refusal>;

// Some first calls, and then a command with its ticks.
// Stays: tried as a method of `Order`; there the check did not find its clause.
fn command(heap: Global, first: &[Call], code: u16, ticks: usize) -> Result<Vec<Call>, AllocError>
    ensures { IfOk result (λ v. v.items ≡ first.now ++ order code ticks) }
{
    let begin = [Call::Write(0xF241, 0x0000), Call::Write(0xF220, code)];
    first
        .iter()
        .copied()
        .chain(begin)
        .chain(repeat_n(Call::Tick, ticks))
        .chain([Call::Read(0xF240)])
        .collect(heap)
}

// Whether two calls answered the same word.
fn is_same(a: Answered, b: Answered) -> bool
    ensures { result ≡ is_same a b }
{
    matches!((a, b), (Ok(Answer::Word(v)), Ok(Answer::Word(w))) if v == w)
}

// Whether two lists of calls answered the same words.
fn are_same(a: &[Answered], b: &[Answered]) -> bool
    ensures { result ≡ (length a.now == length b.now && same_words a.now b.now (length b.now)) }
{
    a.len() == b.len() && a.iter().zip(b).all(|(x, y)| is_same(*x, *y))
}

// What came of a call, as it is printed.
#[derive(Clone, Copy)]
struct Told(Answered);

impl fmt::Display for Told {
    ghost output = { λ told. Some (text told.0) };

    fn fmt<W: fmt::Write>(&self, f: &mut fmt::Formatter<W>) -> fmt::Result {
        match self.0 {
            Ok(Answer::Word(word)) => write!(f, "{word:04X}"),
            Ok(Answer::Done) => write!(f, "done"),
            Ok(Answer::Ticked(Progress::Running)) => write!(f, "1"),
            Ok(Answer::Ticked(Progress::Ended)) => write!(f, "0"),
            Err(refusal) => {
                let number = refusal.number();
                write!(f, "refused with {number}")
            }
        }
    }
}

// Puts calls to the chip, and prints what the last of them answered.
fn stage<D: Array>(
    rt: &HostRuntime,
    chip: &mut Chip<D>,
    what: &str,
    calls: &[Call],
) -> anyhow::Result<()>
    ensures { OnOk result (state_of chip.new ≡ after (state_of chip.old) calls.now) }
{
    let answers = play(chip, rt.alloc(), calls)?;
    print!(rt; "  {what}:")?;
    if let Some(answer) = answers.as_slice().last() {
        print!(rt; " {}", Told(*answer))?;
    }
    println!(rt; "")?;
    Ok(())
}

// Loads the first sector of page 0 of a block, and prints and gives back its first words.
fn look<D: Array>(
    rt: &HostRuntime,
    chip: &mut Chip<D>,
    block: u16,
) -> anyhow::Result<Vec<Answered>> {
    let heap = rt.alloc();
    let first = [Call::Write(0xF100, block), Call::Write(0xF200, 0x0801)];
    let load = command(heap, &first, 0x0000, 264)?;
    let _ = play(chip, heap, load.as_slice())?;
    let answers = play(chip, heap, &TABLE)?;
    print!(rt; "  block {block} reads:")?;
    for answer in answers.as_slice() {
        print!(rt; " {}", Told(*answer))?;
    }
    println!(rt; "")?;
    Ok(answers)
}

// Carries orders out, one after the other.
fn carry_out<D: Array>(
    rt: &HostRuntime,
    chip: &mut Chip<D>,
    orders: &[Order],
) -> anyhow::Result<()> {
    for order in orders {
        let calls = command(rt.alloc(), order.first, order.code, order.ticks)?;
        stage(rt, chip, order.what, calls.as_slice())?;
    }
    Ok(())
}

// Plays January and March, and says whether the calibration is as it was.
fn main(rt: HostRuntime) -> anyhow::Result<()> {
    let mut words = vec![in rt.alloc(); BLANK; 4 * BLOCK_WORDS]?;
    let worn = [0u8; 4];
    let array = Image::new(words.as_mut_slice(), &worn);
    let mut chip = Chip::power_up(array, 0x0004, 0x0000);
    println!(rt; "January:")?;
    carry_out(&rt, &mut chip, &IN_JANUARY)?;
    let before = look(&rt, &mut chip, 1)?;
    println!(rt; "March:")?;
    carry_out(&rt, &mut chip, &IN_MARCH)?;
    stage(&rt, &mut chip, "protection", &[Call::Read(0xF24E)])?;
    carry_out(&rt, &mut chip, &CUT)?;
    stage(
        &rt,
        &mut chip,
        "the mains fail, and come back",
        &[Call::Cold],
    )?;
    let _ = look(&rt, &mut chip, 3)?;
    let now = look(&rt, &mut chip, 1)?;
    if are_same(before.as_slice(), now.as_slice()) {
        println!(rt; "January's calibration is as it was, word for word.")
    } else {
        println!(rt; "January's calibration has changed.")
    }?;
    Ok(())
}
