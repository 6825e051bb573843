// A load for measuring the chip: each round programs and loads a page of block 1, and the block is erased when its pages
// are used up. Prints how many ticks were answered, and a checksum over the words that were loaded. The argument is the
// number of rounds.
#![tactic(auto)]

ghost use Rattle.std.specs.Prelude.{◌≡◌, ◌≤◌};
ghost use Rattle.onenand.specs.Chips.{state_of};
ghost use Rattle.speed.specs.Ending.{answered, ended};
ghost use Rattle.speed.specs.Load.{wrote, shown_at, ticks_taken, commanded, prepared, round_end, tally_of, counted_on, tallied, rounds_end, rounds_tally, ranged};

use anyhow::{Context, bail};
use flash::{Array, BLANK, BLOCK_WORDS};
use image::Image;
use onenand::Chip;
use onenand_rules::calls::Progress;
use std::env;

// The most ticks that a command takes.
const MOST_TICKS: u64 = 1056;

// What the rounds so far came to.
#[derive(Clone, Copy)]
struct Tally {
    // The ticks that were answered.
    ticks: u64,
    // Over the words that were loaded.
    checksum: u32,
}

impl Tally {
    // Counts a round, by the ticks that were answered in it and the word that it loaded.
    fn count(&mut self, ticks: u64, word: u16)
        ensures { self.new ≡ counted_on self.old ticks word }
    {
        self.ticks = self.ticks.wrapping_add(ticks);
        self.checksum = self.checksum.wrapping_mul(31).wrapping_add(u32::from(word));
    }
}

// Ticks until the command ends; how many ticks were answered.
fn finish<D: Array>(chip: &mut Chip<D>) -> u64
    ensures bound { result ≤ 1056 }
    ensures ticks { result ≡ answered 1056 (state_of chip.old) }
    ensures state { state_of chip.new ≡ ended 1056 (state_of chip.old) }
{
    for k in 0..MOST_TICKS {
        match chip.tick() {
            Ok(Progress::Running) => {}
            Ok(Progress::Ended) => return k + 1,
            Err(_) => return k,
        }
    }
    MOST_TICKS
}

// Writes a word to an address. A write that is refused changes nothing.
#[tactic(auto, unfolding(crate::specs::Load::wrote))]
fn put<D: Array>(chip: &mut Chip<D>, address: u16, word: u16)
    ensures { state_of chip.new ≡ wrote (state_of chip.old) address word }
{
    let _ = chip.write(address, word);
}

// The word that an address shows, and 0 where the read is refused.
fn look<D: Array>(chip: &Chip<D>, address: u16) -> u16
    ensures { result ≡ shown_at (state_of chip.now) address }
{
    chip.read(address).unwrap_or(0)
}

// Clears the interrupt, writes the command and ticks until it ends; how many ticks were answered.
fn command<D: Array>(chip: &mut Chip<D>, code: u16) -> u64
    ensures bound { result ≤ 1056 }
    ensures ticks { result ≡ ticks_taken (state_of chip.old) code }
    ensures state { state_of chip.new ≡ commanded (state_of chip.old) code }
{
    put(chip, 0xF241, 0x0000);
    put(chip, 0xF220, code);
    finish(chip)
}

// Puts a round's word into the buffer, and chooses both sectors of its page.
fn prepare<D: Array>(chip: &mut Chip<D>, round: u32)
    ensures { state_of chip.new ≡ prepared round (state_of chip.old) }
{
    put(chip, 0x0200, (round % 65536) as u16);
    put(chip, 0xF100, 1);
    put(chip, 0xF107, (round % 64 * 4) as u16);
    put(chip, 0xF200, 0x0800);
}

// One round: a program and a load of a page, and after the last page an erase.
fn play_round<D: Array>(chip: &mut Chip<D>, round: u32, tally: &mut Tally)
    ensures tally { tally.new ≡ tallied round (state_of chip.old) tally.old }
    ensures state { state_of chip.new ≡ round_end round (state_of chip.old) }
{
    prepare(chip, round);
    let programming = command(chip, 0x0080);
    let loading = command(chip, 0x0000);
    let word = look(chip, 0x0200);
    let erasing = if round % 64 == 63 {
        command(chip, 0x0094)
    } else {
        0
    };
    tally.count(programming + loading + erasing, word);
}

// Unlocks both blocks, and plays the rounds.
fn play<D: Array>(chip: &mut Chip<D>, rounds: u32) -> Tally
    ensures tally { result ≡ rounds_tally rounds (commanded (ranged (state_of chip.old)) 0x0023) (tally_of (ticks_taken (ranged (state_of chip.old)) 0x0023) 0) }
    ensures state { state_of chip.new ≡ rounds_end rounds (commanded (ranged (state_of chip.old)) 0x0023) }
{
    put(chip, 0xF24C, 0);
    put(chip, 0xF24D, 1);
    let ticks = command(chip, 0x0023);
    let mut tally = Tally { ticks, checksum: 0 };
    for round in 0..rounds {
        play_round(chip, round, &mut tally);
    }
    tally
}

// The program's argument.
fn rounds_asked(rt: &HostRuntime) -> anyhow::Result<u32> {
    let word = env::args(rt)?.nth(1).context("usage: speed ROUNDS")?;
    let Ok(rounds) = word.as_str().parse() else {
        bail!("usage: speed ROUNDS, a number from 0 to 4294967295");
    };
    Ok(rounds)
}

fn main(rt: HostRuntime) -> anyhow::Result<()> {
    let rounds = rounds_asked(&rt)?;
    let mut words = vec![in rt.alloc(); BLANK; 2 * BLOCK_WORDS]?;
    let worn = [0u8; 2];
    let array = Image::new(words.as_mut_slice(), &worn);
    let mut chip = Chip::power_up(array, 0x0004, 0x0000);
    let tally = play(&mut chip, rounds);
    println!(rt; "ticks {}\nchecksum {:08X}", tally.ticks, tally.checksum)?;
    Ok(())
}
