// Plays the cases of the files that it is given, each on a chip of its own, and says of each whether the chip's
// transcript is the one that the case has.
#![tactic(auto)]

mod case;
mod chips;
mod tally;

ghost use Rattle.std.specs.Prelude.{◌≡◌, IfOk};
ghost use Rattle.std.specs.Str.{bytes_eq};
ghost use Rattle.script.specs.Transcript.{transcript};
ghost use Rattle.cases.specs.Chips.{fresh};

use anyhow::{bail, ensure};
use case::Case;
use chips::played;
use std::{env, fs};
use tally::Tally;

// Prints the first line at which two transcripts differ.
fn print_difference(rt: &HostRuntime, expected: &str, came: &str) -> anyhow::Result<()> {
    let same = expected
        .lines()
        .zip(came.lines())
        .take_while(|(wanted, other)| wanted == other)
        .count();
    let line = same.saturating_add(1);
    let wanted = expected.lines().nth(same).unwrap_or("nothing");
    let other = came.lines().nth(same).unwrap_or("nothing");
    println!(rt; "  line {line}: expected {wanted}, came {other}")?;
    Ok(())
}

// Plays a case, prints what came of it, and says whether it is as it should be.
fn holds(rt: &HostRuntime, case: Case<'_>) -> anyhow::Result<bool>
    ensures { IfOk result (λ b. b ≡ bytes_eq (transcript case.entry.script.now fresh) case.entry.transcript.now) }
{
    let name = case.name;
    let came = played(rt.alloc(), case.script)?;
    let same = came.as_str() == case.transcript;
    if same {
        println!(rt; "ok  {name}")?;
    } else {
        println!(rt; "DIFFERS {name}")?;
        print_difference(rt, case.transcript, came.as_str())?;
    }
    Ok(same)
}

// Plays the cases of a file, whose texts stand apart by a line feed and "# ". A text of one line is a title; any other
// that is no case counts as one that differs.
fn play_file(rt: &HostRuntime, file: &str, tally: &mut Tally) -> anyhow::Result<()> {
    for text in file.split("\n# ") {
        match Case::read(text) {
            Some(case) => tally.count(holds(rt, case)?),
            None if text.lines().count() > 1 => {
                println!(rt; "NO CASE {text}")?;
                tally.count(false);
            }
            None => print!(rt; "{text}")?,
        }
    }
    Ok(())
}

// Plays the cases of all files that are named, and counts them.
fn main(rt: HostRuntime) -> anyhow::Result<()> {
    let mut tally = Tally::default();
    for path in env::args(&rt)?.skip(1) {
        let Ok(text) = fs::read_to_string(&rt, path.as_str()) else {
            bail!(format!(in rt.alloc(); "{path} cannot be read, or is no text")?);
        };
        play_file(&rt, text.as_str(), &mut tally)?;
    }
    let Tally { cases, differ } = tally;
    println!(rt; "{cases} cases, {differ} differ")?;
    ensure!(cases > 0, "no case was played; usage: cases FILE..");
    ensure!(differ == 0, "some cases differ");
    Ok(())
}
