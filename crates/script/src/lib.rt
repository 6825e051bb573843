// Scripts played on a chip: what each line does, and the transcript.
#![tactic(auto)]

mod laws;

ghost use Rattle.std.specs.Prelude.{◌≡◌, ◌++◌, IfOk, string_bytes, OnOk};
ghost use Rattle.onenand_rules.specs.Steps.{after as state_after};
ghost use Rattle.onenand_laws.specs.Promise.{Stopped, Played};
ghost use Rattle.onenand.specs.Chips.{state_of};
ghost use Rattle.script_forms.specs.Lines.{lines_of};
ghost use Rattle.script_forms.specs.Grammar.{form_of};
ghost use Rattle.script_forms.specs.Parts.{asked};
ghost use Rattle.script.specs.Puts.{ran, ticks_put, calls_for, calls_of_line, calls_of_lines, is_too_long, calls_of};
ghost use Rattle.script.specs.Transcript.{coded, performed, entry_for, told, too_long, transcript};

use flash::Array;
pub use laws::lines_go_on;
use onenand::Chip;
use script_entries::{Entry, Fault, add_entry};
use script_forms::{Kind, Line, Place, Reader};
use std::alloc::{AllocError, Global};

// The most bytes that a script may have.
pub const MAX_BYTES: usize = 16_384;

// Puts so many ticks, up to the first that is refused, and says how many ran.
fn run_ticks<D: Array>(chip: &mut Chip<D>, count: u16) -> u16
    ensures ran { result ≡ ran count (state_of chip.old) }
    ensures state { state_of chip.new ≡ state_after (state_of chip.old) (ticks_put count (state_of chip.old)) }
{
    for done in 0..count {
        if chip.tick().is_err() {
            return done;
        }
    }
    count
}

// Does what a form asks.
fn perform<D: Array>(chip: &mut Chip<D>, kind: Kind<'_>) -> Result<Entry, Fault>
    ensures entry { coded result ≡ performed (state_of chip.old) (asked kind.entry) }
    ensures state { state_of chip.new ≡ state_after (state_of chip.old) (calls_for (state_of chip.old) (asked kind.entry)) }
{
    // Stays: what a form asks is data, read from the script, and a closure in its place would hide what it is.
    match kind {
        Kind::Read(address) => {
            let address = address.worth();
            let word = chip.read(address)?;
            Ok(Entry::Word(address, word))
        }
        Kind::Write(address, word) => {
            let address = address.worth();
            let word = word.worth();
            chip.write(address, word)?;
            Ok(Entry::Written(address, word))
        }
        Kind::Tick(count) => {
            let count = count.worth();
            let ran = run_ticks(chip, count);
            Ok(Entry::Ticked(ran))
        }
        Kind::Warm => {
            chip.warm();
            Ok(Entry::Warm)
        }
        Kind::Cold => {
            chip.cold();
            Ok(Entry::Cold)
        }
    }
}

// Plays a line. A refusal of the chip stands where its form begins.
fn play_line<D: Array>(chip: &mut Chip<D>, line: Line<'_>) -> Entry
    ensures entry { result ≡ entry_for line.entry.number (state_of chip.old) (form_of line.entry.bytes.now) }
    ensures state { state_of chip.new ≡ state_after (state_of chip.old) (calls_of_line (state_of chip.old) (form_of line.entry.bytes.now)) }
{
    match line.form() {
        Ok(form) => match perform(chip, form.kind) {
            Ok(entry) => entry,
            Err(fault) => Entry::Refused(fault.code(), form.part.place),
        },
        Err(place) => Entry::Refused(Fault::NoForm.code(), place),
    }
}

// Plays every line, and adds an entry for each.
fn play_lines<D: Array>(
    chip: &mut Chip<D>,
    script: &[u8],
    out: &mut String,
) -> Result<(), AllocError>
    ensures text { OnOk result (string_bytes out.new ≡ string_bytes out.old ++ told 1 (lines_of script.now) (state_of chip.old)) }
    ensures state { OnOk result (state_of chip.new ≡ state_after (state_of chip.old) (calls_of_lines (lines_of script.now) (state_of chip.old))) }
    ensures stopped { Stopped (state_of chip.old) (calls_of_lines (lines_of script.now) (state_of chip.old)) (state_of chip.new) }
{
    for line in Reader::new(script) {
        let entry = play_line(chip, line);
        add_entry(out, entry)?;
    }
    Ok(())
}

// Whether a script has more bytes than may be.
fn is_too_long(script: &[u8]) -> bool
    ensures { result ≡ is_too_long script.now }
{
    script.len() > MAX_BYTES
}

// The one entry of a script that is too long.
fn too_long() -> Entry
    ensures { result ≡ too_long }
{
    Entry::Refused(Fault::TooLong.code(), Place { line: 1, column: 1 })
}

// Plays a script on a chip, and gives its transcript. Where memory runs out, some first calls of the script have been put.
pub fn play_script<D: Array>(
    chip: &mut Chip<D>,
    heap: Global,
    script: &[u8],
) -> Result<String, AllocError>
    ensures text { IfOk result (λ out. string_bytes out ≡ transcript script.now (state_of chip.old)) }
    ensures state { OnOk result (state_of chip.new ≡ state_after (state_of chip.old) (calls_of script.now (state_of chip.old))) }
    ensures stopped { Stopped (state_of chip.old) (calls_of script.now (state_of chip.old)) (state_of chip.new) }
    ensures promise { OnOk result (Played (state_of chip.old) (calls_of script.now (state_of chip.old)) (state_of chip.new)) }
{
    let mut out = String::new(heap);
    if is_too_long(script) {
        add_entry(&mut out, too_long())?;
        return Ok(out);
    }
    play_lines(chip, script, &mut out)?;
    Ok(out)
}
