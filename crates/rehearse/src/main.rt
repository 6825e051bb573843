// Plays the script on standard input on a chip, and prints the transcript. The chip stands over two blocks whose first
// pages have a sheet each, both blank.
#![tactic(auto)]

use flash::PAGE_WORDS;
use onenand::Chip;
use script::{MAX_BYTES, play_script};
use sheets::{Sheet, Sheets};
use std::io;
use std::io::Read;

// The device word of the chip.
const DEVICE: u16 = 0x0004;

// Its version word.
const VERSION: u16 = 0x0000;

// The blocks of its array.
const BLOCKS: usize = 2;

// Page 0 of each block, blank.
const SHEETS: [Sheet; 2] = [
    Sheet {
        block: 0,
        page: 0,
        written: 0,
    },
    Sheet {
        block: 1,
        page: 0,
        written: 0,
    },
];

// Reads the script, plays it and prints what came. A script that cannot be read, and a transcript that cannot be written,
// are told on standard error.
fn main(rt: HostRuntime) -> io::Result<()> {
    // One byte more than a script may have shows that it is too long.
    let mut script = Vec::new(rt.alloc());
    rt.stdin()
        .take(MAX_BYTES as u64 + 1)
        .read_to_end(&mut script)?;
    let mut sheets = SHEETS;
    let mut words = [0u16; 2 * PAGE_WORDS];
    let mut chip = Chip::power_up(
        Sheets::new(BLOCKS, &mut sheets, &mut words),
        DEVICE,
        VERSION,
    );
    let transcript = play_script(&mut chip, rt.alloc(), script.as_slice())?;
    print!(rt; "{transcript}")
}
