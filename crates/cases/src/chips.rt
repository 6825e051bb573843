// The chip that every case begins with: an image of eight blocks, the last of them worn.
ghost use Rattle.std.specs.Prelude.{◌≡◌, ◌<◌, length, IfOk, string_bytes};
ghost use Rattle.script.specs.Transcript.{transcript};
ghost use Rattle.cases.specs.Chips.{marked, fresh};

use flash::{BLANK, BLOCK_WORDS};
use image::Image;
use onenand::Chip;
use script::play_script;
use std::alloc::{AllocError, Global};

// Puts the first and the last main and spare words of page 0 of block 0, and the first word of block 7.
#[tactic(auto, unfolding(crate::specs::Chips::marked))]
fn mark(words: &mut [u16])
    requires { 236544 < length words.old }
    ensures { words.new ≡ marked words.old }
{
    words[0] = 0xB000;
    words[511] = 0xB1FF;
    words[512] = 0xB200;
    words[527] = 0xB20F;
    words[236544] = 0x7000;
}

// What a script prints on that chip.
pub(crate) fn played(heap: Global, script: &str) -> Result<String, AllocError>
    ensures { IfOk result (λ out. string_bytes out ≡ transcript script.now fresh) }
{
    let mut words = vec![in heap; BLANK; 8 * BLOCK_WORDS]?;
    let words = words.as_mut_slice();
    mark(words);
    let worn = [0, 0, 0, 0, 0, 0, 0, 1];
    let mut chip = Chip::power_up(Image::new(words, &worn), 0x0004, 0x0001);
    play_script(&mut chip, heap, script.as_bytes())
}
