// Walks over a page of any array.
// Stays: that the array means the same afterwards is said by each function that reads, here and elsewhere: it is what each
// one promises, and no fact about one value.
ghost use Rattle.std.specs.Prelude.{◌≡◌};
ghost use Rattle.onenand_rules.specs.Resets.{boot_words};
ghost use Rattle.onenand_rules.specs.Ticks.{blank};

use flash::{Array, BLANK, Location, PAGE_WORDS};

// The boot load: both sectors of block 0, page 0.
pub(crate) fn boot_words<D: Array>(array: &mut D) -> [u16; PAGE_WORDS]
    ensures words { result ≡ boot_words (D.meaning array.old) }
    ensures same { D.meaning array.new ≡ D.meaning array.old }
{
    let mut boot = [BLANK; PAGE_WORDS];
    for (word, shown) in boot.iter_mut().enumerate() {
        *shown = array.read(Location {
            block: 0,
            page: 0,
            word,
        });
    }
    boot
}

// Whether every word of a page is blank.
#[tactic(auto, using(crate::proofs::Scans::blank_none, crate::proofs::Scans::blank_more, crate::proofs::Scans::not_blank))]
pub(crate) fn is_blank<D: Array>(array: &mut D, block: usize, page: usize) -> bool
    ensures value { result ≡ blank (D.meaning array.old) block page 528 }
    ensures same { D.meaning array.new ≡ D.meaning array.old }
{
    // Stays: `all` would hold the array in its closure, and that the array means the same afterwards would have to be followed
    // through the closure's runs; the loop says it in its invariant.
    for word in 0..PAGE_WORDS {
        if array.read(Location { block, page, word }) != BLANK {
            return false;
        }
    }
    true
}
