// What a flash array is: the trait that every array implements, the sizes of its parts, and what arrays share.
#![tactic(auto)]

ghost use Rattle.std.specs.Prelude.{◌≡◌, ℕ, ◌+◌, ◌*◌, ◌^◌, ◌<◌, ◌≤◌, length, replicate};
ghost use Rattle.flash.specs.Geometry.{max_blocks, page_words, sector_word, main_word, spare_word};
ghost use Rattle.flash.specs.Meaning.{Meaning, word_at, outcome_of, programmable, after_program, erasable, after_erase};
ghost use Rattle.flash.specs.Runs.{filled};

// The most blocks that an array has.
pub const MAX_BLOCKS: usize = 256;

// Pages in a block.
pub const BLOCK_PAGES: usize = 64;

// Words in a page: 512 main words, then 16 spare words.
pub const PAGE_WORDS: usize = 528;

// Words in a block.
pub const BLOCK_WORDS: usize = BLOCK_PAGES * PAGE_WORDS;

// A word with every bit set, as an erase leaves it.
pub const BLANK: u16 = 0xFFFF;

// Where a word stands in an array.
#[derive(Clone, Copy, PartialEq, Eq, Debug)]
pub struct Location {
    pub block: usize,
    pub page: usize,
    pub word: usize,
}

// What was asked was not done. Of an array: the page or the block is dead, or out of range, and nothing has changed.
#[derive(Clone, Copy, PartialEq, Eq, Debug)]
pub struct Failed;

// A flash array, by what it means: its blocks, its words, its dead pages and its dead blocks.
pub trait Array {
    ghost meaning: { Self → Meaning };

    // No array has more than 256 blocks.
    // Stays: this fact and the next stand above the functions, since a clause may name them there; below they would be laws,
    // which no clause can name.
    ghost capped: { (s : Self) → (meaning s).count ≤ max_blocks };

    // A word has 16 bits.
    ghost narrow: { (s : Self) (b p w : ℕ) → (meaning s).word b p w < 2 ^ 16 };

    // How many blocks there are.
    fn count(&self) -> usize
        ensures { result ≡ (meaning self.now).count };

    // One word, or a blank one out of range. An array may change what it keeps beside its meaning.
    fn read(&mut self, at: Location) -> u16
        ensures value { result ≡ word_at (meaning self.old) at.block at.page at.word }
        ensures same { meaning self.new ≡ meaning self.old };

    // ANDs bits into one word; fails in a dead page and out of range.
    fn program(&mut self, at: Location, bits: u16) -> Result<(), Failed>
        ensures value { result ≡ outcome_of (programmable (meaning self.old) at.block at.page at.word) }
        ensures after { meaning self.new ≡ after_program (meaning self.old) at.block at.page at.word bits };

    // Makes every word of a block blank; fails at a dead block and out of range.
    fn erase(&mut self, block: usize) -> Result<(), Failed>
        ensures value { result ≡ outcome_of (erasable (meaning self.old) block) }
        ensures after { meaning self.new ≡ after_erase (meaning self.old) block };
}

// A refusal that the rules give a number.
pub trait Numbered {
    ghost number_of: { Self → ℕ };

    // That number.
    fn number(self) -> u8
        ensures { result ≡ number_of self };
}

// Where word i of a sector stands in its page, of the words that stand from FIRST on, EACH of them a sector.
fn sector_word<const FIRST: usize, const EACH: usize>(sector: usize, i: usize) -> Option<usize>
    requires { FIRST + 2 * EACH ≤ page_words }
    ensures { result ≡ sector_word FIRST EACH sector i }
{
    if sector < 2 && i < EACH {
        Some(FIRST + EACH * sector + i)
    } else {
        None
    }
}

// Where main word i of a sector stands in its page.
pub fn main_word(sector: usize, i: usize) -> Option<usize>
    ensures { result ≡ main_word sector i }
{
    sector_word::<0, 256>(sector, i)
}

// Where spare word i of a sector stands in its page.
pub fn spare_word(sector: usize, i: usize) -> Option<usize>
    ensures { result ≡ spare_word sector i }
{
    sector_word::<512, 8>(sector, i)
}

// Makes every item equal to `item`.
#[tactic(auto, using(crate::proofs::Runs::run_start, crate::proofs::Runs::run_next, crate::proofs::Runs::run_all))]
fn set_all<T: Copy>(items: &mut [T], item: T)
    ensures { items.new ≡ replicate (length items.old) item }
{
    // Stays: the library's `fill` asks for a `clone` that cannot fail, which `T: Copy` does not say; of `fill_with` a proof
    // knows the runs of the closure, and was left open.
    for x in items {
        *x = item;
    }
}

// Makes n items from `start` on equal to `item`, as far as there are any.
#[tactic(auto, using(crate::proofs::Runs::parts_filled))]
pub fn fill<T: Copy>(items: &mut [T], start: usize, n: usize, item: T)
    ensures { items.new ≡ filled item start n items.old }
{
    let (_, rest) = items.split_at_mut(start.min(items.len()));
    let n = n.min(rest.len());
    set_all(&mut rest[..n], item);
}
