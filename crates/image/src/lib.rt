// The image: a flash array in words that the caller lends, with a worn list beside them.
#![tactic(auto)]

ghost use Rattle.std.specs.Prelude.{◌≡◌, length, is_some, if◌then◌else◌};
ghost use Rattle.flash.specs.Meaning.{word_at, outcome_of, programmable, after_program, erasable, after_erase};
ghost use Rattle.flash.specs.Refusals.{refusal};
ghost use Rattle.image.specs.Checks.{number_of, image_check};
ghost use Rattle.image.specs.Contents.{place_of, words_programmed, words_erased};
ghost use Rattle.image.specs.Held.{meant, Kept};
ghost use Rattle.image.specs.Bounds.{capped, narrow};

use flash::{
    Array, BLANK, BLOCK_PAGES, BLOCK_WORDS, Failed, Location, MAX_BLOCKS, Numbered, PAGE_WORDS,
    fill,
};

// Why words and a worn list are no image, by the numbers that the rules give.
#[derive(Clone, Copy, PartialEq, Eq, Debug)]
pub enum ImageFault {
    // The words are no whole blocks, or too many.
    Words = 1,
    // The worn list has not one byte a block.
    Worn = 2,
}

impl Numbered for ImageFault {
    ghost number_of = { number_of };

    fn number(self) -> u8 {
        self as u8
    }
}

// Whether an image can be made of the words and the worn list.
// Stays: `Image` holds what it may write, and this only reads, before there is an array, so to take one would ask more of
// the caller.
pub fn check(words: &[u16], worn: &[u8]) -> Result<(), ImageFault>
    ensures { refusal number_of result ≡ image_check words.now worn.now }
{
    if words.len() % BLOCK_WORDS != 0 || words.len() > MAX_BLOCKS * BLOCK_WORDS {
        Err(ImageFault::Words)
    } else if worn.len() != words.len() / BLOCK_WORDS {
        Err(ImageFault::Worn)
    } else {
        Ok(())
    }
}

// Words, block after block and page after page, with one worn byte a block: not 0 where the block is dead.
// Stays: two lists side by side, and a byte where a `bool` would do, since the caller lends them so and the array has no
// memory of its own.
#[derive(Drop)]
pub struct Image<'a> {
    words: &'a mut [u16],
    worn: &'a [u8],
}

impl<'a> Image<'a> {
    // Lists that the check turns away make an image of no blocks.
    pub fn new(words: &'a mut [u16], worn: &'a [u8]) -> Image<'a>
        ensures words { result.words.now ≡ words.old }
        ensures worn { result.worn.now ≡ worn.now }
        ensures lender { result.words.ghost_name ≡ words.entry.ghost_name }
        ensures count { (meant result).count ≡ (if is_some (image_check words.old worn.now) then 0 else length worn.now) }
    {
        Image { words, worn }
    }

    // Whether the block is there and not worn.
    fn sound(&self, block: usize) -> bool
        ensures { result ≡ erasable (meant self.now) block }
    {
        block < self.count() && self.worn[block] == 0
    }

    // Where a word stands among the caller's words, if it is in range.
    fn place(&self, at: Location) -> Option<usize>
        ensures { result ≡ place_of self.now.words.now self.now.worn.now at.block at.page at.word }
    {
        if at.block < self.count() && at.page < BLOCK_PAGES && at.word < PAGE_WORDS {
            Some(at.block * BLOCK_WORDS + at.page * PAGE_WORDS + at.word)
        } else {
            None
        }
    }
}

// Each method says the trait's clauses in terms of what the image holds, and what becomes of the caller's words.
// Stays: a method's own clauses stand in place of the trait's, so each repeats those.
impl Array for Image<'_> {
    ghost meaning = { meant };

    // How many blocks the lists make.
    fn count(&self) -> usize {
        let n = self.worn.len();
        if n <= MAX_BLOCKS && self.words.len() == n * BLOCK_WORDS {
            n
        } else {
            0
        }
    }

    fn read(&mut self, at: Location) -> u16
        ensures value { result ≡ word_at (meant self.old) at.block at.page at.word }
        ensures same { meant self.new ≡ meant self.old }
        ensures words { self.new.words.now ≡ self.old.words.now }
        ensures kept { Kept self.old self.new }
    {
        match self.place(at) {
            Some(k) => self.words[k],
            None => BLANK,
        }
    }

    #[tactic(auto, using(crate::proofs::Changes::programmed_is))]
    fn program(&mut self, at: Location, bits: u16) -> Result<(), Failed>
        ensures value { result ≡ outcome_of (programmable (meant self.old) at.block at.page at.word) }
        ensures after { meant self.new ≡ after_program (meant self.old) at.block at.page at.word bits }
        ensures words { self.new.words.now ≡ words_programmed self.old.words.now self.old.worn.now at.block at.page at.word bits }
        ensures kept { Kept self.old self.new }
    {
        match self.place(at) {
            Some(k) if self.sound(at.block) => {
                self.words[k] &= bits;
                Ok(())
            }
            _ => Err(Failed),
        }
    }

    #[tactic(auto, using(crate::proofs::Changes::erased_is))]
    fn erase(&mut self, block: usize) -> Result<(), Failed>
        ensures value { result ≡ outcome_of (erasable (meant self.old) block) }
        ensures after { meant self.new ≡ after_erase (meant self.old) block }
        ensures words { self.new.words.now ≡ words_erased self.old.words.now self.old.worn.now block }
        ensures kept { Kept self.old self.new }
    {
        if !self.sound(block) {
            return Err(Failed);
        }
        fill(self.words, block * BLOCK_WORDS, BLOCK_WORDS, BLANK);
        Ok(())
    }

    ghost capped = { λ s. capped s.words.now s.worn.now };

    ghost narrow = { λ s. narrow s.words.now s.worn.now };
}
