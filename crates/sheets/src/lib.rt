// The sheet array: a flash array of which only some pages are there, each a sheet that the caller lends with its words.
#![tactic(auto)]

ghost use Rattle.std.specs.Prelude.{◌≡◌, ℕ, ◌+◌, ◌*◌, ◌<◌, ◌≤◌, true, [], map, length, take, is_ok, if◌then◌else◌, ◌==◌, slice_set};
ghost use Rattle.std.specs.List.{position};
ghost use Rattle.flash.specs.Geometry.{block_pages};
ghost use Rattle.flash.specs.Meaning.{word_at, outcome_of, programmable, after_program, erasable, after_erase};
ghost use Rattle.flash.specs.Refusals.{refusal};
ghost use Rattle.sheets.specs.Pages.{is_of};
ghost use Rattle.sheets.specs.Checks.{number_of, lists_fit, byte_of, good_sheets, marked, cleared, good_now, page_found, sheet_check, scratch_after};
ghost use Rattle.sheets.specs.Contents.{seat_of, written, sheets_programmed, words_programmed, unmarked as without_mark, sheets_erased};
ghost use Rattle.sheets.specs.Bounds.{capped, narrow};
ghost use Rattle.sheets.specs.Held.{meant, Kept};
ghost use Rattle.sheets.specs.Laws.{OwnsPage};

use flash::{Array, BLANK, BLOCK_PAGES, Failed, Location, MAX_BLOCKS, Numbered, PAGE_WORDS, fill};

// The most sheets in a list.
pub const MAX_SHEETS: usize = 64;

// A page that is there: which one it is, and whether anything was programmed since its last erase (not 0).
// Stays: the mark is a byte, since any but 0 counts and is left as it is; a `bool` would ask more of callers.
#[derive(Clone, Copy, PartialEq, Eq, Debug)]
pub struct Sheet {
    pub block: u16,
    pub page: u16,
    pub written: u8,
}

impl Sheet {
    // Whether the sheet is of this page.
    fn is_of(self, block: usize, page: usize) -> bool
        ensures { result ≡ is_of block page self }
    {
        self.block as usize == block && self.page as usize == page
    }

    // The sheet, its mark cleared if it is of this block.
    fn unmarked(self, block: usize) -> Sheet
        ensures { result ≡ without_mark block self }
    {
        if self.block as usize == block {
            Sheet { written: 0, ..self }
        } else {
            self
        }
    }

    // Sets the mark if it is 0, and says whether it was.
    fn open(&mut self) -> bool
        ensures fresh { result ≡ (self.old.written == 0) }
        ensures sheet { self.new ≡ (if self.old.written == 0 then written self.old else self.old) }
    {
        let fresh = self.written == 0;
        if fresh {
            self.written = 1;
        }
        fresh
    }

    // The byte of the sheet's page in the scratch.
    fn byte(self) -> usize
        ensures { result ≡ byte_of self }
    {
        self.block as usize * BLOCK_PAGES + self.page as usize
    }
}

// Why a list of sheets is turned away, by the numbers that the rules give.
#[derive(Clone, Copy, PartialEq, Eq, Debug)]
pub enum SheetFault {
    // Too many blocks or sheets, or not a page of words a sheet.
    Lists = 3,
    // The scratch has not a byte for each page.
    Scratch = 4,
    // A sheet's page is not in the array, or has a sheet already.
    Page = 5,
}

impl Numbered for SheetFault {
    ghost number_of = { number_of };

    fn number(self) -> u8 {
        self as u8
    }
}

// The first sheet of a page.
// Stays: a walk, since the caller's sheets stand in any order, and an array has no memory for an index of them.
fn find(sheets: &[Sheet], block: usize, page: usize) -> Option<usize>
    ensures { result ≡ position (is_of block page) sheets.now }
{
    sheets.iter().position(|s| s.is_of(block, page))
}

// Whether an array can be made of the lists.
fn lists_fit(count: usize, sheets: &[Sheet], words: &[u16]) -> bool
    ensures { result ≡ lists_fit count sheets.now words.now }
{
    count <= MAX_BLOCKS && sheets.len() <= MAX_SHEETS && words.len() == sheets.len() * PAGE_WORDS
}

// Clears the marks of a block's sheets.
#[tactic(auto, using(crate::proofs::Changes::unmark_more))]
fn unmark(sheets: &mut [Sheet], block: usize)
    ensures { sheets.new ≡ map (without_mark block) sheets.old }
{
    for sheet in sheets {
        *sheet = sheet.unmarked(block);
    }
}

// An array of `count` blocks, of which the pages that have a sheet are there.
// Stays: sheets and their words side by side, since the caller lends them so and the array has no memory of its own.
#[derive(Drop)]
pub struct Sheets<'a> {
    count: usize,
    sheets: &'a mut [Sheet],
    words: &'a mut [u16],
}

impl<'a> Sheets<'a> {
    // Lists that do not fit each other make an array of no blocks.
    pub fn new(count: usize, sheets: &'a mut [Sheet], words: &'a mut [u16]) -> Sheets<'a>
        ensures size { result.count ≡ count }
        ensures sheets { result.sheets.now ≡ sheets.old }
        ensures words { result.words.now ≡ words.old }
        ensures lender { result.sheets.ghost_name ≡ sheets.entry.ghost_name }
        ensures owner { result.words.ghost_name ≡ words.entry.ghost_name }
        ensures count { (meant result).count ≡ (if lists_fit count sheets.old words.old then count else 0) }
    {
        Sheets {
            count,
            sheets,
            words,
        }
    }

    // The sheet that has the word.
    #[tactic(auto, using(crate::proofs::Finding::found))]
    fn seat(&self, at: Location) -> Option<usize>
        ensures { result ≡ seat_of self.now.count self.now.sheets.now self.now.words.now at.block at.page at.word }
    {
        if at.block < self.count() && at.page < BLOCK_PAGES && at.word < PAGE_WORDS {
            find(self.sheets, at.block, at.page)
        } else {
            None
        }
    }
}

// Each method says the trait's clauses in terms of what the array holds, and what becomes of the caller's sheets and words.
// Stays: a method's own clauses stand in place of the trait's, so each repeats those.
impl Array for Sheets<'_> {
    ghost meaning = { meant };

    // How many blocks the lists make.
    fn count(&self) -> usize {
        if lists_fit(self.count, self.sheets, self.words) {
            self.count
        } else {
            0
        }
    }

    fn read(&mut self, at: Location) -> u16
        ensures value { result ≡ word_at (meant self.old) at.block at.page at.word }
        ensures same { meant self.new ≡ meant self.old }
        ensures sheets { self.new.sheets.now ≡ self.old.sheets.now }
        ensures words { self.new.words.now ≡ self.old.words.now }
        ensures kept { Kept self.old self.new }
    {
        match self.seat(at) {
            Some(k) if self.sheets[k].written != 0 => self.words[k * PAGE_WORDS + at.word],
            _ => BLANK,
        }
    }

    #[tactic(auto, using(crate::proofs::Changes::programmed_is))]
    fn program(&mut self, at: Location, bits: u16) -> Result<(), Failed>
        ensures value { result ≡ outcome_of (programmable (meant self.old) at.block at.page at.word) }
        ensures after { meant self.new ≡ after_program (meant self.old) at.block at.page at.word bits }
        ensures sheets { self.new.sheets.now ≡ sheets_programmed self.old.count self.old.sheets.now self.old.words.now at.block at.page at.word }
        ensures words { self.new.words.now ≡ words_programmed self.old.count self.old.sheets.now self.old.words.now at.block at.page at.word bits }
        ensures kept { Kept self.old self.new }
    {
        let k = self.seat(at).ok_or(Failed)?;
        if self.sheets[k].open() {
            fill(self.words, k * PAGE_WORDS, PAGE_WORDS, BLANK);
        }
        self.words[k * PAGE_WORDS + at.word] &= bits;
        Ok(())
    }

    #[tactic(auto, using(crate::proofs::Changes::erased_is))]
    fn erase(&mut self, block: usize) -> Result<(), Failed>
        ensures value { result ≡ outcome_of (erasable (meant self.old) block) }
        ensures after { meant self.new ≡ after_erase (meant self.old) block }
        ensures sheets { self.new.sheets.now ≡ sheets_erased self.old.count self.old.sheets.now self.old.words.now block }
        ensures words { self.new.words.now ≡ self.old.words.now }
        ensures kept { Kept self.old self.new }
    {
        if block >= self.count() {
            return Err(Failed);
        }
        unmark(self.sheets, block);
        Ok(())
    }

    ghost capped = { λ s. capped s.count s.sheets.now s.words.now };

    ghost narrow = { λ s. narrow s.count s.sheets.now s.words.now };
}

// Which pages of `count` blocks have a sheet: a byte each in the caller's scratch, not 0 where one has.
#[derive(Drop)]
struct PageMap<'a> {
    count: usize,
    bytes: &'a mut [u8],
    ghost roomy: { count * block_pages ≤ length bytes.now },
}

impl PageMap<'_> {
    // Whether the sheet's page is in the array and no sheet has it yet.
    fn is_free(&self, sheet: Sheet) -> bool
        ensures { result ≡ good_now self.now.count self.now.bytes.now sheet }
    {
        (sheet.block as usize) < self.count
            && (sheet.page as usize) < BLOCK_PAGES
            && self.bytes[sheet.byte()] == 0
    }

    // Gives the sheet its page, if it is free.
    fn take(&mut self, sheet: Sheet) -> Result<(), SheetFault>
        ensures value { result ≡ page_found (good_now self.old.count self.old.bytes.now sheet) }
        ensures bytes { self.new.bytes.now ≡ (if good_now self.old.count self.old.bytes.now sheet then slice_set self.old.bytes.now (byte_of sheet) 1 else self.old.bytes.now) }
        ensures count { self.new.count ≡ self.old.count }
        ensures lender { self.new.bytes.ghost_name ≡ self.old.bytes.ghost_name }
    {
        if !self.is_free(sheet) {
            return Err(SheetFault::Page);
        }
        self.bytes[sheet.byte()] = 1;
        Ok(())
    }

    // Frees all pages, then gives each sheet its own, up to the first whose page is not free.
    #[tactic(auto, using(crate::proofs::Walks::walk_cleared, crate::proofs::Walks::walk_on, crate::proofs::Walks::walk_stops, crate::proofs::Walks::walk_ends))]
    fn take_each(&mut self, sheets: &[Sheet]) -> Result<(), SheetFault>
        ensures value { result ≡ page_found (good_sheets self.old.count [] sheets.now == length sheets.now) }
        ensures bytes { self.new.bytes.now ≡ marked (take (good_sheets self.old.count [] sheets.now) sheets.now) (cleared self.old.count self.old.bytes.now) }
        ensures lender { self.new.bytes.ghost_name ≡ self.old.bytes.ghost_name }
        ensures owned { is_ok result ≡ true → (k : ℕ) → k < length sheets.now → OwnsPage self.old.count sheets.now k }
    {
        fill(self.bytes, 0, self.count * BLOCK_PAGES, 0);
        for sheet in sheets {
            self.take(*sheet)?;
        }
        Ok(())
    }
}

// Whether the sheets are a sound list for `count` blocks: then each is the one that its page reads from. It works in a scratch of 64 bytes a block.
// Stays: `Sheets` holds what it may write, and this only reads, before there is an array, so to take one would ask more of
// the caller.
pub fn check(
    count: usize,
    sheets: &[Sheet],
    words: &[u16],
    scratch: &mut [u8],
) -> Result<(), SheetFault>
    ensures value { refusal number_of result ≡ sheet_check count sheets.now words.now scratch.old }
    ensures scratch { scratch.new ≡ scratch_after count sheets.now words.now scratch.old }
    ensures owned { is_ok result ≡ true → (k : ℕ) → k < length sheets.now → OwnsPage count sheets.now k }
{
    if !lists_fit(count, sheets, words) {
        return Err(SheetFault::Lists);
    }
    if scratch.len() < count * BLOCK_PAGES {
        return Err(SheetFault::Scratch);
    }
    let mut map = PageMap {
        count,
        bytes: scratch,
    };
    map.take_each(sheets)
}
