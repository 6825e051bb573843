// Takes a calibration table through a flash array and prints what programming and erasing do to it: in an image, then in sheets.
#![tactic(auto)]

ghost use Rattle.std.specs.Prelude.{◌≡◌, [], ◌∷◌, Some, OnOk};
ghost use Rattle.array_tour.specs.Tables.{stored, four_words, four_text, told, toured};

use flash::{Array, BLANK, BLOCK_WORDS, Failed, Location, Numbered, PAGE_WORDS};
use image::Image;
use sheets::{Sheet, Sheets};
use std::{fmt, io};

// Four coefficients of a pump, and what a later program puts over them.
const TABLE: [u16; 4] = [0x1F40, 0x2EE0, 0x3E80, 0x4E20];

const OVER: [u16; 4] = [0x1FFF, 0xFF0F, 0x0000, 0xFFFF];

// A page of an array.
#[derive(Clone, Copy)]
struct Page {
    block: usize,
    page: usize,
}

// The page that the tables go into.
const TABLE_PAGE: Page = Page { block: 1, page: 4 };

impl Page {
    // Where word i of the page stands.
    fn word(self, i: usize) -> Location
        ensures { result ≡ record { block = self.block; page = self.page; word = i } }
    {
        Location {
            block: self.block,
            page: self.page,
            word: i,
        }
    }
}

// Four words, as they are printed.
#[derive(Clone, Copy)]
struct Four([u16; 4]);

impl fmt::Display for Four {
    ghost output = { λ it. Some (four_text it.0) };

    fn fmt<W: fmt::Write>(&self, f: &mut fmt::Formatter<W>) -> fmt::Result {
        let [a, b, c, d] = self.0;
        write!(f, "{a:04X} {b:04X} {c:04X} {d:04X}")
    }
}

// Programs the words of a table from the first word of a page on.
fn store<D: Array>(array: &mut D, page: Page, words: &[u16])
    ensures { D.meaning array.new ≡ stored (D.meaning array.old) page.block page.page 0 words.now }
{
    for (i, w) in words.iter().enumerate() {
        let _ = array.program(page.word(i), *w);
    }
}

// The first four words of a page.
fn read_four<D: Array>(array: &mut D, page: Page) -> [u16; 4]
    ensures value { result ≡ four_words (D.meaning array.old) page.block page.page }
    ensures same { D.meaning array.new ≡ D.meaning array.old }
{
    let mut four = [BLANK; 4];
    for (i, w) in four.iter_mut().enumerate() {
        *w = array.read(page.word(i));
    }
    four
}

// Whether an array did what it was asked, as it is told.
#[derive(Clone, Copy)]
struct Told(Result<(), Failed>);

impl fmt::Display for Told {
    ghost output = { λ it. Some (told it.0) };

    fn fmt<W: fmt::Write>(&self, f: &mut fmt::Formatter<W>) -> fmt::Result {
        match self.0 {
            Ok(()) => write!(f, "done"),
            Err(Failed) => write!(f, "failed"),
        }
    }
}

// Prints what was done, and the first four words of a page after it; the array stays as it is.
fn print_page<D: Array>(rt: &HostRuntime, what: &str, array: &mut D, page: Page) -> io::Result<()>
    ensures { D.meaning array.new ≡ D.meaning array.old }
{
    let words = Four(read_four(array, page));
    println!(rt; "  {what}: {words}")
}

// Prints what a check answered.
fn print_check<F: Numbered>(rt: &HostRuntime, answer: Result<(), F>) -> io::Result<()> {
    match answer {
        Ok(()) => println!(rt; "  check: passed"),
        Err(fault) => println!(rt; "  check: refused with {}", fault.number()),
    }
}

// Takes two tables through a page. Another page is dead, and block `beyond` is not there.
fn tour<D: Array>(rt: &HostRuntime, array: &mut D, dead: Page, beyond: usize) -> io::Result<()>
    ensures { OnOk result (D.meaning array.new ≡ toured (D.meaning array.old) 1 4 (0x1F40 ∷ 0x2EE0 ∷ 0x3E80 ∷ 0x4E20 ∷ []) (0x1FFF ∷ 0xFF0F ∷ 0 ∷ 0xFFFF ∷ []) dead.block dead.page beyond) }
{
    store(array, TABLE_PAGE, &TABLE);
    print_page(rt, "block 1, page 4, the table stored", array, TABLE_PAGE)?;
    store(array, TABLE_PAGE, &OVER);
    print_page(
        rt,
        "1FFF FF0F 0000 FFFF programmed over it",
        array,
        TABLE_PAGE,
    )?;
    let into_dead = Told(array.program(dead.word(0), 0));
    println!(rt;
        "  0000 into dead page {} of block {}: {into_dead}",
        dead.page, dead.block
    )?;
    print_page(rt, "the dead page", array, dead)?;
    let gone = Told(array.erase(beyond));
    println!(rt; "  erase of block {beyond}, which is not there: {gone}")?;
    let erased = Told(array.erase(TABLE_PAGE.block));
    println!(rt; "  erase of block 1: {erased}")?;
    print_page(rt, "block 1, page 4", array, TABLE_PAGE)
}

// An image of three blocks, the last of them worn.
fn with_image(rt: &HostRuntime) -> anyhow::Result<()> {
    let mut words = vec![in rt.alloc(); BLANK; 3 * BLOCK_WORDS]?;
    let worn = [0, 0, 1];
    println!(rt; "An image of 3 blocks; block 2 is worn.")?;
    print_check(rt, image::check(words.as_slice(), &worn))?;
    let mut array = Image::new(words.as_mut_slice(), &worn);
    tour(rt, &mut array, Page { block: 2, page: 0 }, 3)?;
    let worn_block = Told(array.erase(2));
    println!(rt; "  erase of worn block 2: {worn_block}")?;
    Ok(())
}

// A sheet array of two blocks, with a sheet for page 4 of block 1 alone.
fn with_sheets(rt: &HostRuntime) -> anyhow::Result<()> {
    let mut words = [0u16; PAGE_WORDS];
    let mut list = [Sheet {
        block: 1,
        page: 4,
        written: 0,
    }];
    let mut scratch = [0u8; 128];
    println!(rt; "Sheets for 2 blocks; page 4 of block 1 alone is there.")?;
    print_check(rt, sheets::check(2, &list, &words, &mut scratch))?;
    let dead = Page { block: 1, page: 5 };
    tour(rt, &mut Sheets::new(2, &mut list, &mut words), dead, 2)?;
    let mark = list[0].written;
    let stay = Four([words[0], words[1], words[2], words[3]]);
    println!(rt; "  the sheet's mark: {mark}; its words stay: {stay}")?;
    Ok(())
}

fn main(rt: HostRuntime) -> anyhow::Result<()> {
    with_image(&rt)?;
    with_sheets(&rt)
}
