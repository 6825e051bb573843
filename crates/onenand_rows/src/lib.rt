// Rows: words of a transfer that stand one after another, in their page and in DataRAM alike. A tick that goes along a
// row need not work out where its word stands.
#![tactic(auto)]

ghost use Rattle.std.specs.Prelude.{◌≡◌, ◌+◌};
ghost use Rattle.onenand_rows.specs.Rows.{row_length, row_at, row_of, is_along, location_of, Suits};

use flash::Location;
use onenand_rules::plans::{Action, Running};
use onenand_transfer::{Part, Transfer};

// Which way the words of a row move.
#[derive(Clone, Copy, PartialEq, Eq, Debug)]
pub enum Way {
    // To DataRAM.
    Load,
    // To the array.
    Program,
}

// A row of words.
#[derive(Clone, Copy, PartialEq, Eq, Debug)]
pub struct Row {
    pub way: Way,
    // The tick that moves its first word, and how many ticks go along it.
    pub from: u16,
    pub length: u16,
    // The block and page that its words are of.
    pub block: u16,
    pub page: u16,
    // Where its first word stands in the page and in DataRAM.
    pub word: u16,
    pub data: u16,
}

// How many words of a transfer stand in a row, from word i on: the main words that are left of its sector.
fn length(t: Transfer, i: u16) -> u16
    ensures { result ≡ row_length t i }
{
    match t.part {
        Part::Whole if i < t.words() => 256u16.saturating_sub(i % 264),
        _ => 0,
    }
}

impl Row {
    // The row that begins with word i of a transfer, which tick k moves, if it is of any words.
    fn at(way: Way, t: Transfer, i: u16, k: u16) -> Option<Row>
        ensures { result ≡ row_at way t i k }
    {
        let length = length(t, i);
        if length == 0 {
            return None;
        }
        Some(Row {
            way,
            from: k,
            length,
            block: t.block,
            page: t.page_number(),
            word: t.page_word(i),
            data: t.buffer_word(i),
        })
    }

    // The row that the next tick begins, if it begins one.
    pub fn of(running: Running) -> Option<Row>
        ensures value { result ≡ row_of running }
        ensures suits { Suits result running }
    {
        let Running::Runs(plan, k) = running else {
            return None;
        };
        match plan.action(k) {
            Action::LoadWord(t, i) => Row::at(Way::Load, t, i, k),
            Action::ProgramWord(t, i) => Row::at(Way::Program, t, i, k),
            _ => None,
        }
    }

    // Whether tick k moves a word of the row.
    pub fn is_along(&self, k: u16) -> bool
        ensures { result ≡ is_along self.now k }
    {
        self.from <= k && k - self.from < self.length
    }

    // Where its word o stands in the array.
    pub fn location(&self, o: u16) -> Location
        ensures { result ≡ location_of self.now o }
    {
        Location {
            block: self.block as usize,
            page: self.page as usize,
            word: self.word as usize + o as usize,
        }
    }

    // Where its word o stands in DataRAM.
    pub fn place(&self, o: u16) -> usize
        ensures { result ≡ self.now.«data» + o }
    {
        self.data as usize + o as usize
    }
}
