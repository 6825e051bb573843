// Transfers between a page and DataRAM: which words move, in which order, and which sectors are taken meanwhile.
#![tactic(auto)]

ghost use Rattle.std.specs.Prelude.{◌≡◌, ℕ, ◌/◌, ◌%◌, ◌^◌, ◌<◌, ◌≤◌};
ghost use Rattle.onenand_transfer.specs.Transfers.{words as word_count, counted, sector_word, buffer_sector, page_of, page_word, buffer_word, sector_of, chosen};

// Words of a sector: main words, then spare words.
const MAIN: u16 = 256;

const SPARE: u16 = 8;

const SECTOR: u16 = MAIN + SPARE;

// What moves of a sector.
#[derive(Clone, Copy, PartialEq, Eq, Debug)]
pub enum Part {
    // 256 main words, then 8 spare words.
    Whole,
    // The 8 spare words alone.
    Spare,
}

// A transfer, by the registers that it took: F100h, F107h and F200h, or F102h, F103h and F200h.
#[derive(Clone, Copy, PartialEq, Eq, Debug)]
pub struct Transfer {
    pub block: u16,
    // The page and its first sector, as the register has them.
    pub page: u16,
    // The choice of buffer sectors.
    pub buffer: u16,
    pub part: Part,
}

impl Part {
    // Word i that moves: which of the sectors it is of, the first or the second, and which word of it.
    fn sector_and_word(self, i: u16) -> (u16, u16)
        ensures value { result ≡ (counted self i / 264, counted self i % 264) }
        ensures low { (result.0 < 2 ^ 13) × (result.1 < 264) }
    {
        match self {
            Part::Whole => (i / SECTOR, i % SECTOR),
            Part::Spare => (i / SPARE, MAIN + i % SPARE),
        }
    }
}

// Word o of sector s, of n sectors.
fn sector_word(n: u16, s: u16, o: u16) -> u16
    requires { (n ≤ 4) × (s < 4) × (o < 264) }
    ensures { result ≡ sector_word n s o }
{
    if o < MAIN {
        MAIN * s + o
    } else {
        MAIN * n + (SPARE * s + (o - MAIN))
    }
}

// The sector that a DataRAM word lies in.
fn sector_of(x: u16) -> u16
    ensures { result ≡ sector_of x }
{
    if x < 4 * MAIN {
        x / MAIN
    } else {
        (x - 4 * MAIN) / SPARE
    }
}

impl Transfer {
    // How many words move.
    // Stays: a number that knows its bounds would be opened at each sum and each comparison; two clauses say the same of the
    // plain number.
    #[tactic(auto, unfolding(crate::specs::Transfers::size))]
    pub fn words(self) -> u16
        ensures value { result ≡ word_count self }
        ensures some { 0 < result }
        ensures few { result ≤ 528 }
    {
        let sectors = 2 - self.buffer % 2;
        match self.part {
            Part::Whole => SECTOR * sectors,
            Part::Spare => SPARE * sectors,
        }
    }

    // The page that its words are of.
    pub fn page_number(self) -> u16
        ensures { result ≡ page_of self.page }
    {
        self.page / 4
    }

    // Where word i that moves stands in its page.
    #[tactic(auto, unfolding(crate::specs::Transfers::page_word))]
    pub fn page_word(self, i: u16) -> u16
        ensures { result ≡ page_word self.part self.page i }
    {
        let (j, o) = self.part.sector_and_word(i);
        sector_word(2, (self.page % 2 + j) % 2, o)
    }

    // Where it stands in DataRAM.
    #[tactic(auto, unfolding(crate::specs::Transfers::buffer_word))]
    pub fn buffer_word(self, i: u16) -> u16
        ensures { result ≡ buffer_word self.part self.buffer i }
    {
        let (j, o) = self.part.sector_and_word(i);
        sector_word(4, self.buffer_sector(j), o)
    }

    // The sector of DataRAM that is used first (0) or second (1).
    fn buffer_sector(self, j: u16) -> u16
        requires { j < 2 ^ 13 }
        ensures value { result ≡ buffer_sector self.buffer j }
        ensures low { result < 4 }
    {
        let f = self.buffer;
        2 * (f / 1024 % 2) + (f / 256 % 2 + j) % 2
    }

    // Whether a DataRAM word lies in a sector of the transfer, which is taken while it runs.
    #[tactic(auto, unfolding(crate::specs::Transfers::chosen))]
    pub fn takes(self, x: u16) -> bool
        ensures { result ≡ chosen self.buffer x }
    {
        let s = sector_of(x);
        s == self.buffer_sector(0) || self.buffer % 2 == 0 && s == self.buffer_sector(1)
    }
}
