// What a script consists of: parts of the caller's bytes, each with its place.

// A line and a column, both counted from 1, the column in bytes.
#[derive(Clone, Copy, PartialEq, Eq, Debug)]
pub struct Place {
    pub line: usize,
    pub column: usize,
}

// Some bytes of a line, and where they begin.
#[derive(Clone, Copy, PartialEq, Eq, Debug)]
pub struct Part<'a> {
    pub bytes: &'a [u8],
    pub place: Place,
}

// A line without its line feed, and its number from 1.
#[derive(Clone, Copy, PartialEq, Eq, Debug)]
pub struct Line<'a> {
    pub bytes: &'a [u8],
    pub number: usize,
}

// The five kinds of forms, with their numbers as they stand in the line.
#[derive(Clone, Copy, PartialEq, Eq, Debug)]
pub enum Kind<'a> {
    // A read of an address.
    Read(Part<'a>),
    // A write of a word to an address.
    Write(Part<'a>, Part<'a>),
    // Some ticks.
    Tick(Part<'a>),
    Warm,
    Cold,
}

// A form, which is a whole line.
#[derive(Clone, Copy, PartialEq, Eq, Debug)]
pub struct Form<'a> {
    pub part: Part<'a>,
    pub kind: Kind<'a>,
}
