// The reader of a script, which gives it line by line.
ghost use Rattle.std.specs.Prelude.{◌≡◌, ◌+◌, ◌^◌, ◌<◌, ◌≤◌, length};
ghost use Rattle.std.specs.List.{before_first, after_first, position_or_len};
ghost use Rattle.std.specs.Iterator.{item_count};
ghost use Rattle.script_forms.specs.Lines.{lines_of, is_feed};

use crate::parts::Line;

// What has yet to be read of a script, and how many lines have been: with the bytes that are left these are fewer than 2^63,
// as the bytes of a script are.
// Stays: a ghost field and no model, since of a model callers see its value alone, and no fact of every reader.
#[derive(Drop)]
pub struct Reader<'a> {
    rest: &'a [u8],
    lines: usize,
    ghost countable: { lines + length rest.now < 2 ^ 63 },
}

// How many bytes a script's first line has, without its line feed.
fn line_len(script: &[u8]) -> usize
    ensures value { result ≡ position_or_len is_feed script.now }
    ensures bound { result ≤ length script.now }
{
    script
        .iter()
        .position(|b| *b == b'\n')
        .unwrap_or(script.len())
}

// A script's first line without its line feed, and what comes after that.
fn split_line(script: &[u8]) -> (&[u8], &[u8])
    ensures line { result.0.now ≡ before_first is_feed script.now }
    ensures rest { result.1.now ≡ after_first is_feed script.now }
{
    let end = line_len(script);
    (&script[..end], script.get(end + 1..).unwrap_or(&[]))
}

impl<'a> Reader<'a> {
    ghost use Rattle.script_forms.specs.Parts.{left};

    // A reader at the script's start.
    pub fn new(script: &'a [u8]) -> Reader<'a>
        ensures left { left result ≡ lines_of script.now }
        ensures lines { result.lines ≡ 0 }
    {
        Reader {
            rest: script,
            lines: 0,
        }
    }
}

// The lines with their numbers; at the end nothing, and the reader stays there.
impl<'a> Iterator for Reader<'a> {
    ghost use Rattle.script_forms.specs.Parts.{left, GivesLine};

    type Item = Line<'a>;

    ghost next_gives = { GivesLine };

    ghost remaining = { item_count left };

    #[tactic(auto, using(crate::proofs::FirstLine::first_line))]
    fn next(&mut self) -> Option<Line<'a>> {
        if self.rest.is_empty() {
            return None;
        }
        let (bytes, rest) = split_line(self.rest);
        self.rest = rest;
        self.lines += 1;
        Some(Line {
            bytes,
            number: self.lines,
        })
    }
}
