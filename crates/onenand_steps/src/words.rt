// Single words: of a list, and between the array and DataRAM.
ghost use Rattle.std.specs.Prelude.{◌≡◌, ◌+◌, slice_index, slice_set};
ghost use Rattle.flash.specs.Meaning.{word_at, outcome_of, programmable, after_program};
ghost use Rattle.onenand_steps.specs.Moves.{moved_well, moved_data, moved_array};

use flash::{Array, Failed, Location};
use onenand_rows::{Row, Way};

// The word at i, and 0 past the end.
pub(crate) fn word_at(words: &[u16], i: usize) -> u16
    ensures { result ≡ slice_index words.now i }
{
    words.get(i).copied().unwrap_or(0)
}

// Writes the word at i, and nothing past the end.
pub fn set_word(words: &mut [u16], i: usize, w: u16)
    ensures { words.new ≡ slice_set words.old i w }
{
    // Stays: of a write through a slice's `get_mut` no proof learns what the items are.
    if i < words.len() {
        words[i] = w;
    }
}

// Loads a word of the array into DataRAM.
// Stays: DataRAM and a place in it go together here and below. One value of both is what a slice's `get_mut` lends, and of a
// write through that no proof learns what the words are.
pub(crate) fn load<D: Array>(array: &mut D, at: Location, dataram: &mut [u16], place: usize)
    ensures words { dataram.new ≡ slice_set dataram.old place (word_at (D.meaning array.old) at.block at.page at.word) }
    ensures flash { D.meaning array.new ≡ D.meaning array.old }
{
    set_word(dataram, place, array.read(at));
}

// Programs a word of DataRAM into the array, if the array takes it.
pub(crate) fn program<D: Array>(
    array: &mut D,
    at: Location,
    dataram: &[u16],
    place: usize,
) -> Result<(), Failed>
    ensures value { result ≡ outcome_of (programmable (D.meaning array.old) at.block at.page at.word) }
    ensures flash { D.meaning array.new ≡ after_program (D.meaning array.old) at.block at.page at.word (slice_index dataram.now place) }
{
    array.program(at, word_at(dataram, place))
}

// Moves word o of a row, if the array takes it.
// Stays: a match on the way of a row, which is data that the row keeps.
pub fn move_word<D: Array>(
    array: &mut D,
    dataram: &mut [u16],
    row: Row,
    o: u16,
) -> Result<(), Failed>
    ensures value { result ≡ outcome_of (moved_well (D.meaning array.old) row.block row.page (row.word + o) row.way) }
    ensures words { dataram.new ≡ moved_data dataram.old (D.meaning array.old) row.block row.page (row.word + o) (row.«data» + o) row.way }
    ensures flash { D.meaning array.new ≡ moved_array dataram.old (D.meaning array.old) row.block row.page (row.word + o) (row.«data» + o) row.way }
{
    let at = row.location(o);
    let place = row.place(o);
    match row.way {
        Way::Load => {
            load(array, at, dataram, place);
            Ok(())
        }
        Way::Program => program(array, at, dataram, place),
    }
}
