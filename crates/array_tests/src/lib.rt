// What a caller that lends its memory to an array finds in it afterwards, and the arrays at the edges of their sizes.
#![tactic(auto)]

ghost use Rattle.std.specs.Prelude.{◌≡◌};
ghost use Rattle.image.specs.Contents.{words_programmed as image_programmed, words_erased as image_erased};
ghost use Rattle.sheets.specs.Contents.{sheets_programmed, words_programmed as sheet_words_programmed, sheets_erased};

use flash::{Array, Location};
use image::Image;
use sheets::{Sheet, Sheets};

// Programs one word of an image and erases another block of it.
pub fn change_image<'a>(words: &'a mut [u16], worn: &'a [u8], at: Location, bits: u16, other: usize)
    ensures { words.new ≡ image_erased (image_programmed words.old worn.now at.block at.page at.word bits) worn.now other }
{
    let mut image = Image::new(words, worn);
    let _ = image.program(at, bits);
    let _ = image.erase(other);
}

// Programs one word of a sheet array.
pub fn program_sheets<'a>(
    count: usize,
    sheets: &'a mut [Sheet],
    words: &'a mut [u16],
    at: Location,
    bits: u16,
)
    ensures sheets { sheets.new ≡ sheets_programmed count sheets.old words.old at.block at.page at.word }
    ensures words { words.new ≡ sheet_words_programmed count sheets.old words.old at.block at.page at.word bits }
{
    let mut array = Sheets::new(count, sheets, words);
    let _ = array.program(at, bits);
}

// Erases one block of a sheet array.
pub fn erase_sheets<'a>(count: usize, sheets: &'a mut [Sheet], words: &'a mut [u16], block: usize)
    ensures sheets { sheets.new ≡ sheets_erased count sheets.old words.old block }
    ensures words { words.new ≡ words.old }
{
    let mut array = Sheets::new(count, sheets, words);
    let _ = array.erase(block);
}

#[cfg(test)]
mod tests {
    use flash::{
        Array, BLANK, BLOCK_WORDS, Failed, Location, MAX_BLOCKS, PAGE_WORDS, main_word, spare_word,
    };
    use image::{Image, ImageFault};
    use sheets::{MAX_SHEETS, Sheet, SheetFault, Sheets};
    use std::test::Fail;

    // A blank sheet for the first page.
    const SHEET: Sheet = Sheet {
        block: 0,
        page: 0,
        written: 0,
    };

    // A word of a page of a block.
    fn at(block: usize, page: usize, word: usize) -> Location
        ensures { result ≡ record { block = block; page = page; word = word } }
    {
        Location { block, page, word }
    }

    // An array of no blocks reads blank and takes nothing.
    #[test]
    fn no_blocks(rt: HostRuntime) {
        assert_eq!(rt; image::check(&[], &[]), Ok(()));
        assert_eq!(rt; image::check(&[0], &[]), Err(ImageFault::Words));
        assert_eq!(rt; image::check(&[], &[0]), Err(ImageFault::Worn));
        let mut words = [0u16; 1];
        let mut array = Image::new(&mut words, &[]);
        assert_eq!(rt; array.count(), 0);
        assert_eq!(rt; array.read(at(0, 0, 0)), BLANK);
        assert_eq!(rt; array.program(at(0, 0, 0), 0), Err(Failed));
        assert_eq!(rt; array.erase(0), Err(Failed));
        assert_eq!(rt; words[0], 0);
    }

    // 256 blocks are the most, and the last word of a block stands at 33,791 in it.
    #[test]
    fn most_blocks(rt: HostRuntime) -> Result<(), Fail> {
        let mut words = vec![in rt.alloc(); BLANK; MAX_BLOCKS * BLOCK_WORDS]?;
        let worn = [0u8; MAX_BLOCKS];
        assert_eq!(rt; words.len(), 8_650_752);
        assert_eq!(rt; image::check(words.as_slice(), &worn), Ok(()));
        let mut array = Image::new(words.as_mut_slice(), &worn);
        assert_eq!(rt; array.count(), 256);
        assert_eq!(rt; array.program(at(255, 63, 527), 0x1234), Ok(()));
        assert_eq!(rt; array.program(at(256, 0, 0), 0), Err(Failed));
        assert_eq!(rt; array.program(at(255, 64, 0), 0), Err(Failed));
        assert_eq!(rt; array.program(at(255, 63, 528), 0), Err(Failed));
        assert_eq!(rt; words.get(255 * 33_792 + 33_791).copied(), Some(0x1234));
        Ok(())
    }

    // 257 blocks are too many.
    #[test]
    fn too_many_blocks(rt: HostRuntime) -> Result<(), Fail> {
        let words = vec![in rt.alloc(); BLANK; (MAX_BLOCKS + 1) * BLOCK_WORDS]?;
        let worn = [0u8; MAX_BLOCKS + 1];
        assert_eq!(rt;
            image::check(words.as_slice(), &worn),
            Err(ImageFault::Words)
        );
        Ok(())
    }

    // 64 sheets are the most; each page has one, and a scratch of 64 bytes a block shows which.
    #[test]
    fn most_sheets(rt: HostRuntime) -> Result<(), Fail> {
        let mut words = [BLANK; MAX_SHEETS * PAGE_WORDS];
        let mut list = [SHEET; MAX_SHEETS];
        for (sheet, page) in list.iter_mut().zip(0..) {
            sheet.page = page;
        }
        let mut scratch = [7u8; 65];
        assert_eq!(rt; sheets::check(1, &list, &words, &mut scratch), Ok(()));
        assert_eq!(rt; (scratch[0], scratch[63], scratch[64]), (1, 1, 7));
        let mut array = Sheets::new(1, &mut list, &mut words);
        assert_eq!(rt; array.program(at(0, 63, 527), 0x00FF), Ok(()));
        assert_eq!(rt; array.read(at(0, 63, 527)), 0x00FF);
        assert_eq!(rt; array.read(at(0, 63, 526)), BLANK);
        Ok(())
    }

    // One sheet more is too many, and a scratch that is a byte short is left as it was.
    #[test]
    fn too_many_sheets(rt: HostRuntime) {
        let mut scratch = [7u8; 63];
        let list = [SHEET; MAX_SHEETS + 1];
        let words = [BLANK; (MAX_SHEETS + 1) * PAGE_WORDS];
        assert_eq!(rt;
            sheets::check(1, &list, &words, &mut scratch),
            Err(SheetFault::Lists)
        );
        assert_eq!(rt;
            sheets::check(1, &[SHEET], &[BLANK; PAGE_WORDS], &mut scratch),
            Err(SheetFault::Scratch)
        );
        assert_eq!(rt; scratch[0], 7);
    }

    // A page named twice stops the check there, with the good pages before it marked; the first sheet counts.
    #[test]
    fn repeated_page(rt: HostRuntime) {
        let mut words = [0x5555u16; 2 * PAGE_WORDS];
        let mut list = [
            Sheet {
                block: 1,
                page: 2,
                written: 9,
            },
            Sheet {
                block: 1,
                page: 2,
                written: 0,
            },
        ];
        let mut scratch = [7u8; 128];
        assert_eq!(rt;
            sheets::check(2, &list, &words, &mut scratch),
            Err(SheetFault::Page)
        );
        assert_eq!(rt; scratch[66], 1);
        assert_eq!(rt; scratch[67], 0);
        let mut array = Sheets::new(2, &mut list, &mut words);
        assert_eq!(rt; array.read(at(1, 2, 0)), 0x5555);
        assert_eq!(rt; array.erase(1), Ok(()));
        assert_eq!(rt; array.read(at(1, 2, 0)), BLANK);
        assert_eq!(rt; list[1].written, 0);
        assert_eq!(rt; words[0], 0x5555);
    }

    // The sectors' words in a page.
    #[test]
    fn sectors(rt: HostRuntime) {
        assert_eq!(rt; main_word(1, 255), Some(511));
        assert_eq!(rt; spare_word(0, 0), Some(512));
        assert_eq!(rt; spare_word(1, 7), Some(527));
        assert_eq!(rt; spare_word(1, 8), None);
        assert_eq!(rt; main_word(2, 0), None);
    }
}
