// What the four digits of a number are worth.
ghost use Rattle.std.specs.Prelude.{◌≡◌, ◌<◌};
ghost use Rattle.script_forms.specs.Grammar.{digit_of, worth as worth_of};

use crate::parts::Part;

// The worth of a digit, and 0 for any other byte.
fn digit(byte: u8) -> u16
    ensures value { result ≡ digit_of byte }
    ensures bound { result < 16 }
{
    match byte {
        b'0'..=b'9' => u16::from(byte - b'0'),
        b'A'..=b'F' => u16::from(byte - b'A') + 10,
        _ => 0,
    }
}

impl<'a> Part<'a> {
    // What the first four bytes are worth as hexadecimal digits.
    pub fn worth(self) -> u16
        ensures { result ≡ worth_of self.entry.bytes.now }
    {
        let digit_at = |i: usize| digit(self.bytes.get(i).copied().unwrap_or(0));
        digit_at(0) * 4096 + digit_at(1) * 256 + digit_at(2) * 16 + digit_at(3)
    }
}
