// What a line asks, or where it stops being a form.
ghost use Rattle.std.specs.Prelude.{◌≡◌, ℕ, ◌+◌, ◌≤◌, length};
ghost use Rattle.script_forms.specs.Grammar.{form_of};
ghost use Rattle.script_forms.specs.Parts.{meant, place_in, Four, Whole, InPlace};

use crate::parts::{Form, Kind, Line, Part, Place};
use crate::shapes::{COLD, READ, TICK, WARM, WRITE, begun, has_shape};

impl<'a> Line<'a> {
    // The place of the line's byte i, from 0; that past its last byte is the place past its end.
    fn place(self, i: usize) -> Place
        requires { i ≤ length self.bytes.now }
        ensures { result ≡ place_in self.entry i }
    {
        Place {
            line: self.number,
            column: i + 1,
        }
    }

    // The four bytes from i on.
    fn four(self, i: usize) -> Part<'a>
        requires { i + 4 ≤ length self.bytes.now }
        ensures { Four self.entry i result }
    {
        Part {
            bytes: &self.bytes[i..i + 4],
            place: self.place(i),
        }
    }

    // The form of a kind that the line is.
    fn whole(self, kind: Kind<'a>) -> Form<'a>
        ensures part { Whole self.entry result.part }
        ensures kind { result.kind ≡ kind.entry }
    {
        Form {
            part: Part {
                bytes: self.bytes,
                place: self.place(0),
            },
            kind,
        }
    }

    // The form that the line is, or the first place at which no form can go on.
    pub fn form(self) -> Result<Form<'a>, Place>
        ensures meant { meant result ≡ form_of self.entry.bytes.now }
        ensures place { InPlace self.entry result }
    {
        let bytes = self.bytes;
        let kind = if has_shape(READ, bytes) {
            Kind::Read(self.four(7))
        } else if has_shape(WRITE, bytes) {
            Kind::Write(self.four(8), self.four(13))
        } else if has_shape(TICK, bytes) {
            Kind::Tick(self.four(7))
        } else if has_shape(WARM, bytes) {
            Kind::Warm
        } else if has_shape(COLD, bytes) {
            Kind::Cold
        } else {
            return Err(self.place(begun(bytes)));
        };
        Ok(self.whole(kind))
    }
}
