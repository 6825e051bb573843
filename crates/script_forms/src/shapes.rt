// The shapes of the five forms, and how far a line agrees with one. In a shape # stands for a digit.
ghost use Rattle.std.specs.Prelude.{◌≡◌, ◌≤◌, length};
ghost use Rattle.script_forms.specs.Shapes.{is_digit, fits as fitting, agreed, has_shape, begun as begun_bytes};

pub(crate) const READ: &[u8] = b"(read (####))";

pub(crate) const WRITE: &[u8] = b"(write (#### ####))";

pub(crate) const TICK: &[u8] = b"(tick (####))";

pub(crate) const WARM: &[u8] = b"(warm)";

pub(crate) const COLD: &[u8] = b"(cold)";

const SHAPES: [&[u8]; 5] = [READ, WRITE, TICK, WARM, COLD];

// Whether a byte is a hexadecimal digit, upper-case.
fn is_digit(byte: u8) -> bool
    ensures { result ≡ is_digit byte }
{
    matches!(byte, b'0'..=b'9' | b'A'..=b'F')
}

// Whether a byte is as its shape has it.
fn fits(shape: u8, byte: u8) -> bool
    ensures { result ≡ fitting shape byte }
{
    match shape {
        b'#' => is_digit(byte),
        _ => shape == byte,
    }
}

// How many bytes at the front of a line are as the shape has them.
fn agreement(shape: &[u8], line: &[u8]) -> usize
    ensures value { result ≡ agreed shape.now line.now }
    ensures bound { result ≤ length line.now }
{
    shape
        .iter()
        .zip(line)
        .take_while(|(s, b)| fits(**s, **b))
        .count()
}

// Whether a line is of a shape, whole and with nothing after it.
pub(crate) fn has_shape(shape: &[u8], line: &[u8]) -> bool
    ensures { result ≡ has_shape shape.now line.now }
{
    line.len() == shape.len() && agreement(shape, line) == shape.len()
}

// How many bytes at the front of a line begin some form.
pub(crate) fn begun(line: &[u8]) -> usize
    ensures value { result ≡ begun_bytes line.now }
    ensures bound { result ≤ length line.now }
{
    SHAPES
        .iter()
        .map(|shape| agreement(shape, line))
        .max()
        .unwrap_or(0)
}
