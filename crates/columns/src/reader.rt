// Numbers right-justified in columns, read.

ghost use Rattle.std.specs.Prelude.{ℕ, ◌≡◌, ◌<◌, unwrap_or};
ghost use Rattle.std.specs.Option.{ForSome};
ghost use Rattle.columns.specs.Reading.{digit_of, started, grown, next, read_columns};

// A number of nine digits is full. A number above this has nine.
const MOST_OF_EIGHT: u32 = 99_999_999;

/// What is read so far: blanks only, a minus, a number behind a minus or not, or no number in its
/// columns.
#[derive(Clone, Copy, Debug, PartialEq, Eq)]
pub enum Reading {
    Blank,
    Minus,
    Number { minus: bool, value: u32 },
    Malformed,
}

// The value of a digit.
fn digit(b: u8) -> Option<u32>
    ensures value { unwrap_or result 10 ≡ digit_of b }
    ensures low { ForSome result (λ (d : ℕ). d < 10) }
{
    match b {
        b'0'..=b'9' => Some((b - b'0') as u32),
        _ => None,
    }
}

// A number's first digit; no zero stands behind a minus.
#[tactic(auto, unfolding(crate::specs::Reading::started))]
fn start(minus: bool, b: u8) -> Reading
    ensures { result ≡ started minus (digit_of b) }
{
    match digit(b) {
        Some(value) if !(minus && value == 0) => Reading::Number { minus, value },
        _ => Reading::Malformed,
    }
}

// A further digit; nothing follows a zero, and no tenth digit a ninth.
#[tactic(auto, unfolding(crate::specs::Reading::grown))]
fn grow(minus: bool, value: u32, b: u8) -> Reading
    ensures { result ≡ grown minus value (digit_of b) }
{
    match digit(b) {
        Some(d) if value != 0 && value <= MOST_OF_EIGHT => Reading::Number {
            minus,
            value: value * 10 + d,
        },
        _ => Reading::Malformed,
    }
}

// One byte more.
#[tactic(auto, unfolding(crate::specs::Reading::next))]
fn next(reading: Reading, b: u8) -> Reading
    ensures { result ≡ next reading b }
{
    match reading {
        Reading::Blank => match b {
            b' ' => Reading::Blank,
            b'-' => Reading::Minus,
            _ => start(false, b),
        },
        Reading::Minus => start(true, b),
        Reading::Number { minus, value } => grow(minus, value, b),
        Reading::Malformed => Reading::Malformed,
    }
}

/// The number in the columns, read from the left.
#[tactic(auto, unfolding(crate::specs::Reading::read_from), using(crate::proofs::Steps::read_step))]
pub fn read_columns(s: &[u8]) -> Reading
    ensures { result ≡ read_columns s.now }
{
    let mut reading = Reading::Blank;
    for &b in s {
        reading = next(reading, b);
    }
    reading
}
