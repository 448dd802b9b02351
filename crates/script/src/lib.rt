//! Script lines, read into commands.

#![tactic(auto)]

ghost use Rattle.std.specs.Prelude.{ℕ, ◌≡◌, ◌≤◌, unwrap_or, is_some, pos};
ghost use Rattle.std.specs.Option.{ForSome};
ghost use Rattle.script.specs.Line.{highest_number, no_number, natural_of, is_whole, whole_of, is_mask};
ghost use Rattle.script.specs.Line.{field_of, shaped, size_line, post_line};
ghost use Rattle.script.specs.Line.{mask_at, masks_inside, round_line, command_of, masks_of};
ghost use Rattle.script.specs.declared.Command.TheVariants.{Malformed};

use columns::reader::Reading;

// The most stations of a group, and so the most fields of a line.
const MOST: usize = 16;

// The columns of a field.
const WIDTH: usize = 9;

/// What a line says. The masks of a round are read from the line by `masks`.
#[derive(Clone, Copy, Debug, PartialEq, Eq)]
pub enum Command {
    Size {
        n: usize,
    },
    Post {
        station: u32,
        kind: u32,
        event: u32,
        argument: i32,
    },
    Round,
    Malformed,
}

// The number in field k; the first stands behind the letter.
#[tactic(auto, unfolding(crate::specs::Line::field_of))]
fn field(line: &[u8], k: usize) -> Reading
    ensures { result ≡ field_of line.now k }
{
    if k < MOST && WIDTH * k + 1 + WIDTH <= line.len() {
        let start = WIDTH * k + 1;
        columns::reader::read_columns(&line[start..start + WIDTH])
    } else {
        Reading::Malformed
    }
}

// The number in field k, if it has no minus.
#[tactic(auto, using(crate::proofs::Values::field_nine))]
fn natural_at(line: &[u8], k: usize) -> Option<u32>
    ensures value { unwrap_or result no_number ≡ natural_of (field_of line.now k) }
    ensures nine { ForSome result (λ (v : ℕ). v ≤ highest_number) }
{
    match field(line, k) {
        Reading::Number {
            minus: false,
            value,
        } => Some(value),
        _ => None,
    }
}

// The number in field k with its sign.
#[tactic(auto, using(crate::proofs::Values::field_nine))]
fn whole_at(line: &[u8], k: usize) -> Option<i32>
    ensures found { is_some result ≡ is_whole (field_of line.now k) }
    ensures value { unwrap_or result (pos 0) ≡ whole_of (field_of line.now k) }
{
    match field(line, k) {
        Reading::Number { minus: true, value } => Some(-(value as i32)),
        Reading::Number {
            minus: false,
            value,
        } => Some(value as i32),
        _ => None,
    }
}

// The mask in field k.
#[tactic(auto, unfolding(crate::specs::Line::is_mask))]
fn mask(line: &[u8], k: usize) -> Option<u16>
    ensures found { is_some result ≡ is_mask (field_of line.now k) }
    ensures value { ForSome result (λ (m : ℕ). m ≡ natural_of (field_of line.now k)) }
{
    u16::try_from(natural_at(line, k)?).ok()
}

// Is the line a letter and n fields, and nothing else?
fn shaped(line: &[u8], letter: u8, n: usize) -> bool
    requires { n ≤ 16 }
    ensures { result ≡ shaped line.now letter n }
{
    line.len() == WIDTH * n + 1 && line[0] == letter
}

// An `N` line.
#[tactic(auto, unfolding(crate::specs::Line::size_line))]
fn size_line(line: &[u8]) -> Option<Command>
    ensures { unwrap_or result Malformed ≡ size_line line.now }
{
    let n = natural_at(line, 0)? as usize;
    if shaped(line, b'N', 1) && 1 <= n && n <= MOST {
        Some(Command::Size { n })
    } else {
        None
    }
}

// A `P` line.
#[tactic(auto, unfolding(crate::specs::Line::post_line, crate::specs::Line::post_shaped))]
fn post_line(line: &[u8]) -> Option<Command>
    ensures { unwrap_or result Malformed ≡ post_line line.now }
{
    if !shaped(line, b'P', 4) {
        return None;
    }
    Some(Command::Post {
        station: natural_at(line, 0)?,
        kind: natural_at(line, 1)?,
        event: natural_at(line, 2)?,
        argument: whole_at(line, 3)?,
    })
}

// Are the fields below n masks?
#[tactic(auto, unfolding(crate::specs::Line::masks_inside, lists::specs::Below::all_below), using(crate::proofs::Rounds::masks_fail))]
fn masks_inside(line: &[u8], n: usize) -> bool
    ensures { result ≡ masks_inside line.now n }
{
    for k in 0..n {
        if mask(line, k).is_none() {
            return false;
        }
    }
    true
}

// An `R` line of n masks.
#[tactic(auto, unfolding(crate::specs::Line::round_line), using(crate::proofs::Rounds::masks_over))]
fn round_line(line: &[u8], n: usize) -> Option<Command>
    ensures { unwrap_or result Malformed ≡ round_line n line.now }
{
    if n <= MOST && shaped(line, b'R', n) && masks_inside(line, n) {
        Some(Command::Round)
    } else {
        None
    }
}

/// What a line, without its line end, says to a group of n stations; n is 0 where no `N` line was
/// read.
#[tactic(auto, unfolding(crate::specs::Line::command_of), using(crate::proofs::Rounds::no_letter))]
pub fn read_line(line: &[u8], n: usize) -> Command
    ensures { result ≡ command_of n line.now }
{
    let command = if n == 0 {
        size_line(line)
    } else if line.first() == Some(&b'P') {
        post_line(line)
    } else {
        round_line(line, n)
    };
    command.unwrap_or(Command::Malformed)
}

// The mask of station k among n.
#[tactic(auto, unfolding(crate::specs::Line::mask_at))]
fn mask_at(line: &[u8], n: usize, k: usize) -> u16
    ensures { result ≡ mask_at line.now n k }
{
    if k < n { mask(line, k).unwrap_or(0) } else { 0 }
}

/// The masks of a round's line; those from n up are 0.
pub fn masks(line: &[u8], n: usize) -> [u16; 16]
    ensures { result ≡ masks_of n line.now }
{
    let mut made = [0; 16];
    for k in 0..16 {
        made[k] = mask_at(line, n, k);
    }
    made
}
