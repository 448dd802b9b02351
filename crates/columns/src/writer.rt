// Numbers written right-justified in columns.

ghost use Rattle.std.specs.Prelude.{◌≡◌, length};
ghost use Rattle.columns.specs.Writing.{lead, columns, int_columns};

// What stands before the first digit: blanks, and the minus in the last column.
#[tactic(auto, unfolding(crate::specs::Writing::lead), using(crate::proofs::Fields::lead_minus, crate::proofs::Fields::lead_none))]
fn write_lead(part: &mut [u8], minus: bool)
    ensures { part.new ≡ lead minus (length part.old) }
{
    part.fill(b' ');
    if minus && 0 < part.len() {
        part[part.len() - 1] = b'-';
    }
}

/// A number behind a minus or not, right-justified in the whole part. A number that does not fit
/// loses what stands first.
pub fn write_columns(part: &mut [u8], minus: bool, value: u64)
    ensures { part.new ≡ columns minus (length part.old) value }
{
    let mut rest = value;
    for i in (0..part.len()).rev() {
        part[i] = b'0' + (rest % 10) as u8;
        if rest < 10 {
            write_lead(&mut part[..i], minus);
            return;
        }
        rest /= 10;
    }
}

/// A whole number right-justified in the whole part.
pub fn write_whole(part: &mut [u8], value: i32)
    ensures { part.new ≡ int_columns (length part.old) value }
{
    write_columns(part, value < 0, value.unsigned_abs() as u64);
}
