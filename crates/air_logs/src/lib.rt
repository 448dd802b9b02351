// The comparison of two air logs: the form of a listing, its lines of one station, and two logs
// side by side. No number is worked out: it can stand in its columns in one way only, so two edits
// are the same exactly if their bytes are.

#![tactic(auto)]

ghost use Rattle.std.specs.Prelude.{true, ◌≡◌, ◌≤◌, length};
ghost use Rattle.columns.specs.Reading.{read_columns};
ghost use Rattle.script.specs.Line.{is_natural, is_whole};
ghost use Rattle.listing_lines.specs.Lines.{end_line};
ghost use Rattle.bodies.specs.Refusals.{number_of};
ghost use Rattle.air_logs_spec.specs.Form.{is_letter, is_line, same_bytes, is_listing};
ghost use Rattle.air_logs_spec.specs.Logs.{edit_in, is_kept, log_of};
ghost use Rattle.air_logs_spec.specs.Compare.{same_edit, compared_from, compare_refusal, compare_call, last_station};
ghost use Rattle.air_logs.specs.Inner.{widest_columns, all_digits, is_positive, is_unsigned, is_signed};
ghost use Rattle.air_logs.specs.Inner.{Unpadded, is_ended_line, tens_of};

use air_logs_spec::Compared;
use bodies::refusals::Refusal;

const BLANK: u8 = b' ';

const LINE_END: u8 = b'\n';

// The bytes of a line without its line end, and with it.
const COLUMNS: usize = 34;

const LINE: usize = 35;

const LAST_STATION: usize = 15;

// The letters of a listing.
const AIRED: u8 = b'A';

const DELIVERED: u8 = b'D';

const ENDED: u8 = b'E';

const REFUSED: u8 = b'X';

fn all_digits(s: &[u8]) -> bool
    ensures { result ≡ all_digits s.now }
{
    s.iter().all(|b| b.is_ascii_digit())
}

// A number above 0?
#[tactic(auto, unfolding(crate::specs::Inner::is_positive))]
fn is_positive(s: &[u8]) -> bool
    ensures { result ≡ is_positive s.now }
{
    match s {
        [b'1'..=b'9', rest @ ..] => all_digits(rest),
        _ => false,
    }
}

// A number?
#[tactic(auto, unfolding(crate::specs::Inner::is_positive, crate::specs::Inner::is_unsigned))]
fn is_unsigned(s: &[u8]) -> bool
    ensures { result ≡ is_unsigned s.now }
{
    matches!(s, [b'0']) || is_positive(s)
}

// A number, or a minus and a number above 0?
#[tactic(auto, unfolding(crate::specs::Inner::is_signed))]
fn is_signed(s: &[u8]) -> bool
    ensures { result ≡ is_signed s.now }
{
    match s {
        [] => false,
        [b'-', rest @ ..] => is_positive(rest),
        _ => is_unsigned(s),
    }
}

// What stands behind the blanks at the front.
fn unpadded(s: &[u8]) -> &[u8]
    ensures { Unpadded s.now result.now }
{
    let blanks = s.iter().position(|b| *b != BLANK).unwrap_or(s.len());
    &s[blanks..]
}

// Do these columns hold a number without a minus?
#[tactic(auto, using(crate::proofs::Digits::natural_columns))]
fn is_natural(s: &[u8]) -> bool
    requires { length s.now ≤ widest_columns }
    ensures { result ≡ is_natural (read_columns s.now) }
{
    is_unsigned(unpadded(s))
}

// Do they hold a number, behind a minus or not?
#[tactic(auto, using(crate::proofs::Digits::whole_columns))]
fn is_whole(s: &[u8]) -> bool
    requires { length s.now ≤ widest_columns }
    ensures { result ≡ is_whole (read_columns s.now) }
{
    is_signed(unpadded(s))
}

fn is_letter(b: u8) -> bool
    ensures { result ≡ is_letter b }
{
    matches!(b, AIRED | DELIVERED | ENDED | REFUSED)
}

// Has a line, without its line end, the listing's form?
#[tactic(auto, unfolding(air_logs_spec::specs::Form::is_line))]
fn is_line(line: &[u8]) -> bool
    ensures { result ≡ is_line line.now }
{
    line.len() == COLUMNS
        && is_natural(&line[0..6])
        && line[6] == BLANK
        && is_letter(line[7])
        && is_natural(&line[8..11])
        && is_natural(&line[11..14])
        && is_natural(&line[14..16])
        && is_natural(&line[16..25])
        && is_whole(&line[25..34])
}

// Is it a line of the listing's form and its line end?
fn is_ended_line(line: &[u8]) -> bool
    requires { length line.now ≡ 35 }
    ensures { result ≡ is_ended_line line.now }
{
    is_line(&line[..COLUMNS]) && line[COLUMNS] == LINE_END
}

// Are these bytes the last line?
#[tactic(auto, unfolding(listing_lines::specs::Lines::end_line), using(crate::proofs::Bytes::same_pointwise))]
fn is_last_line(s: &[u8]) -> bool
    ensures { result ≡ same_bytes s.now end_line }
{
    s == b"END\n".as_slice()
}

/// Are these bytes a listing: lines of its form, and then the last line alone?
pub fn is_listing(bytes: &[u8]) -> bool
    ensures { result ≡ is_listing bytes.now }
{
    let lines = bytes.chunks_exact(LINE);
    let last = lines.remainder();
    for line in lines {
        if !is_ended_line(line) {
            return false;
        }
    }
    is_last_line(last)
}

// The byte before the last one of a station number.
fn tens(p: usize) -> u8
    ensures { result ≡ tens_of p }
{
    if p < 10 { BLANK } else { b'1' }
}

// Is a line an A line of station p?
#[tactic(auto, using(crate::proofs::Lines::kept_bytes, crate::proofs::Lines::line_long))]
fn is_kept(line: &[u8], p: usize) -> bool
    requires line { is_line line.now ≡ true }
    requires station { p ≤ last_station }
    ensures { result ≡ is_kept p line.now }
{
    line[7] == AIRED
        && line[8] == BLANK
        && line[9] == tens(p)
        && line[10] as usize == b'0' as usize + p % 10
}

// A station's log: what is left to read of a listing, and the station.
#[derive(Drop)]
struct Log<'a> {
    listing: &'a [u8],
    station: usize,
    ghost form: { is_listing listing.now ≡ true },
    ghost numbered: { station ≤ last_station },
}

impl<'a> Log<'a> {
    ghost use Rattle.std.specs.Prelude.{◌≡◌, [], IfSome, IfNone};
    ghost use Rattle.air_logs_spec.specs.Logs.{log_of};
    ghost use Rattle.air_logs.specs.Inner.{KeptLine};

    // The next line of the log, without its line end.
    fn next(&mut self) -> Option<&'a [u8]>
        ensures line { IfSome result (λ line.
            KeptLine self.old.station self.old.listing.now line.now self.new.listing.now) }
        ensures none { IfNone result (log_of self.old.station self.old.listing.now ≡ []) }
        ensures station { self.new.station ≡ self.old.station }
    {
        let (listing, station) = (self.listing, self.station);
        for k in 0..listing.len() / LINE {
            let line = &listing[LINE * k..LINE * k + COLUMNS];
            if is_kept(line, station) {
                self.listing = &listing[LINE * (k + 1)..];
                return Some(line);
            }
        }
        None
    }
}

// Do two lines say the same edit?
#[tactic(auto, using(crate::proofs::Bytes::same_pointwise, crate::proofs::Lines::same_line, crate::proofs::Lines::line_long))]
fn same_edit(one: &[u8], other: &[u8]) -> bool
    requires one { is_line one.now ≡ true }
    requires other { is_line other.now ≡ true }
    ensures { result ≡ same_edit (edit_in one.now) (edit_in other.now) }
{
    one[11..34] == other[11..34]
}

// The answer for two logs.
fn compare_logs(mut first: Log, mut second: Log) -> Compared
    ensures { result ≡ compared_from 1 (log_of first.entry.station first.entry.listing.now)
        (log_of second.entry.station second.entry.listing.now) }
{
    let mut position = 1;
    // No counting loop: it ends where a log does, or where two edits differ.
    while let Some(one) = first.next() {
        let Some(other) = second.next() else {
            return Compared::SecondBegins;
        };
        if !same_edit(one, other) {
            return Compared::Different { position };
        }
        position += 1;
    }
    match second.next() {
        None => Compared::Equal,
        Some(_) => Compared::FirstBegins,
    }
}

// Are both stations such as a listing can have, and both listings such?
#[tactic(auto, unfolding(air_logs_spec::specs::Compare::compare_refusal))]
fn judge(first: &[u8], p: usize, second: &[u8], q: usize) -> Result<(), Refusal>
    ensures { number_of result ≡ compare_refusal first.now p second.now q }
{
    if LAST_STATION < p || LAST_STATION < q {
        return Err(Refusal::BadNumber);
    }
    if !is_listing(first) || !is_listing(second) {
        return Err(Refusal::BadListing);
    }
    Ok(())
}

/// The log of station p in one listing against that of station q in another, for any bytes and any
/// numbers. Refused with 1 for a station that no listing has, and 16 for bytes that are none.
pub fn compare(first: &[u8], p: usize, second: &[u8], q: usize) -> Compared
    ensures { result ≡ compare_call first.now p second.now q }
{
    match judge(first, p, second, q) {
        Ok(()) => compare_logs(
            Log {
                listing: first,
                station: p,
            },
            Log {
                listing: second,
                station: q,
            },
        ),
        Err(refusal) => Compared::Refused {
            refusal: refusal.number(),
        },
    }
}
