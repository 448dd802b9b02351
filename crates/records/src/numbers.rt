// Which numbers of stations, which stations, editions and counts there may be.

ghost use Rattle.std.specs.Prelude.{◌≡◌, ◌≤◌};
ghost use Rattle.bodies.specs.Limits.{is_edition};
ghost use Rattle.frame_spec.specs.Frame.{valid_number};
ghost use Rattle.frame_spec.specs.Record.{count_inside};

/// Is n a number of stations, and own one of them?
pub fn valid_number(n: usize, own: usize) -> bool
    ensures { result ≡ valid_number n own }
{
    1 <= n && n <= 16 && own < n
}

/// Is this an edition?
pub fn is_edition(edition: usize) -> bool
    ensures { result ≡ is_edition edition }
{
    edition < 2
}

/// May a record in a frame have this count?
pub fn count_fits(n: usize, count: u8) -> bool
    requires some { 1 ≤ n }
    requires few { n ≤ 16 }
    ensures { result ≡ count_inside n count }
{
    count as usize <= 2 * (n - 1)
}
