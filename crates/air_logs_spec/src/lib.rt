// What the comparison of two air logs answers. The definitions and theorems about it stand beside;
// there is no code.

#![tactic(auto)]

/// The two logs are equal; the first is a beginning of the second, or the second of the first; they
/// differ at a position, counted from 1; or a number or a listing is refused.
// Kept as five answers, the last with a number: `LogsFit` (specs/Compare) and the meaning of each
// answer speak of all five.
#[derive(Clone, Copy, Debug, PartialEq, Eq)]
pub enum Compared {
    Equal,
    FirstBegins,
    SecondBegins,
    Different { position: usize },
    Refused { refusal: u32 },
}
