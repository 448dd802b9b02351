// Labels: the successor, and what a seen record is beside the held one.

#![tactic(auto)]

pub mod words;

ghost use Rattle.std.specs.Prelude.{◌≡◌};
ghost use Rattle.labels.specs.Label.{successor};
ghost use Rattle.labels.specs.Newer.{age_of};

use std::cmp::Ordering;

/// What is decided of a seen record beside the held one.
#[derive(Clone, Copy, Debug, PartialEq, Eq)]
pub enum Age {
    Newer,
    Same,
    Conflicting,
    Older,
}

/// The label after this one.
pub fn successor(label: u8) -> u8
    ensures { result ≡ successor label }
{
    ((u32::from(label) + 1) % 3) as u8
}

/// What a seen record with this own label and count is beside the held one, if one is held; `equal`
/// says whether all else is equal.
#[tactic(auto, unfolding(crate::specs::Newer::is_newer, crate::specs::Newer::age_of))]
pub fn age_beside(
    held: bool,
    held_label: u8,
    held_count: u8,
    seen_label: u8,
    seen_count: u8,
    equal: bool,
) -> Age
    ensures { result ≡ age_of held held_label held_count seen_label seen_count equal }
{
    if !held || seen_label == successor(held_label) {
        return Age::Newer;
    }
    if seen_label != held_label {
        return Age::Older;
    }
    match seen_count.cmp(&held_count) {
        Ordering::Greater => Age::Newer,
        Ordering::Less => Age::Older,
        Ordering::Equal if equal => Age::Same,
        Ordering::Equal => Age::Conflicting,
    }
}
