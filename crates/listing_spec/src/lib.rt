//! Where a script stands. The listing of a whole script and its laws stand beside; there is no
//! code.

#![tactic(auto)]

pub mod reading;

use station_spec::Station;

/// Where a script stands: the group's size, 0 before the `N` line; the rounds done; whether the
/// reading has stopped; the group.
#[derive(Clone, Copy)]
pub struct Session {
    pub n: usize,
    pub rounds: u32,
    pub stopped: bool,
    pub group: [Station; 16],
}
