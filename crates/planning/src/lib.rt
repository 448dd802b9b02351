//! What planners ask of a log of links: the forecast (document 02, A1), the merge of two logs (A10)
//! and a page of questions (A11), with the judging of a log and the sets that say who knows of a
//! broadcast.

#![tactic(auto)]

pub mod forecast;
pub mod logs;
pub mod merge;
pub mod questions;
pub mod sets;

// No group has more stations, and no mask more bits.
const PLACES: usize = 16;
