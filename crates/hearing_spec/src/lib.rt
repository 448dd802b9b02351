//! What hearing keeps beside the bytes of the frames. The definitions that the functions of hearing
//! promise by, and their laws, stand beside; there is no code.

#![tactic(auto)]

/// The room of a frame in bytes: four, and sixteen records of sixteen. Frames in one buffer begin
/// this far apart.
pub const FRAME_ROOM: usize = 260;

/// `Ear::refusal` where no frame was refused.
pub const NOT_REFUSED: u32 = 0;

/// The numbers of a station that hearing changes, how many bodies are taken, and the refusal of the
/// first refused frame.
#[derive(Clone, Copy)]
pub struct Ear {
    // Kept as a number: `Stands` and `Hears` set it beside the refusal of a hearing, which is one.
    pub refusal: u32,
    pub count: u8,
    pub acked: [bool; 16],
    pub labels: [u8; 16],
    pub len: usize,
}
