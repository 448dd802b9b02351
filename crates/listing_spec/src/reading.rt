// Where the reading of a script stands, and the answer of a part. What is still to be listed, and
// that a script read in parts is listed whole, stand beside; there is no code.

use super::Session;

/// So many bytes of a line are kept: a line of more than 145 is malformed.
pub const KEPT: usize = 146;

/// Where the reading stands: the session after the lines read, and the bytes of a line whose line
/// end is still to come.
#[derive(Clone, Copy)]
pub struct Reader {
    pub session: Session,
    pub len: usize,
    pub line: [u8; KEPT],
}

/// A reader after a part: how many bytes of the part it read, and how many it put into the buffer.
#[derive(Clone, Copy)]
pub struct FeedAnswer {
    pub read: usize,
    pub len: usize,
    pub reader: Reader,
}
