// The answer of the load generator. What it draws and writes, and that its calls one after the
// other write a whole script, stand beside; there is no code.

#![tactic(auto)]

/// What a call answers: a refusal's number or 0, the bytes written, and the state that the next
/// call is given, which is the one given where the call is refused.
// Kept as one answer with a number: the theorems of specs/Whole speak of the refusal and the state
// of the same answer, in numbers.
#[derive(Clone, Copy, Debug, PartialEq, Eq)]
pub struct Generated {
    pub refusal: u32,
    pub len: usize,
    pub state: u32,
}
