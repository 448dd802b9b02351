// The bytes of a frame, once their shape is right.

ghost use Rattle.std.specs.Prelude.{◌≡◌, ◌≤◌, ◌<◌, length, slice_index};

use bodies::refusals::Refusal;
use frame_spec::{HEAD_WIDTH, RECORD_WIDTH};
use records::numbers::{is_edition, valid_number};
use std::marker::Model;

/// The bytes of a frame: a head of four bytes, and then as many records as byte 2 says.
#[derive(Debug, Drop)]
pub struct Frame<'a> {
    bytes: &'a [u8],
}

impl<'a> Model for Frame<'a> {
    ghost use Rattle.std.specs.Prelude.{◌≡◌, ℕ, false, List};
    ghost use Rattle.frame_spec.specs.Frame.{shape_wrong};

    ghost Value = { List ℕ };

    ghost view = { λ frame. frame.bytes.now };

    ghost invariant = { λ frame. shape_wrong frame.bytes.now ≡ false };
}

impl<'a> Frame<'a> {
    ghost use Rattle.std.specs.Prelude.{Ok};
    ghost use Rattle.bodies.specs.declared.refusals.Refusal.TheVariants.{BadShape};
    ghost use Rattle.bodies.specs.Refusals.{refuse, then_ok};
    ghost use Rattle.frame_spec.specs.Frame.{part, shape_wrong, address_wrong, records_inside};
    ghost use Rattle.frame_spec.specs.Frame.{frame_refusal, check_refusal};

    /// The frame, unless the length, byte 2 or byte 3 tells that these bytes are none.
    #[tactic(auto, unfolding(frame_spec::specs::Frame::shape_wrong))]
    pub fn new(bytes: &'a [u8]) -> Result<Self, Refusal>
        ensures { result ≡ refuse (shape_wrong bytes.now) BadShape (Ok bytes.now) }
    {
        if bytes.len() < HEAD_WIDTH
            || bytes[2] == 0
            || 16 < bytes[2]
            || 2 <= bytes[3]
            || bytes.len() != HEAD_WIDTH + RECORD_WIDTH * bytes[2] as usize
        {
            return Err(Refusal::BadShape);
        }
        Ok(Frame { bytes })
    }

    /// The frame, if hearing accepts it: 5, 6, 7, in this order.
    #[tactic(auto, unfolding(frame_spec::specs::Frame::frame_refusal))]
    pub fn hear(bytes: &'a [u8], edition: usize, n: usize, own: usize) -> Result<Self, Refusal>
        requires { n ≤ 16 }
        ensures { result ≡ then_ok (frame_refusal edition bytes.now n own) bytes.now }
    {
        let frame = Frame::new(bytes)?;
        if frame.is_address_wrong(edition, n, own) {
            return Err(Refusal::BadAddress);
        }
        if !frame.is_inside(edition, n) {
            return Err(Refusal::BadRecord);
        }
        Ok(frame)
    }

    /// The frame, if the frame check accepts it: 1, 17, and then as hearing judges.
    #[tactic(auto, unfolding(frame_spec::specs::Frame::check_refusal))]
    pub fn check(bytes: &'a [u8], edition: usize, n: usize, own: usize) -> Result<Self, Refusal>
        ensures { result ≡ then_ok (check_refusal edition bytes.now n own) bytes.now }
    {
        if !valid_number(n, own) {
            return Err(Refusal::BadNumber);
        }
        if !is_edition(edition) {
            return Err(Refusal::BadEdition);
        }
        Frame::hear(bytes, edition, n, own)
    }

    /// How many records it has.
    #[tactic(auto, unfolding(frame_spec::specs::Frame::shape_wrong))]
    pub fn count(&self) -> usize
        ensures count { result ≡ slice_index self.now 2 }
        ensures few { result ≤ 16 }
    {
        self.bytes[2] as usize
    }

    /// Whose it is.
    #[tactic(auto, unfolding(frame_spec::specs::Frame::shape_wrong))]
    pub fn sender(&self) -> u8
        ensures { result ≡ slice_index self.now 1 }
    {
        self.bytes[1]
    }

    /// The sixteen bytes of record k.
    #[tactic(auto, unfolding(frame_spec::specs::Frame::shape_wrong))]
    pub fn part(&self, k: usize) -> &[u8]
        requires { k < slice_index self.now 2 }
        ensures part { result.now ≡ part self.now k }
        ensures whole { length result.now ≡ 16 }
    {
        &self.bytes[HEAD_WIDTH + RECORD_WIDTH * k..][..RECORD_WIDTH]
    }

    // Is it for another edition or another N, or from a sender that cannot be?
    #[tactic(auto, unfolding(frame_spec::specs::Frame::address_wrong, frame_spec::specs::Frame::shape_wrong))]
    fn is_address_wrong(&self, edition: usize, n: usize, own: usize) -> bool
        ensures { result ≡ address_wrong edition self.now n own }
    {
        self.bytes[3] as usize != edition
            || self.bytes[0] as usize != n
            || self.bytes[1] as usize == own
            || n <= self.bytes[1] as usize
    }

    // Are its records inside their limits, stations strictly ascending, the sender's among them?
    // `least` is the least station that the next record may be of.
    // Kept as one loop with a flag: a chain would call `part` in its closure, and did not prove.
    #[tactic(auto, using(crate::proofs::Records::checked))]
    fn is_inside(&self, edition: usize, n: usize) -> bool
        requires { n ≤ 16 }
        ensures { result ≡ records_inside edition self.now n }
    {
        let sender = self.sender();
        let mut found = false;
        let mut least = 0;
        for k in 0..self.count() {
            let part = self.part(k);
            if !super::record_inside(part, edition, n) {
                return false;
            }
            let station = part[0];
            if (station as usize) < least {
                return false;
            }
            found |= station == sender;
            least = station as usize + 1;
        }
        found
    }
}
