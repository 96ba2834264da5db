//! A piece of a recording on its way through a hop.

ghost use Rattle.std.specs.Prelude.{◌≡◌, []};
ghost use Rattle.mb_message.specs.Signs.{signs_of_event};

use mb_message::Ev;

/// What is left of a piece, whose bytes have one moment, in milliseconds: an event that was read and isn't put yet, and
/// the bytes that aren't read yet. An empty run is no event.
#[derive(Clone, Copy, Debug)]
pub struct Piece<'a> {
    pub moment: u64,
    pub ev: Ev<'a>,
    pub rest: &'a [u8],
}

impl<'a> Piece<'a> {
    /// A piece of which nothing is read yet.
    pub fn new(moment: u64, bytes: &'a [u8]) -> Piece<'a>
        ensures moment { result.moment ≡ moment }
        ensures ev { signs_of_event result.ev ≡ [] }
        ensures rest { result.rest.now ≡ bytes.now }
    {
        Piece {
            moment,
            ev: Ev::Run(&[]),
            rest: bytes,
        }
    }
}
