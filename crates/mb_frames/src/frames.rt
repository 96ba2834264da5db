//! Reading frames byte by byte.

ghost use Rattle.std.specs.Prelude.{◌≡◌, ℕ, ◌+◌, ◌-◌, ◌*◌, ◌<◌, ◌≤◌, ◌↔◌, List, [], ◌∷◌, ◌++◌, true, false, length};
ghost use Rattle.std.specs.Prelude.{map};
ghost use Rattle.mb_frames.specs.Frames.{FramePart, FrameByte, FrameEnd};
ghost use Rattle.mb_frames.specs.Reading.{Between, Within, Stands, IsWhole, behind_length, begun, is_at_end};
ghost use Rattle.mb_frames.specs.Reading.{is_partial, length_ended, room_of};

use std::marker::Model;

/// Where the reader stands.
#[derive(Clone, Copy, Debug, PartialEq, Eq)]
enum Place {
    /// Between frames.
    Between,
    /// Behind the first byte of a length, which is this.
    High(u8),
    /// So many bytes of a content are to come. At 0 the frame's end is to be told.
    Within(u16),
}

/// Where a list of frames stands, as its reader tells of each byte: `length` of those of a length, `pass` of those of a
/// content, and `leave` of a frame's end, which has no byte.
#[derive(Drop)]
pub struct Frames {
    place: Place,
}

impl Model for Frames {
    ghost use Rattle.mb_frames.specs.Reading.{Place};
    ghost use Rattle.mb_frames.specs.Kept.{place_of};

    ghost Value = { Place };

    ghost view = { λ f. place_of f.place };
}

impl Frames {
    /// Nothing was taken.
    #[inline(always)]
    pub fn new() -> Frames
        ensures place { result ≡ Between }
        ensures stands { Stands result [] [] }
    {
        Frames {
            place: Place::Between,
        }
    }

    /// Takes a byte of a length, and gives the length where it ends by it.
    #[inline(always)]
    pub fn length(&mut self, byte: u8) -> Option<u16>
        requires outside { room_of self.old ≡ 0 }
        requires left { is_at_end self.old ≡ false }
        ensures place { self.new ≡ behind_length self.old byte }
        ensures length { result ≡ length_ended self.old byte }
        ensures stands { (bytes : List ℕ) (so_far : List FramePart) → Stands self.old bytes so_far →
            Stands self.new (bytes ++ byte ∷ []) (so_far ++ begun result) }
    {
        match self.place {
            Place::High(high) => {
                let length = 256 * u16::from(high) + u16::from(byte);
                self.place = Place::Within(length);
                Some(length)
            }
            _ => {
                self.place = Place::High(byte);
                None
            }
        }
    }

    /// How many bytes of a frame's content are to come: 0 outside one.
    #[inline(always)]
    pub fn room(&self) -> u16
        ensures { result ≡ room_of self.now }
    {
        match self.place {
            Place::Between | Place::High(_) => 0,
            Place::Within(left) => left,
        }
    }

    /// So many bytes of the content were taken.
    #[inline(always)]
    pub fn pass(&mut self, count: u16)
        requires some { 0 < count }
        requires room { count ≤ room_of self.old }
        ensures place { self.new ≡ Within (room_of self.old - count) }
        ensures stands { (content bytes : List ℕ) (so_far : List FramePart) → length content ≡ count →
            Stands self.old bytes so_far → Stands self.new (bytes ++ content) (so_far ++ map FrameByte content) }
    {
        self.place = Place::Within(self.room() - count);
    }

    /// Whether a frame's end is to be told: all bytes of its content were taken.
    #[inline(always)]
    pub fn at_end(&self) -> bool
        ensures { result ≡ is_at_end self.now }
    {
        matches!(self.place, Place::Within(0))
    }

    /// The frame's end was told.
    #[inline(always)]
    pub fn leave(&mut self)
        requires { is_at_end self.old ≡ true }
        ensures place { self.new ≡ Between }
        ensures stands { (bytes : List ℕ) (so_far : List FramePart) → Stands self.old bytes so_far →
            Stands self.new bytes (so_far ++ FrameEnd ∷ []) }
    {
        self.place = Place::Between;
    }

    /// Whether the bytes taken stop inside a frame.
    #[inline(always)]
    pub fn partial(&self) -> bool
        ensures place { result ≡ is_partial self.now }
        ensures whole { (bytes : List ℕ) (so_far : List FramePart) → Stands self.now bytes so_far →
            (result ≡ false) ↔ IsWhole bytes }
    {
        match self.place {
            Place::Between => false,
            Place::High(_) => true,
            Place::Within(left) => left != 0,
        }
    }
}
