//! Bytes with moments as records of a tape.

ghost use Rattle.std.specs.Prelude.{◌≡◌, ◌+◌, ◌≤◌, ℕ, List, [], ◌∷◌, ◌++◌, length};
ghost use Rattle.arrayvec.specs.ArrayVec.{array_vec_len};
ghost use Rattle.mb_frames.specs.Gathered.{TimedByte, gathered};
ghost use Rattle.mb_frames.specs.Gathering.{Gathers, after_magic, ended_by, no_piece, with_byte, written_piece};

use crate::write_header::put_header;
use arrayvec::ArrayVec;
use mb_message::Buf;
use std::marker::Model;

/// The most bytes of a record.
const MOST: usize = 255;

/// Gathers bytes of one moment into records of at most 255, of track 0. `tape_magic` stands before them.
#[derive(Drop)]
pub struct Gather {
    moment: u64,
    bytes: ArrayVec<u8, MOST>,
}

impl Model for Gather {
    ghost use Rattle.mb_frames.specs.Gathering.{Piece};

    ghost Value = { Piece };

    ghost view = { λ g. record { moment = g.moment; bytes = g.bytes.items } };
}

impl Gather {
    /// Nothing waits.
    pub fn new() -> Gather
        ensures new { result ≡ no_piece }
        ensures gathers { Gathers result [] [] }
    {
        Gather {
            moment: 0,
            bytes: ArrayVec::new(),
        }
    }

    /// A byte more, of a moment in microseconds; appends the record that it ends, if it ends one.
    pub fn put(&mut self, moment: u64, byte: u8, out: &mut Buf)
        requires room { array_vec_len out.old + 266 ≤ 1024 }
        ensures piece { self.new ≡ with_byte self.old (record { moment = moment; byte = byte }) }
        ensures written { out.new.items ≡
            out.old.items ++ ended_by self.old (record { moment = moment; byte = byte }) }
        ensures gathers { (given : List TimedByte) (written : List ℕ) → Gathers self.old given written →
            Gathers self.new (given ++ (record { moment = moment; byte = byte }) ∷ [])
            (written ++ ended_by self.old (record { moment = moment; byte = byte })) }
        ensures len { array_vec_len out.new ≤ array_vec_len out.old + 266 }
    {
        if !(moment == self.moment && self.bytes.len() < MOST) {
            put_piece(self.moment, self.bytes.as_slice(), out);
            self.bytes.clear();
            self.moment = moment;
        }
        self.bytes.push(byte);
    }

    /// Appends what waits; then nothing does.
    pub fn finish(&mut self, out: &mut Buf)
        requires room { array_vec_len out.old + 266 ≤ 1024 }
        ensures piece { self.new ≡ no_piece }
        ensures written { out.new.items ≡ out.old.items ++ written_piece self.old.moment self.old.bytes }
        ensures all { (given : List TimedByte) (written : List ℕ) → Gathers self.old given written →
            gathered given ≡ after_magic (written ++ written_piece self.old.moment self.old.bytes) }
        ensures len { array_vec_len out.new ≤ array_vec_len out.old + 266 }
    {
        put_piece(self.moment, self.bytes.as_slice(), out);
        self.bytes.clear();
        self.moment = 0;
    }
}

/// Appends a record of track 0, of bytes that are there.
fn put_piece(moment: u64, bytes: &[u8], out: &mut Buf)
    requires room { array_vec_len out.old + 266 ≤ 1024 }
    requires few { length bytes.now ≤ 255 }
    ensures written { out.new.items ≡ out.old.items ++ written_piece moment bytes.now }
    ensures len { array_vec_len out.new ≤ array_vec_len out.old + 266 }
{
    if bytes.is_empty() {
        return;
    }
    put_header(moment, 0, bytes.len() as u16, out);
    // There is room.
    let _fits = out.try_extend_from_slice(bytes);
}
