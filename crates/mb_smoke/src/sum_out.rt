//! A taker of bytes that keeps sums of them, and no byte.

ghost use Rattle.std.specs.Prelude.{◌≡◌, ℕ, ◌+◌, ◌*◌, ◌%◌, ◌^◌, ◌≤◌, List, [], ◌++◌, length};
ghost use Rattle.mb_message.specs.Signs.{Sign, signs_of_event};
ghost use Rattle.mb_stream.specs.Reading.{told_signs};
ghost use Rattle.mb_stream.specs.ReaderLaw.{told_by};
ghost use Rattle.mb_denote.specs.Counted.{Counted};
ghost use Rattle.mb_carrier.specs.Carrier.{den};
ghost use Rattle.mb_carrier.specs.declared.spec.Spec.TheVariants.{Din};
ghost use Rattle.mb_smoke.specs.SumOut.{HasRoom, ReadStands, SumStands, SumEnded, refusals_of};
ghost use Rattle.mb_smoke.specs.Summed.{counts_of, mixed};

use mb_denote::Counts;
use mb_din::DinReader;
use mb_message::{Ev, Mark, Seen};
use mb_outside::{Out, Refused};

/// The most bytes that are taken in all.
const MOST: u64 = 1 << 62;

/// Reads what it takes as a byte line, counts its marks and mixes its bytes. It refuses past 2^62 bytes.
#[derive(Drop)]
pub struct SumOut {
    reader: DinReader,
    counts: Counts,
    mix: u32,
    bytes: u64,
    refusals: u64,
}

impl SumOut {
    /// Nothing was taken.
    pub fn new() -> SumOut
        ensures stands { SumStands result [] }
        ensures never { refusals_of result ≡ 0 }
    {
        SumOut {
            reader: DinReader::new(),
            counts: Counts::new(),
            mix: 0,
            bytes: 0,
            refusals: 0,
        }
    }

    /// The end of what is taken.
    pub fn finish(&mut self)
        requires { (bytes : List ℕ) × SumStands self.old bytes }
        ensures { (bytes : List ℕ) → SumStands self.old bytes → SumEnded self.new bytes }
    {
        if let Some(seen) = self.reader.finish() {
            count_seen(seen, &mut self.counts);
        }
    }

    /// How many messages, whole and broken SysEx and real-time messages were taken.
    pub fn counts(&self) -> Counts
        ensures { (bytes : List ℕ) → SumEnded self.now bytes → result ≡ counts_of (den Din bytes) }
    {
        self.counts
    }

    /// The number that mixes the bytes.
    pub fn mix(&self) -> u32
        ensures { (bytes : List ℕ) → SumEnded self.now bytes → result ≡ mixed 0 bytes }
    {
        self.mix
    }

    /// Takes bytes that there is room for.
    fn sum(&mut self, piece: &[u8])
        requires { (bytes : List ℕ) × SumStands self.old bytes × (length (bytes ++ piece.now) ≤ 2 ^ 62) }
        ensures stands { (bytes : List ℕ) → SumStands self.old bytes → SumStands self.new (bytes ++ piece.now) }
        ensures never { refusals_of self.new ≡ refusals_of self.old }
    {
        read_piece(&mut self.reader, &mut self.counts, piece);
        self.mix = mix_piece(self.mix, piece);
        self.bytes += piece.len() as u64;
    }
}

impl Out for SumOut {
    ghost use Rattle.std.specs.Prelude.{ℕ, List};
    ghost use Rattle.mb_smoke.specs.SumOut.{SumStands, SumTook, refusals_of};
    ghost use Rattle.mb_smoke.specs.SumLaws.{took-nothing, took-both};

    ghost ready = { λ out. (bytes : List ℕ) × SumStands out bytes };

    ghost took = { λ before bytes after. SumTook before bytes after };

    ghost refusals = { λ out. refusals_of out };

    ghost nothing = { took-nothing };

    ghost both = { took-both };

    fn take(&mut self, piece: &[u8]) -> Result<(), Refused> {
        let count = (MOST - self.bytes).min(piece.len() as u64) as usize;
        self.sum(&piece[..count]);
        if count < piece.len() {
            self.refusals = self.refusals.saturating_add(1);
            return Err(Refused);
        }
        Ok(())
    }
}

/// Reads a piece to its end and counts its marks.
fn read_piece(reader: &mut DinReader, counts: &mut Counts, piece: &[u8])
    requires { (bytes : List ℕ) × ReadStands reader.old counts.old bytes × (length (bytes ++ piece.now) ≤ 2 ^ 62) }
    ensures { (bytes : List ℕ) → ReadStands reader.old counts.old bytes →
        ReadStands reader.new counts.new (bytes ++ piece.now) }
{
    let mut rest = piece;
    'events: while let Some(seen) = reader.next(&mut rest) {
        count_seen(seen, counts);
    }
}

/// Counts the marks of what a reader tells.
fn count_seen(seen: Seen<'_>, counts: &mut Counts)
    requires { HasRoom counts.old }
    ensures { (marks : List Sign) → Counted counts.old marks →
        Counted counts.new (marks ++ told_signs (told_by seen.entry)) }
{
    match seen {
        Seen::Ev(ev) => count_event(ev, counts),
        Seen::Note(_) => {}
    }
}

/// Counts an event. The data of a SysEx count for nothing.
fn count_event(ev: Ev<'_>, counts: &mut Counts)
    requires { HasRoom counts.old }
    ensures { (marks : List Sign) → Counted counts.old marks →
        Counted counts.new (marks ++ signs_of_event ev.entry) }
{
    match ev {
        Ev::Short(short) => counts.put(Mark::Short(short)),
        Ev::Rt(message) => counts.put(Mark::Rt(message)),
        Ev::Open => counts.put(Mark::Open),
        Ev::Run(_) => {}
        Ev::End => counts.put(Mark::End),
        Ev::Abort => counts.put(Mark::Abort),
    }
}

/// Mixes bytes into a number.
fn mix_piece(mix: u32, piece: &[u8]) -> u32
    ensures { result ≡ mixed mix piece.now }
{
    let mut mixed = mix;
    'bytes: for byte in piece {
        mixed = mix_byte(mixed, *byte);
    }
    mixed
}

fn mix_byte(mix: u32, byte: u8) -> u32
    ensures { result ≡ (mix * 31 + byte) % 2 ^ 32 }
{
    ((u64::from(mix) * 31 + u64::from(byte)) % (1 << 32)) as u32
}
