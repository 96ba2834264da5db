//! A reader of whatever port a spec names.

ghost use Rattle.std.specs.Prelude.{◌≡◌, ℕ, ◌+◌, ◌*◌, ◌^◌, true, ◌<◌, ◌≤◌, not, List, [], ◌++◌, length, OnSome, IfSome};
ghost use Rattle.std.specs.Prelude.{IfNone};
ghost use Rattle.mb_stream.specs.Told.{Known};
ghost use Rattle.mb_stream.specs.Reading.{told_signs};
ghost use Rattle.mb_stream.specs.ReaderLaw.{IsLongest, breaks};
ghost use Rattle.mb_stream.specs.ReaderLaw.{answer};
ghost use Rattle.mb_message.specs.Front.{IsFront};
ghost use Rattle.mb_carrier.specs.Carrier.{known, end_told, last_byte_moment, end_moment, whole};
ghost use Rattle.mb_carrier.specs.Hop.{ReaderGoes};
ghost use Rattle.mb_carrier.specs.Port.{reader_spec, reader_offset, reader_owed, reader_moment, moment_set, beside};
ghost use Rattle.mb_carrier.specs.Port.{is_partial, ReaderStands, ReaderRests, BrokenNext, ReadsAlike};
ghost use Rattle.mb_carrier.specs.Port.{reader_spec_by, reader_offset_by, reader_owed_by, reader_moment_by, beside_by};
ghost use Rattle.mb_carrier.specs.Port.{is_partial_by, ReaderStandsBy, ReaderRestsBy, BrokenNextBy};
ghost use Rattle.mb_carrier.specs.Step.{seen_in, seen_of, IsAt};
ghost use Rattle.mb_carrier.specs.Word.{IsSpec};

use crate::ble::BlePort;
use crate::{EventReader, PortStep, Spec};
use mb_din::DinReader;
use mb_fire::FirePortReader;
use mb_message::Seen;
use mb_usb::CableReader;

/// The reader of each carrier.
#[derive(Drop)]
pub(crate) enum ReaderOf {
    Din(DinReader),
    Usb(CableReader),
    Fire(FirePortReader),
    Ble(BlePort),
}

/// A reader of one port: its marks, its notes, and the notes on all packets. It keeps no more than its carrier's reader
/// does, and never grows.
#[derive(Drop)]
pub struct PortReader {
    pub(crate) carrier: ReaderOf,
    pub(crate) moment: u64,
}

impl PortReader {
    /// A reader of a spec's port, at moment 0.
    pub fn new(spec: Spec) -> PortReader
        requires { IsSpec spec }
        ensures spec { reader_spec result ≡ spec }
        ensures moment { moment_set result ≡ 0 }
        ensures offset { reader_offset result ≡ 0 }
        ensures stands { ReaderStands result [] [] }
    {
        let carrier = match spec {
            Spec::Din => ReaderOf::Din(DinReader::new()),
            Spec::Usb(cable) => ReaderOf::Usb(CableReader::new(cable)),
            Spec::Fire(port) => ReaderOf::Fire(FirePortReader::new(port)),
            Spec::Ble(size) => ReaderOf::Ble(BlePort::new(size)),
        };
        PortReader { carrier, moment: 0 }
    }

    /// What is told from here on has this moment, in milliseconds, which is no earlier than the last, unless the
    /// carrier has a clock.
    pub fn set_moment(&mut self, moment: u64)
        requires { moment_set self.old ≤ moment }
        ensures moment { moment_set self.new ≡ moment }
        ensures same { ReadsAlike self.old self.new }
    {
        self.moment = moment;
    }

    /// The next event or note of the bytes that were taken and of the input, which it takes from the front of the
    /// input. What a byte makes known of earlier ones is told while it still stands in the input, and before anything
    /// of it is kept. `None` comes where the input is used up and all of it is told. A run is lent from the input,
    /// never empty, and the longest that stands there.
    pub fn next<'a>(&mut self, input: &mut &'a [u8]) -> Option<PortStep<'a>>
        requires early { reader_offset self.old + length input.old.now ≤ 2 ^ 51 + 2 ^ 14 }
        ensures spec { reader_spec self.new ≡ reader_spec self.old }
        ensures moment { moment_set self.new ≡ moment_set self.old }
        ensures end { reader_offset self.new + length input.new.now ≡ reader_offset self.old + length input.old.now }
        ensures at { IfSome result (IsAt (reader_moment self.new (moment_set self.old))) }

        // What it takes and tells, whatever was taken and told before.
        ensures goes { (bytes : List ℕ) (told : List Known) → ReaderStands self.old bytes told →
            IsFront told (known (reader_spec self.old) (bytes ++ input.old.now)) →
            ReaderGoes (reader_spec self.old) (ReaderStands self.new)
            (reader_moment self.new) input.old.now input.new.now
            (answer (seen_of result)) bytes told }
        ensures some { OnSome result (answer (seen_of result) ≡ [] → ⊥) }
        ensures none { IfNone result (input.new.now ≡ []) }
        ensures all_told { IfNone result ((bytes : List ℕ) (told : List Known) → ReaderStands self.old bytes told →
            IsFront told (known (reader_spec self.old) (bytes ++ input.old.now)) →
            told ≡ known (reader_spec self.old) (bytes ++ input.old.now)) }
        ensures longest { IfSome result (λ step. IsLongest (beside self.new input.new.now) (seen_in step)) }

        // What breaks a message is told of before it is taken: it still stands next, and nothing is begun, running or
        // open on the port.
        ensures before { breaks (answer (seen_of result)) ≡ true → BrokenNext self.new input.new.now ×
            ReaderRests self.new }

        // An event has no more marks than the input handed in has bytes: who hands in one byte gets one mark at most.
        ensures few { length (told_signs (answer (seen_of result))) ≤ length input.old.now }

        // A caller's loop ends by this.
        ensures progress { OnSome result
            (2 * length input.new.now + reader_owed self.new < 2 * length input.old.now + reader_owed self.old) }
    {
        match next_seen(&mut self.carrier, input) {
            Some(seen) => Some(PortStep::at(moment_by(&self.carrier, self.moment), seen)),
            None => None,
        }
    }

    /// What only the end of the recording makes known: a message that was begun and not finished, or an open SysEx.
    /// Then nothing is begun, running or open on the port; offsets go on, and `partial` answers as before.
    pub fn finish(&mut self) -> Option<PortStep<'static>>
        ensures spec { reader_spec self.new ≡ reader_spec self.old }
        ensures offset { reader_offset self.new ≡ reader_offset self.old }
        ensures partial { is_partial self.new ≡ is_partial self.old }
        ensures moment { moment_set self.new ≡ moment_set self.old }
        ensures at { IfSome result (IsAt (reader_moment self.new (moment_set self.old))) }
        ensures at_end { (bytes : List ℕ) → ReaderStands self.old bytes (known (reader_spec self.old) bytes) →
            (moments : ℕ → ℕ) → last_byte_moment moments (length bytes) ≡ moment_set self.old →
            end_moment (reader_spec self.old) moments bytes ≡ reader_moment self.new (moment_set self.old) }
        ensures rests { ReaderRests self.new }
        ensures told { (bytes : List ℕ) → ReaderStands self.old bytes (known (reader_spec self.old) bytes) →
            answer (seen_of result) ≡ end_told (reader_spec self.old) bytes }
        ensures some { OnSome result (answer (seen_of result) ≡ [] → ⊥) }

        // A second end tells nothing.
        ensures once { OnSome result (ReaderRests self.old → ⊥) }
    {
        match last_seen(&mut self.carrier) {
            Some(seen) => Some(PortStep::at(moment_by(&self.carrier, self.moment), seen)),
            None => None,
        }
    }

    /// Whether the bytes that were taken stop inside a packet.
    pub fn partial(&self) -> bool
        ensures state { result ≡ is_partial self.now }
        ensures law { (bytes : List ℕ) (told : List Known) → ReaderStands self.now bytes told →
            result ≡ not (whole (reader_spec self.now) bytes) }
    {
        match &self.carrier {
            ReaderOf::Din(_) => false,
            ReaderOf::Usb(reader) => reader.partial() != 0,
            ReaderOf::Fire(reader) => reader.partial(),
            ReaderOf::Ble(reader) => reader.packets.partial(),
        }
    }
}

impl Default for PortReader {
    /// A reader of a byte line, in an unused place of a row.
    fn default() -> PortReader {
        PortReader {
            carrier: ReaderOf::Din(DinReader::new()),
            moment: 0,
        }
    }
}

// A caller that reads events of any port, and hands over the moment with each call.
impl EventReader for PortReader {
    ghost use Rattle.mb_carrier.specs.Port.{
      reader_spec,
      reader_offset,
      reader_owed,
      reader_moment,
      beside,
      is_partial,
      ReaderStands,
      ReaderRests,
      BrokenNext,
    };
    ghost use Rattle.mb_carrier.specs.SpecLaws.{known-stays, marks-end, marks-suit};

    ghost spec = { λ r. reader_spec r };

    ghost offset = { λ r. reader_offset r };

    ghost owed = { λ r. reader_owed r };

    ghost moment = { λ r set. reader_moment r set };

    ghost broken_next = { λ r input. BrokenNext r input };

    ghost beside = { λ r input. beside r input };

    ghost stands = { λ r bytes told. ReaderStands r bytes told };

    ghost rests = { λ r. ReaderRests r };

    ghost is_partial = { λ r. is_partial r };

    #[inline(always)]
    fn next<'a>(&mut self, input: &mut &'a [u8]) -> Option<Seen<'a>> {
        next_seen(&mut self.carrier, input)
    }

    #[inline(always)]
    fn finish(&mut self) -> Option<Seen<'static>> {
        last_seen(&mut self.carrier)
    }

    #[inline(always)]
    fn moment(&self, moment_set: u64) -> u64 {
        moment_by(&self.carrier, moment_set)
    }

    ghost stays = { λ r bytes more. known-stays (reader_spec r) bytes more };

    ghost ends = { λ r bytes. marks-end (reader_spec r) bytes };

    ghost suits = { λ r bytes. marks-suit (reader_spec r) bytes };
}

/// What a carrier's reader tells next.
fn next_seen<'a>(carrier: &mut ReaderOf, input: &mut &'a [u8]) -> Option<Seen<'a>>
    requires early { reader_offset_by carrier.old + length input.old.now ≤ 2 ^ 51 + 2 ^ 14 }
    ensures spec { reader_spec_by carrier.new ≡ reader_spec_by carrier.old }
    ensures end { reader_offset_by carrier.new + length input.new.now
        ≡ reader_offset_by carrier.old + length input.old.now }
    ensures goes { (bytes : List ℕ) (told : List Known) → ReaderStandsBy carrier.old bytes told →
        IsFront told (known (reader_spec_by carrier.old) (bytes ++ input.old.now)) →
        ReaderGoes (reader_spec_by carrier.old) (ReaderStandsBy carrier.new)
        (reader_moment_by carrier.new) input.old.now input.new.now
        (answer result) bytes told }
    ensures some { OnSome result (answer result ≡ [] → ⊥) }
    ensures none { IfNone result (input.new.now ≡ []) }
    ensures all_told { IfNone result ((bytes : List ℕ) (told : List Known) → ReaderStandsBy carrier.old bytes told →
        IsFront told (known (reader_spec_by carrier.old) (bytes ++ input.old.now)) →
        told ≡ known (reader_spec_by carrier.old) (bytes ++ input.old.now)) }
    ensures longest { IfSome result (IsLongest (beside_by carrier.new input.new.now)) }
    ensures few { length (told_signs (answer result)) ≤ length input.old.now }
    ensures before { breaks (answer result) ≡ true → BrokenNextBy carrier.new input.new.now ×
        ReaderRestsBy carrier.new }
    ensures progress { OnSome result
        (2 * length input.new.now + reader_owed_by carrier.new <
        2 * length input.old.now + reader_owed_by carrier.old) }
{
    match carrier {
        ReaderOf::Din(reader) => EventReader::next(reader, input),
        ReaderOf::Usb(reader) => EventReader::next(reader, input),
        ReaderOf::Fire(reader) => EventReader::next(reader, input),
        ReaderOf::Ble(reader) => EventReader::next(reader, input),
    }
}

/// What only the end makes known to a carrier's reader.
fn last_seen(carrier: &mut ReaderOf) -> Option<Seen<'static>>
    ensures spec { reader_spec_by carrier.new ≡ reader_spec_by carrier.old }
    ensures offset { reader_offset_by carrier.new ≡ reader_offset_by carrier.old }
    ensures partial { is_partial_by carrier.new ≡ is_partial_by carrier.old }
    ensures rests { ReaderRestsBy carrier.new }
    ensures told { (bytes : List ℕ) → ReaderStandsBy carrier.old bytes (known (reader_spec_by carrier.old) bytes) →
        answer result ≡ end_told (reader_spec_by carrier.old) bytes }
    ensures some { OnSome result (answer result ≡ [] → ⊥) }
    ensures once { OnSome result (ReaderRestsBy carrier.old → ⊥) }
    ensures at { (bytes : List ℕ) → ReaderStandsBy carrier.old bytes (known (reader_spec_by carrier.old) bytes) →
        (moments : ℕ → ℕ) (moment_set : ℕ) → last_byte_moment moments (length bytes) ≡ moment_set →
        end_moment (reader_spec_by carrier.old) moments bytes ≡ reader_moment_by carrier.new moment_set }
{
    match carrier {
        ReaderOf::Din(reader) => EventReader::finish(reader),
        ReaderOf::Usb(reader) => EventReader::finish(reader),
        ReaderOf::Fire(reader) => EventReader::finish(reader),
        ReaderOf::Ble(reader) => EventReader::finish(reader),
    }
}

/// The moment of what a carrier's reader told last, where this one was set.
fn moment_by(carrier: &ReaderOf, moment_set: u64) -> u64
    ensures { result ≡ reader_moment_by carrier.now moment_set }
{
    match carrier {
        ReaderOf::Din(reader) => EventReader::moment(reader, moment_set),
        ReaderOf::Usb(reader) => EventReader::moment(reader, moment_set),
        ReaderOf::Fire(reader) => EventReader::moment(reader, moment_set),
        ReaderOf::Ble(reader) => EventReader::moment(reader, moment_set),
    }
}
