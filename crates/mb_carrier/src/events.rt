//! Readers and writers of one port, as a hop's loop sees them: it is written once, over these traits.

ghost use Rattle.std.specs.Prelude.{◌≡◌, ℕ, ◌+◌, ◌*◌, ◌^◌, ◌<◌, ◌≤◌, Bool, true, false, List, [], ◌∷◌, ◌++◌, length};
ghost use Rattle.std.specs.Prelude.{OnSome, IfSome, IfNone};
ghost use Rattle.arrayvec.specs.ArrayVec.{array_vec_len};
ghost use Rattle.mb_message.specs.Signs.{suits_event, IsRunOf, open_behind, signs_of_event};
ghost use Rattle.mb_stream.specs.Appended.{Appended};
ghost use Rattle.mb_stream.specs.Puts.{Put, Flush, signs_in, puts_at};
ghost use Rattle.mb_stream.specs.Standing.{suited, is_open};
ghost use Rattle.mb_stream.specs.Told.{Known};
ghost use Rattle.mb_stream.specs.ReaderLaw.{IsLongest, breaks};
ghost use Rattle.mb_stream.specs.ReaderLaw.{answer};
ghost use Rattle.mb_message.specs.Front.{IsFront};
ghost use Rattle.mb_stream.specs.Reading.{told_signs};
ghost use Rattle.mb_carrier.specs.Carrier.{known, end_told, marks_of, marks_so_far, last_byte_moment, end_moment};
ghost use Rattle.mb_carrier.specs.Carrier.{hop_room_of, hop_longest_of, live, written};
ghost use Rattle.mb_carrier.specs.Hop.{ReaderGoes};
ghost use Rattle.mb_carrier.specs.declared.spec.Spec.{Spec};

use mb_message::{Buf, Ev, Seen};

/// The longest run of SysEx data that a byte line's and a cable's writer take.
pub(crate) const LONGEST_RUN: usize = 16;

/// A reader of one port.
pub trait EventReader {
    /// The port that it reads.
    ghost spec: { Self → Spec };

    /// How many bytes it took.
    ghost offset: { Self → ℕ };

    /// How much may be told before a byte is taken.
    ghost owed: { Self → ℕ };

    /// The moment of what it told last, or tells at the end, where one was set: that one, if its carrier has no clock.
    ghost moment: { Self → (moment_set : ℕ) → ℕ };

    /// What breaks a message stands next: a status in the input, or, where a carrier's packets end messages, a packet's
    /// end.
    ghost broken_next: { Self → List ℕ → Type 0 };

    /// The bytes of its port that stand side by side at the front of an input, as far as it knows.
    ghost beside: { Self → List ℕ → List ℕ };

    /// It took these bytes and told this of them.
    ghost stands: { Self → List ℕ → List Known → Type 0 };

    /// Nothing is begun, running or open on its port.
    ghost rests: { Self → Type 0 };

    /// Whether the bytes that it took stop inside a packet.
    ghost is_partial: { Self → Bool };

    /// The next mark or note of the bytes taken before and of the input, which it takes from the front of the input.
    fn next<'a>(&mut self, input: &mut &'a [u8]) -> Option<Seen<'a>>
        requires early { offset self.old + length input.old.now ≤ 2 ^ 51 + 2 ^ 14 }
        ensures spec { spec self.new ≡ spec self.old }
        ensures end { offset self.new + length input.new.now ≡ offset self.old + length input.old.now }
        ensures progress { OnSome result
            (2 * length input.new.now + owed self.new < 2 * length input.old.now + owed self.old) }
        ensures some { OnSome result (answer result ≡ [] → ⊥) }
        ensures none { IfNone result (input.new.now ≡ []) }
        ensures longest { IfSome result (IsLongest (beside self.new input.new.now)) }
        ensures before { breaks (answer result) ≡ true → broken_next self.new input.new.now × rests self.new }
        ensures few { length (told_signs (answer result)) ≤ length input.old.now }
        ensures goes { (bytes : List ℕ) (told : List Known) → stands self.old bytes told →
            IsFront told (known (spec self.old) (bytes ++ input.old.now)) →
            ReaderGoes (spec self.old) (stands self.new) (moment self.new) input.old.now input.new.now
            (answer result) bytes told }
        ensures all_told { IfNone result ((bytes : List ℕ) (told : List Known) → stands self.old bytes told →
            IsFront told (known (spec self.old) (bytes ++ input.old.now)) →
            told ≡ known (spec self.old) (bytes ++ input.old.now)) };

    /// What only the end makes known. It takes no byte.
    fn finish(&mut self) -> Option<Seen<'static>>
        ensures spec { spec self.new ≡ spec self.old }
        ensures offset { offset self.new ≡ offset self.old }
        ensures partial { is_partial self.new ≡ is_partial self.old }
        ensures rests { rests self.new }
        ensures told { (bytes : List ℕ) → stands self.old bytes (known (spec self.old) bytes) →
            answer result ≡ end_told (spec self.old) bytes }
        ensures some { OnSome result (answer result ≡ [] → ⊥) }
        ensures once { OnSome result (rests self.old → ⊥) }
        ensures at { (bytes : List ℕ) → stands self.old bytes (known (spec self.old) bytes) →
            (moments : ℕ → ℕ) (moment_set : ℕ) →
            last_byte_moment moments (length bytes) ≡ moment_set →
            end_moment (spec self.old) moments bytes ≡ moment self.new moment_set };

    /// The moment of what was told last, where this one was set.
    fn moment(&self, moment_set: u64) -> u64
        ensures { result ≡ moment self.now moment_set };

    /// What is known of some bytes stays known.
    ghost stays: { (r : Self) (bytes more : List ℕ) → IsFront (known (spec r) bytes) (known (spec r) (bytes ++ more)) };

    /// The marks of a reading are those that are known and those that its end tells.
    ghost ends: { (r : Self) (bytes : List ℕ) →
        marks_of (spec r) bytes ≡ marks_so_far (spec r) bytes ++ told_signs (end_told (spec r) bytes) };

    /// What is read of any bytes suits.
    ghost suits: { (r : Self) (bytes : List ℕ) → suited (marks_of (spec r) bytes) ≡ true };
}

/// A writer of one port.
pub trait EventWriter {
    /// The port that it writes.
    ghost spec: { Self → Spec };

    /// Whether a SysEx is open.
    ghost in_sysex: { Self → Bool };

    /// It was given these marks at their moments, and these flushes.
    ghost stands: { Self → List Put → Type 0 };

    /// The free bytes that each of its calls asks for, where a run is no longer than `longest`.
    fn room(&self) -> usize
        ensures room { result ≡ hop_room_of (spec self.now) }
        ensures fits { result ≤ 1024 };

    /// How many bytes the longest run has that `put` takes.
    fn longest(&self) -> usize
        ensures longest { result ≡ hop_longest_of (spec self.now) }
        ensures some { 0 < result };

    /// Appends what an event at its moment is written as, or as much of it as is known now.
    fn put(&mut self, moment: u64, ev: Ev<'_>, out: &mut Buf)
        requires room { array_vec_len out.old + hop_room_of (spec self.old) ≤ 1024 }
        requires suits { suits_event (in_sysex self.old) ev ≡ true }
        requires run { IsRunOf (hop_longest_of (spec self.old)) ev }
        ensures spec { spec self.new ≡ spec self.old }
        ensures in_sysex { in_sysex self.new ≡ open_behind (in_sysex self.old) ev.entry }
        ensures len { array_vec_len out.new ≤ array_vec_len out.old + hop_room_of (spec self.old) }
        ensures stands { (puts : List Put) → stands self.old puts →
            stands self.new (puts ++ puts_at moment (signs_of_event ev.entry)) }
        ensures written { (puts : List Put) → stands self.old puts → Appended out.old.items out.new.items
            (live (spec self.old) puts) (live (spec self.old) (puts ++ puts_at moment (signs_of_event ev.entry))) };

    /// Ends the packet under way, if there is one.
    fn flush(&mut self, out: &mut Buf)
        requires room { array_vec_len out.old + hop_room_of (spec self.old) ≤ 1024 }
        ensures spec { spec self.new ≡ spec self.old }
        ensures in_sysex { in_sysex self.new ≡ in_sysex self.old }
        ensures len { array_vec_len out.new ≤ array_vec_len out.old + hop_room_of (spec self.old) }
        ensures stands { (puts : List Put) → stands self.old puts → stands self.new (puts ++ Flush ∷ []) }
        ensures written { (puts : List Put) → stands self.old puts → Appended out.old.items out.new.items
            (live (spec self.old) puts) (live (spec self.old) (puts ++ Flush ∷ [])) };

    /// Appends what the end of the list adds. Afterwards the writer is as new.
    fn finish(&mut self, out: &mut Buf)
        requires room { array_vec_len out.old + hop_room_of (spec self.old) ≤ 1024 }
        ensures spec { spec self.new ≡ spec self.old }
        ensures in_sysex { in_sysex self.new ≡ false }
        ensures len { array_vec_len out.new ≤ array_vec_len out.old + hop_room_of (spec self.old) }
        ensures stands { (puts : List Put) → stands self.old puts → stands self.new [] }
        ensures written { (puts : List Put) → stands self.old puts → Appended out.old.items out.new.items
            (live (spec self.old) puts) (written (spec self.old) puts) };

    /// Whether a SysEx is open is as the marks say that it was given.
    ghost open_now: { (w : Self) (puts : List Put) → stands w puts → in_sysex w ≡ is_open (signs_in puts) };
}
