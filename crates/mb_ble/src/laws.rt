//! Laws of the definitions. Each function does nothing; what is proved is its contract.

ghost use Rattle.std.specs.Prelude.{◌≡◌, ◌+◌, ◌≤◌, ◌*◌, ◌++◌, ℕ, List, [], length, true};
ghost use Rattle.mb_message.specs.Front.{IsFront};
ghost use Rattle.mb_stream.specs.Denotation.{denotation};
ghost use Rattle.mb_stream.specs.Reading.{notes_of, signs_of};
ghost use Rattle.mb_stream.specs.Standing.{AreValid, suited};
ghost use Rattle.mb_stream.specs.Puts.{Put, signs_in, last_put};
ghost use Rattle.mb_ble.specs.Packets.{all_tokens, clock};
ghost use Rattle.mb_ble.specs.Reading.{ble_known, ble_reading, ble_whole, last_tokens};
ghost use Rattle.mb_ble.specs.News.{news_from};
ghost use Rattle.mb_ble.specs.HeldBack.{HeldBack};
ghost use Rattle.mb_ble.specs.Distances.{IsRising, AreClose, KeepDistances, KeepStamps, message_moments, puts_read};
ghost use Rattle.mb_ble.specs.Running.{flushed, live, under_way};
ghost use Rattle.mb_ble.specs.Written.{Spelled, IsPacketsOf, packets, ble_live, ble_written};

/// The packets of what stands between two flushes are one list.
pub fn one_list_of_packets()
    ensures some { (size : ℕ) (run : List Spelled) → IsPacketsOf size run (packets size run) }
    ensures only { (size : ℕ) (run : List Spelled) (ps : List (List Spelled)) → IsPacketsOf size run ps →
        ps ≡ packets size run }
{}

/// What is written as it comes, and at last the packet under way.
pub fn ble_writing()
    ensures live { (size : ℕ) (puts : List Put) → ble_live size puts ≡ live size puts }
    ensures all { (size : ℕ) (puts : List Put) →
        ble_written size puts ≡ ble_live size puts ++ flushed (under_way size puts) }
{}

/// What is held back is at most one packet: what is written so far is all that is written of what came before its
/// marks.
pub fn one_packet_is_held_back()
    ensures { (size : ℕ) (puts : List Put) → 5 ≤ size → HeldBack size puts }
{}

/// What is written is whole frames, of at most seven bytes a mark.
pub fn ble_written_is_bounded()
    ensures size { (size : ℕ) (puts : List Put) → length (ble_written size puts) ≤ 7 * length (signs_in puts) }
    ensures whole { (size : ℕ) (puts : List Put) → ble_whole (ble_written size puts) ≡ true }
    ensures live { (size : ℕ) (puts : List Put) → ble_whole (ble_live size puts) ≡ true }
{}

/// What is known of some bytes stays known.
pub fn ble_reading_grows()
    ensures { (bytes more : List ℕ) → IsFront (ble_known bytes) (ble_known (bytes ++ more)) }
{}

/// What is read of packets is what each token makes known in turn.
pub fn ble_reading_token_by_token()
    ensures { (bytes : List ℕ) → ble_known bytes ≡ news_from [] (all_tokens bytes) }
{}

/// The marks of the reading of any bytes are valid and stand where a stream can have them. They are at most two a byte.
pub fn ble_reading_suits()
    ensures suits { (bytes : List ℕ) → suited (signs_of (ble_reading bytes)) ≡ true }
    ensures valid { (bytes : List ℕ) → AreValid (signs_of (ble_reading bytes)) }
    ensures few { (bytes : List ℕ) → length (signs_of (ble_reading bytes)) ≤ 2 * length bytes }
{}

/// What is read of written packets means what the marks mean, is at most one mark more, and has no note: at every size,
/// whatever the moments and the flushes are.
pub fn ble_carries()
    ensures means { (size : ℕ) (puts : List Put) → suited (signs_in puts) ≡ true → AreValid (signs_in puts) →
        denotation (signs_of (ble_reading (ble_written size puts))) ≡ denotation (signs_in puts) }
    ensures one_more { (size : ℕ) (puts : List Put) → suited (signs_in puts) ≡ true → AreValid (signs_in puts) →
        length (signs_of (ble_reading (ble_written size puts))) ≤ length (signs_in puts) + 1 }
    ensures clean { (size : ℕ) (puts : List Put) → suited (signs_in puts) ≡ true → AreValid (signs_in puts) →
        notes_of (ble_reading (ble_written size puts)) ≡ [] }
{}

/// The moments of the marks of a reading never fall, and none is above that of the last stamp.
pub fn ble_moments_rise()
    ensures rises { (bytes : List ℕ) → IsRising 0 (puts_read (ble_reading bytes)) }
    ensures last { (bytes : List ℕ) → last_put 0 (puts_read (ble_reading bytes)) ≤ (clock (last_tokens bytes)).moment }
{}

/// What is read of written packets has the moments that were put, as far as 13 bits can tell them. Where no moment is
/// below the one before, each message has its stamp's bits; and where no two neighbouring messages are 8,192 ms or more
/// apart, all messages lie as far apart as they were put, at every size, whatever the flushes are.
pub fn ble_keeps_distances()
    ensures stamps { (size : ℕ) (puts : List Put) → suited (signs_in puts) ≡ true → AreValid (signs_in puts) →
        IsRising 0 puts →
        KeepStamps (message_moments puts) (message_moments (puts_read (ble_reading (ble_written size puts)))) }
    ensures distances { (size : ℕ) (puts : List Put) → suited (signs_in puts) ≡ true → AreValid (signs_in puts) →
        IsRising 0 puts → AreClose (message_moments puts) →
        KeepDistances (message_moments puts) (message_moments (puts_read (ble_reading (ble_written size puts)))) }
{}
