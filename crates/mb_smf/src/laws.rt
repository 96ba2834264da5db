//! Laws of the definitions. Each function does nothing; what is proved is its contract.

ghost use Rattle.std.specs.Prelude.{◌≡◌, ℕ, List, ◌++◌, None, true};
ghost use Rattle.mb_stream.specs.Denotation.{denotation};
ghost use Rattle.mb_stream.specs.Puts.{Put, signs_in};
ghost use Rattle.mb_stream.specs.Reading.{signs_of};
ghost use Rattle.mb_din.specs.Recording.{din_reading};
ghost use Rattle.mb_smf.specs.Smf.{bare_bytes, smf, smf_ended};
ghost use Rattle.mb_smf.specs.SmfEvents.{IsMidiFile, MidiFile, events_given, first_time, midi_file};
ghost use Rattle.mb_smf.specs.SmfWritten.{CanBeWritten, smf_written, written_given};

/// A file of events is read as the bytes that they give, each at its event's moment, without a fault and up to the
/// track's end. What its header has more, chunks of other types and what follows the track give nothing.
pub fn files_are_read()
    ensures given { (file : MidiFile) (behind : List ℕ) → IsMidiFile file → smf (midi_file file ++ behind)
        ≡ record { given = events_given (first_time file.division) file.events; fault = None } }
    ensures ended { (file : MidiFile) (behind : List ℕ) → IsMidiFile file →
        smf_ended (midi_file file ++ behind) ≡ true }
{}

/// What is written of marks is read as the bytes of their events, each a thousand microseconds later for each
/// millisecond from the first event on. As a byte line's recording these bytes mean what the marks mean.
pub fn written_files_are_read()
    ensures given { (puts : List Put) (more : List ℕ) → CanBeWritten puts →
        smf (smf_written puts ++ more) ≡ record { given = written_given puts; fault = None } }
    ensures ended { (puts : List Put) (more : List ℕ) → CanBeWritten puts →
        smf_ended (smf_written puts ++ more) ≡ true }
    ensures means { (puts : List Put) → CanBeWritten puts →
        denotation (signs_of (din_reading (bare_bytes (written_given puts)))) ≡ denotation (signs_in puts) }
{}
