//! Commands.

use arrayvec::ArrayVec;
use mb_carrier::Spec;

/// The specs of a chain: two to ten.
pub type Specs = ArrayVec<Spec, 10>;

/// What is to be done.
#[derive(Drop)]
pub enum Command<'a> {
    /// Read by the first spec, write by the last, by way of those between. Where a tally is asked, tell how many bytes
    /// crossed each.
    Convert { tally: bool, specs: Specs },
    /// Print the marks and the notes of a recording.
    Trace(Spec),
    /// Print the notes of a recording.
    Check(Spec),
    /// Write a tape once more, in the second form.
    Migrate,
    /// Write a tape as a Standard MIDI File.
    RecordTape(Spec),
    /// Write a Standard MIDI File as a tape.
    Play,
    /// Write a tape once more as a byte line's, and end the notes that it leaves sounding.
    Guard(Spec),
    /// Write a tape once more as a byte line's, its messages as the rules of a file have them.
    Filter { file: &'a str, spec: Spec },
    /// Merge tapes as the rig of a file has it.
    Run(&'a str),
    /// Check the program on so many units that it makes, the generator's first state given.
    Selftest { start: u32, count: u32 },
}
