//! What keeps a command from going on with its input.

use mb_filter::RulesFault;
use mb_frames::TapeFault;
use mb_rig::Why;
use mb_smf::SmfFault;

/// What is wrong with what is read, or with what it would be written as.
#[derive(Clone, Copy, Debug, PartialEq, Eq)]
pub(crate) enum Fault {
    /// A tape has a fault.
    Tape(TapeFault),
    /// A Standard MIDI File has a fault.
    File(SmfFault),
    /// The file's track would be too long.
    LongTrack,
    /// A mark comes too late behind the last event of the file: their moments in microseconds.
    LongGap { was: u64, now: u64 },
    /// There is no memory.
    Memory,
    /// The rules of a filter have a fault.
    Rules(RulesFault),
    /// The text of a rig has a faulty line.
    Rig { line: u32, why: Why },
}
