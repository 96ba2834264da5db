//! What is kept of a file's bytes so far, and one byte more.

ghost use Rattle.std.specs.Prelude.{◌≡◌, ◌+◌, ◌<◌, ◌≤◌, ◌^◌};
ghost use Rattle.mb_smf.specs.FileStep.{fails, given_list};
ghost use Rattle.mb_smf.specs.Smf.{at_place, file_step, fresh_file};
ghost use Rattle.mb_smf.specs.SmfReading.{behind_run, run_room};
ghost use Rattle.mb_smf.specs.TrackSteps.{in_chunk};

use crate::event_kind::{gives_bytes, meta_kind};
use crate::fault::SmfWhy;
use crate::file_place::{FilePlace, is_faulted, is_over};
use crate::given_bytes::GivenBytes;
use crate::track_clock::TrackClock;

/// Where the next byte stands, and what counts of those before it.
#[derive(Debug, Drop)]
pub struct FileState {
    /// The offset of the next byte, or of the one that shows a fault.
    pub offset: u64,
    pub place: FilePlace,
    /// What the bytes of a number before it make.
    pub number: u32,
    /// How many bytes of the chunk are to come.
    pub left: u32,
    /// How many bytes of the event are to come.
    pub event: u32,
    /// The channel status that runs.
    pub running: Option<u8>,
    pub clock: TrackClock,
}

impl FileState {
    pub fn new() -> FileState
        ensures { result ≡ fresh_file }
    {
        FileState {
            offset: 0,
            place: FilePlace::Magic(0),
            number: 0,
            left: 0,
            event: 0,
            running: None,
            clock: TrackClock::new(),
        }
    }

    /// Takes a byte, and answers what it gives.
    pub fn step(&mut self, byte: u8) -> GivenBytes
        requires early { self.old.offset < 2 ^ 63 }
        ensures now { self.new ≡ (file_step self.old byte).now }
        ensures given { given_list result ≡ (file_step self.old byte).given }
        ensures end { self.new.offset ≤ self.old.offset + 1 }
    {
        let at = self.offset;
        let given = self.at_place(byte);
        self.offset = if is_faulted(self.place) { at } else { at + 1 };
        given
    }

    /// How many bytes may be lent at once.
    #[inline(always)]
    pub fn run_room(&self) -> u32
        ensures { result ≡ run_room self.now }
    {
        match self.place {
            FilePlace::Bytes(kind) => {
                if gives_bytes(kind) {
                    self.event.min(self.left.saturating_sub(1))
                } else {
                    0
                }
            }
            _ => 0,
        }
    }

    /// So many bytes were lent.
    #[inline(always)]
    pub fn pass(&mut self, count: u32)
        requires early { self.old.offset + count < 2 ^ 64 }
        requires within { count ≤ run_room self.old }
        ensures { self.new ≡ behind_run self.old count }
    {
        self.offset += u64::from(count);
        if self.event <= count {
            self.next_event();
        }
        self.left = self.left.saturating_sub(count);
        self.event = self.event.saturating_sub(count);
    }

    fn at_place(&mut self, byte: u8) -> GivenBytes
        ensures now { self.new ≡ (at_place self.old self.old.place byte).now }
        ensures given { given_list result ≡ (at_place self.old self.old.place byte).given }
    {
        match self.place {
            FilePlace::Magic(at) => self.in_magic(at, byte),
            FilePlace::HeaderLength(at) => self.in_header_length(at, byte),
            FilePlace::Kind(at) => self.in_kind(at, byte),
            FilePlace::Division(at) => self.in_division(at, byte),
            FilePlace::Rest => self.in_rest(),
            FilePlace::Name(at, is_track) => self.in_name(at, is_track, byte),
            FilePlace::ChunkLength(at, is_track) => self.in_chunk_length(at, is_track, byte),
            FilePlace::Ended | FilePlace::Faulted(_) => GivenBytes::Nothing,
            FilePlace::Delta(at) => {
                self.in_delta(at, byte);
                self.settle(GivenBytes::Nothing)
            }
            FilePlace::First => {
                let given = self.in_first(byte);
                self.settle(given)
            }
            FilePlace::Data(left) => {
                let given = self.in_data(left, byte);
                self.settle(given)
            }
            FilePlace::MetaType => {
                self.place = FilePlace::Length(0, meta_kind(byte));
                self.settle(GivenBytes::Nothing)
            }
            FilePlace::Length(at, kind) => {
                let given = self.in_length(at, kind, byte);
                self.settle(given)
            }
            FilePlace::Bytes(kind) => {
                let given = self.in_bytes(kind, byte);
                self.settle(given)
            }
        }
    }

    /// A byte of the track chunk: at the chunk's last one its end event must be finished.
    pub(crate) fn settle(&mut self, given: GivenBytes) -> GivenBytes
        ensures now { self.new ≡ (in_chunk (record { given = given_list given; now = self.old })).now }
        ensures given { given_list result ≡ (in_chunk (record { given = given_list given; now = self.old })).given }
    {
        if is_over(self.place) {
            return given;
        }
        if self.left > 1 {
            self.left -= 1;
            given
        } else {
            self.fail(SmfWhy::Track)
        }
    }

    pub(crate) fn fail(&mut self, why: SmfWhy) -> GivenBytes
        ensures now { self.new ≡ (fails self.old why).now }
        ensures given { result ≡ GivenBytes.Nothing }
    {
        self.place = FilePlace::Faulted(why);
        GivenBytes::Nothing
    }
}
