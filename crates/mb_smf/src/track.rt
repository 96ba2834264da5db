//! The track chunk with its events.

ghost use Rattle.std.specs.Prelude.{◌≡◌};
ghost use Rattle.mb_smf.specs.FileStep.{given_list};
ghost use Rattle.mb_smf.specs.TrackSteps.{data_count, delta, event_ended, in_bytes, in_data, in_delta, in_first};
ghost use Rattle.mb_smf.specs.TrackSteps.{in_length};
ghost use Rattle.mb_smf.specs.TrackSteps.{length_of, next_event, number_behind, to_come, with_bytes, without_status};

use crate::event_kind::{EventKind, gives_bytes};
use crate::fault::SmfWhy;
use crate::file_place::FilePlace;
use crate::file_state::FileState;
use crate::given_bytes::GivenBytes;
use crate::number::{with_byte, with_seven};
use mb_message::data_len;

impl FileState {
    pub(crate) fn next_event(&mut self)
        ensures { self.new ≡ next_event self.old }
    {
        self.place = FilePlace::Delta(0);
        self.number = 0;
    }

    pub(crate) fn in_delta(&mut self, at: u8, byte: u8) -> GivenBytes
        ensures now { self.new ≡ (in_delta self.old at byte).now }
        ensures given { given_list result ≡ (in_delta self.old at byte).given }
    {
        let number = with_seven(self.number, byte);
        if byte < 128 {
            return self.delta(number);
        }
        if at >= 3 {
            return self.fail(SmfWhy::Number);
        }
        self.place = FilePlace::Delta(at + 1);
        self.number = number;
        GivenBytes::Nothing
    }

    pub(crate) fn delta(&mut self, ticks: u32) -> GivenBytes
        ensures now { self.new ≡ (delta self.old ticks).now }
        ensures given { given_list result ≡ (delta self.old ticks).given }
    {
        if self.clock.pass(ticks) {
            self.place = FilePlace::First;
            self.number = 0;
            GivenBytes::Nothing
        } else {
            self.fail(SmfWhy::Far)
        }
    }

    /// So many data bytes of a channel event are to come.
    fn to_come(&mut self, count: u8)
        ensures { self.new ≡ to_come self.old count }
    {
        if count == 0 {
            self.next_event();
        } else {
            self.place = FilePlace::Data(count);
        }
    }

    /// A data byte where an event begins: the status that runs is given before it.
    pub(crate) fn without_status(&mut self, byte: u8) -> GivenBytes
        ensures now { self.new ≡ (without_status self.old self.old.running byte).now }
        ensures given { given_list result ≡ (without_status self.old self.old.running byte).given }
    {
        match self.running {
            None => self.fail(SmfWhy::Event),
            Some(status) => {
                self.to_come(data_count(status).saturating_sub(1));
                GivenBytes::Two(status, byte)
            }
        }
    }

    pub(crate) fn in_first(&mut self, byte: u8) -> GivenBytes
        ensures now { self.new ≡ (in_first self.old byte).now }
        ensures given { given_list result ≡ (in_first self.old byte).given }
    {
        if byte < 0x80 {
            return self.without_status(byte);
        }
        if byte < 0xf0 {
            self.running = Some(byte);
            self.to_come(data_count(byte));
            return GivenBytes::One(byte);
        }
        if byte == 0xf0 {
            self.place = FilePlace::Length(0, EventKind::Sysex);
        } else if byte == 0xf7 {
            self.place = FilePlace::Length(0, EventKind::Escape);
        } else if byte == 0xff {
            self.place = FilePlace::MetaType;
        } else {
            return self.fail(SmfWhy::Event);
        }
        self.running = None;
        GivenBytes::Nothing
    }

    pub(crate) fn in_data(&mut self, left: u8, byte: u8) -> GivenBytes
        ensures now { self.new ≡ (in_data self.old left byte).now }
        ensures given { given_list result ≡ (in_data self.old left byte).given }
    {
        if byte >= 0x80 {
            return self.fail(SmfWhy::Event);
        }
        self.to_come(left.saturating_sub(1));
        GivenBytes::One(byte)
    }

    /// Behind the last byte of an event.
    pub(crate) fn event_ended(&mut self, kind: EventKind)
        ensures { self.new ≡ event_ended self.old kind }
    {
        match kind {
            EventKind::End => self.place = FilePlace::Ended,
            EventKind::Tempo => {
                self.clock.set_tempo(self.number);
                self.next_event();
            }
            EventKind::Sysex | EventKind::Escape | EventKind::Other => self.next_event(),
        }
    }

    pub(crate) fn with_bytes(&mut self, kind: EventKind, count: u32)
        ensures { self.new ≡ with_bytes self.old kind count }
    {
        if count == 0 {
            self.event_ended(kind);
        } else {
            self.place = FilePlace::Bytes(kind);
            self.event = count;
            self.number = 0;
        }
    }

    pub(crate) fn in_length(&mut self, at: u8, kind: EventKind, byte: u8) -> GivenBytes
        ensures now { self.new ≡ (in_length self.old at kind byte).now }
        ensures given { given_list result ≡ (in_length self.old at kind byte).given }
    {
        let number = with_seven(self.number, byte);
        if byte < 128 {
            return self.length_of(kind, number);
        }
        if at >= 3 {
            return self.fail(SmfWhy::Number);
        }
        self.place = FilePlace::Length(at + 1, kind);
        self.number = number;
        GivenBytes::Nothing
    }

    pub(crate) fn length_of(&mut self, kind: EventKind, length: u32) -> GivenBytes
        ensures now { self.new ≡ (length_of self.old kind length).now }
        ensures given { given_list result ≡ (length_of self.old kind length).given }
    {
        match kind {
            EventKind::Sysex => {
                self.with_bytes(kind, length);
                GivenBytes::One(0xf0)
            }
            EventKind::Tempo => {
                if length != 3 {
                    return self.fail(SmfWhy::Tempo);
                }
                self.with_bytes(kind, length);
                GivenBytes::Nothing
            }
            EventKind::Escape | EventKind::End | EventKind::Other => {
                self.with_bytes(kind, length);
                GivenBytes::Nothing
            }
        }
    }

    pub(crate) fn in_bytes(&mut self, kind: EventKind, byte: u8) -> GivenBytes
        ensures now { self.new ≡ (in_bytes self.old kind byte).now }
        ensures given { given_list result ≡ (in_bytes self.old kind byte).given }
    {
        let last = self.event <= 1;
        self.event = self.event.saturating_sub(1);
        self.number = number_behind(kind, self.number, byte);
        if last {
            self.event_ended(kind);
        }
        if gives_bytes(kind) {
            GivenBytes::One(byte)
        } else {
            GivenBytes::Nothing
        }
    }
}

/// How many data bytes a status has.
fn data_count(status: u8) -> u8
    ensures { result ≡ data_count status }
{
    data_len(status).unwrap_or(0)
}

fn number_behind(kind: EventKind, number: u32, byte: u8) -> u32
    ensures { result ≡ number_behind kind number byte }
{
    match kind {
        EventKind::Tempo => with_byte(number, byte),
        EventKind::Sysex | EventKind::Escape | EventKind::End | EventKind::Other => number,
    }
}
