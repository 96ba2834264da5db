//! Writing a file mark by mark.

ghost use Rattle.std.specs.Prelude.{◌≡◌, ℕ, ◌≤◌, ◌+◌, ◌%◌, ◌++◌, ◌∷◌, [], List, length, true, false, Some, OnOk, OnErr};
ghost use Rattle.mb_message.specs.Signs.{sign_of, suits_sign};
ghost use Rattle.mb_stream.specs.Puts.{Put, At};
ghost use Rattle.mb_outside.specs.Cause.{HasCause};
ghost use Rattle.mb_outside.specs.Taking.{TookFront};
ghost use Rattle.mb_smf.specs.SmfEvents.{quantity};
ghost use Rattle.mb_smf.specs.SmfWritten.{longest, smf_written, ticks_behind};
ghost use Rattle.mb_smf.specs.TrackWriting.{FullBy, TrackWrites, closed, end_bytes, gap_behind, head_bytes};
ghost use Rattle.mb_smf.specs.TrackWriting.{is_full, nothing_written, put_behind};

use crate::hand_on::take_both;
use crate::spell::{
    broken_head, push, push_broken, push_escape, push_quantity, push_short, push_whole,
    quantity_len,
};
use mb_message::{Mark, Memory};
use mb_outside::{Out, Refused};
use std::alloc::Global;
use std::marker::Model;

/// Why no more marks can be put.
#[derive(Clone, Copy, Debug, PartialEq, Eq)]
pub enum SmfFull {
    /// The mark's event, or the one that would break its SysEx, comes too late behind the last: their moments.
    Gap { was: u64, now: u64 },
    /// The track would have more than 268,435,455 bytes.
    Track,
    Memory(Memory),
}

/// The longest track, and the greatest delta.
const LONGEST: u64 = 268_435_455;

/// Writes a Standard MIDI File of format 0, with a millisecond as its tick. Its track stands in memory, since a file
/// tells the track's length before it.
#[derive(Debug, Drop)]
pub struct SmfWriter {
    /// The events so far, each behind its delta.
    body: Vec<u8>,
    /// The moment of the last event.
    last: Option<u64>,
    /// The data of the open SysEx.
    data_bytes: Vec<u8>,
    in_sysex: bool,
    /// The moment of the last mark.
    moment: u64,
}

impl Model for SmfWriter {
    ghost use Rattle.mb_smf.specs.TrackWriting.{TrackWriting};

    ghost Value = { TrackWriting };

    ghost view = { λ w. record {
      body = w.body.items;
      last = w.last;
      data_bytes = w.data_bytes.items;
      open_now = w.in_sysex;
      moment = w.moment;
    } };
}

impl SmfWriter {
    /// No mark yet. Takes no memory.
    pub fn new(alloc: Global) -> SmfWriter
        ensures nothing { result ≡ nothing_written }
        ensures writes { TrackWrites result [] }
        ensures short { is_full result ≡ false }
    {
        SmfWriter {
            body: Vec::new(alloc),
            last: None,
            data_bytes: Vec::new(alloc),
            in_sysex: false,
            moment: 0,
        }
    }

    /// Whether a SysEx is open.
    pub fn in_sysex(&self) -> bool
        ensures { result ≡ self.now.open_now }
    {
        self.in_sysex
    }

    /// The moment of the last mark, and 0 before any.
    pub fn moment(&self) -> u64
        ensures { result ≡ self.now.moment }
    {
        self.moment
    }

    /// The next mark, at its moment in microseconds; it suits, and isn't earlier than the last. After a refusal the
    /// writer is given up.
    pub fn put(&mut self, moment: u64, mark: Mark) -> Result<(), SmfFull>
        requires suits { suits_sign self.old.open_now (sign_of mark) ≡ true }
        requires order { self.old.moment ≤ moment }
        ensures writes { OnOk result ((puts : List Put) → TrackWrites self.old puts →
            TrackWrites self.new (puts ++ At moment (sign_of mark) ∷ [])) }
        ensures cause { (puts : List Put) → TrackWrites self.old puts → FullBy puts moment (sign_of mark) result }
        ensures moment { OnOk result (self.new.moment ≡ moment) }
        ensures short { OnOk result (is_full self.new ≡ false) }
    {
        if let Some(was) = self.gap(moment) {
            return Err(SmfFull::Gap { was, now: moment });
        }
        if let Err(none) = self.write(moment, mark) {
            return Err(SmfFull::Memory(none));
        }
        if self.is_full() {
            return Err(SmfFull::Track);
        }
        Ok(())
    }

    /// Hands the file on, an open SysEx broken off at the last moment. After `Refused` a front of it was handed on.
    pub fn finish<K: Out>(self, out: &mut K) -> Result<(), Refused>
        requires short { is_full self ≡ false }
        requires ready { K.ready out.old }
        ensures ready { K.ready out.new }
        ensures cause { HasCause (K.refusals out.old) (K.refusals out.new) result }
        ensures sound { OnOk result (K.refusals out.new ≡ K.refusals out.old) }
        ensures took { (puts : List Put) → TrackWrites self puts →
            OnOk result (K.took out.old (smf_written puts) out.new) }
        ensures front { (puts : List Put) → TrackWrites self puts →
            OnErr result (TookFront K.took out.old out.new (smf_written puts)) }
    {
        let head = file_head(self.track_len());
        if let Err(refused) = take_both(&head, self.body.as_slice(), out) {
            return Err(refused);
        }
        self.take_end(out)
    }

    /// The event that breaks an open SysEx, and the track's end.
    fn take_end<K: Out>(&self, out: &mut K) -> Result<(), Refused>
        requires ready { K.ready out.old }
        ensures ready { K.ready out.new }
        ensures cause { HasCause (K.refusals out.old) (K.refusals out.new) result }
        ensures sound { OnOk result (K.refusals out.new ≡ K.refusals out.old) }
        ensures took { OnOk result (K.took out.old (closed self.now ++ end_bytes) out.new) }
        ensures front { OnErr result (TookFront K.took out.old out.new (closed self.now ++ end_bytes)) }
    {
        let end = [0, 0xff, 0x2f, 0];
        if !self.in_sysex {
            return out.take(&end);
        }
        let ticks = ticks_behind(self.last, self.moment);
        let head = broken_head(ticks, self.data_bytes.len() as u64);
        if let Err(refused) = take_both(head.as_slice(), self.data_bytes.as_slice(), out) {
            return Err(refused);
        }
        out.take(&end)
    }

    /// The moment of the last event, where one at this moment comes too late.
    fn gap(&self, moment: u64) -> Option<u64>
        ensures { result ≡ gap_behind self.now.last moment }
    {
        if ticks_behind(self.last, moment) > LONGEST {
            self.last
        } else {
            None
        }
    }

    /// Whether the track, an open SysEx broken off, is too long.
    fn is_full(&self) -> bool
        ensures { result ≡ is_full self.now }
    {
        let body = self.body.len() as u64;
        if body > LONGEST {
            return true;
        }
        if !self.in_sysex {
            return 11 + body > LONGEST;
        }
        let count = self.data_bytes.len() as u64;
        if count > LONGEST {
            return true;
        }
        self.track_len() > LONGEST
    }

    /// How many bytes the track has, an open SysEx broken off.
    fn track_len(&self) -> u64
        requires body { length self.now.body ≤ longest }
        requires count { self.now.open_now ≡ true → length self.now.data_bytes ≤ longest }
        ensures { result ≡ 11 + length (self.now.body ++ closed self.now) }
    {
        let body = self.body.len() as u64;
        if !self.in_sysex {
            return 11 + body;
        }
        let count = self.data_bytes.len() as u64;
        let ticks = ticks_behind(self.last, self.moment);
        13 + body + quantity_len(ticks) + quantity_len(count + 1) + count
    }

    /// The next mark, without a look at how long the track becomes.
    fn write(&mut self, moment: u64, mark: Mark) -> Result<(), Memory>
        ensures { OnOk result (self.new ≡ put_behind self.old moment (sign_of mark)) }
    {
        match mark {
            Mark::Short(short) => {
                self.delta(moment)?;
                push_short(&mut self.body, short)?;
            }
            Mark::Rt(message) => {
                self.delta(moment)?;
                push_escape(&mut self.body, &[message.byte()])?;
            }
            Mark::Open => {
                self.data_bytes.clear();
                self.in_sysex = true;
            }
            Mark::Byte(byte) => push(&mut self.data_bytes, byte)?,
            Mark::End => {
                self.delta(moment)?;
                push_whole(&mut self.body, self.data_bytes.as_slice())?;
                self.data_bytes.clear();
                self.in_sysex = false;
            }
            Mark::Abort => {
                self.delta(moment)?;
                push_broken(&mut self.body, self.data_bytes.as_slice())?;
                self.data_bytes.clear();
                self.in_sysex = false;
            }
        }
        self.moment = moment;
        Ok(())
    }

    /// The delta of an event at this moment.
    fn delta(&mut self, moment: u64) -> Result<(), Memory>
        ensures { OnOk result (self.new ≡ record self.old {
          body = self.old.body ++ quantity (ticks_behind self.old.last moment);
          last = Some moment;
        }) }
    {
        push_quantity(&mut self.body, ticks_behind(self.last, moment))?;
        self.last = Some(moment);
        Ok(())
    }
}

fn ticks_behind(last: Option<u64>, moment: u64) -> u64
    ensures { result ≡ ticks_behind last moment }
{
    match last {
        None => 0,
        Some(was) => (moment / 1000).saturating_sub(was / 1000),
    }
}

/// The chunks' heads, and the tempo.
fn file_head(length: u64) -> [u8; 29]
    ensures { result ≡ head_bytes length }
{
    let third = length / 256;
    let second = third / 256;
    let first = second / 256;
    let [first, second, third, fourth] = [
        low_byte(first),
        low_byte(second),
        low_byte(third),
        low_byte(length),
    ];
    [
        0x4d, 0x54, 0x68, 0x64, 0, 0, 0, 6, 0, 0, 0, 1, 0x03, 0xe8, // "MThd"
        0x4d, 0x54, 0x72, 0x6b, first, second, third, fourth, // "MTrk"
        0, 0xff, 0x51, 3, 0x0f, 0x42, 0x40,
    ]
}

fn low_byte(number: u64) -> u8
    ensures { result ≡ number % 256 }
{
    (number % 256) as u8
}
