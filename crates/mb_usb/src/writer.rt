//! What a cable's events are written as.

ghost use Rattle.std.specs.Prelude.{◌≡◌, ◌+◌, ◌*◌, ◌<◌, ◌≤◌, true, false, List, [], ◌++◌, length, map};
ghost use Rattle.arrayvec.specs.ArrayVec.{array_vec_len};
ghost use Rattle.mb_message.specs.Signs.{Sign, ShortSign, ByteSign, EndSign, AbortSign, suits_event, IsShortRun};
ghost use Rattle.mb_message.specs.Signs.{open_behind, signs_of_event};
ghost use Rattle.mb_stream.specs.Appended.{Appended};
ghost use Rattle.mb_usb.specs.Waiting.{waiting, opens};
ghost use Rattle.mb_usb.specs.Running.{usb_at, usb_from, pending_from};
ghost use Rattle.mb_usb.specs.Writer.{Stands, fresh};
ghost use Rattle.mb_usb.specs.Written.{usb_live, usb_written};

use crate::packet::{ENDS, GOES_ON, number_of_short, put_packet, put_single};
use mb_message::{Buf, Ev, Short};
use std::marker::Model;

/// The free bytes that `put` asks for: a run of 16 bytes completes two that waited, six packets in all.
pub const PUT_ROOM: usize = 24;
/// The free bytes that `finish` asks for: two packets.
pub const FINISH_ROOM: usize = 8;

/// What is kept of the open SysEx: its bytes that fill no packet yet.
#[derive(Clone, Copy, Debug, PartialEq, Eq)]
enum Sysex {
    /// None is open.
    Closed,
    /// All its bytes were written.
    Whole,
    /// One byte waits.
    One(u8),
    /// Two bytes wait, the older one first.
    Two(u8, u8),
}

/// A writer of one cable's events. It keeps up to two bytes of a SysEx.
#[derive(Debug, Drop)]
pub struct UsbWriter {
    cable: u8,
    sysex: Sysex,
}

impl Model for UsbWriter {
    ghost use Rattle.std.specs.Prelude.{◌<◌};
    ghost use Rattle.mb_usb.specs.Writer.{Writer};

    ghost Value = { Writer };

    ghost use Rattle.mb_usb.specs.Waiting.{waiting, opens};

    ghost view = { λ w. record { cable = w.cable; in_sysex = opens w.sysex; pending = waiting w.sysex } };

    ghost invariant = { λ w. w.cable < 16 };
}

impl UsbWriter {
    /// A writer of a cable, 0 to 15.
    pub fn new(cable: u8) -> UsbWriter
        requires { cable < 16 }
        ensures cable { result.cable ≡ cable }
        ensures in_sysex { result.in_sysex ≡ false }
        ensures stands { Stands result [] }
    {
        UsbWriter {
            cable,
            sysex: Sysex::Closed,
        }
    }

    /// Whether a SysEx is open.
    #[inline(always)]
    pub fn in_sysex(&self) -> bool
        ensures { result ≡ self.now.in_sysex }
    {
        !matches!(self.sysex, Sysex::Closed)
    }

    /// Appends the packets that an event completes. A run has at most 16 bytes.
    #[inline(always)]
    pub fn put(&mut self, ev: Ev<'_>, out: &mut Buf)
        requires room { array_vec_len out.old + PUT_ROOM ≤ 1024 }
        requires suits { suits_event self.old.in_sysex ev ≡ true }
        requires run { IsShortRun ev }
        ensures cable { self.new.cable ≡ self.old.cable }
        ensures in_sysex { self.new.in_sysex ≡ open_behind self.old.in_sysex ev.entry }
        ensures len { array_vec_len out.new ≤ array_vec_len out.old + PUT_ROOM }
        ensures stands { (marks : List Sign) → Stands self.old marks →
            Stands self.new (marks ++ signs_of_event ev.entry) }
        ensures written { (marks : List Sign) → Stands self.old marks →
            Appended out.old.items out.new.items
            (usb_live self.old.cable marks) (usb_live self.old.cable (marks ++ signs_of_event ev.entry)) }
    {
        self.write(ev, out);
    }

    /// Appends the bytes that wait, each by itself. Afterwards the writer is as new.
    pub fn finish(&mut self, out: &mut Buf)
        requires room { array_vec_len out.old + FINISH_ROOM ≤ 1024 }
        ensures as_new { self.new ≡ fresh self.old.cable }
        ensures len { array_vec_len out.new ≤ array_vec_len out.old + FINISH_ROOM }
        ensures stands { Stands self.new [] }
        ensures written { (marks : List Sign) → Stands self.old marks →
            Appended out.old.items out.new.items (usb_live self.old.cable marks) (usb_written self.old.cable marks) }
    {
        put_rest(self.cable, self.sysex, out);
        self.sysex = Sysex::Closed;
    }

    /// `put`, said mark by mark.
    #[inline(always)]
    fn write(&mut self, ev: Ev<'_>, out: &mut Buf)
        requires room { array_vec_len out.old + PUT_ROOM ≤ 1024 }
        requires suits { suits_event self.old.in_sysex ev ≡ true }
        requires run { IsShortRun ev }
        ensures cable { self.new.cable ≡ self.old.cable }
        ensures in_sysex { self.new.in_sysex ≡ open_behind self.old.in_sysex ev.entry }
        ensures pending { self.new.pending ≡ pending_from self.old.pending (signs_of_event ev.entry) }
        ensures written { out.new.items ≡
            out.old.items ++ usb_from self.old.cable self.old.pending (signs_of_event ev.entry) }
        ensures len { array_vec_len out.new ≤ array_vec_len out.old + PUT_ROOM }
    {
        match ev {
            Ev::Short(short) => put_short(self.cable, short, out),
            Ev::Rt(message) => put_single(self.cable, message.byte(), out),
            Ev::Open => self.sysex = Sysex::One(0xf0),
            Ev::Run(bytes) => self.sysex = put_run(self.cable, self.sysex, bytes, out),
            Ev::End => {
                put_end(self.cable, self.sysex, out);
                self.sysex = Sysex::Closed;
            }
            Ev::Abort => {
                put_rest(self.cable, self.sysex, out);
                self.sysex = Sysex::Closed;
            }
        }
    }
}

/// Appends a short message.
#[inline(always)]
fn put_short(cable: u8, short: Short, out: &mut Buf)
    requires cable { cable < 16 }
    requires room { array_vec_len out.old + 4 ≤ 1024 }
    ensures written { out.new.items ≡
        out.old.items ++ usb_at cable [] (ShortSign short.status short.data1 short.data2) }
    ensures len { array_vec_len out.new ≡ array_vec_len out.old + 4 }
{
    let number = number_of_short(short.status());
    put_packet(
        cable,
        number,
        (short.status(), short.data1(), short.data2()),
        out,
    );
}

/// Appends the packets that a run completes, and answers what waits then.
#[inline(always)]
fn put_run(cable: u8, sysex: Sysex, bytes: &[u8], out: &mut Buf) -> Sysex
    requires cable { cable < 16 }
    requires room { 3 * array_vec_len out.old + 4 * (length bytes.now + 2) ≤ 3 * 1024 }
    ensures opened { 0 < length bytes.now → opens result ≡ true }
    ensures waits { waiting result ≡ pending_from (waiting sysex) (map ByteSign bytes.now) }
    ensures written { out.new.items ≡ out.old.items ++ usb_from cable (waiting sysex) (map ByteSign bytes.now) }
    ensures len { 3 * array_vec_len out.new ≤ 3 * array_vec_len out.old + 4 * (length bytes.now + 2) }
{
    match sysex {
        Sysex::Closed if bytes.is_empty() => Sysex::Closed,
        Sysex::Closed | Sysex::Whole => put_threes(cable, bytes, out),
        Sysex::One(first) => match bytes {
            [] => Sysex::One(first),
            [second] => Sysex::Two(first, *second),
            [second, third, tail @ ..] => {
                put_packet(cable, GOES_ON, (first, *second, *third), out);
                put_threes(cable, tail, out)
            }
        },
        Sysex::Two(first, second) => match bytes {
            [] => Sysex::Two(first, second),
            [third, tail @ ..] => {
                put_packet(cable, GOES_ON, (first, second, *third), out);
                put_threes(cable, tail, out)
            }
        },
    }
}

/// Appends a packet for each three bytes, and answers what waits then.
#[inline(always)]
fn put_threes(cable: u8, bytes: &[u8], out: &mut Buf) -> Sysex
    requires cable { cable < 16 }
    requires room { 3 * array_vec_len out.old + 4 * length bytes.now ≤ 3 * 1024 }
    ensures opened { opens result ≡ true }
    ensures waits { waiting result ≡ pending_from [] (map ByteSign bytes.now) }
    ensures written { out.new.items ≡ out.old.items ++ usb_from cable [] (map ByteSign bytes.now) }
    ensures len { 3 * array_vec_len out.new ≤ 3 * array_vec_len out.old + 4 * length bytes.now }
{
    let mut rest = bytes;
    'threes: while let [first, second, third, tail @ ..] = rest {
        put_packet(cable, GOES_ON, (*first, *second, *third), out);
        rest = tail;
    }
    match rest {
        [] => Sysex::Whole,
        [first] => Sysex::One(*first),
        [first, second, ..] => Sysex::Two(*first, *second),
    }
}

/// Appends the last packet of a SysEx that ends by F7.
#[inline(always)]
fn put_end(cable: u8, sysex: Sysex, out: &mut Buf)
    requires cable { cable < 16 }
    requires room { array_vec_len out.old + 4 ≤ 1024 }
    ensures written { out.new.items ≡ out.old.items ++ usb_at cable (waiting sysex) EndSign }
    ensures len { array_vec_len out.new ≡ array_vec_len out.old + 4 }
{
    match sysex {
        Sysex::Closed | Sysex::Whole => put_packet(cable, ENDS, (0xf7, 0, 0), out),
        Sysex::One(first) => put_packet(cable, ENDS + 1, (first, 0xf7, 0), out),
        Sysex::Two(first, second) => put_packet(cable, ENDS + 2, (first, second, 0xf7), out),
    }
}

/// Appends the bytes that wait, each by itself.
#[inline(always)]
fn put_rest(cable: u8, sysex: Sysex, out: &mut Buf)
    requires cable { cable < 16 }
    requires room { array_vec_len out.old + 8 ≤ 1024 }
    ensures written { out.new.items ≡ out.old.items ++ usb_at cable (waiting sysex) AbortSign }
    ensures len { array_vec_len out.new ≤ array_vec_len out.old + 8 }
{
    match sysex {
        Sysex::Closed | Sysex::Whole => {}
        Sysex::One(first) => put_single(cable, first, out),
        Sysex::Two(first, second) => {
            put_single(cable, first, out);
            put_single(cable, second, out);
        }
    }
}
