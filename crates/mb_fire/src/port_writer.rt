//! What a port's events are written as.

ghost use Rattle.std.specs.Prelude.{◌≡◌, ◌+◌, ◌*◌, ◌/◌, ◌<◌, ◌≤◌, true, false, List, [], ◌∷◌, ◌++◌, length};
ghost use Rattle.arrayvec.specs.ArrayVec.{array_vec_len};
ghost use Rattle.std.specs.Option.{unwrap_or};
ghost use Rattle.mb_message.specs.Bytes.{data_length};
ghost use Rattle.mb_message.specs.Signs.{Sign, suits_event, open_behind, signs_of_event};
ghost use Rattle.mb_stream.specs.Appended.{Appended};
ghost use Rattle.mb_stream.specs.Spelling.{data_of, full_bytes};
ghost use Rattle.mb_fire.specs.Running.{fire_from, dbc_behind};
ghost use Rattle.mb_fire.specs.PortWriter.{Stands, fresh, longest, room, short_room, event_room, frame_size};
ghost use Rattle.mb_fire.specs.Written.{fire_written};

use crate::packet::{put_packet, put_three};
use mb_message::{Buf, Ev, Short, data_len};
use std::marker::Model;

/// A writer of one port's events: a packet for each byte, so that none waits. It takes no memory.
#[derive(Debug, Drop)]
pub struct FirePortWriter {
    port: u8,
    dbc: u8,
    in_sysex: bool,
}

impl Model for FirePortWriter {
    ghost use Rattle.std.specs.Prelude.{◌<◌};
    ghost use Rattle.mb_fire.specs.PortWriter.{Writer};

    ghost Value = { Writer };

    ghost view = { λ w. record { port = w.port; dbc = w.dbc; in_sysex = w.in_sysex } };

    ghost invariant = { λ w. w.port < 64 };
}

impl FirePortWriter {
    /// A writer of a port, 0 to 63.
    pub fn new(port: u8) -> FirePortWriter
        requires { port < 64 }
        ensures port { result.port ≡ port }
        ensures in_sysex { result.in_sysex ≡ false }
        ensures stands { Stands result [] }
    {
        FirePortWriter {
            port,
            dbc: 0,
            in_sysex: false,
        }
    }

    /// The port that it writes.
    #[inline(always)]
    pub fn port(&self) -> u8
        ensures port { result ≡ self.now.port }
        ensures within { result < 64 }
    {
        self.port
    }

    /// Whether a SysEx is open.
    #[inline(always)]
    pub fn in_sysex(&self) -> bool
        ensures { result ≡ self.now.in_sysex }
    {
        self.in_sysex
    }

    /// How many bytes a run has at most for which `room` is enough.
    #[inline(always)]
    pub fn longest(&self) -> usize
        ensures { result ≡ longest self.now.port }
    {
        if self.port < 8 { 16 } else { 3 }
    }

    /// The most free bytes that `put` asks for, where a run has no more than `longest` bytes.
    #[inline(always)]
    pub fn room(&self) -> usize
        ensures { result ≡ room self.now.port }
    {
        if self.port < 8 { 672 } else { 798 }
    }

    /// The most free bytes that `put` asks for, of an event of at most three bytes.
    #[inline(always)]
    pub fn short_room(&self) -> usize
        ensures room { result ≡ short_room self.now.port }
        ensures fits { result ≤ 798 }
    {
        3 * (42 + 32 * usize::from(self.port / 8))
    }

    /// Appends a packet for each byte of an event.
    #[inline(always)]
    pub fn put(&mut self, ev: Ev<'_>, out: &mut Buf)
        requires room { array_vec_len out.old + event_room self.old.port ev ≤ 1024 }
        requires suits { suits_event self.old.in_sysex ev ≡ true }
        ensures port { self.new.port ≡ self.old.port }
        ensures in_sysex { self.new.in_sysex ≡ open_behind self.old.in_sysex ev.entry }
        ensures len { array_vec_len out.new ≡ array_vec_len out.old + event_room self.old.port ev.entry }
        ensures stands { (marks : List Sign) → Stands self.old marks →
            Stands self.new (marks ++ signs_of_event ev.entry) }
        ensures written { (marks : List Sign) → Stands self.old marks →
            Appended out.old.items out.new.items
            (fire_written self.old.port marks) (fire_written self.old.port (marks ++ signs_of_event ev.entry)) }
    {
        self.write(ev, out);
    }

    /// Nothing waits, so nothing is written. Afterwards the writer is as new.
    pub fn finish(&mut self, out: &mut Buf)
        ensures as_new { self.new ≡ fresh self.old.port }
        ensures stands { Stands self.new [] }
        ensures written { out.new.items ≡ out.old.items }
    {
        let _ = out;
        self.dbc = 0;
        self.in_sysex = false;
    }

    /// `put`, said byte by byte.
    #[inline(always)]
    fn write(&mut self, ev: Ev<'_>, out: &mut Buf)
        requires room { array_vec_len out.old + event_room self.old.port ev ≤ 1024 }
        requires suits { suits_event self.old.in_sysex ev ≡ true }
        ensures port { self.new.port ≡ self.old.port }
        ensures in_sysex { self.new.in_sysex ≡ open_behind self.old.in_sysex ev.entry }
        ensures count { self.new.dbc ≡ dbc_behind self.old.dbc (full_bytes (signs_of_event ev.entry)) }
        ensures written { out.new.items ≡
            out.old.items ++ fire_from self.old.port self.old.dbc (full_bytes (signs_of_event ev.entry)) }
        ensures len { array_vec_len out.new ≡ array_vec_len out.old + event_room self.old.port ev.entry }
    {
        match ev {
            Ev::Short(short) => {
                self.dbc = put_short(self.port, self.dbc, short, out);
                self.in_sysex = false;
            }
            Ev::Rt(message) => self.dbc = put_one(self.port, self.dbc, message.byte(), out),
            Ev::Open => {
                self.dbc = put_one(self.port, self.dbc, 0xf0, out);
                self.in_sysex = true;
            }
            Ev::Run(bytes) => self.dbc = put_bytes(self.port, self.dbc, bytes, out),
            Ev::End => {
                self.dbc = put_one(self.port, self.dbc, 0xf7, out);
                self.in_sysex = false;
            }
            Ev::Abort => self.in_sysex = false,
        }
    }
}

/// Appends the packets of a short message, and answers the count behind them.
#[inline(always)]
fn put_short(port: u8, dbc: u8, short: Short, out: &mut Buf) -> u8
    requires port { port < 64 }
    requires room { array_vec_len out.old +
        frame_size (port / 8) * length (short.status ∷ data_of short.status short.data1 short.data2) ≤ 1024 }
    ensures count { result ≡ dbc_behind dbc (short.status ∷ data_of short.status short.data1 short.data2) }
    ensures written { out.new.items ≡
        out.old.items ++ fire_from port dbc (short.status ∷ data_of short.status short.data1 short.data2) }
    ensures len { array_vec_len out.new ≡ array_vec_len out.old +
        frame_size (port / 8) * length (short.status ∷ data_of short.status short.data1 short.data2) }
{
    let len = data_count(short.status());
    if len == 0 {
        put_one(port, dbc, short.status(), out)
    } else if len == 1 {
        let next = put_one(port, dbc, short.status(), out);
        put_one(port, next, short.data1(), out)
    } else {
        put_each_of_three(
            port,
            dbc,
            (short.status(), short.data1(), short.data2()),
            out,
        )
    }
}

/// How many data bytes a message of this status has. Most have two, and most of these are asked for first.
#[inline(always)]
fn data_count(status: u8) -> u8
    ensures { result ≡ unwrap_or (data_length status) 0 }
{
    if status >= 0x80 && status < 0xc0 {
        return 2;
    }
    data_len(status).unwrap_or(0)
}

/// Appends a packet for a byte, and answers the count behind it.
#[inline(always)]
fn put_one(port: u8, dbc: u8, byte: u8, out: &mut Buf) -> u8
    requires port { port < 64 }
    requires room { array_vec_len out.old + frame_size (port / 8) ≤ 1024 }
    ensures count { result ≡ dbc_behind dbc (byte ∷ []) }
    ensures written { out.new.items ≡ out.old.items ++ fire_from port dbc (byte ∷ []) }
    ensures len { array_vec_len out.new ≡ array_vec_len out.old + frame_size (port / 8) }
{
    put_packet(port, dbc, byte, out);
    dbc.wrapping_add(8)
}

/// Appends a packet for each of three bytes, and answers the count behind them.
#[inline(always)]
fn put_each_of_three(port: u8, dbc: u8, bytes: (u8, u8, u8), out: &mut Buf) -> u8
    requires port { port < 64 }
    requires room { array_vec_len out.old + frame_size (port / 8) * 3 ≤ 1024 }
    ensures count { result ≡ dbc_behind dbc (bytes.0 ∷ bytes.1 ∷ bytes.2 ∷ []) }
    ensures written { out.new.items ≡ out.old.items ++ fire_from port dbc (bytes.0 ∷ bytes.1 ∷ bytes.2 ∷ []) }
    ensures len { array_vec_len out.new ≡ array_vec_len out.old + frame_size (port / 8) * 3 }
{
    if port < 8 {
        put_three(port, dbc, bytes.0, bytes.1, bytes.2, out);
        return dbc.wrapping_add(24);
    }
    let second = put_one(port, dbc, bytes.0, out);
    let third = put_one(port, second, bytes.1, out);
    put_one(port, third, bytes.2, out)
}

/// Appends a packet for each byte, and answers the count behind them.
#[inline(always)]
fn put_bytes(port: u8, dbc: u8, bytes: &[u8], out: &mut Buf) -> u8
    requires port { port < 64 }
    requires room { array_vec_len out.old + frame_size (port / 8) * length bytes.now ≤ 1024 }
    ensures count { result ≡ dbc_behind dbc bytes.now }
    ensures written { out.new.items ≡ out.old.items ++ fire_from port dbc bytes.now }
    ensures len { array_vec_len out.new ≡ array_vec_len out.old + frame_size (port / 8) * length bytes.now }
{
    if let [first, second, third] = bytes {
        return put_each_of_three(port, dbc, (*first, *second, *third), out);
    }
    put_each(port, dbc, bytes, out)
}

/// `put_bytes` a packet at a time. It stands by itself, so that what three bytes take is compiled into its callers.
#[inline(never)]
fn put_each(port: u8, dbc: u8, bytes: &[u8], out: &mut Buf) -> u8
    requires port { port < 64 }
    requires room { array_vec_len out.old + frame_size (port / 8) * length bytes.now ≤ 1024 }
    ensures count { result ≡ dbc_behind dbc bytes.now }
    ensures written { out.new.items ≡ out.old.items ++ fire_from port dbc bytes.now }
    ensures len { array_vec_len out.new ≡ array_vec_len out.old + frame_size (port / 8) * length bytes.now }
{
    let mut rest = bytes;
    let mut count = dbc;
    'bytes: while let Some((byte, tail)) = rest.split_first() {
        put_packet(port, count, *byte, out);
        count = count.wrapping_add(8);
        rest = tail;
    }
    count
}
