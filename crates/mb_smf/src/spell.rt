//! Numbers and events as bytes.

ghost use Rattle.std.specs.Prelude.{◌≡◌, ◌≤◌, ◌<◌, ◌+◌, ◌/◌, ◌%◌, ◌^◌, ◌++◌, ◌∷◌, [], length, OnOk};
ghost use Rattle.arrayvec.specs.ArrayVec.{array_vec_len};
ghost use Rattle.mb_message.specs.Signs.{ShortSign};
ghost use Rattle.mb_stream.specs.Spelling.{spelled};
ghost use Rattle.mb_smf.specs.SmfEvents.{EscapeEvent, event_bytes, quantity};
ghost use Rattle.mb_smf.specs.SmfWritten.{broken_event, short_event, whole_event};
ghost use Rattle.mb_smf.specs.TrackWriting.{broken_head};

use arrayvec::ArrayVec;
use mb_message::{Memory, Short};

/// What stands before an event's own bytes.
pub type Head = ArrayVec<u8, 16>;

/// How many bytes a number takes.
pub fn quantity_len(number: u64) -> u64
    ensures len { result ≡ length (quantity number) }
    ensures few { result ≤ 4 }
{
    if number < 128 {
        1
    } else if number < 16384 {
        2
    } else if number < 2_097_152 {
        3
    } else {
        4
    }
}

fn seven_bits(number: u64, place: u64) -> u8
    requires { 0 < place }
    ensures { result ≡ 128 + number / place % 128 }
{
    (128 + number / place % 128) as u8
}

/// A number in as few bytes as it needs.
pub fn quantity(number: u64) -> Head
    ensures bytes { result.items ≡ quantity number }
    ensures few { array_vec_len result ≤ 4 }
{
    let mut head = Head::new();
    if number >= 2_097_152 {
        head.push(seven_bits(number, 2_097_152));
    }
    if number >= 16384 {
        head.push(seven_bits(number, 16384));
    }
    if number >= 128 {
        head.push(seven_bits(number, 128));
    }
    head.push((number % 128) as u8);
    head
}

/// Before the data of a SysEx that is broken off: the delta, and the event's own head.
pub fn broken_head(ticks: u64, count: u64) -> Head
    requires { count < 2 ^ 63 }
    ensures { result.items ≡ broken_head ticks count }
{
    let mut head = quantity(ticks);
    head.push(0xf7);
    let length = quantity(count + 1);
    // There is room.
    let _fits = head.try_extend_from_slice(length.as_slice());
    head.push(0xf0);
    head
}

pub fn push(bytes: &mut Vec<u8>, byte: u8) -> Result<(), Memory>
    ensures { OnOk result (bytes.new.items ≡ bytes.old.items ++ byte ∷ []) }
{
    match bytes.push(byte) {
        Ok(()) => Ok(()),
        Err(_) => Err(Memory),
    }
}

pub fn push_all(bytes: &mut Vec<u8>, more: &[u8]) -> Result<(), Memory>
    ensures { OnOk result (bytes.new.items ≡ bytes.old.items ++ more.now) }
{
    match bytes.extend_from_slice(more) {
        Ok(()) => Ok(()),
        Err(_) => Err(Memory),
    }
}

pub fn push_quantity(bytes: &mut Vec<u8>, number: u64) -> Result<(), Memory>
    ensures { OnOk result (bytes.new.items ≡ bytes.old.items ++ quantity number) }
{
    push_all(bytes, quantity(number).as_slice())
}

/// A message as an F7 event.
pub fn push_escape(bytes: &mut Vec<u8>, message: &[u8]) -> Result<(), Memory>
    ensures { OnOk result (bytes.new.items ≡ bytes.old.items ++ event_bytes (EscapeEvent message.now)) }
{
    push(bytes, 0xf7)?;
    push_quantity(bytes, message.len() as u64)?;
    push_all(bytes, message)
}

/// A whole SysEx of this data.
pub fn push_whole(bytes: &mut Vec<u8>, data_bytes: &[u8]) -> Result<(), Memory>
    ensures { OnOk result (bytes.new.items ≡ bytes.old.items ++ event_bytes (whole_event data_bytes.now)) }
{
    let length = data_bytes.len() as u64 + 1;
    push(bytes, 0xf0)?;
    push_quantity(bytes, length)?;
    push_all(bytes, data_bytes)?;
    push(bytes, 0xf7)
}

/// A broken SysEx of this data.
pub fn push_broken(bytes: &mut Vec<u8>, data_bytes: &[u8]) -> Result<(), Memory>
    ensures { OnOk result (bytes.new.items ≡ bytes.old.items ++ event_bytes (broken_event data_bytes.now)) }
{
    push(bytes, 0xf7)?;
    push_quantity(bytes, data_bytes.len() as u64 + 1)?;
    push(bytes, 0xf0)?;
    push_all(bytes, data_bytes)
}

/// A channel message as it is, another as an F7 event.
pub fn push_short(bytes: &mut Vec<u8>, short: Short) -> Result<(), Memory>
    ensures { OnOk result (bytes.new.items ≡
        bytes.old.items ++ event_bytes (short_event short.status short.data1 short.data2)) }
{
    let status = short.status();
    if status >= 0x80 && status < 0xf0 {
        return push_message(bytes, short);
    }
    push(bytes, 0xf7)?;
    push(bytes, short.len())?;
    push_message(bytes, short)
}

/// The status and the data.
fn push_message(bytes: &mut Vec<u8>, short: Short) -> Result<(), Memory>
    ensures { OnOk result (bytes.new.items ≡
        bytes.old.items ++ spelled (ShortSign short.status short.data1 short.data2)) }
{
    push(bytes, short.status())?;
    let len = short.len();
    if len == 2 {
        return push(bytes, short.data1());
    }
    if len == 3 {
        return push_all(bytes, &[short.data1(), short.data2()]);
    }
    Ok(())
}
