//! How a mark is spelled in a packet.

ghost use Rattle.std.specs.Prelude.{◌≡◌, ◌≤◌, ◌+◌, ◌++◌, ℕ, length};
ghost use Rattle.arrayvec.specs.ArrayVec.{array_vec_len};
ghost use Rattle.mb_message.specs.Signs.{ShortSign, sign_of};
ghost use Rattle.mb_stream.specs.Spelling.{data_of};
ghost use Rattle.mb_ble.specs.Written.{stamp, spelling_at, is_left_out, falls, is_far};
ghost use Rattle.mb_ble.specs.UnderWay.{running_in};

use arrayvec::ArrayVec;
use mb_clock::stamp_of;
use mb_message::{Mark, Short, data_len};

/// What stands behind a packet's header: at most 511 bytes, so that there is room for one more spelling, a stamp, a
/// status and two data bytes at most.
pub(crate) type Content = ArrayVec<u8, 516>;

/// The stamp that a mark is spelled with, if it is.
#[inline(always)]
pub(crate) fn stamp(moment: u64, mark: Mark) -> Option<u64>
    ensures { result ≡ stamp (record { moment = moment; mark = sign_of mark }) }
{
    match mark {
        Mark::Byte(_) | Mark::Abort => None,
        Mark::Short(_) | Mark::Rt(_) | Mark::Open | Mark::End => Some(moment),
    }
}

/// Whether the lower seven bits fall from one stamp to another.
#[inline(always)]
pub(crate) fn falls(last: Option<u64>, now: Option<u64>) -> bool
    ensures { result ≡ falls last now }
{
    match (last, now) {
        (Some(last), Some(now)) => stamp_of(now).1 < stamp_of(last).1,
        _ => false,
    }
}

/// Whether a stamp lies 128 or more behind another.
#[inline(always)]
pub(crate) fn is_far(last: Option<u64>, now: Option<u64>) -> bool
    ensures { result ≡ is_far last now }
{
    match (last, now) {
        (Some(last), Some(now)) => last <= now && now - last >= 128,
        _ => false,
    }
}

/// Whether a status is left out where another runs.
#[inline(always)]
fn is_left_out(running: Option<u8>, status: u8) -> bool
    ensures { result ≡ is_left_out running status }
{
    match running {
        None => false,
        Some(last) => last == status,
    }
}

/// How many data bytes a message has. Most have two, so these are asked for first.
#[inline(always)]
fn data_count(short: Short) -> usize
    ensures { result ≡ length (data_of short.status short.data1 short.data2) }
{
    let status = short.status();
    if status < 0xc0 {
        2
    } else if status < 0xe0 {
        1
    } else {
        usize::from(data_len(status).unwrap_or(0))
    }
}

/// How many bytes a short message is spelled as.
#[inline(always)]
fn short_len(running: Option<u8>, short: Short) -> usize
    ensures { (moment : ℕ) → result ≡ length (spelling_at running
        (record { moment = moment; mark = ShortSign short.status short.data1 short.data2 })) }
{
    let data = data_count(short);
    if is_left_out(running, short.status()) {
        1 + data
    } else {
        2 + data
    }
}

/// How many bytes a mark is spelled as, this status running.
#[inline(always)]
pub(crate) fn spelled_len(running: Option<u8>, mark: Mark) -> usize
    ensures len { (moment : ℕ) →
        result ≡ length (spelling_at running (record { moment = moment; mark = sign_of mark })) }
{
    match mark {
        Mark::Short(short) => short_len(running, short),
        Mark::Rt(_) | Mark::Open | Mark::End => 2,
        Mark::Byte(_) => 1,
        Mark::Abort => 0,
    }
}

/// Appends the bytes of a mark, this status running.
#[inline(always)]
pub(crate) fn spell(running: Option<u8>, moment: u64, mark: Mark, content: &mut Content)
    requires room { array_vec_len content.old + 4 ≤ 516 }
    ensures bytes { content.new.items ≡
        content.old.items ++ spelling_at running (record { moment = moment; mark = sign_of mark }) }
{
    let stamp = 0x80 + stamp_of(moment).1;
    match mark {
        Mark::Short(short) => {
            content.push(stamp);
            if !is_left_out(running, short.status()) {
                content.push(short.status());
            }
            put_data(short, content);
        }
        Mark::Rt(rt) => {
            content.push(stamp);
            content.push(rt.byte());
        }
        Mark::Open => {
            content.push(stamp);
            content.push(0xf0);
        }
        Mark::Byte(byte) => content.push(byte),
        Mark::End => {
            content.push(stamp);
            content.push(0xf7);
        }
        Mark::Abort => (),
    }
}

/// Appends the data bytes of a message. Most messages have two, so these are asked for first.
#[inline(always)]
fn put_data(short: Short, content: &mut Content)
    requires { array_vec_len content.old + 2 ≤ 516 }
    ensures { content.new.items ≡ content.old.items ++ data_of short.status short.data1 short.data2 }
{
    let status = short.status();
    if status < 0xc0 {
        content.push(short.data1());
        content.push(short.data2());
    } else if status < 0xe0 {
        content.push(short.data1());
    } else if status < 0xf0 {
        content.push(short.data1());
        content.push(short.data2());
    } else {
        put_common(short, content);
    }
}

/// Appends the data bytes of a System Common message.
#[inline(never)]
fn put_common(short: Short, content: &mut Content)
    requires { array_vec_len content.old + 2 ≤ 516 }
    ensures { content.new.items ≡ content.old.items ++ data_of short.status short.data1 short.data2 }
{
    match short.len() {
        2 => content.push(short.data1()),
        3 => {
            content.push(short.data1());
            content.push(short.data2());
        }
        _ => {}
    }
}

/// The status that runs behind a mark.
#[inline(always)]
pub(crate) fn running(before: Option<u8>, mark: Mark) -> Option<u8>
    ensures { result ≡ running_in before (sign_of mark) }
{
    match mark {
        Mark::Rt(_) => before,
        Mark::Short(short) => (short.status() < 0xf0).then_some(short.status()),
        Mark::Open | Mark::Byte(_) | Mark::End | Mark::Abort => None,
    }
}
