//! A packet, byte by byte (USB-MIDI 1.0, section 4 and table 4-1).

ghost use Rattle.std.specs.Prelude.{◌≡◌, ◌+◌, ◌<◌, ◌≤◌, ◌++◌, [], ◌∷◌};
ghost use Rattle.arrayvec.specs.ArrayVec.{array_vec_len};
ghost use Rattle.mb_usb.specs.Packets.{packet, cin_of_short, single};

use mb_message::Buf;

/// The code index number of a SysEx that goes on, or starts, with three bytes.
pub const GOES_ON: u8 = 4;
/// The code index number of a SysEx that ends with one byte; with two and with three it is the next, and the one after.
pub const ENDS: u8 = 5;
/// The code index number of a byte by itself.
pub const SINGLE: u8 = 15;

/// Appends a packet of three bytes, unused ones 0.
#[inline(always)]
pub fn put_packet(cable: u8, number: u8, bytes: (u8, u8, u8), out: &mut Buf)
    requires cable { cable < 16 }
    requires number { number < 16 }
    requires room { array_vec_len out.old + 4 ≤ 1024 }
    ensures written { out.new.items ≡ out.old.items ++ packet cable number (bytes.0 ∷ bytes.1 ∷ bytes.2 ∷ []) }
    ensures len { array_vec_len out.new ≡ array_vec_len out.old + 4 }
{
    out.push(cable * 16 + number);
    out.push(bytes.0);
    out.push(bytes.1);
    out.push(bytes.2);
}

/// Appends a packet of a byte by itself.
#[inline(always)]
pub fn put_single(cable: u8, byte: u8, out: &mut Buf)
    requires cable { cable < 16 }
    requires room { array_vec_len out.old + 4 ≤ 1024 }
    ensures written { out.new.items ≡ out.old.items ++ single cable byte }
    ensures len { array_vec_len out.new ≡ array_vec_len out.old + 4 }
{
    put_packet(cable, SINGLE, (byte, 0, 0), out);
}

/// The code index number of a short message. The channel messages, of which most are, take one test.
#[inline(always)]
pub fn number_of_short(status: u8) -> u8
    ensures number { result ≡ cin_of_short status }
    ensures below { result < 16 }
{
    if status >= 0x80 && status < 0xf0 {
        return status / 16;
    }
    match status {
        0xf2 => 3,
        0xf6 => 5,
        _ => 2,
    }
}
