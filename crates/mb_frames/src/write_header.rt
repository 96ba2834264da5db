//! Writing a tape's magic and headers, in the second form.

ghost use Rattle.std.specs.Prelude.{◌≡◌, ◌+◌, ◌≤◌, ◌++◌, true};
ghost use Rattle.arrayvec.specs.ArrayVec.{array_vec_len};
ghost use Rattle.mb_frames.specs.Numbers.{spelled};
ghost use Rattle.mb_frames.specs.Tapes.{header, magic};

use mb_message::Buf;

/// Appends "MBT2".
pub fn tape_magic(out: &mut Buf)
    requires room { array_vec_len out.old + 16 ≤ 1024 }
    ensures { out.new.items ≡ out.old.items ++ magic true }
{
    out.push(0x4d);
    out.push(0x42);
    out.push(0x54);
    out.push(0x32);
}

/// Appends a record's header: the moment in microseconds, the track, and how many bytes follow.
pub fn put_header(moment: u64, track: u8, len: u16, out: &mut Buf)
    requires room { array_vec_len out.old + 16 ≤ 1024 }
    ensures written { out.new.items ≡ out.old.items ++ header true moment track len }
    ensures len { array_vec_len out.new ≡ array_vec_len out.old + 11 }
{
    put_eight(moment, out);
    out.push(track);
    out.push((len / 256) as u8);
    out.push((len % 256) as u8);
}

/// Appends a number in eight bytes, most significant first.
fn put_eight(number: u64, out: &mut Buf)
    requires room { array_vec_len out.old + 8 ≤ 1024 }
    ensures written { out.new.items ≡ out.old.items ++ spelled 8 number }
    ensures len { array_vec_len out.new ≡ array_vec_len out.old + 8 }
{
    out.push((number / 0x100_0000_0000_0000 % 256) as u8);
    out.push((number / 0x1_0000_0000_0000 % 256) as u8);
    out.push((number / 0x100_0000_0000 % 256) as u8);
    out.push((number / 0x1_0000_0000 % 256) as u8);
    out.push((number / 0x100_0000 % 256) as u8);
    out.push((number / 0x1_0000 % 256) as u8);
    out.push((number / 0x100 % 256) as u8);
    out.push((number % 256) as u8);
}
