//! Writing a frame.

ghost use Rattle.std.specs.Prelude.{◌≡◌, ◌+◌, ◌≤◌, ◌++◌, length};
ghost use Rattle.arrayvec.specs.ArrayVec.{array_vec_len};
ghost use Rattle.mb_frames.specs.Frames.{frame};

use mb_message::Buf;

/// Appends the length of the content, in two bytes, most significant first, and the content.
pub fn put_frame(content: &[u8], out: &mut Buf)
    requires room { array_vec_len out.old + length content.now + 2 ≤ 1024 }
    ensures { out.new.items ≡ out.old.items ++ frame content.now }
{
    let length = content.len();
    out.push((length / 256) as u8);
    out.push((length % 256) as u8);
    // There is room.
    let _fits = out.try_extend_from_slice(content);
}
