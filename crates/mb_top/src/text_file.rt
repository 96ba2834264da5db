//! Texts that are read from a file.

ghost use Rattle.std.specs.Prelude.{◌≡◌, ◌⊎◌, [], length, IsTrue, OnOk, OnErr};
ghost use Rattle.mb_outside.specs.Cause.{HasCause};
ghost use Rattle.mb_outside.specs.Contents.{is_readable};
ghost use Rattle.mb_top.specs.TextFile.{FileRead, Opened, TextRead};

use crate::stream::PIECE;
use arrayvec::ArrayVec;
use mb_outside::{Desk, Failed};

/// Opens a file and reads its text, to its end or until the buffer is full.
pub(crate) fn read_file<D: Desk, const N: usize>(
    file: &str,
    text: &mut ArrayVec<u8, N>,
    desk: &mut D,
) -> Result<(), Failed>
    requires empty { text.old.items ≡ [] }
    ensures read { OnOk result (IsTrue D.tells →
        FileRead file.now N (D.contents desk.old) (D.contents desk.new) text.new.items) }
    ensures unread { OnErr result (IsTrue D.tells → (D.contents desk.new ≡ D.contents desk.old)
        ⊎ Opened (D.contents desk.old) (D.contents desk.new) file.now) }
    ensures cause { HasCause (D.read_faults desk.old) (D.read_faults desk.new) result }
    ensures sound { OnOk result (D.read_faults desk.new ≡ D.read_faults desk.old) }
    ensures write_faults { D.write_faults desk.new ≡ D.write_faults desk.old }
{
    match desk.open(file) {
        Ok(handle) => read_text(handle, text, desk),
        Err(failed) => Err(failed),
    }
}

/// Reads a file to its end, or until the buffer is full.
fn read_text<D: Desk, const N: usize>(
    handle: u32,
    text: &mut ArrayVec<u8, N>,
    desk: &mut D,
) -> Result<(), Failed>
    requires readable { IsTrue D.tells → IsTrue (is_readable (D.contents desk.old) handle) }
    requires empty { text.old.items ≡ [] }
    ensures read { IsTrue D.tells → TextRead handle (D.contents desk.old) (D.contents desk.new) text.new.items }
    ensures all { OnOk result (IsTrue D.tells →
        ((D.contents desk.new).left handle ≡ []) ⊎ (length text.new.items ≡ N)) }
    ensures cause { HasCause (D.read_faults desk.old) (D.read_faults desk.new) result }
    ensures sound { OnOk result (D.read_faults desk.new ≡ D.read_faults desk.old) }
    ensures write_faults { D.write_faults desk.new ≡ D.write_faults desk.old }
{
    let mut buffer = [0u8; PIECE];
    'pieces: while text.len() < N {
        let most = (N - text.len()).min(PIECE);
        let Ok(count) = desk.read(handle, &mut buffer[..most]) else {
            return Err(Failed);
        };
        if count == 0 {
            return Ok(());
        }
        // There is room.
        let _fits = text.try_extend_from_slice(&buffer[..count]);
    }
    Ok(())
}
