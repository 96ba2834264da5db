//! Marks that go to a file.

ghost use Rattle.std.specs.Prelude.{◌≡◌, ◌≤◌, false, List, [], ◌∷◌, ◌++◌, map, OnOk, IfErr};
ghost use Rattle.mb_message.specs.Signs.{ByteSign, sign_of};
ghost use Rattle.mb_stream.specs.Puts.{At, Put, puts_at};
ghost use Rattle.mb_smf.specs.TrackWriting.{TrackWrites, is_full};
ghost use Rattle.mb_tapes.specs.Recorded.{FirstLeftOut};
ghost use Rattle.mb_tapes.specs.Recording.{MayFollow};

use mb_message::Mark;
use mb_smf::{SmfFull, SmfWriter};

/// Puts a mark at its moment.
pub(crate) fn put_mark(moment: u64, mark: Mark, file: &mut SmfWriter) -> Result<(), SmfFull>
    requires follows { MayFollow file.old (At moment (sign_of mark) ∷ []) }
    requires order { file.old.moment ≤ moment }
    ensures writes { OnOk result ((puts : List Put) → TrackWrites file.old puts →
        TrackWrites file.new (puts ++ At moment (sign_of mark) ∷ [])) }
    ensures moment { OnOk result (file.new.moment ≤ moment) }
    ensures short { OnOk result (is_full file.new ≡ false) }
    ensures full { IfErr result (λ full. (puts : List Put) → TrackWrites file.old puts →
        FirstLeftOut (puts ++ At moment (sign_of mark) ∷ []) full) }
{
    file.put(moment, mark)
}

/// Puts SysEx data, byte by byte.
pub(crate) fn put_run(moment: u64, bytes: &[u8], file: &mut SmfWriter) -> Result<(), SmfFull>
    requires follows { MayFollow file.old (puts_at moment (map ByteSign bytes.now)) }
    requires order { file.old.moment ≤ moment }
    requires short { is_full file.old ≡ false }
    ensures writes { OnOk result ((puts : List Put) → TrackWrites file.old puts →
        TrackWrites file.new (puts ++ puts_at moment (map ByteSign bytes.now))) }
    ensures moment { OnOk result (file.new.moment ≤ moment) }
    ensures short { OnOk result (is_full file.new ≡ false) }
    ensures full { IfErr result (λ full. (puts : List Put) → TrackWrites file.old puts →
        FirstLeftOut (puts ++ puts_at moment (map ByteSign bytes.now)) full) }
{
    let mut rest = bytes;
    'bytes: while let Some((byte, others)) = rest.split_first() {
        if let Err(full) = put_mark(moment, Mark::Byte(*byte), file) {
            return Err(full);
        }
        rest = others;
    }
    Ok(())
}
