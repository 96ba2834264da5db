//! What a file gives, gathered.

ghost use Rattle.std.specs.Prelude.{◌≡◌, ◌++◌, ◌∷◌, [], OnOk, OnErr};
ghost use Rattle.mb_outside.specs.Cause.{HasCause};
ghost use Rattle.mb_outside.specs.Taking.{TookFront};
ghost use Rattle.mb_smf.specs.Smf.{given_at};
ghost use Rattle.mb_smf.specs.SmfReading.{given_part};
ghost use Rattle.mb_tapes.specs.Played.{ended_records};
ghost use Rattle.mb_tapes.specs.Playing.{Played};

use mb_frames::Gather;
use mb_held::make_place;
use mb_message::Buf;
use mb_outside::{Out, Refused};
use mb_smf::SmfPart;

/// The room that a record takes.
const RECORD: usize = 266;

/// Gathers a part. Where there is no room for a record, what is held is handed on.
pub(crate) fn put_part<K: Out>(
    part: SmfPart<'_>,
    gather: &mut Gather,
    held: &mut Buf,
    out: &mut K,
) -> Result<(), Refused>
    requires ready { K.ready out.old }
    ensures ready { K.ready out.new }
    ensures cause { HasCause (K.refusals out.old) (K.refusals out.new) result }
    ensures sound { OnOk result (K.refusals out.new ≡ K.refusals out.old) }
    ensures ok { OnOk result (Played gather.old gather.new (given_part part.entry) held.old.items held.new.items
        (λ given. K.took out.old given out.new)) }
    ensures err { OnErr result (TookFront K.took out.old out.new (held.old.items
        ++ ended_records gather.old (given_part part.entry))) }
{
    match part {
        SmfPart::Byte { moment, byte } => put_byte(moment, byte, gather, held, out),
        SmfPart::Run { moment, bytes } => put_run(moment, bytes, gather, held, out),
    }
}

/// Gathers bytes of one moment.
fn put_run<K: Out>(
    moment: u64,
    bytes: &[u8],
    gather: &mut Gather,
    held: &mut Buf,
    out: &mut K,
) -> Result<(), Refused>
    requires ready { K.ready out.old }
    ensures ready { K.ready out.new }
    ensures cause { HasCause (K.refusals out.old) (K.refusals out.new) result }
    ensures sound { OnOk result (K.refusals out.new ≡ K.refusals out.old) }
    ensures ok { OnOk result (Played gather.old gather.new (given_at moment bytes.now) held.old.items held.new.items
        (λ given. K.took out.old given out.new)) }
    ensures err { OnErr result (TookFront K.took out.old out.new (held.old.items
        ++ ended_records gather.old (given_at moment bytes.now))) }
{
    let mut rest = bytes;
    'bytes: while let Some((byte, others)) = rest.split_first() {
        if let Err(refused) = put_byte(moment, *byte, gather, held, out) {
            return Err(refused);
        }
        rest = others;
    }
    Ok(())
}

/// Gathers a byte.
fn put_byte<K: Out>(
    moment: u64,
    byte: u8,
    gather: &mut Gather,
    held: &mut Buf,
    out: &mut K,
) -> Result<(), Refused>
    requires ready { K.ready out.old }
    ensures ready { K.ready out.new }
    ensures cause { HasCause (K.refusals out.old) (K.refusals out.new) result }
    ensures sound { OnOk result (K.refusals out.new ≡ K.refusals out.old) }
    ensures ok { OnOk result (Played gather.old gather.new (given_at moment (byte ∷ [])) held.old.items
        held.new.items (λ given. K.took out.old given out.new)) }
    ensures err { OnErr result (TookFront K.took out.old out.new (held.old.items
        ++ ended_records gather.old (given_at moment (byte ∷ [])))) }
{
    if let Err(refused) = make_place(RECORD, held, out) {
        return Err(refused);
    }
    gather.put(moment, byte, held);
    Ok(())
}
