//! What is answered of a piece.

ghost use Rattle.std.specs.Prelude.{◌≡◌, OnOk, OnErr, IfOk};
ghost use Rattle.mb_outside.specs.Cause.{HasCause};
ghost use Rattle.mb_outside.specs.Taking.{TookFront};

use mb_frames::TapeFault;
use mb_message::Buf;
use mb_outside::{Out, Refused};

/// Hands on what is held, and answers the fault.
pub(crate) fn hand_on<K: Out>(
    fault: Option<TapeFault>,
    held: &Buf,
    out: &mut K,
) -> Result<Option<TapeFault>, Refused>
    requires { K.ready out.old }
    ensures ready { K.ready out.new }
    ensures cause { HasCause (K.refusals out.old) (K.refusals out.new) result }
    ensures sound { OnOk result (K.refusals out.new ≡ K.refusals out.old) }
    ensures fault { IfOk result (λ told. told ≡ fault) }
    ensures took { OnOk result (K.took out.old held.now.items out.new) }
    ensures front { OnErr result (TookFront K.took out.old out.new held.now.items) }
{
    match out.take(held.as_slice()) {
        Ok(()) => Ok(fault),
        Err(refused) => Err(refused),
    }
}
