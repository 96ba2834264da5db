//! Bytes handed on in two pieces.

ghost use Rattle.std.specs.Prelude.{◌≡◌, ◌++◌, OnOk, OnErr};
ghost use Rattle.mb_outside.specs.Cause.{HasCause};
ghost use Rattle.mb_outside.specs.Taking.{TookFront};

use mb_outside::{Out, Refused};

/// Hands on one piece, and another behind it. After `Refused` a front of both was handed on.
pub fn take_both<K: Out>(first: &[u8], second: &[u8], out: &mut K) -> Result<(), Refused>
    requires { K.ready out.old }
    ensures ready { K.ready out.new }
    ensures cause { HasCause (K.refusals out.old) (K.refusals out.new) result }
    ensures sound { OnOk result (K.refusals out.new ≡ K.refusals out.old) }
    ensures took { OnOk result (K.took out.old (first.now ++ second.now) out.new) }
    ensures front { OnErr result (TookFront K.took out.old out.new (first.now ++ second.now)) }
{
    if let Err(refused) = out.take(first) {
        return Err(refused);
    }
    out.take(second)
}
