//! What is held in a buffer before it is handed on.

ghost use Rattle.std.specs.Prelude.{◌≡◌, ℕ, ◌+◌, ◌≤◌, List, [], ◌++◌, OnOk, OnErr};
ghost use Rattle.arrayvec.specs.ArrayVec.{array_vec_len};
ghost use Rattle.mb_outside.specs.Cause.{HasCause};
ghost use Rattle.mb_outside.specs.Taking.{TookFront};
ghost use Rattle.mb_held.specs.Held.{Holds};

use mb_message::Buf;
use mb_outside::{Out, Refused};

/// Appends bytes. Where the buffer has no room for them, it is handed on, and they behind it.
pub fn put_bytes<K: Out>(bytes: &[u8], held: &mut Buf, out: &mut K) -> Result<(), Refused>
    requires { K.ready out.old }
    ensures ready { K.ready out.new }
    ensures cause { HasCause (K.refusals out.old) (K.refusals out.new) result }
    ensures sound { OnOk result (K.refusals out.new ≡ K.refusals out.old) }
    ensures ok { OnOk result (Holds (λ given. K.took out.old given out.new) (held.old.items
        ++ bytes.now) held.new.items) }
    ensures err { OnErr result (TookFront K.took out.old out.new (held.old.items ++ bytes.now)) }
{
    if bytes.len() <= held.capacity() - held.len() {
        // There is room.
        let _fits = held.try_extend_from_slice(bytes);
        return Ok(());
    }
    if let Err(refused) = empty(held, out) {
        return Err(refused);
    }
    out.take(bytes)
}

/// Makes room for so many bytes: where there is none, the buffer is handed on.
pub fn make_place<K: Out>(room: usize, held: &mut Buf, out: &mut K) -> Result<(), Refused>
    requires few { room ≤ 1024 }
    requires ready { K.ready out.old }
    ensures ready { K.ready out.new }
    ensures cause { HasCause (K.refusals out.old) (K.refusals out.new) result }
    ensures sound { OnOk result (K.refusals out.new ≡ K.refusals out.old) }
    ensures room { OnOk result (array_vec_len held.new + room ≤ 1024) }
    ensures ok { OnOk result (Holds (λ given. K.took out.old given out.new) held.old.items held.new.items) }
    ensures err { OnErr result (TookFront K.took out.old out.new held.old.items) }
{
    if held.len() + room <= held.capacity() {
        return Ok(());
    }
    empty(held, out)
}

/// Hands the buffer on.
fn empty<K: Out>(held: &mut Buf, out: &mut K) -> Result<(), Refused>
    requires { K.ready out.old }
    ensures ready { K.ready out.new }
    ensures cause { HasCause (K.refusals out.old) (K.refusals out.new) result }
    ensures sound { OnOk result (K.refusals out.new ≡ K.refusals out.old) }
    ensures none { OnOk result (held.new.items ≡ []) }
    ensures took { OnOk result (K.took out.old held.old.items out.new) }
    ensures err { OnErr result (TookFront K.took out.old out.new held.old.items) }
{
    if let Err(refused) = out.take(held.as_slice()) {
        return Err(refused);
    }
    held.clear();
    Ok(())
}
