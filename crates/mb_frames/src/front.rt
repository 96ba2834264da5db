//! Taking bytes from the front of an input.

ghost use Rattle.std.specs.Prelude.{◌≡◌, ◌<◌, ◌≤◌, [], ◌∷◌, ◌++◌, length, take, IfSome, IfNone};

/// Takes the first byte.
#[inline(always)]
pub(crate) fn take_byte(input: &mut &[u8]) -> Option<u8>
    ensures some { IfSome result (λ byte. input.old.now ≡ byte ∷ input.new.now) }
    ensures none { IfNone result ((input.old.now ≡ []) × (input.new.now ≡ [])) }
{
    let piece = *input;
    if piece.is_empty() {
        return None;
    }
    *input = &piece[1..];
    Some(piece[0])
}

/// Takes so many bytes, or all where there are fewer. `None` where there are none.
#[inline(always)]
pub(crate) fn take_front<'a>(count: u16, input: &mut &'a [u8]) -> Option<&'a [u8]>
    requires { 0 < count }
    ensures front { IfSome result (λ bytes. input.old.now ≡ bytes.now ++ input.new.now) }
    ensures longest { IfSome result (λ bytes. bytes.now ≡ take count input.old.now) }
    ensures some { IfSome result (λ bytes. (0 < length bytes.now) × (length bytes.now ≤ count)) }
    ensures none { IfNone result ((input.old.now ≡ []) × (input.new.now ≡ [])) }
{
    let piece = *input;
    if piece.is_empty() {
        return None;
    }
    let (bytes, rest) = piece.split_at(piece.len().min(count as usize));
    *input = rest;
    Some(bytes)
}
