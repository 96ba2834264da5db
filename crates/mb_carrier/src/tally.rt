//! The line of how many bytes crossed a place of a chain.

ghost use Rattle.std.specs.Prelude.{◌≡◌, ◌+◌, ◌≤◌, [], ◌++◌};
ghost use Rattle.arrayvec.specs.ArrayVec.{array_vec_len};
ghost use Rattle.mb_carrier.specs.Lines.{hop_text};
ghost use Rattle.mb_carrier.specs.Word.{word_of};

use crate::Spec;
use mb_print::{Line, put_number, put_text};

/// Writes the line of how many bytes crossed a place: `PLACE SPEC BYTES`, and a line feed. The line is empty at the
/// start.
pub fn hop_line(place: u8, spec: Spec, bytes: u64, out: &mut Line)
    requires { out.old.items ≡ [] }
    ensures line { out.new.items ≡ hop_text place spec bytes }
    ensures len { array_vec_len out.new ≤ 67 }
{
    put_number(u64::from(place), out);
    put_text(" ", out);
    put_word(spec, out);
    put_text(" ", out);
    put_number(bytes, out);
    put_text("\n", out);
}

/// Appends the word of a spec.
fn put_word(spec: Spec, out: &mut Line)
    requires { array_vec_len out.old + 24 ≤ 96 }
    ensures written { out.new.items ≡ out.old.items ++ word_of spec }
    ensures len { array_vec_len out.new ≤ array_vec_len out.old + 24 }
{
    match spec {
        Spec::Din => put_text("din", out),
        Spec::Usb(cable) => {
            put_text("usb:", out);
            put_number(u64::from(cable), out);
        }
        Spec::Fire(port) => {
            put_text("fw:", out);
            put_number(u64::from(port), out);
        }
        Spec::Ble(size) => {
            put_text("ble/", out);
            put_number(u64::from(size), out);
        }
    }
}
