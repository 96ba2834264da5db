//! Parts of a line: numbers in decimal, bytes by two hexadecimal digits, words. And a number that stands in a text.

ghost use Rattle.std.specs.Prelude.{◌≡◌, ℕ, ◌+◌, ◌<◌, ◌≤◌, ◌++◌, length, decimal, IfSome};
ghost use Rattle.arrayvec.specs.ArrayVec.{array_vec_len};
ghost use Rattle.mb_print.specs.Lines.{hex_digit, spaced_byte};

use crate::Line;

/// Appends a number in decimal, without leading zeros. It has at most 20 digits.
#[tactic(auto, using(crate::proofs::DecimalDigits::at_most_20))]
pub fn put_number(number: u64, out: &mut Line)
    requires { array_vec_len out.old + 20 ≤ 96 }
    ensures written { out.new.items ≡ out.old.items ++ decimal number }
    ensures len { array_vec_len out.new ≤ array_vec_len out.old + 20 }
{
    put_digits(number, out);
}

#[tactic(auto, using(crate::proofs::DecimalDigits::last_digit, crate::proofs::DecimalDigits::only_digit, crate::proofs::DecimalDigits::one_digit, crate::proofs::DecimalDigits::one_digit_more))]
fn put_digits(number: u64, out: &mut Line)
    requires { array_vec_len out.old + length (decimal number) ≤ 96 }
    ensures written { out.new.items ≡ out.old.items ++ decimal number }
    ensures len { array_vec_len out.new ≡ array_vec_len out.old + length (decimal number) }
{
    if number < 10 {
        out.push(b'0' + number as u8);
    } else {
        put_digits(number / 10, out);
        out.push(b'0' + (number % 10) as u8);
    }
}

/// Appends a space, and a byte by two upper-case hexadecimal digits.
pub fn put_byte(byte: u8, out: &mut Line)
    requires { array_vec_len out.old + 3 ≤ 96 }
    ensures written { out.new.items ≡ out.old.items ++ spaced_byte byte }
    ensures len { array_vec_len out.new ≡ array_vec_len out.old + 3 }
{
    out.push(b' ');
    out.push(hex_digit(byte / 16));
    out.push(hex_digit(byte % 16));
}

fn hex_digit(digit: u8) -> u8
    requires { digit < 16 }
    ensures { result ≡ hex_digit digit }
{
    if digit < 10 {
        b'0' + digit
    } else {
        b'A' + (digit - 10)
    }
}

/// Appends a text as it stands.
pub fn put_text(text: &str, out: &mut Line)
    requires { array_vec_len out.old + length text.now ≤ 96 }
    ensures written { out.new.items ≡ out.old.items ++ text.now }
    ensures len { array_vec_len out.new ≡ array_vec_len out.old + length text.now }
{
    // There is room.
    let _fits = out.try_extend_from_slice(text.as_bytes());
}

/// The number that a text is in decimal, without a sign or leading zeros, where it is at most `most`.
pub fn read_number(digits: &[u8], most: u64) -> Option<u64>
    ensures within { IfSome result (λ number. number ≤ most) }
    ensures digits { IfSome result (λ number. digits.now ≡ decimal number) }
    ensures only { (number : ℕ) → number ≤ most → digits.now ≡ decimal number → result ≡ Some number }
{
    let Some((last, front)) = digits.split_last() else {
        return None;
    };
    if !last.is_ascii_digit() {
        return None;
    }
    let ones = u64::from(*last - b'0');
    if front.is_empty() {
        return if ones <= most { Some(ones) } else { None };
    }
    let Some(tens) = read_number(front, most / 10) else {
        return None;
    };
    if tens == 0 || most - 10 * tens < ones {
        return None;
    }
    Some(10 * tens + ones)
}
