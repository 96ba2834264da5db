//! The four lines.

ghost use Rattle.std.specs.Prelude.{◌≡◌, ◌+◌, ◌*◌, ◌<◌, ◌≤◌, ◌++◌, length};
ghost use Rattle.arrayvec.specs.ArrayVec.{array_vec_len};
ghost use Rattle.mb_smoke.specs.Texts.{spaced_number, numbers_text, items_text, lower_digit, hexadecimal, mix_text};
ghost use Rattle.mb_smoke.specs.Texts.{lines_text};

use arrayvec::ArrayVec;
use mb_denote::Counts;
use mb_print::{Line, put_number, put_text};

/// The four lines, in bytes. They have 221 at most.
pub type Lines = ArrayVec<u8, 256>;

/// Writes the four lines: `made N`, `written N N N N`, `items MSG SYX BROKEN RT` and `mix HHHHHHHH`.
pub(crate) fn put_lines(made: u64, written: [u64; 4], counts: Counts, mix: u32) -> Lines
    ensures { result.items ≡ lines_text made written counts mix }
{
    let mut lines = Lines::new();
    put_line(numbers_line("made", &[made]), &mut lines);
    put_line(numbers_line("written", &written), &mut lines);
    put_line(items_line(counts), &mut lines);
    put_line(mix_line(mix), &mut lines);
    lines
}

fn put_line(line: Line, lines: &mut Lines)
    requires { array_vec_len lines.old + array_vec_len line ≤ 256 }
    ensures written { lines.new.items ≡ lines.old.items ++ line.items }
    ensures len { array_vec_len lines.new ≡ array_vec_len lines.old + array_vec_len line }
{
    // There is room.
    let _fits = lines.try_extend_from_slice(line.as_slice());
}

/// A word, up to four numbers, each behind a space, and a line feed.
fn numbers_line(word: &str, numbers: &[u64]) -> Line
    requires word { length word.now ≤ 7 }
    requires numbers { length numbers.now ≤ 4 }
    ensures line { result.items ≡ numbers_text word.now numbers.now }
    ensures len { array_vec_len result ≤ 8 + 21 * length numbers.now }
{
    let mut line = Line::new();
    put_text(word, &mut line);
    let mut rest = numbers;
    'numbers: while let Some((number, others)) = rest.split_first() {
        put_text(" ", &mut line);
        put_number(*number, &mut line);
        rest = others;
    }
    put_text("\n", &mut line);
    line
}

fn items_line(counts: Counts) -> Line
    ensures line { result.items ≡ items_text counts }
    ensures len { array_vec_len result ≤ 92 }
{
    numbers_line("items", &[counts.msg, counts.syx, counts.broken, counts.rt])
}

fn mix_line(mix: u32) -> Line
    ensures line { result.items ≡ mix_text mix }
    ensures len { array_vec_len result ≡ 13 }
{
    let mut line = Line::new();
    put_text("mix ", &mut line);
    put_hexadecimal(8, mix, &mut line);
    put_text("\n", &mut line);
    line
}

/// Appends the last so many hexadecimal digits of a number.
fn put_hexadecimal(digits: u8, number: u32, line: &mut Line)
    requires { array_vec_len line.old + digits ≤ 96 }
    ensures written { line.new.items ≡ line.old.items ++ hexadecimal digits number }
    ensures len { array_vec_len line.new ≡ array_vec_len line.old + digits }
{
    if digits > 0 {
        put_hexadecimal(digits - 1, number / 16, line);
        line.push(lower_digit((number % 16) as u8));
    }
}

fn lower_digit(digit: u8) -> u8
    requires { digit < 16 }
    ensures { result ≡ lower_digit digit }
{
    if digit < 10 {
        b'0' + digit
    } else {
        b'a' + (digit - 10)
    }
}
