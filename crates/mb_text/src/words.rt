//! The words of a line.

ghost use Rattle.std.specs.Prelude.{◌≡◌, ◌<◌, ◌∷◌, [], length, IfSome, IfNone, OnSome};
ghost use Rattle.std.specs.List.{position};
ghost use Rattle.mb_text.specs.Text.{is_blank, is_printed, is_written, words};

/// Takes the next word, with the blanks before it, from the front of the line. `None` where only blanks are left.
pub fn next_word<'a>(line: &mut &'a [u8]) -> Option<&'a [u8]>
    ensures some { IfSome result (λ word. words line.old.now ≡ word.now ∷ words line.new.now) }
    ensures none { IfNone result (words line.old.now ≡ []) }
    ensures filled { IfSome result (λ word. 0 < length word.now) }
    ensures fewer { OnSome result (length line.new.now < length line.old.now) }
{
    let whole = *line;
    let first = start_of(whole)?;
    let (_, rest) = whole.split_at(first);
    match end_of(rest) {
        None => {
            *line = &[];
            Some(rest)
        }
        Some(len) => {
            let (word, left) = rest.split_at(len);
            *line = left;
            Some(word)
        }
    }
}

#[inline(always)]
fn is_blank(byte: u8) -> bool
    ensures { result ≡ is_blank byte }
{
    byte == b' ' || byte == b'\t'
}

/// Where the first word begins.
fn start_of(line: &[u8]) -> Option<usize>
    ensures place { result ≡ position is_written line.now }
    ensures low { IfSome result (λ at. at < length line.now) }
{
    line.iter().position(|byte| !is_blank(*byte))
}

/// Where the first blank stands.
fn end_of(line: &[u8]) -> Option<usize>
    ensures place { result ≡ position is_blank line.now }
    ensures low { IfSome result (λ at. at < length line.now) }
{
    line.iter().position(|byte| is_blank(*byte))
}

/// Whether each byte that isn't blank can be printed.
pub fn is_printed(line: &[u8]) -> bool
    ensures { result ≡ is_printed line.now }
{
    line.iter()
        .all(|byte| is_blank(*byte) || (*byte >= 0x21 && *byte < 0x7f))
}
