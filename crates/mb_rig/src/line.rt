//! What a line of a rig's text says.

ghost use Rattle.std.specs.Prelude.{◌≡◌, [], ◌∷◌, bytes_eq};
ghost use Rattle.mb_rig.specs.RigText.{begins_hash, statement, statement_by, track_of};
ghost use Rattle.mb_rig.specs.RigAnswer.{line_seen};

use mb_print::read_number;
use mb_text::{is_printed, next_word};

/// What a line says, before its spec and its names are looked at.
#[derive(Clone, Copy)]
pub(crate) enum Line<'a> {
    Remark,
    Link {
        name: &'a [u8],
        word: &'a [u8],
        file: &'a [u8],
        track: u8,
    },
    Outlet {
        name: &'a [u8],
        word: &'a [u8],
        file: &'a [u8],
    },
    Route {
        from: &'a [u8],
        to: &'a [u8],
    },
    Unfit,
}

/// Reads a line.
pub(crate) fn read_line(line: &[u8]) -> Line<'_>
    ensures { line_seen result ≡ statement line.now }
{
    let mut rest = line;
    let Some(first) = next_word(&mut rest) else {
        return Line::Remark;
    };
    if begins_hash(first) {
        return Line::Remark;
    }
    if !is_printed(line) {
        return Line::Unfit;
    }
    let Some(one) = next_word(&mut rest) else {
        return Line::Unfit;
    };
    let Some(two) = next_word(&mut rest) else {
        return Line::Unfit;
    };
    let Some(three) = next_word(&mut rest) else {
        return read_route(first, one, two);
    };
    let Some(four) = next_word(&mut rest) else {
        return read_port(first, one, two, three);
    };
    match next_word(&mut rest) {
        Some(_) => Line::Unfit,
        None => read_tracked(first, one, two, three, four),
    }
}

fn begins_hash(word: &[u8]) -> bool
    ensures { result ≡ begins_hash word.now }
{
    match word {
        [first, ..] => *first == b'#',
        [] => false,
    }
}

fn is_word(word: &[u8], text: &str) -> bool
    ensures { result ≡ bytes_eq word.now text.now }
{
    word == text.as_bytes()
}

fn read_route<'a>(first: &'a [u8], from: &'a [u8], to: &'a [u8]) -> Line<'a>
    ensures { line_seen result ≡ statement_by first.now (from.now ∷ to.now ∷ []) }
{
    if is_word(first, "route") {
        Line::Route { from, to }
    } else {
        Line::Unfit
    }
}

fn read_port<'a>(first: &'a [u8], name: &'a [u8], word: &'a [u8], file: &'a [u8]) -> Line<'a>
    ensures { line_seen result ≡ statement_by first.now (name.now ∷ word.now ∷ file.now ∷ []) }
{
    if file.len() > 255 {
        return Line::Unfit;
    }
    if is_word(first, "in") {
        Line::Link {
            name,
            word,
            file,
            track: 0,
        }
    } else if is_word(first, "out") {
        Line::Outlet { name, word, file }
    } else {
        Line::Unfit
    }
}

fn read_tracked<'a>(
    first: &'a [u8],
    name: &'a [u8],
    word: &'a [u8],
    file: &'a [u8],
    number: &'a [u8],
) -> Line<'a>
    ensures { line_seen result ≡ statement_by first.now (name.now ∷ word.now ∷ file.now ∷ number.now ∷ []) }
{
    if !is_word(first, "in") || file.len() > 255 {
        return Line::Unfit;
    }
    match track_of(number) {
        Some(track) => Line::Link {
            name,
            word,
            file,
            track,
        },
        None => Line::Unfit,
    }
}

/// The track of a word.
fn track_of(word: &[u8]) -> Option<u8>
    ensures { result ≡ track_of word.now }
{
    match read_number(word, 255) {
        Some(track) => Some(track as u8),
        None => None,
    }
}
