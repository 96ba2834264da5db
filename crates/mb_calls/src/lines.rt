//! Lines and words of texts.

use crate::text::{Text, put_bytes, put_line};
use mb_text::{is_printed, next_line, next_word};

/// Appends a line a word, and one for the end of each line of a text, with whether it can be printed.
fn put_words(input: &[u8], text: &mut Text) {
    let mut rest = input;
    'lines: while let Some(line) = next_line(&mut rest) {
        let printed = is_printed(line);
        let mut left = line;
        'words: while let Some(word) = next_word(&mut left) {
            put_bytes("word", word, text);
        }
        put_line(if printed { b"line\n" } else { b"unfit\n" }, text);
    }
}

/// Texts, and their words.
const TEXTS: &[(&[u8], &str)] = &[
    (b"", ""),
    (b"\n", "line\n"),
    (
        b" ab\t c\r\nd",
        "word 61 62\nword 63\nline\nword 64\nline\n",
    ),
    (b"a\r", "word 61 0D\nunfit\n"),
    (b"a\x7f\n\x80", "word 61 7F\nunfit\nword 80\nunfit\n"),
];

#[test]
fn words_of_texts(rt: HostRuntime) {
    for (input, told) in TEXTS {
        let mut text = Text::new();
        put_words(input, &mut text);
        assert!(rt; text.as_slice() == told.as_bytes(), "{told}");
    }
}
