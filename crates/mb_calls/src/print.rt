//! Lines of text.

use crate::marks::Sample;
use crate::text::{Text, put_line, put_note};
use mb_message::{Note, NoteKind};
use mb_print::{Kind, Line, mark_line, note_line, put_number, put_text, read_number, report_line};

/// Moments, marks, and their lines.
const MARKS: &[(u64, Sample, &str)] = &[
    (0, Sample::Note, "0 short 90 3C 64\n"),
    (9, Sample::Program, "9 short C5 0A\n"),
    (10, Sample::Tune, "10 short F6\n"),
    (u64::MAX, Sample::Clock, "18446744073709551615 rt F8\n"),
    (100, Sample::Open, "100 open\n"),
    (0, Sample::Byte(0x7f), "0 data 7F\n"),
    (1250, Sample::End, "1250 end\n"),
    (99, Sample::Abort, "99 abort\n"),
];

#[test]
fn lines_of_marks(rt: HostRuntime) {
    for (moment, sample, text) in MARKS {
        let mut line = Line::new();
        mark_line(*moment, sample.mark(), &mut line);
        assert!(rt; line.as_slice() == text.as_bytes(), "{text}");
    }
}

/// The line of a note alone, and among marks.
fn lines_of(note: Note) -> Text {
    let mut text = Text::new();
    let mut line = Line::new();
    note_line(note, false, &mut line);
    put_line(line.as_slice(), &mut text);
    put_note(note, &mut text);
    text
}

/// Kinds of notes, and the lines of each at 12.
const NOTES: &[(NoteKind, &str)] = &[
    (NoteKind::StrayData, "12 stray-data\nnote 12 stray-data\n"),
    (NoteKind::Truncated, "12 truncated\nnote 12 truncated\n"),
    (NoteKind::StrayEnd, "12 stray-end\nnote 12 stray-end\n"),
    (NoteKind::Undefined, "12 undefined\nnote 12 undefined\n"),
    (
        NoteKind::ReservedCin,
        "12 reserved-cin\nnote 12 reserved-cin\n",
    ),
    (
        NoteKind::CinMismatch,
        "12 cin-mismatch\nnote 12 cin-mismatch\n",
    ),
    (NoteKind::BadHeader, "12 bad-header\nnote 12 bad-header\n"),
    (
        NoteKind::EmptyPacket,
        "12 empty-packet\nnote 12 empty-packet\n",
    ),
    (NoteKind::LoneStamp, "12 lone-stamp\nnote 12 lone-stamp\n"),
    (NoteKind::BadCip, "12 bad-cip\nnote 12 bad-cip\n"),
    (NoteKind::ZeroDbs, "12 zero-dbs\nnote 12 zero-dbs\n"),
    (NoteKind::Ragged, "12 ragged\nnote 12 ragged\n"),
    (
        NoteKind::NoMidiQuadlet,
        "12 no-midi-quadlet\nnote 12 no-midi-quadlet\n",
    ),
    (NoteKind::DbcGap, "12 dbc-gap\nnote 12 dbc-gap\n"),
];

#[test]
fn lines_of_notes(rt: HostRuntime) {
    for (kind, text) in NOTES {
        let note = Note {
            kind: *kind,
            at: 12,
        };
        assert!(rt; lines_of(note).as_slice() == text.as_bytes(), "{text}");
    }
}

/// What passed when and of which source, and its line in a report.
const PASSED: &[(u64, u64, u8, Kind, &str)] = &[
    (1, 2, 1, Kind::M, "1 2 1 M\n"),
    (2, 2, 0, Kind::S, "2 2 0 S\n"),
    (0, 4095, 15, Kind::B, "0 4095 15 B\n"),
    (
        18446744073709551,
        18446744073709551,
        9,
        Kind::R,
        "18446744073709551 18446744073709551 9 R\n",
    ),
];

#[test]
fn lines_of_a_report(rt: HostRuntime) {
    for (arrival, passing, source, kind, text) in PASSED {
        let mut line = Line::new();
        report_line(*arrival, *passing, *source, *kind, &mut line);
        assert!(rt; line.as_slice() == text.as_bytes(), "{text}");
    }
}

/// Texts, a bound, and the number that they are.
const NUMBERS: &[(&str, u64, Option<u64>)] = &[
    ("0", 0, Some(0)),
    ("15", 15, Some(15)),
    ("16", 15, None),
    ("512", 512, Some(512)),
    ("00", 512, None),
    ("01", 512, None),
    ("", 512, None),
    ("+1", 512, None),
    ("1x", 512, None),
    ("18446744073709551615", u64::MAX, Some(u64::MAX)),
    ("18446744073709551616", u64::MAX, None),
];

#[test]
fn numbers_in_texts(rt: HostRuntime) {
    for (text, most, number) in NUMBERS {
        assert!(rt; read_number(text.as_bytes(), *most) == *number, "{text}");
    }
}

#[test]
fn a_number_is_read_as_it_is_written(rt: HostRuntime) {
    let mut line = Line::new();
    put_text("20", &mut line);
    put_number(26, &mut line);
    assert!(rt; read_number(line.as_slice(), 2026) == Some(2026));
}
