//! Rules, read from texts, and what they make of events.

use crate::marks::Sample;
use crate::text::{Runs, Text, put_line, put_seen};
use mb_filter::{Mapper, RuleWhy, Rules, RulesFault};
use mb_message::{Ev, Mark, Seen, Short, suits};
use std::process::Abort;

/// How many rules a text has.
fn count_of(text: &[u8]) -> Result<u8, RulesFault> {
    match Rules::read(text) {
        Ok(rules) => Ok(rules.len()),
        Err(fault) => Err(fault),
    }
}

/// Texts of rules, and how many they have.
const RULES: &[(&[u8], u8)] = &[
    (b"", 0),
    (b"# note\n\n \t\r\n", 0),
    (b"note 1 up 12\nclock * drop", 2),
    (b" note\t2-2  channel 16\r\nnote 1-16 down 127\n", 2),
    (b"#x 17\ncommon * keep\nsysex * drop\nreset * keep", 3),
];

#[test]
fn texts_of_rules(rt: HostRuntime) {
    for (text, count) in RULES {
        assert!(rt; count_of(text) == Ok(*count));
    }
}

/// Texts, the first line that is faulty, and what is wrong there.
const FAULTS: &[(&[u8], u32, RuleWhy)] = &[
    (b"note *", 1, RuleWhy::Words),
    (b"note * up 1 2", 1, RuleWhy::Words),
    (b"x 17", 1, RuleWhy::Words),
    (b"note 17 keep\x7f", 1, RuleWhy::Words),
    (b"clock * keep\n\nNote * keep", 3, RuleWhy::Kind),
    (b"notes 17 up", 1, RuleWhy::Kind),
    (b"note 17 drop", 1, RuleWhy::Channels),
    (b"note 0 drop", 1, RuleWhy::Channels),
    (b"note 01 drop", 1, RuleWhy::Channels),
    (b"note * keep\nbend 3-2 drop", 2, RuleWhy::Channels),
    (b"note 1- drop", 1, RuleWhy::Channels),
    (b"clock 1 x", 1, RuleWhy::Channels),
    (b"note * keep 1", 1, RuleWhy::Action),
    (b"note * up", 1, RuleWhy::Action),
    (b"note * up 0", 1, RuleWhy::Action),
    (b"note * up 128", 1, RuleWhy::Action),
    (b"note * down 012", 1, RuleWhy::Action),
    (b"control * up 1", 1, RuleWhy::Action),
    (b"bend 1 channel 17", 1, RuleWhy::Action),
    (b"sysex * channel 1", 1, RuleWhy::Action),
];

#[test]
fn faulty_texts(rt: HostRuntime) {
    for (text, line, why) in FAULTS {
        let fault = RulesFault {
            line: *line,
            why: *why,
        };
        assert!(rt; count_of(text) == Err(fault));
    }
}

#[test]
fn the_longest_text(rt: HostRuntime) {
    let long = RulesFault {
        line: 0,
        why: RuleWhy::Long,
    };
    assert!(rt; count_of(&[b' '; 4096]) == Ok(0));
    assert!(rt; count_of(&[b' '; 4097]) == Err(long));
}

/// So many rules, a line each.
fn rules_of(count: u32) -> Text {
    let mut text = Text::new();
    for _ in 0..count {
        put_line(b"reset * keep\n", &mut text);
    }
    text
}

#[test]
fn the_most_rules(rt: HostRuntime) {
    let count = RulesFault {
        line: 65,
        why: RuleWhy::Count,
    };
    assert!(rt; count_of(rules_of(64).as_slice()) == Ok(64));
    assert!(rt; count_of(rules_of(65).as_slice()) == Err(count));
}

/// Appends what is left of an event, `none` where it is dropped.
fn put_left(left: Option<Ev<'_>>, text: &mut Text) {
    match left {
        Some(event) => put_seen(0, Seen::Ev(event), Runs::AsLent, text),
        None => put_line(b"none\n", text),
    }
}

/// What rules leave of a short message.
fn mapped(rt: &impl Abort, rules: &[u8], message: (u8, u8, u8)) -> Text {
    let mut text = Text::new();
    let mut mapper = Mapper::new(Rules::read(rules).ok().expect(rt, "rules"));
    let (status, data1, data2) = message;
    if let Some(short) = Short::new(status, data1, data2) {
        put_left(mapper.put(Ev::Short(short)), &mut text);
    }
    text
}

/// Rules, a short message, and what is left of it.
const MESSAGES: &[(&[u8], (u8, u8, u8), &str)] = &[
    (b"", (0xf2, 1, 2), "0 short F2 01 02\n"),
    (b"note 1 up 12", (0x90, 0x3c, 0x64), "0 short 90 48 64\n"),
    (b"note 1 up 12", (0x91, 0x3c, 0x64), "0 short 91 3C 64\n"),
    (b"note * up 1", (0x90, 0x7f, 1), "none\n"),
    (b"note * down 1", (0xa3, 0, 1), "none\n"),
    (b"note * down 12", (0x83, 12, 1), "0 short 83 00 01\n"),
    (b"control 16 channel 1", (0xbf, 7, 1), "0 short B0 07 01\n"),
    (b"bend 1 channel 16", (0xe0, 0, 0x40), "0 short EF 00 40\n"),
    (b"pressure 2-4 channel 3", (0xd3, 5, 0), "0 short D2 05\n"),
    (b"program 2-4 drop", (0xc4, 5, 0), "0 short C4 05\n"),
    (b"program 2-4 drop", (0xc3, 5, 0), "none\n"),
    (b"common * drop", (0xf6, 0, 0), "none\n"),
    (
        b"note 1 keep\nnote * drop",
        (0x90, 5, 1),
        "0 short 90 05 01\n",
    ),
    (b"note 1 keep\nnote * drop", (0x91, 5, 1), "none\n"),
];

#[test]
fn messages_behind_rules(rt: HostRuntime) {
    for (rules, message, left) in MESSAGES {
        assert!(rt;
            mapped(&rt, rules, *message).as_slice() == left.as_bytes(),
            "{left}"
        );
    }
}

#[test]
fn up_127_on_each_key(rt: HostRuntime) {
    for key in 0..128u8 {
        let left = mapped(&rt, b"note * up 127", (0x90, key, 1));
        let told = if key == 0 {
            "0 short 90 7F 01\n"
        } else {
            "none\n"
        };
        assert!(rt; left.as_slice() == told.as_bytes(), "{key}");
    }
}

/// Appends what a mapper leaves of a mark that suits.
fn put_mapped(rt: &impl Abort, mapper: &mut Mapper, mark: Mark, text: &mut Text) {
    assert!(rt; suits(mapper.in_sysex(), mark));
    match mark {
        Mark::Short(short) => put_left(mapper.put(Ev::Short(short)), text),
        Mark::Rt(message) => put_left(mapper.put(Ev::Rt(message)), text),
        Mark::Open => put_left(mapper.put(Ev::Open), text),
        Mark::Byte(byte) => put_left(mapper.put(Ev::Run(&[byte])), text),
        Mark::End => put_left(mapper.put(Ev::End), text),
        Mark::Abort => put_left(mapper.put(Ev::Abort), text),
    }
}

/// Rules, marks, and what is left of each.
const MARKS: &[(&[u8], &[Sample], &str)] = &[
    (
        b"sysex * drop",
        &[
            Sample::Open,
            Sample::Byte(1),
            Sample::Clock,
            Sample::Byte(2),
            Sample::End,
            Sample::Note,
        ],
        "none\nnone\n0 rt F8\nnone\nnone\n0 short 90 3C 64\n",
    ),
    (
        b"sysex * drop",
        &[Sample::Open, Sample::Byte(1), Sample::Abort, Sample::Stop],
        "none\nnone\nnone\n0 rt FC\n",
    ),
    (
        b"clock * drop\nsysex * keep\nsysex * drop",
        &[Sample::Open, Sample::Clock, Sample::Byte(1), Sample::Abort],
        "0 open\nnone\nrun 01\n0 abort\n",
    ),
    (
        b"transport * drop\nreset * drop\nsense * drop",
        &[Sample::Stop, Sample::Clock],
        "none\n0 rt F8\n",
    ),
];

#[test]
fn marks_behind_rules(rt: HostRuntime) {
    for (rules, samples, left) in MARKS {
        let mut text = Text::new();
        let mut mapper = Mapper::new(Rules::read(rules).ok().expect(&rt, "rules"));
        for sample in *samples {
            put_mapped(&rt, &mut mapper, sample.mark(), &mut text);
        }
        assert!(rt; text.as_slice() == left.as_bytes(), "{left}");
    }
}
