//! What marks mean, mark by mark.

use crate::marks::Sample;
use crate::text::{Text, put_bytes, put_mark};
use mb_denote::{Collector, Counts, Den, Item};
use mb_message::{Mark, suits};
use std::alloc::Global;
use std::process::Abort;

/// What these marks mean. After a refusal nothing changed, so the mark is put once more.
fn denotation_of(rt: &impl Abort, alloc: Global, samples: &[Sample]) -> Den {
    let mut collector = Collector::new(alloc);
    for sample in samples {
        let mark = sample.mark();
        assert!(rt; suits(collector.in_sysex(), mark));
        if collector.put(mark).is_err() {
            collector.put(mark).expect(rt, "memory");
        }
    }
    collector.finish().expect(rt, "memory")
}

/// Lines of what ended, then of the real-time messages, each with how many ended before it.
fn text_of(den: &Den) -> Text {
    let mut text = Text::new();
    for item in den.items.list() {
        match item {
            Item::Msg(short) => put_mark(0, Mark::Short(*short), &mut text),
            Item::Syx(bytes) => put_bytes("whole", bytes.list(), &mut text),
            Item::Broken(bytes) => put_bytes("broken", bytes.list(), &mut text),
        }
    }
    for told in den.rts.list() {
        put_mark(told.after, Mark::Rt(told.rt), &mut text);
    }
    text
}

/// A note, then a SysEx that is whole, one that is broken, one that is empty and one that stays open, and real-time
/// messages before, inside and between.
const EACH_KIND: &[Sample] = &[
    Sample::Stop,
    Sample::Note,
    Sample::Open,
    Sample::Byte(1),
    Sample::Clock,
    Sample::Byte(2),
    Sample::End,
    Sample::Clock,
    Sample::Open,
    Sample::Byte(3),
    Sample::Abort,
    Sample::Stop,
    Sample::Open,
    Sample::End,
    Sample::Open,
    Sample::Byte(4),
];

const EACH_KIND_MEANS: &str =
    "0 short 90 3C 64\nwhole 01 02\nbroken 03\nwhole\nbroken 04\n0 rt FC\n1 rt F8\n2 rt F8\n2 rt FC\n";

#[test]
fn marks_mean_messages_and_real_time_messages_beside_them(rt: HostRuntime) {
    let den = denotation_of(&rt, rt.alloc(), EACH_KIND);
    assert!(rt; text_of(&den).as_slice() == EACH_KIND_MEANS.as_bytes());
}

/// Marks, and whether they mean what a clock, a note and a SysEx that stays open do.
const SAME: &[(&[Sample], bool)] = &[
    (
        &[
            Sample::Clock,
            Sample::Note,
            Sample::Open,
            Sample::Byte(1),
            Sample::Abort,
        ],
        true,
    ),
    (
        &[
            Sample::Clock,
            Sample::Note,
            Sample::Open,
            Sample::Byte(1),
            Sample::End,
        ],
        false,
    ),
    (
        &[
            Sample::Note,
            Sample::Clock,
            Sample::Open,
            Sample::Byte(1),
            Sample::Abort,
        ],
        false,
    ),
    (
        &[
            Sample::Clock,
            Sample::Softer,
            Sample::Open,
            Sample::Byte(1),
            Sample::Abort,
        ],
        false,
    ),
];

#[test]
fn denotations_are_the_same_where_both_lists_are(rt: HostRuntime) {
    let open = denotation_of(
        &rt,
        rt.alloc(),
        &[Sample::Clock, Sample::Note, Sample::Open, Sample::Byte(1)],
    );
    for (samples, same) in SAME {
        let den = denotation_of(&rt, rt.alloc(), samples);
        assert!(rt;
            open.same(&den) == *same && den.same(&open) == *same,
            "{samples:?}"
        );
    }
}

const COUNTED: &[Sample] = &[
    Sample::Note,
    Sample::Clock,
    Sample::Open,
    Sample::Byte(1),
    Sample::End,
    Sample::Clock,
    Sample::Clock,
    Sample::Open,
    Sample::Abort,
    Sample::Note,
];

#[test]
fn counts_of_marks(rt: HostRuntime) {
    let mut counts = Counts::new();
    for sample in COUNTED {
        assert!(rt; counts.msg < 10 && counts.syx < 10 && counts.broken < 10 && counts.rt < 10);
        counts.put(sample.mark());
    }
    assert!(rt; counts.msg == 2 && counts.syx == 1 && counts.broken == 1 && counts.rt == 3);
}
