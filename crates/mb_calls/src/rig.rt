//! The text of a rig.

use mb_carrier::Spec;
use mb_rig::{Port, Rig, RigFault, Why};
use std::alloc::Global;

const TWO_TAPES: &[u8] = b"in keys din keys.mbt
in pad ble pad.mbt 3
out synth usb:1 synth.bin
route keys synth
route pad synth
";

fn is_port(port: &Port, name: &str, spec: Spec, file: &str, track: u8) -> bool {
    port.name.text() == name && port.spec == spec && port.file.text() == file && port.track == track
}

#[test]
fn a_rig_has_its_links_outs_and_routes(rt: HostRuntime) {
    let rig = Rig::read(rt.alloc(), TWO_TAPES).expect(&rt, "a rig");
    assert!(rt; rig.ins().len() == 2 && rig.outs().len() == 1);
    assert!(rt; is_port(&rig.ins()[0], "keys", Spec::Din, "keys.mbt", 0));
    assert!(rt; is_port(&rig.ins()[1], "pad", Spec::Ble(20), "pad.mbt", 3));
    assert!(rt; is_port(&rig.outs()[0], "synth", Spec::Usb(1), "synth.bin", 0));
    assert!(rt; rig.routes() == [(0, 0), (1, 0)].as_slice());
}

/// Whether a text is refused by this line and this cause.
fn is_refused(alloc: Global, text: &[u8], line: u32, why: Why) -> bool {
    match Rig::read(alloc, text) {
        Ok(_) => false,
        Err(fault) => fault == RigFault::Line(line, why),
    }
}

/// Texts, with the line that is refused and its cause.
const FAULTY: &[(&str, u32, &str)] = &[
    ("", 1, "count"),
    ("# a\n\n", 3, "count"),
    ("in a din a.mbt\n", 2, "count"),
    ("out o din o.bin", 2, "count"),
    ("in a dni a.mbt", 1, "carrier"),
    ("in a usb:16 a.mbt", 1, "carrier"),
    ("in a fw:064 a.mbt", 1, "carrier"),
    ("out o ble/4 o.bin", 1, "carrier"),
    ("in a din a.mbt\nin a din b.mbt\n", 2, "name-twice"),
    ("in a din a.mbt\nout a din o.bin\n", 2, "name-twice"),
    ("in a din a.mbt\nin b din a.mbt 0\n", 2, "name-twice"),
    ("in a din a.mbt 1\nout o din a.mbt\n", 2, "name-twice"),
    ("out o din o.bin\nout p din o.bin\n", 2, "name-twice"),
    ("in a_1 din a\n\nin A din b\n", 3, "name"),
    ("out seventeen_letters din o", 1, "name"),
    ("in a din a\nin b din b 256", 2, "words"),
    ("in a din a\nin b din b 01", 2, "words"),
    ("in a din a\nout o din o 1", 2, "words"),
    ("in a din a\r\r\n", 1, "words"),
    ("in a din", 1, "words"),
    ("in a din a 1 2", 1, "words"),
    ("route a", 1, "words"),
    ("links a din a", 1, "words"),
    ("in a din a\x7f", 1, "words"),
    ("route a o", 1, "port"),
    ("in a din a\nroute a o\nout o din o\n", 2, "port"),
    ("in a din a\nout o din o\nroute o a\n", 3, "port"),
    (
        "in a din a\nout o din o\nroute a o\nroute a o\n",
        4,
        "route-twice",
    ),
    ("in A dni a\n", 1, "carrier"),
    ("in a din a\nin a x a\x01", 2, "words"),
];

fn cause_of(alloc: Global, text: &str) -> Option<(u32, &'static str)> {
    match Rig::read(alloc, text.as_bytes()) {
        Err(RigFault::Line(line, why)) => Some((line, why.word())),
        _ => None,
    }
}

#[test]
fn faulty_texts_are_refused_by_line_and_cause(rt: HostRuntime) {
    for (text, line, cause) in FAULTY {
        let told = cause_of(rt.alloc(), text);
        assert!(rt; told == Some((*line, *cause)), "{text}");
    }
}

/// Texts of rigs, with how many links, outs and routes they have.
const RIGHT: &[(&str, usize, usize, usize)] = &[
    (
        "in a din t\nin b din t 1\nin c din t 255\nout o din o",
        3,
        1,
        0,
    ),
    (
        "# a rig\r\n\t\r\n  in\ta  din a \r\nout o fw:63 o\r\n",
        1,
        1,
        0,
    ),
    ("out o din in\nin in din out\nroute in o\n", 1, 1, 1),
    (
        "in sixteen_letters_ ble/512 a\nout o ble o\nout p ble/20 p\nroute sixteen_letters_ p",
        1,
        2,
        1,
    ),
];

fn has_so_many(alloc: Global, text: &str, ins: usize, outs: usize, routes: usize) -> bool {
    match Rig::read(alloc, text.as_bytes()) {
        Ok(rig) => rig.ins().len() == ins
            && rig.outs().len() == outs
            && rig.routes().len() == routes,
        Err(_) => false,
    }
}

#[test]
fn right_texts_are_rigs(rt: HostRuntime) {
    for (text, ins, outs, routes) in RIGHT {
        let right = has_so_many(rt.alloc(), text, *ins, *outs, *routes);
        assert!(rt; right, "{text}");
    }
}

/// Seventeen lines, each with a letter of its own as name and file.
const LETTERS: &[u8] = b"abcdefghijklmnopq";

/// The line of a port for each of these letters, and an out before them.
fn links_of(alloc: Global, letters: &[u8]) -> Option<Vec<u8>> {
    let mut text = Vec::new(alloc);
    text.extend_from_slice(b"out o_ din o_\n").ok()?;
    for letter in letters {
        text.extend_from_slice(b"in ").ok()?;
        text.push(*letter).ok()?;
        text.extend_from_slice(b" din ").ok()?;
        text.push(*letter).ok()?;
        text.push(b'\n').ok()?;
    }
    Some(text)
}

#[test]
fn sixteen_links_are_a_rig_and_seventeen_are_not(rt: HostRuntime) {
    let most = links_of(rt.alloc(), &LETTERS[..16]).expect(&rt, "memory");
    assert!(rt; Rig::read(rt.alloc(), most.as_slice()).is_ok());
    let more = links_of(rt.alloc(), LETTERS).expect(&rt, "memory");
    assert!(rt; is_refused(rt.alloc(), more.as_slice(), 18, Why::Count));
}

/// A remark of so many bytes.
fn remark_of(alloc: Global, len: usize) -> Option<Vec<u8>> {
    Vec::from_elem(alloc, b'#', len).ok()
}

#[test]
fn a_text_of_more_than_65536_bytes_is_too_long(rt: HostRuntime) {
    let most = remark_of(rt.alloc(), 65_536).expect(&rt, "memory");
    assert!(rt; is_refused(rt.alloc(), most.as_slice(), 2, Why::Count));
    let more = remark_of(rt.alloc(), 65_537).expect(&rt, "memory");
    assert!(rt; is_refused(rt.alloc(), more.as_slice(), 0, Why::Long));
}
