//! The writers of eight FireWire ports and of one.

ghost use Rattle.std.specs.Prelude.{◌≡◌, ◌+◌, ◌<◌, ◌^◌, length};
ghost use Rattle.mb_fire.specs.State.{port_offset};

use crate::text::{Runs, Text, put_seen};
use mb_fire::{FirePortReader, FirePortWriter, FireWriter};
use mb_message::{Buf, Ev, Rt, Short};

/// Appends the length and the header of a packet at a place.
fn put_head(place: u8, dbc: u8, bytes: &mut Buf) {
    let (high, low, quadlets) = match place {
        0 => (0, 40, 1),
        1 => (0, 72, 2),
        _ => (1, 8, 8),
    };
    let head = [high, low, 0, quadlets, 0, dbc, 0x90, 0x02, 0xff, 0xff];
    let _ = bytes.try_extend_from_slice(&head);
}

/// Appends so many quadlets without a byte.
fn put_none(count: u8, bytes: &mut Buf) {
    for _ in 0..count {
        let _ = bytes.try_extend_from_slice(&[0x80, 0, 0, 0]);
    }
}

/// Appends a quadlet with a byte.
fn put_one(byte: u8, bytes: &mut Buf) {
    let _ = bytes.try_extend_from_slice(&[0x81, byte, 0, 0]);
}

/// Ports, and how many quadlets of a packet stand before theirs and behind it.
const PORTS: &[(u8, u8, u8)] = &[
    (0, 0, 7),
    (7, 7, 0),
    (8, 1, 14),
    (9, 3, 12),
    (56, 7, 56),
    (63, 63, 0),
];

#[test]
fn a_byte_is_a_packet(rt: HostRuntime) {
    for (port, before, behind) in PORTS {
        prove!(*port < 64);
        let mut out = Buf::new();
        let mut bytes = Buf::new();
        FirePortWriter::new(*port).put(Ev::Rt(Rt::new(0xf8).unwrap()), &mut out);
        put_head(*port / 8, 0, &mut bytes);
        put_none(*before, &mut bytes);
        put_one(0xf8, &mut bytes);
        put_none(*behind, &mut bytes);
        assert!(rt; out.as_slice() == bytes.as_slice(), "port {port}");
    }
}

#[test]
fn the_count_rises_by_eight_a_packet(rt: HostRuntime) {
    let mut writer = FirePortWriter::new(2);
    let mut out = Buf::new();
    let mut bytes = Buf::new();
    writer.put(Ev::Short(Short::of(0x90, 0x3c, 0x64)), &mut out);
    for (dbc, byte) in [(0, 0x90), (8, 0x3c), (16, 0x64)] {
        put_head(0, dbc, &mut bytes);
        put_none(2, &mut bytes);
        put_one(byte, &mut bytes);
        put_none(5, &mut bytes);
    }
    assert!(rt; out.as_slice() == bytes.as_slice());
    writer.finish(&mut out);
    assert!(rt; out.as_slice() == bytes.as_slice());
    out.clear();
    writer.put(Ev::Rt(Rt::new(0xf8).unwrap()), &mut out);
    assert!(rt; out.as_slice().starts_with(&[0, 40, 0, 1, 0, 0]));
}

/// Appends what a piece tells of a port.
fn read_port(reader: &mut FirePortReader, piece: &[u8], text: &mut Text)
    requires { port_offset reader.old + length piece.now < 2 ^ 63 }
    ensures { port_offset reader.new ≡ port_offset reader.old + length piece.now }
{
    let mut rest = piece;
    'told: while let Some(seen) = reader.next(&mut rest) {
        put_seen(63, seen, Runs::ByteByByte, text);
    }
}

#[test]
fn the_last_port_written_and_read_back(rt: HostRuntime) {
    let mut writer = FirePortWriter::new(63);
    let mut reader = FirePortReader::new(63);
    let mut out = Buf::new();
    let mut text = Text::new();
    assert!(rt; writer.longest() == 3);
    assert!(rt; writer.room() == 798 && writer.short_room() == 798 && writer.port() == 63);
    writer.put(Ev::Open, &mut out);
    assert!(rt; writer.in_sysex());
    read_port(&mut reader, out.as_slice(), &mut text);
    out.clear();
    writer.put(Ev::Run(&[1, 2, 3]), &mut out);
    read_port(&mut reader, out.as_slice(), &mut text);
    out.clear();
    writer.put(Ev::End, &mut out);
    assert!(rt; !writer.in_sysex());
    read_port(&mut reader, out.as_slice(), &mut text);
    assert!(rt; !reader.partial());
    assert!(rt;
        text.as_slice() == b"63 open\n63 data 01\n63 data 02\n63 data 03\n63 end\n".as_slice()
    );
}

#[test]
fn eight_ports_in_one_packet(rt: HostRuntime) {
    let mut writer = FireWriter::new(rt.alloc()).expect(&rt, "memory");
    let mut out = Buf::new();
    let mut bytes = Buf::new();
    assert!(rt; !writer.drain(&mut out));
    assert!(rt; writer.room(0) == 64 && writer.room(7) == 64);
    assert!(rt; !writer.in_sysex(0) && !writer.in_sysex(7));
    writer.put(0, Ev::Short(Short::of(0xc0, 5, 0)));
    writer.put(7, Ev::Open);
    assert!(rt; writer.room(0) == 62 && writer.room(7) == 63);
    assert!(rt; writer.in_sysex(7) && !writer.in_sysex(0));
    assert!(rt; writer.drain(&mut out));
    put_head(0, 0, &mut bytes);
    put_one(0xc0, &mut bytes);
    put_none(6, &mut bytes);
    put_one(0xf0, &mut bytes);
    assert!(rt; out.as_slice() == bytes.as_slice());
    out.clear();
    bytes.clear();
    assert!(rt; writer.drain(&mut out));
    put_head(0, 8, &mut bytes);
    put_one(5, &mut bytes);
    put_none(7, &mut bytes);
    assert!(rt; out.as_slice() == bytes.as_slice());
    out.clear();
    assert!(rt; !writer.drain(&mut out));
    assert!(rt; out.is_empty());
}

#[test]
fn eight_ports_of_another_place(rt: HostRuntime) {
    let mut writer = FireWriter::at(rt.alloc(), 1).expect(&rt, "memory");
    let mut out = Buf::new();
    let mut bytes = Buf::new();
    assert!(rt; writer.room(9) == 64 && !writer.in_sysex(9));
    writer.put(9, Ev::Rt(Rt::new(0xf8).unwrap()));
    assert!(rt; writer.drain(&mut out));
    put_head(1, 0, &mut bytes);
    put_none(3, &mut bytes);
    put_one(0xf8, &mut bytes);
    put_none(12, &mut bytes);
    assert!(rt; out.as_slice() == bytes.as_slice());
}
