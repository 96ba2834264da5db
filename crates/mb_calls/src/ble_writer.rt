//! The writer of BLE-MIDI packets.

use mb_ble::{BleWriter, MORE_ROOM};
use mb_message::{Buf, Ev, Rt, Short};

#[test]
fn a_status_is_left_out_within_a_packet(rt: HostRuntime) {
    let mut writer = BleWriter::new(20);
    let mut out = Buf::new();
    assert!(rt; writer.size() == 20);
    writer.put(0, Ev::Short(Short::of(0x90, 0x3c, 0x64)), &mut out);
    writer.put(1, Ev::Rt(Rt::new(0xf8).unwrap()), &mut out);
    writer.put(1, Ev::Short(Short::of(0x90, 0x40, 0x64)), &mut out);
    assert!(rt; out.is_empty());
    writer.finish(&mut out);
    assert!(rt;
        out.as_slice()
            == [
                0, 10, 0x80, 0x80, 0x90, 0x3c, 0x64, 0x81, 0xf8, 0x81, 0x40, 0x64
            ]
            .as_slice()
    );
}

#[test]
fn a_packet_of_the_least_size(rt: HostRuntime) {
    let mut writer = BleWriter::new(5);
    let mut out = Buf::new();
    writer.put(0, Ev::Open, &mut out);
    assert!(rt; writer.in_sysex());
    writer.put(0, Ev::Run(&[1, 2, 3]), &mut out);
    writer.put(0, Ev::End, &mut out);
    assert!(rt; !writer.in_sysex());
    writer.finish(&mut out);
    assert!(rt;
        out.as_slice() == [0, 5, 0x80, 0x80, 0xf0, 1, 2, 0, 4, 0x80, 3, 0x80, 0xf7].as_slice()
    );
}

#[test]
fn stamps_128_apart_stand_in_two_packets(rt: HostRuntime) {
    let mut writer = BleWriter::new(20);
    let mut out = Buf::new();
    writer.put(0, Ev::Rt(Rt::new(0xf8).unwrap()), &mut out);
    writer.put(127, Ev::Rt(Rt::new(0xf8).unwrap()), &mut out);
    writer.put(255, Ev::Rt(Rt::new(0xf8).unwrap()), &mut out);
    writer.finish(&mut out);
    assert!(rt;
        out.as_slice() == [0, 5, 0x80, 0x80, 0xf8, 0xff, 0xf8, 0, 3, 0x81, 0xff, 0xf8].as_slice()
    );
}

#[test]
fn a_second_fall_begins_a_packet(rt: HostRuntime) {
    let mut writer = BleWriter::new(20);
    let mut out = Buf::new();
    writer.put(127, Ev::Rt(Rt::new(0xf8).unwrap()), &mut out);
    writer.put(128, Ev::Rt(Rt::new(0xf8).unwrap()), &mut out);
    writer.put(255, Ev::Rt(Rt::new(0xf8).unwrap()), &mut out);
    writer.put(256, Ev::Rt(Rt::new(0xf8).unwrap()), &mut out);
    writer.finish(&mut out);
    assert!(rt;
        out.as_slice()
            == [
                0, 7, 0x80, 0xff, 0xf8, 0x80, 0xf8, 0xff, 0xf8, 0, 3, 0x82, 0x80, 0xf8
            ]
            .as_slice()
    );
}

#[test]
fn the_13_bits_go_round_in_a_packet(rt: HostRuntime) {
    let mut writer = BleWriter::new(512);
    let mut out = Buf::new();
    writer.put(8191, Ev::Rt(Rt::new(0xf8).unwrap()), &mut out);
    assert!(rt; out.is_empty());
    writer.put(8192, Ev::Rt(Rt::new(0xf8).unwrap()), &mut out);
    assert!(rt; out.is_empty());
    writer.finish(&mut out);
    assert!(rt; out.as_slice() == [0, 5, 0xbf, 0xff, 0xf8, 0x80, 0xf8].as_slice());
}

#[test]
fn a_flush_ends_the_packet_and_its_running_status(rt: HostRuntime) {
    let mut writer = BleWriter::new(20);
    let mut out = Buf::new();
    writer.flush(&mut out);
    assert!(rt; out.is_empty());
    writer.put(2, Ev::Short(Short::of(0x90, 0x3c, 0x64)), &mut out);
    writer.flush(&mut out);
    writer.flush(&mut out);
    writer.put(2, Ev::Short(Short::of(0x90, 0x40, 0x64)), &mut out);
    writer.finish(&mut out);
    writer.finish(&mut out);
    assert!(rt;
        out.as_slice()
            == [
                0, 5, 0x80, 0x82, 0x90, 0x3c, 0x64, 0, 5, 0x80, 0x82, 0x90, 0x40, 0x64
            ]
            .as_slice()
    );
}

#[test]
fn an_abort_writes_nothing_and_a_status_stands_behind_it(rt: HostRuntime) {
    let mut writer = BleWriter::new(20);
    let mut out = Buf::new();
    writer.put(0, Ev::Short(Short::of(0x90, 0x3c, 0x64)), &mut out);
    writer.put(0, Ev::Open, &mut out);
    writer.put(0, Ev::Run(&[1]), &mut out);
    writer.put(0, Ev::Abort, &mut out);
    assert!(rt; !writer.in_sysex());
    writer.put(0, Ev::Short(Short::of(0x90, 0x40, 0x64)), &mut out);
    writer.finish(&mut out);
    assert!(rt;
        out.as_slice()
            == [
                0, 12, 0x80, 0x80, 0x90, 0x3c, 0x64, 0x80, 0xf0, 1, 0x80, 0x90, 0x40, 0x64
            ]
            .as_slice()
    );
}

/// The data of an identity reply.
const REPLY: &[u8] = &[0x7e, 0, 6, 2, 0x41, 0x10, 2, 0, 0, 0, 1, 0, 0];

#[test]
fn a_sysex_goes_on_in_the_next_packet(rt: HostRuntime) {
    let mut writer = BleWriter::new(20);
    let mut out = Buf::new();
    writer.put(4104, Ev::Open, &mut out);
    writer.put(4104, Ev::Run(REPLY), &mut out);
    writer.put(4104, Ev::End, &mut out);
    writer.put(4105, Ev::Rt(Rt::new(0xf8).unwrap()), &mut out);
    writer.finish(&mut out);
    assert!(rt; out.len() <= 20 + MORE_ROOM);
    assert!(rt;
        out.as_slice()
            == [
                0, 20, 0xa0, 0x88, 0xf0, 0x7e, 0, 6, 2, 0x41, 0x10, 2, 0, 0, 0, 1, 0, 0, 0x88,
                0xf7, 0x89, 0xf8
            ]
            .as_slice()
    );
}
