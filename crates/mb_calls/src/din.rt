//! The byte line's reader and writer.

ghost use Rattle.std.specs.Prelude.{◌≡◌, ◌+◌, ◌<◌, ◌^◌, length};

use crate::text::{Runs, Text, put_answer, put_seen};
use mb_din::{DinReader, DinWriter};
use mb_message::{Buf, Ev, Rt, Short};

/// Bytes of a line, and what they and the finish tell.
const TOLD: &[(&[u8], &str)] = &[
    (
        &[0x90, 0xf8, 0x3c, 0x64, 0x40],
        "0 rt F8\n0 short 90 3C 64\nnote 4 truncated\n",
    ),
    (
        &[0xf0, 1, 2, 0xf6, 0x3c],
        "0 open\n0 data 01\n0 data 02\n0 abort\n0 short F6\nnote 4 stray-data\nnone\n",
    ),
    (
        &[0xf0, 1, 2, 0xf8, 3, 0xf7],
        "0 open\n0 data 01\n0 data 02\n0 rt F8\n0 data 03\n0 end\nnone\n",
    ),
];

/// Appends what a piece tells, up to the answer of nothing.
fn read_piece(reader: &mut DinReader, piece: &[u8], runs: Runs, text: &mut Text)
    requires { reader.old.offset + length piece.now < 2 ^ 63 }
    ensures { reader.new.offset ≡ reader.old.offset + length piece.now }
{
    let mut rest = piece;
    'told: while let Some(seen) = reader.next(&mut rest) {
        put_seen(0, seen, runs, text);
    }
}

fn told_cut_at(bytes: &[u8], cut: usize) -> Text
    requires { length bytes.now < 2 ^ 63 }
{
    let mut reader = DinReader::new();
    let mut text = Text::new();
    let (front, back) = bytes.split_at(bytes.len().min(cut));
    read_piece(&mut reader, front, Runs::ByteByByte, &mut text);
    read_piece(&mut reader, back, Runs::ByteByByte, &mut text);
    put_answer(0, reader.finish(), &mut text);
    text
}

#[test]
fn a_line_is_read_cut_at_each_place(rt: HostRuntime) {
    for (bytes, told) in TOLD {
        for cut in 0..=bytes.len() {
            let text = told_cut_at(bytes, cut);
            assert!(rt; text.as_slice() == told.as_bytes(), "{told} at {cut}");
        }
    }
}

/// A piece, the next one, and what they tell with each run as it is lent.
const LENT: &[(&[u8], &[u8], &str)] = &[
    (
        &[0xf0, 1, 2, 0xf8, 3, 0xf7],
        &[],
        "0 open\nrun 01 02\n0 rt F8\nrun 03\n0 end\nnone\nnone\n",
    ),
    (
        &[0xf0, 1],
        &[2, 0xf8, 3, 0xf7],
        "0 open\nrun 01\nnone\nrun 02\n0 rt F8\nrun 03\n0 end\nnone\n",
    ),
];

fn lent_in_pieces(front: &[u8], back: &[u8]) -> Text
    requires { length front.now + length back.now < 2 ^ 63 }
{
    let mut reader = DinReader::new();
    let mut text = Text::new();
    read_piece(&mut reader, front, Runs::AsLent, &mut text);
    put_answer(0, None, &mut text);
    read_piece(&mut reader, back, Runs::AsLent, &mut text);
    put_answer(0, None, &mut text);
    text
}

#[test]
fn runs_are_lent_as_long_as_they_stand(rt: HostRuntime) {
    for (front, back, told) in LENT {
        assert!(rt; front.len() + back.len() < 100);
        let text = lent_in_pieces(front, back);
        assert!(rt; text.as_slice() == told.as_bytes(), "{told}");
    }
}

#[test]
fn a_reader_is_placed_and_resumed(rt: HostRuntime) {
    let mut reader = DinReader::new();
    let mut text = Text::new();
    reader.place(9);
    read_piece(&mut reader, &[0x3c, 0xf0], Runs::AsLent, &mut text);
    assert!(rt; reader.in_sysex() && !reader.may_run());
    assert!(rt; !reader.is_free() && reader.offset() == 11);
    put_answer(0, reader.finish(), &mut text);
    put_answer(0, reader.finish(), &mut text);
    assert!(rt; reader.is_free());
    reader.resume(0xc1);
    assert!(rt; reader.may_run() && !reader.in_sysex());
    read_piece(&mut reader, &[5], Runs::AsLent, &mut text);
    assert!(rt; text.as_slice() == PLACED.as_bytes());
}

/// What it tells: stray data at 9, a SysEx that the finish breaks off, nothing at the next finish, and a running
/// status.
const PLACED: &str = "note 9 stray-data\n0 open\n0 abort\nnone\n0 short C1 05\n";

#[test]
fn what_stands_whole_is_read_in_one_go(rt: HostRuntime) {
    let mut reader = DinReader::new();
    let mut text = Text::new();
    put_answer(0, reader.read_two(1, 0xc1, 0x80), &mut text);
    put_answer(0, reader.read_two(1, 0xc1, 5), &mut text);
    put_answer(0, reader.read_three(5, 0x90, 0x3c, 0x64), &mut text);
    put_answer(0, Some(reader.read_realtime(9, 0xf8)), &mut text);
    put_answer(0, reader.read_run(13, &[1, 2, 3]), &mut text);
    read_piece(&mut reader, &[0xf0], Runs::AsLent, &mut text);
    put_answer(0, reader.read_run(17, &[1, 2, 3]), &mut text);
    assert!(rt; text.as_slice() == IN_ONE_GO.as_bytes());
}

/// What it tells: nothing of a data byte that is none, and nothing of a run outside a SysEx.
const IN_ONE_GO: &str =
    "none\n0 short C1 05\n0 short 90 3C 64\n0 rt F8\nnone\n0 open\nrun 01 02 03\n";

#[test]
fn running_status_and_a_sysex_are_written(rt: HostRuntime) {
    let mut writer = DinWriter::new(true);
    let mut out = Buf::new();
    let note = Short::of(0x90, 0x3c, 0x64);
    writer.put(Ev::Short(note), &mut out);
    writer.put(Ev::Rt(Rt::new(0xf8).unwrap()), &mut out);
    writer.put(Ev::Short(note), &mut out);
    writer.put(Ev::Open, &mut out);
    writer.put(Ev::Run(&[1, 2]), &mut out);
    assert!(rt; writer.in_sysex());
    writer.put(Ev::End, &mut out);
    writer.finish(&mut out);
    assert!(rt;
        out.as_slice() == [0x90, 0x3c, 0x64, 0xf8, 0x3c, 0x64, 0xf0, 1, 2, 0xf7].as_slice()
    );
}

#[test]
fn each_status_and_a_broken_sysex_are_written(rt: HostRuntime) {
    let mut writer = DinWriter::new(false);
    let mut out = Buf::new();
    let program = Short::of(0xc1, 5, 0);
    writer.put(Ev::Short(program), &mut out);
    writer.put(Ev::Short(program), &mut out);
    writer.put(Ev::Open, &mut out);
    writer.put(Ev::Run(&[7]), &mut out);
    writer.put(Ev::Abort, &mut out);
    assert!(rt; !writer.in_sysex());
    writer.put(Ev::Short(program), &mut out);
    assert!(rt; out.as_slice() == [0xc1, 5, 0xc1, 5, 0xf0, 7, 0xc1, 5].as_slice());
}
