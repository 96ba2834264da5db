//! The writer of a cable.

ghost use Rattle.std.specs.Prelude.{◌≡◌, ◌+◌, ◌*◌, ◌≤◌, true, List, ◌++◌, length, map};
ghost use Rattle.std.specs.List.{list_all};
ghost use Rattle.arrayvec.specs.ArrayVec.{array_vec_len};
ghost use Rattle.mb_message.specs.Bytes.{is_data};
ghost use Rattle.mb_message.specs.Signs.{Sign, ByteSign};
ghost use Rattle.mb_stream.specs.Appended.{Appended};
ghost use Rattle.mb_usb.specs.Writer.{Stands};
ghost use Rattle.mb_usb.specs.Written.{usb_live};

use mb_message::{Buf, Ev, Rt, Short};
use mb_usb::{PUT_ROOM, UsbWriter};

#[test]
fn messages_are_one_packet_each(rt: HostRuntime) {
    let mut writer = UsbWriter::new(15);
    let mut out = Buf::new();
    writer.put(Ev::Short(Short::of(0xc0, 5, 0)), &mut out);
    writer.put(Ev::Short(Short::of(0xf2, 1, 2)), &mut out);
    writer.put(Ev::Rt(Rt::new(0xf8).unwrap()), &mut out);
    assert!(rt;
        out.as_slice() == [0xfc, 0xc0, 5, 0, 0xf3, 0xf2, 1, 2, 0xff, 0xf8, 0, 0].as_slice()
    );
}

#[test]
fn a_sysex_is_cut_into_threes(rt: HostRuntime) {
    let mut writer = UsbWriter::new(0);
    let mut out = Buf::new();
    writer.put(Ev::Open, &mut out);
    writer.put(Ev::Run(&[1, 2, 3, 4, 5, 6]), &mut out);
    writer.put(Ev::End, &mut out);
    assert!(rt; out.as_slice() == [4, 0xf0, 1, 2, 4, 3, 4, 5, 6, 6, 0xf7, 0].as_slice());
}

#[test]
fn what_waits_is_written_at_the_finish(rt: HostRuntime) {
    let mut writer = UsbWriter::new(1);
    let mut out = Buf::new();
    writer.put(Ev::Open, &mut out);
    assert!(rt; writer.in_sysex());
    writer.finish(&mut out);
    assert!(rt; !writer.in_sysex());
    assert!(rt; out.as_slice() == [0x1f, 0xf0, 0, 0].as_slice());
}

/// A run of any length, in pieces of 16: a caller's loop is proved by the public clauses.
fn put_all(writer: &mut UsbWriter, bytes: &[u8], out: &mut Buf)
    requires room { array_vec_len out.old + PUT_ROOM * length bytes.now ≤ 1024 }
    requires open { writer.old.in_sysex ≡ true }
    requires run { list_all is_data bytes.now ≡ true }
    ensures in_sysex { writer.new.in_sysex ≡ true }
    ensures stands { (marks : List Sign) → Stands writer.old marks →
        Stands writer.new (marks ++ map ByteSign bytes.now) }
    ensures written { (marks : List Sign) → Stands writer.old marks →
        Appended out.old.items out.new.items
        (usb_live writer.old.cable marks) (usb_live writer.old.cable (marks ++ map ByteSign bytes.now)) }
{
    let mut rest = bytes;
    'pieces: while !rest.is_empty() {
        let (piece, tail) = rest.split_at(rest.len().min(16));
        writer.put(Ev::Run(piece), out);
        rest = tail;
    }
}

#[test]
fn a_long_run_goes_in_pieces(rt: HostRuntime) {
    let mut writer = UsbWriter::new(0);
    let mut out = Buf::new();
    writer.put(Ev::Open, &mut out);
    put_all(&mut writer, &[1; 17], &mut out);
    assert!(rt; out.len() == 24);
}
