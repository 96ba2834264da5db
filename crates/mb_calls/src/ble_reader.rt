//! The reader of BLE-MIDI packets.

ghost use Rattle.std.specs.Prelude.{◌≡◌, ◌+◌, ◌≤◌, ◌^◌, length};
ghost use Rattle.mb_ble.specs.State.{ble_offset};

use crate::text::{Runs, Text, put_line, put_numbered};
use mb_ble::{BleReader, BleStep};

/// Appends the lines of what is told, each mark with its moment: `none` where nothing is.
fn put_step(step: Option<BleStep<'_>>, text: &mut Text) {
    match step {
        Some(step) => put_numbered(step.moment, step.seen, Runs::ByteByByte, text),
        None => put_line(b"none\n", text),
    }
}

/// Appends what a piece tells, up to the answer of nothing.
fn read_piece(reader: &mut BleReader, piece: &[u8], text: &mut Text)
    requires { ble_offset reader.old + length piece.now ≤ 2 ^ 51 + 2 ^ 14 }
    ensures { ble_offset reader.new ≡ ble_offset reader.old + length piece.now }
{
    let mut rest = piece;
    'told: while let Some(step) = reader.next(&mut rest) {
        put_numbered(step.moment, step.seen, Runs::ByteByByte, text);
    }
}

/// Recordings, and what they tell, with their end.
const TOLD: &[(&[u8], &str)] = &[
    (
        // a note on
        &[0, 5, 0x80, 0x80, 0x90, 0x3c, 0x64],
        "0 short 90 3C 64\nnone\n",
    ),
    (
        // running status with and without a stamp
        &[
            0, 0x0a, 0x80, 0x81, 0x90, 0x3c, 0x64, 0x40, 0x64, 0x82, 0x43, 0x64,
        ],
        "1 short 90 3C 64\n1 short 90 40 64\n2 short 90 43 64\nnone\n",
    ),
    (
        // a SysEx over two packets
        &[0, 5, 0x80, 0x80, 0xf0, 1, 2, 0, 5, 0x80, 3, 4, 0x80, 0xf7],
        "0 open\n0 data 01\n0 data 02\n0 data 03\n0 data 04\n0 end\nnone\n",
    ),
    (
        // the lower seven bits fall in a packet: the upper six have risen
        &[0, 5, 0x80, 0xff, 0xf8, 0x80, 0xfa],
        "127 rt F8\n128 rt FA\nnone\n",
    ),
    (
        // two falls in one packet
        &[0, 9, 0x80, 0xff, 0xf8, 0x80, 0xf8, 0xff, 0xf8, 0x80, 0xf8],
        "127 rt F8\n128 rt F8\n255 rt F8\n256 rt F8\nnone\n",
    ),
    (
        // the 13 bits go round
        &[0, 3, 0xbf, 0xff, 0xf8, 0, 3, 0x80, 0x80, 0xf8],
        "8191 rt F8\n8192 rt F8\nnone\n",
    ),
    (
        // an F7 without a stamp of its own is read as a stamp; the SysEx stays open
        &[0, 4, 0x80, 0x80, 0xf0, 1, 0, 2, 0x80, 0xf7],
        "0 open\n0 data 01\nnote 9 lone-stamp\n119 abort\n",
    ),
    (
        // behind a System Common message the packet's status runs on; a stamp alone at the end
        &[
            0, 0x0a, 0x80, 0x81, 0x90, 0x3c, 0x64, 0x82, 0xf6, 0x40, 0x64, 0x83,
        ],
        "1 short 90 3C 64\n2 short F6\n2 short 90 40 64\nnote 11 lone-stamp\nnone\n",
    ),
    (
        // a packet's end ends a message and its running status
        &[0, 4, 0x80, 0x81, 0x90, 0x3c, 0, 3, 0x80, 0x3c, 0x64],
        "note 4 truncated\nnote 9 stray-data\nnote 10 stray-data\nnone\n",
    ),
    (
        // one System Common message breaks another
        &[0, 6, 0x80, 0x80, 0xf1, 0x81, 0xf1, 5],
        "note 4 truncated\n1 short F1 05\nnone\n",
    ),
    (
        // behind an undefined status the packet's status doesn't run on
        &[
            0, 0x0a, 0x80, 0x81, 0x90, 0x3c, 0x64, 0x82, 0xf4, 0x40, 0x64, 0x41,
        ],
        "1 short 90 3C 64\nnote 8 undefined\nnote 9 stray-data\nnote 10 stray-data\nnote 11 stray-data\nnone\n",
    ),
    (
        // a packet of no bytes and one with a bad header leave a SysEx open
        &[
            0, 5, 0x80, 0x80, 0xf0, 1, 2, 0, 0, 0, 3, 0, 5, 6, 0, 3, 0x80, 0x81, 0xf7,
        ],
        "0 open\n0 data 01\n0 data 02\nnote 7 empty-packet\nnote 11 bad-header\n1 end\nnone\n",
    ),
    (
        // a message with a stamp of its own breaks a SysEx, which is told before it
        &[0, 9, 0x80, 0x80, 0xf0, 1, 2, 0x81, 0x90, 0x3c, 0x64],
        "0 open\n0 data 01\n0 data 02\n1 abort\n1 short 90 3C 64\nnone\n",
    ),
    (
        // bit 6 of a header isn't looked at
        &[0, 3, 0xc1, 0x85, 0xf8],
        "133 rt F8\nnone\n",
    ),
    (
        // a real-time message in a message, and a System Common message whose data is cut off by the end
        &[0, 9, 0x80, 0x81, 0x90, 0x3c, 0x82, 0xf8, 0x64, 0x83, 0xf2],
        "2 rt F8\n2 short 90 3C 64\nnote 10 truncated\nnone\n",
    ),
    (&[0, 1, 0x80], "none\n"),
    (&[0, 2, 0x80, 0x85], "note 3 lone-stamp\nnone\n"),
    (&[0, 0], "note 0 empty-packet\nnone\n"),
    (
        &[0, 5, 0, 0x80, 0x90, 0x3c, 0x64],
        "note 2 bad-header\nnone\n",
    ),
    (
        // a keyboard's two packets and its identity reply
        &[
            0, 0x0c, 0xa0, 0x85, 0x90, 0x3c, 0x64, 0x85, 0x40, 0x60, 0x87, 0xf8, 0x87, 0xfe, 0,
            0x12, 0xa0, 0x88, 0xf0, 0x7e, 0, 6, 2, 0x41, 0x10, 2, 0, 0, 0, 1, 0, 0, 0x88, 0xf7,
        ],
        "4101 short 90 3C 64\n4101 short 90 40 60\n4103 rt F8\n4103 rt FE\n4104 open\n4104 data 7E\n4104 data 00\n4104 data 06\n4104 data 02\n4104 data 41\n4104 data 10\n4104 data 02\n4104 data 00\n4104 data 00\n4104 data 00\n4104 data 01\n4104 data 00\n4104 data 00\n4104 end\nnone\n",
    ),
];

#[test]
fn recordings_are_read_cut_at_each_place(rt: HostRuntime) {
    for (bytes, told) in TOLD {
        for cut in 0..=bytes.len() {
            let mut reader = BleReader::new();
            let mut text = Text::new();
            assert!(rt; bytes.len() <= 64);
            let (front, back) = bytes.split_at(cut);
            read_piece(&mut reader, front, &mut text);
            read_piece(&mut reader, back, &mut text);
            assert!(rt; !reader.partial());
            put_step(reader.finish(), &mut text);
            assert!(rt; text.as_slice() == told.as_bytes(), "{told} at {cut}");
        }
    }
}

#[test]
fn a_recording_that_stops_inside_a_frame(rt: HostRuntime) {
    let mut reader = BleReader::new();
    let mut text = Text::new();
    read_piece(&mut reader, &[0, 6, 0x80, 0x85, 0x90], &mut text);
    assert!(rt; reader.partial());
    assert!(rt; reader.moment() == 5);
    put_step(reader.finish(), &mut text);
    put_step(reader.finish(), &mut text);
    assert!(rt; text.as_slice() == b"note 4 truncated\nnone\n".as_slice());
}

/// 65,535 bytes, of which all but five are data of a SysEx.
#[test]
fn the_longest_packet(rt: HostRuntime) {
    let mut reader = BleReader::new();
    let mut text = Text::new();
    read_piece(&mut reader, &[0xff, 0xff, 0x80, 0x85, 0xf0], &mut text);
    text.clear();
    for count in 0..130_u8 {
        read_piece(&mut reader, &[0x11; 504], &mut text);
        text.clear();
    }
    read_piece(&mut reader, &[0x11; 10], &mut text);
    text.clear();
    assert!(rt; reader.partial());
    let mut rest: &[u8] = &[0x85, 0xf7, 0];
    put_step(reader.next(&mut rest), &mut text);
    assert!(rt; text.as_slice() == b"5 end\n".as_slice());
    assert!(rt; rest.len() == 1);
}
