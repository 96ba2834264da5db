//! What is made for a self-test.

use mb_make::Maker;

/// A first state, a number of units, and their bytes.
const MADE: &[(u32, u32, &[u8])] = &[
    (0, 0, &[]),
    (0, 1, &[0xe4, 0x65, 0x2a]),
    (1, 3, &[0xc1, 0x6b, 0xff, 0xe4, 0x76, 0x3d]),
    // no status runs at the start
    (
        19,
        4,
        &[0xa9, 0x60, 0x22, 0x22, 0x15, 0x75, 0x6d, 0x44, 0x7d],
    ),
    // a status runs on behind a real-time byte
    (1099, 4, &[0xdd, 0x48, 0xf8, 0x1a, 0x24]),
    // none runs on behind a System Common message, a broken SysEx and a whole one
    (513, 4, &[0xcb, 0x69, 0xf6, 0xd2, 0x33, 0x40]),
    (
        280,
        4,
        &[0x8a, 0x00, 0x11, 0xf0, 0x91, 0x23, 0x29, 0x32, 0x1f],
    ),
    (
        153,
        4,
        &[
            0xd9, 0x47, 0xf0, 0xf8, 0x0c, 0x38, 0x4d, 0x4e, 0x7c, 0x44, 0x40, 0x11, 0x19, 0x35,
            0x42, 0x1f, 0x0f, 0x66, 0x16, 0xf7, 0xa6, 0x37, 0x16, 0x0b, 0x5d,
        ],
    ),
    // the greatest first state
    (2147483647, 1, &[0xe6, 0x5e, 0x09]),
];

/// Two bytes at first, and then the rest.
#[test]
fn units_are_made_piece_by_piece(rt: HostRuntime) {
    for (start, units, bytes) in MADE {
        let mut maker = Maker::new(*start, *units);
        let mut buffer = [0u8; 64];
        let first = maker.fill(&mut buffer[..2]);
        let rest = maker.fill(&mut buffer[first..]);
        let made = &buffer[..first + rest];
        assert!(rt; made == *bytes, "from {start}");
    }
}
