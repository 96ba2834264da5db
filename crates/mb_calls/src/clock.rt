//! The clock of BLE-MIDI packets.

use mb_clock::{Unwrap, stamp_of};

/// A recording: of each packet the header's upper six bits, then each stamp's lower seven, and its moment.
const RECORDING: &[(u8, &[(u8, u64)])] = &[
    // the first stamp, and an equal one
    (2, &[(5, 261), (5, 261), (6, 262)]),
    // the lower bits fall twice
    (2, &[(126, 382), (1, 385), (0, 512)]),
    // the upper bits go round
    (63, &[(127, 8191), (0, 8192)]),
    // the last bits again
    (63, &[(127, 16383)]),
    // round at a header
    (0, &[(0, 16384)]),
    // forward
    (5, &[(0, 17024)]),
    // a header that goes back
    (4, &[(127, 25215)]),
];

#[test]
fn moments_of_stamps(rt: HostRuntime) {
    let mut clock = Unwrap::new();
    assert!(rt; clock.moment() == 0);
    for (high, stamps) in RECORDING {
        assert!(rt; *high < 64);
        clock.packet(*high);
        for (low, moment) in *stamps {
            assert!(rt; *low < 128);
            assert!(rt; clock.moment() < 1 << 40);
            assert!(rt; clock.stamp(*low) == *moment);
        }
    }
}

/// Moments, and the upper and lower bits of their stamps.
const STAMPS: &[(u64, u8, u8)] = &[
    (0, 0, 0),
    (127, 0, 127),
    (128, 1, 0),
    (8191, 63, 127),
    (8192, 0, 0),
    (u64::MAX, 63, 127),
];

#[test]
fn stamps_of_moments(rt: HostRuntime) {
    for (moment, high, low) in STAMPS {
        assert!(rt; stamp_of(*moment) == (*high, *low), "at {moment}");
    }
}
