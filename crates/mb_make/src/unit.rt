//! One unit.

ghost use Rattle.std.specs.Prelude.{◌≡◌, ◌+◌, ◌≤◌, Some, None, [], ◌∷◌, ◌++◌};
ghost use Rattle.arrayvec.specs.ArrayVec.{array_vec_len};
ghost use Rattle.mb_make.specs.Generated.{drawn, next_state, data_bytes, state_after, data_count, made_by, next_unit};
ghost use Rattle.mb_make.specs.Generated.{channel_status, channel_unit, run_on, realtime_unit, common_unit};
ghost use Rattle.mb_make.specs.Generated.{whole_sysex, broken_sysex};

use crate::draws::Draws;
use arrayvec::ArrayVec;
use mb_message::data_len;

/// A unit's bytes: at most F0, a clock, 63 data bytes and F7.
pub(crate) type UnitBytes = ArrayVec<u8, 66>;

/// What a unit of real-time is one of.
const REALTIME: [u8; 6] = [0xf8, 0xfa, 0xfb, 0xfc, 0xfe, 0xff];

/// The statuses of System Common messages.
const COMMON: [u8; 4] = [0xf1, 0xf2, 0xf3, 0xf6];

/// Makes the next unit, and answers the status that may run on behind it.
pub(crate) fn make_unit(draws: &mut Draws, running: Option<u8>, unit: &mut UnitBytes) -> Option<u8>
    requires { unit.old.items ≡ [] }
    ensures bytes { unit.new.items ≡ (next_unit running draws.old.state).bytes }
    ensures state { draws.new.state ≡ (next_unit running draws.old.state).state }
    ensures running { result ≡ (next_unit running draws.old.state).running }
{
    let kind = draws.below(16);
    make_kind(kind, draws, running, unit)
}

/// Makes a unit of a kind.
#[tactic(auto, unfolding(crate::specs::Generated::made_by))]
fn make_kind(kind: u32, draws: &mut Draws, running: Option<u8>, unit: &mut UnitBytes) -> Option<u8>
    requires { unit.old.items ≡ [] }
    ensures bytes { unit.new.items ≡ (made_by kind running draws.old.state).bytes }
    ensures state { draws.new.state ≡ (made_by kind running draws.old.state).state }
    ensures running { result ≡ (made_by kind running draws.old.state).running }
{
    match kind {
        0..=7 => Some(put_channel(draws, unit)),
        8 | 9 => Some(put_running(draws, running, unit)),
        10 | 11 => {
            put_realtime(draws, unit);
            running
        }
        12 => {
            put_common(draws, unit);
            None
        }
        13 | 14 => {
            put_sysex(draws, unit);
            None
        }
        _ => {
            put_broken_sysex(draws, unit);
            None
        }
    }
}

/// A channel message with its status, which it answers.
fn put_channel(draws: &mut Draws, unit: &mut UnitBytes) -> u8
    requires { unit.old.items ≡ [] }
    ensures bytes { unit.new.items ≡ (channel_unit draws.old.state).bytes }
    ensures state { draws.new.state ≡ (channel_unit draws.old.state).state }
    ensures running { Some result ≡ (channel_unit draws.old.state).running }
{
    let status = draw_status(draws);
    put_message(status, draws, unit);
    status
}

/// Draws a channel status.
fn draw_status(draws: &mut Draws) -> u8
    ensures status { result ≡ channel_status draws.old.state }
    ensures state { draws.new.state ≡ state_after 2 draws.old.state }
{
    let kind = draws.below(7);
    let channel = draws.below(16);
    (0x80 + 16 * kind + channel) as u8
}

/// Data alone where a status runs, which it answers, and else a channel message with its status.
fn put_running(draws: &mut Draws, running: Option<u8>, unit: &mut UnitBytes) -> u8
    requires { unit.old.items ≡ [] }
    ensures bytes { unit.new.items ≡ (run_on running draws.old.state).bytes }
    ensures state { draws.new.state ≡ (run_on running draws.old.state).state }
    ensures running { Some result ≡ (run_on running draws.old.state).running }
{
    match running {
        Some(status) => {
            put_data(data_count(status), draws, unit);
            status
        }
        None => put_channel(draws, unit),
    }
}

/// A real-time message.
fn put_realtime(draws: &mut Draws, unit: &mut UnitBytes)
    requires { unit.old.items ≡ [] }
    ensures bytes { unit.new.items ≡ (realtime_unit None draws.old.state).bytes }
    ensures state { draws.new.state ≡ (realtime_unit None draws.old.state).state }
{
    unit.push(REALTIME[draws.below(6) as usize]);
}

/// A System Common message.
fn put_common(draws: &mut Draws, unit: &mut UnitBytes)
    requires { unit.old.items ≡ [] }
    ensures bytes { unit.new.items ≡ (common_unit draws.old.state).bytes }
    ensures state { draws.new.state ≡ (common_unit draws.old.state).state }
{
    let status = COMMON[draws.below(4) as usize];
    put_message(status, draws, unit);
}

/// A SysEx that ends by F7, with a clock in it where the number of its data bytes is odd.
fn put_sysex(draws: &mut Draws, unit: &mut UnitBytes)
    requires { unit.old.items ≡ [] }
    ensures bytes { unit.new.items ≡ (whole_sysex (drawn 64 draws.old.state) (next_state draws.old.state)).bytes }
    ensures state { draws.new.state ≡ (whole_sysex (drawn 64 draws.old.state) (next_state draws.old.state)).state }
{
    let count = draws.below(64) as u8;
    unit.push(0xf0);
    if count % 2 == 1 {
        unit.push(0xf8);
    }
    put_data(count, draws, unit);
    unit.push(0xf7);
}

/// A SysEx that the next unit breaks.
fn put_broken_sysex(draws: &mut Draws, unit: &mut UnitBytes)
    requires { unit.old.items ≡ [] }
    ensures bytes { unit.new.items ≡ (broken_sysex (drawn 64 draws.old.state) (next_state draws.old.state)).bytes }
    ensures state { draws.new.state ≡ (broken_sysex (drawn 64 draws.old.state) (next_state draws.old.state)).state }
{
    let count = draws.below(64) as u8;
    unit.push(0xf0);
    put_data(count, draws, unit);
}

/// A status and its data.
fn put_message(status: u8, draws: &mut Draws, unit: &mut UnitBytes)
    requires { unit.old.items ≡ [] }
    ensures bytes { unit.new.items ≡ status ∷ data_bytes (data_count status) draws.old.state }
    ensures state { draws.new.state ≡ state_after (data_count status) draws.old.state }
{
    unit.push(status);
    put_data(data_count(status), draws, unit);
}

/// How many data bytes a status has.
fn data_count(status: u8) -> u8
    ensures count { result ≡ data_count status }
    ensures few { result ≤ 2 }
{
    data_len(status).unwrap_or(0)
}

/// So many data bytes.
fn put_data(count: u8, draws: &mut Draws, unit: &mut UnitBytes)
    requires { array_vec_len unit.old + count ≤ 66 }
    ensures bytes { unit.new.items ≡ unit.old.items ++ data_bytes count draws.old.state }
    ensures state { draws.new.state ≡ state_after count draws.old.state }
    ensures len { array_vec_len unit.new ≡ array_vec_len unit.old + count }
{
    let mut left = count;
    'data: while left > 0 {
        unit.push(draws.below(128) as u8);
        left -= 1;
    }
}
