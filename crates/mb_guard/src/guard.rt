//! The notes that sound.

ghost use Rattle.std.specs.Prelude.{◌≡◌, ◌+◌, ◌/◌, ◌%◌, ◌<◌, List, [], ◌∷◌, ◌++◌, length, IfSome, IfNone, OnSome};
ghost use Rattle.std.specs.List.{position};
ghost use Rattle.mb_message.specs.Signs.{Sign, ShortSign, sign_of};
ghost use Rattle.mb_stream.specs.Denotation.{Message};
ghost use Rattle.mb_guard.specs.Sounding.{off_of};
ghost use Rattle.mb_guard.specs.Guard.{Stands, after, begins, place_of, voice_at, voice_of};

use mb_message::{Mark, Short};
use std::marker::Model;

const CHANNELS: usize = 16;

const KEYS: usize = 128;

/// Keeps which notes sound. A clause sees the list of them, in order of channel and key.
#[derive(Drop)]
pub struct Guard {
    /// Of the keys of channel 0, then of channel 1, and so on.
    sounds: [bool; CHANNELS * KEYS],
}

impl Model for Guard {
    ghost use Rattle.std.specs.Prelude.{List};
    ghost use Rattle.mb_guard.specs.Sounding.{Voice};
    ghost use Rattle.mb_guard.specs.Guard.{sounding_from};

    ghost Value = { List Voice };

    ghost view = { λ g. sounding_from 0 g.sounds };
}

impl Guard {
    /// Nothing sounds.
    pub fn new() -> Guard
        ensures nothing { result ≡ [] }
        ensures stands { Stands result [] }
    {
        Guard {
            sounds: [false; CHANNELS * KEYS],
        }
    }

    /// The next mark. A Note On with a velocity above 0 makes its key sound, one with velocity 0 and a Note Off end it;
    /// all else changes nothing.
    pub fn put(&mut self, mark: Mark)
        ensures sounds { self.new ≡ after self.old (sign_of mark) }
        ensures stands { (marks : List Sign) → Stands self.old marks → Stands self.new (marks ++ sign_of mark ∷ []) }
    {
        self.hear(mark);
    }

    /// A Note Off, with velocity 64, for the first note that sounds, which then does no longer. `None` where nothing
    /// sounds.
    pub fn next_off(&mut self) -> Option<Short>
        ensures first { IfSome result (λ off. self.old ≡ voice_of off ∷ self.new) }
        ensures off { IfSome result (λ off. Message off.status off.data1 off.data2 ≡ off_of (voice_of off)) }
        ensures none { IfNone result (self.old ≡ []) }
        ensures same { IfNone result (self.new ≡ self.old) }
        ensures fewer { OnSome result (length self.new < length self.old) }
    {
        let place = first(&self.sounds)?;
        self.sounds[place] = false;
        Some(off(place))
    }

    // `put`, said exactly.
    fn hear(&mut self, mark: Mark)
        ensures { self.new ≡ after self.old (sign_of mark) }
    {
        match mark {
            Mark::Short(short) => self.turn(short),
            Mark::Rt(_) | Mark::Open | Mark::Byte(_) | Mark::End | Mark::Abort => {}
        }
    }

    fn turn(&mut self, short: Short)
        ensures { self.new ≡ after self.old (ShortSign short.status short.data1 short.data2) }
    {
        if let Some(place) = place_of(short) {
            self.sounds[place] = begins(short);
        }
    }
}

/// The place of the voice of a Note On or a Note Off.
fn place_of(short: Short) -> Option<usize>
    ensures place { result ≡ place_of short.status short.data1 }
    ensures low { IfSome result (λ place. place < 2048) }
    ensures key { OnSome result (short.data1 < 128) }
{
    let status = short.status();
    if status >= 0x80 && status < 0xa0 {
        Some(KEYS * usize::from(status % 16) + usize::from(short.data1()))
    } else {
        None
    }
}

/// Of a Note On or a Note Off: whether its voice sounds from then on.
fn begins(short: Short) -> bool
    ensures { result ≡ begins short.status short.data2 }
{
    short.status() >= 0x90 && short.data2() > 0
}

/// The first place that is true.
fn first(sounds: &[bool; CHANNELS * KEYS]) -> Option<usize>
    ensures { result ≡ position (λ sounding. sounding) sounds.now }
{
    sounds.iter().position(|sounding| *sounding)
}

/// The Note Off of the voice at a place.
fn off(place: usize) -> Short
    requires { place < 2048 }
    ensures voice { voice_of result ≡ voice_at place }
    ensures off { Message result.status result.data1 result.data2 ≡ off_of (voice_at place) }
{
    Short::of(0x80 + (place / KEYS) as u8, (place % KEYS) as u8, 0x40)
}
