//! The time in a track.

ghost use Rattle.std.specs.Prelude.{◌≡◌, ◌*◌, ◌<◌, ◌≤◌, ◌^◌, nat_lt, if◌then◌else◌};
ghost use Rattle.mb_smf.specs.TrackTime.{first_tempo, ticks_later, track_moment};

use std::marker::Model;

/// Moments of deltas in ticks. A clause sees the sum of each delta times its tempo, which is never kept: it is the
/// division times the moment, and a rest.
#[derive(Debug, Drop)]
pub struct TrackClock {
    /// Ticks a quarter note.
    division: u16,
    /// Microseconds a quarter note.
    tempo: u32,
    moment: u64,
    rest: u16,
}

impl Model for TrackClock {
    ghost use Rattle.std.specs.Prelude.{◌+◌, ◌*◌, ◌<◌};
    ghost use Rattle.mb_smf.specs.TrackTime.{TrackTime};

    ghost Value = { TrackTime };

    ghost view = { λ c. record { division = c.division; tempo = c.tempo; sum = c.division * c.moment + c.rest } };

    ghost invariant = { λ c. c.rest < c.division };
}

impl TrackClock {
    /// Before anything is known of the file.
    pub fn new() -> TrackClock
        ensures { result ≡ record { division = 1; tempo = first_tempo; sum = 0 } }
    {
        TrackClock {
            division: 1,
            tempo: 500_000,
            moment: 0,
            rest: 0,
        }
    }

    /// The moment in microseconds, rounded down once.
    pub fn moment(&self) -> u64
        ensures { result ≡ track_moment self.now }
    {
        self.moment
    }

    /// Sets the division, at the start.
    pub fn set_division(&mut self, division: u16)
        requires { 0 < division }
        ensures { self.new ≡ record self.old { division = division; sum = 0 } }
    {
        self.division = division;
        self.moment = 0;
        self.rest = 0;
    }

    /// Sets the tempo from here on.
    pub fn set_tempo(&mut self, tempo: u32)
        ensures { self.new ≡ record self.old { tempo = tempo } }
    {
        self.tempo = tempo;
    }

    /// So many ticks pass. Answers whether the moment still is one; else nothing changes.
    pub fn pass(&mut self, ticks: u32) -> bool
        ensures far { result ≡ nat_lt (track_moment (ticks_later self.old ticks)) (2 ^ 64) }
        ensures passed { self.new ≡ (if result then ticks_later self.old ticks else self.old) }
    {
        let division = u64::from(self.division);
        let sum = product(ticks, self.tempo) + u64::from(self.rest);
        match self.moment.checked_add(sum / division) {
            Some(moment) => {
                self.moment = moment;
                self.rest = (sum % division) as u16;
                true
            }
            None => false,
        }
    }
}

fn product(ticks: u32, tempo: u32) -> u64
    ensures value { result ≡ ticks * tempo }
    ensures low { result ≤ 18446744065119617025 }
{
    u64::from(ticks) * u64::from(tempo)
}
