//! Laws of the definitions. Each function does nothing; what is proved is its contract.

ghost use Rattle.std.specs.Prelude.{◌≡◌, ℕ, List};
ghost use Rattle.mb_stream.specs.Groups.{no_group};
ghost use Rattle.mb_ports.specs.Events.{Event, EventsRise, ports_so_far, ports_news};

/// The readings of all ports, put in order, are what each event makes known in turn, by the last group of each port.
pub fn reading_event_by_event()
    ensures { (n low : ℕ) (es : List Event) → EventsRise n low es → ports_so_far n es ≡ ports_news (λ _. no_group) es }
{}
