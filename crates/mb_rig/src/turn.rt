//! Whose turn it is.

ghost use Rattle.std.specs.Prelude.{◌≡◌, ◌+◌, ◌<◌, ◌≤◌, ◌∷◌, ℕ, List, Option, IfSome, length};
ghost use Rattle.mb_rig.specs.Turn.{TurnIs};

/// A link that may step, and the moment of its record.
#[derive(Clone, Copy, Debug, PartialEq, Eq)]
pub(crate) struct Turn {
    pub(crate) link: usize,
    pub(crate) moment: u64,
}

/// Of links that each tell the moment of their record, if they may step, the one of the least key: of equal moments the
/// first.
pub(crate) fn turn_of(turns: &[Option<u64>]) -> Option<Turn>
    requires { length turns.now ≤ 16 }
    ensures turn { TurnIs turns.now result }
    ensures within { IfSome result (λ turn. turn.link < length turns.now) }
{
    let Some((first, behind)) = turns.split_first() else {
        return None;
    };
    first_or(*first, turn_of(behind))
}

/// The turn of the first, or else of those behind it.
fn first_or(first: Option<u64>, later: Option<Turn>) -> Option<Turn>
    requires { IfSome later (λ turn. turn.link < 16) }
    ensures turn { (behind : List (Option ℕ)) → TurnIs behind later → TurnIs (first ∷ behind) result }
    ensures within { (count : ℕ) → IfSome later (λ turn. turn.link < count) →
        IfSome result (λ turn. turn.link < count + 1) }
{
    match later {
        None => match first {
            None => None,
            Some(moment) => Some(Turn { link: 0, moment }),
        },
        Some(turn) => match first {
            None => Some(behind_first(turn)),
            Some(moment) => {
                if moment <= turn.moment {
                    Some(Turn { link: 0, moment })
                } else {
                    Some(behind_first(turn))
                }
            }
        },
    }
}

/// A turn among those behind the first, among all.
fn behind_first(turn: Turn) -> Turn
    requires { turn.link < 16 }
    ensures link { result.link ≡ turn.link + 1 }
    ensures moment { result.moment ≡ turn.moment }
{
    Turn {
        link: turn.link + 1,
        moment: turn.moment,
    }
}
