//! One line of the rules text.

ghost use Rattle.std.specs.Prelude.{◌≡◌, ◌<◌, ◌==◌, length, IfSome};
ghost use Rattle.std.specs.List.{position};
ghost use Rattle.mb_filter.specs.Parsed.{action_of, channels_of, count_of, is_channel_kind, is_note_kind, kind_of};
ghost use Rattle.mb_filter.specs.Parsed.{line_of, one_channel, plain_action, printed_rule, rule_of, system_kind_of};
ghost use Rattle.mb_filter.specs.Parsed.{two_channels};

use crate::rule::{Action, Kind, Rule};
use crate::rules::RuleWhy;
use mb_print::read_number;
use mb_text::{is_printed, next_word};

/// The rule of a line, if it has one.
pub fn read_line(line: &[u8]) -> Result<Option<Rule>, RuleWhy>
    ensures { result ≡ line_of line.now }
{
    let printed = is_printed(line);
    let mut rest = line;
    let Some(first) = next_word(&mut rest) else {
        return Ok(None);
    };
    if first[0] == b'#' {
        return Ok(None);
    }
    let Some(second) = next_word(&mut rest) else {
        return Err(RuleWhy::Words);
    };
    let Some(third) = next_word(&mut rest) else {
        return Err(RuleWhy::Words);
    };
    let Some(fourth) = next_word(&mut rest) else {
        return printed_rule(printed, first, second, third, &[]);
    };
    if next_word(&mut rest).is_some() {
        return Err(RuleWhy::Words);
    }
    printed_rule(printed, first, second, third, fourth)
}

fn printed_rule(
    printed: bool,
    kind: &[u8],
    channels: &[u8],
    action: &[u8],
    number: &[u8],
) -> Result<Option<Rule>, RuleWhy>
    ensures { result ≡ printed_rule printed kind.now channels.now action.now number.now }
{
    if printed {
        read_rule(kind, channels, action, number)
    } else {
        Err(RuleWhy::Words)
    }
}

// A rule of these words, the fourth of no bytes where there is none.
fn read_rule(
    kind: &[u8],
    channels: &[u8],
    action: &[u8],
    number: &[u8],
) -> Result<Option<Rule>, RuleWhy>
    ensures { result ≡ rule_of kind.now channels.now action.now number.now }
{
    let Some(kind) = kind_of(kind) else {
        return Err(RuleWhy::Kind);
    };
    let Some((first, last)) = channels_of(kind, channels) else {
        return Err(RuleWhy::Channels);
    };
    let Some(action) = action_of(kind, action, number) else {
        return Err(RuleWhy::Action);
    };
    Ok(Some(Rule {
        kind,
        first,
        last,
        action,
    }))
}

fn kind_of(word: &[u8]) -> Option<Kind>
    ensures { result ≡ kind_of word.now }
{
    if word == b"note".as_slice() {
        Some(Kind::Note)
    } else if word == b"control".as_slice() {
        Some(Kind::Control)
    } else if word == b"program".as_slice() {
        Some(Kind::Program)
    } else if word == b"pressure".as_slice() {
        Some(Kind::Pressure)
    } else if word == b"bend".as_slice() {
        Some(Kind::Bend)
    } else {
        system_kind_of(word)
    }
}

fn system_kind_of(word: &[u8]) -> Option<Kind>
    ensures { result ≡ system_kind_of word.now }
{
    if word == b"common".as_slice() {
        Some(Kind::Common)
    } else if word == b"sysex".as_slice() {
        Some(Kind::Sysex)
    } else if word == b"clock".as_slice() {
        Some(Kind::Clock)
    } else if word == b"transport".as_slice() {
        Some(Kind::Transport)
    } else if word == b"sense".as_slice() {
        Some(Kind::Sense)
    } else if word == b"reset".as_slice() {
        Some(Kind::Reset)
    } else {
        None
    }
}

fn is_channel_kind(kind: Kind) -> bool
    ensures { result ≡ is_channel_kind kind }
{
    match kind {
        Kind::Note | Kind::Control | Kind::Program | Kind::Pressure | Kind::Bend => true,
        _ => false,
    }
}

fn is_note(kind: Kind) -> bool
    ensures { result ≡ is_note_kind kind }
{
    match kind {
        Kind::Note => true,
        _ => false,
    }
}

/// The first and the last channel.
fn channels_of(kind: Kind, word: &[u8]) -> Option<(u8, u8)>
    ensures { result ≡ channels_of kind word.now }
{
    if word == b"*".as_slice() {
        return Some((1, 16));
    }
    if !is_channel_kind(kind) {
        return None;
    }
    match dash(word) {
        None => one_channel(count_of(16, word)),
        Some(at) => {
            let (first, _) = word.split_at(at);
            let (_, last) = word.split_at(at + 1);
            two_channels(count_of(16, first), count_of(16, last))
        }
    }
}

fn dash(word: &[u8]) -> Option<usize>
    ensures place { result ≡ position (λ b. b == 45) word.now }
    ensures low { IfSome result (λ at. at < length word.now) }
{
    word.iter().position(|byte| *byte == b'-')
}

fn one_channel(channel: Option<u8>) -> Option<(u8, u8)>
    ensures { result ≡ one_channel channel }
{
    let channel = channel?;
    Some((channel, channel))
}

fn two_channels(first: Option<u8>, last: Option<u8>) -> Option<(u8, u8)>
    ensures { result ≡ two_channels first last }
{
    let first = first?;
    let last = last?;
    if first <= last {
        Some((first, last))
    } else {
        None
    }
}

fn action_of(kind: Kind, word: &[u8], number: &[u8]) -> Option<Action>
    ensures { result ≡ action_of kind word.now number.now }
{
    if number.is_empty() {
        return plain_action(word);
    }
    if word == b"channel".as_slice() && is_channel_kind(kind) {
        return Some(Action::Channel(count_of(16, number)?));
    }
    if word == b"up".as_slice() && is_note(kind) {
        return Some(Action::Up(count_of(127, number)?));
    }
    if word == b"down".as_slice() && is_note(kind) {
        return Some(Action::Down(count_of(127, number)?));
    }
    None
}

fn plain_action(word: &[u8]) -> Option<Action>
    ensures { result ≡ plain_action word.now }
{
    if word == b"keep".as_slice() {
        Some(Action::Keep)
    } else if word == b"drop".as_slice() {
        Some(Action::Drop)
    } else {
        None
    }
}

/// A number from 1 to the greatest, in decimal without leading zeros.
fn count_of(greatest: u8, word: &[u8]) -> Option<u8>
    ensures { result ≡ count_of greatest word.now }
{
    match read_number(word, u64::from(greatest)) {
        None => None,
        Some(0) => None,
        Some(number) => Some(number as u8),
    }
}
