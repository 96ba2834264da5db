//! Applying rules to events.

ghost use Rattle.std.specs.Prelude.{◌≡◌, Some, None, true, false, if◌then◌else◌, is_none, IfSome};
ghost use Rattle.mb_message.specs.Bytes.{is_channel};
ghost use Rattle.mb_message.specs.Signs.{open_behind, signs_of_event, suits_event};
ghost use Rattle.mb_filter.specs.Mapped.{acted, decided, if_short, is_drop, is_for, is_of, is_on, keeps_realtime};
ghost use Rattle.mb_filter.specs.Mapped.{keeps_sysex, mapped_marks, mapped_short, on_channel};
ghost use Rattle.mb_filter.specs.Mapper.{IsLeft, drops, kept, mapping, short_event, short_sign};

use crate::rule::{Action, Kind, Rule};
use crate::rules::Rules;
use mb_message::{Ev, Short};
use std::marker::Model;

/// Answers events as the rules have them.
#[derive(Drop)]
pub struct Mapper {
    rules: Rules,
    in_sysex: bool,
}

impl Model for Mapper {
    ghost use Rattle.mb_filter.specs.Mapper.{Mapping, mapping};

    ghost Value = { Mapping };

    ghost view = { λ m. mapping m.rules m.in_sysex };
}

impl Mapper {
    /// No event was put, so no SysEx is open.
    pub fn new(rules: Rules) -> Mapper
        ensures { result ≡ mapping rules false }
    {
        Mapper {
            rules,
            in_sysex: false,
        }
    }

    /// Whether the events leave a SysEx open, be it dropped or not.
    pub fn in_sysex(&self) -> bool
        ensures { result ≡ self.now.in_sysex }
    {
        self.in_sysex
    }

    /// The next event, which suits, as the rules have it. `None` where it is dropped.
    pub fn put<'a>(&mut self, ev: Ev<'a>) -> Option<Ev<'a>>
        requires suits { suits_event self.old.in_sysex ev ≡ true }
        ensures state { self.new ≡ mapping self.old.rules (open_behind self.old.in_sysex ev.entry) }
        ensures kept { kept result ≡ mapped_marks self.old.rules (signs_of_event ev.entry) }
        ensures dropped { is_none result ≡ drops self.old.rules ev.entry }
        ensures left { IfSome result (λ left. IsLeft ev.entry left) }
    {
        self.in_sysex = open_behind(self.in_sysex, ev);
        mapped_event(&self.rules, ev)
    }
}

/// An event as the rules have it.
#[inline(always)]
fn mapped_event<'a>(rules: &Rules, ev: Ev<'a>) -> Option<Ev<'a>>
    ensures kept { kept result ≡ mapped_marks rules.now (signs_of_event ev.entry) }
    ensures dropped { is_none result ≡ drops rules.now ev.entry }
    ensures left { IfSome result (λ left. IsLeft ev.entry left) }
{
    match ev {
        Ev::Short(short) => event(mapped_short(rules, short)),
        Ev::Rt(message) => kept_if(keeps_realtime(rules, message.byte()), ev),
        Ev::Open => kept_if(keeps_sysex(rules), ev),
        Ev::Run(_) => kept_if(keeps_sysex(rules), ev),
        Ev::End => kept_if(keeps_sysex(rules), ev),
        Ev::Abort => kept_if(keeps_sysex(rules), ev),
    }
}

#[inline(always)]
fn event(short: Option<Short>) -> Option<Ev<'static>>
    ensures { result ≡ short_event short }
{
    match short {
        Some(short) => Some(Ev::Short(short)),
        None => None,
    }
}

#[inline(always)]
fn kept_if<'a>(keeps: bool, ev: Ev<'a>) -> Option<Ev<'a>>
    ensures { result ≡ (if keeps then Some ev.entry else None) }
{
    if keeps { Some(ev) } else { None }
}

/// Whether a SysEx is open behind an event.
#[inline(always)]
fn open_behind(in_sysex: bool, ev: Ev<'_>) -> bool
    ensures { result ≡ open_behind in_sysex ev.entry }
{
    match ev {
        Ev::Short(_) | Ev::End | Ev::Abort => false,
        Ev::Rt(_) | Ev::Run(_) => in_sysex,
        Ev::Open => true,
    }
}

fn mapped_short(rules: &Rules, short: Short) -> Option<Short>
    ensures { short_sign result ≡ mapped_short rules.now short.status short.data1 short.data2 }
{
    let status = short.status();
    let action = decided(rules.list(), status);
    acted(action, short)
}

fn keeps_realtime(rules: &Rules, byte: u8) -> bool
    ensures { result ≡ keeps_realtime rules.now byte }
{
    !is_drop(decided(rules.list(), byte))
}

fn keeps_sysex(rules: &Rules) -> bool
    ensures { result ≡ keeps_sysex rules.now }
{
    !is_drop(decided(rules.list(), 0xf0))
}

#[inline(always)]
fn is_drop(action: Action) -> bool
    ensures { result ≡ is_drop action }
{
    match action {
        Action::Drop => true,
        _ => false,
    }
}

/// What is done with a message of a status, a SysEx's being F0: by the first rule that is for it.
fn decided(rules: &[Rule], status: u8) -> Action
    ensures { result ≡ decided rules.now status }
{
    for rule in rules {
        if is_for(rule, status) {
            return rule.action;
        }
    }
    Action::Keep
}

fn is_for(rule: &Rule, status: u8) -> bool
    ensures { result ≡ is_for rule.now status }
{
    is_of(rule.kind, status) && is_on(rule, status)
}

/// Whether a status is that of a kind's messages.
fn is_of(kind: Kind, status: u8) -> bool
    ensures { result ≡ is_of kind status }
{
    match kind {
        Kind::Note => status >= 0x80 && status < 0xb0,
        Kind::Control => status >= 0xb0 && status < 0xc0,
        Kind::Program => status >= 0xc0 && status < 0xd0,
        Kind::Pressure => status >= 0xd0 && status < 0xe0,
        Kind::Bend => status >= 0xe0 && status < 0xf0,
        Kind::Common => status == 0xf1 || status == 0xf2 || status == 0xf3 || status == 0xf6,
        Kind::Sysex => status == 0xf0,
        Kind::Clock => status == 0xf8,
        Kind::Transport => status == 0xfa || status == 0xfb || status == 0xfc,
        Kind::Sense => status == 0xfe,
        Kind::Reset => status == 0xff,
    }
}

/// Whether a rule speaks of a message's channel, counted from 1. System messages have none.
fn is_on(rule: &Rule, status: u8) -> bool
    ensures { result ≡ is_on rule.now status }
{
    let channel = status % 16 + 1;
    !is_channel(status) || (rule.first <= channel && channel <= rule.last)
}

fn is_channel(status: u8) -> bool
    ensures { result ≡ is_channel status }
{
    status >= 0x80 && status < 0xf0
}

/// What is done with a message.
fn acted(action: Action, short: Short) -> Option<Short>
    ensures { short_sign result ≡ acted action short.status short.data1 short.data2 }
{
    match action {
        Action::Keep => Some(short),
        Action::Drop => None,
        Action::Channel(channel) => {
            if_short(
                on_channel(short.status(), channel),
                short.data1(),
                short.data2(),
            )
        }
        Action::Up(by) => {
            let key = u16::from(short.data1()) + u16::from(by);
            if key < 128 {
                if_short(short.status(), key as u8, short.data2())
            } else {
                None
            }
        }
        Action::Down(by) => {
            if by <= short.data1() {
                if_short(short.status(), short.data1() - by, short.data2())
            } else {
                None
            }
        }
    }
}

fn if_short(status: u8, data1: u8, data2: u8) -> Option<Short>
    ensures { short_sign result ≡ if_short status data1 data2 }
{
    Short::new(status, data1, data2)
}

fn on_channel(status: u8, channel: u8) -> u8
    ensures { result ≡ on_channel status channel }
{
    status - status % 16 + ((u16::from(channel) + 15) % 16) as u8
}
