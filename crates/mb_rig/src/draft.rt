//! Reading the text of a rig, line by line.

ghost use Rattle.std.specs.Prelude.{◌≡◌, ◌≤◌, ◌<◌, ◌++◌, ◌∷◌, [], true, length, Some, None, IfSome, IfOk, IfErr};
ghost use Rattle.std.specs.Prelude.{OnOk, ◌+◌, vec_len};
ghost use Rattle.std.specs.List.{list_all, list_any};
ghost use Rattle.mb_rig.specs.RigText.{Link, Outlet, Route, Right, Faulty, rig_of, why_not, with_line, port_why};
ghost use Rattle.mb_rig.specs.RigText.{spec_of, is_name, is_name_byte, has_name, has_file, has_track, place_of};
ghost use Rattle.mb_rig.specs.RigText.{no_setup, ended_rig};
ghost use Rattle.mb_rig.specs.Right.{IsRig};
ghost use Rattle.mb_merge.specs.Opening.{stands_in};
ghost use Rattle.mb_rig.specs.RigAnswer.{are_printed, has_printed, line_seen, Refuses, IsRefused, IsMemory};
ghost use Rattle.mb_rig.specs.RigAnswer.{IsFaulty};

use crate::fault::{RigFault, Why};
use crate::line::{Line, read_line};
use crate::name::Port;
use mb_carrier::Spec;
use mb_message::Memory;
use mb_text::next_line;
use std::alloc::Global;
use std::marker::Model;

/// How many bytes a text has at most.
const MOST_TEXT: usize = 65_536;

/// How many links, and how many outs, a rig has at most.
const MOST_PORTS: usize = 16;

/// The links, the outs and the routes of some lines.
#[derive(Debug, Drop)]
pub(crate) struct Draft {
    ins: Vec<Port>,
    outs: Vec<Port>,
    routes: Vec<(u8, u8)>,
}

impl Model for Draft {
    ghost use Rattle.std.specs.Prelude.{◌≤◌, vec_len};
    ghost use Rattle.mb_rig.specs.RigText.{Setup};

    ghost Value = { Setup };

    ghost view = { λ r. record { ins = r.ins.items; outs = r.outs.items; routes = r.routes.items } };

    ghost invariant = { λ r. (vec_len r.ins ≤ 16) × (vec_len r.outs ≤ 16) };
}

impl Draft {
    /// Reads a text to its end.
    pub(crate) fn read(alloc: Global, text: &[u8]) -> Result<Draft, RigFault>
        ensures rig { IfOk result (λ rig. rig_of text.now ≡ Right rig) }
        ensures right { IfOk result IsRig }
        ensures refused { IfErr result (Refuses text.now) }
    {
        if text.len() > MOST_TEXT {
            return Err(RigFault::Line(0, Why::Long));
        }
        let mut rig = Draft::none(alloc);
        let mut number: u32 = 1;
        let mut rest = text;
        while let Some(line) = next_line(&mut rest) {
            if let Err(fault) = rig.add(alloc, number, read_line(line)) {
                return Err(fault);
            }
            number += 1;
        }
        rig.ended(number)
    }

    /// The rig of no line.
    fn none(alloc: Global) -> Draft
        ensures { result ≡ no_setup }
    {
        Draft {
            ins: Vec::new(alloc),
            outs: Vec::new(alloc),
            routes: Vec::new(alloc),
        }
    }

    /// What it is behind its last line, this being the number of the next.
    fn ended(self, number: u32) -> Result<Draft, RigFault>
        ensures rig { IfOk result (λ rig. ended_rig number self ≡ Right rig) }
        ensures refused { IfErr result (IsFaulty (ended_rig number self)) }
    {
        if self.ins.is_empty() || self.outs.is_empty() {
            return Err(RigFault::Line(number, Why::Count));
        }
        Ok(self)
    }

    /// Adds what a line says.
    fn add(&mut self, alloc: Global, number: u32, line: Line<'_>) -> Result<(), RigFault>
        requires printed { has_printed (line_seen line) ≡ true }
        ensures fits { OnOk result (why_not self.old (line_seen line.entry) ≡ None) }
        ensures added { OnOk result (self.new ≡ with_line self.old (line_seen line.entry)) }
        ensures refused { IfErr result (IsRefused number self.old (line_seen line.entry)) }
    {
        match line {
            Line::Remark => Ok(()),
            Line::Unfit => Err(RigFault::Line(number, Why::Words)),
            Line::Link {
                name,
                word,
                file,
                track,
            } => self.add_link(alloc, number, name, word, file, track),
            Line::Outlet { name, word, file } => self.add_out(alloc, number, name, word, file),
            Line::Route { from, to } => self.add_route(number, from, to),
        }
    }

    fn add_link(
        &mut self,
        alloc: Global,
        number: u32,
        name: &[u8],
        word: &[u8],
        file: &[u8],
        track: u8,
    ) -> Result<(), RigFault>
        requires name { are_printed name.now ≡ true }
        requires file { are_printed file.now ≡ true }
        ensures fits { OnOk result (why_not self.old (Link name.now word.now file.now track) ≡ None) }
        ensures added { OnOk result (self.new ≡ with_line self.old (Link name.now word.now file.now track)) }
        ensures refused { IfErr result (IsRefused number self.old (Link name.now word.now file.now track)) }
    {
        let stands = has_name(self.ins.as_slice(), name)
            || has_name(self.outs.as_slice(), name)
            || has_track(self.ins.as_slice(), file, track)
            || has_file(self.outs.as_slice(), file);
        match fit_port(word, name, stands, self.ins.len()) {
            Ok(spec) => push_port(&mut self.ins, alloc, name, spec, file, track),
            Err(why) => Err(RigFault::Line(number, why)),
        }
    }

    fn add_out(
        &mut self,
        alloc: Global,
        number: u32,
        name: &[u8],
        word: &[u8],
        file: &[u8],
    ) -> Result<(), RigFault>
        requires name { are_printed name.now ≡ true }
        requires file { are_printed file.now ≡ true }
        ensures fits { OnOk result (why_not self.old (Outlet name.now word.now file.now) ≡ None) }
        ensures added { OnOk result (self.new ≡ with_line self.old (Outlet name.now word.now file.now)) }
        ensures refused { IfErr result (IsRefused number self.old (Outlet name.now word.now file.now)) }
    {
        let stands = has_name(self.ins.as_slice(), name)
            || has_name(self.outs.as_slice(), name)
            || has_file(self.ins.as_slice(), file)
            || has_file(self.outs.as_slice(), file);
        match fit_port(word, name, stands, self.outs.len()) {
            Ok(spec) => push_port(&mut self.outs, alloc, name, spec, file, 0),
            Err(why) => Err(RigFault::Line(number, why)),
        }
    }

    fn add_route(&mut self, number: u32, from: &[u8], to: &[u8]) -> Result<(), RigFault>
        ensures fits { OnOk result (why_not self.old (Route from.now to.now) ≡ None) }
        ensures added { OnOk result (self.new ≡ with_line self.old (Route from.now to.now)) }
        ensures refused { IfErr result (IsRefused number self.old (Route from.now to.now)) }
    {
        let Some(link) = place_of(self.ins.as_slice(), from) else {
            return Err(RigFault::Line(number, Why::Port));
        };
        let Some(out) = place_of(self.outs.as_slice(), to) else {
            return Err(RigFault::Line(number, Why::Port));
        };
        if stands_in(self.routes.as_slice(), link, out) {
            return Err(RigFault::Line(number, Why::RouteTwice));
        }
        match self.routes.push((link, out)) {
            Ok(()) => Ok(()),
            Err(_) => Err(RigFault::Memory(Memory)),
        }
    }

    /// The links.
    pub(crate) fn ins(&self) -> &[Port]
        ensures { result.now ≡ self.now.ins }
    {
        self.ins.as_slice()
    }

    /// The outs.
    pub(crate) fn outs(&self) -> &[Port]
        ensures { result.now ≡ self.now.outs }
    {
        self.outs.as_slice()
    }

    /// The routes, each from the place of a link to the place of an out.
    pub(crate) fn routes(&self) -> &[(u8, u8)]
        ensures { result.now ≡ self.now.routes }
    {
        self.routes.as_slice()
    }
}

fn push_port(
    ports: &mut Vec<Port>,
    alloc: Global,
    name: &[u8],
    spec: Spec,
    file: &[u8],
    track: u8,
) -> Result<(), RigFault>
    requires name { are_printed name.now ≡ true }
    requires file { are_printed file.now ≡ true }
    ensures ok { OnOk result (ports.new.items ≡ ports.old.items
        ++ record { name = name.now; spec = spec; file = file.now; track = track } ∷ []) }
    ensures few { vec_len ports.new ≤ vec_len ports.old + 1 }
    ensures memory { IfErr result IsMemory }
{
    let Ok(port) = Port::new(alloc, name, spec, file, track) else {
        return Err(RigFault::Memory(Memory));
    };
    match ports.push(port) {
        Ok(()) => Ok(()),
        Err(_) => Err(RigFault::Memory(Memory)),
    }
}

/// The spec of an in or out line, or what is wrong with the line.
fn fit_port(word: &[u8], name: &[u8], stands: bool, count: usize) -> Result<Spec, Why>
    ensures spec { IfOk result (λ spec. spec_of word.now ≡ Some spec) }
    ensures fits { OnOk result (port_why (spec_of word.now) name.now stands count ≡ None) }
    ensures room { OnOk result (count < 16) }
    ensures why { IfErr result (λ why. port_why (spec_of word.now) name.now stands count ≡ Some why) }
{
    let Some(spec) = spec_of(word) else {
        return Err(Why::Carrier);
    };
    if !is_name(name) {
        return Err(Why::Name);
    }
    if stands {
        return Err(Why::NameTwice);
    }
    if count < MOST_PORTS {
        Ok(spec)
    } else {
        Err(Why::Count)
    }
}

fn spec_of(word: &[u8]) -> Option<Spec>
    ensures { result ≡ spec_of word.now }
{
    Spec::read_bytes(word)
}

fn is_name(name: &[u8]) -> bool
    ensures { result ≡ is_name name.now }
{
    1 <= name.len() && name.len() <= 16 && are_name_bytes(name)
}

fn are_name_bytes(name: &[u8]) -> bool
    ensures { result ≡ list_all is_name_byte name.now }
{
    name.iter().all(|byte| is_name_byte(*byte))
}

fn is_name_byte(byte: u8) -> bool
    ensures { result ≡ is_name_byte byte }
{
    (byte >= b'a' && byte <= b'z') || (byte >= b'0' && byte <= b'9') || byte == b'_'
}

fn has_name(ports: &[Port], name: &[u8]) -> bool
    ensures { result ≡ has_name name.now ports.now }
{
    ports.iter().any(|port| port.name.is(name))
}

fn has_file(ports: &[Port], file: &[u8]) -> bool
    ensures { result ≡ has_file file.now ports.now }
{
    ports.iter().any(|port| port.file.is(file))
}

fn has_track(ports: &[Port], file: &[u8], track: u8) -> bool
    ensures { result ≡ has_track file.now track ports.now }
{
    ports
        .iter()
        .any(|port| port.file.is(file) && port.track == track)
}

/// The place of the port of this name.
fn place_of(ports: &[Port], name: &[u8]) -> Option<u8>
    requires few { length ports.now ≤ 16 }
    ensures place { result ≡ place_of name.now ports.now }
{
    match position_of(ports, name) {
        Some(place) => Some(place as u8),
        None => None,
    }
}

fn position_of(ports: &[Port], name: &[u8]) -> Option<usize>
    ensures place { result ≡ place_of name.now ports.now }
    ensures low { IfSome result (λ place. place < length ports.now) }
{
    ports.iter().position(|port| port.name.is(name))
}

fn stands_in(routes: &[(u8, u8)], link: u8, out: u8) -> bool
    ensures { result ≡ stands_in (link, out) routes.now }
{
    routes.iter().any(|route| route.0 == link && route.1 == out)
}
