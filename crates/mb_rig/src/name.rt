//! Names, and the ports of a rig.

ghost use Rattle.std.specs.Prelude.{◌≡◌, true, IfOk, bytes_eq};
ghost use Rattle.mb_rig.specs.RigAnswer.{are_printed};

use mb_carrier::Spec;
use mb_message::Memory;
use std::alloc::Global;
use std::marker::Model;

/// The name of a port or of a file, seen as its bytes.
#[derive(Debug, Drop)]
pub struct Name {
    text: String,
}

impl Model for Name {
    ghost use Rattle.std.specs.Prelude.{List, ℕ, string_bytes};

    ghost Value = { List ℕ };

    ghost view = { λ n. string_bytes n.text };
}

impl Name {
    pub(crate) fn new(alloc: Global, bytes: &[u8]) -> Result<Name, Memory>
        requires { are_printed bytes.now ≡ true }
        ensures same { IfOk result (λ name. name ≡ bytes.now) }
    {
        let Ok(text) = std::str::from_utf8(bytes) else {
            unreachable!()
        };
        match String::from_str(alloc, text) {
            Ok(text) => Ok(Name { text }),
            Err(_) => Err(Memory),
        }
    }

    /// Its text.
    pub fn text(&self) -> &str
        ensures { result.now ≡ self.now }
    {
        self.text.as_str()
    }

    pub(crate) fn is(&self, bytes: &[u8]) -> bool
        ensures { result ≡ bytes_eq self.now bytes.now }
    {
        self.text.as_bytes() == bytes
    }
}

/// A link or an out: its name, the port that it reads or writes, its file, and the track that a link reads. An out has
/// the track 0.
#[derive(Debug, Drop)]
pub struct Port {
    pub name: Name,
    pub spec: Spec,
    pub file: Name,
    pub track: u8,
}

impl Model for Port {
    ghost use Rattle.mb_rig.specs.RigText.{RigPort};

    ghost Value = { RigPort };

    ghost view = { λ p. record { name = p.name; spec = p.spec; file = p.file; track = p.track } };
}

impl Port {
    pub(crate) fn new(
        alloc: Global,
        name: &[u8],
        spec: Spec,
        file: &[u8],
        track: u8,
    ) -> Result<Port, Memory>
        requires name { are_printed name.now ≡ true }
        requires file { are_printed file.now ≡ true }
        ensures port { IfOk result (λ p. p ≡ record { name = name.now; spec = spec; file = file.now; track = track }) }
    {
        let name = Name::new(alloc, name)?;
        let file = Name::new(alloc, file)?;
        Ok(Port {
            name,
            spec,
            file,
            track,
        })
    }
}
