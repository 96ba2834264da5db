//! The words of a command line.

ghost use Rattle.std.specs.Prelude.{◌≡◌, ℕ, ◌<◌, List, [], ◌∷◌, ◌++◌, map, length, string_bytes, OnOk, OnErr};
ghost use Rattle.std.specs.Prelude.{slice_get};

use mb_message::Memory;
use std::alloc::Global;
use std::marker::Model;

/// The words of a command line, without the program's name. A clause sees a list of words, each the list of its bytes.
#[derive(Debug, Drop)]
pub struct Args {
    alloc: Global,
    words: Vec<String>,
}

impl Model for Args {
    ghost Value = { List (List ℕ) };

    ghost view = { λ a. map string_bytes a.words.items };
}

impl Args {
    /// No word. Takes no memory yet.
    pub fn new(alloc: Global) -> Args
        ensures { result ≡ [] }
    {
        Args {
            alloc,
            words: Vec::new(alloc),
        }
    }

    /// Appends a word. Without memory nothing changes.
    pub fn push(&mut self, word: &str) -> Result<(), Memory>
        ensures ok { OnOk result (self.new ≡ self.old ++ word.now ∷ []) }
        ensures err { OnErr result (self.new ≡ self.old) }
    {
        let Ok(word) = String::from_str(self.alloc, word) else {
            return Err(Memory);
        };
        match self.words.push(word) {
            Ok(()) => Ok(()),
            Err(_) => Err(Memory),
        }
    }

    /// How many words there are.
    pub fn len(&self) -> usize
        ensures { result ≡ length self.now }
    {
        self.words.len()
    }

    /// The word at a place, counted from 0.
    pub fn word(&self, at: usize) -> &str
        requires { at < length self.now }
        ensures { slice_get self.now at ≡ Some result.now }
    {
        self.words[at].as_str()
    }
}
