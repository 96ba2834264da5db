//! The words of a command line as a command.

ghost use Rattle.std.specs.Prelude.{◌≡◌, ℕ, ◌≤◌, Bool, true, false, List, [], ◌∷◌, length, drop, slice_get, codes, Some};
ghost use Rattle.std.specs.Prelude.{IfSome, IfNone, IfOk, OnErr};
ghost use Rattle.mb_carrier.specs.declared.spec.Spec.{Spec};
ghost use Rattle.mb_words.specs.Command as words_mean;
ghost use Rattle.mb_words.specs.Command.{Means, AreWordsOf, IsAlone, listing_name, name_of, name_word};
ghost use Rattle.mb_carrier.specs.Word.{IsSpec};
ghost use Rattle.mb_words.specs.Meaning.{meaning, IsWithin, place_of_specs};

use crate::{Command, Specs};
use mb_carrier::Spec;
use mb_outside::Args;
use mb_print::read_number;

/// The greatest first state of the generator.
const MOST_START: u64 = (1 << 31) - 1;

/// The most units that are made.
const MOST_UNITS: u64 = 1_000_000;

/// The words are no command.
#[derive(Clone, Copy, Debug, PartialEq, Eq)]
pub struct Usage;

/// The words of a command line.
pub struct Words;

impl Words {
    /// The command that the words are.
    pub fn read<'a>(words: &'a Args) -> Result<Command<'a>, Usage>
        ensures found { IfOk result (λ c. Means words.now (meaning c)) }
        ensures within { IfOk result IsWithin }
        ensures only { OnErr result ((c : words_mean.Command) → Means words.now c → ⊥) }
    {
        match read_command(words) {
            Some(command) => Ok(command),
            None => Err(Usage),
        }
    }
}

/// The first word tells which command it may be.
fn read_command(words: &Args) -> Option<Command<'_>>
    ensures found { IfSome result (λ c. Means words.now (meaning c)) }
    ensures within { IfSome result IsWithin }
    ensures only { IfNone result ((c : words_mean.Command) → Means words.now c → ⊥) }
{
    if words.len() == 0 {
        return None;
    }
    let name = words.word(0);
    if name == "convert" {
        read_conversion(words)
    } else if name == "trace" {
        read_listing(words, true)
    } else if name == "check" {
        read_listing(words, false)
    } else if name == "migrate" {
        read_alone(words, Command::Migrate)
    } else if name == "record" {
        read_recording(words)
    } else if name == "play" {
        read_alone(words, Command::Play)
    } else if name == "guard" {
        read_guarding(words)
    } else if name == "filter" {
        read_filtering(words)
    } else if name == "run" {
        read_running(words)
    } else if name == "selftest" {
        read_selftest(words)
    } else {
        None
    }
}

/// `check SPEC` or `trace SPEC`.
fn read_listing(words: &Args, traced: bool) -> Option<Command<'_>>
    requires { slice_get words.now 0 ≡ Some (name_word (listing_name traced)) }
    ensures found { IfSome result (λ c. Means words.now (meaning c)) }
    ensures within { IfSome result IsWithin }
    ensures only { IfNone result ((c : words_mean.Command) → Means words.now c → ⊥) }
{
    let spec = read_lone_spec(words)?;
    Some(listing_of(traced, spec))
}

fn listing_of(traced: bool, spec: Spec) -> Command<'static>
    ensures meaning { meaning result ≡ words_mean.Listing traced spec }
    ensures within { IsSpec spec → IsWithin result }
{
    if traced {
        Command::Trace(spec)
    } else {
        Command::Check(spec)
    }
}

/// `record SPEC`.
fn read_recording(words: &Args) -> Option<Command<'_>>
    requires { slice_get words.now 0 ≡ Some (codes "record") }
    ensures found { IfSome result (λ c. Means words.now (meaning c)) }
    ensures within { IfSome result IsWithin }
    ensures only { IfNone result ((c : words_mean.Command) → Means words.now c → ⊥) }
{
    let spec = read_lone_spec(words)?;
    Some(Command::RecordTape(spec))
}

/// `guard SPEC`.
fn read_guarding(words: &Args) -> Option<Command<'_>>
    requires { slice_get words.now 0 ≡ Some (codes "guard") }
    ensures found { IfSome result (λ c. Means words.now (meaning c)) }
    ensures within { IfSome result IsWithin }
    ensures only { IfNone result ((c : words_mean.Command) → Means words.now c → ⊥) }
{
    let spec = read_lone_spec(words)?;
    Some(Command::Guard(spec))
}

/// `filter RULEFILE SPEC`. Any word may name a file.
fn read_filtering(words: &Args) -> Option<Command<'_>>
    requires { slice_get words.now 0 ≡ Some (codes "filter") }
    ensures found { IfSome result (λ c. Means words.now (meaning c)) }
    ensures within { IfSome result IsWithin }
    ensures only { IfNone result ((c : words_mean.Command) → Means words.now c → ⊥) }
{
    if words.len() != 3 {
        return None;
    }
    let spec = Spec::read(words.word(2))?;
    Some(Command::Filter {
        file: words.word(1),
        spec,
    })
}

/// `run RIGFILE`. Any word may name a file.
fn read_running(words: &Args) -> Option<Command<'_>>
    requires { slice_get words.now 0 ≡ Some (codes "run") }
    ensures found { IfSome result (λ c. Means words.now (meaning c)) }
    ensures within { IfSome result IsWithin }
    ensures only { IfNone result ((c : words_mean.Command) → Means words.now c → ⊥) }
{
    if words.len() != 2 {
        return None;
    }
    Some(Command::Run(words.word(1)))
}

/// The one spec behind a name.
fn read_lone_spec(words: &Args) -> Option<Spec>
    ensures found { IfSome result (λ s. AreWordsOf (drop 1 words.now) (s ∷ [])) }
    ensures within { IfSome result IsSpec }
    ensures only { IfNone result ((s : Spec) → AreWordsOf (drop 1 words.now) (s ∷ []) → ⊥) }
{
    if words.len() != 2 {
        return None;
    }
    let spec = Spec::read(words.word(1))?;
    Some(spec)
}

/// A command that is its name alone.
fn read_alone<'a>(words: &Args, command: Command<'a>) -> Option<Command<'a>>
    requires name { slice_get words.now 0 ≡ Some (name_of (meaning command)) }
    requires alone { IsAlone (meaning command) }
    requires within { IsWithin command }
    ensures found { IfSome result (λ c. Means words.now (meaning c)) }
    ensures within { IfSome result IsWithin }
    ensures only { IfNone result ((c : words_mean.Command) → Means words.now c → ⊥) }
{
    if words.len() == 1 {
        Some(command)
    } else {
        None
    }
}

/// `convert SPEC SPEC ..` or `convert tally SPEC SPEC ..`.
fn read_conversion(words: &Args) -> Option<Command<'_>>
    requires { slice_get words.now 0 ≡ Some (codes "convert") }
    ensures found { IfSome result (λ c. Means words.now (meaning c)) }
    ensures within { IfSome result IsWithin }
    ensures only { IfNone result ((c : words_mean.Command) → Means words.now c → ⊥) }
{
    let tally = asks_tally(words);
    let specs = read_specs(words, place_of_specs(tally))?;
    Some(Command::Convert { tally, specs })
}

/// Whether the second word asks for a tally.
fn asks_tally(words: &Args) -> bool
    ensures yes { result ≡ true → slice_get words.now 1 ≡ Some (codes "tally") }
    ensures no { result ≡ false → slice_get words.now 1 ≡ Some (codes "tally") → ⊥ }
{
    words.len() > 1 && words.word(1) == "tally"
}

/// Where the specs of a conversion begin.
fn place_of_specs(tally: bool) -> usize
    ensures { result ≡ place_of_specs tally }
{
    if tally { 2 } else { 1 }
}

/// The specs that the words from a place on are: two to ten.
fn read_specs(words: &Args, start: usize) -> Option<Specs>
    requires { start ≤ 2 }
    ensures found { IfSome result (λ specs. AreWordsOf (drop start words.now) specs.items) }
    ensures some { IfSome result (λ specs. 2 ≤ length specs.items) }
    ensures few { IfSome result (λ specs. length specs.items ≤ 10) }
    ensures only { IfNone result ((specs : List Spec) → 2 ≤ length specs → length specs ≤ 10 →
        AreWordsOf (drop start words.now) specs → ⊥) }
{
    if words.len() < start + 2 || start + 10 < words.len() {
        return None;
    }
    let mut specs = Specs::new();
    'words: for at in start..words.len() {
        let spec = Spec::read(words.word(at))?;
        specs.push(spec);
    }
    Some(specs)
}

/// `selftest START COUNT`: 0 to 2147483647, and 0 to 1000000.
fn read_selftest(words: &Args) -> Option<Command<'_>>
    requires { slice_get words.now 0 ≡ Some (codes "selftest") }
    ensures found { IfSome result (λ c. Means words.now (meaning c)) }
    ensures within { IfSome result IsWithin }
    ensures only { IfNone result ((c : words_mean.Command) → Means words.now c → ⊥) }
{
    if words.len() != 3 {
        return None;
    }
    let start = read_number(words.word(1).as_bytes(), MOST_START)?;
    let count = read_number(words.word(2).as_bytes(), MOST_UNITS)?;
    Some(Command::Selftest {
        start: start as u32,
        count: count as u32,
    })
}
