//! The files of a desk in memory, and the handles that it gave.

ghost use Rattle.std.specs.Prelude.{◌≡◌, ◌^◌, ◌≤◌, ◌<◌, ◌+◌, ◌↔◌, min, [], IsTrue, IfOk, IfSome, IfNone, length};
ghost use Rattle.std.specs.Prelude.{take, drop, slice_get};
ghost use Rattle.mb_outside.specs.MemoryDesk.{name_in, bytes_in, left_at, IsNew};
ghost use Rattle.mb_outside.specs.Place.{Opened, Created, moved_on};

use arrayvec::ArrayString;
use mb_message::Memory;
use std::alloc::Global;
use std::marker::Model;

/// A file that can be opened, seen as its name and its bytes.
#[derive(Debug, Drop)]
pub struct File {
    name: String,
    bytes: Vec<u8>,
}

impl Model for File {
    ghost use Rattle.std.specs.Prelude.{List, ℕ, string_bytes};

    ghost Value = { List ℕ × List ℕ };

    ghost view = { λ f. (string_bytes f.name, f.bytes.items) };
}

impl File {
    pub fn new(alloc: Global, name: &str, bytes: &[u8]) -> Result<Self, Memory>
        ensures { IfOk result (λ file. file ≡ (name.now, bytes.now)) }
    {
        let Ok(name) = String::from_str(alloc, name) else {
            return Err(Memory);
        };
        let Ok(bytes) = bytes.to_vec(alloc) else {
            return Err(Memory);
        };
        Ok(File { name, bytes })
    }

    pub fn is_named(&self, name: &str) -> bool
        ensures { IsTrue result ↔ (self.now.0 ≡ name.now) }
    {
        self.name.as_str() == name
    }

    pub fn bytes(&self) -> &[u8]
        ensures { result.now ≡ self.now.1 }
    {
        &self.bytes
    }
}

/// What a handle is for.
#[derive(Debug, Drop)]
enum Place {
    /// To read the file of this number, of which so much was taken.
    Opened { file: usize, at: usize },
    /// To write under this name.
    Created(ArrayString<255>),
}

/// A handle that was given.
#[derive(Debug, Drop)]
pub struct Given {
    place: Place,
}

impl Model for Given {
    ghost use Rattle.mb_outside.specs.Place.{Place};
    ghost use Rattle.mb_outside.specs.PlaceOf.{place_of};

    ghost Value = { Place };

    ghost view = { λ g. place_of g.place };
}

impl Given {
    /// To read the file of this number from its start.
    pub fn opened(file: usize) -> Given
        ensures { result ≡ Opened file 0 }
    {
        Given {
            place: Place::Opened { file, at: 0 },
        }
    }

    /// To write a file of this name.
    pub fn created(name: ArrayString<255>) -> Given
        ensures { result ≡ Created name.bytes }
    {
        Given {
            place: Place::Created(name),
        }
    }

    /// Copies the next bytes of a file that was opened; of one that was created, none.
    pub fn read(&mut self, files: &[File], most: usize, buffer: &mut [u8]) -> usize
        ensures count { result ≡ min (min (length (left_at files.now (Some self.old))) (length buffer.old)) most }
        ensures length { length buffer.new ≡ length buffer.old }
        ensures bytes { take result buffer.new ≡ take result (left_at files.now (Some self.old)) }
        ensures moves { self.new ≡ moved_on result self.old }
    {
        let Place::Opened { file, at } = self.place else {
            return 0;
        };
        let count = give(rest(bytes_of(files, file), at), most, buffer);
        self.place = Place::Opened {
            file,
            at: at + count,
        };
        count
    }
}

/// The bytes from this place on.
pub fn rest(bytes: &[u8], at: usize) -> &[u8]
    ensures value { result.now ≡ drop at bytes.now }
    ensures fits { at + length result.now < 2 ^ 64 }
{
    if at < bytes.len() { &bytes[at..] } else { &[] }
}

// The bytes of the file of this number.
fn bytes_of(files: &[File], at: usize) -> &[u8]
    ensures { result.now ≡ bytes_in (slice_get files.now at) }
{
    match files.get(at) {
        Some(file) => file.bytes(),
        None => &[],
    }
}

/// Copies as many bytes as there are, at most so many and as many as there is room for.
pub fn give(left: &[u8], most: usize, buffer: &mut [u8]) -> usize
    ensures count { result ≡ min (min (length left.now) (length buffer.old)) most }
    ensures length { length buffer.new ≡ length buffer.old }
    ensures bytes { take result buffer.new ≡ take result left.now }
{
    let count = left.len().min(buffer.len()).min(most);
    buffer[..count].copy_from_slice(&left[..count]);
    count
}

/// The number of the file of this name.
pub fn find(files: &[File], name: &str) -> Option<usize>
    ensures found { IfSome result (λ i. (i < length files.now) × (name_in (slice_get files.now i) ≡ name.now)) }
    ensures none { IfNone result (IsNew files.now name.now) }
{
    for (i, file) in files.iter().enumerate() {
        if file.is_named(name) {
            return Some(i);
        }
    }
    None
}
