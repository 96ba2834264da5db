//! The desk: where the program reads and writes.

ghost use Rattle.std.specs.Prelude.{◌≡◌, ℕ, ◌≤◌, Bool, IsTrue, IfOk, OnOk, length};
ghost use Rattle.mb_outside.specs.Cause.{HasCause};
ghost use Rattle.mb_outside.specs.Contents.{Contents, is_readable, is_writable, Opens, Creates, Reads, Writes};
ghost use Rattle.mb_outside.specs.Contents.{TakesSome};

/// A call of the desk failed.
#[derive(Clone, Copy, Debug, PartialEq, Eq)]
pub struct Failed;

/// Handle 0 is standard input, 1 standard output, 2 standard error; files that are opened and created have 3 and up.
pub trait Desk {
    /// Whether the desk tells its contents. No call changes it.
    ghost tells: { Bool };

    /// What the handles hold; nothing is said of it where the desk doesn't tell.
    ghost contents: { Self → Contents };

    /// How often reading has failed; it never falls, and rises at a failure alone.
    ghost read_faults: { Self → ℕ };

    /// How often writing has failed; it never falls, and rises at a failure alone.
    ghost write_faults: { Self → ℕ };

    /// Opens a file to read, whose handle is the next one.
    fn open(&mut self, name: &str) -> Result<u32, Failed>
        ensures contents { IsTrue tells → Opens (contents self.old) (contents self.new) result name.now }
        ensures cause { HasCause (read_faults self.old) (read_faults self.new) result }
        ensures sound { OnOk result (read_faults self.new ≡ read_faults self.old) }
        ensures write_faults { write_faults self.new ≡ write_faults self.old };

    /// Creates a file to write, whose handle is the next one.
    fn create(&mut self, name: &str) -> Result<u32, Failed>
        ensures contents { IsTrue tells → Creates (contents self.old) (contents self.new) result name.now }
        ensures cause { HasCause (write_faults self.old) (write_faults self.new) result }
        ensures sound { OnOk result (write_faults self.new ≡ write_faults self.old) }
        ensures read_faults { read_faults self.new ≡ read_faults self.old };

    /// Takes the first bytes that are left into the buffer, and answers how many. Where the buffer has room, 0 comes
    /// exactly at the end.
    fn read(&mut self, h: u32, buf: &mut [u8]) -> Result<usize, Failed>
        requires { IsTrue tells → IsTrue (is_readable (contents self.old) h) }
        ensures bound { IfOk result (λ count. count ≤ length buf.new) }
        ensures contents { IsTrue tells → Reads (contents self.old) (contents self.new) h result buf.new }
        ensures cause { HasCause (read_faults self.old) (read_faults self.new) result }
        ensures sound { OnOk result (read_faults self.new ≡ read_faults self.old) }
        ensures write_faults { write_faults self.new ≡ write_faults self.old };

    /// Writes some first bytes of the piece, and answers how many: at least one where there is one.
    fn write(&mut self, h: u32, piece: &[u8]) -> Result<usize, Failed>
        requires { IsTrue tells → IsTrue (is_writable (contents self.old) h) }
        ensures bound { IfOk result (λ count. TakesSome count piece.now) }
        ensures contents { IsTrue tells → Writes (contents self.old) (contents self.new) h result piece.now }
        ensures cause { HasCause (write_faults self.old) (write_faults self.new) result }
        ensures sound { OnOk result (write_faults self.new ≡ write_faults self.old) }
        ensures read_faults { read_faults self.new ≡ read_faults self.old };
}
