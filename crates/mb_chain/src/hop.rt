//! One hop of a chain.

ghost use Rattle.std.specs.Prelude.{◌≡◌, ℕ, [], IsOk, IfOk};
ghost use Rattle.mb_chain.specs.Row.{link_of, HopAt};
ghost use Rattle.mb_carrier.specs.Port.{reader_spec, reader_offset, ReaderStands, writer_spec, WriterStands};
ghost use Rattle.mb_carrier.specs.Word.{IsSpec};

use mb_carrier::{PortReader, PortWriter, Spec};
use mb_message::Memory;
use std::alloc::Global;

/// A reader, the writer that its marks go to, the moment of the last byte read, and how many bytes were written.
#[derive(Drop)]
pub(crate) struct Hop {
    pub(crate) reader: PortReader,
    pub(crate) writer: PortWriter,
    pub(crate) last: u64,
    pub(crate) wrote: u64,
}

impl Default for Hop {
    fn default() -> Hop {
        Hop {
            reader: PortReader::default(),
            writer: PortWriter::default(),
            last: 0,
            wrote: 0,
        }
    }
}

impl Hop {
    pub(crate) fn new(alloc: Global, first: Spec, last: Spec) -> Result<Hop, Memory>
        requires first { IsSpec first }
        requires last { IsSpec last }
        ensures ok { IfOk result (λ hop. (link_of hop ≡ record { reads = first; writes = last }) ×
            ((moments : ℕ → ℕ) → HopAt hop moments [])) }
        ensures memory { IsOk result }
    {
        match PortWriter::new(alloc, last) {
            Ok(writer) => Ok(Hop {
                reader: PortReader::new(first),
                writer,
                last: 0,
                wrote: 0,
            }),
            Err(memory) => Err(memory),
        }
    }
}
