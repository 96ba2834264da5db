//! The header chunk, and other chunks.

ghost use Rattle.std.specs.Prelude.{◌≡◌};
ghost use Rattle.mb_smf.specs.FileStep.{given_list};
ghost use Rattle.mb_smf.specs.HeaderSteps.{chunk_length, division, header_length, in_chunk_length, in_division};
ghost use Rattle.mb_smf.specs.HeaderSteps.{in_header_length};
ghost use Rattle.mb_smf.specs.HeaderSteps.{in_kind, in_magic, in_name, in_rest, magic_at, passed_over, track_at};

use crate::fault::SmfWhy;
use crate::file_place::FilePlace;
use crate::file_state::FileState;
use crate::given_bytes::GivenBytes;
use crate::number::with_byte;

impl FileState {
    pub(crate) fn in_magic(&mut self, at: u8, byte: u8) -> GivenBytes
        ensures now { self.new ≡ (in_magic self.old at byte).now }
        ensures given { given_list result ≡ (in_magic self.old at byte).given }
    {
        if byte != magic_at(at) {
            return self.fail(SmfWhy::Header);
        }
        self.place = if at >= 3 {
            FilePlace::HeaderLength(0)
        } else {
            FilePlace::Magic(at + 1)
        };
        GivenBytes::Nothing
    }

    pub(crate) fn in_header_length(&mut self, at: u8, byte: u8) -> GivenBytes
        ensures now { self.new ≡ (in_header_length self.old at byte).now }
        ensures given { given_list result ≡ (in_header_length self.old at byte).given }
    {
        let number = with_byte(self.number, byte);
        if at >= 3 {
            return self.header_length(number);
        }
        self.place = FilePlace::HeaderLength(at + 1);
        self.number = number;
        GivenBytes::Nothing
    }

    pub(crate) fn header_length(&mut self, length: u32) -> GivenBytes
        ensures now { self.new ≡ (header_length self.old length).now }
        ensures given { given_list result ≡ (header_length self.old length).given }
    {
        if length < 6 {
            return self.fail(SmfWhy::Header);
        }
        self.place = FilePlace::Kind(0);
        self.number = 0;
        self.left = length - 6;
        GivenBytes::Nothing
    }

    pub(crate) fn in_kind(&mut self, at: u8, byte: u8) -> GivenBytes
        ensures now { self.new ≡ (in_kind self.old at byte).now }
        ensures given { given_list result ≡ (in_kind self.old at byte).given }
    {
        let number = with_byte(self.number, byte);
        if at < 3 {
            self.place = FilePlace::Kind(at + 1);
            self.number = number;
            return GivenBytes::Nothing;
        }
        if number == 1 {
            self.place = FilePlace::Division(0);
            self.number = 0;
            GivenBytes::Nothing
        } else {
            self.fail(SmfWhy::Format)
        }
    }

    pub(crate) fn in_division(&mut self, at: u8, byte: u8) -> GivenBytes
        ensures now { self.new ≡ (in_division self.old at byte).now }
        ensures given { given_list result ≡ (in_division self.old at byte).given }
    {
        let number = with_byte(self.number, byte);
        if at == 0 {
            self.place = FilePlace::Division(1);
            self.number = number;
            return GivenBytes::Nothing;
        }
        self.division(number)
    }

    pub(crate) fn division(&mut self, number: u32) -> GivenBytes
        ensures now { self.new ≡ (division self.old number).now }
        ensures given { given_list result ≡ (division self.old number).given }
    {
        if number == 0 || number >= 0x8000 {
            return self.fail(SmfWhy::Division);
        }
        self.place = passed_over(self.left);
        self.number = 0;
        self.clock.set_division(number as u16);
        GivenBytes::Nothing
    }

    pub(crate) fn in_rest(&mut self) -> GivenBytes
        ensures now { self.new ≡ (in_rest self.old).now }
        ensures given { given_list result ≡ (in_rest self.old).given }
    {
        let left = self.left.saturating_sub(1);
        self.place = passed_over(left);
        self.left = left;
        self.number = 0;
        GivenBytes::Nothing
    }

    pub(crate) fn in_name(&mut self, at: u8, is_track: bool, byte: u8) -> GivenBytes
        ensures now { self.new ≡ (in_name self.old at is_track byte).now }
        ensures given { given_list result ≡ (in_name self.old at is_track byte).given }
    {
        let still = is_track && byte == track_at(at);
        self.place = if at >= 3 {
            FilePlace::ChunkLength(0, still)
        } else {
            FilePlace::Name(at + 1, still)
        };
        GivenBytes::Nothing
    }

    pub(crate) fn in_chunk_length(&mut self, at: u8, is_track: bool, byte: u8) -> GivenBytes
        ensures now { self.new ≡ (in_chunk_length self.old at is_track byte).now }
        ensures given { given_list result ≡ (in_chunk_length self.old at is_track byte).given }
    {
        let number = with_byte(self.number, byte);
        if at >= 3 {
            return self.chunk_length(is_track, number);
        }
        self.place = FilePlace::ChunkLength(at + 1, is_track);
        self.number = number;
        GivenBytes::Nothing
    }

    pub(crate) fn chunk_length(&mut self, is_track: bool, length: u32) -> GivenBytes
        ensures now { self.new ≡ (chunk_length self.old is_track length).now }
        ensures given { given_list result ≡ (chunk_length self.old is_track length).given }
    {
        if !is_track {
            self.place = passed_over(length);
            self.number = 0;
            self.left = length;
            return GivenBytes::Nothing;
        }
        if length == 0 {
            return self.fail(SmfWhy::Track);
        }
        self.place = FilePlace::Delta(0);
        self.number = 0;
        self.left = length;
        GivenBytes::Nothing
    }
}

fn magic_at(at: u8) -> u8
    ensures { result ≡ magic_at at }
{
    if at == 0 {
        0x4d
    } else if at == 1 {
        0x54
    } else if at == 2 {
        0x68
    } else {
        0x64
    }
}

fn track_at(at: u8) -> u8
    ensures { result ≡ track_at at }
{
    if at == 0 {
        0x4d
    } else if at == 1 {
        0x54
    } else if at == 2 {
        0x72
    } else {
        0x6b
    }
}

fn passed_over(left: u32) -> FilePlace
    ensures { result ≡ passed_over left }
{
    if left == 0 {
        FilePlace::Name(0, true)
    } else {
        FilePlace::Rest
    }
}
