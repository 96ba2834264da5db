//! The content of a packet, byte by byte: its header, stamps, and what the byte stream in it tells.

ghost use Rattle.std.specs.Prelude.{◌≡◌, ℕ, List, [], ◌∷◌, ◌++◌, ◌+◌, ◌*◌, ◌%◌, ◌^◌, ◌<◌, ◌≤◌, ◌⊎◌, Option, Some, None};
ghost use Rattle.std.specs.Prelude.{false, true, length, IfNone, IfSome, OnSome, IsSome, ◌↔◌, nat_lt, if◌then◌else◌};
ghost use Rattle.std.specs.Prelude.{take, drop};
ghost use Rattle.mb_clock.specs.Clock.{clock_of};
ghost use Rattle.mb_din.specs.Reader.{Stands, RunNext, is_all_data};
ghost use Rattle.mb_din.specs.State.{fresh, free_now, open_now, owed, Rests};
ghost use Rattle.mb_din.specs.Turn.{data_front};
ghost use Rattle.mb_message.specs.Bytes.{is_channel};
ghost use Rattle.mb_stream.specs.Groups.{last_of, is_sysex};
ghost use Rattle.mb_stream.specs.Payload.{Entry};
ghost use Rattle.mb_stream.specs.Reading.{so_far, told_signs};
ghost use Rattle.mb_stream.specs.Told.{Notes, Known, at_end};
ghost use Rattle.mb_message.specs.declared.note.NoteKind.TheVariants.{LoneStamp as LoneStampKind};
ghost use Rattle.mb_ble.specs.declared.content.Head.TheVariants.{Between as AtBetween, Header as AtHeader};
ghost use Rattle.mb_ble.specs.declared.content.Head.TheVariants.{Skip as AtSkip, Inside as AtInside};
ghost use Rattle.mb_ble.specs.declared.content.Head.TheVariants.{Stamped as AtStamped, Spent as AtSpent};
ghost use Rattle.mb_ble.specs.Content.{empty_told, headed, headed_told, stamped_at, advanced, running_then, is_common};
ghost use Rattle.mb_ble.specs.Content.{Hands, Took, EndedBy};
ghost use Rattle.mb_ble.specs.Stands.{Reads, Counts, MayRun, HasOpen, is_heady};
ghost use Rattle.mb_stream.specs.ReaderLaw.{IsLongest, StatusNext, breaks, begins_run, answer};
ghost use Rattle.mb_ble.specs.State.{Calm, is_between, content_owed};

use crate::classes::{is_common, is_data_next, is_low, pair_len, run_len, running_then};
use mb_clock::Unwrap;
use mb_din::DinReader;
use mb_message::{Note, NoteKind, Seen};

/// What the next byte of a content may be.
#[derive(Clone, Copy, Debug)]
pub enum Head {
    /// Outside a packet.
    Between,
    /// The packet's first byte.
    Header,
    /// Behind a bad header: passed over.
    Skip,
    /// A stamp, or a data byte.
    Inside,
    /// Behind a stamp, which has this offset.
    Stamped(u64),
    /// Behind a stamp whose note was told.
    Spent,
}

/// Where a packet stands: the offset of the next byte, what that may be, the clock, the channel status that runs in the
/// packet, and the reader of the byte stream in all packets.
#[derive(Drop)]
pub struct Content {
    offset: u64,
    head: Head,
    clock: Unwrap,
    running: Option<u8>,
    din: DinReader,
}

impl Content {
    pub fn new() -> Content
        ensures offset { result.offset ≡ 0 }
        ensures head { result.head ≡ AtBetween }
        ensures clock { result.clock ≡ clock_of [] }
        ensures running { result.running ≡ None }
        ensures din { Stands result.din [] [] }
        ensures low { result.din.offset ≡ 0 }
    {
        Content {
            offset: 0,
            head: Head::Between,
            clock: Unwrap::new(),
            running: None,
            din: DinReader::new(),
        }
    }

    #[inline(always)]
    pub fn moment(&self) -> u64
        ensures { result ≡ self.now.clock.moment }
    {
        self.clock.moment()
    }

    /// The first byte of a length was taken with the second.
    #[inline(always)]
    pub fn enter<'a>(&mut self, len: u16) -> Option<Seen<'a>>
        requires { self.old.offset + 2 < 2 ^ 64 }
        ensures state { self.new ≡ record self.old { offset = self.old.offset + 2; head = AtHeader; running = None } }
        ensures told { answer result ≡ empty_told self.old.offset len }
        ensures owed { content_owed self.new ≤ content_owed self.old }
        ensures some { OnSome result (answer result ≡ [] → ⊥) }
        ensures unbroken { breaks (answer result) ≡ false }
        ensures silent { told_signs (answer result) ≡ [] }
        ensures longest { (left : List ℕ) → IfSome result (IsLongest left) }
    {
        let at = self.offset;
        self.offset += 2;
        self.head = Head::Header;
        self.running = None;
        if len == 0 {
            return Some(Seen::Note(Note {
                at,
                kind: NoteKind::EmptyPacket,
            }));
        }
        None
    }

    /// A byte at which no message is read.
    #[inline(always)]
    fn head_byte<'a>(&mut self, byte: u8) -> Option<Seen<'a>>
        requires { self.old.offset + 1 < 2 ^ 64 }
        ensures state { self.new ≡ headed self.old byte }
        ensures told { answer result ≡ headed_told self.old byte }
        ensures some { OnSome result (answer result ≡ [] → ⊥) }
        ensures unbroken { breaks (answer result) ≡ false }
        ensures silent { told_signs (answer result) ≡ [] }
        ensures longest { (left : List ℕ) → IfSome result (IsLongest left) }
    {
        let at = self.offset;
        self.offset += 1;
        if !matches!(self.head, Head::Header) {
            return None;
        }
        if byte < 0x80 {
            self.head = Head::Skip;
            return Some(Seen::Note(Note {
                at,
                kind: NoteKind::BadHeader,
            }));
        }
        self.head = Head::Inside;
        self.clock.packet(byte % 64);
        None
    }

    #[inline(always)]
    fn take_stamp(&mut self, byte: u8)
        requires early { self.old.offset + 1 < 2 ^ 64 }
        requires moments { self.old.clock.moment < 2 ^ 63 }
        requires stamp { nat_lt byte 128 ≡ false }
        ensures { self.new ≡ stamped_at self.old byte }
    {
        self.clock.stamp(byte - 0x80);
        self.head = Head::Stamped(self.offset);
        self.offset += 1;
    }

    /// The note of a stamp.
    #[inline(always)]
    fn spend<'a>(&mut self, at: u64) -> Option<Seen<'a>>
        ensures state { self.new ≡ record self.old { head = AtSpent } }
        ensures told { answer result ≡ Notes at LoneStampKind ∷ [] }
        ensures some { OnSome result (answer result ≡ [] → ⊥) }
        ensures unbroken { breaks (answer result) ≡ false }
        ensures silent { told_signs (answer result) ≡ [] }
        ensures longest { (left : List ℕ) → IfSome result (IsLongest left) }
    {
        self.head = Head::Spent;
        Some(Seen::Note(Note {
            at,
            kind: NoteKind::LoneStamp,
        }))
    }

    /// Hands a piece to the byte stream's reader.
    #[inline(always)]
    fn hand<'a>(&mut self, piece: &mut &'a [u8]) -> Option<Seen<'a>>
        requires placed { self.old.din.offset ≤ self.old.offset }
        requires early { self.old.offset + length piece.old.now < 2 ^ 63 }
        ensures hands { Hands self.old.din self.new.din self.old.offset piece.old.now piece.new.now (answer result) }
        ensures rest { self.new ≡ record self.old { din = self.new.din } }
        ensures front { (taken : List ℕ) × (piece.old.now ≡ taken ++ piece.new.now)
            × (self.new.din.offset ≡ self.old.offset + length taken) }
        ensures some { OnSome result (answer result ≡ [] → ⊥) }
        ensures none { IfNone result (piece.new.now ≡ []) }
        ensures longest { IfSome result (IsLongest piece.new.now) }
        ensures free { is_common (answer result) ≡ true → free_now self.new.din ≡ true }
        ensures before { breaks (answer result) ≡ true → StatusNext piece.new.now × Rests self.new.din }
        ensures few { length (told_signs (answer result)) ≤ length piece.old.now }
        ensures runs { begins_run (answer result) ≡ true → RunNext self.old.din piece.old.now }
        ensures progress { OnSome result (2 * length piece.new.now + owed self.new.din
            < 2 * length piece.old.now + owed self.old.din) }
    {
        self.din.place(self.offset);
        self.din.next(piece)
    }

    /// A byte was taken. Where a System Common message was told at it, the packet's channel status runs on.
    #[inline(always)]
    fn took(&mut self, byte: u8, common: bool)
        requires early { self.old.offset + 1 < 2 ^ 64 }
        requires runs { IfSome self.old.running (λ s. is_channel s ≡ true) }
        requires free { common ≡ true → free_now self.old.din ≡ true }
        ensures took { Took self.old self.new byte common }
    {
        self.offset += 1;
        self.head = Head::Inside;
        if let Some(status) = self.running
            && common
        {
            self.din.resume(status);
        }
        self.running = running_then(self.running, byte);
    }

    /// A content's end comes next: what it tells of a stamp.
    #[inline(always)]
    pub fn end_stamp<'a>(&mut self) -> Option<Seen<'a>>
        ensures some { OnSome result ((at : ℕ) × (self.old.head ≡ AtStamped at)
            × (answer result ≡ Notes at LoneStampKind ∷ []) × (self.new ≡ record self.old { head = AtSpent })) }
        ensures none { IfNone result ((self.new ≡ self.old) × ((at : ℕ) → self.old.head ≡ AtStamped at → ⊥)) }
        ensures unbroken { breaks (answer result) ≡ false }
        ensures silent { told_signs (answer result) ≡ [] }
        ensures longest { (left : List ℕ) → IfSome result (IsLongest left) }
        ensures falls { OnSome result (content_owed self.new < content_owed self.old) }
    {
        if let Head::Stamped(at) = self.head {
            return self.spend(at);
        }
        None
    }

    /// Takes a content's end.
    #[inline(always)]
    pub fn end_groups<'a>(&mut self) -> Option<Seen<'a>>
        ensures ended { EndedBy self.old self.new (answer result) }
        ensures silent { told_signs (answer result) ≡ [] }
        ensures rests { OnSome result (Rests self.new.din) }
        ensures clock { self.new.clock ≡ self.old.clock }
        ensures some { OnSome result (answer result ≡ [] → ⊥) }
        ensures falls { OnSome result (content_owed self.new < content_owed self.old) }
        ensures kept { content_owed self.new ≤ content_owed self.old }
    {
        self.head = Head::Between;
        self.running = None;
        if self.din.in_sysex() {
            return None;
        }
        self.din.finish()
    }

    /// Reads a byte at which no message is read.
    #[inline(always)]
    fn read_head<'a>(&mut self, piece: &mut &'a [u8]) -> Option<Seen<'a>>
        requires early { self.old.offset + length piece.old.now < 2 ^ 63 }
        requires head { is_heady self.old.head ≡ true }
        requires inside { is_between self.old.head ≡ false }
        requires some { 0 < length piece.old.now }
        ensures reads { Reads self.old self.new piece.old.now piece.new.now (answer result) }
        ensures counts { Counts self.old self.new piece.old.now piece.new.now }
        ensures falls { 2 * length piece.new.now + content_owed self.new
            < 2 * length piece.old.now + content_owed self.old }
        ensures some { OnSome result (answer result ≡ [] → ⊥) }
        ensures unbroken { breaks (answer result) ≡ false }
        ensures silent { told_signs (answer result) ≡ [] }
        ensures longest { (left : List ℕ) → IfSome result (IsLongest left) }
        ensures none { IfNone result (length piece.new.now < length piece.old.now) }
    {
        let Some((byte, rest)) = piece.split_first() else {
            return None;
        };
        *piece = rest;
        self.head_byte(*byte)
    }

    /// Reads a stamp.
    #[inline(always)]
    fn read_stamp<'a>(&mut self, piece: &mut &'a [u8])
        requires early { self.old.offset + length piece.old.now < 2 ^ 63 }
        requires moments { self.old.clock.moment < 2 ^ 63 }
        requires head { self.old.head ≡ AtInside }
        requires stamp { (b : ℕ) (bs : List ℕ) → piece.old.now ≡ b ∷ bs → nat_lt b 128 ≡ false }
        requires some { 0 < length piece.old.now }
        ensures reads { Reads self.old self.new piece.old.now piece.new.now [] }
        ensures counts { Counts self.old self.new piece.old.now piece.new.now }
        ensures falls { 2 * length piece.new.now + content_owed self.new
            < 2 * length piece.old.now + content_owed self.old }
        ensures less { length piece.new.now < length piece.old.now }
        ensures end { self.new.offset + length piece.new.now ≡ self.old.offset + length piece.old.now }
        ensures din { self.new.din ≡ self.old.din }
        ensures stamped { self.new.head ≡ AtStamped self.old.offset }
    {
        if let Some((byte, rest)) = piece.split_first() {
            *piece = rest;
            self.take_stamp(*byte);
        }
    }

    /// Reads a byte of a message.
    #[inline(always)]
    fn read_byte<'a>(&mut self, piece: &mut &'a [u8]) -> Option<Seen<'a>>
        requires placed { self.old.din.offset ≤ self.old.offset }
        requires early { self.old.offset + length piece.old.now < 2 ^ 63 }
        requires runs { IfSome self.old.running (λ s. is_channel s ≡ true) }
        requires head { is_heady self.old.head ≡ false }
        requires inside { (b : ℕ) (bs : List ℕ) → piece.old.now ≡ b ∷ bs → self.old.head ≡ AtInside →
            nat_lt b 128 ≡ true }
        requires lone { (at b : ℕ) (bs : List ℕ) → piece.old.now ≡ b ∷ bs → self.old.head ≡ AtStamped at →
            nat_lt b 128 ≡ true → MayRun self.old.din true }
        requires shut { (b : ℕ) (bs : List ℕ) → piece.old.now ≡ b ∷ bs → nat_lt b 128 ≡ true →
            open_now self.old.din ≡ false }
        requires some { 0 < length piece.old.now }
        ensures reads { Reads self.old self.new piece.old.now piece.new.now (answer result) }
        ensures counts { Counts self.old self.new piece.old.now piece.new.now }
        ensures falls { 2 * length piece.new.now + content_owed self.new
            < 2 * length piece.old.now + content_owed self.old }
        ensures some { OnSome result (answer result ≡ [] → ⊥) }
        ensures before { breaks (answer result) ≡ true → StatusNext piece.new.now × Rests self.new.din }
        ensures few { length (told_signs (answer result)) ≤ length piece.old.now }
        ensures longest { IfSome result (IsLongest piece.new.now) }
        ensures none { IfNone result (length piece.new.now < length piece.old.now) }
    {
        let Some((byte, rest)) = piece.split_first() else {
            return None;
        };
        let byte = *byte;
        let mut one = piece.split_at(1).0;
        let seen = self.hand(&mut one);
        if one.is_empty() {
            *piece = rest;
            self.took(byte, is_common(seen));
        }
        seen
    }

    /// Reads a channel message that stands whole behind its stamp, with no data byte behind it, as nearly all do.
    /// `None`, and nothing is taken, where anything else stands there.
    #[inline(always)]
    fn read_whole<'a>(&mut self, piece: &mut &'a [u8]) -> Option<Seen<'a>>
        requires placed { self.old.din.offset ≤ self.old.offset }
        requires early { self.old.offset + length piece.old.now < 2 ^ 63 }
        requires head { is_heady self.old.head ≡ false }
        requires stamped { self.old.head ≡ AtInside → ⊥ }
        ensures reads { OnSome result (Reads self.old self.new piece.old.now piece.new.now (answer result)) }
        ensures counts { OnSome result (Counts self.old self.new piece.old.now piece.new.now) }
        ensures same { IfNone result (self.new ≡ self.old) }
        ensures stays { IfNone result (piece.new.now ≡ piece.old.now) }
        ensures kept { 2 * length piece.new.now + content_owed self.new
            ≤ 2 * length piece.old.now + content_owed self.old }
        ensures left { length piece.new.now ≤ length piece.old.now }
        ensures some { OnSome result (answer result ≡ [] → ⊥) }
        ensures unbroken { breaks (answer result) ≡ false }
        ensures few { length (told_signs (answer result)) ≤ length piece.old.now }
        ensures longest { IfSome result (IsLongest piece.new.now) }
    {
        let (status, rest) = piece.split_first()?;
        let status = *status;
        if status < 0x80 || status >= 0xf0 {
            return None;
        }
        let (data1, left) = rest.split_first()?;
        if status >= 0xc0 && status < 0xe0 {
            if is_data_next(left) {
                return None;
            }
            let seen = self.din.read_two(self.offset, status, *data1)?;
            self.pass_message(status, 2);
            *piece = left;
            return Some(seen);
        }
        let (data2, behind) = left.split_first()?;
        if is_data_next(behind) {
            return None;
        }
        let seen = self.din.read_three(self.offset, status, *data1, *data2)?;
        self.pass_message(status, 3);
        *piece = behind;
        Some(seen)
    }

    /// A channel message of so many bytes was taken.
    #[inline(always)]
    fn pass_message(&mut self, status: u8, len: u64)
        requires { self.old.offset + len < 2 ^ 64 }
        ensures { self.new ≡
            record self.old { offset = self.old.offset + len; head = AtInside; running = Some status } }
    {
        self.offset += len;
        self.head = Head::Inside;
        self.running = Some(status);
    }

    /// Steps over data bytes.
    #[inline(always)]
    fn advance(&mut self, count: u64)
        requires { self.old.offset + count < 2 ^ 64 }
        ensures { self.new ≡ advanced self.old count }
    {
        if count > 0 {
            self.offset += count;
            self.head = Head::Inside;
        }
    }

    /// Hands data bytes at the front to the byte stream's reader: of an open SysEx, or of a channel status that runs.
    #[inline(always)]
    fn read_data<'a>(&mut self, piece: &mut &'a [u8], len: usize) -> Option<Seen<'a>>
        requires placed { self.old.din.offset ≤ self.old.offset }
        requires early { self.old.offset + length piece.old.now < 2 ^ 63 }
        requires head { is_heady self.old.head ≡ false }
        requires some { 0 < len }
        requires bound { len ≤ length piece.old.now }
        requires low { is_all_data (take len piece.old.now) ≡ true }
        requires lone { (at b : ℕ) (bs : List ℕ) → piece.old.now ≡ b ∷ bs → self.old.head ≡ AtStamped at →
            nat_lt b 128 ≡ true → MayRun self.old.din true }
        requires begun { HasOpen self.old.din true ⊎ MayRun self.old.din true }
        requires longest { open_now self.old.din ≡ true → data_front (drop len piece.old.now) ≡ [] }
        ensures reads { Reads self.old self.new piece.old.now piece.new.now (answer result) }
        ensures counts { Counts self.old self.new piece.old.now piece.new.now }
        ensures falls { 2 * length piece.new.now + content_owed self.new
            < 2 * length piece.old.now + content_owed self.old }
        ensures some { OnSome result (answer result ≡ [] → ⊥) }
        ensures before { breaks (answer result) ≡ true → StatusNext piece.new.now × Rests self.new.din }
        ensures few { length (told_signs (answer result)) ≤ length piece.old.now }
        ensures none { IfNone result (length piece.new.now < length piece.old.now) }
        ensures longest { IfSome result (IsLongest piece.new.now) }
    {
        let mut run = piece.split_at(len).0;
        let seen = self.hand(&mut run);
        let used = len - run.len();
        self.advance(used as u64);
        *piece = piece.split_at(used).1;
        seen
    }

    /// The next mark or note of a content's bytes. A message behind its stamp is what nearly all bytes are, and stands
    /// by itself for a compiler's sake.
    #[inline(always)]
    pub fn read<'a>(&mut self, piece: &mut &'a [u8]) -> Option<Seen<'a>>
        requires early { self.old.offset + length piece.old.now < 2 ^ 63 }
        requires calm { Calm self.old }
        requires inside { is_between self.old.head ≡ false }
        requires moments { self.old.clock.moment < 2 ^ 63 }
        requires some { 0 < length piece.old.now }
        ensures reads { Reads self.old self.new piece.old.now piece.new.now (answer result) }
        ensures counts { Counts self.old self.new piece.old.now piece.new.now }
        ensures falls { 2 * length piece.new.now + content_owed self.new
            < 2 * length piece.old.now + content_owed self.old }
        ensures some { OnSome result (answer result ≡ [] → ⊥) }
        ensures before { breaks (answer result) ≡ true → StatusNext piece.new.now × Rests self.new.din }
        ensures few { length (told_signs (answer result)) ≤ length piece.old.now }
        ensures longest { IfSome result (IsLongest piece.new.now) }
        ensures none { IfNone result (length piece.new.now < length piece.old.now) }
    {
        let low = is_low(piece);
        if let Head::Inside = self.head
            && !low
        {
            self.read_stamp(piece);
            return self.read_whole(piece);
        }
        self.read_other(piece)
    }

    /// The same, whatever stands there.
    #[inline(never)]
    fn read_other<'a>(&mut self, piece: &mut &'a [u8]) -> Option<Seen<'a>>
        requires early { self.old.offset + length piece.old.now < 2 ^ 63 }
        requires calm { Calm self.old }
        requires inside { is_between self.old.head ≡ false }
        requires moments { self.old.clock.moment < 2 ^ 63 }
        requires some { 0 < length piece.old.now }
        ensures reads { Reads self.old self.new piece.old.now piece.new.now (answer result) }
        ensures counts { Counts self.old self.new piece.old.now piece.new.now }
        ensures falls { 2 * length piece.new.now + content_owed self.new
            < 2 * length piece.old.now + content_owed self.old }
        ensures some { OnSome result (answer result ≡ [] → ⊥) }
        ensures before { breaks (answer result) ≡ true → StatusNext piece.new.now × Rests self.new.din }
        ensures few { length (told_signs (answer result)) ≤ length piece.old.now }
        ensures longest { IfSome result (IsLongest piece.new.now) }
        ensures none { IfNone result (length piece.new.now < length piece.old.now) }
    {
        let low = is_low(piece);
        match self.head {
            Head::Between | Head::Header | Head::Skip => self.read_head(piece),
            Head::Inside if !low => {
                self.read_stamp(piece);
                None
            }
            Head::Stamped(at) if low && !self.din.may_run() => self.spend(at),
            _ if low && self.din.in_sysex() => {
                let len = run_len(piece);
                self.read_data(piece, len)
            }
            _ if low && self.din.may_run() => {
                let len = pair_len(piece);
                self.read_data(piece, len)
            }
            _ => self.read_byte(piece),
        }
    }

    /// What only the end makes known.
    pub fn finish(&mut self) -> Option<Seen<'static>>
        ensures told { (entries : List Entry) → Stands self.old.din entries (so_far entries) →
            answer result ≡ at_end (last_of entries) }
        ensures state { self.new ≡ record self.old { running = None; din = self.new.din } }
        ensures as_fresh { self.new.din ≡ record fresh { offset = self.old.din.offset } }
        ensures stands { Stands self.new.din [] [] }
        ensures some { OnSome result (answer result ≡ [] → ⊥) }
        ensures when { IsSome result ↔ (free_now self.old.din ≡ false) }
    {
        self.running = None;
        self.din.finish()
    }
}
