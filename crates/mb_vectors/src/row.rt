//! One row of a table: words and an input, and what must come.

ghost use Rattle.std.specs.Prelude.{◌≡◌, []};

use mb_outside::{Args, MemoryDesk};
use mb_top::{LIMIT, bridge_within};
use std::alloc::Global;
use std::process::Abort;

/// What is run, and what must come of it.
#[derive(Clone, Copy)]
pub struct Row<'a> {
    /// What the row shows.
    pub shows: &'a str,
    pub words: &'a [&'a str],
    pub input: &'a [u8],
    pub output: &'a [u8],
    pub status: u8,
    /// What must stand on standard error.
    pub text: &'a str,
}

/// The same as it stands in tables: what the row shows, the words, the input, the output, and the status, which tells
/// what must stand on standard error.
pub type Told = (
    &'static str,
    &'static [&'static str],
    &'static [u8],
    &'static [u8],
    u8,
);

/// What is said on standard error at a status, where there is room for it.
pub fn said_at(status: u8) -> &'static str {
    match status {
        3 => "read fault\n",
        4 => "write fault\n",
        5 => "input is cut\n",
        8 => "input is too long\n",
        _ => "",
    }
}

/// The desk that a row is run at, and how much may be read.
#[derive(Clone, Copy)]
pub struct Setting {
    /// How many bytes a read gives.
    pub piece: usize,
    /// Room for what is written.
    pub room: usize,
    /// Which call fails, counted from 1.
    pub fault: Option<u64>,
    pub limit: u64,
}

/// The whole input in one piece, and nothing that fails.
pub const WHOLE: Setting = Setting {
    piece: 512,
    room: 4096,
    fault: None,
    limit: LIMIT,
};

/// The words as a command line.
pub fn words(rt: &impl Abort, alloc: Global, words: &[&str]) -> Args {
    let mut args = Args::new(alloc);
    for word in words {
        args.push(word).expect(rt, "memory");
    }
    args
}

/// A desk with an input, and no files.
pub fn desk(rt: &impl Abort, alloc: Global, input: &[u8], setting: Setting) -> MemoryDesk
    ensures { result.files ≡ [] }
{
    let mut desk = MemoryDesk::new(alloc, setting.room).expect(rt, "memory");
    desk.put_input(input).expect(rt, "memory");
    if let Some(call) = setting.fault {
        desk.plan_faults(&[call]).expect(rt, "memory");
    }
    desk.set_piece(setting.piece.max(1));
    desk
}

/// Runs the rows of a table with their inputs in pieces of each size.
pub fn run_table(rt: &impl Abort, alloc: Global, table: &[Told]) {
    for (shows, words, input, output, status) in table {
        let row = Row {
            shows,
            words,
            input,
            output,
            status: *status,
            text: said_at(*status),
        };
        run_in_pieces(rt, alloc, &row);
    }
}

/// Runs a row with its input in pieces of each size.
pub fn run_in_pieces(rt: &impl Abort, alloc: Global, row: &Row<'_>) {
    for piece in [1, 2, 3, 5, 512] {
        run(rt, alloc, row, Setting { piece, ..WHOLE });
    }
}

/// Runs a row.
pub fn run(rt: &impl Abort, alloc: Global, row: &Row<'_>, setting: Setting) {
    let mut desk = desk(rt, alloc, row.input, setting);
    run_at(rt, alloc, row, &mut desk, setting.limit);
}

/// Runs a row at a desk that has its input.
pub fn run_at(rt: &impl Abort, alloc: Global, row: &Row<'_>, desk: &mut MemoryDesk, limit: u64) {
    let args = words(rt, alloc, row.words);
    let status = bridge_within(alloc, &args, desk, limit.min(LIMIT));
    assert!(rt; status == row.status, "{}: status {status}", row.shows);
    assert!(rt; desk.is_written(1, row.output), "{}: output", row.shows);
    assert!(rt;
        desk.is_written(2, row.text.as_bytes()),
        "{}: text",
        row.shows
    );
}
