//! What the end of an input shows.

ghost use Rattle.std.specs.Prelude.{◌≡◌, if◌then◌else◌};
ghost use Rattle.mb_top.specs.declared.ending.Ending.TheVariants as ending;

use crate::fault::Fault;

/// How a command's input ended.
#[derive(Clone, Copy, Debug, PartialEq, Eq)]
pub(crate) enum Ending {
    /// There is nothing to remark.
    Quiet,
    /// There were notes, which are what the caller asked for.
    Noted,
    /// What would be written can't be.
    Kept(Fault),
}

impl Ending {
    /// Of a listing, by whether there were notes that the caller asked for.
    pub(crate) fn of_notes(noted: bool) -> Ending
        ensures { result ≡ (if noted then ending.Noted else ending.Quiet) }
    {
        if noted { Ending::Noted } else { Ending::Quiet }
    }
}
