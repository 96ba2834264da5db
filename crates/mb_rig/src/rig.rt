//! Rigs.

ghost use Rattle.std.specs.Prelude.{◌≡◌, IfOk, IfErr};
ghost use Rattle.mb_rig.specs.RigText.{Right, rig_of};
ghost use Rattle.mb_rig.specs.RigAnswer.{Refuses};
ghost use Rattle.mb_rig.specs.Right.{IsRig};

use crate::draft::Draft;
use crate::fault::RigFault;
use crate::name::Port;
use std::alloc::Global;
use std::marker::Model;

/// The links, the outs and the routes of a rig, in the order of their lines: 1 to 16 links and as many outs, and each
/// route once.
#[derive(Debug, Drop)]
pub struct Rig {
    draft: Draft,
}

impl Model for Rig {
    ghost use Rattle.mb_rig.specs.RigText.{Setup};
    ghost use Rattle.mb_rig.specs.Right.{IsRig};

    ghost Value = { Setup };

    ghost view = { λ r. r.draft };

    ghost invariant = { λ r. IsRig r.draft };
}

impl Rig {
    /// Reads the text of a rig. `Line` is the first faulty line with its first cause, `Memory` comes only where the
    /// first line that says something isn't faulty.
    pub fn read(alloc: Global, text: &[u8]) -> Result<Rig, RigFault>
        ensures rig { IfOk result (λ rig. rig_of text.now ≡ Right rig) }
        ensures right { IfOk result IsRig }
        ensures refused { IfErr result (Refuses text.now) }
    {
        match Draft::read(alloc, text) {
            Ok(draft) => Ok(Rig { draft }),
            Err(fault) => Err(fault),
        }
    }

    /// The links.
    pub fn ins(&self) -> &[Port]
        ensures { result.now ≡ self.now.ins }
    {
        self.draft.ins()
    }

    /// The outs.
    pub fn outs(&self) -> &[Port]
        ensures { result.now ≡ self.now.outs }
    {
        self.draft.outs()
    }

    /// The routes, each from the place of a link to the place of an out.
    pub fn routes(&self) -> &[(u8, u8)]
        ensures routes { result.now ≡ self.now.routes }
        ensures right { IsRig self.now }
    {
        self.draft.routes()
    }
}
