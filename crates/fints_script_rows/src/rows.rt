//! Parts of a script at their places.
ghost use Rattle.std.specs.Prelude.{◌≡◌};
ghost use Rattle.fints_script_rows.specs.Rows.{placed};

use crate::fault::{FaultKind, Place, ScriptFault};
use fints_syntax_segments::Memory;

/// The part at a place; running out of memory has no place of its own.
pub fn placed<X: Drop>(place: Place, part: Result<X, FaultKind>) -> Result<X, ScriptFault>
    ensures { result ≡ placed place part }
{
    match part {
        Ok(value) => Ok(value),
        Err(FaultKind::Memory) => Err(ScriptFault::from(Memory)),
        Err(kind) => Err(ScriptFault { kind, place }),
    }
}
