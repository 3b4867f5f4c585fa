//! Everything that a trace writes.

ghost use Rattle.std.specs.Prelude.{◌≡◌, IfOk};
ghost use Rattle.rules.specs.Replay.{trace_writes};

use crate::run::Run;
use std::alloc::{AllocError, Global};
use trace::Reader;

/// Everything that a trace writes, of which no more is looked at than its first 32,768 bytes.
pub fn replay(heap: Global, bytes: &[u8]) -> Result<Vec<u8>, AllocError>
    ensures { IfOk result (λ v. v.items ≡ trace_writes bytes.now) }
{
    let run = Run {
        reader: Reader::over(bytes),
        out: Vec::new(heap),
    };
    run.play_all()
}
