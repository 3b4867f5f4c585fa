//! The line that begins a replay.

ghost use Rattle.std.specs.Prelude.{◌≡◌};
ghost use Rattle.rules.specs.Replay.{unopened, plays};
ghost use Rattle.trace.specs.Meaning.{reading};
ghost use Rattle.player.specs.Players.{begun, KindAsked};

use crate::reply::Reply;
use loads::Settings;
use trace::{Command, Item, MediumKind, TraceFault};

/// What a replay begins with.
#[derive(Clone, Copy)]
pub struct Beginning {
    pub kind: MediumKind,
    pub settings: Settings,
}

/// Takes a line before a terminal is opened: the kind of medium and the settings that it begins with, or what it writes.
pub fn begin(item: Item<'_>) -> Result<Beginning, Reply>
    ensures says { plays unopened item.entry.line (reading item.entry.asks) ≡ begun result }
    ensures kind { KindAsked (reading item.entry.asks) result }
{
    let line = item.line;
    // No `?`: a line that is none of a trace and one that does not begin a replay are refused by one number.
    let Ok(
        Command::Begin {
            kind,
            class,
            kg,
            max,
        },
    ) = item.asks
    else {
        return Err(Reply::refused(line, TraceFault { line }));
    };
    let settings = Settings::check(class, kg, max).map_err(|fault| Reply::refused(line, fault))?;
    Ok(Beginning { kind, settings })
}
