//! A replay under way.

ghost use Rattle.std.specs.Prelude.{◌≡◌, replicate, IfOk};
ghost use Rattle.rules.specs.Rows.{blank_row};
ghost use Rattle.rules.specs.Replay.{unopened};
ghost use Rattle.player.specs.Players.{playing, opened};

use crate::beginning::{Beginning, begin};
use crate::body::Player;
use loads::Settings;
use media::{Cells, Flash, Medium, Sectors};
use std::alloc::AllocError;
use trace::{MediumKind, Reader};

/// A replay under way: the lines that are left, and what was written.
#[derive(Drop)]
pub(crate) struct Run<'a> {
    pub(crate) reader: Reader<'a>,
    pub(crate) out: Vec<u8>,
}

impl Run<'_> {
    ghost use Rattle.player.specs.Runs.{WritesRest};

    /// Plays the lines that are left, and gives all that is written then.
    fn play<M: Medium>(mut self, player: &mut Player<M>) -> Result<Vec<u8>, AllocError>
        ensures writes { IfOk result (WritesRest (playing M.rows M.count player.old) self.entry) }
        ensures lender { M.lender player.new.terminal.medium ≡ M.lender player.old.terminal.medium }
    {
        for item in self.reader {
            player.play(item).write_to(&mut self.out)?;
        }
        Ok(self.out)
    }

    /// Plays the lines that are left over a blank medium of eight pages.
    fn play_over<M: Medium + Drop>(
        self,
        medium: M,
        settings: Settings,
    ) -> Result<Vec<u8>, AllocError>
        requires { (M.rows medium ≡ replicate 128 blank_row) × (M.count medium ≡ 0) }
        ensures { IfOk result (WritesRest (opened settings) self.entry) }
    {
        self.play(&mut Player::open(medium, settings))
    }

    /// Plays the lines that are left over a blank medium of the kind that they begin with.
    fn play_from(self, beginning: Beginning) -> Result<Vec<u8>, AllocError>
        ensures { IfOk result (WritesRest (opened beginning.settings) self.entry) }
    {
        let settings = beginning.settings;
        let mut cells = [0xFF; 4096];
        // No `unwrap`: the proof follows no call that takes a result which holds lent bytes either way.
        let Ok(checked) = Cells::check(&mut cells) else {
            unreachable!();
        };
        // A match: each kind of medium is a type of its own.
        match beginning.kind {
            MediumKind::Flash => self.play_over(Flash::over(checked), settings),
            MediumKind::Sectors => self.play_over(Sectors::over(checked), settings),
        }
    }

    /// Plays the lines that are left, from the one that begins on, and gives all that is written then.
    pub(crate) fn play_all(mut self) -> Result<Vec<u8>, AllocError>
        ensures { IfOk result (WritesRest unopened self.entry) }
    {
        // No `for` over `&mut self.reader`: where it returns early, the proof does not know which lines are left.
        while let Some(item) = self.reader.next_item() {
            match begin(item) {
                Ok(beginning) => return self.play_from(beginning),
                Err(reply) => reply.write_to(&mut self.out)?,
            }
        }
        Ok(self.out)
    }
}
