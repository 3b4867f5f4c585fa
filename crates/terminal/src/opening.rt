ghost use Rattle.std.specs.Prelude.{◌≡◌, Option};
ghost use Rattle.rules.specs.Terminal.{Indicator as TheIndicator, opening, done, acts};
ghost use Rattle.rules.specs.Promise.{KeepsRecords};
ghost use Rattle.rules.specs.Laws.{VerifiesWhatIsFound, PrintsWhatIsFound, FirstStoreIsAccepted};
ghost use Rattle.loads.specs.SettingsOf.{settings_of};
ghost use Rattle.terminal.specs.Worlds.{world, world_with, ActsAlone};

use crate::body::Terminal;
use indicator::Indicator;
use loads::Settings;
use media::Medium;

impl<M: Medium> Terminal<M> {
    /// Opens a terminal over a medium as it is: waiting, with zero 0, no tare and an empty window.
    ///
    /// `law` is the law over runs: after any list of calls and power cuts that begins on a blank medium, each acknowledged
    /// record that no release let go is found in exactly one row, each record that is found was weighed and stored, the memory
    /// is in order, numbers differ and rise, and each load is recorded once. The calls of such a list are those of a terminal,
    /// each by the equation that its contract states.
    ///
    /// The other theorems are of single calls: a line is confirmed exactly when a record that is found has that line
    /// (`confirms`); the number of a record that is found prints its line, which is confirmed (`prints`); on a blank medium a
    /// lawful record is stored (`accepts`).
    pub fn open(medium: M, settings: Settings) -> Terminal<M>
        ensures opens { (on : Option TheIndicator) → acts (opening (settings_of settings)) (world_with M.rows M.count medium on) ≡ (done, world M.rows M.count result) }
        ensures medium { result.medium ≡ medium }
        ensures law { KeepsRecords }
        ensures confirms { VerifiesWhatIsFound }
        ensures prints { PrintsWhatIsFound }
        ensures accepts { FirstStoreIsAccepted }
    {
        Terminal {
            indicator: Indicator::open(settings),
            medium,
        }
    }

    /// Opens again over the same medium, as it then is: all but the medium is lost, a weighing that is pending included.
    pub fn reopen(&mut self, settings: Settings)
        ensures { ActsAlone M.rows M.count (opening (settings_of settings)) self.old done self.new }
    {
        self.indicator = Indicator::open(settings);
    }

    /// Ends the terminal, and gives the medium back as it is, its count too.
    pub fn close(self) -> M
        ensures { result ≡ self.medium }
    {
        let Terminal {
            indicator: _,
            medium,
        } = self;
        medium
    }
}
