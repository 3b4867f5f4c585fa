use loads::Settings;
use media::Medium;
use terminal::Terminal;

/// A terminal that plays the lines of a trace.
#[derive(Drop)]
pub struct Player<M: Medium> {
    pub(crate) terminal: Terminal<M>,
    pub(crate) settings: Settings,
}
