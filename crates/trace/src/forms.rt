//! The words of a line, one after another, and what they ask for.

ghost use Rattle.std.specs.Prelude.{◌≡◌, ◌+◌, take, IfSome, MatchOption, None, option_map};
ghost use Rattle.rules.specs.Trace.{a_byte, next, asks_by, spaced};
ghost use Rattle.trace.specs.Meaning.{meaning, MarksIn, MarkAt, words_left, TakesWord};

use crate::command::Command;
use crate::fields::Fields;
use crate::words;

impl<'a> Fields<'a> {
    /// The next word.
    fn word(&mut self) -> Option<&'a [u8]>
        ensures { TakesWord self.old self.new result }
    {
        let rest = self.text.get(self.place..)?;
        let size = words::find(rest, b' ').unwrap_or(rest.len());
        self.place += size + 1;
        Some(&rest[..size])
    }

    /// What is read of the next word.
    fn read<T, R: FnOnce(&'a [u8]) -> Option<T>>(&mut self, read: R) -> Option<T>
        requires { R.IsAlwaysCallable read }
        ensures { (word : _) × TakesWord self.old self.new word × MatchOption word (result ≡ None) (λ w. R.post read w result) }
    {
        self.word().and_then(read)
    }

    /// What the words ask for.
    pub(crate) fn command(&mut self) -> Option<Command<'a>>
        ensures command { option_map meaning result ≡ next a_byte (words_left self.old) asks_by }
        ensures marks { MarksIn self.old.text.now result }
        ensures place { IfSome result (MarkAt (self.old.place + spaced (take 3 (words_left self.old)))) }
    {
        // One match: each letter is followed by other words, so a table of letters would need a function for each.
        let command = match self.read(words::single)? {
            b'B' => Command::Begin {
                kind: self.read(words::kind)?,
                class: self.read(words::number)?,
                kg: self.read(words::number)?,
                max: self.read(words::number)?,
            },
            b'S' => Command::Sample(self.read(words::load)?),
            b'Z' => Command::Zero,
            b'T' => Command::Tare,
            b'P' => Command::Preset(self.read(words::number)? as i32),
            b'N' => Command::ClearTare,
            b'W' => Command::Weigh {
                day: self.read(words::day)?,
                minute: self.read(words::number)?,
                place: self.place,
                mark: self.read(words::mark)?,
                unit_price: self.read(words::number)?,
            },
            b'O' => Command::Reopen,
            b'R' => {
                let day = self.read(words::day)?;
                let today = self.read(words::day)?;
                Command::Release { day, today }
            }
            b'L' => Command::Print(self.read(words::number)?),
            _ => return None,
        };
        (self.place > self.text.len()).then_some(command)
    }
}
