ghost use Rattle.std.specs.Prelude.{◌≡◌, ℕ, Option, IfOk};
ghost use Rattle.rules.specs.Memory.{Rows};
ghost use Rattle.rules.specs.Media.{Outcome};
ghost use Rattle.rules.specs.Records.{Record as TheRecord};
ghost use Rattle.memory.specs.Faults.{outcome, found as record_found};
ghost use Rattle.memory.specs.Releases.{releases};
ghost use Rattle.tours.specs.Fills.{fills};

use crate::lines::Lines;
use media::{Cells, Flash, Medium, Sectors};
use memory::{MemoryFault, release};
use records::Record;
use rules::MediumKind;
use std::io;

/// A medium that is visited, and the lines that are written of it.
#[derive(Drop)]
pub struct Visit<'a, M: Medium + Drop> {
    pub lines: Lines<'a>,
    pub medium: M,
}

impl<M: Medium + Drop> Visit<'_, M> {
    /// Writes how often the medium was written.
    pub fn tell_writes(&self) -> io::Result<()> {
        self.lines
            .tell(format_args!("{} writes", self.medium.writes()))
    }

    /// Releases up to a day, and writes how many pages were erased.
    pub fn tell_release(&mut self, day: u16) -> io::Result<()>
        ensures says { (pages : ℕ) × (releases (M.rows self.old.medium) (M.count self.old.medium) day ≡ (pages, M.rows self.new.medium, M.count self.new.medium)) }
        // Whoever writes to a medium owes this clause: it is a fact about the call, not about a value.
        ensures lender { M.lender self.new.medium ≡ M.lender self.old.medium }
    {
        let erased = release(&mut self.medium, day);
        self.lines.tell(format_args!("release for day {day}: pages erased {erased}"))
    }

    /// Looks for some numbers, and writes the days of their records.
    pub fn tell_found<C: Calls>(&self, numbers: &[u64]) -> io::Result<()> {
        for &number in numbers {
            let what = format_args!("record {number}");
            match C::find(&self.medium, number) {
                Ok(found) => self
                    .lines
                    .tell(format_args!("{what} is of day {}", found.day))?,
                Err(fault) => self.lines.tell_refused(what, fault)?,
            }
        }
        Ok(())
    }

    /// Stores the example once a day, for 100 days at most, until it is refused; answers the first day on which nothing was stored.
    pub fn fill<C: Calls>(&mut self, first: u16) -> io::Result<u16>
        ensures says { (fills C.stores (M.rows self.old.medium) (M.count self.old.medium) first).1 ≡ (M.rows self.new.medium, M.count self.new.medium) }
        ensures day { IfOk result (λ day. day ≡ (fills C.stores (M.rows self.old.medium) (M.count self.old.medium) first).0) }
        ensures lender { M.lender self.new.medium ≡ M.lender self.old.medium }
    {
        let end = first.saturating_add(100);
        for day in first..end {
            if let Err(fault) = C::store(&mut self.medium, day) {
                self.lines.tell_refused(format_args!("day {day}"), fault)?;
                return Ok(day);
            }
        }
        Ok(end)
    }
}

/// How a tour stores and finds, over whatever medium.
pub trait Calls {
    /// What a store does: the outcome, and what rows and count are then.
    ghost stores: { Rows → (writes day : ℕ) → Outcome × Rows × ℕ };

    /// What a find answers: the outcome, and the record of that number.
    ghost finds: { Rows → (number : ℕ) → Outcome × Option TheRecord };

    /// Stores the example of a day.
    fn store<M: Medium>(memory: &mut M, day: u16) -> Result<(), MemoryFault>
        ensures says { stores (M.rows memory.old) (M.count memory.old) day ≡ (outcome result, M.rows memory.new, M.count memory.new) }
        ensures lender { M.lender memory.new ≡ M.lender memory.old };

    /// The record of a number, if it is found.
    fn find<M: Medium>(memory: &M, number: u64) -> Result<Record, MemoryFault>
        ensures { finds (M.rows memory.now) number ≡ (outcome result, record_found result) };
}

/// A tour of a medium, of whatever kind.
pub trait Tour {
    /// Visits a medium, from its first content on.
    fn visit<M: Medium + Drop>(visit: Visit<'_, M>) -> io::Result<()>;
}

/// Makes a tour over flash and over sectors of this content, and writes whether the bytes are the same in the end.
pub fn tour_both<T: Tour>(rt: &HostRuntime, content: [u8; 1024]) -> io::Result<()> {
    let mut one = content;
    let mut other = content;
    // No `unwrap`: the proof follows no call that takes a result which holds lent bytes either way.
    let Ok(cells) = Cells::check(&mut one) else {
        unreachable!();
    };
    T::visit(Visit {
        lines: Lines {
            rt,
            kind: MediumKind::Flash,
        },
        medium: Flash::over(cells),
    })?;
    let Ok(cells) = Cells::check(&mut other) else {
        unreachable!();
    };
    T::visit(Visit {
        lines: Lines {
            rt,
            kind: MediumKind::Sectors,
        },
        medium: Sectors::over(cells),
    })?;
    println!(rt; "the bytes are equal: {}", one == other)
}
