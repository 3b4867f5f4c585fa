//! The row that the next record goes to.

ghost use Rattle.std.specs.Prelude.{◌≡◌, option_map};
ghost use Rattle.rules.specs.Memory.{next_row};
ghost use Rattle.memory.specs.Rounds.{free_in_empty, newest_page, next_page};

use crate::page::{Page, free_in, holds_record};
use crate::seen::Seen;
use media::Medium;

/// The free row of a page, provided that it holds no record.
fn free_in_empty<M: Medium>(m: &M, page: Page) -> Option<usize>
    ensures { result ≡ free_in_empty (M.rows m.now) page.number }
{
    free_in(m, page).filter(|&free| !holds_record(m, page.first_row()..free))
}

impl<M: Medium> Seen<'_, M> {
    /// The page of the newest record.
    fn newest_page(&self) -> Option<Page>
        ensures { option_map (λ p. p.number) result ≡ newest_page (M.rows self.now.medium.now) }
    {
        let entry = self.newest?;
        Some(Page {
            number: entry.page(),
        })
    }

    /// The page after the newest record's, the first after the last.
    fn next_page(&self) -> Page
        ensures { result.number ≡ next_page (M.rows self.now.medium.now) }
    {
        let number = self.first_page();
        if number < self.medium.size() {
            Page { number }
        } else {
            Page { number: 0 }
        }
    }

    /// The free row of the newest record's page, else that of the page after it, unless the memory is full.
    pub(crate) fn next_row(&self) -> Option<usize>
        ensures { result ≡ next_row (M.rows self.now.medium.now) }
    {
        let m = self.medium;
        let after = self.next_page();
        self.newest_page()
            .and_then(|page| free_in(m, page))
            .or_else(|| free_in_empty(m, after))
    }
}

/// The row that the next record goes to, unless the memory is full.
pub fn next_row<M: Medium>(m: &M) -> Option<usize>
    ensures { result ≡ next_row (M.rows m.now) }
{
    Seen::of(m).next_row()
}
