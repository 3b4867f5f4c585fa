//! The pages that a release erases, and the release.

ghost use Rattle.std.specs.Prelude.{◌≡◌, ◌+◌, ◌<◌, [], ◌∷◌, ◌++◌, length};
ghost use Rattle.rules.specs.Memory.{stops_at, released_pages};
ghost use Rattle.memory.specs.Releases.{pages_of, page_at, releases};

use crate::page::{Page, all_blank, dated_from};
use crate::pages::Pages;
use crate::seen::Seen;
use media::Medium;

impl Pages {
    /// The i-th of the pages, from 0 on; none where there are not so many.
    pub fn page(self, i: usize) -> Option<usize>
        ensures { result ≡ page_at (pages_of self) i }
    {
        self.as_slice().get(i).copied()
    }

    /// The pages.
    fn as_slice(&self) -> &[usize]
        ensures { result.now ≡ pages_of self.now }
    {
        &self.list[..self.len]
    }

    /// No page.
    fn none() -> Pages
        ensures { pages_of result ≡ [] }
    {
        Pages {
            list: [0; 64],
            len: 0,
        }
    }

    /// Adds a page.
    fn push(&mut self, page: usize)
        requires { length (pages_of self.old) < 64 }
        ensures { pages_of self.new ≡ pages_of self.old ++ (page ∷ []) }
    {
        self.list[self.len] = page;
        self.len += 1;
    }
}

impl<M: Medium> Seen<'_, M> {
    /// Whether a release for a day stops before a page: it holds a record of that day or later, or the newest record.
    fn stops_at(&self, day: u16, page: Page) -> bool
        ensures { result ≡ stops_at (M.rows self.now.medium.now) day page.number }
    {
        dated_from(self.medium, day, page)
            || self.newest.is_some_and(|entry| entry.page() == page.number)
    }

    /// The pages that a release for a day erases.
    fn released_pages(&self, day: u16) -> Pages
        ensures { pages_of result ≡ released_pages (M.rows self.now.medium.now) day }
    {
        let mut found = Pages::none();
        for number in self.pages() {
            let page = Page { number };
            if self.stops_at(day, page) {
                break;
            }
            if !all_blank(self.medium, page) {
                found.push(number);
            }
        }
        found
    }
}

/// The pages that a release for a day erases.
pub fn released_pages<M: Medium>(m: &M, day: u16) -> Pages
    ensures { pages_of result ≡ released_pages (M.rows m.now) day }
{
    Seen::of(m).released_pages(day)
}

/// Erases the pages of a release for a day, one write each; answers how many.
pub fn release<M: Medium>(m: &mut M, day: u16) -> usize
    ensures says { releases (M.rows m.old) (M.count m.old) day ≡ (result, M.rows m.new, M.count m.new) }
    // as in storing.rt: whoever writes owes this clause, a fact about the call
    ensures lender { M.lender m.new ≡ M.lender m.old }
{
    let found = released_pages(&*m, day);
    let pages = found.as_slice();
    for &page in pages {
        // a page of the round is one of the memory's
        m.erase(page).unwrap();
    }
    pages.len()
}
