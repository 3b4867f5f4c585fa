//! The rules of a weighbridge terminal over an alibi memory.
//!
//! The rules stand in specs/ (specs/Lib.antt says in which order to read them), and other crates cite them in their contracts.
//! The functions below do nothing: the contract of each is a theorem about the rules, so that the check asks for its proof.

#![tactic(auto)]

mod blank;
mod decimal;
mod fault;
mod kind;
mod layer;

ghost use Rattle.rules.specs.Laws.{RoundsToNearest, PricesToNearest, StableIsWithinFive, CheckPassesGoodSettings, PackedRowsRead, ReadRowsArePacked, PackingsDiffer, WornRowsAreWhole, BlankRowsAreNotIntact, JudgeFindsIntactRows, NewestIsLargest, OrderIsRising, NumbersDiffer, NextRowIsNext, NextRowIsBlank, StoreKeepsOrder, CutStoreKeepsOrder, ReleasesOldPages, ErasesWholePages, ReleaseKeepsOrder, CutReleaseKeepsOrder, LinesHave76Bytes, VerifiesWhatIsFound, LinesDiffer, PrintsWhatIsFound, FirstStoreIsAccepted, LinesAreTheTrace, LinesEndAtLineFeeds, KindMakesNoDifference};
ghost use Rattle.rules.specs.Cases.{WorkedCases, WorkedLines};
ghost use Rattle.rules.specs.Promise.{KeepsRecords};

pub use blank::is_blank;
pub use decimal::read_decimal;
pub use fault::Fault;
pub use kind::{MediumKind, NoKind};
pub use layer::Layer;

/// The cases worked by hand are what the rules compute.
pub fn worked_cases_hold()
    ensures { WorkedCases }
{}

/// The lines of a trace worked by hand, good and bad, are what the rules read in them.
pub fn worked_lines_hold()
    ensures { WorkedLines }
{}

/// Rounding gives the nearest whole, ties away from zero.
pub fn rounds_to_nearest()
    ensures { RoundsToNearest }
{}

/// A price is the nearest cent, ties up.
pub fn prices_to_nearest()
    ensures { PricesToNearest }
{}

/// A window is stable exactly when no two of its samples lie more than 5 tenths apart.
pub fn stable_is_within_five()
    ensures { StableIsWithinFive }
{}

/// The check of settings passes those that have a class, one of the six intervals and a largest load of the class, and no others.
pub fn check_passes_good_settings()
    ensures { CheckPassesGoodSettings }
{}

/// The row of a lawful record reads back as that record.
pub fn packed_rows_read()
    ensures { PackedRowsRead }
{}

/// A row that reads as a record is the packing of that record, which is lawful.
pub fn read_rows_are_packed()
    ensures { ReadRowsArePacked }
{}

/// Two lawful records with one packing are the same.
pub fn packings_differ()
    ensures { PackingsDiffer }
{}

/// A row that a cut left with more ones than its packing is not intact.
pub fn worn_rows_are_whole()
    ensures { WornRowsAreWhole }
{}

/// A blank row is not intact.
pub fn blank_rows_are_not_intact()
    ensures { BlankRowsAreNotIntact }
{}

/// The judge of a row finds a record in an intact row, and in no other.
pub fn judge_finds_intact_rows()
    ensures { JudgeFindsIntactRows }
{}

/// The newest record is the intact one with the largest number, in the lowest row among equals.
pub fn newest_is_largest()
    ensures { NewestIsLargest }
{}

/// The memory is in order exactly when along the round numbers strictly rise and stamps never fall.
pub fn order_is_rising()
    ensures { OrderIsRising }
{}

/// With the memory in order, no two rows hold records with one number.
pub fn numbers_differ()
    ensures { NumbersDiffer }
{}

/// The next row is the first free row of the newest record's page, else of the first page of the round, if that page holds no record.
pub fn next_row_is_next()
    ensures { NextRowIsNext }
{}

/// The next row is a row of the memory, and blank.
pub fn next_row_is_blank()
    ensures { NextRowIsBlank }
{}

/// A store leaves a memory that is in order in order.
pub fn store_keeps_order()
    ensures { StoreKeepsOrder }
{}

/// So does a cut inside a store.
pub fn cut_store_keeps_order()
    ensures { CutStoreKeepsOrder }
{}

/// A release erases exactly the pages along the round that are not blank, up to the first at which it stops.
pub fn releases_old_pages()
    ensures { ReleasesOldPages }
{}

/// An erase leaves the rows of its pages blank and all others as they were.
pub fn erases_whole_pages()
    ensures { ErasesWholePages }
{}

/// A release leaves a memory that is in order in order, and the newest record in its row.
pub fn release_keeps_order()
    ensures { ReleaseKeepsOrder }
{}

/// So does a cut inside a release, where each row is worn from the packing of some lawful record.
pub fn cut_release_keeps_order()
    ensures { CutReleaseKeepsOrder }
{}

/// The ticket line of a lawful record has 76 bytes.
pub fn lines_have_76_bytes()
    ensures { LinesHave76Bytes }
{}

/// With the memory in order, verify accepts exactly the lines of the records that are found.
pub fn verifies_what_is_found()
    ensures { VerifiesWhatIsFound }
{}

/// With the memory in order, no two records that are found have one line.
pub fn lines_differ()
    ensures { LinesDiffer }
{}

/// With the memory in order, the line of a record that is found is printed for its number, and verify confirms it.
pub fn prints_what_is_found()
    ensures { PrintsWhatIsFound }
{}

/// On a blank medium the pending record is stored in row 0 under number 1.
pub fn first_store_is_accepted()
    ensures { FirstStoreIsAccepted }
{}

/// The lines of a trace, one after another, are the trace.
pub fn lines_are_the_trace()
    ensures { LinesAreTheTrace }
{}

/// Each line of a trace has bytes, and a line feed at its end and nowhere else; the last may have none. No other lines make the trace.
pub fn lines_end_at_line_feeds()
    ensures { LinesEndAtLineFeeds }
{}

/// Two traces that differ only in the kind of the medium write the same bytes.
pub fn kind_makes_no_difference()
    ensures { KindMakesNoDifference }
{}

/// The law over runs: after any calls and power cuts the memory keeps its records.
pub fn keeps_records()
    ensures { KeepsRecords }
{}
