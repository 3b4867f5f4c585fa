//! Does one piece of the library's work many times over 64 rows or records, for an instruction counter to watch.
//! Arguments: what to do (intact, blank, torn, pack or line) and how many rounds. It writes what it counted.

#![tactic(auto)]

ghost use Rattle.std.specs.Prelude.{◌≡◌, true};
ghost use Rattle.rules.specs.Records.{lawful};
ghost use Rattle.rules.specs.Rows.{packing};
ghost use Rattle.records.specs.RecordsOf.{record_of};

use anyhow::Context;
use records::{Record, Verdict, judge};
use std::alloc::Global;
use std::env;
use tours::example;

/// What is done: rows are judged as they were packed, erased, or with a bit of the check turned; or records are packed, or their lines written.
#[derive(Clone, Copy)]
enum Work {
    Intact,
    Blank,
    Torn,
    Pack,
    Line,
}

/// A word that names no other work names the first.
impl From<&str> for Work {
    fn from(word: &str) -> Work {
        match word {
            "blank" => Work::Blank,
            "torn" => Work::Torn,
            "pack" => Work::Pack,
            "line" => Work::Line,
            _ => Work::Intact,
        }
    }
}

impl Work {
    /// Makes the rows what this work is to judge.
    fn wear(self, rows: &mut [[u8; 32]]) {
        match self {
            Work::Blank => rows.fill([0xFF; 32]),
            Work::Torn => rows.iter_mut().for_each(|row| row[31] ^= 1),
            Work::Intact | Work::Pack | Work::Line => {}
        }
    }

    /// One round of the work.
    fn round(self, heap: Global, all: &[Sample], rows: &[[u8; 32]]) -> anyhow::Result<u64> {
        match self {
            Work::Intact | Work::Blank | Work::Torn => Ok(count_intact(rows)),
            Work::Pack => Ok(sum_packed(all)),
            Work::Line => write_lines(heap, all),
        }
    }
}

/// A record that may be stored.
#[derive(Clone, Copy)]
struct Sample {
    held: Record,
    ghost lawful: { lawful (record_of held) ≡ true },
}

impl Sample {
    /// Its row.
    fn row(&self) -> [u8; 32]
        ensures { result ≡ packing (record_of self.now.held) }
    {
        self.held.pack().unwrap()
    }
}

/// The records 1 to 64.
fn samples(heap: Global) -> anyhow::Result<Vec<Sample>> {
    let mut all = Vec::with_capacity(heap, 64)?;
    // No `map`: of its closure's number it is not known that it is at least 1, so the proof does not close.
    for number in 1..=64 {
        all.push(Sample {
            held: example(number, 9500),
        })?;
    }
    Ok(all)
}

/// Their rows.
fn packed(heap: Global, all: &[Sample]) -> anyhow::Result<Vec<[u8; 32]>> {
    Ok(all.iter().map(Sample::row).collect(heap)?)
}

/// How many of the rows are intact.
fn count_intact(rows: &[[u8; 32]]) -> u64 {
    rows.iter()
        .filter(|row| matches!(judge(row), Verdict::Intact(_)))
        .count() as u64
}

/// The sum of the last bytes of the records' rows.
fn sum_packed(all: &[Sample]) -> u64 {
    all.iter().fold(
        0u64,
        |sum, sample| sum.saturating_add(u64::from(sample.row()[31])),
    )
}

/// The length of the records' lines, one after another.
fn write_lines(heap: Global, all: &[Sample]) -> anyhow::Result<u64> {
    let mut text = Vec::with_capacity(heap, 4864)?;
    for sample in all {
        text.extend_from_slice(&sample.held.line())?;
    }
    Ok(text.len() as u64)
}

fn main(rt: HostRuntime) -> anyhow::Result<()> {
    let mut words = env::args(&rt)?.skip(1);
    let work = Work::from(words.next().context("what to do?")?.as_str());
    let rounds = words
        .next()
        .context("how many rounds?")?
        .as_str()
        .parse::<u32>()?;
    let all = samples(rt.alloc())?;
    let mut rows = packed(rt.alloc(), &all)?;
    work.wear(&mut rows);
    let mut sum = 0u64;
    for _ in 0..rounds {
        sum = sum.saturating_add(work.round(rt.alloc(), &all, &rows)?);
    }
    println!(rt; "{sum}")?;
    Ok(())
}
