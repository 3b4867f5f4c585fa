use crate::fault::TraceFault;
use rules::MediumKind;

/// What a line asks for.
#[derive(Clone, Copy, Debug, PartialEq, Eq)]
pub enum Command<'a> {
    /// To check the settings and open over a blank medium.
    Begin {
        kind: MediumKind,
        class: u32,
        kg: u32,
        max: u32,
    },
    /// A load in tenths.
    Sample(i32),
    Zero,
    Tare,
    /// A tare in intervals.
    Preset(i32),
    ClearTare,
    /// The mark is a part of the trace, and begins at the place, counted from the first byte of the trace.
    Weigh {
        day: u16,
        minute: u32,
        mark: &'a [u8],
        place: usize,
        unit_price: u32,
    },
    /// To open again, with the same settings over the same medium.
    Reopen,
    Release {
        day: u16,
        today: u16,
    },
    /// To print the record with this number.
    Print(u32),
}

/// A line of a trace: its number, counted from 1, and what it asks for.
#[derive(Clone, Copy, Debug, PartialEq, Eq)]
pub struct Item<'a> {
    pub line: usize,
    pub asks: Result<Command<'a>, TraceFault>,
}
