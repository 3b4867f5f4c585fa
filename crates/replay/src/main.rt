//! Replays a trace from standard input over a terminal, and writes what its lines write.

#![tactic(auto)]

use arrayvec::ArrayVec;
use player::{LONGEST_TRACE, replay};
use std::io::{Read, Write};

fn main(rt: HostRuntime) -> anyhow::Result<()> {
    let mut trace = ArrayVec::<u8, LONGEST_TRACE>::new();
    let mut input = rt.stdin().take(LONGEST_TRACE as u64);
    let mut block = [0; 4096];
    // A turn for each byte that there may be, and one for the end.
    for _ in 0..=LONGEST_TRACE {
        let size = input.read(&mut block)?;
        if size == 0 {
            break;
        }
        trace.write_all(&block[..size])?;
    }
    let written = replay(rt.alloc(), trace.as_slice())?;
    rt.stdout().write_all(&written)?;
    Ok(())
}
