//! Replays every trace of a bundle from standard input, and writes for each case its name and what its trace writes.
//!
//! A line that begins with an equals sign and a space begins a case and names it. The lines up to the next such line are its trace.

#![tactic(auto)]

mod bundle;

use bundle::{first_case, next_case, split_name};
use player::replay;
use std::alloc::Global;
use std::io::{BufWriter, Read, Stdout, Write};

/// In front of the name of a case.
const SIGN: &[u8] = b"= ";

/// Writes the name of a case, and what its trace writes.
fn write_case(heap: Global, case: &[u8], out: &mut BufWriter<Stdout>) -> anyhow::Result<()> {
    let (name, trace) = split_name(case);
    let written = replay(heap, trace)?;
    out.write_all(SIGN)?;
    out.write_all(name)?;
    out.write_all(b"\n")?;
    out.write_all(&written)?;
    Ok(())
}

/// Writes all cases of a bundle, in order.
fn write_cases(heap: Global, bundle: &[u8], out: &mut BufWriter<Stdout>) -> anyhow::Result<()> {
    let mut rest = &bundle[first_case(bundle)..];
    while let Some(named) = rest.strip_prefix(SIGN) {
        let (case, others) = named.split_at(next_case(named));
        write_case(heap, case, out)?;
        rest = others;
    }
    Ok(())
}

fn main(rt: HostRuntime) -> anyhow::Result<()> {
    let mut bundle = Vec::new(rt.alloc());
    rt.stdin().read_to_end(&mut bundle)?;
    let mut out = BufWriter::new(rt.alloc(), rt.stdout())?;
    write_cases(rt.alloc(), &bundle, &mut out)?;
    out.flush()?;
    Ok(())
}
