//! The program `devices`: taps over readers and writers that count their calls and fail at one. It looks for what no
//! contract says: how often a device is called, and that a tap fails only where a call of its device did.
#![tactic(auto)]

mod reading;
mod table;
mod writing;

use std::alloc::AllocError;
use std::io;

/// Prints whether a case is as expected.
fn tell(rt: &impl Print, name: &str, ended: Result<bool, AllocError>) -> io::Result<()> {
    let end = match ended {
        Ok(true) => "as expected",
        Ok(false) => "another answer",
        Err(_) => "no memory",
    };
    println!(rt; "{name}: {end}")
}

fn main(rt: HostRuntime) -> io::Result<()> {
    let alloc = rt.alloc();
    tell(&rt, "nothing written", writing::nothing(alloc))?;
    tell(&rt, "parts written", writing::parts(alloc))?;
    tell(&rt, "writes that fail", writing::failures(alloc))?;
    tell(&rt, "a full writer", writing::full(alloc))?;
    tell(&rt, "flushes", writing::flushes(alloc))?;
    tell(&rt, "flushes that fail", writing::flush_failures(alloc))?;
    tell(&rt, "100,000 bytes written", writing::long(alloc))?;
    tell(&rt, "a reader asked once", Ok(reading::asked_once()))?;
    tell(&rt, "reads that fail", Ok(reading::failures()))?;
    tell(&rt, "the end of the input", reading::end(alloc))?;
    tell(&rt, "lines too long", reading::too_long(alloc))?;
    tell(
        &rt,
        "a read that fails in a long line",
        reading::failure_in_a_long_line(alloc),
    )?;
    tell(&rt, "a million lines", reading::many_lines(alloc))?;
    tell(&rt, "each read failing in turn", table::reads(alloc))?;
    tell(
        &rt,
        "each write and flush failing in turn",
        table::writes(alloc),
    )
}
