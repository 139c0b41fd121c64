//! Listings written to a tap that failed before.
use crate::trouble::{Trouble, expect};
use fields::{Failure, Fuse, FusedWriter, Tap};
use restore::{write_listing, write_rules};
use std::alloc::Global;
use table::Table;

/// A tap whose writer failed at its fourth call.
fn failed(alloc: Global) -> Result<Tap<FusedWriter>, Trouble> {
    let room = Vec::with_capacity(alloc, 64)?;
    let fuse = Fuse::failing(1, 3, Failure::Error);
    let mut output = Tap::new(FusedWriter::new(room, fuse));
    expect(output.put(b"abcd").is_err())?;
    Ok(output)
}

/// `write_listing` and `write_rules` write nothing there, of all chains, of one and of one that isn't there.
pub fn stay_failed(alloc: Global) -> Result<(), Trouble> {
    let table = Table::new(alloc)?;
    for chain in [None, Some(b"INPUT".as_slice()), Some(b"nowhere")] {
        let mut output = failed(alloc)?;
        let listed = write_listing(&table, &mut output).is_ok();
        let written = write_rules(&table, chain, &mut output).is_ok();
        expect(!listed && !written && output.into_device().written() == b"abc".as_slice())?;
    }
    Ok(())
}
