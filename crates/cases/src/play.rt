//! Cases played on a session.
use crate::case::{Call, Case, Run};
use crate::fault::Trouble;
use fields::{Fuse, FusedReader, Tap};
use sessions::{RunFault, Session};
use std::alloc::Global;

/// What a run wrote, and its status.
#[derive(Drop)]
pub(crate) struct Ended {
    pub(crate) output: Vec<u8>,
    pub(crate) status: Result<u8, RunFault>,
}

impl Ended {
    /// Whether a run came out as it is written.
    pub(crate) fn is_due(&self, run: &Run) -> bool {
        self.status == Ok(run.status) && self.output == run.output
    }
}

/// A run of a case that came out otherwise than it is written: its place in the case, and what came out.
#[derive(Drop)]
pub(crate) struct Other<'a> {
    pub(crate) place: usize,
    pub(crate) run: &'a Run,
    pub(crate) ended: Ended,
}

/// Plays a case on a new session up to the first run that comes out otherwise.
pub(crate) fn play(alloc: Global, case: &Case) -> Result<Option<Other<'_>>, Trouble> {
    let mut session = Session::new(alloc)?;
    for (place, run) in case.runs.iter().enumerate() {
        let ended = play_run(alloc, &mut session, run);
        if !ended.is_due(run) {
            return Ok(Some(Other { place, run, ended }));
        }
    }
    Ok(None)
}

// Plays a run.
fn play_run(alloc: Global, session: &mut Session, run: &Run) -> Ended {
    let mut input = Tap::new(FusedReader::new(&run.input, Fuse::never(usize::MAX)));
    let mut output = Tap::new(Vec::new(alloc));
    let status = match run.call {
        Call::Session => session.run(&mut input, &mut output),
        Call::Restore(mode) => session.restore(
            mode.noflush,
            mode.test,
            mode.list,
            &mut input,
            &mut output,
        ),
    };
    Ended {
        output: output.into_device(),
        status,
    }
}
