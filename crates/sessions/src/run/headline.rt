//! Laws of a session's table: what the calls do is their contract.
ghost use Rattle.sessions.specs.run.Headline.{Answers, RunsLeaveWhatTheyAccept};

use fields::Packet;
use table::{Table, Trail, Verdict};

/// What a table answers of a packet: its verdict, and its trail, where memory for that wasn't refused.
///
/// The headline of `Session::run` and `Session::restore` says of every packet what these answers are.
pub fn answers(table: &Table, packet: &Packet) -> (Verdict, Option<Trail>)
    ensures { Answers table.now packet.now result.0 result.1 }
{
    let verdict = table.verdict(packet);
    match table.trail(packet) {
        Ok(trail) => (verdict, Some(trail)),
        Err(_) => (verdict, None),
    }
}

/// The law of every list of runs of one session: the headline holds of all of them together. The chains are those of the
/// accepted changes of all runs, in order, as plain list edits; their classifiers are those that a restore of the present
/// listing builds; every packet is answered by the walk through these chains; and what was refused changed nothing. Each
/// run begins from the table that the one before left, whatever came of its devices.
///
/// With the clause `runs` of `Session::run` and `Session::restore`, which gives each run its lines, and `stands` of
/// `Session::table`, it says what a session shows after any list of runs.
#[tactic(auto, using(crate::proofs::laws::run::HeadlineLaws::runs_leave))]
pub fn runs_leave_what_they_accept()
    ensures { RunsLeaveWhatTheyAccept }
{}
