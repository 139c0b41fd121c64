//! Asks of claims whether they hold for every packet.
pub(crate) mod claim;

use crate::asking::Asking;
use crate::claims::claim::{AnsweredClaims, Claim, ClaimAnswer, Counterexample};
use crate::walking::walk::Walk;
use crate::walking::walks_of;
use fields::Words;
use questions::{BoxedTable, Claimed, Need, Subject, WrittenPacket};
use rulesets::{Dump, OneDump, stand_in, table_with};
use std::alloc::AllocError;
use std::io::IsTerminal;
use std::rt::Clock;
use table::Verdict;

// A table in which a verdict stands in for those of targets' own.
#[derive(Drop)]
struct StandIn {
    verdict: Verdict,
    boxed: BoxedTable,
}

// The table of a verdict, among some.
fn table_of(tables: &[StandIn], verdict: Verdict) -> Option<&BoxedTable> {
    for table in tables {
        if table.verdict == verdict {
            return Some(&table.boxed);
        }
    }
    None
}

// The verdict that stands in for targets' own in a claim about a dump: DROP where it has none, as its table has it.
fn stand_in_of(dump: &Dump, claim: &Claim) -> Option<Verdict> {
    if !dump.has_own_verdicts() {
        return Some(Verdict::Drop);
    }
    stand_in(claim.forbidden.as_slice(), claim.forbids_own)
}

// Adds the table of the verdict that stands in for targets' own in a claim, unless it is that of the dump or there.
fn add_table<R: Clock, E: Print + IsTerminal>(
    asking: &Asking<'_, R, E>,
    dump: &Dump,
    claim: &Claim,
    tables: &mut Vec<StandIn>,
) -> Result<(), AllocError> {
    let Some(verdict) = stand_in_of(dump, claim) else {
        return Ok(());
    };
    if verdict == Verdict::Drop || table_of(tables.as_slice(), verdict).is_some() {
        return Ok(());
    }
    if let Some(boxed) = table_with(asking.alloc(), dump, verdict)? {
        tables.push(StandIn { verdict, boxed })?;
    }
    Ok(())
}

// The dump of which a claim is asked, if targets' own verdicts can be told from those that it forbids.
fn subject_of<'d>(dump: &'d Dump, claim: &Claim, tables: &'d [StandIn]) -> Option<Subject<'d>> {
    match stand_in_of(dump, claim) {
        None => None,
        Some(Verdict::Drop) => Some(dump.subject()),
        Some(verdict) => match table_of(tables, verdict) {
            Some(boxed) => Some(dump.read_as(boxed)),
            None => None,
        },
    }
}

// A walk of a packet where these answers are right, if it is known.
fn walk_of<R: Clock, E: Print + IsTerminal>(
    asking: &Asking<'_, R, E>,
    one: &OneDump,
    words: &Words,
    given: &[Need],
) -> Result<Option<Walk>, AllocError> {
    let Ok(packet) = WrittenPacket::read(words, 0) else {
        return Ok(None);
    };
    match walks_of(asking, &one.dump, &one.open, &packet, given)? {
        Some(mut walks) => Ok(walks.pop()),
        None => Ok(None),
    }
}

// The packet that these words write, which gets a forbidden verdict where these answers are right, with its walk and the answers that this hangs on.
fn with_walk<R: Clock, E: Print + IsTerminal>(
    asking: &Asking<'_, R, E>,
    one: &OneDump,
    words: Words,
    given: Vec<Need>,
) -> Result<Counterexample, AllocError> {
    let walk = walk_of(asking, one, &words, given.as_slice())?;
    let mut given = match &walk {
        Some(walk) => walk.given.as_slice().to_vec(asking.alloc())?,
        None => given,
    };
    given.sort_unstable_by_key(|need| need.condition);
    Ok(Counterexample { words, given, walk })
}

// Asks of a claim whether it holds.
fn ask_claim<R: Clock, E: Print + IsTerminal>(
    asking: &Asking<'_, R, E>,
    one: &OneDump,
    claim: &Claim,
    tables: &[StandIn],
) -> Result<ClaimAnswer, AllocError> {
    let Some(subject) = subject_of(&one.dump, claim, tables) else {
        return Ok(ClaimAnswer::Unclear);
    };
    match asking.claimed(&subject, &claim.given, claim.forbidden.as_slice())? {
        Claimed::Holds => Ok(ClaimAnswer::Holds),
        Claimed::Unclear => Ok(ClaimAnswer::Unclear),
        Claimed::Fails(words, answers) => {
            let given = one.open.shown(asking.alloc(), &answers)?;
            Ok(ClaimAnswer::Fails(with_walk(asking, one, words, given)?))
        }
    }
}

/// The first of some claims about a dump that can't be asked, since a target's own verdict can't be told from those that it forbids.
pub fn first_untold<'c>(dump: &Dump, claims: &'c [Claim]) -> Option<&'c Claim> {
    for claim in claims {
        if stand_in_of(dump, claim).is_none() {
            return Some(claim);
        }
    }
    None
}

/// Asks of each of some claims whether it holds for every packet. One of `first_untold` is unclear.
///
/// # Errors
///
/// `AllocError` where memory was refused.
pub fn ask_claims<R: Clock, E: Print + IsTerminal>(
    asking: &mut Asking<'_, R, E>,
    one: &OneDump,
    claims: &[Claim],
) -> Result<AnsweredClaims, AllocError> {
    asking.begin(claims.len());
    let mut tables = Vec::new(asking.alloc());
    let mut answers = Vec::new(asking.alloc());
    for claim in claims {
        asking.next();
        add_table(asking, &one.dump, claim, &mut tables)?;
        answers.push(ask_claim(asking, one, claim, tables.as_slice())?)?;
    }
    Ok(AnsweredClaims { answers })
}
