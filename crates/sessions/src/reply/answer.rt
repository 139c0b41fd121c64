//! Answers to lines, and what is printed of each and of a fault.
ghost use Rattle.std.specs.Prelude.{◌≡◌, ℕ};
ghost use Rattle.fields.specs.text.Tap.{Puts};
ghost use Rattle.sessions.specs.line.Fault.{fault_line};
ghost use Rattle.sessions.specs.line.Outcome.{Reply, reply_text};
ghost use Rattle.sessions.specs.line.Executed.{HasChain, IsIndex, IsReply, OnTrail, name_at};
ghost use Rattle.sessions.specs.Replies.{trail_text};
ghost use Rattle.restore.specs.Listing.{rules_listing};

use crate::line::fault::Fault;
use crate::reply::lines::write_lines;
use crate::reply::walk::write_walk;
use fields::{Tap, WriteFailed};
use itoa::Buffer;
use restore::{write_listing, write_rules};
use std::io::Write;
use table::{Table, Trail};

/// What is to be printed of a line that wasn't refused. The place of a chain is that in the table's listing, from 0.
#[derive(Drop)]
pub(crate) enum Answer {
    /// Nothing.
    Nothing,
    /// What `-S` lists, of the chain at a place or of all.
    Rules(Option<usize>),
    /// The listing.
    Listing,
    /// The walk of a packet.
    Walk(Trail),
    /// The classifier of the chain at a place.
    Lines(usize),
}

// Writes what `-S` lists, of the chain at a place or of all.
fn write_rules_at<W: Write>(
    table: &Table,
    place: Option<usize>,
    output: &mut Tap<W>,
) -> Result<(), WriteFailed>
    requires { IsIndex table.now.table place }
    ensures { Puts W.contents output.old output.new result (rules_listing table.now.table (name_at table.now.table place)) }
{
    match place {
        None => write_rules(table, None, output),
        Some(place) => write_rules(table, Some(table.chain_name(place)), output),
    }
}

// Writes the line that reports a fault of a line.
fn write_fault<W: Write>(number: u64, fault: Fault, output: &mut Tap<W>) -> Result<(), WriteFailed>
    ensures { Puts W.contents output.old output.new result (fault_line number fault) }
{
    let mut buffer = Buffer::new();
    output.put_all(&[
        b"line ",
        buffer.format(number).as_bytes(),
        b": ",
        fault.text(),
        b"\n",
    ])
}

/// Writes what came of line `number`, from the table that the line left: its answer, or `line N: CODE text`. It takes time
/// linear in what it writes.
///
/// # Errors
///
/// `WriteFailed` where the writer failed or has failed before; what it took then is a beginning of the reply.
pub(crate) fn write_reply<W: Write>(
    table: &Table,
    number: u64,
    reply: Result<Answer, Fault>,
    output: &mut Tap<W>,
) -> Result<(), WriteFailed>
    requires { HasChain table.now.table reply }
    ensures said { (said : Reply) → IsReply table.now.table reply said → Puts W.contents output.old output.new result (reply_text number said) }
    ensures trail { OnTrail reply (λ trail. Puts W.contents output.old output.new result (trail_text table.now.table trail)) }
{
    match reply {
        Ok(Answer::Nothing) => output.put(b""),
        Ok(Answer::Rules(place)) => write_rules_at(table, place, output),
        Ok(Answer::Listing) => write_listing(table, output),
        Ok(Answer::Walk(trail)) => write_walk(table, &trail, output),
        Ok(Answer::Lines(place)) => write_lines(table, place, output),
        Err(fault) => write_fault(number, fault, output),
    }
}
