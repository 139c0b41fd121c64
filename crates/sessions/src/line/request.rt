//! What a line of a session asks for, by its first word and the words after it.
ghost use Rattle.std.specs.Prelude.{◌≡◌, ◌≢◌, [], drop, length, map, slice_index_or};
ghost use Rattle.restore.specs.Sequence.{Gives};
ghost use Rattle.sessions.specs.line.Fault.{is_out_of_memory};
ghost use Rattle.sessions.specs.line.Request.{ask, opening, request_of, run, save, show};
ghost use Rattle.sessions.specs.steps.Lines.{meaning};

use crate::line::fault::Fault;
use crate::line::opening::Opening;
use fields::{Packet, Words};
use restore::{Command, CommandFault, RestoreFault};
use std::alloc::Global;

// What a line asks for. The words that it was read from are lent to it.
#[derive(Drop)]
pub(crate) enum Request<'a> {
    // `iptables`: a command.
    Run(Command<'a>),
    // `iptables-save`: a listing.
    Save,
    // `iptables-restore`: a restore that the next lines hold.
    Open(Opening),
    // `packet`: the walk of a packet.
    Ask(Packet),
    // `lines`: the classifier of a chain.
    Show(&'a [u8]),
}

// The words after `iptables`.
fn run<'a>(alloc: Global, words: &'a Words) -> Result<Request<'a>, Fault>
    ensures { Gives is_out_of_memory meaning result (run (length words.now) (drop 1 words.now)) }
{
    match Command::read(alloc, words, 1) {
        Ok(command) => Ok(Request::Run(command)),
        Err(fault) => Err(Fault::of_line(RestoreFault::Command(fault))),
    }
}

// No word stands after `iptables-save`.
fn save<'a>(words: &'a Words) -> Result<Request<'a>, Fault>
    requires { words.now ≢ [] }
    ensures { Gives is_out_of_memory meaning result (save (drop 1 words.now)) }
{
    if words.len() != 1 {
        return Err(Fault::Line(RestoreFault::Command(CommandFault::WordCount)));
    }
    Ok(Request::Save)
}

// The words after `iptables-restore`.
fn opening<'a>(words: &'a Words) -> Result<Request<'a>, Fault>
    ensures { Gives is_out_of_memory meaning result (opening (drop 1 words.now)) }
{
    match Opening::read(words) {
        Some(opening) => Ok(Request::Open(opening)),
        None => Err(Fault::BadRestoreLine),
    }
}

// The words after `packet`.
fn ask<'a>(words: &'a Words) -> Result<Request<'a>, Fault>
    ensures { Gives is_out_of_memory meaning result (ask (drop 1 words.now)) }
{
    match Packet::read(words, 1) {
        Ok(packet) => Ok(Request::Ask(packet)),
        Err(fault) => Err(Fault::Packet(fault)),
    }
}

// One word stands after `lines`, the name of a chain.
fn show<'a>(words: &'a Words) -> Result<Request<'a>, Fault>
    requires { words.now ≢ [] }
    ensures { Gives is_out_of_memory meaning result (show (drop 1 words.now)) }
{
    if words.len() != 2 {
        return Err(Fault::Line(RestoreFault::Command(CommandFault::WordCount)));
    }
    Ok(Request::Show(words.get(1)))
}

impl<'a> Request<'a> {
    // What the words of a line ask for, by the first of them. It takes memory for the rule of a command alone.
    #[tactic(auto, unfolding(crate::specs::line::Request::request_of))]
    pub(crate) fn read(alloc: Global, words: &'a Words) -> Result<Request<'a>, Fault>
        ensures { Gives is_out_of_memory meaning result (request_of words.now) }
    {
        if words.is_empty() {
            return Err(Fault::UnknownLine);
        }
        let first = words.get(0);
        if first == b"iptables".as_slice() {
            return run(alloc, words);
        }
        if first == b"iptables-save".as_slice() {
            return save(words);
        }
        if first == b"iptables-restore".as_slice() {
            return opening(words);
        }
        if first == b"packet".as_slice() {
            return ask(words);
        }
        if first == b"lines".as_slice() {
            return show(words);
        }
        Err(Fault::UnknownLine)
    }
}
