//! What is printed at the end of the input.
ghost use Rattle.std.specs.Prelude.{◌≡◌};
ghost use Rattle.table.specs.chains.Table.{Table as TableOf};
ghost use Rattle.sessions.specs.line.Outcome.{last_outcome, restore_end};
ghost use Rattle.sessions.specs.line.Executed.{HasChain, IsReply};

use crate::line::fault::Fault;
use crate::line::mode::Mode;
use crate::reply::answer::Answer;

/// What is printed at the end of a session's input: S3 in a restore that reported no fault, since its end line is missing,
/// and else nothing.
pub(crate) fn last_reply(mode: Mode) -> Result<Answer, Fault>
    ensures reply { (t : TableOf) → IsReply t result (last_outcome t mode).reply }
    ensures place { (t : TableOf) → HasChain t result }
{
    match mode {
        Mode::Outside => Ok(Answer::Nothing),
        Mode::InRestore(_word, _restore) => Err(Fault::EndWordMissing),
        Mode::AfterFault(_word) => Ok(Answer::Nothing),
    }
}

/// What is printed at the end of the input of a restore from the command line: R4 inside a section; else the listing, if
/// `list` asks for it, and nothing after a fault.
pub(crate) fn restore_reply(list: bool, mode: Mode) -> Result<Answer, Fault>
    ensures reply { (t : TableOf) → IsReply t result (restore_end list t mode).reply }
    ensures place { (t : TableOf) → HasChain t result }
{
    match mode {
        Mode::Outside => Ok(Answer::Nothing),
        Mode::InRestore(_word, restore) => match restore.finish() {
            Ok(()) => {
                if list {
                    return Ok(Answer::Listing);
                }
                Ok(Answer::Nothing)
            }
            Err(fault) => Err(Fault::of_line(fault)),
        },
        Mode::AfterFault(_word) => Ok(Answer::Nothing),
    }
}
