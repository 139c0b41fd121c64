//! The laws of lists of lines and of lists of calls: the contract of each call is the law, and it does nothing else.
ghost use Rattle.restore.specs.Listing.{ListingsRestoreClassifiers};
ghost use Rattle.restore.specs.Calls.{CallsLeaveWhatTheyAccept, RefusedCallsChangeNothing};
ghost use Rattle.restore.specs.sections.Lines.{LinesLeaveWhatTheyRestore, RefusedLinesChangeNothing};

use crate::round_trip::listings_restore;
use table::{calls_leave_what_they_accept, walks_go_by_their_cases};

/// The law of every list of lines handed to a `Restore`: lines of which none is refused leave the table that plain list
/// edits give, and a line that is refused changes nothing; and the classifiers of a table are those that its listing
/// restores into an empty table.
///
/// With `Table::stands`, `Table::verdict` and `Table::trail` it says what a table shows after any list of restores.
pub fn restores_leave_what_they_accept()
    ensures lines { LinesLeaveWhatTheyRestore }
    ensures refused { RefusedLinesChangeNothing }
    ensures classifiers { ListingsRestoreClassifiers }
{
    listings_restore();
    calls_leave_what_they_accept();
}

/// The law of every list of calls that edit a table, in any order and refused ones among them: editing calls of
/// `Table` and `apply`, and calls that only read it; transactions that are begun or refused for want of memory, given
/// lines, committed or abandoned; lines and ends of restores; several of both at once, with any other calls in
/// between. The chains are those of the accepted changes, as plain list edits; the listing restores them, with the
/// same classifiers; every packet's walk ends in one way; and a refused call changes nothing.
///
/// A section that is committed puts in place what its lines made of the table as it was when the section began,
/// whatever was done to that table since. Callers have to commit a transaction to the table from which it was begun,
/// and to hand a restore that table with each line of a section.
///
/// With `Table::stands`, `Table::verdict` and `Table::trail` it says what a table shows after any list of calls.
pub fn all_calls_leave_what_they_accept()
    ensures leave { CallsLeaveWhatTheyAccept }
    ensures refused { RefusedCallsChangeNothing }
{
    listings_restore();
    restores_leave_what_they_accept();
    calls_leave_what_they_accept();
    walks_go_by_their_cases();
}
