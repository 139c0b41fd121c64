//! Laws of tables: the contract of each call is the law, and it does nothing else.

ghost use Rattle.table.specs.edits.Headline.{CallsLeaveWhatTheyAccept, RefusedCallsChangeNothing};
ghost use Rattle.table.specs.edits.Headline.{ChainsHaveOneListOfClassifiers, OutOfMemoryIsNoCause};
ghost use Rattle.table.specs.walk.Cases.{WalksByCases, WalksInOneWay};

use classify::rules_have_one_classifier;

/// The law of every list of editing calls of a `Table`: the chains are those that the accepted calls leave, in order,
/// as plain list edits; a refused call changes nothing; no call is refused for memory where another cause refuses it;
/// and the classifiers are those of the chains, whatever edits led to them.
///
/// With `Table::stands`, `Table::verdict` and `Table::trail` it says what a table shows after any list of edits.
pub fn calls_leave_what_they_accept()
    ensures chains { CallsLeaveWhatTheyAccept }
    ensures refused { RefusedCallsChangeNothing }
    ensures memory { OutOfMemoryIsNoCause }
    ensures classifiers { ChainsHaveOneListOfClassifiers }
{
    rules_have_one_classifier();
}

/// The law of the walk, by the cases of the manual's walk, one rule after another: each packet's walk through a table
/// ends in one way, and `walk` says in which.
pub fn walks_go_by_their_cases()
    ensures is { WalksByCases }
    ensures one { WalksInOneWay }
{}
