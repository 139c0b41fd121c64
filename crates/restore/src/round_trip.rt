//! The law that a listing restores the table: the contract of the call is the law.
ghost use Rattle.restore.specs.Listing.{RestoresAsEqual, CommitsAsEqual};

use rules::lines_of_rules_read_back;
use table::tables_are_made_by_edits;

/// The law that the listing of a table restores it: from the empty table all its lines are read without a refusal, as
/// the table, and so are the lines between `*filter` and `COMMIT` as one section. It does nothing.
pub fn listings_restore()
    ensures restores { RestoresAsEqual }
    ensures commits { CommitsAsEqual }
{
    lines_of_rules_read_back();
    tables_are_made_by_edits();
}
