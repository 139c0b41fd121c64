//! Whether two tables are equal, rule by rule, and need the same.
ghost use Rattle.std.specs.Prelude.{◌≡◌, ◌<◌, ◌↔◌, length, IsTrue};
ghost use Rattle.table.specs.chains.Table.{chain_at};
ghost use Rattle.questions.specs.asked.Alike.{AreEqual};

use crate::foreign::subject::Subject;
use table::Table;

// Whether the policies are equal.
fn have_equal_policies(old: &Table, new: &Table) -> bool
    ensures { IsTrue result ↔ (old.now.table.policies ≡ new.now.table.policies) }
{
    old.stands();
    new.stands();
    for place in 0..3 {
        if old.policy(place) != new.policy(place) {
            return false;
        }
    }
    true
}

// Whether the rules of the chains at a place are equal.
fn have_equal_rules(old: &Table, new: &Table, place: usize) -> bool
    requires old { place < length old.now.table.chains }
    requires new { place < length new.now.table.chains }
    ensures { IsTrue result ↔ ((chain_at old.now.table place).rules ≡ (chain_at new.now.table place).rules) }
{
    let count = old.rule_count(place);
    if new.rule_count(place) != count {
        return false;
    }
    for passed in 0..count {
        if !old
            .rule(place, passed + 1)
            .equals(new.rule(place, passed + 1))
        {
            return false;
        }
    }
    true
}

// Whether the chains at a place are equal.
fn have_equal_chains(old: &Table, new: &Table, place: usize) -> bool
    requires old { place < length old.now.table.chains }
    requires new { place < length new.now.table.chains }
    ensures { IsTrue result ↔ (chain_at old.now.table place ≡ chain_at new.now.table place) }
{
    old.chain_name(place) == new.chain_name(place) && have_equal_rules(old, new, place)
}

// Whether the tables are equal. It takes no memory, and time linear in their rules.
pub(crate) fn are_equal(old: &Table, new: &Table) -> bool
    ensures { IsTrue result ↔ (old.now.table ≡ new.now.table) }
{
    let count = old.chain_count();
    if new.chain_count() != count {
        return false;
    }
    if !have_equal_policies(old, new) {
        return false;
    }
    for place in 0..count {
        if !have_equal_chains(old, new, place) {
            return false;
        }
    }
    true
}

// Whether they are, and their rules need the same. It takes no memory, and time linear in their rules and needs.
pub(crate) fn are_equal_with_needs(old: &Subject<'_>, new: &Subject<'_>) -> bool
    ensures { IsTrue result ↔ AreEqual old.now new.now }
{
    are_equal(&old.boxed.table, &new.boxed.table) && old.needs.equals(new.needs)
}
