//! Chains of one name in two tables, beside each other: which of their rules both have.
ghost use Rattle.std.specs.Prelude.{◌≡◌, ◌<◌, ◌↔◌, ℕ, true, All, Any, IfOk, IsTrue, OnOk, length};
ghost use Rattle.table.specs.chains.Table.{chain_at, has_chain};
ghost use Rattle.questions.specs.Foreign.{Assignment};
ghost use Rattle.questions.specs.Leaves.{name_at};
ghost use Rattle.questions.specs.Scopes.{answered, table_of, whole_of};
ghost use Rattle.questions.specs.asked.Changes.{IsAligned, IsPairOf};
ghost use Rattle.questions.specs.steps.Shared.{AreSameAt, AreThere, HaveNext, IsAhead, IsBeside, IsNext, IsPaired, HasPlace, marks_on, pair_named};

use crate::foreign::subject::Subject;
use std::alloc::{AllocError, Global};
use table::Table;

// How far ahead of a rule its equal is looked for in the other chain.
const AHEAD: usize = 1024;

// A place in the first table or chain, and one in the second.
#[derive(Clone, Copy)]
pub(crate) struct Places {
    pub old: usize,
    pub new: usize,
}

// What stands next in two chains.
#[derive(Clone, Copy)]
pub(crate) enum Next {
    // Equal rules.
    Shared,
    // A rule that the second chain lacks.
    Went,
    // A rule that the first chain lacks.
    Came,
}

// The first table's rules or the second one's.
#[derive(Clone, Copy)]
pub(crate) enum Side {
    Went,
    Came,
}

// A chain that both tables have, by its place in the first one. A mark says that the other table's chain lacks the rule; so do rules
// beyond the marks.
#[derive(Drop)]
pub(crate) struct Pair {
    pub place: usize,
    pub went: Vec<bool>,
    pub came: Vec<bool>,
}

impl Pair {
    ghost use Rattle.questions.specs.steps.Shared.{Adds};

    // Goes on behind what stands next.
    fn add(&mut self, next: Next) -> Result<(), AllocError>
        ensures { OnOk result (Adds next self.old self.new) }
    {
        match next {
            Next::Shared => {
                self.went.push(false)?;
                self.came.push(false)?;
            }
            Next::Went => self.went.push(true)?,
            Next::Came => self.came.push(true)?,
        }
        Ok(())
    }
}

// Whether the next rules are equal, and need the same.
fn are_equal_at(old: &Subject<'_>, new: &Subject<'_>, chains: Places, passed: Places) -> bool
    requires { HaveNext (table_of old.now) (table_of new.now) chains passed }
    ensures { IsTrue result ↔ AreSameAt (whole_of old.now) (whole_of new.now) chains passed }
{
    let (first, second) = (&old.boxed.table, &new.boxed.table);
    let count = first.rule_count(chains.old);
    prove!(passed.old < count);
    let other = second.rule_count(chains.new);
    prove!(passed.new < other);
    let rule = first.rule(chains.old, passed.old + 1);
    rule.equals(second.rule(chains.new, passed.new + 1))
        && old.needs.at(chains.old, passed.old) == new.needs.at(chains.new, passed.new)
}

// Whether so many rules further on in one of the chains a rule is equal to the next one of the other chain, and needs the same.
fn is_ahead(
    old: &Subject<'_>,
    new: &Subject<'_>,
    chains: Places,
    passed: Places,
    side: Side,
    ahead: usize,
) -> bool
    requires { HaveNext (table_of old.now) (table_of new.now) chains passed }
    ensures { IsTrue result ↔ IsAhead (whole_of old.now) (whole_of new.now) chains passed side ahead }
{
    match side {
        Side::Went => {
            if ahead >= old.boxed.table.rule_count(chains.old) - passed.old {
                return false;
            }
            let further = Places {
                old: passed.old + ahead,
                new: passed.new,
            };
            are_equal_at(old, new, chains, further)
        }
        Side::Came => {
            if ahead >= new.boxed.table.rule_count(chains.new) - passed.new {
                return false;
            }
            let further = Places {
                old: passed.old,
                new: passed.new + ahead,
            };
            are_equal_at(old, new, chains, further)
        }
    }
}

// Which of the next rules is passed: both where they are equal, else the one after which, or within a few more, an equal one comes.
fn next_of(old: &Subject<'_>, new: &Subject<'_>, chains: Places, passed: Places) -> Next
    requires { HaveNext (table_of old.now) (table_of new.now) chains passed }
    ensures { IsNext (whole_of old.now) (whole_of new.now) chains passed result }
{
    if are_equal_at(old, new, chains, passed) {
        return Next::Shared;
    }
    for ahead in 1..AHEAD {
        if is_ahead(old, new, chains, passed, Side::Went, ahead) {
            return Next::Went;
        }
        if is_ahead(old, new, chains, passed, Side::Came, ahead) {
            return Next::Came;
        }
    }
    Next::Went
}

// Two chains beside each other.
fn pair_of(
    alloc: Global,
    old: &Subject<'_>,
    new: &Subject<'_>,
    chains: Places,
) -> Result<Pair, AllocError>
    requires { AreThere (table_of old.now) (table_of new.now) chains }
    ensures beside { IfOk result (λ pair. (a : Assignment) → IsBeside (answered old.now a) (answered new.now a) chains pair) }
    ensures aligned { IfOk result (IsAligned (whole_of old.now) (whole_of new.now) chains) }
{
    let count = Places {
        old: old.boxed.table.rule_count(chains.old),
        new: new.boxed.table.rule_count(chains.new),
    };
    let mut pair = Pair {
        place: chains.old,
        went: Vec::new(alloc),
        came: Vec::new(alloc),
    };
    while pair.went.len() < count.old && pair.came.len() < count.new {
        let passed = Places {
            old: pair.went.len(),
            new: pair.came.len(),
        };
        pair.add(next_of(old, new, chains, passed))?;
    }
    Ok(pair)
}

// The chains that both tables have.
pub(crate) fn pairs_of(
    alloc: Global,
    old: &Subject<'_>,
    new: &Subject<'_>,
) -> Result<Vec<Pair>, AllocError>
    ensures paired { IfOk result (λ pairs. All (λ pair. (a : Assignment) → IsPaired (answered old.now a) (answered new.now a) pair) pairs.items) }
    ensures aligned { IfOk result (λ pairs. All (IsPairOf (whole_of old.now) (whole_of new.now)) pairs.items) }
    ensures all { IfOk result (λ pairs. (place : ℕ) → place < length (table_of old.now).chains
        → has_chain (table_of new.now) (name_at (table_of old.now).chains place) ≡ true → Any (λ pair. pair.place ≡ place) pairs.items) }
{
    let (first, second) = (&old.boxed.table, &new.boxed.table);
    first.stands();
    second.stands();
    let mut pairs = Vec::new(alloc);
    for place in 0..first.chain_count() {
        if let Some(other) = second.index_of(first.chain_name(place)) {
            let chains = Places {
                old: place,
                new: other,
            };
            pairs.push(pair_of(alloc, old, new, chains)?)?;
        }
    }
    Ok(pairs)
}

// The marks of the first pair with a chain name, on one side; none where only one of the tables has the chain.
pub(crate) fn marks_of<'a>(old: &Table, pairs: &'a [Pair], side: Side, name: &[u8]) -> &'a [bool]
    requires { All (HasPlace old.now.table) pairs.now }
    ensures { result.now ≡ marks_on side (pair_named old.now.table.chains pairs.now name.now) }
{
    for pair in pairs {
        if old.chain_name(pair.place) == name {
            return match side {
                Side::Went => pair.went.as_slice(),
                Side::Came => pair.came.as_slice(),
            };
        }
    }
    &[]
}
