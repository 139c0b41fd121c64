//! The verdicts of a set of packets, grouped by a field.
ghost use Rattle.std.specs.Prelude.{[], ◌∷◌, IfOk, MatchOption};
ghost use Rattle.questions.specs.asked.Reach.{IsReach};
ghost use Rattle.questions.specs.asked.Unknown.{MetCantBeWalked, OneCantBeWalked};
ghost use Rattle.questions.specs.steps.Exact.{AreExactIn, IsMet};

use crate::asked::exact::exact_walks;
use crate::asked::reached::{Reached, grouped};
use crate::boxes::area::Area;
use crate::boxes::boxed_table::BoxedTable;
use crate::foreign::answers::Answers;
use crate::foreign::need::Needs;
use crate::foreign::subject::Subject;
use crate::walking::scope::Scope;
use crate::walking::task::Leaf;
use fields::{Field, Hook};
use std::alloc::{AllocError, Global};

/// Some packets at a hook: those of some boxes that can be there.
#[derive(Drop)]
pub struct GivenPackets {
    /// The hook.
    pub hook: Hook,
    /// The boxes.
    pub boxes: Vec<Area>,
}

// Those of a box.
#[derive(Drop)]
pub(crate) struct Given {
    pub(crate) hook: Hook,
    pub(crate) area: Area,
}

// The packets of a box that can be at a hook, as a box.
pub(crate) fn met(alloc: Global, hook: Hook, area: &Area) -> Result<Given, AllocError>
    ensures { IfOk result (IsMet (record { hook = hook; area = area.now })) }
{
    let area = Area::at_hook(alloc, hook)?.within(alloc, area.sets())?;
    Ok(Given { hook, area })
}

// The walks of the packets of a box, where no rule needs anything.
fn exact_in(
    alloc: Global,
    boxed: &BoxedTable,
    hook: Hook,
    area: &Area,
    budget: usize,
) -> Result<Option<Vec<Leaf>>, AllocError>
    ensures { IfOk result (λ found. MatchOption found (MetCantBeWalked boxed.now.table.table (record { hook = hook; area = area.now }) budget)
        (λ exact. AreExactIn boxed.now.table.table hook (area.now ∷ []) exact.items)) }
{
    let Given { hook, area } = met(alloc, hook, area)?;
    let needs = Needs::none(alloc);
    let subject = Subject {
        boxed,
        needs: &needs,
    };
    let start = Scope {
        area,
        answers: Answers::none(alloc),
    };
    match exact_walks(alloc, &subject, hook, start, budget)? {
        None => Ok(None),
        Some(exact) => Ok(Some(exact)),
    }
}

// The walks of the packets of some boxes, where no rule needs anything.
fn exact_in_all(
    alloc: Global,
    boxed: &BoxedTable,
    given: &GivenPackets,
    budget: usize,
) -> Result<Option<Vec<Leaf>>, AllocError>
    ensures { IfOk result (λ found. MatchOption found (OneCantBeWalked boxed.now.table.table given.now budget)
        (λ exact. AreExactIn boxed.now.table.table given.now.hook given.now.boxes.items exact.items)) }
{
    let mut exact = Vec::new(alloc);
    for area in given.boxes.as_slice() {
        let Some(mut leaves) = exact_in(alloc, boxed, given.hook, area, budget)? else {
            return Ok(None);
        };
        exact.append(&mut leaves)?;
    }
    Ok(Some(exact))
}

/// The verdicts of a set of packets: for each verdict, and each rule or policy that gives it to some of them, the
/// numbers that these packets have on a field. The sets are exact: each number is that of such a packet, and the
/// number of each such packet is there. There is one entry a verdict and decider, and each rule is one of the
/// table's.
///
/// The packets of each box walk the table with `budget` steps (`leaves_under`), and leaves are cut by transport header.
///
/// There is no answer only where the steps don't suffice or a trail is full.
///
/// # Errors
///
/// `AllocError` where memory was refused.
pub fn reach(
    alloc: Global,
    boxed: &BoxedTable,
    given: &GivenPackets,
    field: Field,
    budget: usize,
) -> Result<Option<Vec<Reached>>, AllocError>
    ensures { IfOk result (λ found. MatchOption found
        (OneCantBeWalked boxed.now.table.table given.now budget) (λ reached. IsReach boxed.now.table.table given.now field reached.items)) }
{
    boxed.table.stands();
    match exact_in_all(alloc, boxed, given, budget)? {
        None => Ok(None),
        Some(exact) => Ok(Some(grouped(alloc, field, exact.as_slice())?)),
    }
}
