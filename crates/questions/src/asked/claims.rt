//! Whether no packet of a set gets one of some verdicts.
ghost use Rattle.std.specs.Prelude.{◌≡◌, ◌↔◌, false, All, Any, Contains, IfOk, IsTrue, MatchOption};
ghost use Rattle.questions.specs.Scopes.{whole_of};
ghost use Rattle.questions.specs.asked.Claims.{CantBeWalked, SaysOfClaim};
ghost use Rattle.questions.specs.steps.Claimed.{AreWalked, IsOfForbidden, IsPassing, IsToldIn};

use crate::asked::exact::exact_walks;
use crate::asked::givers::told_by_rules;
use crate::asked::other::Shown;
use crate::asked::reach::{Given, GivenPackets, met};
use crate::boxes::area::Area;
use crate::foreign::answers::Answers;
use crate::foreign::subject::Subject;
use crate::sampling::sample::sample_of;
use crate::walking::scope::Scope;
use crate::walking::task::Leaf;
use fields::{Hook, Words};
use std::alloc::{AllocError, Global};
use table::Verdict;

/// What is known of a claim that no packet of a set gets one of some verdicts.
#[derive(Drop)]
pub enum Claimed {
    /// It holds, whatever holds that rules need.
    Holds,
    /// It fails: these words write a packet of the set, which gets one of the verdicts where the answers are right, whatever else holds.
    Fails(Words, Answers),
    /// Neither is known. The packets can't all be walked within the budget, or some get one of the verdicts, and none that a line writes.
    Unclear,
}

// Whether a verdict is one of some.
pub(crate) fn is_forbidden(forbidden: &[Verdict], verdict: Verdict) -> bool
    ensures { IsTrue result ↔ Contains forbidden.now verdict }
{
    forbidden.contains(&verdict)
}

// A packet of a leaf with one of the verdicts that a line writes, and the leaf's answers.
fn against(hook: Hook, leaves: &[Leaf], forbidden: &[Verdict]) -> Result<Option<Shown>, AllocError>
    ensures { IfOk result (λ found. MatchOption found (All (IsPassing hook forbidden.now) leaves.now) (IsOfForbidden hook forbidden.now leaves.now)) }
{
    for leaf in leaves {
        if !is_forbidden(forbidden, leaf.verdict) {
            continue;
        }
        let alloc = *leaf.trail.allocator();
        match sample_of(alloc, hook, &leaf.area)? {
            None => {}
            Some(sample) => {
                let answers = leaf.answers.copy(alloc)?;
                return Ok(Some(Shown {
                    words: sample.words,
                    answers,
                }));
            }
        }
    }
    Ok(None)
}

// Whether no leaf has one of the verdicts.
fn none_has(leaves: &[Leaf], forbidden: &[Verdict]) -> bool
    ensures none { IsTrue result → All (λ leaf. Contains forbidden.now leaf.verdict → ⊥) leaves.now }
    ensures some { result ≡ false → Any (λ leaf. Contains forbidden.now leaf.verdict) leaves.now }
{
    for leaf in leaves {
        if is_forbidden(forbidden, leaf.verdict) {
            return false;
        }
    }
    true
}

// The walks of the packets of a box that can be at a hook.
fn walked(
    alloc: Global,
    subject: &Subject<'_>,
    hook: Hook,
    area: &Area,
    budget: usize,
) -> Result<Option<Vec<Leaf>>, AllocError>
    ensures { IfOk result (λ found. MatchOption found (CantBeWalked (whole_of subject.now) (record { hook = hook; area = area.now }) budget)
        (λ exact. AreWalked (whole_of subject.now) (record { hook = hook; area = area.now }) exact.items)) }
{
    let Given { hook, area } = met(alloc, hook, area)?;
    let start = Scope {
        area,
        answers: Answers::none(alloc),
    };
    match exact_walks(alloc, subject, hook, start, budget)? {
        None => Ok(None),
        Some(exact) => Ok(Some(exact)),
    }
}

// What is known of the claim for the packets of a box.
fn claimed_in(
    alloc: Global,
    subject: &Subject<'_>,
    hook: Hook,
    area: &Area,
    forbidden: &[Verdict],
    budget: usize,
) -> Result<Claimed, AllocError>
    ensures { IfOk result (IsToldIn subject.now (record { hook = hook; area = area.now }) forbidden.now budget) }
{
    let Some(exact) = walked(alloc, subject, hook, area, budget)? else {
        return Ok(Claimed::Unclear);
    };
    if none_has(exact.as_slice(), forbidden) {
        return Ok(Claimed::Holds);
    }
    match against(hook, exact.as_slice(), forbidden)? {
        None => Ok(Claimed::Unclear),
        Some(shown) => {
            shown.answers.stand();
            Ok(Claimed::Fails(shown.words, shown.answers))
        }
    }
}

// What is known of the claim from the walks of all packets, box by box.
fn told_by_walks(
    alloc: Global,
    subject: &Subject<'_>,
    given: &GivenPackets,
    forbidden: &[Verdict],
    budget: usize,
) -> Result<Claimed, AllocError>
    ensures { IfOk result (SaysOfClaim subject.now given.now forbidden.now budget) }
{
    let mut clear = true;
    for area in given.boxes.as_slice() {
        match claimed_in(alloc, subject, given.hook, area, forbidden, budget)? {
            Claimed::Holds => {}
            Claimed::Fails(words, answers) => return Ok(Claimed::Fails(words, answers)),
            Claimed::Unclear => clear = false,
        }
    }
    if clear {
        return Ok(Claimed::Holds);
    }
    Ok(Claimed::Unclear)
}

/// Whether it can be claimed of some packets that none gets one of the forbidden verdicts, whatever holds that rules need; or a packet that does, with
/// the answers under which it does.
///
/// First a packet is sought that comes to one of the rules that give such a verdict, as `life_under` seeks one, with `budget` tries for each rule and
/// box. Where that doesn't tell, since the hook's policy is forbidden or a rule is unclear, the packets of each box walk the table with `budget` steps
/// (`leaves_under`), and leaves are cut by transport header, until a packet is found.
///
/// # Errors
///
/// `AllocError` where memory was refused.
pub fn check_claim(
    alloc: Global,
    subject: &Subject<'_>,
    given: &GivenPackets,
    forbidden: &[Verdict],
    budget: usize,
) -> Result<Claimed, AllocError>
    ensures { IfOk result (SaysOfClaim subject.now given.now forbidden.now budget) }
{
    match told_by_rules(alloc, subject, given, forbidden, budget)? {
        Claimed::Holds => Ok(Claimed::Holds),
        Claimed::Fails(words, answers) => Ok(Claimed::Fails(words, answers)),
        Claimed::Unclear => told_by_walks(alloc, subject, given, forbidden, budget),
    }
}
