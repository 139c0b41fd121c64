//! What the rules and policies do that decide, and so whether a dead rule is redundant or shadowed.
use fields::Hook;
use questions::Takers;
use rules::Target;
use rulesets::{Dump, GivenVerdict, rule_at};
use table::{Policy, Step, Table, Verdict};

// The verdict of a rule that decides, as the program reads it; none of one that sends packets on.
fn read_verdict(table: &Table, at: Step) -> Option<Verdict> {
    match rule_at(table, at)?.target() {
        Some(Target::Accept) => Some(Verdict::Accept),
        Some(Target::Drop) => Some(Verdict::Drop),
        Some(Target::Reject(kind)) => Some(Verdict::Reject(kind)),
        Some(Target::Log | Target::Return | Target::Jump(_) | Target::Goto(_)) | None => None,
    }
}

/// The verdict of a rule that decides, its own or not; none of one that sends packets on.
pub fn verdict_of(dump: &Dump, at: Step) -> Option<GivenVerdict<'_>> {
    let verdict = read_verdict(dump.table(), at)?;
    Some(dump.given(verdict, Some(at)))
}

/// The verdict of the policy of a hook's chain.
pub fn policy_of(table: &Table, hook: Hook) -> Verdict {
    let place = match hook {
        Hook::Input => 0,
        Hook::Forward => 1,
        Hook::Output => 2,
    };
    match table.policy(place) {
        Some(Policy::Drop) => Verdict::Drop,
        Some(Policy::Accept) | None => Verdict::Accept,
    }
}

/// Whether the policies of all these hooks give this verdict.
pub fn policies_give(table: &Table, hooks: &[Hook], verdict: Verdict) -> bool {
    for hook in hooks {
        if policy_of(table, *hook) != verdict {
            return false;
        }
    }
    true
}

/// What a dead rule is whose packets others decide.
#[derive(Clone, Copy)]
pub enum Standing {
    /// All of them do what it would do.
    Redundant,
    /// Some do something else.
    Shadowed,
}

// Whether each rule and each policy that decides gives this verdict. No policy gives one that is a target's own.
fn all_give(dump: &Dump, takers: &Takers, verdict: GivenVerdict<'_>) -> bool {
    for rule in &takers.rules {
        if verdict_of(dump, *rule) != Some(verdict) {
            return false;
        }
    }
    match verdict {
        GivenVerdict::Read(verdict) => {
            policies_give(dump.table(), takers.policies.as_slice(), verdict)
        }
        GivenVerdict::Own(_) => takers.policies.is_empty(),
    }
}

/// Whether those who decide a dead rule's packets do what it would do; none of a rule that would decide none.
pub(crate) fn standing_of(dump: &Dump, at: Step, takers: &Takers) -> Option<Standing> {
    let verdict = verdict_of(dump, at)?;
    if all_give(dump, takers, verdict) {
        return Some(Standing::Redundant);
    }
    Some(Standing::Shadowed)
}
