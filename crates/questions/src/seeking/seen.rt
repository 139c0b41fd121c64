//! A rule with its box and what it needs.
ghost use Rattle.std.specs.Prelude.{◌≡◌, false, IsTrue, MatchOption};
ghost use Rattle.rules.specs.Boxed.{IsBoxOf};
ghost use Rattle.questions.specs.steps.Straying.{Decides, TakesOut};

use crate::boxes::rule_box::RuleBox;
use crate::foreign::need::Need;
use crate::foreign::subject::Subject;
use fields::Packet;
use rules::{Rule, Target, cross};
use table::Step;

// A rule, its box, and what it needs.
#[derive(Clone, Copy)]
pub(crate) struct Seen<'a> {
    pub rule: &'a Rule,
    pub own: &'a RuleBox,
    pub needs: &'a [Need],
    ghost boxed: { IsBoxOf rule.now own.now },
}

impl<'a> Seen<'a> {
    ghost use Rattle.std.specs.Prelude.{◌≡◌};
    ghost use Rattle.rules.specs.rule.Allows.{matches};
    ghost use Rattle.questions.specs.Ends.{IsRule};
    ghost use Rattle.questions.specs.Scopes.{table_of};
    ghost use Rattle.questions.specs.boxes.Boxes.{IsAtHook};
    ghost use Rattle.questions.specs.steps.Seeking.{IsSeen};

    // The rule of a step, if it is there.
    pub(crate) fn at(subject: Subject<'a>, by: Step) -> Option<Seen<'a>>
        ensures { MatchOption result (IsRule (table_of subject.entry) by → ⊥) (IsSeen subject.entry by) }
    {
        let table = &subject.boxed.table;
        if by.chain >= table.chain_count() {
            return None;
        }
        if by.number == 0 || by.number > table.rule_count(by.chain) {
            return None;
        }
        Some(Seen {
            rule: table.rule(by.chain, by.number),
            own: subject.boxed.own_at(by.chain, by.number),
            needs: subject.needs.at(by.chain, by.number - 1),
        })
    }

    // Whether the rule matches a packet, whatever it needs beyond that.
    pub(crate) fn matches(&self, packet: &Packet) -> bool
        requires { IsAtHook packet.now }
        ensures { result ≡ matches packet.now.values self.now.rule.now }
    {
        self.own.has(packet) && cross(self.rule, packet)
    }
}

// Whether a target gives a verdict.
pub(crate) fn decides(target: Option<Target>) -> bool
    ensures { IsTrue result → Decides target }
{
    match target {
        Some(Target::Accept | Target::Drop | Target::Reject(_)) => true,
        Some(Target::Jump(_) | Target::Goto(_) | Target::Return | Target::Log) | None => false,
    }
}

// Whether a target takes a packet out of its chain.
pub(crate) fn takes_out(target: Option<Target>) -> bool
    ensures takes { IsTrue result → TakesOut target }
    ensures keeps { result ≡ false → TakesOut target → ⊥ }
{
    match target {
        Some(Target::Return | Target::Goto(_)) => true,
        Some(Target::Accept | Target::Drop | Target::Reject(_) | Target::Jump(_) | Target::Log)
        | None => false,
    }
}
