//! Questions about all packets. Each is asked of one table, which stays as it was.
ghost use Rattle.std.specs.Prelude.{◌<◌, ◌≤◌, length};

use crate::again::{Refusals, again, expect_kept};
use crate::trouble::{Trouble, expect};
use crate::written::{Placed, are_words, has_listing, table_of};
use fields::{Field, Hook, Interval, Spans, Words};
use questions::{
    Answers, Area, BoxedTable, Claimed, GivenPackets, Leaf, Life, Likeness, Need, Needs, Reached,
    Reason, Scope, Subject, check_claim, compare_at_under, dead_under, leaves_under, life_under,
    reach, why_dead_under,
};
use rules::Work;
use std::alloc::{AllocError, Global};
use table::{Step, Table, Verdict};

/// The rules of the table, each after its chain. None comes to the first of `a`, since the first of INPUT takes its packets.
const RULES: &[Placed] = &[
    (b"INPUT", b"-p tcp --dport 22 -j ACCEPT"),
    (b"INPUT", b"-p tcp -j a"),
    (b"a", b"-p tcp --dport 22 -j DROP"),
    (b"a", b"-p tcp --dport 23 -j DROP"),
];

/// The rest of the table's listing.
const REST: &[u8] = b":a - [0:0]\n\
    -A INPUT -p tcp -m tcp --dport 22 -j ACCEPT\n-A INPUT -p tcp -j a\n\
    -A a -p tcp -m tcp --dport 22 -j DROP\n-A a -p tcp -m tcp --dport 23 -j DROP\nCOMMIT\n";

/// The rules by their numbers.
const FIRST: Step = Step {
    chain: 0,
    number: 1,
};

const DEAD: Step = Step {
    chain: 3,
    number: 1,
};

const LAST: Step = Step {
    chain: 3,
    number: 2,
};

/// More steps than any question takes.
const BUDGET: usize = 1000;

/// The words of the ports of the last two rules.
const FIRST_PORT: &[u8] = b"dport=22";

const LAST_PORT: &[u8] = b"dport=23";

/// Whether the words are those of the packet that questions offer to a port.
fn are_to(words: &Words, port: &'static [u8]) -> bool {
    let expected: [&'static [u8]; 10] = [
        b"INPUT",
        b"src=192.0.2.1",
        b"dst=198.51.100.1",
        b"in=eth0",
        b"proto=6",
        b"sport=40000",
        port,
        b"flags=SYN",
        b"ct=NEW",
        b"ttl=64",
    ];
    are_words(words, expected.as_slice())
}

/// A table with the boxes of its rules.
fn boxed(alloc: Global, table: &Table) -> Result<BoxedTable, AllocError> {
    BoxedTable::of(alloc, table.copy()?, &mut Work::new())
}

/// `BoxedTable::of`, of the table of the cases.
pub fn boxes(alloc: Global, refusals: &mut Refusals) -> Result<BoxedTable, Trouble> {
    let table = again!(refusals, table_of(alloc, &[b"a"], RULES), true);
    let subject = again!(
        refusals,
        boxed(alloc, &table),
        has_listing(alloc, &table, REST)?
    );
    let is_listed = again!(refusals, has_listing(alloc, &subject.table, REST), true);
    expect(is_listed)?;
    Ok(subject)
}

/// Whether a rule of the table can match, and why not; a refusal leaves the table.
fn known_of(
    alloc: Global,
    refusals: &mut Refusals,
    boxed: &BoxedTable,
    at: Step,
) -> Result<(Life, Option<Reason>), Trouble> {
    let table = &boxed.table;
    let needs = Needs::none(alloc);
    let subject = Subject {
        boxed,
        needs: &needs,
    };
    if at.chain < table.chain_count() && 0 < at.number && at.number <= table.rule_count(at.chain) {
        let life = again!(
            refusals,
            life_under(alloc, &subject, at.chain, at.number, BUDGET),
            has_listing(alloc, table, REST)?
        );
        let reason = again!(
            refusals,
            why_dead_under(alloc, &subject, at.chain, at.number, BUDGET),
            has_listing(alloc, table, REST)?
        );
        return Ok((life, reason));
    }
    Err(Trouble::OtherAnswer)
}

/// Whether just the first rule takes the packets of a rule.
fn expect_taken_by_first(reason: Option<Reason>) -> Result<(), Trouble> {
    match reason {
        Some(Reason::Taken(takers)) => expect(
            takers.rules.as_slice() == [FIRST].as_slice() && takers.policies.as_slice().is_empty(),
        ),
        _ => Err(Trouble::OtherAnswer),
    }
}

/// `life_under` and `why_dead_under`, where no rule needs anything.
pub fn lives(alloc: Global, refusals: &mut Refusals, boxed: &BoxedTable) -> Result<(), Trouble> {
    let (life, reason) = known_of(alloc, refusals, boxed, LAST)?;
    expect(reason.is_none())?;
    match life {
        Life::Live(words, _) => expect(are_to(&words, LAST_PORT))?,
        Life::Dead | Life::Unclear => return Err(Trouble::OtherAnswer),
    }
    let (life, reason) = known_of(alloc, refusals, boxed, DEAD)?;
    expect(matches!(&life, Life::Dead))?;
    expect_taken_by_first(reason)
}

/// What the rules of a chain need: the first one, that a condition holds.
fn needs_of_one(alloc: Global) -> Result<Vec<Vec<Need>>, AllocError> {
    let mut needs = Vec::new(alloc);
    needs.push(Need {
        condition: 7,
        inverted: false,
    })?;
    let mut rules = Vec::new(alloc);
    rules.push(needs)?;
    Ok(rules)
}

/// What the rules of the table need: the first one, that a condition holds.
fn needs_of_first(alloc: Global) -> Result<Needs, AllocError> {
    let mut chains = Vec::new(alloc);
    chains.push(needs_of_one(alloc)?)?;
    Ok(Needs::of(chains))
}

/// The same, and the same of the rule that no packet comes to.
fn needs_of_both(alloc: Global) -> Result<Needs, AllocError> {
    let mut chains = Vec::new(alloc);
    chains.push(needs_of_one(alloc)?)?;
    chains.push(Vec::new(alloc))?;
    chains.push(Vec::new(alloc))?;
    chains.push(needs_of_one(alloc)?)?;
    Ok(Needs::of(chains))
}

/// Whether the words are those of a packet to the port of the first rule, and the condition doesn't hold.
fn is_without(words: &Words, answers: &Answers) -> bool {
    let mut others = answers.listed().iter();
    match others.next() {
        Some(answer) => {
            are_to(words, FIRST_PORT)
                && answer.condition == 7
                && !answer.holds
                && others.next().is_none()
        }
        None => false,
    }
}

/// `dead_under` and `compare_at_under`, where the first rule needs that a condition holds: the rule that no packet comes to is live where it doesn't,
/// and the table beside itself without the need gives two verdicts there.
pub fn lives_under(
    alloc: Global,
    refusals: &mut Refusals,
    boxed: &BoxedTable,
) -> Result<(), Trouble> {
    let table = &boxed.table;
    let needs = again!(refusals, needs_of_first(alloc), true);
    let subject = Subject {
        boxed,
        needs: &needs,
    };
    let none = Needs::none(alloc);
    let other = Subject {
        boxed,
        needs: &none,
    };
    let at = DEAD;
    if at.chain < table.chain_count() && 0 < at.number && at.number <= table.rule_count(at.chain) {
        let life = again!(
            refusals,
            dead_under(alloc, &subject, at.chain, at.number, BUDGET),
            has_listing(alloc, table, REST)?
        );
        expect(matches!(&life, Life::Live(words, answers) if is_without(words, answers)))?;
        let likeness = again!(
            refusals,
            compare_at_under(alloc, &subject, &other, Hook::Input, BUDGET),
            has_listing(alloc, table, REST)?
        );
        return expect(
            matches!(&likeness, Likeness::Differ(words, answers) if is_without(words, answers)),
        );
    }
    Err(Trouble::OtherAnswer)
}

/// `why_dead_under`, where the first rule needs that a condition holds, and so does the rule that no packet comes to.
pub fn dead_with(
    alloc: Global,
    refusals: &mut Refusals,
    boxed: &BoxedTable,
) -> Result<(), Trouble> {
    let table = &boxed.table;
    let needs = again!(refusals, needs_of_both(alloc), true);
    let subject = Subject {
        boxed,
        needs: &needs,
    };
    let at = DEAD;
    if at.chain < table.chain_count() && 0 < at.number && at.number <= table.rule_count(at.chain) {
        let reason = again!(
            refusals,
            why_dead_under(alloc, &subject, at.chain, at.number, BUDGET),
            has_listing(alloc, table, REST)?
        );
        return expect_taken_by_first(reason);
    }
    Err(Trouble::OtherAnswer)
}

/// Whether the table and another give the packets of INPUT the same verdicts; a refusal leaves both.
fn likeness_to(
    alloc: Global,
    refusals: &mut Refusals,
    own: &BoxedTable,
    other: &BoxedTable,
) -> Result<Likeness, Trouble> {
    let needs = Needs::none(alloc);
    let first = Subject {
        boxed: own,
        needs: &needs,
    };
    let second = Subject {
        boxed: other,
        needs: &needs,
    };
    Ok(again!(
        refusals,
        compare_at_under(alloc, &first, &second, Hook::Input, BUDGET),
        has_listing(alloc, &own.table, REST)?
    ))
}

/// `compare_at_under`, of the table beside itself and beside one without rules.
pub fn compared(
    alloc: Global,
    refusals: &mut Refusals,
    subject: &BoxedTable,
) -> Result<(), Trouble> {
    let empty = again!(refusals, Table::new(alloc), true);
    let other = again!(refusals, boxed(alloc, &empty), true);
    let itself = likeness_to(alloc, refusals, subject, subject)?;
    expect(matches!(itself, Likeness::Same))?;
    match likeness_to(alloc, refusals, subject, &other)? {
        Likeness::Differ(words, _) => expect(are_to(&words, LAST_PORT)),
        Likeness::Same | Likeness::Unclear => Err(Trouble::OtherAnswer),
    }
}

/// The whole TCP packets at INPUT.
fn tcp(alloc: Global) -> Result<Area, AllocError> {
    let whole = Spans::one(alloc, Field::Fragment.top(), 0, 0)?;
    let six = Spans::one(alloc, Field::Protocol.top(), 6, 6)?;
    Area::at_hook(alloc, Hook::Input)?
        .narrow(alloc, Field::Fragment, &whole)?
        .narrow(alloc, Field::Protocol, &six)
}

/// `Area::at_hook` and `narrow`.
fn areas(alloc: Global, refusals: &mut Refusals) -> Result<Area, Trouble> {
    let area = again!(refusals, tcp(alloc), true);
    expect(area.on(Field::Protocol).intervals() == [Interval { first: 6, last: 6 }].as_slice())?;
    Ok(area)
}

/// Whether an entry is of this end, and of these ports alone or of all others.
fn is_entry(reached: &Reached, verdict: Verdict, by: Option<Step>, ports: &[Interval]) -> bool {
    reached.verdict == verdict && reached.by == by && reached.numbers.intervals() == ports
}

/// The verdicts of packets, by their ports.
const PORTS: &[(Verdict, Option<Step>, &[Interval])] = &[
    (
        Verdict::Accept,
        Some(FIRST),
        &[Interval {
            first: 22,
            last: 22,
        }],
    ),
    (
        Verdict::Drop,
        Some(LAST),
        &[Interval {
            first: 23,
            last: 23,
        }],
    ),
    (
        Verdict::Accept,
        None,
        &[
            Interval { first: 0, last: 21 },
            Interval {
                first: 24,
                last: 65535,
            },
        ],
    ),
];

/// Whether each of these ends is there, and no other.
fn are_ends(found: &[Reached]) -> bool {
    let are_there = PORTS.iter().all(|(verdict, by, ports)| {
        found
            .iter()
            .any(|reached| is_entry(reached, *verdict, *by, ports))
    });
    are_there && found.len() == PORTS.len()
}

// A box alone.
fn alone(alloc: Global, area: &Area) -> Result<Vec<Area>, AllocError> {
    let mut boxes = Vec::new(alloc);
    boxes.push(area.copy(alloc)?)?;
    Ok(boxes)
}

// The whole TCP packets at INPUT.
fn whole_tcp(alloc: Global, refusals: &mut Refusals) -> Result<GivenPackets, Trouble> {
    let area = areas(alloc, refusals)?;
    Ok(GivenPackets {
        hook: Hook::Input,
        boxes: again!(refusals, alone(alloc, &area), true),
    })
}

/// `reach`.
pub fn reached(
    alloc: Global,
    refusals: &mut Refusals,
    subject: &BoxedTable,
) -> Result<(), Trouble> {
    let given = whole_tcp(alloc, refusals)?;
    let found = again!(
        refusals,
        reach(alloc, subject, &given, Field::DestinationPort, BUDGET),
        has_listing(alloc, &subject.table, REST)?
    );
    match found {
        Some(found) => expect(are_ends(found.as_slice())),
        None => Err(Trouble::OtherAnswer),
    }
}

/// `check_claim`: some packets are dropped, and no walk is too long.
pub fn claimed(alloc: Global, refusals: &mut Refusals, boxed: &BoxedTable) -> Result<(), Trouble> {
    let given = whole_tcp(alloc, refusals)?;
    let needs = Needs::none(alloc);
    let subject = Subject {
        boxed,
        needs: &needs,
    };
    let fails = again!(
        refusals,
        check_claim(alloc, &subject, &given, &[Verdict::Drop], BUDGET),
        has_listing(alloc, &boxed.table, REST)?
    );
    expect(matches!(&fails, Claimed::Fails(words, _) if are_to(words, LAST_PORT)))?;
    let holds = again!(
        refusals,
        check_claim(alloc, &subject, &given, &[Verdict::TooLong], BUDGET),
        has_listing(alloc, &boxed.table, REST)?
    );
    expect(matches!(holds, Claimed::Holds))
}

/// The walks of the whole TCP packets at INPUT, where no rule needs anything.
fn walks(alloc: Global, boxed: &BoxedTable) -> Result<Option<Vec<Leaf>>, AllocError> {
    let needs = Needs::none(alloc);
    let subject = Subject {
        boxed,
        needs: &needs,
    };
    let start = Scope {
        area: tcp(alloc)?,
        answers: Answers::none(alloc),
    };
    leaves_under(alloc, &subject, Hook::Input, start, BUDGET)
}

/// `leaves_under`, where no rule needs anything: one walk ends at the first rule, one at the last, and one comes to the policy.
pub fn walked(alloc: Global, refusals: &mut Refusals, subject: &BoxedTable) -> Result<(), Trouble> {
    let found = again!(
        refusals,
        walks(alloc, subject),
        has_listing(alloc, &subject.table, REST)?
    );
    match found {
        Some(found) => expect(
            found.len() == 3
                && [Some(FIRST), Some(LAST), None]
                    .iter()
                    .all(|by| { found.iter().any(|leaf| leaf.decider() == *by) }),
        ),
        None => Err(Trouble::OtherAnswer),
    }
}

/// The walks of the whole TCP packets at INPUT, where the condition that the first rule needs doesn't hold.
fn walks_without(alloc: Global, boxed: &BoxedTable) -> Result<Option<Vec<Leaf>>, AllocError> {
    let needs = needs_of_first(alloc)?;
    let subject = Subject {
        boxed,
        needs: &needs,
    };
    let area = tcp(alloc)?;
    let mut answers = Answers::none(alloc);
    if !answers.give(7, false)? || answers.give(7, true)? {
        return Ok(None);
    }
    leaves_under(
        alloc,
        &subject,
        Hook::Input,
        Scope { area, answers },
        BUDGET,
    )
}

/// `leaves_under` and `Answers::give`: no walk ends at the first rule, and none has other answers.
pub fn walked_without(
    alloc: Global,
    refusals: &mut Refusals,
    boxed: &BoxedTable,
) -> Result<(), Trouble> {
    let found = again!(
        refusals,
        walks_without(alloc, boxed),
        has_listing(alloc, &boxed.table, REST)?
    );
    match found {
        Some(found) => expect(
            found.len() == 3
                && found.iter().all(|leaf| {
                    leaf.decider() != Some(FIRST) && leaf.answers.listed().len() == 1
                }),
        ),
        None => Err(Trouble::OtherAnswer),
    }
}
