//! Rules and numbers drawn by lot.

use crate::classifiers::dice::Dice;
use crate::classifiers::drafts::{ASKED, ASKED_COUNT, Draft, Lives, allows, asks, numbers};
use fields::Field;

// A kind of rules that are drawn.
#[derive(Clone, Copy)]
pub(crate) enum Kind {
    // Rules that ask one or a few of the fields.
    Mixed,
    // Rules for few addresses of 400 and for one port of 64. One in so many allows all addresses, or all ports, and one in
    // so many all but these.
    Narrow(u64),
    // Rules for up to 15 ports that lie apart or for all others, and for flags; one in three allows all.
    Combs,
    // Rules for port 1. One in so many is for one of five further ports, or allows all.
    OnePort(u64),
}

impl Kind {
    pub(crate) fn draw(self, dice: &mut Dice) -> Draft {
        match self {
            Kind::Mixed => mixed(dice),
            Kind::Narrow(share) => narrow(dice, share),
            Kind::Combs => combs(dice),
            Kind::OnePort(share) => one_port(dice, share),
        }
    }
}

// Flags that are looked at, and which of them are set.
fn some_flags(dice: &mut Dice) -> (u8, u8) {
    let looked = dice.below(64) as u8;
    (looked, looked & dice.below(64) as u8)
}

// One to 15 of 64 ports.
fn some_ports(dice: &mut Dice) -> u64 {
    let mut ports = 0;
    for _ in 0..dice.below(15) + 1 {
        ports |= 1u64 << dice.below(64);
    }
    ports
}

// One to three of 400 addresses.
fn some_addresses(dice: &mut Dice) -> (u16, u16) {
    let first = dice.below(398) as u16;
    (first, first + dice.below(3) as u16)
}

// Some times to live: often up to the least or the greatest.
fn some_lives(dice: &mut Dice) -> Lives {
    let number = match dice.below(6) {
        0 => 0,
        1 => 255,
        _ => dice.below(256) as u8,
    };
    match dice.below(4) {
        0 => Lives::Same(number),
        1 => Lives::Others(number),
        2 => Lives::Greater(number),
        _ => Lives::Smaller(number),
    }
}

// A protocol or fragments, or neither.
fn plain_protocol(dice: &mut Dice) -> Draft {
    let mut draft = Draft::WHOLE;
    let number = dice.below(20) as u8 + 1;
    let meant = dice.flip();
    if dice.flip() {
        draft.protocol = Some((number, meant));
    }
    let further = dice.flip();
    if dice.flip() {
        draft.fragment = Some(further);
    }
    draft
}

// A protocol, and what is the protocol's.
fn mixed_protocol(dice: &mut Dice) -> Draft {
    let mut draft = Draft::WHOLE;
    match dice.below(4) {
        0 => {
            draft.protocol = Some((6, true));
            draft.flags = Some(some_flags(dice));
            if dice.flip() {
                draft.ports = Some((some_ports(dice), dice.flip()));
            }
        }
        1 => {
            let kind = dice.below(4) as u8;
            let code = dice.below(256) as u8;
            draft.protocol = Some((1, true));
            draft.icmp = Some((kind, if dice.flip() { Some(code) } else { None }));
        }
        _ => draft = plain_protocol(dice),
    }
    draft
}

fn mixed(dice: &mut Dice) -> Draft {
    let mut draft = mixed_protocol(dice);
    if dice.flip() {
        let meant = dice.flip();
        draft.states = Some((dice.below(31) as u8 + 1, meant));
    }
    if dice.flip() {
        let (first, last) = some_addresses(dice);
        draft.source = Some((first, last, dice.flip()));
    }
    if dice.flip() {
        draft.lives = Some(some_lives(dice));
    }
    draft
}

fn narrow(dice: &mut Dice, share: u64) -> Draft {
    let mut draft = Draft::WHOLE;
    let share = share.max(1);
    if !dice.once_in(share) {
        let (first, last) = some_addresses(dice);
        draft.source = Some((first, last, !dice.once_in(share)));
    }
    if !dice.once_in(share) {
        let port = dice.below(64);
        draft.protocol = Some((6, true));
        draft.ports = Some((1 << port, !dice.once_in(share)));
    }
    draft
}

// Every fourth port.
const COMB: u64 = 0x0111_1111_1111_1111;

fn combs(dice: &mut Dice) -> Draft {
    let mut draft = Draft::WHOLE;
    if dice.once_in(3) {
        return draft;
    }
    let comb = COMB << dice.below(4);
    let ports = if dice.flip() { comb } else { some_ports(dice) };
    draft.protocol = Some((6, true));
    draft.ports = Some((ports, dice.flip()));
    draft.flags = Some(some_flags(dice));
    draft
}

fn one_port(dice: &mut Dice, share: u64) -> Draft {
    let mut draft = Draft::WHOLE;
    let mut port = 1;
    if dice.once_in(share.max(1)) {
        port = dice.below(6) + 1;
        if port == 1 {
            return draft;
        }
    }
    draft.protocol = Some((6, true));
    draft.ports = Some((1 << port, true));
    draft
}

// One of the fields that the rules ask.
pub(crate) fn some_field(dice: &mut Dice) -> Field {
    ASKED[dice.below(ASKED_COUNT as u64) as usize]
}

// A number at which a rule's answer changes, or the one before it: mostly one that the rule allows.
fn edge(dice: &mut Dice, draft: &Draft, field: Field) -> u64 {
    let count = numbers(field);
    let from = dice.below(count);
    let inside = !dice.once_in(8);
    if !asks(draft, field) {
        return from;
    }
    for step in 0..count {
        let x = from.wrapping_add(step) % count;
        let before = x.saturating_sub(1);
        let is_allowed = allows(draft, field, x);
        if allows(draft, field, before) != is_allowed {
            return if is_allowed == inside { x } else { before };
        }
    }
    from
}

// Such a number on each field that is asked.
pub(crate) fn edges(dice: &mut Dice, draft: &Draft) -> [u64; ASKED_COUNT] {
    let mut drawn = [0; ASKED_COUNT];
    for k in 0..ASKED_COUNT {
        drawn[k] = edge(dice, draft, ASKED[k]);
    }
    drawn
}
