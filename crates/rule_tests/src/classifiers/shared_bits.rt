//! More than 8,192 rules, where pairs of words share a bit of a row's summary.

use crate::classifiers::dice::Dice;
use crate::classifiers::drawn::{Kind, edges};
use crate::classifiers::pair::Pair;
use fields::Field;
use std::alloc::Global;
use std::process::Abort;
use std::test::Fail;

// Where the first pair of words begins and ends, where one begins that has the same bit, and the end.
const SPOTS: [usize; 7] = [0, 127, 128, 8191, 8192, 8193, usize::MAX];

// Rules of which half are for one of few ports.
const HALF_RARE: Kind = Kind::OnePort(2);

// Whether a search from each spot, and one from a place drawn by lot, find what the rules say.
fn finds_from_spots(pair: &Pair, dice: &mut Dice) -> bool {
    for spot in SPOTS {
        let draft = HALF_RARE.draw(dice);
        let drawn = edges(dice, &draft);
        let from = dice.place(pair.len());
        if !pair.finds(&drawn, spot.min(pair.len())) || !pair.finds(&drawn, from) {
            return false;
        }
    }
    true
}

// Rules for port 1 but for a few.
fn fill(
    rt: &impl Abort,
    alloc: Global,
    pair: &mut Pair,
    count: usize,
    dice: &mut Dice,
) -> Result<(), Fail> {
    for _ in 0..count {
        let draft = Kind::OnePort(2000).draw(dice);
        pair.insert(rt, alloc, pair.len(), draft)?;
    }
    Ok(())
}

// Puts a rule in at a spot, puts another in its place, and takes a rule out.
fn edit_at(
    rt: &impl Abort,
    alloc: Global,
    pair: &mut Pair,
    spot: usize,
    dice: &mut Dice,
) -> Result<(), Fail> {
    let at = spot.min(pair.len());
    pair.insert(rt, alloc, at, HALF_RARE.draw(dice))?;
    assert!(rt; finds_from_spots(pair, dice), "put in at {at}");
    pair.replace(rt, alloc, at, HALF_RARE.draw(dice))?;
    assert!(rt; finds_from_spots(pair, dice), "replaced at {at}");
    pair.remove(rt, dice.place(at));
    assert!(rt; finds_from_spots(pair, dice), "taken out up to {at}");
    Ok(())
}

// The same at each spot, and there is one rule more each time, or one less.
fn edit_at_spots(
    rt: &impl Abort,
    alloc: Global,
    pair: &mut Pair,
    grows: bool,
    dice: &mut Dice,
) -> Result<(), Fail> {
    for spot in SPOTS {
        edit_at(rt, alloc, pair, spot, dice)?;
        if grows {
            pair.insert(rt, alloc, spot.min(pair.len()), HALF_RARE.draw(dice))?;
        } else {
            pair.remove(rt, spot.min(pair.len().saturating_sub(1)));
        }
    }
    Ok(())
}

// Edits at the spots with so many rules, and then more, up to 8,300, and fewer again.
fn edit_many(rt: &impl Abort, alloc: Global, seed: u64) -> Result<(), Fail> {
    let mut dice = Dice::new(seed);
    let mut pair = Pair::new(alloc)?;
    fill(rt, alloc, &mut pair, 8160, &mut dice)?;
    for round in 0..40u32 {
        edit_at_spots(rt, alloc, &mut pair, round < 20, &mut dice)?;
        let count = pair.len();
        assert!(rt;
            pair.has_line(Field::DestinationPort),
            "ports of {count} rules"
        );
        assert!(rt;
            pair.has_line(Field::Fragment),
            "fragments of {count} rules"
        );
    }
    Ok(())
}

#[test]
fn edits_past_8192_rules(rt: HostRuntime) -> Result<(), Fail> {
    edit_many(&rt, rt.alloc(), 8)
}
