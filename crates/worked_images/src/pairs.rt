// Two violations in one image: of two rules, of one rule at two places, and beside a mark that isn't true.
use crate::images::{Edit, NOT_A_VOLUME, Violation, compare_both, compare_edits, small_base};
use crate::rules::EACH_RULE;
use std::alloc::Global;
use std::test::Fail;
use worked_drivers::jobs::same;

const NO_KIND: &str = "damaged 7 2\n";

const TWO_NAMES: &str = "damaged 9 1\n";

// How many pairs of edits set different words: all but those of rules 3 and 4, 11 and 12, 14 and 15.
const PAIRS: u64 = 15 * 14 / 2 - 3;

// Whether an edit sets this word.
fn sets(edit: Edit<'_>, wanted: usize) -> bool {
    for (word, _) in edit {
        if *word == wanted {
            return true;
        }
    }
    false
}

// Whether two edits set a word that is the same.
fn meet(first: Edit<'_>, second: Edit<'_>) -> bool {
    for (word, _) in first {
        if sets(second, *word) {
            return true;
        }
    }
    false
}

// What is told of two violations: the first one, but where the second takes away the one name of the inode that has no kind.
fn told_of<'a>(first: Violation<'a>, second: Violation<'a>) -> &'a str {
    if first.1 == NO_KIND && second.1 == TWO_NAMES {
        return second.1;
    }
    first.1
}

// Compares a violation with each later one that sets other words. How many these are.
fn compare_later(
    alloc: Global,
    base: &[u64],
    first: Violation<'_>,
    later: &[Violation<'_>],
) -> Result<u64, Fail> {
    let mut pairs = 0u64;
    for second in later {
        if !meet(first.0, second.0) {
            let told = told_of(first, *second);
            compare_both(alloc, base, first.0, second.0, told)?;
            pairs = pairs.saturating_add(1);
        }
    }
    Ok(pairs)
}

#[test]
fn of_two_rules_the_lower_is_told(rt: HostRuntime) -> Result<(), Fail> {
    let base = small_base(rt.alloc())?;
    let mut pairs = 0u64;
    for (place, first) in EACH_RULE.iter().enumerate() {
        let later = EACH_RULE
            .get(place.saturating_add(1)..)
            .ok_or("no later rules")?;
        let more = compare_later(rt.alloc(), base.as_slice(), *first, later)?;
        pairs = pairs.saturating_add(more);
    }
    same(pairs, PAIRS, "pairs of edits")
}

// One rule at two places, or three.
const SAME_RULE: [Violation<'static>; 9] = [
    (&[(3, 5), (4, 9)], NOT_A_VOLUME),
    (&[(1_537, 500), (1_553, 500)], "damaged 3 0\n"),
    (&[(1_537, 3), (1_553, 1), (1_569, 1)], "damaged 4 1\n"),
    (&[(1_536, 9), (1_552, 9)], "damaged 5 0\n"),
    (&[(1_538, 1), (1_554, 1)], "damaged 6 0\n"),
    (&[(528, 3), (544, 3)], "damaged 7 2\n"),
    (&[(1_025, 1), (1_033, 2)], "damaged 10 0\n"),
    (
        &[
            (1_040, 2),
            (1_041, 1),
            (1_042, 0),
            (1_048, 2),
            (1_049, 1),
            (1_050, 0),
        ],
        "damaged 13 2\n",
    ),
    (&[(513, 2), (529, 0)], "damaged 14 1\n"),
];

#[test]
fn of_one_rule_the_least_place_is_told(rt: HostRuntime) -> Result<(), Fail> {
    let base = small_base(rt.alloc())?;
    compare_edits(rt.alloc(), base.as_slice(), &SAME_RULE)
}

// The mark comes behind the rules 2 to 14.
#[test]
fn a_closed_volume_breaks_a_rule(rt: HostRuntime) -> Result<(), Fail> {
    let base = small_base(rt.alloc())?;
    let rules = EACH_RULE.get(1..14).ok_or("too few rules")?;
    for (words, told) in rules {
        compare_both(rt.alloc(), base.as_slice(), &[(5, 1)], words, told)?;
    }
    Ok(())
}
