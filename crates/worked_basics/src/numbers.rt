// Free numbers: the lowest one after each call, and in how few steps it is found; that a count of steps takes no byte.
ghost use Rattle.std.specs.Prelude.{◌≡◌, ◌+◌, ◌<◌, ◌≤◌, length};

use allocators::Numbers;
use counting::Steps;
use std::alloc::Global;
use std::marker::Brand;
use std::mem::size_of;
use std::process::Abort;
use std::sync::ledger::{Blank, Ledger};
use std::test::Fail;

#[test]
fn takes_and_gives(rt: HostRuntime) -> Result<(), Fail> {
    let mut numbers = Numbers::new(rt.alloc(), 3)?;
    assert_eq!(rt; (numbers.lowest(), numbers.free_count()), (Some(0), 3));
    numbers.take(0);
    assert_eq!(rt; (numbers.lowest(), numbers.free_count()), (Some(1), 2));
    numbers.take(2);
    numbers.take(1);
    assert_eq!(rt; (numbers.lowest(), numbers.free_count()), (None, 0));
    numbers.give(2);
    numbers.give(0);
    assert_eq!(rt; (numbers.lowest(), numbers.free_count()), (Some(0), 2));
    assert_eq!(rt;
        (numbers.next_free(0), numbers.next_free(1)),
        (Some(0), Some(2))
    );
    numbers.take(0);
    assert_eq!(rt; numbers.lowest(), Some(2));
    assert_eq!(rt;
        (numbers.next_free(0), numbers.next_free(3)),
        (Some(2), None)
    );
    Ok(())
}

#[test]
fn no_number_is_free_of_none(rt: HostRuntime) -> Result<(), Fail> {
    let numbers = Numbers::new(rt.alloc(), 0)?;
    assert_eq!(rt; (numbers.lowest(), numbers.free_count()), (None, 0));
    Ok(())
}

// Takes the least free number, which is this one.
fn take_lowest(numbers: &mut Numbers, k: u64) -> Result<(), Fail>
    ensures { length numbers.new ≡ length numbers.old }
{
    match numbers.lowest() {
        Some(lowest) if lowest == k => numbers.take(k),
        _ => return Err("another number is the least".into()),
    }
    Ok(())
}

// Gives back a number, which is then the least free one.
fn give_lowest(numbers: &mut Numbers, k: u64) -> Result<(), Fail>
    requires { k < length numbers.old }
    ensures { length numbers.new ≡ length numbers.old }
{
    match numbers.next_free(k) {
        Some(next) if next == k => return Err("the number is free".into()),
        _ => numbers.give(k),
    }
    if numbers.lowest() == Some(k) {
        Ok(())
    } else {
        Err("another number is the least".into())
    }
}

// Takes these numbers in turn, each of which is the least free one.
fn take_each(numbers: &mut Numbers, first: u64, end: u64) -> Result<(), Fail>
    ensures { length numbers.new ≡ length numbers.old }
{
    for k in first..end {
        take_lowest(numbers, k)?;
    }
    Ok(())
}

// Takes all numbers from the least on, and gives them back from the last on.
fn take_all_and_give_back(alloc: Global, n: u64) -> Result<(), Fail> {
    let mut numbers = Numbers::new(alloc, n)?;
    take_each(&mut numbers, 0, n)?;
    if numbers.lowest().is_some() || numbers.next_free(0).is_some() {
        return Err("a number is free".into());
    }
    for back in 0..n {
        give_lowest(&mut numbers, n - 1 - back)?;
    }
    if numbers.free_count() == n {
        Ok(())
    } else {
        Err("some number is not free".into())
    }
}

#[test]
fn all_are_taken_and_given_back(rt: HostRuntime) -> Result<(), Fail> {
    take_all_and_give_back(rt.alloc(), 0)?;
    take_all_and_give_back(rt.alloc(), 1)?;
    take_all_and_give_back(rt.alloc(), 63)?;
    take_all_and_give_back(rt.alloc(), 64)?;
    take_all_and_give_back(rt.alloc(), 65)?;
    take_all_and_give_back(rt.alloc(), 128)
}

// In each row the second number is the least free one from the first on.
fn assert_next(rt: &impl Abort, numbers: &Numbers, rows: &[(u64, u64)]) {
    for (from, next) in rows {
        assert_eq!(rt; numbers.next_free(*from), Some(*next));
    }
}

#[test]
fn words_meet_without_a_gap(rt: HostRuntime) -> Result<(), Fail> {
    let mut numbers = Numbers::new(rt.alloc(), 130)?;
    take_each(&mut numbers, 0, 63)?;
    let rows = [(0, 63), (62, 63), (63, 63), (64, 64)];
    assert_next(&rt, &numbers, &rows);
    take_each(&mut numbers, 63, 64)?;
    let rows = [
        (0, 64),
        (63, 64),
        (64, 64),
        (65, 65),
        (127, 127),
        (128, 128),
        (129, 129),
    ];
    assert_next(&rt, &numbers, &rows);
    assert_eq!(rt; numbers.next_free(130), None);
    take_each(&mut numbers, 64, 129)?;
    assert_next(&rt, &numbers, &[(0, 129), (63, 129)]);
    Ok(())
}

// The least free number, in no more steps than so many numbers may take.
fn lowest_in_few_steps<L: Ledger>(numbers: &Numbers, steps: &mut Steps<L>) -> Option<u64>
    ensures none { length numbers.now ≡ 0 → steps.new ≤ steps.old }
    ensures one { length numbers.now ≤ 64 → steps.new ≤ steps.old + 1 }
    ensures two { length numbers.now ≤ 128 → steps.new ≤ steps.old + 2 }
    ensures many { length numbers.now ≤ 64000 → steps.new ≤ steps.old + 1000 }
{
    numbers.lowest_counted(steps)
}

fn lowest_from_none<L: Ledger>(numbers: &Numbers, blank: Blank) -> Option<u64>
    requires name { blank.name ≡ L.name }
    requires parts { blank.parts ≡ L.parts }
    requires some { 0 < blank.parts }
{
    lowest_in_few_steps(numbers, &mut Steps::<L>::new(blank))
}

fn lowest_of(numbers: &Numbers) -> Option<u64> {
    lowest_from_none::<Brand>(numbers, Blank::new(1))
}

#[test]
fn few_words_take_few_steps(rt: HostRuntime) -> Result<(), Fail> {
    let mut numbers = Numbers::new(rt.alloc(), 65)?;
    assert_eq!(rt; lowest_of(&numbers), Some(0));
    take_each(&mut numbers, 0, 64)?;
    assert_eq!(rt; lowest_of(&numbers), Some(64));
    Ok(())
}

#[test]
fn a_count_takes_no_byte(rt: HostRuntime) {
    assert_eq!(rt; size_of::<Steps<Brand>>(), 0);
}
