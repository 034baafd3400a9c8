// A list in pieces beside a plain vector.
ghost use Rattle.std.specs.Prelude.{◌<◌, ◌≤◌, length};

use pieces::Pieces;
use std::process::Abort;
use std::test::Fail;

#[derive(Clone, Copy)]
enum Place {
    Front,
    Middle,
    End,
}

fn place_in(len: usize, place: Place) -> usize
    ensures { result ≤ len }
{
    match place {
        Place::Front => 0,
        Place::Middle => len / 2,
        Place::End => len,
    }
}

// Puts so many items into both lists.
fn add_items(
    list: &mut Pieces<u64>,
    plain: &mut Vec<u64>,
    place: Place,
    count: u64,
) -> Result<(), Fail> {
    for item in 0..count {
        let at = place_in(list.len(), place);
        if plain.len() < at {
            return Err("the plain vector is shorter".into());
        }
        list.reserve_one()?;
        list.insert(at, item);
        plain.insert(at, item)?;
    }
    Ok(())
}

// Removes from both lists all items but each so-many-th, from the end on, and asserts that they are the same.
fn keep_each(rt: &impl Abort, list: &mut Pieces<u64>, plain: &mut Vec<u64>, step: usize)
    requires { 0 < step }
{
    for k in (0..plain.len()).rev() {
        if k % step != 0 {
            assert!(rt; k < list.len());
            assert!(rt; k < plain.len());
            assert_eq!(rt; list.remove(k), plain.remove(k));
        }
    }
}

fn assert_same(rt: &impl Abort, list: &Pieces<u64>, plain: &Vec<u64>) {
    assert_eq!(rt; list.len(), plain.len());
    for k in 0..plain.len() {
        assert_eq!(rt; *list.get(k), plain[k]);
    }
    assert_eq!(rt; list.last().copied(), plain.last().copied());
}

#[test]
fn is_as_a_plain_vector(rt: HostRuntime) -> Result<(), Fail> {
    for place in [Place::Front, Place::Middle, Place::End] {
        let mut list = Pieces::new(rt.alloc());
        let mut plain = Vec::new(rt.alloc());
        assert_same(&rt, &list, &plain);
        for (count, step) in [(1_000, 2), (700, 200), (600, 1_000), (300, 300)] {
            add_items(&mut list, &mut plain, place, count)?;
            assert_same(&rt, &list, &plain);
            keep_each(&rt, &mut list, &mut plain, step);
            assert_same(&rt, &list, &plain);
        }
    }
    Ok(())
}
