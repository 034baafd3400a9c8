// Rows of what scripts cost, and of what the plan of a line tells of it.
use mount_scan::mount;
use pm_memory::RamPm;
use script::Call;
use std::alloc::Global;
use std::test::Fail;
use worked_drivers::jobs::{events_of, is_done, mark_fences, run_on, same};

// A script, its replies, and how many fences and events its lines take.
pub(crate) type Cost<'a> = (&'a str, &'a str, u64, u64);

// Runs each script on what those before it left, the first on this volume. What they left at the end.
pub(crate) fn compare_costs(
    alloc: Global,
    volume: &[u64],
    costs: &[Cost<'_>],
) -> Result<Vec<u64>, Fail> {
    let mut image = volume.to_vec(alloc)?;
    for cost in costs {
        compare_plan(alloc, image.as_slice(), *cost)?;
        image = compare_cost(alloc, image.as_slice(), *cost)?;
    }
    Ok(image)
}

// Runs a script to its end. What it left.
fn compare_cost(alloc: Global, volume: &[u64], cost: Cost<'_>) -> Result<Vec<u64>, Fail> {
    let (script, told, fences, events) = cost;
    let mut pm = RamPm::new(alloc, volume)?;
    let left = run_on(alloc, &mut pm, script)?;
    is_done(&left, told, script)?;
    let marking = mark_fences(volume, fences);
    let counted = (left.fences, events_of(&pm)?.saturating_sub(left.acks));
    let wanted = (
        fences.saturating_add(marking),
        events.saturating_add(marking.saturating_mul(3)),
    );
    same(counted, wanted, script)?;
    Ok(left.image)
}

// Where a script is one line, its plan tells these fences, or it is refused.
fn compare_plan(alloc: Global, volume: &[u64], cost: Cost<'_>) -> Result<(), Fail> {
    let (script, told, fences, _) = cost;
    let Some(line) = script.strip_suffix('\n') else {
        return Err("no line".into());
    };
    if line.contains('\n') {
        return Ok(());
    }
    match planned_fences(alloc, volume, line)? {
        Some(planned) => same(planned, fences, script),
        None => same(told.starts_with("error "), true, script),
    }
}

// How many fences the plan of a line tells, on a volume of these words. A line that is refused has none.
fn planned_fences(alloc: Global, volume: &[u64], line: &str) -> Result<Option<u64>, Fail> {
    let mut pm = RamPm::new(alloc, volume)?;
    let mut volume = mount(alloc, &mut pm)?;
    let mut scratch = vec![in alloc; 0; 32_768]?;
    let Call::Do(command) = Call::parse(line.as_bytes(), scratch.as_mut_slice()) else {
        return Ok(None);
    };
    match volume.prepare(&command, &mut pm) {
        Ok(plan) => Ok(Some(plan.fences())),
        Err(_) => Ok(None),
    }
}
