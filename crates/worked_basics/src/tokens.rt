// A fence gives a token, or none where it fails.
use fence_token::{fence, flush_span};
use pm_memory::RamPm;
use pm_trait::{Event, Pm, PmFault};
use std::test::Fail;

#[test]
fn a_fence_gives_a_token(rt: HostRuntime) -> Result<(), Fail> {
    let alloc = rt.alloc();
    let words = vec![in alloc; 0; 24]?;
    let mut pm = RamPm::new(alloc, words.as_slice())?;
    pm.reserve(4)?;
    pm.store(9, 5);
    let _ticket = flush_span(&mut pm, 7, 9);
    assert_eq!(rt; pm.fences(), 0);
    let _token = fence(&mut pm)?;
    assert_eq!(rt; pm.fences(), 1);
    assert_eq!(rt; pm.events(), 4);
    assert_eq!(rt; pm.event(0), Event::Store { word: 9, value: 5 });
    assert_eq!(rt; pm.event(1), Event::Flush { line: 0 });
    assert_eq!(rt; pm.event(2), Event::Flush { line: 1 });
    assert_eq!(rt; pm.event(3), Event::Fence);
    Ok(())
}

#[test]
fn a_failed_fence_gives_none(rt: HostRuntime) -> Result<(), Fail> {
    let failing = vec![in rt.alloc(); 1]?;
    let mut pm = RamPm::with_failing(rt.alloc(), &[7], failing)?;
    pm.reserve(1)?;
    assert_eq!(rt; fence(&mut pm).err(), Some(PmFault));
    assert_eq!(rt; pm.fences(), 0);
    assert_eq!(rt; pm.event(0), Event::BadFence);
    Ok(())
}
