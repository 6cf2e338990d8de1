// Page targets: a sink with too few places, and a count at its end.
use interface::sink::DrawSink;
use pages::recorder::AtlasCommandRecorder;
use pages::target::PageTarget;
use pages::targets::{CommandCounter, SinkTarget};
use shapes::refusal::Refusal;
use std::test::Fail;

#[test]
fn a_sink_with_two_places(rt: HostRuntime) -> Result<(), Fail> {
    let mut page = AtlasCommandRecorder::new(rt.alloc(), 0)?;
    let mut sink = AtlasCommandRecorder::new(rt.alloc(), 1)?;
    for _ in 0..118 {
        assert!(rt; sink.pop_layer().is_ok());
    }
    for _ in 0..3 {
        assert!(rt; page.pop_layer().is_ok());
    }
    let mut target = SinkTarget { sink: &mut sink };
    match target.offer(&page) {
        Ok(()) => return Err(Fail::new("three commands into two places")),
        Err(fault) => assert_eq!(rt; fault.number(), 15),
    }
    assert_eq!(rt; sink.commands().len(), 118);
    page.clear();
    assert!(rt; page.pop_clip_path().is_ok());
    assert!(rt; page.pop_clip_path().is_ok());
    let mut target = SinkTarget { sink: &mut sink };
    assert!(rt; target.offer(&page).is_ok());
    assert_eq!(rt; sink.commands().len(), 120);
    Ok(())
}

#[test]
fn a_count_at_its_end(rt: HostRuntime) -> Result<(), Fail> {
    let mut page = AtlasCommandRecorder::new(rt.alloc(), 0)?;
    assert!(rt; page.pop_layer().is_ok());
    assert!(rt; page.pop_layer().is_ok());
    let mut counter = CommandCounter {
        count: u64::MAX - 1,
    };
    let Ok(()) = counter.offer(&page);
    assert_eq!(rt; counter.count, u64::MAX);
    Ok(())
}
