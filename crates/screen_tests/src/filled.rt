// The list of calls and the page recorder, filled to the last place and asked for one more.
use crate::screens;
use interface::fault::SinkFault;
use interface::sink::{DrawSink, GlyphRenderer};
use pages::recorder::AtlasCommandRecorder;
use std::test::Fail;

// Pops so often, and says how many were taken: a full sink goes on refusing.
fn pops<S: DrawSink>(sink: &mut S, most: usize) -> usize {
    (0..most).filter(|_| sink.pop_layer().is_ok()).count()
}

#[test]
fn five_hundred_and_twelve_calls(rt: HostRuntime) -> Result<(), Fail> {
    let mut screen = screens::numbered(rt.alloc(), 7)?;
    assert_eq!(rt; screen.free_places(), 512);
    assert_eq!(rt; pops(&mut screen, 600), 512);
    assert_eq!(rt; screen.free_places(), 0);
    assert!(rt; screen.set_tint(None) == Err(SinkFault::NoPlace));
    assert_eq!(rt; screen.calls().as_slice().len(), 512);
    Ok(())
}

#[test]
fn one_hundred_and_twenty_commands(rt: HostRuntime) -> Result<(), Fail> {
    let mut page = AtlasCommandRecorder::new(rt.alloc(), 3)?;
    assert!(rt; page.is_empty());
    assert_eq!(rt; pops(&mut page, 200), 120);
    assert_eq!(rt; page.free_places(), 0);
    assert_eq!(rt; page.commands().len(), 120);
    page.clear();
    assert_eq!(rt; page.free_places(), 120);
    assert_eq!(rt; page.page(), 3);
    Ok(())
}
