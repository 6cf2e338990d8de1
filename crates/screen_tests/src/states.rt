// Saved states given back to another screen, and out of order. A state cannot be let go, so that each refusal is followed by giving it back where it belongs; that this cannot be
// refused is proved.
use crate::screens;
use interface::sink::{DrawSink, GlyphRenderer};
use interface::state::RestoreRefused;
use shapes::refusal::Refusal;
use std::test::Fail;

// Saves on the first screen, and gives the state to the second: the number with which that is refused, if it is.
fn given_to_another<S: GlyphRenderer, T: GlyphRenderer>(
    first: &mut S,
    second: &mut T,
) -> Option<u8> {
    let state = first.save_state().ok()?;
    let RestoreRefused { state, fault } = second.restore_state(state).err()?;
    first.restore_state(state).unwrap();
    Some(fault.number())
}

#[test]
fn another_screen(rt: HostRuntime) -> Result<(), Fail> {
    let mut first = screens::numbered(rt.alloc(), 1)?;
    let mut second = screens::numbered(rt.alloc(), 2)?;
    assert_eq!(rt; given_to_another(&mut first, &mut second), Some(10));
    assert_eq!(rt; first.free_places(), 510);
    assert_eq!(rt; second.free_places(), 512);
    Ok(())
}

#[test]
fn another_screen_of_the_same_number(rt: HostRuntime) -> Result<(), Fail> {
    let mut first = screens::numbered(rt.alloc(), 1)?;
    let mut second = screens::numbered(rt.alloc(), 1)?;
    assert_eq!(rt; given_to_another(&mut first, &mut second), Some(10));
    Ok(())
}

// Saves twice, and gives the first state back before the second: the number with which that is refused, if it is.
fn out_of_order<S: GlyphRenderer>(screen: &mut S) -> Option<u8> {
    let outer = screen.save_state().ok()?;
    let Ok(inner) = screen.save_state() else {
        screen.restore_state(outer).unwrap();
        return None;
    };
    let RestoreRefused { state, fault } = screen.restore_state(outer).unwrap_err();
    screen.restore_state(inner).unwrap();
    screen.restore_state(state).unwrap();
    Some(fault.number())
}

#[test]
fn the_outer_state_first(rt: HostRuntime) -> Result<(), Fail> {
    let mut screen = screens::numbered(rt.alloc(), 1)?;
    assert_eq!(rt; out_of_order(&mut screen), Some(10));
    assert_eq!(rt; screen.calls().as_slice().len(), 4);
    Ok(())
}
