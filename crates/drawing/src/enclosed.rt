// What every drawing has around it: room for it is asked for before anything is sent, so that no drawing stops halfway, and the screen's
// state is saved before what is sent and restored after it.
ghost use Rattle.std.specs.Prelude.{◌≤◌, List, [], ◌∷◌, ◌++◌};
ghost use Rattle.std.specs.Fn.{FnOnceReturnsAtMut};
ghost use Rattle.interface.specs.declared.call.Call.{Call};
ghost use Rattle.interface.specs.declared.call.Call.TheVariants.{SaveState, RestoreState};
ghost use Rattle.interface.specs.Sinks.{Extended};
ghost use Rattle.drawing.specs.Between.{Roomy, Sends};

use interface::fault::SinkFault;
use interface::sink::GlyphRenderer;

// Room for the longest drawing.
const ROOM: usize = 8;

// Refused with 15 where fewer places are free.
pub(crate) fn check_room<S: GlyphRenderer>(screen: &S) -> Result<(), SinkFault>
    ensures { Roomy (S.DrawSink.means screen.now) result }
{
    if screen.free_places() < ROOM {
        return Err(SinkFault::NoPlace);
    }
    Ok(())
}

// Whatever calls `send` sends, they are sent between a save and a restore.
pub(crate) fn enclosed<S: GlyphRenderer, F: FnOnce(&mut S)>(screen: &mut S, send: F)
    requires room { 8 ≤ (S.DrawSink.means screen.old).free }
    requires callable { (x : _) → 6 ≤ (S.DrawSink.means x.now).free → F.pre send x }
    requires sends { (cs : List Call) × Sends S.DrawSink.means (λ m n. FnOnceReturnsAtMut F.FnOnce send m tt n) cs }
    ensures { (cs : List Call) → Sends S.DrawSink.means (λ m n. FnOnceReturnsAtMut F.FnOnce send m tt n) cs
        → Extended (S.DrawSink.means screen.old) (SaveState ∷ (cs ++ RestoreState ∷ [])) (S.DrawSink.means screen.new) }
{
    let state = screen.save_state().unwrap();
    send(screen);
    screen.restore_state(state).unwrap();
}
