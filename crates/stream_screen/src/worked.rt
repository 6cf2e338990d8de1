// The worked cases and the laws of records, as statements on the definitions, and three records written by the code.
ghost use Rattle.std.specs.Prelude.{◌≡◌, true};
ghost use Rattle.stream_screen.specs.Laws.{ReadsBack, Short};
ghost use Rattle.stream_screen.specs.Worked.{Worked};

use crate::call_bytes::CallBytes;
use interface::sink::{DrawSink, GlyphRenderer};
use shapes::Color;

pub fn records_hold() -> bool
    ensures cases { Worked }
    ensures reads { ReadsBack }
    ensures short { Short }
    ensures run { result ≡ true }
{
    let mut out = [0; 156];
    let mut screen = CallBytes::screen(&mut out, 7, Color::from_bits(0, 0, 0, 0));
    let state = screen.save_state().unwrap();
    screen.pop_layer().unwrap();
    screen.restore_state(state).unwrap();
    screen.calls().bytes() == [0, 0, 12, 0, 0, 0, 10, 0, 0, 0, 13, 0].as_slice()
}
