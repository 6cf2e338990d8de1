// The screen that writes its calls as bytes into a lent buffer.
ghost use Rattle.std.specs.Prelude.{◌≡◌, length};
ghost use Rattle.stream_screen.specs.Means.{stream_means, new_screen};

use crate::call_bytes::CallBytes;
use interface::screen::Screen;
use interface::sink::DrawSink;
use shapes::Color;

pub type StreamScreen<'a> = Screen<CallBytes<'a>>;

impl<'a> CallBytes<'a> {
    // A screen over a lent buffer, from its number and its colour. `draws`: of every such screen, what drawing does is said of `stream_means`.
    pub fn screen(out: &'a mut [u8], number: u32, colour: Color) -> StreamScreen<'a>
        ensures means { stream_means result ≡ new_screen (length out.old) number colour }
        ensures draws { (s : _) → ⟦<StreamScreen<'a> as DrawSink>⟧.means s ≡ stream_means s }
        ensures lent { result.calls.writer.out.ghost_name ≡ out.entry.ghost_name }
    {
        Screen::new(CallBytes::new(out), number, colour)
    }
}
