// Calls as records: the payload's length and the kind, two bytes each, and the payload.
ghost use Rattle.std.specs.Prelude.{◌≡◌};
ghost use Rattle.stream_screen.specs.Stream.{command_kind, kind_of, command_payload, payload_of, place, record_of};
ghost use Rattle.stream_screen.specs.Writes.{Room, Wrote};

use crate::encode::Encode;
use crate::writer::Writer;
use interface::call::Call;
use interface::values::AtlasCommand;

fn command_kind(command: AtlasCommand) -> u16
    ensures { result ≡ command_kind command }
{
    match command {
        AtlasCommand::SetTransform(_) => 1,
        AtlasCommand::SetPaint(_) => 2,
        AtlasCommand::SetPaintTransform(_) => 3,
        AtlasCommand::FillPath(_) => 4,
        AtlasCommand::FillRect(_) => 5,
        AtlasCommand::PushClipLayer(_) => 6,
        AtlasCommand::PushClipPath(_) => 7,
        AtlasCommand::PushClipRect(_) => 8,
        AtlasCommand::PushBlendLayer(_) => 9,
        AtlasCommand::PopLayer => 10,
        AtlasCommand::PopClipPath => 11,
    }
}

fn kind(call: Call) -> u16
    ensures { result ≡ kind_of call }
{
    match call {
        Call::Command(command) => command_kind(command),
        Call::SaveState => 12,
        Call::RestoreState => 13,
        Call::StrokePath(_) => 14,
        Call::SetPaintImage(_) => 15,
        Call::SetTint(_) => 16,
    }
}

// What a command carries.
impl Encode for AtlasCommand {
    ghost bytes = { command_payload };

    fn encode(self, writer: &mut Writer) {
        match self {
            AtlasCommand::SetTransform(t) | AtlasCommand::SetPaintTransform(t) => t.encode(writer),
            AtlasCommand::SetPaint(paint) => paint.encode(writer),
            AtlasCommand::FillPath(path)
            | AtlasCommand::PushClipLayer(path)
            | AtlasCommand::PushClipPath(path) => path.encode(writer),
            AtlasCommand::FillRect(rect) | AtlasCommand::PushClipRect(rect) => rect.encode(writer),
            AtlasCommand::PushBlendLayer(blend) => blend.encode(writer),
            AtlasCommand::PopLayer | AtlasCommand::PopClipPath => {}
        }
    }
}

// What a call carries: the payload of its record.
impl Encode for Call {
    ghost bytes = { payload_of };

    fn encode(self, writer: &mut Writer) {
        match self {
            Call::Command(command) => command.encode(writer),
            Call::SaveState | Call::RestoreState => {}
            Call::StrokePath(path) => path.encode(writer),
            Call::SetPaintImage(picture) => picture.encode(writer),
            Call::SetTint(tint) => tint.encode(writer),
        }
    }
}

impl Writer<'_> {
    // The payload's length stands before the payload, and is known after it.
    pub(crate) fn put_call(&mut self, call: Call)
        requires { Room place self.old }
        ensures { Wrote (record_of call) self.old self.new }
    {
        let start = self.used;
        [0, kind(call)].encode(self);
        call.encode(self);
        let length = (self.used - start - 4) as u16;
        self.out[start..start + 2].copy_from_slice(&length.to_le_bytes());
    }
}
