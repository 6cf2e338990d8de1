// The eleven commands, and all calls of a screen, in words.
use crate::Words;
use interface::call::Call;
use interface::values::AtlasCommand;
use std::fmt;

impl fmt::Display for Words<AtlasCommand> {
    fn fmt<W: fmt::Write>(&self, f: &mut fmt::Formatter<W>) -> fmt::Result {
        match self.0 {
            AtlasCommand::SetTransform(t) => write!(f, "transform {}", Words(t)),
            AtlasCommand::SetPaint(paint) => write!(f, "paint {}", Words(paint)),
            AtlasCommand::SetPaintTransform(t) => write!(f, "paint_transform {}", Words(t)),
            AtlasCommand::FillPath(path) => write!(f, "fill_path {}", Words(path)),
            AtlasCommand::FillRect(rect) => write!(f, "fill_rect {}", Words(rect)),
            AtlasCommand::PushClipLayer(clip) => write!(f, "clip_layer {}", Words(clip)),
            AtlasCommand::PushClipPath(clip) => write!(f, "clip_path {}", Words(clip)),
            AtlasCommand::PushClipRect(clip) => write!(f, "clip_rect {}", Words(clip)),
            AtlasCommand::PushBlendLayer(blend) => write!(f, "blend {}", Words(blend)),
            AtlasCommand::PopLayer => f.write_str("pop_layer"),
            AtlasCommand::PopClipPath => f.write_str("pop_clip_path"),
        }
    }
}

impl fmt::Display for Words<Call> {
    fn fmt<W: fmt::Write>(&self, f: &mut fmt::Formatter<W>) -> fmt::Result {
        match self.0 {
            Call::Command(command) => write!(f, "{}", Words(command)),
            Call::SaveState => f.write_str("save"),
            Call::RestoreState => f.write_str("restore"),
            Call::StrokePath(path) => write!(f, "stroke_path {}", Words(path)),
            Call::SetPaintImage(picture) => write!(f, "image {}", Words(picture)),
            Call::SetTint(tint) => write!(f, "tint {}", Words(tint)),
        }
    }
}
