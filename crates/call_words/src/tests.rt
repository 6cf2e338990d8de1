// Each kind of call in words.
use crate::Words;
use interface::call::{Call, Picture};
use interface::values::{AtlasCommand, AtlasPaint, BlendMode, ImageQuality};
use shapes::{Affine, Color, Path, Rect};
use std::alloc::{AllocError, Global};
use std::test::Fail;

fn transform() -> Affine {
    Affine {
        a: 1.0,
        b: 0.5,
        c: 0.0,
        d: -2.0,
        e: 3.0,
        f: 4.0,
    }
}

fn rect() -> Rect {
    Rect {
        x0: -1.0,
        y0: 0.0,
        x1: 8.5,
        y1: 9.0,
    }
}

fn path() -> Path {
    Path {
        handle: 7,
        bounds: rect(),
    }
}

fn color() -> Color {
    Color {
        r: 0.25,
        g: 0.5,
        b: 0.75,
        a: 1.0,
    }
}

fn shown(alloc: Global, call: Call) -> Result<String, AllocError> {
    format!(in alloc; "{}", Words(call))
}

#[test]
fn commands(rt: HostRuntime) -> Result<(), Fail> {
    assert_eq!(rt;
        shown(
            rt.alloc(),
            Call::Command(AtlasCommand::SetTransform(transform()))
        )?
        .as_str(),
        "transform 3FF0000000000000 3FE0000000000000 0000000000000000 C000000000000000 4008000000000000 4010000000000000"
    );
    assert_eq!(rt;
        shown(
            rt.alloc(),
            Call::Command(AtlasCommand::SetPaint(AtlasPaint::Solid(color())))
        )?
        .as_str(),
        "paint solid 3E800000 3F000000 3F400000 3F800000"
    );
    assert_eq!(rt;
        shown(
            rt.alloc(),
            Call::Command(AtlasCommand::SetPaint(AtlasPaint::Gradient(258)))
        )?
        .as_str(),
        "paint gradient 258"
    );
    assert_eq!(rt;
        shown(
            rt.alloc(),
            Call::Command(AtlasCommand::SetPaintTransform(transform()))
        )?
        .as_str(),
        "paint_transform 3FF0000000000000 3FE0000000000000 0000000000000000 C000000000000000 4008000000000000 4010000000000000"
    );
    assert_eq!(rt;
        shown(rt.alloc(), Call::Command(AtlasCommand::FillPath(path())))?.as_str(),
        "fill_path 7 BFF0000000000000 0000000000000000 4021000000000000 4022000000000000"
    );
    assert_eq!(rt;
        shown(rt.alloc(), Call::Command(AtlasCommand::FillRect(rect())))?.as_str(),
        "fill_rect BFF0000000000000 0000000000000000 4021000000000000 4022000000000000"
    );
    assert_eq!(rt;
        shown(
            rt.alloc(),
            Call::Command(AtlasCommand::PushClipLayer(path()))
        )?
        .as_str(),
        "clip_layer 7 BFF0000000000000 0000000000000000 4021000000000000 4022000000000000"
    );
    assert_eq!(rt;
        shown(
            rt.alloc(),
            Call::Command(AtlasCommand::PushClipPath(path()))
        )?
        .as_str(),
        "clip_path 7 BFF0000000000000 0000000000000000 4021000000000000 4022000000000000"
    );
    assert_eq!(rt;
        shown(
            rt.alloc(),
            Call::Command(AtlasCommand::PushClipRect(rect()))
        )?
        .as_str(),
        "clip_rect BFF0000000000000 0000000000000000 4021000000000000 4022000000000000"
    );
    assert_eq!(rt;
        shown(
            rt.alloc(),
            Call::Command(AtlasCommand::PushBlendLayer(BlendMode { mix: 3, compose: 4 }))
        )?
        .as_str(),
        "blend 3 4"
    );
    assert_eq!(rt;
        shown(rt.alloc(), Call::Command(AtlasCommand::PopLayer))?.as_str(),
        "pop_layer"
    );
    assert_eq!(rt;
        shown(rt.alloc(), Call::Command(AtlasCommand::PopClipPath))?.as_str(),
        "pop_clip_path"
    );
    Ok(())
}

#[test]
fn calls_of_a_screen(rt: HostRuntime) -> Result<(), Fail> {
    assert_eq!(rt; shown(rt.alloc(), Call::SaveState)?.as_str(), "save");
    assert_eq!(rt; shown(rt.alloc(), Call::RestoreState)?.as_str(), "restore");
    assert_eq!(rt;
        shown(rt.alloc(), Call::StrokePath(path()))?.as_str(),
        "stroke_path 7 BFF0000000000000 0000000000000000 4021000000000000 4022000000000000"
    );
    assert_eq!(rt;
        shown(
            rt.alloc(),
            Call::SetPaintImage(Picture::PixmapHandle(258, ImageQuality::Low))
        )?
        .as_str(),
        "image pixmap 258 low"
    );
    assert_eq!(rt;
        shown(
            rt.alloc(),
            Call::SetPaintImage(Picture::AtlasPage(1, ImageQuality::Medium))
        )?
        .as_str(),
        "image atlas 1 medium"
    );
    assert_eq!(rt;
        shown(rt.alloc(), Call::SetTint(Some(color())))?.as_str(),
        "tint mask 3E800000 3F000000 3F400000 3F800000"
    );
    assert_eq!(rt;
        shown(rt.alloc(), Call::SetTint(None))?.as_str(),
        "tint none"
    );
    Ok(())
}
