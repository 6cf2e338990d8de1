// Taking what waits, the oldest first.
ghost use Rattle.shapes.specs.Answers.{KeepsRefused};
ghost use Rattle.glyph_atlas.specs.Calls.{ClearTaken, UploadTaken};
ghost use Rattle.glyph_atlas.specs.Places.{Clean};

use crate::atlas::GlyphAtlas;
use crate::fault::AtlasFault;
use crate::pending::{PendingBitmapUpload, PendingClearRect};

impl GlyphAtlas {
    // Refused with 7 while a clear waits: what is put on a page now may need that place cleared first.
    pub(crate) fn no_clear_waits(&self) -> Result<(), AtlasFault>
        ensures { Clean self.now result }
    {
        if self.clears.len() > 0 {
            return Err(AtlasFault::ClearWaits);
        }
        Ok(())
    }

    pub(crate) fn take_clear(&mut self) -> Option<PendingClearRect>
        ensures { ClearTaken self.old result self.new }
    {
        self.clears.take_first()
    }

    // Refused with 7 while a clear waits.
    pub(crate) fn take_upload(&mut self) -> Result<Option<PendingBitmapUpload>, AtlasFault>
        ensures takes { UploadTaken self.old result self.new }
        ensures keeps { KeepsRefused result self.old self.new }
    {
        self.no_clear_waits()?;
        Ok(self.uploads.take_first())
    }
}
