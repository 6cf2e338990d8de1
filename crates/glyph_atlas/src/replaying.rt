// Replay: the pages are offered to a target, and emptied.
ghost use Rattle.shapes.specs.Answers.{KeepsRefused};
ghost use Rattle.glyph_atlas.specs.Calls.{Replayed};

use crate::atlas::GlyphAtlas;
use crate::fault::AtlasFault;
use pages::target::PageTarget;

impl GlyphAtlas {
    // The outer answer is the atlas's, refused with 7 while a clear waits; the inner one is the target's.
    pub(crate) fn replay<T: PageTarget>(
        &mut self,
        target: &mut T,
    ) -> Result<Result<(), T::Failure>, AtlasFault>
        ensures replays { Replayed T.PageTarget.takes self.old target.old result self.new target.new }
        ensures keeps { KeepsRefused result self.old self.new }
    {
        self.no_clear_waits()?;
        let answer = self.pages.offer_all(target);
        self.pages.clear();
        Ok(answer)
    }
}
