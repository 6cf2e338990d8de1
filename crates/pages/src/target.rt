// Whoever takes the commands of a page.
ghost use Rattle.std.specs.Prelude.{Result as Answer};
ghost use Rattle.pages.specs.Pages.{Page};

use crate::recorder::AtlasCommandRecorder;

pub trait PageTarget {
    type Failure;

    // what one offer of a page does: the target before, the page, the answer, the target after
    ghost takes: { Self → Page → Answer (Unit {0}) Self.Failure → Self → Type 0 };

    fn offer(&mut self, page: &AtlasCommandRecorder) -> Result<(), Self::Failure>
        ensures { takes self.old page.now result self.new };
}
