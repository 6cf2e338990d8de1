// The commands that wait for the four pages of an atlas, seen as the list of these pages; a page that its image cache does not have stays empty.
use pages::recorder::AtlasCommandRecorder;
use std::marker::Model;

// Pages of an atlas.
pub(crate) const PAGES: usize = 4;

#[derive(Drop)]
pub struct AtlasPages {
    pub(crate) recorders: [AtlasCommandRecorder; PAGES],
}

// The recorder at each place is that of the page of this number, and none holds more than 120 commands.
impl Model for AtlasPages {
    ghost use Rattle.std.specs.Prelude.{◌≡◌, List};
    ghost use Rattle.std.specs.List.{All};
    ghost use Rattle.pages.specs.Pages.{Page};
    ghost use Rattle.atlas_pages.specs.Sets.{numbers, page_numbers, Fits};

    ghost Value = { List Page };

    ghost view = { λ s. s.recorders };

    ghost invariant = { λ s. (numbers s.recorders ≡ page_numbers) × All Fits s.recorders };
}
