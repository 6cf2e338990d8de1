// What a new picture needs: commands on its page, or an upload.
ghost use Rattle.std.specs.Prelude.{◌≡◌, ◌≤◌, length};
ghost use Rattle.std.specs.List.{All};
ghost use Rattle.shapes.specs.Answers.{KeepsRefused};
ghost use Rattle.atlas_pages.specs.Sets.{numbers, page_numbers, Fits};
ghost use Rattle.atlas_pages.specs.AllPages.{any_crowded};
ghost use Rattle.glyph_atlas.specs.Queues.{Commanded, Queued};

use crate::atlas::GlyphAtlas;
use crate::fault::AtlasFault;
use crate::pending::PendingBitmapUpload;
use interface::values::AtlasCommand;

impl GlyphAtlas {
    // Some page has fewer than 3 of its 120 places free. The pages are 0 to 3, and none holds more than 120 commands.
    pub fn is_crowded(&self) -> bool
        ensures crowded { result ≡ any_crowded self.now.pages }
        ensures numbered { numbers self.now.pages ≡ page_numbers }
        ensures fits { All Fits self.now.pages }
    {
        self.pages.is_crowded()
    }

    // At most 256.
    pub fn clears_waiting(&self) -> usize
        ensures value { result ≡ length self.now.clears }
        ensures few { result ≤ 256 }
    {
        self.clears.len()
    }

    // At most 64.
    pub fn uploads_waiting(&self) -> usize
        ensures value { result ≡ length self.now.uploads }
        ensures few { result ≤ 64 }
    {
        self.uploads.len()
    }

    // Three commands for the page of that number; refused with 13 where some page is crowded.
    pub fn record(&mut self, page: u32, commands: [AtlasCommand; 3]) -> Result<(), AtlasFault>
        ensures records { Commanded self.old page commands result self.new }
        ensures keeps { KeepsRefused result self.old self.new }
    {
        self.pages
            .record(page, commands)
            .map_err(|_| AtlasFault::QueueFull)
    }

    // An upload, after those that wait; refused with 13 where 64 do.
    pub fn queue_upload(&mut self, upload: PendingBitmapUpload) -> Result<(), AtlasFault>
        ensures queues { Queued self.old upload result self.new }
        ensures keeps { KeepsRefused result self.old self.new }
    {
        self.uploads.push(upload).map_err(|_| AtlasFault::QueueFull)
    }
}
