// The commands that wait for one page, oldest first. Contracts see the page: its number and its commands.
use interface::values::AtlasCommand;
use lists::bounded::Bounded;
use std::marker::Model;

#[derive(Drop)]
pub struct AtlasCommandRecorder {
    pub(crate) page: u32,
    pub(crate) commands: Bounded<AtlasCommand, 120>,
}

impl Model for AtlasCommandRecorder {
    ghost use Rattle.pages.specs.Pages.{Page};

    ghost Value = { Page };

    ghost view = { λ r. record { number = r.page; commands = r.commands } };
}
