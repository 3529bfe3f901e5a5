// A clock that notes what a journal saw.
ghost use Rattle.std.specs.Prelude.{◌≡◌};

use crate::news::News;
use log::warn;
use outside_io::Clock;
use real_host::Notes;

/// A clock that gives another's moments, and notes at each what is new.
#[derive(Drop)]
pub struct NotingClock<C: Clock> {
    clock: C,
    news: News,
    notes: Notes,
}

impl<C: Clock> NotingClock<C> {
    /// This clock, which notes what is new here.
    pub fn new(clock: C, news: News, notes: Notes) -> NotingClock<C> {
        NotingClock { clock, news, notes }
    }

    fn note(&self) {
        if let Some(start) = self.news.take_used_up() {
            warn!(self.notes; "the server of start {start} ended too often: its editors' links are ended, and it isn't started again for them");
        }
        if let Some(editor) = self.news.take_cut_off() {
            warn!(self.notes; "editor {editor} doesn't read: its link is ended, since more waits for it than the settings' `backlog`");
        }
    }
}

impl<C: Clock> Clock for NotingClock<C> {
    ghost given = { λ c. C.given c.clock };

    ghost left = { λ c. C.left c.clock };

    fn next(&mut self) -> Option<u64> {
        let moment = self.clock.next();
        self.note();
        moment
    }
}
