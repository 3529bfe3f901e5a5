// What the multiplexer keeps.
ghost use Rattle.std.specs.Prelude.{◌≡◌, ◌≤◌, [], IfOk};
ghost use Rattle.event_model.specs.Settings.{Settings};
ghost use Rattle.mux_tables.specs.Documents.{DocumentsStand, nothing_owed};
ghost use Rattle.mux_tables.specs.Stands.{Stands};

use ask_route::Asks;
use diagnostics_route::Lists;
use editor_session::Editors;
use focus_switch::Shared;
use group_laws::registrations::Live;
use group_table::Groups;
use id_rewrite::IdTable;
use message_body::{Body, Memory};
use mux_tokens::Created;
use mux_waits::Waiting;
use restart_replay::Life;
use std::alloc::Global;
use text_pieces::PieceText;

/// What is kept of the last start of one group: where it stands, whether its program ever ran, the requests that it has to
/// answer, what editors are shown of the result of its `initialize`, where it gave one and isn't to end, what it asked of
/// editors that didn't answer yet, what it asks of one as soon as an editor runs: all of these are parked, what it registered
/// and didn't take back, and the last list of diagnostics of each document.
#[derive(Drop)]
pub struct Start {
    pub life: Life,
    pub started: bool,
    pub ids: IdTable,
    pub shown: Option<Body>,
    pub asks: Asks,
    pub parked: Asks,
    pub live: Live,
    pub lists: Lists,
}

/// What is kept of the starts, beside the last ones of groups.
#[derive(Drop)]
pub struct Origins {
    /// The group of each start, by the start's number.
    pub groups: Vec<u64>,
    /// The starts, rising, that were sent `shutdown`, as long as the answer is awaited.
    pub stopping: Vec<u64>,
    /// The tokens for progress that starts created, until a start's program ends.
    pub created: Created,
    /// The requests that wait until a start of their group is ready.
    pub waiting: Waiting,
}

/// How far it has come.
#[derive(Clone, Copy, Debug)]
pub struct Course {
    /// The greatest tick so far, in seconds.
    pub time: u64,
    /// Whether an editor stopped all.
    pub stopped: bool,
}

/// The tables.
#[derive(Drop)]
pub struct Tables {
    /// The editors, by number.
    pub editors: Editors,
    /// The groups, by number.
    pub groups: Groups,
    /// How far it has come.
    pub course: Course,
    /// The last starts of the groups, by rising numbers of these: of each group that lives, and of each whose last start isn't over.
    pub lasts: Vec<Start>,
    /// The starts.
    pub origins: Origins,
    /// The documents of each of these groups, in the same places; they stay where a start is followed by another.
    pub documents: Vec<Shared<PieceText>>,
    /// The number at which requests end.
    pub requests: u32,
    /// The versions that a document has at most at a start.
    pub versions: u32,
}

impl Tables {
    /// Nothing was heard: at most `groups` groups live at once, each idle one for `idle` seconds, and the numbers of requests end
    /// below `requests`, and a document has at most `versions` versions at a start.
    #[tactic(auto, using(crate::proofs::Begins::begins, crate::proofs::DocumentBegins::documents_begin))]
    pub fn new(
        alloc: Global,
        groups: u32,
        idle: u64,
        requests: u32,
        versions: u32,
    ) -> Result<Tables, Memory>
        requires { 2 ≤ requests }
        ensures stands { IfOk result (λ tables. (settings : Settings) → settings.limits.groups ≡ groups → settings.limits.idle ≡ idle
            → settings.limits.requests ≡ requests → Stands settings tables []) }
        ensures documents { IfOk result (λ tables. (settings : Settings) → settings.limits.versions ≡ versions
            → DocumentsStand settings nothing_owed tables []) }
    {
        Ok(Tables {
            editors: Editors::new(alloc),
            groups: Groups::new(alloc, groups, idle)?,
            course: Course {
                time: 0,
                stopped: false,
            },
            lasts: Vec::new(alloc),
            origins: Origins {
                groups: Vec::new(alloc),
                stopping: Vec::new(alloc),
                created: Created::new(alloc),
                waiting: Waiting::new(alloc),
            },
            documents: Vec::new(alloc),
            requests,
            versions,
        })
    }
}
