// Editors and groups, where an editor is placed, and where groups become idle or end.
ghost use Rattle.std.specs.Prelude.{◌≡◌, ◌<◌, ◌^◌, ◌&&◌, false, ℕ, None, Some, length, max, nat_le, slice_get, slice_set};
ghost use Rattle.std.specs.Option.{option_map_or};
ghost use Rattle.editor_session.specs.declared.session.Session.{Session};
ghost use Rattle.editor_session.specs.Sessions.{is_gone};
ghost use Rattle.event_model.specs.declared.phase.Phase.TheVariants.{Waiting};
ghost use Rattle.group_table.specs.Tables.{Inside, with_groups};
ghost use Rattle.group_words.specs.declared.kept.Kept.{Kept};
ghost use Rattle.group_words.specs.Houses.{exit_of, idle_if_live};
ghost use Rattle.group_words.specs.Placing.{changed, ended, home_by, joined};
ghost use Rattle.mux_tables.specs.Stands.{ends};

use editor_session::Editors;
use event_model::Phase;
use group_table::Groups;
use group_words::Placed;
use message_body::Body;

// An editor waits, in the group in which it is placed, and the id of its `initialize` is kept.
pub fn seat(editors: &mut Editors, e: u64, id: Body, placed: Placed)
    requires { e < length editors.old }
    ensures count { length editors.new ≡ length editors.old }
    ensures sits { (x : Session) → slice_get editors.old e ≡ Some x → is_gone x.phase ≡ false
        → (y : Session) × (editors.new ≡ slice_set editors.old e y) × (y.phase ≡ Waiting)
        × (y.group ≡ home_by placed x.group) × ((g : ℕ) → home_by placed None ≡ Some g → y.id ≡ Some id) × (y.asks ≡ x.asks) × (y.full ≡ x.full) }
{
    editors.set(e, Phase::Waiting);
    match placed {
        Placed::Joins(g) => editors.place(e, g, id),
        Placed::New(g) => editors.place(e, g, id),
        Placed::Evicts(_, g) => editors.place(e, g, id),
        Placed::TooMany => {}
    }
}

// The group that it joins isn't idle any more.
pub fn join(groups: &mut Groups, placed: Placed)
    requires { Inside placed (length groups.old.groups) }
    ensures { groups.new ≡ with_groups (joined placed groups.old.groups) groups.old }
{
    match placed {
        Placed::Joins(g) => groups.busy(g),
        Placed::New(_) => {}
        Placed::Evicts(_, _) => {}
        Placed::TooMany => {}
    }
}

// Whether the group of this number lives.
pub fn lives(groups: &Groups, g: u64) -> bool
    ensures { result ≡ option_map_or (λ x. x.live) (slice_get groups.now.groups g) false }
{
    match groups.get(g) {
        None => false,
        Some(kept) => kept.live,
    }
}

// These end, one after the other.
pub fn end_all(groups: &mut Groups, numbers: &[u64])
    ensures { groups.new ≡ with_groups (ends numbers.now groups.old.groups) groups.old }
{
    for g in numbers {
        groups.end(*g);
    }
}

// A group goes on: it is wanted, and few enough of its starts ended.
fn goes_on(wanted: bool, exits: u64, restarts: u64) -> bool
    ensures { result ≡ (wanted && nat_le exits restarts) }
{
    wanted && exits <= restarts
}

// One of its starts ended: it ends with it, unless one is wanted and at most so many ended, this one included.
pub fn lose(groups: &mut Groups, g: u64, wanted: bool, restarts: u64)
    requires { (x : Kept) → slice_get groups.old.groups g ≡ Some x → x.exits < 2 ^ 63 }
    ensures { groups.new ≡ with_groups (changed g (exit_of restarts wanted) groups.old.groups) groups.old }
{
    let Some(exits) = groups.exits(g) else {
        return;
    };
    if goes_on(wanted, exits, restarts) {
        return;
    }
    groups.end(g);
}

// The later of two moments.
pub fn later(a: u64, b: u64) -> u64
    ensures { result ≡ max a b }
{
    if a < b { b } else { a }
}
