// The places in client capabilities (LSP 3.17) that have rules of their own.
ghost use Rattle.std.specs.Prelude.{◌≡◌, ℕ, List, bytes_eq, if◌then◌else◌};
ghost use Rattle.std.specs.Str.{chars};
ghost use Rattle.json_text.specs.String.{SpellsCharacters};
ghost use Rattle.capability_meet.specs.OnePass.{is_left_out, spot_of};

use json_nodes::json_token::spells_text;

// Where a value stands in the capabilities that are declared.
#[derive(Clone, Copy)]
pub enum Spot {
    Top,
    Window,
    ShowDocument,
    General,
    StaleRequestSupport,
    Elsewhere,
}

// Where the value of a member stands whose name is spelled so.
pub fn spot_of(spot: Spot, name: &[u8]) -> Spot
    ensures { (cs : List ℕ) → SpellsCharacters cs name.now → result ≡ spot_of spot cs }
{
    match spot {
        Spot::Top => top_spot(name),
        Spot::Window => named_spot(name, "showDocument", Spot::ShowDocument),
        Spot::General => named_spot(name, "staleRequestSupport", Spot::StaleRequestSupport),
        _ => Spot::Elsewhere,
    }
}

fn named_spot(raw: &[u8], name: &str, spot: Spot) -> Spot
    ensures { (cs : List ℕ) → SpellsCharacters cs raw.now → result ≡ (if bytes_eq (chars name.now) cs then spot else Spot.Elsewhere) }
{
    if spells_text(raw, name) {
        spot
    } else {
        Spot::Elsewhere
    }
}

fn top_spot(name: &[u8]) -> Spot
    ensures { (cs : List ℕ) → SpellsCharacters cs name.now → result ≡ spot_of Spot.Top cs }
{
    if spells_text(name, "window") {
        Spot::Window
    } else if spells_text(name, "general") {
        Spot::General
    } else {
        Spot::Elsewhere
    }
}

// Whether a member isn't declared whose name is spelled so.
pub fn is_left_out(spot: Spot, name: &[u8]) -> bool
    ensures { (cs : List ℕ) → SpellsCharacters cs name.now → result ≡ is_left_out spot cs }
{
    match spot {
        Spot::Top => spells_text(name, "notebookDocument") || spells_text(name, "offsetEncoding"),
        _ => false,
    }
}
