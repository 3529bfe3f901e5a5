// Laws of every legal history of several editors and groups.
ghost use Rattle.std.specs.Prelude.{◌≡◌, ◌++◌, ℕ, List};
ghost use Rattle.mux_history.specs.declared.entry.Entry.{Entry};
ghost use Rattle.document_model.specs.Rows.{Agrees};
ghost use Rattle.event_model.specs.Event.{Event, events_of};
ghost use Rattle.event_model.specs.Settings.{Settings};
ghost use Rattle.mux_facts.specs.Ranges.{InRange};
ghost use Rattle.group_facts.specs.Facts.{Known};
ghost use Rattle.group_facts.specs.Legal.{Legal};
ghost use Rattle.group_facts.specs.OwnTexts.{OwnTexts};
ghost use Rattle.group_facts.specs.OwnVersions.{HasOwnTexts, IsSentOn, IsUnder, OwnVersions};
ghost use Rattle.group_facts.specs.Settled.{Settled};
ghost use Rattle.group_facts.specs.Switches.{Switches};
ghost use Rattle.group_facts.specs.Why.{HasReasons};

/// A law: each out of every entry is sent for one of the reasons of `specs/Why.antt`, at its place.
pub fn every_out()
    ensures { (settings : Settings) → InRange settings → (history : List Entry) → Legal settings history → HasReasons settings history }
{}

/// A law: what `Known` says holds of all events of a legal history.
pub fn every_history()
    ensures { (settings : Settings) → InRange settings → (history : List Entry) → Legal settings history → Known settings (events_of history) }
{}

/// A law: what `Settled` says holds of all events of a legal history.
pub fn every_settled()
    ensures { (settings : Settings) → InRange settings → (history : List Entry) → Legal settings history → Settled settings (events_of history) }
{}

/// A law: a request or notification of an editor that goes on goes behind a switch of just those of the editor's documents on which its server
/// doesn't agree with it (LSP 3.17, Text Document Synchronization).
pub fn switches()
    ensures { (settings : Settings) → InRange settings → (history : List Entry) → Legal settings history → Switches settings history }
{}

/// A law: an answer of a ready start that goes to an editor is that to an open request of it which was sent on to the start, under the
/// editor's own id, and each version of a document in it is the editor's own, or null where the document isn't open there; where one stands
/// for no text that the editor has, or had as it asked, the editor gets the error ContentModified instead (LSP 3.17,
/// OptionalVersionedTextDocumentIdentifier). An edit that a ready start asks an editor to apply goes there with the editor's own versions,
/// or null where a document isn't open there, and all else as the start gave it but for the id (LSP 3.17, ApplyWorkspaceEditParams).
pub fn own_versions()
    ensures { (settings : Settings) → InRange settings → (history : List Entry) → Legal settings history → OwnVersions settings history }
{}

/// A law: in a history that keeps `OwnTexts`, where a request was sent on to a start, the start had of each document that was open at the
/// editor that asked the editor's own text in its language. So the version that the editor had then stands for the text that the start had
/// under its own.
pub fn own_moments()
    ensures moments { (settings : Settings) (history : List Entry) → OwnTexts settings history → (s n e : ℕ) (id : List ℕ) (events later : List Event)
        → events_of history ≡ events ++ later → (k : IsSentOn settings s events n e id) → HasOwnTexts settings s e k.moment }
    ensures agreed { (settings : Settings) (s e : ℕ) (events : List Event) (u digits : List ℕ) → HasOwnTexts settings s e events
        → (k : IsUnder settings s e events u digits) → Agrees k.own k.held }
{}
