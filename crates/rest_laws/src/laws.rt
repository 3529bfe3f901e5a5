// That an editor on whose texts a start agrees is left at rest.
ghost use Rattle.std.specs.Prelude.{◌≡◌, ◌↔◌, ℕ, true, List};
ghost use Rattle.mux_history.specs.declared.entry.Entry.{Entry};
ghost use Rattle.event_model.specs.Event.{Event};
ghost use Rattle.event_model.specs.Settings.{Settings};
ghost use Rattle.mux_facts.specs.Ranges.{InRange};
ghost use Rattle.group_rows.specs.Debts.{agrees_on_all};
ghost use Rattle.group_facts.specs.Legal.{Legal};
ghost use Rattle.group_facts.specs.OwnVersions.{HasOwnTexts};
ghost use Rattle.group_sessions.specs.Refreshes.{KeepsRest};
ghost use Rattle.rest_laws.specs.Encodings.{OneEncoding};
ghost use Rattle.rest_laws.specs.Silent.{Silent};
ghost use Rattle.rest_laws.specs.Told.{ToldReady};

/// A law: a start agrees with an editor on all that it has open just where it has the editor's own language and text of each document that is open there.
pub fn kept_agreement()
    ensures { (settings : Settings) (s e : ℕ) (events : List Event) → (agrees_on_all settings s events e ≡ true) ↔ HasOwnTexts settings s e events }
{}

/// A law: in an entry in which no editor says anything, and no editor's link ends or is to be ended, a start that was ready before is told of
/// no document. So nothing that servers ask, answer or publish, and no tick or exit, switches a text (LSP 3.17, Text Document
/// Synchronization).
pub fn silence()
    ensures { (settings : Settings) → InRange settings → (history : List Entry) → Legal settings history → Silent history }
{}

/// A law: where a start that is ready has an editor's own texts and owes it nothing, that is so behind each later entry behind which it is
/// ready, and it is told of no other text of a document that the editor has open, until the editor leaves, the start's program ends, or another
/// editor says anything of a document or anything that goes on to the start, or leaves. So what the start wants asked anew, what the editor asks
/// then, and its own didOpen, didChange and didClose leave it at rest (LSP 3.17, Text Document Synchronization and the refresh requests of
/// Language Features).
pub fn rest()
    ensures { (settings : Settings) → InRange settings → (history : List Entry) → Legal settings history → KeepsRest settings history }
{}

/// A law: a start that is ready gave an encoding of positions, and those of what the editors of its group have open count by it (LSP 3.17,
/// PositionEncodingKind).
pub fn one_encoding()
    ensures { (settings : Settings) → InRange settings → (history : List Entry) → Legal settings history → OneEncoding history }
{}

/// A law: a notification on a document goes to a start only while it is ready: behind its first result, and not once it is told to stop (LSP
/// 3.17, Lifecycle Messages).
pub fn told_ready()
    ensures { (settings : Settings) → InRange settings → (history : List Entry) → Legal settings history → ToldReady history }
{}
