// The rules of session_laws, each a law of every legal history of several editors and groups: of each editor and each start.
ghost use Rattle.std.specs.Prelude.{◌≡◌, ℕ, ◌≤◌, ◌<◌, List};
ghost use Rattle.mux_history.specs.Cores.{spawns};
ghost use Rattle.mux_history.specs.declared.entry.Entry.{Entry};
ghost use Rattle.event_model.specs.Event.{events_of};
ghost use Rattle.event_model.specs.Settings.{Settings};
ghost use Rattle.event_model.specs.Spawns.{starts_of};
ghost use Rattle.mux_facts.specs.Ranges.{InRange};
ghost use Rattle.group_facts.specs.Legal.{Legal};
ghost use Rattle.group_sessions.specs.Due.{KeepsDue};
ghost use Rattle.group_sessions.specs.ExitReplay.{ExitsEnd, Replays};
ghost use Rattle.group_sessions.specs.LastLists.{KeepsLists};
ghost use Rattle.group_sessions.specs.Refreshes.{KeepsRefreshes};
ghost use Rattle.session_laws.specs.ClientRules.{KeepsClient1, KeepsClient2, KeepsClient3, KeepsClient4, KeepsClient5, KeepsClient6, KeepsClient7};
ghost use Rattle.session_laws.specs.ServerRules.{KeepsServer1, KeepsServer2, KeepsServer3, KeepsServer4, KeepsServer5, KeepsServer6, KeepsServer7, KeepsServer8};

/// A law: nothing goes to an editor whose link ended, or was to be ended (LSP 3.17, Base Protocol).
pub fn client_1()
    ensures { (settings : Settings) → InRange settings → (history : List Entry) → Legal settings history → KeepsClient1 history }
{}

/// A law: each response to an editor has the id of an open request of it, which it closes, or answers a body that was
/// no message with a null id (JSON-RPC 2.0, section 5; LSP 3.17, Response Message).
pub fn client_2()
    ensures { (settings : Settings) → InRange settings → (history : List Entry) → Legal settings history → KeepsClient2 history }
{}

/// A law: an editor gets nothing but responses until its `initialize` has a result and it sent a later message, and
/// one `initialize` of it at most gets a result (LSP 3.17, Initialize Request).
pub fn client_3()
    ensures { (settings : Settings) → InRange settings → (history : List Entry) → Legal settings history → KeepsClient3 history }
{}

/// A law: the n-th request to an editor has the id n (JSON-RPC 2.0, section 4).
pub fn client_4()
    ensures { (settings : Settings) → InRange settings → (history : List Entry) → Legal settings history → KeepsClient4 history }
{}

/// A law: a cancel to an editor names a request that was sent to it and that it hasn't answered (LSP 3.17, Cancellation Support).
pub fn client_5()
    ensures { (settings : Settings) → InRange settings → (history : List Entry) → Legal settings history → KeepsClient5 history }
{}

/// A law: progress that an editor is told has the token of an open request of it, or one that it was asked to create and answered
/// with a result, and of which no end was told since (LSP 3.17, Progress Support and Work Done Progress).
pub fn client_6()
    ensures { (settings : Settings) → InRange settings → (history : List Entry) → Legal settings history → KeepsClient6 history }
{}

/// A law: an editor is told to register what isn't registered there, and to take back what is, by the ids of the items (LSP 3.17,
/// Register Capability and Unregister Capability).
pub fn client_7()
    ensures { (settings : Settings) → InRange settings → (history : List Entry) → Legal settings history → KeepsClient7 history }
{}

/// A law: bodies go to a server's program while it runs, and not once it is to be ended (LSP 3.17, Lifecycle
/// Messages).
pub fn server_1()
    ensures { (settings : Settings) → InRange settings → (history : List Entry) → Legal settings history → KeepsServer1 history }
{}

/// A law: a server first gets the request `initialize`, until its result only responses, and then once the
/// notification `initialized` (LSP 3.17, Initialize Request and Initialized Notification).
pub fn server_2()
    ensures { (settings : Settings) → InRange settings → (history : List Entry) → Legal settings history → KeepsServer2 history }
{}

/// A law: the n-th request to a server has the id n (JSON-RPC 2.0, section 4).
pub fn server_3()
    ensures { (settings : Settings) → InRange settings → (history : List Entry) → Legal settings history → KeepsServer3 history }
{}

/// A law: a server is told that a document opens, under version 1, where it doesn't have it, and that one changes, under
/// its version plus 1, or closes, where it has it (LSP 3.17, Text Document Synchronization).
pub fn server_4()
    ensures { (settings : Settings) → InRange settings → (history : List Entry) → Legal settings history → KeepsServer4 history }
{}

/// A law: a response to a server has the id of a request that the server sent and that has no response yet (JSON-RPC 2.0, section 5; LSP 3.17,
/// Response Message).
pub fn server_5()
    ensures { (settings : Settings) → InRange settings → (history : List Entry) → Legal settings history → KeepsServer5 history }
{}

/// A law: a cancel to a server names a request that was sent to it and that it hasn't answered, and each is named once (LSP 3.17,
/// Cancellation Support).
pub fn server_6()
    ensures { (settings : Settings) → InRange settings → (history : List Entry) → Legal settings history → KeepsServer6 history }
{}

/// A law: a cancel of work to a server names the token of a request that it has to answer, as it was sent, or one that it created and
/// that hasn't ended (LSP 3.17, Work Done Progress).
pub fn server_7()
    ensures { (settings : Settings) → InRange settings → (history : List Entry) → Legal settings history → KeepsServer7 history }
{}

/// A law: behind `shutdown` a server gets `exit` alone, once it responded to `shutdown`; behind `exit` it gets nothing, and no `exit` without
/// `shutdown` (LSP 3.17, Shutdown Request and Exit Notification).
pub fn server_8()
    ensures { (settings : Settings) → InRange settings → (history : List Entry) → Legal settings history → KeepsServer8 history }
{}

/// A law: of each token that a start created an editor was sent what it is due: the start's messages since it accepted the token, and before
/// them what was held until then (LSP 3.17, Work Done Progress, Server Initiated Progress).
pub fn progress_due()
    ensures { (settings : Settings) → InRange settings → (history : List Entry) → Legal settings history → KeepsDue settings history }
{}

/// A law: each entry sends an editor just the lists of diagnostics that it is due, in order, as often as it is due them: the one that its group's
/// ready start publishes, while the editor runs; as it begins to run, each last list of that start that isn't empty; and as it opens a document,
/// that one's, if it isn't empty. This goes by what stands before the entry and behind its cause's row, where editors that are slow didn't leave yet.
/// Each goes there only where it fits by what the start and the editor have of its document, and with the editor's own version where it is
/// open there (LSP 3.17, Publish Diagnostics).
pub fn last_lists()
    ensures { (settings : Settings) → InRange settings → (history : List Entry) → Legal settings history → KeepsLists settings history }
{}

/// A law: where a start exits whose group lives, each request that an editor of the group sent on to it is answered by an error in that entry, and
/// behind the entry none that was sent on to it is open at an editor that is there. Where it was ready, of each editor that ran there each token
/// that it accepted and that began is ended, what the start asked it alone is cancelled, the last list of each document that it was sent is an
/// empty one, and nothing is registered. There is a new start for the group, as long as an editor needs it and starts of the group ended no more
/// often than they may; else the link of each editor of the group is ordered to be ended, and the group lives no more (LSP 3.17, Response Message,
/// Work Done Progress, Cancellation Support, Publish Diagnostics and Unregister Capability). Each request that waited for a start waits behind the
/// entry as well, or is answered by the error RequestFailed in it, or its editor isn't there any more.
pub fn exits_end()
    ensures { (settings : Settings) → InRange settings → (history : List Entry) → Legal settings history → ExitsEnd settings history }
{}

/// A law: what a ready start wants asked anew each editor that runs in its group is asked in that entry, or in the first later one in which a
/// message of the editor's own goes on to that start, where the start has the editor's texts; unless by then the start's program ended, the
/// editor left, or the start wants the same again (LSP 3.17, the refresh requests of Language Features).
pub fn refreshes()
    ensures { (settings : Settings) → InRange settings → (history : List Entry) → Legal settings history → KeepsRefreshes settings history }
{}

/// A law: in the row of a start's first result, behind the last document that it is brought, the start has just the documents that are open at an
/// editor of its group, each opened once, under version 1, in the holder's language and with its text, in the order of the earliest opening (LSP
/// 3.17, Text Document Synchronization). The requests that waited follow behind that, each behind a switch of its editor's documents.
pub fn replays()
    ensures { (settings : Settings) → InRange settings → (history : List Entry) → Legal settings history → Replays settings history }
{}

/// A law: no start is spawned twice, whatever group it is for. It is no rule of a session; that each lane of a server
/// has its own starts follows from it.
pub fn spawned_once()
    ensures { (settings : Settings) → InRange settings → (history : List Entry) → Legal settings history → (s : ℕ) → spawns s history ≤ 1 }
{}

/// A law: the starts that were spawned are those whose numbers are below how many there are, each of them once.
pub fn spawned_in_order()
    ensures below { (settings : Settings) → InRange settings → (history : List Entry) → Legal settings history
        → (s : ℕ) → s < starts_of (events_of history) → spawns s history ≡ 1 }
    ensures above { (settings : Settings) → InRange settings → (history : List Entry) → Legal settings history
        → (s : ℕ) → starts_of (events_of history) ≤ s → spawns s history ≡ 0 }
{}
