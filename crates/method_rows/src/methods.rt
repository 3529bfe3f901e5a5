use lsp_method::Class::*;
use lsp_method::{Class, Origin, class};
use std::test::Fail;

// A method, with its class as an editor's request and notification, and as a server's request and notification.
const METHODS: [(&str, [Class; 4]); 40] = [
    ("initialize", [Initialize, Dropped, Lowest, Broadcast]),
    ("shutdown", [Shutdown, Dropped, Lowest, Broadcast]),
    ("lspmux/open", [LspmuxOpen, Dropped, Lowest, Broadcast]),
    ("lspmux/status", [LspmuxStatus, Dropped, Lowest, Broadcast]),
    ("lspmux/stop", [LspmuxStop, Dropped, Lowest, Broadcast]),
    ("initialized", [Wrong, Initialized, Lowest, Broadcast]),
    ("exit", [Wrong, Exit, Lowest, Broadcast]),
    ("textDocument/didOpen", [Wrong, DidOpen, Lowest, Broadcast]),
    (
        "textDocument/didChange",
        [Wrong, DidChange, Lowest, Broadcast],
    ),
    (
        "textDocument/didClose",
        [Wrong, DidClose, Lowest, Broadcast],
    ),
    ("$/cancelRequest", [Wrong, Cancel, Lowest, Cancel]),
    (
        "window/workDoneProgress/cancel",
        [Wrong, ProgressCancel, Lowest, Broadcast],
    ),
    (
        "workspace/didChangeConfiguration",
        [Wrong, Configuration, Lowest, Broadcast],
    ),
    ("$/setTrace", [Wrong, Dropped, Lowest, Broadcast]),
    ("$/progress", [Wrong, Dropped, Lowest, Progress]),
    (
        "notebookDocument/didOpen",
        [Wrong, Dropped, Lowest, Broadcast],
    ),
    (
        "notebookDocument/didChange",
        [Wrong, Dropped, Lowest, Broadcast],
    ),
    (
        "notebookDocument/didSave",
        [Wrong, Dropped, Lowest, Broadcast],
    ),
    (
        "notebookDocument/didClose",
        [Wrong, Dropped, Lowest, Broadcast],
    ),
    (
        "workspace/didChangeWorkspaceFolders",
        [Wrong, Dropped, Lowest, Broadcast],
    ),
    (
        "client/registerCapability",
        [Other, Other, Register, Broadcast],
    ),
    (
        "client/unregisterCapability",
        [Other, Other, Unregister, Broadcast],
    ),
    (
        "window/workDoneProgress/create",
        [Other, Other, Create, Broadcast],
    ),
    (
        "workspace/workspaceFolders",
        [Other, Other, Folders, Broadcast],
    ),
    (
        "workspace/codeLens/refresh",
        [Other, Other, Refresh, Broadcast],
    ),
    (
        "workspace/semanticTokens/refresh",
        [Other, Other, Refresh, Broadcast],
    ),
    (
        "workspace/inlayHint/refresh",
        [Other, Other, Refresh, Broadcast],
    ),
    (
        "workspace/inlineValue/refresh",
        [Other, Other, Refresh, Broadcast],
    ),
    (
        "workspace/diagnostic/refresh",
        [Other, Other, Refresh, Broadcast],
    ),
    ("workspace/applyEdit", [Other, Other, Focused, Broadcast]),
    (
        "window/showMessageRequest",
        [Other, Other, Focused, Broadcast],
    ),
    ("window/showDocument", [Other, Other, Focused, Broadcast]),
    (
        "textDocument/publishDiagnostics",
        [Other, Other, Lowest, Diagnostics],
    ),
    ("", [Other, Other, Lowest, Broadcast]),
    ("textDocument/hover", [Other, Other, Lowest, Broadcast]),
    ("workspace/configuration", [Other, Other, Lowest, Broadcast]),
    ("window/logMessage", [Other, Other, Lowest, Broadcast]),
    ("initializE", [Other, Other, Lowest, Broadcast]),
    ("$/progres", [Other, Other, Lowest, Broadcast]),
    ("exit ", [Other, Other, Lowest, Broadcast]),
];

#[test]
fn each_method_has_its_class(rt: HostRuntime) -> Result<(), Fail> {
    for (method, classes) in METHODS {
        let method = method.as_bytes();
        let found = [
            class(method, Origin::Editor, false),
            class(method, Origin::Editor, true),
            class(method, Origin::Server, false),
            class(method, Origin::Server, true),
        ];
        assert_eq!(rt; found, classes);
    }
    Ok(())
}
