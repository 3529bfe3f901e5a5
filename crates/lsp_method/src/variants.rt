/// Who sent a message.
#[derive(Clone, Copy, Debug, PartialEq, Eq)]
pub enum Origin {
    Editor,
    Server,
}

/// What the multiplexer does with a message, by its method. A method that has a class of its own has the variant of
/// its name; `Wrong` is a request under the name of a notification, `Dropped` a notification that goes nowhere.
#[derive(Clone, Copy, Debug, PartialEq, Eq)]
pub enum Class {
    Initialize,
    Shutdown,
    LspmuxOpen,
    LspmuxStatus,
    LspmuxStop,
    Wrong,
    Other,
    Initialized,
    Exit,
    DidOpen,
    DidChange,
    DidClose,
    Cancel,
    ProgressCancel,
    Configuration,
    Dropped,
    Register,
    Unregister,
    Create,
    Folders,
    Refresh,
    Focused,
    Lowest,
    Progress,
    Diagnostics,
    Broadcast,
}
