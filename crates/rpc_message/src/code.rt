ghost use Rattle.std.specs.Prelude.{◌≡◌};
ghost use Rattle.rpc_message.specs.Codes.{code_of};
ghost use Rattle.rpc_message.specs.Texts.{code_message, code_number};

/// The error codes of JSON-RPC 2.0, section 5.1, and of LSP 3.17, that are written.
#[derive(Clone, Copy, Debug)]
pub enum ErrorCode {
    ParseError,
    InvalidRequest,
    MethodNotFound,
    InvalidParams,
    ServerNotInitialized,
    RequestCancelled,
    ContentModified,
    RequestFailed,
}

impl ErrorCode {
    /// Its number.
    pub fn number(self) -> i32
        ensures { result ≡ code_number (code_of self) }
    {
        match self {
            ErrorCode::ParseError => -32700,
            ErrorCode::InvalidRequest => -32600,
            ErrorCode::MethodNotFound => -32601,
            ErrorCode::InvalidParams => -32602,
            ErrorCode::ServerNotInitialized => -32002,
            ErrorCode::RequestCancelled => -32800,
            ErrorCode::ContentModified => -32801,
            ErrorCode::RequestFailed => -32803,
        }
    }

    /// Its message.
    pub fn message(self) -> &'static str
        ensures { result.now ≡ code_message (code_of self) }
    {
        match self {
            ErrorCode::ParseError => "Parse error",
            ErrorCode::InvalidRequest => "Invalid Request",
            ErrorCode::MethodNotFound => "Method not found",
            ErrorCode::InvalidParams => "Invalid params",
            ErrorCode::ServerNotInitialized => "Server not initialized",
            ErrorCode::RequestCancelled => "Request cancelled",
            ErrorCode::ContentModified => "Content modified",
            ErrorCode::RequestFailed => "Request failed",
        }
    }
}
