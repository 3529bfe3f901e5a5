//! E2, E8 and E10: what an editor is answered with an error.
ghost use Rattle.std.specs.Prelude.{◌≡◌, ◌<◌, ℕ, List, true, false, Option, Some, map, length, IfNone, IfOk, IfSome, OnOk, slice_get};
ghost use Rattle.event_model.specs.declared.stage.Stage.TheVariants.{Ready};
ghost use Rattle.event_model.specs.Does.{Alike, Does};
ghost use Rattle.event_model.specs.Event.{Event, behind};
ghost use Rattle.event_model.specs.Row.{◌⨾◌};
ghost use Rattle.event_model.specs.Settings.{Settings};
ghost use Rattle.event_model.specs.Members.{params_of};
ghost use Rattle.group_facts.specs.group_rows.specs.Rows.{answer_error, early_code, forward, request_row, sync_row, wrong_code};
ghost use Rattle.group_facts.specs.group_rows.specs.Reserved.{reserves};
ghost use Rattle.json_text.specs.Json.{Json};
ghost use Rattle.group_words.specs.Houses.{home_of};
ghost use Rattle.group_facts.specs.mux_model.specs.Rows.{malformed_code, malformed_row};
ghost use Rattle.mux_tables.specs.declared.tables.Start.{Start};
ghost use Rattle.mux_tables.specs.Documents.{DocumentsStand, Owed};
ghost use Rattle.mux_tables.specs.Stands.{Stands, number_in};
ghost use Rattle.mux_turns.specs.Waits.{waiting_row};
ghost use Rattle.rpc_message.specs.Codes.{code_of};
ghost use Rattle.rpc_message.specs.Message.{Id, Message as Meaning, message_of, request};
ghost use Rattle.rpc_message.specs.Parsed.{IsRead};
ghost use Rattle.rpc_message.specs.Sorts.{Refuses};
ghost use Rattle.rpc_message.specs.Texts.{invalid_request, request_failed};

use event_model::Phase;
use group_facts::mux_members::{is_dollar, is_initialize};
use message_body::Memory;
use mux_history::Outs;
use mux_tables::Tables;
use rpc_message::{ErrorCode, Malformed, Message, error_answer};
use std::alloc::Global;

// The code of the answer to a body that is no message (JSON-RPC 2.0, section 5.1).
fn code_for(fault: Malformed) -> Result<ErrorCode, Memory>
    ensures { (m : Meaning) → Refuses fault m → IfOk result (λ code. code_of code ≡ malformed_code m) }
{
    match fault {
        Malformed::NotJson => Ok(ErrorCode::ParseError),
        Malformed::NotMessage => Ok(ErrorCode::InvalidRequest),
        Malformed::Memory => Err(Memory),
    }
}

/// E2: a body that is no message is answered under a null id, if the editor is there (JSON-RPC 2.0, section 5). `phase` says where
/// it stood.
pub fn reject(
    tables: &Tables,
    alloc: Global,
    outs: &mut Outs,
    e: u64,
    phase: Phase,
    fault: Malformed,
) -> Result<(), Memory>
    ensures does { (settings : Settings) (base : List Event) (body : List ℕ) → Refuses fault (message_of body)
        → OnOk result (Does (λ t events. Stands settings t events)
        (malformed_row e (message_of body) phase) base tables.now outs.old tables.now outs.new) }
    ensures documents { (settings : Settings) (owed : Owed) (base : List Event) → DocumentsStand settings owed tables.now (behind base outs.old)
        → OnOk result (DocumentsStand settings owed tables.now (behind base outs.new)) }
{
    let code = code_for(fault)?;
    if !phase.is_there() {
        return Ok(());
    }
    let text = error_answer(alloc, b"null", code)?;
    tables.tell(outs, e, text)?;
    Ok(())
}

/// A request is answered with an error, under its own id.
pub fn refuse(
    tables: &mut Tables,
    alloc: Global,
    outs: &mut Outs,
    e: u64,
    message: &Message,
    code: ErrorCode,
) -> Result<(), Memory>
    ensures requests { tables.new.requests ≡ tables.old.requests }
    ensures versions { tables.new.versions ≡ tables.old.versions }
    ensures lasts { tables.new.lasts ≡ tables.old.lasts }
    ensures editors { tables.new.editors ≡ tables.old.editors }
    ensures does { (settings : Settings) (base : List Event) (body method : List ℕ) (id : Id) (params : Option Json) → IsRead message.now body
        → message_of body ≡ request id method params
        → OnOk result (Does (λ t events. Stands settings t events) (answer_error e body (code_of code)) base tables.old outs.old tables.new outs.new) }
    ensures documents { (settings : Settings) (owed : Owed) (base : List Event) → DocumentsStand settings owed tables.old (behind base outs.old)
        → OnOk result (DocumentsStand settings owed tables.new (behind base outs.new)) }
{
    let id = message.id_bytes();
    let text = error_answer(alloc, id, code)?;
    tables.answer(outs, e, id, text)?;
    Ok(())
}

// E8: the code of the answer to a request that isn't taken: one under the name of a notification that begins with `$/` has its own
// (LSP 3.17, $ Notifications and Requests).
fn wrong_code(message: &Message, otherwise: ErrorCode) -> ErrorCode
    ensures { (body method : List ℕ) (id : Id) (params : Option Json) → IsRead message.now body → message_of body ≡ request id method params
        → code_of result ≡ wrong_code method (code_of otherwise) }
{
    if is_dollar(message) {
        ErrorCode::MethodNotFound
    } else {
        otherwise
    }
}

/// E8: a request that an editor which is served may not send is answered with an error (JSON-RPC 2.0, section 5.1: Invalid Request).
pub fn refuse_wrong(
    tables: &mut Tables,
    alloc: Global,
    outs: &mut Outs,
    e: u64,
    message: &Message,
) -> Result<(), Memory>
    ensures requests { tables.new.requests ≡ tables.old.requests }
    ensures versions { tables.new.versions ≡ tables.old.versions }
    ensures lasts { tables.new.lasts ≡ tables.old.lasts }
    ensures editors { tables.new.editors ≡ tables.old.editors }
    ensures does { (settings : Settings) (base : List Event) (body method : List ℕ) (id : Id) (params : Option Json) → IsRead message.now body
        → message_of body ≡ request id method params
        → OnOk result (Does (λ t events. Stands settings t events)
        (answer_error e body (wrong_code method invalid_request)) base tables.old outs.old tables.new outs.new) }
    ensures documents { (settings : Settings) (owed : Owed) (base : List Event) → DocumentsStand settings owed tables.old (behind base outs.old)
        → OnOk result (DocumentsStand settings owed tables.new (behind base outs.new)) }
{
    let code = wrong_code(message, ErrorCode::InvalidRequest);
    refuse(tables, alloc, outs, e, message, code)?;
    Ok(())
}

// E8: the same of a request that comes before the answer to `initialize`; a second `initialize` is an invalid one.
fn early_code(message: &Message) -> ErrorCode
    ensures { (body method : List ℕ) (id : Id) (params : Option Json) → IsRead message.now body → message_of body ≡ request id method params
        → code_of result ≡ early_code method }
{
    if is_initialize(message) {
        ErrorCode::InvalidRequest
    } else {
        wrong_code(message, ErrorCode::ServerNotInitialized)
    }
}

/// E8: a request that comes before the answer to `initialize` gets an error (LSP 3.17, Lifecycle Messages: ServerNotInitialized).
pub fn refuse_early(
    tables: &mut Tables,
    alloc: Global,
    outs: &mut Outs,
    e: u64,
    message: &Message,
) -> Result<(), Memory>
    ensures requests { tables.new.requests ≡ tables.old.requests }
    ensures versions { tables.new.versions ≡ tables.old.versions }
    ensures lasts { tables.new.lasts ≡ tables.old.lasts }
    ensures editors { tables.new.editors ≡ tables.old.editors }
    ensures does { (settings : Settings) (base : List Event) (body method : List ℕ) (id : Id) (params : Option Json) → IsRead message.now body
        → message_of body ≡ request id method params
        → OnOk result (Does (λ t events. Stands settings t events)
        (answer_error e body (early_code method)) base tables.old outs.old tables.new outs.new) }
    ensures documents { (settings : Settings) (owed : Owed) (base : List Event) → DocumentsStand settings owed tables.old (behind base outs.old)
        → OnOk result (DocumentsStand settings owed tables.new (behind base outs.new)) }
{
    let code = early_code(message);
    refuse(tables, alloc, outs, e, message, code)?;
    Ok(())
}

/// E10: the place of the group whose last start takes the editor's request that has no reserved token, as it stands before the request;
/// none where the editor is in no group, or the group has no start, or that start ended, isn't ready or has no number left: then it waits, or is to be refused.
pub fn asked_at(tables: &Tables, e: u64) -> Option<usize>
    ensures inside { IfSome result (λ g. g < length tables.now.lasts.items) }
    ensures home { IfSome result (λ g. (settings : Settings) (before : List Event) (x : Start) → slice_get tables.now.lasts.items g ≡ Some x
        → Stands settings tables.now before → home_of settings e before ≡ Some x.life.group) }
    ensures takes { IfSome result (λ g. (x : Start) → slice_get tables.now.lasts.items g ≡ Some x → (x.life.stage ≡ Ready) × (x.ids.next < x.ids.limit)) }
    ensures waits { IfNone result ((settings : Settings) (before : List Event) (body : List ℕ) → reserves (params_of body) ≡ false
        → Stands settings tables.now before → Alike (request_row settings before e body) (waiting_row settings before e body)) }
    ensures goes { IfSome result (λ g. (settings : Settings) (before : List Event) (body : List ℕ) (s : ℕ) (x : Start)
        → slice_get tables.now.lasts.items g ≡ Some x → slice_get (map number_in tables.now.lasts.items) g ≡ Some s
        → reserves (params_of body) ≡ false → Stands settings tables.now before
        → Alike (request_row settings before e body) (sync_row settings before x.life.group s e ⨾ forward settings s body)) }
{
    let g = tables.place(e)?;
    if tables.can_ask(g) { Some(g) } else { None }
}

/// E10: a request that no start takes is answered with an error (LSP 3.17, RequestFailed).
pub fn refuse_request(
    tables: &mut Tables,
    alloc: Global,
    outs: &mut Outs,
    e: u64,
    message: &Message,
) -> Result<(), Memory>
    ensures requests { tables.new.requests ≡ tables.old.requests }
    ensures versions { tables.new.versions ≡ tables.old.versions }
    ensures lasts { tables.new.lasts ≡ tables.old.lasts }
    ensures editors { tables.new.editors ≡ tables.old.editors }
    ensures does { (settings : Settings) (before base : List Event) (body method : List ℕ) (id : Id) (params : Option Json) → IsRead message.now body
        → message_of body ≡ request id method params → Alike (request_row settings before e body) (answer_error e body request_failed)
        → OnOk result (Does (λ t events. Stands settings t events) (request_row settings before e body) base tables.old outs.old tables.new outs.new) }
    ensures documents { (settings : Settings) (owed : Owed) (base : List Event) → DocumentsStand settings owed tables.old (behind base outs.old)
        → OnOk result (DocumentsStand settings owed tables.new (behind base outs.new)) }
{
    refuse(tables, alloc, outs, e, message, ErrorCode::RequestFailed)?;
    Ok(())
}

/// E10: a request with a token that might be the daemon's is answered with an error (JSON-RPC 2.0, section 5.1: Invalid params).
pub fn refuse_reserved(
    tables: &mut Tables,
    alloc: Global,
    outs: &mut Outs,
    e: u64,
    message: &Message,
) -> Result<(), Memory>
    ensures requests { tables.new.requests ≡ tables.old.requests }
    ensures versions { tables.new.versions ≡ tables.old.versions }
    ensures lasts { tables.new.lasts ≡ tables.old.lasts }
    ensures editors { tables.new.editors ≡ tables.old.editors }
    ensures does { (settings : Settings) (before base : List Event) (body method : List ℕ) (id : Id) (params : Option Json) → IsRead message.now body
        → message_of body ≡ request id method params → reserves (params_of body) ≡ true
        → OnOk result (Does (λ t events. Stands settings t events) (request_row settings before e body) base tables.old outs.old tables.new outs.new) }
    ensures documents { (settings : Settings) (owed : Owed) (base : List Event) → DocumentsStand settings owed tables.old (behind base outs.old)
        → OnOk result (DocumentsStand settings owed tables.new (behind base outs.new)) }
{
    refuse(tables, alloc, outs, e, message, ErrorCode::InvalidParams)?;
    Ok(())
}
