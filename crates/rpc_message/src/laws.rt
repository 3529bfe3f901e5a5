//! Laws: what the texts that are written say as messages, and what stays of a body under another id.
ghost use Rattle.std.specs.Prelude.{◌≡◌, ◌↔◌, ◌≤◌, ◌<◌, ◌^◌, ◌∷◌, ℕ, ℤ, List, IsUtf8, MatchOption, Option, Some, bytes_eq, codes, decimal, false, true};
ghost use Rattle.std.specs.Int.{w32};
ghost use Rattle.std.specs.Fmt.{signed_decimal};
ghost use Rattle.std.specs.Int.RustNames.{FitsSigned};
ghost use Rattle.std.specs.Str.{chars};
ghost use Rattle.json_text.specs.Bare.{bare_members, nowhere};
ghost use Rattle.json_text.specs.Json.{IsText, Json, Members, depth, no_members, object};
ghost use Rattle.json_text.specs.declared.span.Span.{Span};
ghost use Rattle.json_text.specs.Paths.{Step, key, put_at, value_at};
ghost use Rattle.json_text.specs.Replace.{Rise, replace};
ghost use Rattle.json_text.specs.Tree.{tree_of};
ghost use Rattle.json_span.specs.json_nodes.specs.Puts.{member_edits, put_edits, put_members};
ghost use Rattle.rpc_message.specs.Changed.{changed_text, id_edits};
ghost use Rattle.rpc_message.specs.Message.{Id, are_params, error, given, id_bytes, integer, message_of, not_json, notification, request, result as outcome, result_bytes};
ghost use Rattle.rpc_message.specs.Texts.{Code, error_reply_text, error_text, error_tree, failure_tree, initialize_params, initialize_text, initialized_text, notification_text, ok_text, request_text, with_id_text};
ghost use Rattle.rpc_message.specs.ValueTexts.{IsIdText, IsOptionText, IsResponseIdText, IsShallowText, IsValueText, option_depth};

/// What is answered is a result, or an error, under the id that it was given (JSON-RPC 2.0, section 5).
pub fn answers_law()
    ensures ok { (i : Option Id) (v : Json) (id r : List ℕ) → IsResponseIdText i id → IsValueText v r → depth v ≤ 1023
        → message_of (ok_text id r) ≡ outcome i v }
    ensures failure { (i : Option Id) (id : List ℕ) (c : Code) → IsResponseIdText i id → message_of (error_text id c) ≡ error i (error_tree c) }
    ensures any_failure { (i : Option Id) (id : List ℕ) (code : ℤ) (text : List ℕ) → IsResponseIdText i id → FitsSigned w32 code → IsUtf8 text
        → message_of (error_reply_text id code text) ≡ error i (failure_tree (signed_decimal code) (chars text)) }
{}

/// What is asked is a request of this number, and what is told is a notification, of this method and with these params
/// (JSON-RPC 2.0, sections 4 and 4.1).
pub fn calls_law()
    ensures request { (n : ℕ) (method : List ℕ) (ps : Option Json) (params : Option (List ℕ)) → n < 2 ^ 128 → IsUtf8 method → IsOptionText ps params
        → are_params ps ≡ true → option_depth ps ≤ 1023
        → message_of (request_text n method params) ≡ request (integer (decimal n)) (chars method) (given ps) }
    ensures notification { (method : List ℕ) (ps : Option Json) (params : Option (List ℕ)) → IsUtf8 method → IsOptionText ps params
        → are_params ps ≡ true → option_depth ps ≤ 1023 → message_of (notification_text method params) ≡ notification (chars method) (given ps) }
{}

/// A body is no JSON just where it is no text of RFC 8259 that nests at most 1,024 deep.
pub fn refusals_law()
    ensures { (bytes : List ℕ) → (message_of bytes ≡ not_json) ↔ ((j : Json) → IsText bytes j → depth j ≤ 1024 → ⊥) }
{}

/// What is sent to a server first is the request `initialize` under the id 1, and then the notification `initialized`
/// (LSP 3.17, Initialize Request and Initialized Notification).
pub fn opening_law()
    ensures initialize { (u d : Json) (o f : Option Json) (root capabilities : List ℕ) (options folders : Option (List ℕ)) → IsValueText u root
        → IsOptionText o options → IsValueText d capabilities → IsOptionText f folders → depth u ≤ 1022 → option_depth o ≤ 1022 → depth d ≤ 1022
        → option_depth f ≤ 1022 → message_of (initialize_text root options capabilities folders)
        ≡ request (integer (codes "1")) (codes "initialize") (Some (initialize_params u o d f)) }
    ensures initialized { message_of initialized_text ≡ notification (codes "initialized") (Some (object nowhere no_members)) }
{}

/// A request or a response under another id says the same under that id.
pub fn renamed_law()
    ensures request { (body w : List ℕ) (i k : Id) (m : List ℕ) (ps : Option Json) → message_of body ≡ request i m ps → IsIdText k w
        → message_of (with_id_text body w) ≡ request k m ps }
    ensures outcome { (body w : List ℕ) (i k : Option Id) (r : Json) → message_of body ≡ outcome i r → IsResponseIdText k w
        → message_of (with_id_text body w) ≡ outcome k r }
    ensures failure { (body w : List ℕ) (i k : Option Id) (r : Json) → message_of body ≡ error i r → IsResponseIdText k w
        → message_of (with_id_text body w) ≡ error k r }
{}

/// The bytes of a body's id and of its result are theirs, and a number is written as an integer id.
pub fn parts_law()
    ensures request { (body : List ℕ) (i : Id) (m : List ℕ) (ps : Option Json) → message_of body ≡ request i m ps → IsIdText i (id_bytes body) }
    ensures outcome { (body : List ℕ) (i : Option Id) (r : Json) → message_of body ≡ outcome i r → IsResponseIdText i (id_bytes body) }
    ensures failure { (body : List ℕ) (i : Option Id) (r : Json) → message_of body ≡ error i r → IsResponseIdText i (id_bytes body) }
    ensures value { (body : List ℕ) (i : Option Id) (r : Json) → message_of body ≡ outcome i r → IsShallowText 1023 r (result_bytes body) }
    ensures number { (n : ℕ) → n < 2 ^ 64 → IsIdText (integer (decimal n)) (decimal n) }
{}

/// A body in which values of an object gave way to others by the names of their members (at any depth in its params or its
/// result), each in every member of its name, and the id to another, says what it said with these values there, under that id.
/// The places rise, so that `Message::with_changes` takes them, and values that hold no others deepen nothing.
pub fn puts_law()
    ensures request { (body w : List ℕ) (p t : Json) (path : List Step) (s : Span) (ms : Members) (text : List ℕ → Option (List ℕ)) (new : List ℕ
        → Option Json) → tree_of body ≡ Some t → ((name : List ℕ) → IsOptionText (new name) (text name))
        → depth (put_at path (object nowhere (put_members new (bare_members ms))) p) ≤ 1023 → (i k : Id) (m : List ℕ)
        → message_of body ≡ request i m (Some p) → value_at (key (codes "params") ∷ path) t ≡ Some (object s ms) → IsIdText k w
        → message_of (changed_text body w (member_edits text ms))
        ≡ request k m (Some (put_at path (object nowhere (put_members new (bare_members ms))) p)) }
    ensures outcome { (body w : List ℕ) (p t : Json) (path : List Step) (s : Span) (ms : Members) (text : List ℕ → Option (List ℕ)) (new : List ℕ
        → Option Json) → tree_of body ≡ Some t → ((name : List ℕ) → IsOptionText (new name) (text name))
        → depth (put_at path (object nowhere (put_members new (bare_members ms))) p) ≤ 1023 → (i k : Option Id) → message_of body ≡ outcome i p
        → value_at (key (codes "result") ∷ path) t ≡ Some (object s ms) → IsResponseIdText k w
        → message_of (changed_text body w (member_edits text ms)) ≡ outcome k (put_at path (object nowhere (put_members new (bare_members ms))) p) }
    ensures notification { (body w : List ℕ) (p t : Json) (path : List Step) (s : Span) (ms : Members) (text : List ℕ → Option (List ℕ)) (new : List ℕ
        → Option Json) → tree_of body ≡ Some t → ((name : List ℕ) → IsOptionText (new name) (text name))
        → depth (put_at path (object nowhere (put_members new (bare_members ms))) p) ≤ 1023 → (m : List ℕ) → message_of body ≡ notification m (Some p)
        → value_at (key (codes "params") ∷ path) t ≡ Some (object s ms)
        → message_of (replace body (member_edits text ms))
        ≡ notification m (Some (put_at path (object nowhere (put_members new (bare_members ms))) p)) }
    ensures rise { (body w name : List ℕ) (t o : Json) (path : List Step) (text : List ℕ → Option (List ℕ)) → tree_of body ≡ Some t
        → value_at (key name ∷ path) t ≡ Some o → bytes_eq name (codes "id") ≡ false → Rise body (id_edits body w (put_edits text o)) }
    ensures shallow { (p : Json) (path : List Step) (s : Span) (ms : Members) (new : List ℕ → Option Json) → value_at path p ≡ Some (object s ms)
        → ((name : List ℕ) → MatchOption (new name) (Unit {0}) (λ v. depth v ≡ 0))
        → depth (put_at path (object nowhere (put_members new ms)) p) ≤ depth p }
{}
