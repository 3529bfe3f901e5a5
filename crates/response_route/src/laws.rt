//! Laws of the versions in results and in requests.
ghost use Rattle.std.specs.Prelude.{◌≡◌, ℕ, List, Option, Some, false};
ghost use Rattle.json_text.specs.Json.{Json};
ghost use Rattle.json_text.specs.Replace.{Edit, Rise};
ghost use Rattle.event_model.specs.Members.{reads_versions};
ghost use Rattle.rpc_message.specs.Changed.{id_edits};
ghost use Rattle.rpc_message.specs.Message.{Id, error, message_of, request, result as outcome};
ghost use Rattle.rpc_message.specs.Texts.{ok_text, with_id_text};
ghost use Rattle.rpc_message.specs.ValueTexts.{IsIdText, IsResponseIdText, IsValueText};
ghost use Rattle.response_route.specs.Answers.{GivesFlat, Responds, answer_text};
ghost use Rattle.response_route.specs.Asked.{Asks, asked_text, documents_asked, not_applied, refusal_tree};
ghost use Rattle.response_route.specs.Edits.{Renaming, all_edits, are_some, documents_of};
ghost use Rattle.response_route.specs.Results.{documents_in};

/// The edits of the versions in a message's result rise, also beside the edit of its id, so that `Message::with_changes` takes them.
/// And there is a document with a version just where a result reads versions.
pub fn edits_law()
    ensures rise { (r : Renaming) (body w : List ℕ) (es : List Edit) → all_edits r (documents_in body) ≡ Some es → Rise body (id_edits body w es) }
    ensures read { (j : Json) → reads_versions j ≡ are_some (documents_of j) }
{}

/// What an editor gets of a response is one, under its id, where what comes in place of versions has no other values in it: V1 gives
/// integers and null. Where no document has a version it is the body as it came, under that id.
pub fn answers_law()
    ensures outcome { (r : Renaming) (body w : List ℕ) (i k : Option Id) (v : Json) → GivesFlat r → message_of body ≡ outcome i v → IsResponseIdText k w
        → Responds k (message_of (answer_text r body w)) }
    ensures failure { (r : Renaming) (body w : List ℕ) (i k : Option Id) (x : Json) → message_of body ≡ error i x → IsResponseIdText k w
        → Responds k (message_of (answer_text r body w)) }
    ensures plain { (r : Renaming) (body w : List ℕ) → are_some (documents_in body) ≡ false → answer_text r body w ≡ with_id_text body w }
{}

/// What an editor gets of a start's request is one of that method, under its new id, where what comes in place of versions has no other
/// values in it; its edits rise, so that `Message::with_changes` takes them. Where no document has a version it is the body as it came,
/// under that id. What the start gets where a version is refused is a result.
pub fn asks_law()
    ensures rise { (r : Renaming) (body w : List ℕ) (es : List Edit) → all_edits r (documents_asked body) ≡ Some es → Rise body (id_edits body w es) }
    ensures request { (r : Renaming) (body w text : List ℕ) (i k : Id) (method : List ℕ) (params : Option Json) → GivesFlat r
        → message_of body ≡ request i method params → IsIdText k w → asked_text r body w ≡ Some text → Asks k method (message_of text) }
    ensures plain { (r : Renaming) (body w : List ℕ) → are_some (documents_asked body) ≡ false → asked_text r body w ≡ Some (with_id_text body w) }
    ensures refusal { (i : Option Id) (id : List ℕ) → IsResponseIdText i id → message_of (ok_text id not_applied) ≡ outcome i refusal_tree }
    ensures refusal_value { IsValueText refusal_tree not_applied }
{}
