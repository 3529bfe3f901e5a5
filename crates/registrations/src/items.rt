// What the requests that register and unregister say.
ghost use Rattle.std.specs.Prelude.{◌≡◌, ℕ, List, Option, Some, None, codes, option_map, IfOk};
ghost use Rattle.std.specs.Option.{option_and_then};
ghost use Rattle.mux_members.specs.json_nodes.specs.At.{Found};
ghost use Rattle.json_text.specs.Json.{Json};
ghost use Rattle.mux_members.specs.Finds.{is_array_value};
ghost use Rattle.mux_members.specs.rpc_message.specs.Message.{is_string_value};
ghost use Rattle.mux_members.specs.rpc_message.specs.Parsed.{IsRead};
ghost use Rattle.registrations.specs.Items.{if_distinct, named_as, registration_of, registrations_at, registered, text_of, unregistered};

use crate::names::are_distinct;
use crate::registration::Registration;
use json_text::Kind;
use message_body::{Body, Memory};
use mux_members::json_span::Tape;
use mux_members::rpc_message::Message;
use mux_members::{first_item, member, next_value, string};
use std::alloc::Global;

// The text of a value.
fn text_of<'a>(tape: &'a Tape, node: Option<u32>) -> &'a [u8]
    ensures { (o : Option Json) → Found tape.now o node → result.now ≡ text_of tape.now.bytes o }
{
    match tape.within(node) {
        Some(node) => {
            let span = tape.span(node);
            &tape.bytes()[span.from..span.to]
        }
        None => b"null",
    }
}

// A copy of it.
fn copy_of(alloc: Global, tape: &Tape, node: Option<u32>) -> Result<Body, Memory>
    ensures { (o : Option Json) → Found tape.now o node → IfOk result (λ text. text ≡ text_of tape.now.bytes o) }
{
    Ok(Body::new(Vec::from_slice(alloc, text_of(tape, node))?))
}

// Whether a value is a string.
fn is_text(tape: &Tape, node: Option<u32>) -> bool
    ensures { (o : Option Json) → Found tape.now o node → result ≡ is_string_value o }
{
    matches!(tape.maybe_kind(node), Some(Kind::Text))
}

// Whether it is an array.
fn is_array(tape: &Tape, node: Option<u32>) -> bool
    ensures { (o : Option Json) → Found tape.now o node → result ≡ is_array_value o }
{
    matches!(tape.maybe_kind(node), Some(Kind::Array))
}

// The registration of an item whose id has this name.
fn named_as(alloc: Global, tape: &Tape, node: u32, name: Body) -> Result<Registration, Memory>
    ensures { (j : Json) → Found tape.now (Some j) (Some node) → IfOk result (λ r. r ≡ named_as tape.now.bytes j name) }
{
    Ok(Registration {
        name,
        id: copy_of(alloc, tape, member(tape, Some(node), "id"))?,
        method: copy_of(alloc, tape, member(tape, Some(node), "method"))?,
        item: copy_of(alloc, tape, Some(node))?,
    })
}

// The registration that an item says, where it says one.
fn registration_of(alloc: Global, tape: &Tape, node: u32) -> Result<Option<Registration>, Memory>
    ensures { (j : Json) → Found tape.now (Some j) (Some node) → IfOk result (λ r. r ≡ registration_of tape.now.bytes j) }
{
    if !is_text(tape, member(tape, Some(node), "method")) {
        return Ok(None);
    }
    match string(alloc, tape, Some(node), "id")? {
        Some(name) => Ok(Some(named_as(alloc, tape, node, name)?)),
        None => Ok(None),
    }
}

// The registrations of a list, where each item says one.
fn registrations_in(
    alloc: Global,
    tape: &Tape,
    list: Option<u32>,
) -> Result<Option<Vec<Registration>>, Memory>
    ensures { (o : Option Json) → Found tape.now o list → IfOk result (λ items. option_map (λ v. v.items) items ≡ registrations_at tape.now.bytes o) }
{
    if !is_array(tape, list) {
        return Ok(None);
    }
    let mut items = Vec::new(alloc);
    let mut next = first_item(tape, list);
    while let Some(node) = next {
        match registration_of(alloc, tape, node)? {
            Some(item) => items.push(item)?,
            None => return Ok(None),
        }
        next = next_value(tape, node);
    }
    Ok(Some(items))
}

// Those of a list where no id is doubled.
fn distinct(
    alloc: Global,
    tape: &Tape,
    list: Option<u32>,
) -> Result<Option<Vec<Registration>>, Memory>
    ensures { (o : Option Json) → Found tape.now o list
        → IfOk result (λ items. option_map (λ v. v.items) items ≡ option_and_then if_distinct (registrations_at tape.now.bytes o)) }
{
    let Some(items) = registrations_in(alloc, tape, list)? else {
        return Ok(None);
    };
    if are_distinct(alloc, &items)? {
        Ok(Some(items))
    } else {
        Ok(None)
    }
}

/// S6: what a request `client/registerCapability` registers, where each item has a string id and a string method and no id is doubled;
/// None where it isn't so. Its time is that of reading the items, and of putting their ids in order.
pub fn registered(alloc: Global, message: &Message) -> Result<Option<Vec<Registration>>, Memory>
    ensures { (body : List ℕ) → IsRead message.now body → IfOk result (λ items. option_map (λ v. v.items) items ≡ registered body) }
{
    let tape = message.tape();
    let list = member(
        tape,
        member(tape, Some(tape.root()), "params"),
        "registrations",
    );
    distinct(alloc, tape, list)
}

/// S7: the same of `client/unregisterCapability`. That each is live is asked by `Live::unregister`.
pub fn unregistered(alloc: Global, message: &Message) -> Result<Option<Vec<Registration>>, Memory>
    ensures { (body : List ℕ) → IsRead message.now body → IfOk result (λ items. option_map (λ v. v.items) items ≡ unregistered body) }
{
    let tape = message.tape();
    let list = member(
        tape,
        member(tape, Some(tape.root()), "params"),
        "unregisterations",
    );
    distinct(alloc, tape, list)
}
