// Keys and declared capabilities, compared by what their texts say.
ghost use Rattle.std.specs.Prelude.{◌≡◌, length, IfOk};
ghost use Rattle.group_words.specs.Keys as keys;
ghost use Rattle.group_words.specs.Placing as placing;
ghost use Rattle.group_table.specs.Tables.{ReadsTo};

use group_words::capability_meet::below;
use group_words::json_span::{JsonFault, Tape, same};
use group_words::{Kept, Key};
use message_body::{Body, Memory};
use std::alloc::Global;

// Bytes as a JSON text, where they are one.
fn read<'a>(alloc: Global, bytes: &'a [u8]) -> Result<Option<Tape<'a>>, Memory>
    ensures { IfOk result (λ tape. ReadsTo tape bytes.now) }
{
    if bytes.len() > 268_435_456 {
        return Err(Memory);
    }
    match Tape::read(alloc, bytes) {
        Ok(tape) => Ok(Some(tape)),
        Err(JsonFault::Memory) => Err(Memory),
        Err(JsonFault::Syntax(_)) => Ok(None),
        Err(JsonFault::TooDeep(_)) => Ok(None),
    }
}

// Whether the first text is below the second.
fn below_text(alloc: Global, a: &[u8], b: &[u8]) -> Result<bool, Memory>
    ensures { IfOk result (λ answer. answer ≡ keys.below_text a.now b.now) }
{
    let Some(left) = read(alloc, a)? else {
        return Ok(false);
    };
    let Some(right) = read(alloc, b)? else {
        return Ok(false);
    };
    Ok(below(&left, left.root(), &right, right.root()))
}

// Whether two texts say the same.
fn same_text(alloc: Global, a: &[u8], b: &[u8]) -> Result<bool, Memory>
    ensures { IfOk result (λ answer. answer ≡ keys.same_text a.now b.now) }
{
    let Some(left) = read(alloc, a)? else {
        return Ok(false);
    };
    let Some(right) = read(alloc, b)? else {
        return Ok(false);
    };
    Ok(same(&left, left.root(), &right, right.root()))
}

fn same_options(alloc: Global, a: &Option<Body>, b: &Option<Body>) -> Result<bool, Memory>
    ensures { IfOk result (λ answer. answer ≡ keys.same_options a.now b.now) }
{
    match a {
        None => match b {
            None => Ok(true),
            Some(_) => Ok(false),
        },
        Some(a) => match b {
            None => Ok(false),
            Some(b) => same_text(alloc, a.bytes(), b.bytes()),
        },
    }
}

fn same_texts(a: &[Body], b: &[Body]) -> bool
    ensures { result ≡ keys.same_texts a.now b.now }
{
    if a.len() != b.len() {
        return false;
    }
    for i in 0..a.len() {
        if a[i].bytes() != b[i].bytes() {
            return false;
        }
    }
    true
}

fn same_key(alloc: Global, a: &Key, b: &Key) -> Result<bool, Memory>
    ensures { IfOk result (λ answer. answer ≡ keys.same_key a.now b.now) }
{
    if a.server != b.server {
        return Ok(false);
    }
    if !same_texts(a.normal.as_slice(), b.normal.as_slice()) {
        return Ok(false);
    }
    same_options(alloc, &a.options, &b.options)
}

// Whether a group takes an editor.
pub fn takes(alloc: Global, group: &Kept, key: &Key, declared: &[u8]) -> Result<bool, Memory>
    ensures { IfOk result (λ answer. answer ≡ placing.takes key.now declared.now group.now) }
{
    if !group.live {
        return Ok(false);
    }
    if !same_key(alloc, key, &group.key)? {
        return Ok(false);
    }
    below_text(alloc, group.declared.bytes(), declared)
}
