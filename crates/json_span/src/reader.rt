//! A JSON text a byte at a time (RFC 8259).
ghost use Rattle.std.specs.Prelude.{◌≡◌, ℕ, ◌+◌, ◌^◌, ◌<◌, ◌≤◌, ◌++◌, ◌∷◌, [], length, drop, slice_range, MatchResult, IfOk, IfSome, IsTrue, IsUtf8, Ok};
ghost use Rattle.std.specs.List.{prefix_len};
ghost use Rattle.json_text.specs.Json.{is_space};
ghost use Rattle.json_token.specs.StringMoves.{string_move};
ghost use Rattle.json_span.specs.Machine.{start, node_at, leaf, opens, closes, begins, first_item, next_key, first_key, colon, continues, behind, in_word, in_number, in_text, in_key, step, finish, read, ends_with, first_in, next_in};
ghost use Rattle.json_span.specs.Views.{state_of, Gives, Reads, Fits, Crosses};
ghost use Rattle.json_span.specs.Classes.{class_of};

use crate::class::{Class, class_of};
use crate::fault::JsonFault;
use crate::nodes::{UNNAMED, close_node, kind_of_open, kind_of_word};
use crate::state::{Mode, Open, Reader};
use crate::word::{WordMove, word_move};
use json_nodes::{Node, Place};
use json_text::Kind;
use json_token::{
    Move, NumberMove, Part, digits_end, number_may_end, number_move, plain_ascii_end, plain_end,
    space_end, string_move, takes_digits,
};
use std::alloc::Global;

/// The most arrays and objects that may be open at once.
pub const DEPTH: usize = 1024;

#[inline(always)]
fn first_in(object: bool) -> Mode
    ensures { result ≡ first_in object }
{
    if object {
        Mode::FirstKey
    } else {
        Mode::FirstItem
    }
}

#[inline(always)]
fn next_in(object: bool) -> Mode
    ensures { result ≡ next_in object }
{
    if object { Mode::NextKey } else { Mode::Value }
}

// Whether these bytes are a part of the text that begins and ends between characters; false where there is no text.
#[inline(always)]
fn is_part(text: Option<&str>, bytes: &[u8], at: usize, end: usize) -> bool
    requires same { IfSome text (λ t. t.now ≡ bytes.now) }
    ensures { IsTrue result → IsUtf8 (slice_range bytes.now at end) }
{
    let _ = bytes;
    let Some(text) = text else { return false };
    match text.get(at..end) {
        Some(_part) => true,
        None => false,
    }
}

// Where the characters end that stand for themselves in a string. Bytes that are no text have a fault, which a step finds.
#[inline(always)]
fn characters_end(text: Option<&str>, bytes: &[u8], at: usize) -> usize
    requires same { IfSome text (λ t. t.now ≡ bytes.now) }
    requires inside { at ≤ length bytes.now }
    ensures text { (from : ℕ) → Crosses bytes.now at result (Mode.InText from Part.Plain) }
    ensures key { (from : ℕ) → Crosses bytes.now at result (Mode.InKey from Part.Plain) }
    ensures bounds { (at ≤ result) × (result ≤ length bytes.now) }
{
    if text.is_none() {
        return at;
    }
    let end = plain_end(bytes, at);
    if is_part(text, bytes, at, end) {
        end
    } else {
        at
    }
}

// The same; most strings have none but bytes of ASCII.
#[inline(always)]
fn plain_run_end(text: Option<&str>, bytes: &[u8], at: usize) -> usize
    requires same { IfSome text (λ t. t.now ≡ bytes.now) }
    requires inside { at ≤ length bytes.now }
    ensures text { (from : ℕ) → Crosses bytes.now at result (Mode.InText from Part.Plain) }
    ensures key { (from : ℕ) → Crosses bytes.now at result (Mode.InKey from Part.Plain) }
    ensures bounds { (at ≤ result) × (result ≤ length bytes.now) }
{
    let end = plain_ascii_end(bytes, at);
    if end < bytes.len() && bytes[end] >= 0x80 {
        characters_end(text, bytes, end)
    } else {
        end
    }
}

// Where the bytes end that pass over whole characters, in a string of which this part has been read.
#[inline(always)]
fn string_run_end(part: Part, text: Option<&str>, bytes: &[u8], at: usize) -> usize
    requires same { IfSome text (λ t. t.now ≡ bytes.now) }
    requires inside { at ≤ length bytes.now }
    ensures text { (from : ℕ) → Crosses bytes.now at result (Mode.InText from part) }
    ensures key { (from : ℕ) → Crosses bytes.now at result (Mode.InKey from part) }
    ensures bounds { (at ≤ result) × (result ≤ length bytes.now) }
{
    match part {
        Part::Plain => plain_run_end(text, bytes, at),
        _ => at,
    }
}

// What the next byte does to a string of which this part has been read: behind a run it is mostly the quotation mark that ends it.
#[tactic(auto, unfolding(json_token::specs::StringMoves::plain_move))]
#[inline(always)]
fn moved(part: Part, byte: u8) -> Move
    ensures { result ≡ string_move part byte }
{
    if byte == b'"' && matches!(part, Part::Plain) {
        return Move::Ends;
    }
    string_move(part, byte)
}

// White space is rare in most texts, and one blank is the most frequent: the first two bytes are looked at by themselves.
#[inline(always)]
fn blank_end(bytes: &[u8], at: usize) -> usize
    requires { at ≤ length bytes.now }
    ensures value { result ≡ at + prefix_len is_space (drop at bytes.now) }
    ensures bound { result ≤ length bytes.now }
{
    if at < bytes.len() && bytes[at] > b' ' {
        return at;
    }
    if bytes.len() - at > 1 && bytes[at] == b' ' && bytes[at + 1] > b' ' {
        return at + 1;
    }
    space_end(bytes, at)
}

impl Reader {
    /// Before the first byte of a text.
    pub fn new(alloc: Global) -> Reader
        ensures starts { state_of result ≡ start }
        ensures fits { Fits 0 result }
    {
        Reader {
            mode: Mode::Value,
            name: UNNAMED,
            stack: Vec::new(alloc),
            nodes: Vec::new(alloc),
        }
    }

    // The next node, of a value that ends before `to`, as far as is known.
    #[inline(always)]
    fn push(&mut self, kind: Kind, from: u32, to: usize) -> Result<(), JsonFault>
        requires small { to < 2 ^ 32 }
        requires few { length self.old.nodes.items < 2 ^ 31 }
        requires open { length self.old.stack.items ≤ 1024 }
        ensures pushed { MatchResult result (λ _. self.new.nodes.items
            ≡ self.old.nodes.items ++ node_at kind from self.old.name (state_of self.old).stack self.old.nodes.items to ∷ []) (λ e. e
            ≡ JsonFault.Memory) }
        ensures same_stack { self.new.stack ≡ self.old.stack }
    {
        self.nodes.push(Node {
            kind,
            level: self.stack.len() as u16,
            from,
            to: to as u32,
            after: self.nodes.len() as u32 + 1,
            name: self.name,
        })?;
        Ok(())
    }

    // Behind a value that is no array and no object.
    #[inline(always)]
    fn leaf(&mut self, kind: Kind, from: u32, to: usize) -> Result<(), JsonFault>
        requires small { to < 2 ^ 32 }
        requires few { length self.old.nodes.items < 2 ^ 31 }
        requires open { length self.old.stack.items ≤ 1024 }
        ensures is { MatchResult result (λ _. state_of self.new ≡ leaf kind from to (state_of self.old)) (λ e. e ≡ JsonFault.Memory) }
        ensures fits { IfOk result (λ _. Fits (length self.old.nodes.items + 1) self.new) }
    {
        self.push(kind, from, to)?;
        self.mode = Mode::After;
        self.name = UNNAMED;
        Ok(())
    }

    fn opens(&mut self, at: usize, object: bool) -> Result<(), JsonFault>
        requires small { at < 2 ^ 28 }
        requires fits { Fits at self.old }
        ensures gives { Gives result (state_of self.new) (opens DEPTH at object (state_of self.old)) }
        ensures fits { IfOk result (λ _. Fits (at + 1) self.new) }
    {
        if self.stack.len() >= DEPTH {
            return Err(JsonFault::TooDeep(at));
        }
        let node = self.nodes.len();
        self.push(kind_of_open(object), at as u32, at)?;
        self.stack.push(Open { object, node })?;
        self.mode = first_in(object);
        self.name = UNNAMED;
        Ok(())
    }

    fn closes(&mut self, at: usize, object: bool) -> Result<(), JsonFault>
        requires small { at < 2 ^ 28 }
        requires fits { Fits (at + 1) self.old }
        ensures gives { Gives result (state_of self.new) (closes at object (state_of self.old).stack (state_of self.old)) }
        ensures fits { IfOk result (λ _. Fits (at + 1) self.new) }
    {
        let Some(open) = self.stack.pop() else {
            return Err(JsonFault::Syntax(at));
        };
        if open.object != object {
            return Err(JsonFault::Syntax(at));
        }
        close_node(open.node, at + 1, &mut self.nodes);
        self.mode = Mode::After;
        self.name = UNNAMED;
        Ok(())
    }

    // A byte where a value may begin.
    #[inline(always)]
    fn begins(&mut self, at: usize, class: Class) -> Result<(), JsonFault>
        requires small { at < 2 ^ 28 }
        requires fits { Fits at self.old }
        ensures gives { Gives result (state_of self.new) (begins DEPTH at class (state_of self.old)) }
        ensures fits { IfOk result (λ _. Fits (at + 1) self.new) }
    {
        match class {
            Class::Space => {}
            Class::Quote => self.mode = Mode::InText(at as u32, Part::Plain),
            Class::OpenArray => return self.opens(at, false),
            Class::OpenObject => return self.opens(at, true),
            Class::Begins(begun) => self.mode = Mode::InWord(at as u32, begun),
            Class::Number(part) => self.mode = Mode::InNumber(at as u32, part),
            _ => return Err(JsonFault::Syntax(at)),
        }
        Ok(())
    }

    #[inline(always)]
    fn first_item(&mut self, at: usize, class: Class) -> Result<(), JsonFault>
        requires small { at < 2 ^ 28 }
        requires fits { Fits at self.old }
        ensures gives { Gives result (state_of self.new) (first_item DEPTH at class (state_of self.old)) }
        ensures fits { IfOk result (λ _. Fits (at + 1) self.new) }
    {
        match class {
            Class::CloseArray => self.closes(at, false),
            _ => self.begins(at, class),
        }
    }

    #[inline(always)]
    fn next_key(&mut self, at: usize, class: Class) -> Result<(), JsonFault>
        requires small { at < 2 ^ 28 }
        requires fits { Fits at self.old }
        ensures gives { Gives result (state_of self.new) (next_key at class (state_of self.old)) }
        ensures fits { IfOk result (λ _. Fits (at + 1) self.new) }
    {
        match class {
            Class::Space => {}
            Class::Quote => self.mode = Mode::InKey(at as u32, Part::Plain),
            _ => return Err(JsonFault::Syntax(at)),
        }
        Ok(())
    }

    #[inline(always)]
    fn first_key(&mut self, at: usize, class: Class) -> Result<(), JsonFault>
        requires small { at < 2 ^ 28 }
        requires fits { Fits at self.old }
        ensures gives { Gives result (state_of self.new) (first_key at class (state_of self.old)) }
        ensures fits { IfOk result (λ _. Fits (at + 1) self.new) }
    {
        match class {
            Class::CloseObject => self.closes(at, true),
            _ => self.next_key(at, class),
        }
    }

    #[inline(always)]
    fn colon(&mut self, at: usize, class: Class) -> Result<(), JsonFault>
        requires fits { Fits at self.old }
        ensures gives { Gives result (state_of self.new) (colon at class (state_of self.old)) }
        ensures fits { IfOk result (λ _. Fits (at + 1) self.new) }
    {
        match class {
            Class::Space => {}
            Class::Colon => self.mode = Mode::Value,
            _ => return Err(JsonFault::Syntax(at)),
        }
        Ok(())
    }

    // A comma behind a value.
    #[inline(always)]
    fn continues(&mut self, at: usize) -> Result<(), JsonFault>
        requires fits { Fits (at + 1) self.old }
        ensures gives { Gives result (state_of self.new) (continues at (state_of self.old).stack (state_of self.old)) }
        ensures fits { IfOk result (λ _. Fits (at + 1) self.new) }
    {
        let Some(open) = self.stack.last() else {
            return Err(JsonFault::Syntax(at));
        };
        self.mode = next_in(open.object);
        Ok(())
    }

    // A byte behind a value.
    #[inline(always)]
    fn behind(&mut self, at: usize, class: Class) -> Result<(), JsonFault>
        requires small { at < 2 ^ 28 }
        requires fits { Fits (at + 1) self.old }
        ensures gives { Gives result (state_of self.new) (behind at class (state_of self.old)) }
        ensures fits { IfOk result (λ _. Fits (at + 1) self.new) }
    {
        match class {
            Class::Space => Ok(()),
            Class::Comma => self.continues(at),
            Class::CloseArray => self.closes(at, false),
            Class::CloseObject => self.closes(at, true),
            _ => Err(JsonFault::Syntax(at)),
        }
    }

    #[inline(always)]
    fn in_word(&mut self, at: usize, from: u32, moved: WordMove) -> Result<(), JsonFault>
        requires small { at < 2 ^ 28 }
        requires fits { Fits at self.old }
        ensures gives { Gives result (state_of self.new) (in_word at from moved (state_of self.old)) }
        ensures fits { IfOk result (λ _. Fits (at + 1) self.new) }
    {
        match moved {
            WordMove::Goes(begun) => {
                self.mode = Mode::InWord(from, begun);
                Ok(())
            }
            WordMove::Ends(word) => self.leaf(kind_of_word(word), from, at + 1),
            WordMove::Stops => Err(JsonFault::Syntax(at)),
        }
    }

    // The byte that ends a number stands behind it.
    #[inline(always)]
    fn in_number(
        &mut self,
        at: usize,
        from: u32,
        byte: u8,
        moved: NumberMove,
    ) -> Result<(), JsonFault>
        requires small { at < 2 ^ 28 }
        requires fits { Fits at self.old }
        ensures gives { Gives result (state_of self.new) (in_number at from byte moved (state_of self.old)) }
        ensures fits { IfOk result (λ _. Fits (at + 1) self.new) }
    {
        match moved {
            NumberMove::Goes(part) => {
                self.mode = Mode::InNumber(from, part);
                Ok(())
            }
            NumberMove::Ends => {
                self.leaf(Kind::Number, from, at)?;
                self.behind(at, class_of(byte))
            }
            NumberMove::Stops => Err(JsonFault::Syntax(at)),
        }
    }

    #[inline(always)]
    fn in_text(&mut self, at: usize, from: u32, moved: Move) -> Result<(), JsonFault>
        requires small { at < 2 ^ 28 }
        requires fits { Fits at self.old }
        ensures gives { Gives result (state_of self.new) (in_text at from moved (state_of self.old)) }
        ensures fits { IfOk result (λ _. Fits (at + 1) self.new) }
    {
        match moved {
            Move::Goes(part) => {
                self.mode = Mode::InText(from, part);
                Ok(())
            }
            Move::Ends => self.leaf(Kind::Text, from, at + 1),
            Move::Stops => Err(JsonFault::Syntax(at)),
        }
    }

    #[inline(always)]
    fn in_key(&mut self, at: usize, from: u32, moved: Move) -> Result<(), JsonFault>
        requires small { at < 2 ^ 28 }
        requires fits { Fits at self.old }
        ensures gives { Gives result (state_of self.new) (in_key at from moved (state_of self.old)) }
        ensures fits { IfOk result (λ _. Fits (at + 1) self.new) }
    {
        match moved {
            Move::Goes(part) => self.mode = Mode::InKey(from, part),
            Move::Ends => {
                self.mode = Mode::Colon;
                self.name = Place {
                    from,
                    to: at as u32 + 1,
                };
            }
            Move::Stops => return Err(JsonFault::Syntax(at)),
        }
        Ok(())
    }

    /// The next byte, which stands at this place.
    #[tactic(auto, unfolding(crate::specs::Machine::step))]
    #[inline(always)]
    pub fn step(&mut self, at: usize, byte: u8) -> Result<(), JsonFault>
        requires small { at < 2 ^ 28 }
        requires fits { Fits at self.old }
        ensures gives { Gives result (state_of self.new) (step DEPTH at byte (state_of self.old)) }
        ensures fits { IfOk result (λ _. Fits (at + 1) self.new) }
    {
        match self.mode {
            Mode::Value => self.begins(at, class_of(byte)),
            Mode::FirstItem => self.first_item(at, class_of(byte)),
            Mode::FirstKey => self.first_key(at, class_of(byte)),
            Mode::NextKey => self.next_key(at, class_of(byte)),
            Mode::Colon => self.colon(at, class_of(byte)),
            Mode::After => self.behind(at, class_of(byte)),
            Mode::InWord(from, begun) => self.in_word(at, from, word_move(begun, byte)),
            Mode::InNumber(from, part) => self.in_number(at, from, byte, number_move(part, byte)),
            Mode::InText(from, part) => self.in_text(at, from, moved(part, byte)),
            Mode::InKey(from, part) => self.in_key(at, from, moved(part, byte)),
        }
    }

    /// Where the bytes end, from this place on, that leave the reader as it is. `text` is the same bytes, where they are UTF-8.
    #[inline(always)]
    pub fn run_end(&self, text: Option<&str>, bytes: &[u8], at: usize) -> usize
        requires same { IfSome text (λ t. t.now ≡ bytes.now) }
        requires inside { at ≤ length bytes.now }
        ensures same { read DEPTH result (drop result bytes.now) (state_of self.now) ≡ read DEPTH at (drop at bytes.now) (state_of self.now) }
        ensures bounds { (at ≤ result) × (result ≤ length bytes.now) }
    {
        match self.mode {
            Mode::InText(_, part) => string_run_end(part, text, bytes, at),
            Mode::InKey(_, part) => string_run_end(part, text, bytes, at),
            Mode::InNumber(_, part) if takes_digits(part) => digits_end(bytes, at),
            Mode::InNumber(_, _) | Mode::InWord(_, _) => at,
            _ => blank_end(bytes, at),
        }
    }

    // The bytes end behind a value.
    fn ends(self, at: usize) -> Result<Vec<Node>, JsonFault>
        ensures { Reads result (λ v. v.items) (ends_with (state_of self).stack at self.nodes.items) }
    {
        if !self.stack.is_empty() {
            return Err(JsonFault::Syntax(at));
        }
        Ok(self.nodes)
    }

    /// The bytes end at this place.
    #[tactic(auto, unfolding(crate::specs::Machine::finish))]
    pub fn finish(mut self, at: usize) -> Result<Vec<Node>, JsonFault>
        requires small { at < 2 ^ 29 }
        requires fits { Fits at self }
        ensures { Reads result (λ v. v.items) (finish at (state_of self)) }
    {
        match self.mode {
            Mode::After => self.ends(at),
            Mode::InNumber(from, part) if number_may_end(part) => {
                self.leaf(Kind::Number, from, at)?;
                self.ends(at)
            }
            _ => Err(JsonFault::Syntax(at)),
        }
    }
}
