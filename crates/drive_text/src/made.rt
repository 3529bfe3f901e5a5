// Made inputs.
ghost use Rattle.std.specs.List.{AllByRecursion};
ghost use Rattle.std.specs.Prelude.{◌≡◌, ℕ, ◌+◌, ◌%◌, ◌<◌, ◌≤◌, List, [], ◌∷◌, ◌++◌, IfOk, OnOk, map};
ghost use Rattle.mux_history.specs.Cores.{body_length};
ghost use Rattle.drive_text.specs.Spellings.{spelled};
ghost use Rattle.drive_text.specs.Made.{next_state, drawn, init_body, initialized_body, open_body, result_body, hover_body, null_body, full_body, greeting_of, greetings, opening, turn_of, turn_causes, turned, step_causes, step_state, state_after, turns, made, made_lines};

use crate::write::write_cause_line;
use message_body::{Body, Memory};
use mux_history::Cause;
use std::alloc::Global;

const MULTIPLIER: u128 = 6_364_136_223_846_793_005;

const INCREMENT: u128 = 1_442_695_040_888_963_407;

/// What an editor sends before the turns.
#[derive(Clone, Copy, Debug, PartialEq, Eq)]
pub enum Greeting {
    Join,
    Initialize,
    Initialized,
    Open,
}

/// What is done in one turn.
#[derive(Clone, Copy, Debug, PartialEq, Eq)]
pub enum Turn {
    Exit,
    Change,
    Ask,
    AskAndAnswer,
}

/// Where the making stands: the generator's state, the start that runs, which is how many exits were made, and how many
/// requests were sent to it.
#[derive(Clone, Copy, Debug)]
pub struct Maker {
    pub state: u64,
    pub start: u64,
    pub asked: u64,
}

fn next_state(state: u64) -> u64
    ensures { result ≡ next_state state }
{
    ((u128::from(state) * MULTIPLIER + INCREMENT) % (1 << 64)) as u64
}

fn turn_of(start: u64, c: u64) -> Turn
    ensures turn { result ≡ turn_of start c }
    ensures exit { result ≡ Turn.Exit → start < 5 }
{
    if c == 7 && start < 5 {
        Turn::Exit
    } else if 4 <= c && c <= 6 {
        Turn::Change
    } else if c == 3 {
        Turn::Ask
    } else {
        Turn::AskAndAnswer
    }
}

fn body_of(alloc: Global, text: &[u8]) -> Result<Body, Memory>
    ensures { IfOk result (λ body. body ≡ text.now) }
{
    Ok(Body::new(Vec::from_slice(alloc, text)?))
}

fn init_body(alloc: Global) -> Result<Body, Memory>
    ensures { IfOk result (λ body. body ≡ init_body) }
{
    body_of(
        alloc,
        b"{\"jsonrpc\":\"2.0\",\"id\":0,\"method\":\"initialize\",\"params\":{\"rootUri\":\"file:///w\",\"capabilities\":{}}}",
    )
}

fn initialized_body(alloc: Global) -> Result<Body, Memory>
    ensures { IfOk result (λ body. body ≡ initialized_body) }
{
    body_of(
        alloc,
        b"{\"jsonrpc\":\"2.0\",\"method\":\"initialized\",\"params\":{}}",
    )
}

fn open_body(alloc: Global) -> Result<Body, Memory>
    ensures { IfOk result (λ body. body ≡ open_body) }
{
    body_of(
        alloc,
        b"{\"jsonrpc\":\"2.0\",\"method\":\"textDocument/didOpen\",\"params\":{\"textDocument\":{\"uri\":\"file:///d\",\"languageId\":\"x\",\"version\":1,\"text\":\"t\"}}}",
    )
}

fn result_body(alloc: Global) -> Result<Body, Memory>
    ensures { IfOk result (λ body. body ≡ result_body) }
{
    body_of(
        alloc,
        b"{\"jsonrpc\":\"2.0\",\"id\":1,\"result\":{\"capabilities\":{}}}",
    )
}

fn hover_body(alloc: Global, i: u64) -> Result<Body, Memory>
    ensures { IfOk result (λ body. body ≡ hover_body i) }
{
    let text = format!(in alloc;
        "{{\"jsonrpc\":\"2.0\",\"id\":{i},\"method\":\"textDocument/hover\",\"params\":{{}}}}"
    )?;
    body_of(alloc, text.as_bytes())
}

fn null_body(alloc: Global, id: u64) -> Result<Body, Memory>
    ensures { IfOk result (λ body. body ≡ null_body id) }
{
    let text = format!(in alloc; "{{\"jsonrpc\":\"2.0\",\"id\":{id},\"result\":null}}")?;
    body_of(alloc, text.as_bytes())
}

fn full_body(alloc: Global, i: u64) -> Result<Body, Memory>
    requires { i < 4294967296 }
    ensures { IfOk result (λ body. body ≡ full_body i) }
{
    let version = i + 1;
    let text = format!(in alloc;
        "{{\"jsonrpc\":\"2.0\",\"method\":\"textDocument/didChange\",\"params\":{{\"textDocument\":{{\"uri\":\"file:///d\",\"version\":{version}}},\"contentChanges\":[{{\"text\":\"t{i}\"}}]}}}}"
    )?;
    body_of(alloc, text.as_bytes())
}

fn greeting_of(alloc: Global, greeting: Greeting, editor: u64) -> Result<Cause, Memory>
    ensures { IfOk result (λ cause. cause ≡ greeting_of greeting editor) }
{
    match greeting {
        Greeting::Join => Ok(Cause::Joined(editor)),
        Greeting::Initialize => Ok(Cause::FromEditor(editor, init_body(alloc)?)),
        Greeting::Initialized => Ok(Cause::FromEditor(editor, initialized_body(alloc)?)),
        Greeting::Open => Ok(Cause::FromEditor(editor, open_body(alloc)?)),
    }
}

fn put_greetings(alloc: Global, causes: &mut Vec<Cause>, greeting: Greeting) -> Result<(), Memory>
    ensures { OnOk result (causes.new.items ≡ causes.old.items ++ greetings greeting) }
{
    causes.push(greeting_of(alloc, greeting, 0)?)?;
    causes.push(greeting_of(alloc, greeting, 1)?)?;
    causes.push(greeting_of(alloc, greeting, 2)?)?;
    causes.push(greeting_of(alloc, greeting, 3)?)?;
    Ok(())
}

fn put_opening(alloc: Global, causes: &mut Vec<Cause>) -> Result<(), Memory>
    ensures { OnOk result (causes.new.items ≡ causes.old.items ++ opening) }
{
    put_greetings(alloc, causes, Greeting::Join)?;
    put_greetings(alloc, causes, Greeting::Initialize)?;
    causes.push(Cause::Started(0))?;
    causes.push(Cause::FromServer(0, result_body(alloc)?))?;
    put_greetings(alloc, causes, Greeting::Initialized)?;
    put_greetings(alloc, causes, Greeting::Open)?;
    Ok(())
}

fn put_exit(alloc: Global, causes: &mut Vec<Cause>, start: u64) -> Result<(), Memory>
    requires { start < 5 }
    ensures { OnOk result (causes.new.items
        ≡ causes.old.items ++ Cause.ServerGone start ∷ Cause.Started (start + 1) ∷ Cause.FromServer (start + 1) result_body ∷ []) }
{
    causes.push(Cause::ServerGone(start))?;
    causes.push(Cause::Started(start + 1))?;
    causes.push(Cause::FromServer(start + 1, result_body(alloc)?))?;
    Ok(())
}

fn put_ask(alloc: Global, causes: &mut Vec<Cause>, i: u64, editor: u64) -> Result<(), Memory>
    ensures { OnOk result (causes.new.items ≡ causes.old.items ++ Cause.FromEditor editor (hover_body i) ∷ []) }
{
    causes.push(Cause::FromEditor(editor, hover_body(alloc, i)?))?;
    Ok(())
}

fn put_turn(
    alloc: Global,
    causes: &mut Vec<Cause>,
    i: u64,
    editor: u64,
    maker: Maker,
    turn: Turn,
) -> Result<(), Memory>
    requires i { i < 4294967296 }
    requires exit { turn ≡ Turn.Exit → maker.start < 5 }
    requires asked { maker.asked < 4294967296 }
    ensures { OnOk result (causes.new.items ≡ causes.old.items ++ turn_causes i editor maker turn) }
{
    match turn {
        Turn::Exit => put_exit(alloc, causes, maker.start)?,
        Turn::Change => causes.push(Cause::FromEditor(editor, full_body(alloc, i)?))?,
        Turn::Ask => put_ask(alloc, causes, i, editor)?,
        Turn::AskAndAnswer => {
            put_ask(alloc, causes, i, editor)?;
            causes.push(Cause::FromServer(maker.start, null_body(alloc, maker.asked + 2)?))?;
        }
    }
    Ok(())
}

fn turned(state: u64, maker: Maker, turn: Turn) -> Maker
    requires exit { turn ≡ Turn.Exit → maker.start < 5 }
    requires start { maker.start ≤ 5 }
    requires asked { maker.asked < 4294967296 }
    ensures turned { result ≡ turned state maker turn }
    ensures start { result.start ≤ 5 }
    ensures asked { result.asked ≤ maker.asked + 1 }
{
    match turn {
        Turn::Exit => Maker {
            state,
            start: maker.start + 1,
            asked: 0,
        },
        Turn::Change => Maker { state, ..maker },
        Turn::Ask | Turn::AskAndAnswer => Maker {
            state,
            asked: maker.asked + 1,
            ..maker
        },
    }
}

// One turn: its causes, and where the making stands behind it.
fn step(alloc: Global, causes: &mut Vec<Cause>, i: u64, maker: Maker) -> Result<Maker, Memory>
    requires i { i < 4294967296 }
    requires start { maker.start ≤ 5 }
    requires asked { maker.asked < 4294967296 }
    ensures maker { IfOk result (λ m. m ≡ step_state maker) }
    ensures causes { OnOk result (causes.new.items ≡ causes.old.items ++ step_causes i maker) }
    ensures start { IfOk result (λ m. m.start ≤ 5) }
    ensures asked { IfOk result (λ m. m.asked ≤ maker.asked + 1) }
{
    let first = next_state(maker.state);
    let second = next_state(first);
    let editor = first / (1 << 33) % 4;
    let turn = turn_of(maker.start, second / (1 << 33) % 8);
    put_turn(alloc, causes, i, editor, maker, turn)?;
    Ok(turned(second, maker, turn))
}

/// The causes of a made input with `n` turns, drawn from `seed`: four editors open one document, then ask and change it,
/// while their server answers and exits. The time is linear in `n`.
pub fn make_causes(alloc: Global, n: u32, seed: u64) -> Result<Vec<Cause>, Memory>
    ensures causes { IfOk result (λ causes. causes.items ≡ made n seed) }
    ensures small { IfOk result (λ causes. AllByRecursion (λ cause. body_length cause ≤ 268435456) causes.items) }
{
    let mut causes = Vec::new(alloc);
    put_opening(alloc, &mut causes)?;
    let mut maker = Maker {
        state: seed,
        start: 0,
        asked: 0,
    };
    for done in 0..n {
        maker = step(alloc, &mut causes, u64::from(done + 1), maker)?;
    }
    Ok(causes)
}

/// The lines of a made input, each without its line feed. The time is linear in `n`.
pub fn make(alloc: Global, n: u32, seed: u64) -> Result<Vec<Body>, Memory>
    ensures { IfOk result (λ lines. lines.items ≡ made_lines n seed) }
{
    let causes = make_causes(alloc, n, seed)?;
    let mut lines = Vec::new(alloc);
    for cause in causes.as_slice() {
        lines.push(write_cause_line(alloc, cause)?)?;
    }
    Ok(lines)
}
