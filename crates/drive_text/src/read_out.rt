// Out lines.
ghost use Rattle.std.specs.Prelude.{◌≡◌, IfOk};
ghost use Rattle.mux_history.specs.declared.out.Out.TheVariants.{ToEditor, ToServer, Spawn};
ghost use Rattle.drive_text.specs.Causes.{with_number};
ghost use Rattle.drive_text.specs.Marks.{body_of_text};
ghost use Rattle.drive_text.specs.Numbers.{number_of};
ghost use Rattle.drive_text.specs.OutForms.{out_by, out_of};

use crate::marks::body_of_text;
use crate::read::{cut_of, number_of, numbered};
use crate::word::{OutWord, out_word_of};
use message_body::Memory;
use mux_history::Out;
use std::alloc::Global;

fn to_editor(alloc: Global, text: &[u8]) -> Result<Option<Out>, Memory>
    ensures { IfOk result (λ out. out ≡ with_number body_of_text ToEditor text.now) }
{
    let Some((editor, back)) = numbered(text) else {
        return Ok(None);
    };
    Ok(body_of_text(alloc, back)?.map(|body| Out::ToEditor(editor, body)))
}

fn to_server(alloc: Global, text: &[u8]) -> Result<Option<Out>, Memory>
    ensures { IfOk result (λ out. out ≡ with_number body_of_text ToServer text.now) }
{
    let Some((start, back)) = numbered(text) else {
        return Ok(None);
    };
    Ok(body_of_text(alloc, back)?.map(|body| Out::ToServer(start, body)))
}

fn spawn(text: &[u8]) -> Option<Out>
    ensures { result ≡ with_number number_of Spawn text.now }
{
    let (start, back) = numbered(text)?;
    Some(Out::Spawn(start, number_of(back)?))
}

// What the text behind the word and its space says.
fn out_by(alloc: Global, word: OutWord, text: &[u8]) -> Result<Option<Out>, Memory>
    ensures { IfOk result (λ out. out ≡ out_by word text.now) }
{
    match word {
        OutWord::Ed => to_editor(alloc, text),
        OutWord::Sv => to_server(alloc, text),
        OutWord::Spawn => Ok(spawn(text)),
        OutWord::Close => Ok(number_of(text).map(Out::CloseEditor)),
        OutWord::End => Ok(number_of(text).map(Out::EndServer)),
    }
}

/// The out that a line writes, without its line feed; none where it is in no form. The time is linear in the line.
pub fn out_of(alloc: Global, line: &[u8]) -> Result<Option<Out>, Memory>
    ensures { IfOk result (λ out. out ≡ out_of line.now) }
{
    let Some((front, back)) = cut_of(line) else {
        return Ok(None);
    };
    let Some(word) = out_word_of(front) else {
        return Ok(None);
    };
    out_by(alloc, word, back)
}
