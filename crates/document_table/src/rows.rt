//! Documents by their numbers, which rise in the order of opening: what is looked up, put, taken and touched.
ghost use Rattle.std.specs.Prelude.{◌≡◌, ◌++◌, ◌<◌, ◌^◌, [], Some, fold, map, nat_eq, option_map, if◌then◌else◌, IfOk, OnErr, OnOk};
ghost use Rattle.std.specs.BTreeMap.{insert_entry, is_at, values};
ghost use Rattle.std.specs.Int.{to_be_bytes, w64};
ghost use Rattle.std.specs.List.{AllByRecursion};
ghost use Rattle.std.specs.Map.{set_value};
ghost use Rattle.std.specs.Ordering.{nat_cmp};
ghost use Rattle.document_model.specs.Opens.{later, latest};
ghost use Rattle.number_index.specs.Numbers.{Changes, Same, numbers_under, with_number};
ghost use Rattle.document_table.specs.Numbered.{and_row, first_number, is_beside, passes, row_at, rows_at, touch_row, touch_rows};
ghost use Rattle.document_table.specs.Shown.{all_bytes, all_numbered, shown};

use crate::numbers::Numbers;
use crate::opens::Opening;
use document_model::doc_text::Text;
use message_body::Memory;
use std::alloc::Global;
use std::collections::{BTreeMap, BTreeSet};

/// The document of a number.
pub fn at<T: Text>(rows: &BTreeMap<u64, Opening<T>>, number: u64) -> Option<&Opening<T>>
    ensures { option_map (λ o. shown T.bytes o.now) result ≡ row_at number (all_numbered T.bytes rows.now.entries) }
{
    rows.get(&number)
}

// Whether a document is an editor's.
fn is_of<T: Text>(opening: Option<&Opening<T>>, editor: u64) -> bool
    ensures { result ≡ passes (λ o. nat_eq o.editor editor) (option_map (λ o. shown T.bytes o.now) opening.entry) }
{
    match opening {
        Some(opening) => opening.editor == editor,
        None => false,
    }
}

// The first of these numbers whose document is an editor's.
fn number_among<T: Text>(
    rows: &BTreeMap<u64, Opening<T>>,
    numbers: &BTreeSet<u64>,
    editor: u64,
) -> Option<u64>
    ensures { result ≡ first_number (λ o. nat_eq o.editor editor) (all_numbered T.bytes rows.now.entries) numbers.now.keys }
{
    for number in numbers {
        if is_of(at(rows, *number), editor) {
            return Some(*number);
        }
    }
    None
}

/// The number of an editor's document under a URI.
pub fn number_under<T: Text>(
    rows: &BTreeMap<u64, Opening<T>>,
    numbers: &Numbers,
    editor: u64,
    uri: &[u8],
) -> Option<u64>
    ensures { result ≡ first_number (λ o. nat_eq o.editor editor) (all_numbered T.bytes rows.now.entries) (numbers_under uri.now numbers.now.by_uri) }
{
    match numbers.of_uri(uri) {
        Some(numbers) => number_among(rows, numbers, editor),
        None => None,
    }
}

// Of two, the one that was touched last.
fn later<'a, T: Text>(opening: &'a Opening<T>, best: Option<&'a Opening<T>>) -> &'a Opening<T>
    ensures { Some (shown T.bytes result.now) ≡ later (shown T.bytes opening.now) (option_map (λ o. shown T.bytes o.now) best.entry) }
{
    match best {
        Some(best) if opening.touched < best.touched => best,
        _ => opening,
    }
}

// Whether a document counts, where those of one editor may not.
fn is_beside<T: Text>(beside: Option<u64>, opening: &Opening<T>) -> bool
    ensures { result ≡ is_beside beside (shown T.bytes opening.now) }
{
    match beside {
        Some(editor) => opening.editor != editor,
        None => true,
    }
}

// The one that was touched last, with one more that may be there and may count.
fn latest<'a, T: Text>(
    next: Option<&'a Opening<T>>,
    best: Option<&'a Opening<T>>,
    beside: Option<u64>,
) -> Option<&'a Opening<T>>
    ensures { option_map (λ o. shown T.bytes o.now) result
        ≡ fold (λ best o. if is_beside beside o then later o best else best) (option_map (λ o. shown T.bytes o.now) best.entry) (and_row (option_map (λ o. shown T.bytes o.now) next.entry) []) }
{
    match next {
        Some(opening) if is_beside(beside, opening) => Some(later(opening, best)),
        _ => best,
    }
}

// Of the documents of these numbers, the one that was touched last, of all editors or of those beside one.
fn latest_among<'a, T: Text>(
    rows: &'a BTreeMap<u64, Opening<T>>,
    numbers: &BTreeSet<u64>,
    beside: Option<u64>,
) -> Option<&'a Opening<T>>
    ensures { option_map (λ o. shown T.bytes o.now) result ≡ latest (is_beside beside) (rows_at (all_numbered T.bytes rows.now.entries) numbers.now.keys) }
{
    let mut best: Option<&'a Opening<T>> = None;
    for number in numbers {
        best = latest(at(rows, *number), best, beside);
    }
    best
}

/// The document under a URI that was touched last, of all editors or of those beside one.
pub fn latest_under<'a, T: Text>(
    rows: &'a BTreeMap<u64, Opening<T>>,
    numbers: &Numbers,
    uri: &[u8],
    beside: Option<u64>,
) -> Option<&'a Opening<T>>
    ensures { option_map (λ o. shown T.bytes o.now) result ≡ latest (is_beside beside) (rows_at (all_numbered T.bytes rows.now.entries) (numbers_under uri.now numbers.now.by_uri)) }
{
    match numbers.of_uri(uri) {
        Some(numbers) => latest_among(rows, numbers, beside),
        None => None,
    }
}

// Puts a document's URI behind others, where it is there.
fn add_uri<T: Text>(
    alloc: Global,
    uris: &mut Vec<String>,
    opening: Option<&Opening<T>>,
) -> Result<(), Memory>
    ensures { OnOk result (all_bytes uris.new.items ≡ all_bytes uris.old.items ++ map (λ o. o.uri) (and_row (option_map (λ o. shown T.bytes o.now) opening.entry) [])) }
{
    if let Some(opening) = opening {
        let uri = String::from_str(alloc, opening.uri.as_str())?;
        uris.push(uri)?;
    }
    Ok(())
}

// The URIs of the documents of these numbers.
fn uris_among<T: Text>(
    alloc: Global,
    rows: &BTreeMap<u64, Opening<T>>,
    numbers: &BTreeSet<u64>,
) -> Result<Vec<String>, Memory>
    ensures { IfOk result (λ uris. all_bytes uris.items ≡ map (λ o. o.uri) (rows_at (all_numbered T.bytes rows.now.entries) numbers.now.keys)) }
{
    let mut uris = Vec::new(alloc);
    for number in numbers {
        add_uri(alloc, &mut uris, at(rows, *number))?;
    }
    Ok(uris)
}

/// The URIs of an editor's documents.
pub fn uris_under<T: Text>(
    alloc: Global,
    rows: &BTreeMap<u64, Opening<T>>,
    numbers: &Numbers,
    editor: u64,
) -> Result<Vec<String>, Memory>
    ensures { IfOk result (λ uris. all_bytes uris.items ≡ map (λ o. o.uri) (rows_at (all_numbered T.bytes rows.now.entries) (numbers_under (to_be_bytes w64 editor) numbers.now.by_editor))) }
{
    match numbers.of_editor(editor) {
        Some(numbers) => uris_among(alloc, rows, numbers),
        None => Ok(Vec::new(alloc)),
    }
}

/// The URIs of all documents.
pub fn all_uris<T: Text>(
    alloc: Global,
    rows: &BTreeMap<u64, Opening<T>>,
) -> Result<Vec<String>, Memory>
    ensures { IfOk result (λ uris. all_bytes uris.items ≡ map (λ o. o.uri) (map (shown T.bytes) (values rows.now))) }
{
    let mut uris = Vec::new(alloc);
    for opening in rows.values() {
        add_uri(alloc, &mut uris, Some(opening))?;
    }
    Ok(uris)
}

/// Puts a document in the place of the one that has this number.
pub fn replace<T: Text + Drop>(
    rows: &mut BTreeMap<u64, Opening<T>>,
    number: u64,
    opening: Opening<T>,
)
    ensures { all_numbered T.bytes rows.new.entries ≡ set_value (is_at (nat_cmp number)) (all_numbered T.bytes rows.old.entries) (shown T.bytes opening) }
{
    if let Some(row) = rows.get_mut(&number) {
        *row = opening;
    }
}

/// A document comes, with a number above all others. Where memory runs out nothing changes.
pub fn push<T: Text + Drop>(
    alloc: Global,
    rows: &mut BTreeMap<u64, Opening<T>>,
    numbers: &mut Numbers,
    number: u64,
    opening: Opening<T>,
) -> Result<(), Memory>
    requires uris { AllByRecursion (λ m. m < number) (numbers_under (shown T.bytes opening).uri numbers.old.by_uri) }
    requires editors { AllByRecursion (λ m. m < number) (numbers_under (to_be_bytes w64 opening.editor) numbers.old.by_editor) }
    ensures rows { OnOk result (all_numbered T.bytes rows.new.entries ≡ insert_entry nat_cmp (all_numbered T.bytes rows.old.entries) number (shown T.bytes opening)) }
    ensures uris { OnOk result (Changes (shown T.bytes opening).uri (with_number number) numbers.old.by_uri numbers.new.by_uri) }
    ensures editors { OnOk result (Changes (to_be_bytes w64 opening.editor) (with_number number) numbers.old.by_editor numbers.new.by_editor) }
    ensures err_rows { OnErr result (all_numbered T.bytes rows.new.entries ≡ all_numbered T.bytes rows.old.entries) }
    ensures err_uris { OnErr result (Same numbers.old.by_uri numbers.new.by_uri) }
    ensures err_editors { OnErr result (Same numbers.old.by_editor numbers.new.by_editor) }
{
    numbers.add(alloc, opening.uri.as_bytes(), opening.editor, number)?;
    match rows.insert(number, opening) {
        Ok(_) => Ok(()),
        Err(refused) => {
            let (_, opening) = refused.value;
            numbers.remove(opening.uri.as_bytes(), opening.editor, number);
            Err(Memory)
        }
    }
}

// The document of a number is touched.
fn touch<T: Text>(rows: &mut BTreeMap<u64, Opening<T>>, number: u64, turn: u128)
    ensures { all_numbered T.bytes rows.new.entries ≡ touch_row turn (all_numbered T.bytes rows.old.entries) number }
{
    if let Some(opening) = rows.get_mut(&number) {
        opening.touched = turn;
    }
}

// The documents of these numbers are touched.
fn touch_among<T: Text>(rows: &mut BTreeMap<u64, Opening<T>>, numbers: &BTreeSet<u64>, turn: u128)
    ensures { all_numbered T.bytes rows.new.entries ≡ touch_rows turn (all_numbered T.bytes rows.old.entries) numbers.now.keys }
{
    for number in numbers {
        touch(rows, *number, turn);
    }
}

/// The documents of an editor are touched.
pub fn touch_under<T: Text>(
    rows: &mut BTreeMap<u64, Opening<T>>,
    numbers: &Numbers,
    editor: u64,
    turn: u128,
)
    ensures { all_numbered T.bytes rows.new.entries ≡ touch_rows turn (all_numbered T.bytes rows.old.entries) (numbers_under (to_be_bytes w64 editor) numbers.now.by_editor) }
{
    if let Some(numbers) = numbers.of_editor(editor) {
        touch_among(rows, numbers, turn);
    }
}

/// An editor's number has eight bytes. It does nothing.
pub fn fits(editor: u64)
    ensures { editor < 2 ^ 64 }
{}
