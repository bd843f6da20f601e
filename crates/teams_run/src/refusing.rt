//! A refusal as one printed line, `refused CODE at PLACE`, where the place leads a person from the
//! block to the key: `refused M10 at block[0].use[0].block`.
ghost use Rattle.std.specs.Prelude.{◌≡◌, ◌++◌, OnOk, IfOk};
ghost use Rattle.std.specs.String.{string_bytes};
ghost use Rattle.sig_lines.specs.Written.{with_line};
ghost use Rattle.teams_run.specs.RefusalText.{with_number, key_step, item_step, test_step, last_step, spot_word, place_word, refusal_words, refusal_line};

use crate::due::Due;
use crate::status::Status;
use sig_lines::Lines;
use sig_types::{Key, Kind, Place, Refusal};
use std::alloc::{AllocError, Global};

/// Appends a step of a place: a word, and a number in brackets where there is one.
fn push_numbered(out: &mut String, word: &str, number: Option<u64>) -> Result<(), AllocError>
    ensures { OnOk result (string_bytes out.new ≡ string_bytes out.old ++ with_number word.now number) }
{
    out.push_str(word)?;
    match number {
        Some(number) => write!(out, "[{number}]"),
        None => Ok(()),
    }
}

fn push_key(out: &mut String, key: Option<Key>, element: Option<u64>) -> Result<(), AllocError>
    ensures { OnOk result (string_bytes out.new ≡ string_bytes out.old ++ key_step key element) }
{
    match key {
        Some(key) => push_numbered(out, key.word(), element),
        None => Ok(()),
    }
}

fn push_item(out: &mut String, item: Option<(Kind, u64)>) -> Result<(), AllocError>
    ensures { OnOk result (string_bytes out.new ≡ string_bytes out.old ++ item_step item) }
{
    match item {
        Some((kind, number)) => {
            out.push_str(".")?;
            push_numbered(out, kind.word(), Some(number))
        }
        None => Ok(()),
    }
}

fn push_test(out: &mut String, test: Option<u64>) -> Result<(), AllocError>
    ensures { OnOk result (string_bytes out.new ≡ string_bytes out.old ++ test_step test) }
{
    match test {
        Some(number) => {
            out.push_str(".")?;
            push_numbered(out, "test", Some(number))
        }
        None => Ok(()),
    }
}

fn push_last(out: &mut String, key: Option<Key>, element: Option<u64>) -> Result<(), AllocError>
    ensures { OnOk result (string_bytes out.new ≡ string_bytes out.old ++ last_step key element) }
{
    match key {
        Some(key) => {
            out.push_str(".")?;
            push_numbered(out, key.word(), element)
        }
        None => Ok(()),
    }
}

fn push_spot(
    out: &mut String,
    block: Option<u64>,
    item: Option<(Kind, u64)>,
    test: Option<u64>,
    key: Option<Key>,
    element: Option<u64>,
) -> Result<(), AllocError>
    ensures { OnOk result (string_bytes out.new ≡ string_bytes out.old ++ spot_word block item test key element) }
{
    let Some(number) = block else {
        return push_key(out, key, element);
    };
    push_numbered(out, "block", Some(number))?;
    push_item(out, item)?;
    push_test(out, test)?;
    push_last(out, key, element)
}

/// Appends the word for a place.
fn push_place(out: &mut String, place: Place) -> Result<(), AllocError>
    ensures { OnOk result (string_bytes out.new ≡ string_bytes out.old ++ place_word place) }
{
    match place {
        Place::Document => out.push_str("document"),
        Place::States => out.push_str("states"),
        Place::ModeOption => out.push_str("mode"),
        Place::Count(counted) => out.push_str(counted.word()),
        Place::In {
            block,
            item,
            test,
            key,
            element,
        } => push_spot(out, block, item, test, key, element),
    }
}

/// Writes the line of a refusal.
fn write_refusal(alloc: Global, out: &mut Lines, refusal: Refusal) -> Result<(), AllocError>
    ensures { OnOk result (out.new ≡ with_line out.old (refusal_words refusal)) }
{
    let mut place = String::new(alloc);
    push_place(&mut place, refusal.place)?;
    out.line(&["refused", refusal.code.word(), "at", place.as_str()])
}

/// The line that tells a person what is refused, and where.
fn refusal_text(alloc: Global, refusal: Refusal) -> Result<Vec<u8>, AllocError>
    ensures { IfOk result (λ text. text.items ≡ refusal_line refusal) }
{
    let mut out = Lines::new(alloc);
    write_refusal(alloc, &mut out, refusal)?;
    Ok(out.into_bytes())
}

/// The line of a refusal, with its status.
pub fn refused(alloc: Global, refusal: Refusal) -> Result<Due, AllocError>
    ensures status { IfOk result (λ due. due.status ≡ Status.ModelRefused) }
    ensures line { IfOk result (λ due. due.text.items ≡ refusal_line refusal) }
{
    let text = refusal_text(alloc, refusal)?;
    Ok(Due {
        status: Status::ModelRefused,
        text,
    })
}
