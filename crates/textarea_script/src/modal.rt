//! Sessions of the modal editor. Each character of the input is a key.
ghost use Rattle.std.specs.Prelude.{[], ◌≡◌, ◌≢◌, IfErr, IfOk, IfSome, IsUtf8, OnOk, string_bytes};
ghost use Rattle.std.specs.Io.{StartsWith};
ghost use Rattle.textarea_script.specs.Failures.{IsExit, IsUnparsed};
ghost use Rattle.tui_textarea.specs.State.{new_state};
ghost use Rattle.textarea_script.specs.Session.{IsNoText, IsPrinted, IsSessionServed, IsSessionWritten, input_of_character, inputs_of_text};

mod head;

use crate::modal::head::head;
use crate::streams::{Failure, read_whole, status, write_whole};
use std::alloc::{AllocError, Global};
use std::io::{Read, Write};
use std::str::from_utf8;
use std::string::ToString;
use textarea_data::input::{Input, Key};
pub use textarea_modal::{Modal, ModalEnd, ModalStop, Mode, Op};
use textarea_run::printing::Report;
use tui_textarea::TextArea;

/// Reads a text, takes its characters as inputs of a modal editor on an empty text area, and prints
/// to `output` the mode, the number of used inputs, why the session ended, and the text area. The
/// result is the exit status, and with it what `output` and `errors` get, as of a script
/// ([`script::serve`](crate::script::serve)); a text that isn't UTF-8 is unparsed.
pub fn serve<R: Read, W: Write, E: Write>(
    alloc: Global,
    reader: &mut R,
    output: &mut W,
    errors: &mut E,
) -> u8
    ensures exit { IsExit result (output.new ≡ output.old) (errors.new ≡ errors.old) }
    ensures session { IsSessionServed result (R.remaining reader.old) (W.contents output.old)
        (W.contents output.new) }
{
    status(run_session(alloc, reader, output), errors)
}

// Allocates all memory before it writes anything.
fn run_session<R: Read, W: Write>(
    alloc: Global,
    reader: &mut R,
    output: &mut W,
) -> Result<(), Failure>
    ensures done { OnOk result (IfSome (R.remaining reader.old)
        (IsSessionWritten (W.contents output.old) (W.contents output.new))) }
    ensures not_read { IfErr result (λ failure. IsUnparsed failure →
        IfSome (R.remaining reader.old) IsNoText) }
    ensures silent { IfErr result (λ failure. failure ≢ Failure.Stream → output.new ≡ output.old) }
{
    let bytes = read_whole(alloc, reader)?;
    let printed = printed_of(alloc, bytes.as_slice())?;
    write_whole(output, printed.as_str())
}

// The printed text of the session of these bytes, which have to be UTF-8.
fn printed_of(alloc: Global, bytes: &[u8]) -> Result<String, Failure>
    ensures text { OnOk result (IsUtf8 bytes.now) }
    ensures printed { IfOk result
        (λ printed. IsPrinted (new_state []) (inputs_of_text bytes.now) (string_bytes printed)) }
    ensures not_read { IfErr result (λ failure. IsUnparsed failure → IsNoText bytes.now) }
{
    let Ok(text) = from_utf8(bytes) else {
        return Err(Failure::NotRead);
    };
    Ok(printed_of_text(alloc, text)?)
}

// The printed text of the session of a text.
fn printed_of_text(alloc: Global, text: &str) -> Result<String, AllocError>
    ensures { IfOk result
        (λ printed. IsPrinted (new_state []) (inputs_of_text text.now) (string_bytes printed)) }
{
    let inputs = inputs_of_text(alloc, text)?;
    printed_of_inputs(alloc, inputs.as_slice())
}

// The printed text of a run of the inputs on an empty text area.
fn printed_of_inputs(alloc: Global, inputs: &[Input]) -> Result<String, AllocError>
    ensures { IfOk result
        (λ printed. IsPrinted (new_state []) inputs.now (string_bytes printed)) }
{
    let mut area = TextArea::try_default(alloc)?;
    let printed = printed_run(alloc, &mut area, inputs);
    drop(area);
    printed
}

// The printed text of a run of the inputs on a text area.
fn printed_run(
    alloc: Global,
    area: &mut TextArea<'_>,
    inputs: &[Input],
) -> Result<String, AllocError>
    ensures { IfOk result (λ printed. IsPrinted area.old inputs.now (string_bytes printed)) }
{
    let mut modal = Modal::new();
    let end = modal.run(area, inputs);
    if end.stop == ModalStop::Memory {
        return Err(AllocError);
    }
    let head = head(alloc, modal.mode(), end)?;
    with_report(alloc, head, area)
}

// The text `head`, followed by the printed text of a text area.
fn with_report(alloc: Global, head: String, area: &TextArea<'_>) -> Result<String, AllocError>
    ensures { IfOk result (λ text. StartsWith (string_bytes text) (string_bytes head)) }
{
    let report = report_of(alloc, area)?;
    let mut text = head;
    text.push_str(report.as_str())?;
    Ok(text)
}

fn report_of(alloc: Global, area: &TextArea<'_>) -> Result<String, AllocError> {
    let report = Report {
        answers: &[],
        area,
        screen: None,
    };
    report.to_string(alloc)
}

// The inputs of a text, one for each character.
fn inputs_of_text(alloc: Global, text: &str) -> Result<Vec<Input>, AllocError>
    ensures { IfOk result (λ inputs. inputs.items ≡ inputs_of_text text.now) }
{
    text.chars().map(input_of_character).collect(alloc)
}

fn input_of_character(character: char) -> Input
    ensures { result ≡ input_of_character character }
{
    let key = match character {
        '\u{1b}' => Key::Esc,
        '\n' => Key::Enter,
        '\t' => Key::Tab,
        _ => Key::Char(character),
    };
    Input {
        key,
        ctrl: false,
        alt: false,
        shift: false,
    }
}
