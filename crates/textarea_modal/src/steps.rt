//! What each key does in each mode.
ghost use Rattle.std.specs.Prelude.{◌≡◌, ◌∷◌, [], true, false, map, MatchOption};
ghost use Rattle.textarea_calls.specs.declared.call.Call.TheVariants as call;
ghost use Rattle.textarea_data.specs.declared.cursor.CursorMove.TheVariants.{End, Forward, Head};
ghost use Rattle.textarea_data.specs.declared.input.Key.TheVariants.{Char};
ghost use Rattle.textarea_modal.specs.Calls.{IsReaction, key_call, step_calls};
ghost use Rattle.textarea_modal.specs.Table.{IsPassedOn, calls_then, passing_on, mode_after, motion_of, moves_over, normal, operates, step, step_after_operator, step_by, step_in_insert, step_in_normal, step_in_visual, takes};
ghost use Rattle.textarea_modal.specs.declared.mode.Mode.TheVariants as mode;

use crate::mode::{Mode, Op};
use crate::step::{KeyCall, Reaction, Step};
use textarea_calls::keys::action_of;
use textarea_data::cursor::CursorMove;
use textarea_data::input::{Input, Key};
use textarea_data::scroll::Scrolling;

const HEAD: KeyCall = KeyCall::Move(CursorMove::Head);

const END: KeyCall = KeyCall::Move(CursorMove::End);

const FORWARD: KeyCall = KeyCall::Move(CursorMove::Forward);

const BACK: KeyCall = KeyCall::Move(CursorMove::Back);

const HALF_PAGE_DOWN: KeyCall = KeyCall::Scroll(Scrolling::HalfPageDown);

const HALF_PAGE_UP: KeyCall = KeyCall::Scroll(Scrolling::HalfPageUp);

const START_SELECTION: KeyCall = KeyCall::StartSelection;

const CANCEL_SELECTION: KeyCall = KeyCall::CancelSelection;

const NEWLINE: KeyCall = KeyCall::InsertNewline;

const COPY: KeyCall = KeyCall::Copy;

const CUT: KeyCall = KeyCall::Cut;

const PASTE: KeyCall = KeyCall::Paste;

const UNDO: KeyCall = KeyCall::Undo;

const REDO: KeyCall = KeyCall::Redo;

const DELETE_NEXT_CHAR: KeyCall = KeyCall::DeleteNextChar;

const DELETE_TO_LINE_END: KeyCall = KeyCall::DeleteLineByEnd;
// Search for another match than one at the cursor.
const NEXT_MATCH: KeyCall = KeyCall::SearchForward(false);

const PREVIOUS_MATCH: KeyCall = KeyCall::SearchBack(false);

/// Returns what an input does in a mode.
pub fn reaction(mode: Mode, input: &Input) -> Reaction
    ensures { IsReaction mode input.now result }
{
    match step(mode, input) {
        Some(step) => Reaction::Step(step),
        None => Reaction::PassOn(action_of(input)),
    }
}

// The step of an input in a mode, or none where it is passed to the text area, in Insert.
fn step(mode: Mode, input: &Input) -> Option<Step>
    ensures { MatchOption result (IsPassedOn mode input.now)
        (λ made. step_calls made ≡ step mode input.now) }
{
    let (key, ctrl, alt) = (input.key, input.ctrl, input.alt);
    match mode {
        Mode::Normal => Some(in_normal(key, ctrl, alt)),
        Mode::Visual => Some(in_visual(key, ctrl, alt)),
        Mode::Operator(op) => Some(after_operator(op, key, ctrl, alt)),
        Mode::Insert => in_insert(input),
    }
}

// The move of a key, if it is a motion.
#[tactic(auto, unfolding(crate::specs::Table::motions, crate::specs::Table::motion_of))]
fn motion(key: Key, ctrl: bool, alt: bool) -> Option<CursorMove>
    ensures { result ≡ motion_of key ctrl alt }
{
    match (key, ctrl, alt) {
        (Key::Char(character), false, false) => motion_by(character),
        _ => None,
    }
}

// The move of a character, if it is a motion.
#[tactic(auto, unfolding(crate::specs::Table::motions, crate::specs::Table::motion_of))]
fn motion_by(character: char) -> Option<CursorMove>
    ensures { result ≡ motion_of (Char character) false false }
{
    match character {
        'h' => Some(CursorMove::Back),
        'j' => Some(CursorMove::Down),
        'k' => Some(CursorMove::Up),
        'l' => Some(CursorMove::Forward),
        'w' => Some(CursorMove::WordForward),
        'e' => Some(CursorMove::WordEnd),
        'b' => Some(CursorMove::WordBack),
        '0' => Some(CursorMove::Head),
        '$' => Some(CursorMove::End),
        '{' => Some(CursorMove::ParagraphBack),
        '}' => Some(CursorMove::ParagraphForward),
        'g' => Some(CursorMove::Top),
        'G' => Some(CursorMove::Bottom),
        _ => None,
    }
}

// What a key does in Normal.
#[tactic(auto, unfolding(crate::specs::Table::normal, crate::specs::Table::step_by))]
fn in_normal(key: Key, ctrl: bool, alt: bool) -> Step
    ensures { step_calls result ≡ step_in_normal key ctrl alt }
{
    if let Some(cursor_move) = motion(key, ctrl, alt) {
        return moves(cursor_move, &[], Mode::Normal);
    }
    match (key, ctrl, alt) {
        (Key::Char(character), false, false) => by_character(character),
        (Key::Char(character), true, false) => by_character_with_ctrl(character),
        _ => Step::calls_then(&[], Mode::Normal),
    }
}

// What a character does in Normal, if it is not a motion.
#[tactic(auto, unfolding(crate::specs::Table::normal, crate::specs::Table::step_by))]
fn by_character(character: char) -> Step
    ensures { step_calls result ≡ step_by normal (calls_then [] mode.Normal) (Char character) false
        false }
{
    match character {
        'i' => Step::calls_then(&[], Mode::Insert),
        'I' => Step::calls_then(&[HEAD], Mode::Insert),
        'a' => Step::calls_then(&[FORWARD], Mode::Insert),
        'A' => Step::calls_then(&[END], Mode::Insert),
        'o' => Step::calls_then(&[END, NEWLINE], Mode::Insert),
        'O' => Step::calls_then(&[HEAD, NEWLINE, BACK], Mode::Insert),
        'x' => Step::calls_then(&[DELETE_NEXT_CHAR], Mode::Normal),
        'D' => Step::calls_then(&[DELETE_TO_LINE_END], Mode::Normal),
        'C' => Step::calls_then(&[DELETE_TO_LINE_END], Mode::Insert),
        'p' => Step::calls_then(&[PASTE], Mode::Normal),
        'u' => Step::calls_then(&[UNDO], Mode::Normal),
        'n' => Step::calls_then(&[NEXT_MATCH], Mode::Normal),
        'N' => Step::calls_then(&[PREVIOUS_MATCH], Mode::Normal),
        'v' => Step::calls_then(&[START_SELECTION], Mode::Visual),
        'V' => Step::calls_then(&[HEAD, START_SELECTION, END], Mode::Visual),
        'd' => Step::calls_then(&[START_SELECTION], Mode::Operator(Op::Delete)),
        'y' => Step::calls_then(&[START_SELECTION], Mode::Operator(Op::Yank)),
        'c' => Step::calls_then(&[START_SELECTION], Mode::Operator(Op::Change)),
        'q' => Step {
            motion: None,
            calls: &[],
            mode: Mode::Normal,
            quits: true,
        },
        _ => Step::calls_then(&[], Mode::Normal),
    }
}

// What a character with Ctrl does in Normal.
#[tactic(auto, unfolding(crate::specs::Table::normal, crate::specs::Table::step_by))]
fn by_character_with_ctrl(character: char) -> Step
    ensures { step_calls result ≡ step_by normal (calls_then [] mode.Normal) (Char character) true
        false }
{
    match character {
        'r' => Step::calls_then(&[REDO], Mode::Normal),
        'd' => Step::calls_then(&[HALF_PAGE_DOWN], Mode::Normal),
        'u' => Step::calls_then(&[HALF_PAGE_UP], Mode::Normal),
        _ => Step::calls_then(&[], Mode::Normal),
    }
}

// What a key does in Visual.
#[tactic(auto, unfolding(crate::specs::Table::visual, crate::specs::Table::step_by))]
fn in_visual(key: Key, ctrl: bool, alt: bool) -> Step
    ensures { step_calls result ≡ step_in_visual key ctrl alt }
{
    if let Some(cursor_move) = motion(key, ctrl, alt) {
        return moves(cursor_move, &[], Mode::Visual);
    }
    match (key, ctrl, alt) {
        (Key::Char('d' | 'x'), false, false) => Step::calls_then(&[CUT], Mode::Normal),
        (Key::Char('y'), false, false) => Step::calls_then(&[COPY], Mode::Normal),
        (Key::Char('c'), false, false) => Step::calls_then(&[CUT], Mode::Insert),
        (Key::Char('v'), false, false) | (Key::Esc, ..) => {
            Step::calls_then(&[CANCEL_SELECTION], Mode::Normal)
        }
        _ => Step::calls_then(&[], Mode::Visual),
    }
}

// What a key does after an operator.
#[tactic(auto, unfolding(crate::specs::Table::step_by))]
fn after_operator(op: Op, key: Key, ctrl: bool, alt: bool) -> Step
    ensures { step_calls result ≡ step_after_operator op key ctrl alt }
{
    if let Some(cursor_move) = motion(key, ctrl, alt) {
        return over_motion(op, cursor_move);
    }
    match (op, key, ctrl, alt) {
        (Op::Delete, Key::Char('d'), false, false)
        | (Op::Yank, Key::Char('y'), false, false)
        | (Op::Change, Key::Char('c'), false, false) => {
            Step::calls_then(over_line(op), mode_after(op))
        }
        _ => Step::calls_then(&[CANCEL_SELECTION], Mode::Normal),
    }
}

// What a motion does after an operator. `WordEnd` stops before a word's last character: one more.
fn over_motion(op: Op, cursor_move: CursorMove) -> Step
    ensures { step_calls result ≡ operates op (moves_over cursor_move) }
{
    match cursor_move {
        CursorMove::WordEnd => moves(cursor_move, one_more(op), mode_after(op)),
        _ => moves(cursor_move, taking(op), mode_after(op)),
    }
}

// A step of a motion, these calls, and then this mode.
fn moves(cursor_move: CursorMove, calls: &'static [KeyCall], mode: Mode) -> Step
    ensures { step_calls result ≡ calls_then (call.Move cursor_move ∷ map key_call calls.now) mode }
{
    Step {
        motion: Some(cursor_move),
        calls,
        mode,
        quits: false,
    }
}

// The call of an operator on the selection.
fn taking(op: Op) -> &'static [KeyCall]
    ensures { map key_call result.now ≡ takes op ∷ [] }
{
    match op {
        Op::Delete | Op::Change => &[CUT],
        Op::Yank => &[COPY],
    }
}

// A move by one more character, and the call of an operator on the selection.
fn one_more(op: Op) -> &'static [KeyCall]
    ensures { map key_call result.now ≡ call.Move Forward ∷ takes op ∷ [] }
{
    match op {
        Op::Delete | Op::Change => &[FORWARD, CUT],
        Op::Yank => &[FORWARD, COPY],
    }
}

// The selection of the whole line, and the call of an operator on it.
fn over_line(op: Op) -> &'static [KeyCall]
    ensures { map key_call result.now
        ≡ call.Move Head ∷ call.StartSelection ∷ call.Move End ∷ takes op ∷ [] }
{
    match op {
        Op::Delete | Op::Change => &[HEAD, START_SELECTION, END, CUT],
        Op::Yank => &[HEAD, START_SELECTION, END, COPY],
    }
}

// The mode after an operator.
fn mode_after(op: Op) -> Mode
    ensures { result ≡ mode_after op }
{
    match op {
        Op::Delete | Op::Yank => Mode::Normal,
        Op::Change => Mode::Insert,
    }
}

// What an input does in Insert, or none where it is passed to the text area.
#[tactic(auto, unfolding(crate::specs::Table::insert, crate::specs::Table::step_by))]
fn in_insert(input: &Input) -> Option<Step>
    ensures { MatchOption result (step_in_insert input.now ≡ passing_on input.now)
        (λ made. step_calls made ≡ step_in_insert input.now) }
{
    match (input.key, input.ctrl, input.alt) {
        (Key::Esc, ..) | (Key::Char('c'), true, false) => {
            Some(Step::calls_then(&[], Mode::Normal))
        }
        _ => None,
    }
}
