//! The parameters of control sequences.

ghost use Rattle.std.specs.Prelude.{◌≡◌, ◌<◌, ◌+◌, ◌*◌, min, length, IfSome};
ghost use Rattle.textarea_terminal.specs.InputReading.{Reads};
ghost use Rattle.textarea_terminal.specs.InputParameter.{digit_at, clamped_to_u16, number_limit, number_at, number_after, count_of, parameters_of};

/// The numbers of a control sequence. A missing number is 0.
#[derive(Clone, Copy, Debug, PartialEq, Eq)]
pub struct Parameters {
    /// How many there are: 4 if there are more than three, and 0 if there is something else.
    pub count: u8,
    /// The first one.
    pub first: u32,
    /// Its second part, the character of a key with Shift.
    pub shifted: u32,
    /// The second one.
    pub second: u32,
    /// Its second part, what a key did.
    pub kind: u32,
    /// The third one.
    pub third: u32,
}

const NUMBER_LIMIT: u32 = 2_097_151;

/// A size or a position, at most 65,535.
pub fn clamped_to_u16(number: u32) -> u16
    ensures { result ≡ clamped_to_u16 number }
{
    u16::try_from(number).unwrap_or(u16::MAX)
}

// The digit at the front, if there is one, and the rest of the bytes.
#[tactic(auto, unfolding(crate::specs::InputParameter::digit_at))]
fn read_digit(bytes: &[u8]) -> Option<(u8, &[u8])>
    ensures digit { Reads (λ x. (x.0, x.1.now)) result (digit_at bytes.now) }
    ensures shorter { IfSome result (λ x. length x.1.now < length bytes.now) }
{
    match bytes {
        [digit @ b'0'..=b'9', rest @ ..] => Some((*digit - b'0', rest)),
        _ => None,
    }
}

// A number with one more digit, at most the limit.
fn with_digit(number: u32, digit: u8) -> u32
    ensures { result ≡ min number_limit (10 * number + digit) }
{
    let next = number.saturating_mul(10).saturating_add(u32::from(digit));
    if next < NUMBER_LIMIT {
        next
    } else {
        NUMBER_LIMIT
    }
}

// The number at the front, and the rest of the bytes.
fn read_number(bytes: &[u8]) -> (u32, &[u8])
    ensures { (result.0, result.1.now) ≡ number_at bytes.now }
{
    let mut number = 0u32;
    let mut rest = bytes;
    while let Some((digit, after)) = read_digit(rest) {
        number = with_digit(number, digit);
        rest = after;
    }
    (number, rest)
}

// The number after a separator at the front, 0 if there is none, and the rest of the bytes.
#[tactic(auto, unfolding(crate::specs::InputParameter::number_after))]
fn read_number_after(separator: u8, bytes: &[u8]) -> (u32, &[u8])
    ensures { (result.0, result.1.now) ≡ number_after separator bytes.now }
{
    match bytes {
        [first, rest @ ..] => {
            if *first == separator {
                read_number(rest)
            } else {
                (0, bytes)
            }
        }
        [] => (0, bytes),
    }
}

// How many parameters there are, by what is after each.
#[tactic(auto, unfolding(crate::specs::InputParameter::count_of))]
fn count(after_first: &[u8], after_second: &[u8], after_third: &[u8]) -> u8
    ensures { result ≡ count_of after_first.now after_second.now after_third.now }
{
    match (after_first, after_second, after_third) {
        ([], _, _) => 1,
        ([first, ..], [], _) => if *first == b';' { 2 } else { 0 },
        ([first, ..], [second, ..], []) => if *first == b';' && *second == b';' {
            3
        } else {
            0
        },
        ([first, ..], [second, ..], [third, ..]) => {
            if *first == b';' && *second == b';' && *third == b';' {
                4
            } else {
                0
            }
        }
    }
}

/// Parses the parameter bytes of a control sequence (ECMA-48, 5.4.2; kitty, "CSI u").
#[tactic(auto, unfolding(crate::specs::InputParameter::parameters_of))]
pub fn read_parameters(bytes: &[u8]) -> Parameters
    ensures { result ≡ parameters_of bytes.now }
{
    let (first, rest) = read_number(bytes);
    let (shifted, rest) = read_number_after(b':', rest);
    let (_, after_first) = read_number_after(b':', rest);
    let (second, rest) = read_number_after(b';', after_first);
    let (kind, after_second) = read_number_after(b':', rest);
    let (third, after_third) = read_number_after(b';', after_second);
    Parameters {
        count: count(after_first, after_second, after_third),
        first,
        shifted,
        second,
        kind,
        third,
    }
}
