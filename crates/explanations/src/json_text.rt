//! How far octets can be read as a JSON text (RFC 8259).
ghost use Rattle.std.specs.Prelude.{length};
ghost use Rattle.explanations.specs.Stops.{IsWithin};

use crate::digits::is_blank;
use arrayvec::ArrayVec;

/// How a text is found to be, by the grammar of JSON.
#[derive(Clone, Copy, Debug, PartialEq, Eq)]
pub(crate) enum JsonEnd {
    /// Behind this number of octets no JSON text goes on as the text does, or the text ends too early.
    Stopped(usize),
    /// Behind this number of octets a list or an object begins that is deeper in others than the reader takes.
    TooDeep(usize),
    /// The text is a JSON text.
    Whole,
}

/// The most lists and objects that stand in each other.
const DEEPEST: usize = 127;

/// What stands open around an octet.
#[derive(Clone, Copy, Debug, Default, PartialEq, Eq)]
enum Around {
    #[default]
    List,
    Object,
}

/// Whether a text is the name of a member or a value.
#[derive(Clone, Copy, Debug, PartialEq, Eq)]
enum TextKind {
    Name,
    Value,
}

/// What was read of a number.
#[derive(Clone, Copy, Debug, PartialEq, Eq)]
enum NumberPart {
    Minus,
    /// A zero at its front.
    Zero,
    Whole,
    Point,
    Fraction,
    /// The letter of an exponent.
    Exponent,
    Sign,
    Power,
}

/// The letters of `true`, `false` and `null` that are still to come.
#[derive(Clone, Copy, Debug, PartialEq, Eq)]
enum Letters {
    Rue,
    Ue,
    E,
    Alse,
    Lse,
    Se,
    Ull,
    Ll,
    L,
}

/// What may come next.
#[derive(Clone, Copy, Debug, PartialEq, Eq)]
enum Expected {
    Value,
    /// An item, or the end of the list.
    FirstItem,
    /// The name of a member, or the end of the object.
    FirstMember,
    Member,
    Colon,
    /// What follows a value in what is around it.
    Behind,
    /// More of a text.
    Text(TextKind),
    /// What follows a backslash.
    Escaped(TextKind),
    /// A number of further hexadecimal digits.
    Digits(TextKind, u8),
    Number(NumberPart),
    Letters(Letters),
}

/// What an octet does.
#[derive(Clone, Copy, Debug, PartialEq, Eq)]
enum Move {
    To(Expected),
    Open(Around),
    Close,
}

/// Where a value may begin, and blanks before it.
fn begin_value(before: Expected, octet: u8) -> Option<Move> {
    match octet {
        b'{' => Some(Move::Open(Around::Object)),
        b'[' => Some(Move::Open(Around::List)),
        b'"' => Some(Move::To(Expected::Text(TextKind::Value))),
        b'-' => Some(Move::To(Expected::Number(NumberPart::Minus))),
        b'0' => Some(Move::To(Expected::Number(NumberPart::Zero))),
        b'1'..=b'9' => Some(Move::To(Expected::Number(NumberPart::Whole))),
        b't' => Some(Move::To(Expected::Letters(Letters::Rue))),
        b'f' => Some(Move::To(Expected::Letters(Letters::Alse))),
        b'n' => Some(Move::To(Expected::Letters(Letters::Ull))),
        _ => stay_at_blank(before, octet),
    }
}

fn stay_at_blank(before: Expected, octet: u8) -> Option<Move> {
    if is_blank(octet) {
        return Some(Move::To(before));
    }
    None
}

/// Where the name of a member may begin, and blanks before it.
fn begin_name(before: Expected, octet: u8) -> Option<Move> {
    match octet {
        b'"' => Some(Move::To(Expected::Text(TextKind::Name))),
        _ => stay_at_blank(before, octet),
    }
}

fn follow_value(around: Option<Around>, octet: u8) -> Option<Move> {
    match (around, octet) {
        (Some(Around::List), b',') => Some(Move::To(Expected::Value)),
        (Some(Around::List), b']') => Some(Move::Close),
        (Some(Around::Object), b',') => Some(Move::To(Expected::Member)),
        (Some(Around::Object), b'}') => Some(Move::Close),
        _ => stay_at_blank(Expected::Behind, octet),
    }
}

/// Control characters stand in no text.
fn go_on_in_text(kind: TextKind, octet: u8) -> Option<Move> {
    match (kind, octet) {
        (_, b'\\') => Some(Move::To(Expected::Escaped(kind))),
        (TextKind::Name, b'"') => Some(Move::To(Expected::Colon)),
        (TextKind::Value, b'"') => Some(Move::To(Expected::Behind)),
        (_, 0..=31) => None,
        _ => Some(Move::To(Expected::Text(kind))),
    }
}

fn escape(kind: TextKind, octet: u8) -> Option<Move> {
    match octet {
        b'u' => Some(Move::To(Expected::Digits(kind, 4))),
        b'"' | b'\\' | b'/' | b'b' | b'f' | b'n' | b'r' | b't' => {
            Some(Move::To(Expected::Text(kind)))
        }
        _ => None,
    }
}

fn go_on_in_digits(kind: TextKind, left: u8, octet: u8) -> Option<Move> {
    if !octet.is_ascii_hexdigit() {
        return None;
    }
    match left {
        0 | 1 => Some(Move::To(Expected::Text(kind))),
        _ => Some(Move::To(Expected::Digits(kind, left - 1))),
    }
}

fn go_on_in_number(part: NumberPart, around: Option<Around>, octet: u8) -> Option<Move> {
    match next_part(part, octet) {
        Some(next) => Some(Move::To(Expected::Number(next))),
        None if is_number(part) => follow_value(around, octet),
        None => None,
    }
}

fn next_part(part: NumberPart, octet: u8) -> Option<NumberPart> {
    match (part, octet) {
        (NumberPart::Minus, b'0') => Some(NumberPart::Zero),
        (NumberPart::Minus, b'1'..=b'9') => Some(NumberPart::Whole),
        (NumberPart::Whole, b'0'..=b'9') => Some(NumberPart::Whole),
        (NumberPart::Zero | NumberPart::Whole, b'.') => Some(NumberPart::Point),
        (NumberPart::Point | NumberPart::Fraction, b'0'..=b'9') => Some(NumberPart::Fraction),
        (NumberPart::Zero | NumberPart::Whole | NumberPart::Fraction, b'e' | b'E') => {
            Some(NumberPart::Exponent)
        }
        (NumberPart::Exponent, b'+' | b'-') => Some(NumberPart::Sign),
        (NumberPart::Exponent | NumberPart::Sign | NumberPart::Power, b'0'..=b'9') => {
            Some(NumberPart::Power)
        }
        _ => None,
    }
}

/// Whether what was read of a number is one.
fn is_number(part: NumberPart) -> bool {
    match part {
        NumberPart::Zero | NumberPart::Whole | NumberPart::Fraction | NumberPart::Power => true,
        NumberPart::Minus | NumberPart::Point | NumberPart::Exponent | NumberPart::Sign => false,
    }
}

fn go_on_in_letters(letters: Letters, octet: u8) -> Option<Move> {
    match (letters, octet) {
        (Letters::Rue, b'r') => Some(Move::To(Expected::Letters(Letters::Ue))),
        (Letters::Ue, b'u') => Some(Move::To(Expected::Letters(Letters::E))),
        (Letters::Alse, b'a') => Some(Move::To(Expected::Letters(Letters::Lse))),
        (Letters::Lse, b'l') => Some(Move::To(Expected::Letters(Letters::Se))),
        (Letters::Se, b's') => Some(Move::To(Expected::Letters(Letters::E))),
        (Letters::Ull, b'u') => Some(Move::To(Expected::Letters(Letters::Ll))),
        (Letters::Ll, b'l') => Some(Move::To(Expected::Letters(Letters::L))),
        (Letters::E, b'e') | (Letters::L, b'l') => Some(Move::To(Expected::Behind)),
        _ => None,
    }
}

/// What an octet does where this may come; none where it may not.
fn move_by(expected: Expected, around: Option<Around>, octet: u8) -> Option<Move> {
    match (expected, octet) {
        (Expected::FirstItem, b']') | (Expected::FirstMember, b'}') => Some(Move::Close),
        (Expected::Value | Expected::FirstItem, _) => begin_value(expected, octet),
        (Expected::FirstMember | Expected::Member, _) => begin_name(expected, octet),
        (Expected::Colon, b':') => Some(Move::To(Expected::Value)),
        (Expected::Colon, _) => stay_at_blank(expected, octet),
        (Expected::Behind, _) => follow_value(around, octet),
        (Expected::Text(kind), _) => go_on_in_text(kind, octet),
        (Expected::Escaped(kind), _) => escape(kind, octet),
        (Expected::Digits(kind, left), _) => go_on_in_digits(kind, left, octet),
        (Expected::Number(part), _) => go_on_in_number(part, around, octet),
        (Expected::Letters(letters), _) => go_on_in_letters(letters, octet),
    }
}

/// What became of an octet.
#[derive(Clone, Copy, Debug, PartialEq, Eq)]
enum Taken {
    Whole,
    Stopped,
    TooDeep,
}

/// A text so far: what may come next, and what stands open, the outermost first.
#[derive(Drop)]
struct JsonScan {
    expected: Expected,
    open: ArrayVec<Around, DEEPEST>,
}

impl JsonScan {
    fn new() -> JsonScan {
        JsonScan {
            expected: Expected::Value,
            open: ArrayVec::new(),
        }
    }

    fn take(&mut self, octet: u8) -> Taken {
        match move_by(self.expected, self.open.last().copied(), octet) {
            None => Taken::Stopped,
            Some(Move::To(expected)) => {
                self.expected = expected;
                Taken::Whole
            }
            Some(Move::Open(around)) => self.open(around),
            Some(Move::Close) => {
                self.open.pop();
                self.expected = Expected::Behind;
                Taken::Whole
            }
        }
    }

    fn open(&mut self, around: Around) -> Taken {
        if self.open.try_push(around).is_err() {
            return Taken::TooDeep;
        }
        self.expected = match around {
            Around::List => Expected::FirstItem,
            Around::Object => Expected::FirstMember,
        };
        Taken::Whole
    }

    /// Whether a text may end here.
    fn is_whole(&self) -> bool {
        match self.expected {
            Expected::Behind => self.open.is_empty(),
            Expected::Number(part) => self.open.is_empty() && is_number(part),
            _ => false,
        }
    }
}

/// How far octets can be read as a JSON text.
pub(crate) fn json_end(text: &[u8]) -> JsonEnd
    ensures { IsWithin (length text.now) result }
{
    let mut scan = JsonScan::new();
    for (count, octet) in text.iter().enumerate() {
        match scan.take(*octet) {
            Taken::Whole => {}
            Taken::Stopped => return JsonEnd::Stopped(count),
            Taken::TooDeep => return JsonEnd::TooDeep(count),
        }
    }
    if scan.is_whole() {
        JsonEnd::Whole
    } else {
        JsonEnd::Stopped(text.len())
    }
}
