//! Where hexadecimal digits are at fault.
ghost use Rattle.std.specs.Prelude.{◌≡◌};
ghost use Rattle.explanations.specs.Digits.{fault_after, first_or_second, is_blank, is_hex_digit};
ghost use Rattle.explanations.specs.Digits.{nothing_scanned, scan_after, scanned};

use crate::place::TextPlace;
use std::fmt;

/// Why a text is not pairs of hexadecimal digits with blanks between them, and where.
#[derive(Clone, Copy, Debug, PartialEq, Eq)]
pub enum DigitFault {
    /// The first octet that is neither a digit nor a blank.
    Stray(TextPlace),
    /// The last digit, which has no other to make a pair with.
    Unpaired(TextPlace),
}

impl fmt::Display for DigitFault {
    ghost use Rattle.std.specs.Prelude.{Some};
    ghost use Rattle.explanations.specs.Digits.{digit_sentence};

    ghost output = { λ f. Some (digit_sentence f) };

    fn fmt<W: fmt::Write>(&self, f: &mut fmt::Formatter<W>) -> fmt::Result {
        match self {
            DigitFault::Stray(place) => write!(
                f,
                "neither a hexadecimal digit nor a blank stands at {place}"
            ),
            DigitFault::Unpaired(place) => write!(
                f,
                "hexadecimal digits stand in pairs, and that at {place} has no other"
            ),
        }
    }
}

/// What a text of digits has come to so far: the place that comes next, and the fault if the text ended before it. It
/// takes no memory, however long the text is.
#[derive(Clone, Copy, Debug, PartialEq, Eq)]
pub struct DigitScan {
    next: TextPlace,
    fault: Option<DigitFault>,
}

pub(crate) fn is_blank(octet: u8) -> bool
    ensures { result ≡ is_blank octet }
{
    matches!(octet, b' ' | b'\t' | b'\n' | b'\r')
}

fn is_hex_digit(octet: u8) -> bool
    ensures { result ≡ is_hex_digit octet }
{
    matches!(octet, b'0'..=b'9' | b'A'..=b'F' | b'a'..=b'f')
}

/// The fault behind an octet at a place, where there was this one before it.
fn fault_after(fault: Option<DigitFault>, place: TextPlace, octet: u8) -> Option<DigitFault>
    ensures { result ≡ fault_after fault place octet }
{
    if let Some(DigitFault::Stray(stray)) = fault {
        return Some(DigitFault::Stray(stray));
    }
    if is_hex_digit(octet) {
        return first_or_second(fault, place);
    }
    if is_blank(octet) {
        return fault;
    }
    Some(DigitFault::Stray(place))
}

/// A digit at a place is the first of a pair, and has no other yet, or the second.
fn first_or_second(fault: Option<DigitFault>, place: TextPlace) -> Option<DigitFault>
    ensures { result ≡ first_or_second fault place }
{
    match fault {
        None => Some(DigitFault::Unpaired(place)),
        Some(_) => None,
    }
}

impl DigitScan {
    /// The scan of no text.
    pub fn new() -> DigitScan
        ensures { result ≡ nothing_scanned }
    {
        DigitScan {
            next: TextPlace::start(),
            fault: None,
        }
    }

    /// The fault, if the text ends here.
    pub fn fault(self) -> Option<DigitFault>
        ensures { result ≡ self.fault }
    {
        self.fault
    }

    /// The scan behind one octet more. Nothing is looked at behind a stray octet.
    fn after(self, octet: u8) -> DigitScan
        ensures { result ≡ scan_after self octet }
    {
        DigitScan {
            next: self.next.after(octet),
            fault: fault_after(self.fault, self.next, octet),
        }
    }

    /// Goes on over octets.
    #[tactic(auto, unfolding(crate::specs::Digits::scanned))]
    pub fn go_on(&mut self, octets: &[u8])
        ensures { self.new ≡ scanned self.old octets.now }
    {
        let mut scan = *self;
        for octet in octets {
            scan = scan.after(*octet);
        }
        *self = scan;
    }
}

/// The fault of a text of digits, if it has one.
pub(crate) fn digit_fault(octets: &[u8]) -> Option<DigitFault>
    ensures { result ≡ (scanned nothing_scanned octets.now).fault }
{
    let mut scan = DigitScan::new();
    scan.go_on(octets);
    scan.fault()
}
