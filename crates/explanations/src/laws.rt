//! What the definitions of sentences promise.
ghost use Rattle.explanations.specs.Counting.{ColumnsAreCounted, DigitsAreScanned, LinesAreCounted};
ghost use Rattle.explanations.specs.Leading.{PathsLeadToPhrases};
ghost use Rattle.explanations.specs.Told.{RefusalsAreTold};

/// The line of each refusal is read as its rule, and as the texts of the objects that break it, in their order.
pub fn refusals_are_told()
    ensures { RefusalsAreTold }
{}

/// A path leads to the phrase of its last member, or of the item that it ends in, by the member before it or by none.
pub fn paths_lead_to_phrases()
    ensures { PathsLeadToPhrases }
{}

/// A line is numbered by the line feeds before it.
pub fn lines_are_counted()
    ensures { LinesAreCounted }
{}

/// An octet is numbered by those before it in its line.
pub fn columns_are_counted()
    ensures { ColumnsAreCounted }
{}

/// Digits are at fault at the first octet that is neither a digit nor a blank, or else at the last digit, where they are an
/// odd number, and nowhere else.
pub fn digits_are_scanned()
    ensures { DigitsAreScanned }
{}
