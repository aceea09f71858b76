//! What the definition of a report promises.
ghost use Rattle.std.specs.Prelude.{◌≡◌, ◌⊎◌, ℕ, Bool, false, List};
ghost use Rattle.std.specs.List.{list_any};
ghost use Rattle.bgp_wire.specs.Content.{Content};
ghost use Rattle.bgp_wire.specs.Messages.{AreOctets};
ghost use Rattle.decode_answers.specs.Decoding.{is_wide_open, IsReport};
ghost use Rattle.decode_answers.specs.Before.{AreMessages, HasFaultyUpdate, TellsRest};

/// Octets are always told, read wide or not: some text is a report of them.
pub fn octets_have_a_report()
    ensures { (wide : Bool) (octets : List ℕ) → AreOctets octets → (text : List ℕ) × IsReport wide octets text }
{}

/// Octets are told in one way: no two texts are a report of them.
pub fn octets_have_one_report()
    ensures { (wide : Bool) (octets a b : List ℕ) → IsReport wide octets a → IsReport wide octets b → a ≡ b }
{}

/// What stands behind messages is read wide exactly where a wide OPEN is among these; but where one of them is an UPDATE
/// with a fault, the report has ended.
pub fn a_wide_open_before_counts()
    ensures { (octets rest text : List ℕ) (before : List Content) → IsReport false octets text
        → AreMessages octets before rest
        → HasFaultyUpdate before ⊎ TellsRest (list_any is_wide_open before) rest text }
{}
