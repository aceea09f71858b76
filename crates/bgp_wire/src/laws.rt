//! What the grammar of messages promises.
ghost use Rattle.std.specs.Prelude.{◌≡◌, ◌≢◌, ◌<◌, ◌^◌, ◌∷◌, ◌++◌, ◌⊎◌, ℕ, List, [], length, true, false};
ghost use Rattle.bgp_wire.specs.declared.fault.WireFault.{WireFault};
ghost use Rattle.bgp_wire.specs.declared.write.OpenOut.{OpenOut};
ghost use Rattle.bgp_wire.specs.Content.{Content, OpenFields};
ghost use Rattle.bgp_wire.specs.Frames.{IsProperPrefix};
ghost use Rattle.std.specs.Prelude.{Result, None};
ghost use Rattle.std.specs.List.{AllByRecursion};
ghost use Rattle.std.specs.Iterator.{YieldsThen};
ghost use Rattle.byteorder.specs.Endian.{big_number};
ghost use Rattle.bgp_wire.specs.declared.attribute.Attribute.{Attribute};
ghost use Rattle.bgp_wire.specs.Attributes.{AttributeFields, AreAttributes, NextAttribute, SaysAll};
ghost use Rattle.bgp_wire.specs.Parts.{Part};
ghost use Rattle.bgp_wire.specs.Opens.{asn_of, is_wide, capabilities_of};
ghost use Rattle.bgp_wire.specs.Spelling.{spelling, IsReadAgain, open_fields};
ghost use Rattle.bgp_wire.specs.Messages.{AreOctets, IsMessage, BeginsWith, HasFault};

/// Octets begin with a message, or are a proper prefix of a frame, or have a fault: always one of the three, and only
/// one.
pub fn octets_are_one_of_three()
    ensures one { (octets : List ℕ) → AreOctets octets
        → ((content : Content) × (n : ℕ) × BeginsWith octets content n)
        ⊎ (IsProperPrefix octets ⊎ ((f : WireFault) × HasFault octets f)) }
    ensures message_or_prefix { (octets : List ℕ) (content : Content) (n : ℕ)
        → BeginsWith octets content n → IsProperPrefix octets → ⊥ }
    ensures message_or_fault { (octets : List ℕ) (content : Content) (n : ℕ) (f : WireFault)
        → BeginsWith octets content n → HasFault octets f → ⊥ }
    ensures prefix_or_fault { (octets : List ℕ) (f : WireFault)
        → IsProperPrefix octets → HasFault octets f → ⊥ }
{}

/// Octets begin with one message, of one length, or have one fault.
pub fn octets_say_one_thing()
    ensures content { (octets : List ℕ) (a b : Content) (n m : ℕ)
        → BeginsWith octets a n → BeginsWith octets b m → a ≡ b }
    ensures length { (octets : List ℕ) (a b : Content) (n m : ℕ)
        → BeginsWith octets a n → BeginsWith octets b m → n ≡ m }
    ensures fault { (octets : List ℕ) (f g : WireFault) → HasFault octets f → HasFault octets g → f ≡ g }
{}

/// What follows changes nothing that was read.
pub fn what_follows_changes_nothing()
    ensures message { (octets more : List ℕ) (content : Content) (n : ℕ)
        → BeginsWith octets content n → BeginsWith (octets ++ more) content n }
    ensures fault { (octets more : List ℕ) (f : WireFault) → HasFault octets f → HasFault (octets ++ more) f }
{}

/// No message begins another.
pub fn no_message_begins_another()
    ensures { (octets more : List ℕ) (a b : Content)
        → IsMessage octets a → IsMessage (octets ++ more) b → more ≡ [] }
{}

/// What octets say at all is said by its spelling, and read from it whatever follows.
#[tactic(auto, using(crate::proofs::Spelling::said_again, crate::proofs::Spelling::read_again))]
pub fn a_spelling_is_read_again()
    ensures says { (octets : List ℕ) (content : Content) → IsMessage octets content
        → IsMessage (spelling content) content }
    ensures reads { (octets : List ℕ) (content : Content) → IsMessage octets content → IsReadAgain content }
{}

/// Octets are always attributes and a tail, and in one way.
pub fn octets_are_attributes_in_one_way()
    ensures some { (octets : List ℕ) → AreOctets octets
        → (attributes : List AttributeFields) × (tail : List ℕ) × AreAttributes octets attributes tail }
    ensures attributes { (octets s t : List ℕ) (a b : List AttributeFields)
        → AreAttributes octets a s → AreAttributes octets b t → a ≡ b }
    ensures tail { (octets s t : List ℕ) (a b : List AttributeFields)
        → AreAttributes octets a s → AreAttributes octets b t → s ≡ t }
{}

/// What the iterator gives until it ends is each attribute, and then one fault exactly where the tail is a cut one.
pub fn each_attribute_comes_once()
    ensures { (octets tail after : List ℕ) (attributes : List AttributeFields)
        (items : List (Result Attribute WireFault))
        → AreAttributes octets attributes tail → YieldsThen NextAttribute octets items None after
        → SaysAll items attributes tail }
{}

/// What is cut off a message, wherever it is cut, leaves a proper prefix of a frame, and a proper prefix has fewer
/// octets than the longest message.
pub fn the_front_of_a_message_is_a_proper_prefix()
    ensures front { (octets more : List ℕ) (content : Content) → AreOctets octets → IsMessage (octets ++ more) content
        → more ≢ [] → IsProperPrefix octets }
    ensures short { (octets : List ℕ) → IsProperPrefix octets → length octets < 4096 }
{}

/// The number of a speaker's autonomous system is that of its first capability 65, and an OPEN with one is wide; without
/// one the number is My Autonomous System, and the OPEN is not wide.
pub fn the_first_four_octet_number_counts()
    ensures first { (fields : OpenFields) (before after : List Part) (c : Part)
        → capabilities_of fields ≡ before ++ c ∷ after → AllByRecursion (λ b. b.kind ≢ 65) before → c.kind ≡ 65
        → (asn_of fields ≡ big_number 4 c.value) × (is_wide fields ≡ true) }
    ensures none { (fields : OpenFields) → AllByRecursion (λ c. c.kind ≢ 65) (capabilities_of fields)
        → (asn_of fields ≡ fields.my_as) × (is_wide fields ≡ false) }
{}

/// What a speaker says of itself is read as that: its number, also where My Autonomous System has no room for it, its
/// identifier, and that it has numbers of four octets.
pub fn an_own_open_is_read_as_it_says()
    ensures { (part : OpenOut) → part.asn < 2 ^ 32 → (asn_of (open_fields part) ≡ part.asn)
        × ((open_fields part).id ≡ part.id.0) × (is_wide (open_fields part) ≡ true) }
{}
