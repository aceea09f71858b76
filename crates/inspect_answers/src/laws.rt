//! What expectations promise, as laws: each is the contract of a function that does nothing.
ghost use Rattle.std.specs.Prelude.{ℕ, ◌≡◌, ◌<◌, ◌^◌, IsTrue};
ghost use Rattle.ov_types.specs.declared.packet.Outcome.{Outcome};
ghost use Rattle.config_types.specs.Form.{has_config_form};
ghost use Rattle.config_types.specs.declared.config.Config.{Config};
ghost use Rattle.config_model.specs.Laws.{IsRead};
ghost use Rattle.inspect_json.specs.Form.{IsReadBack};
ghost use Rattle.inspect_json.specs.Sizes.{has_outcome_size};
ghost use Rattle.inspect_answers.specs.ExpectValues.{counts_value, has_expected_size, unmet_value};
ghost use Rattle.inspect_answers.specs.declared.expectation.Expected.{Expected as Expectable};
ghost use Rattle.inspect_answers.specs.ExpectDocuments.{ExpectHasJust, ExpectationHasJust, NothingElseIsExpected};
ghost use Rattle.inspect_answers.specs.ExpectDocuments.{OtherIsNoExpectation, expect_document, expect_form};
ghost use Rattle.inspect_answers.specs.ExpectDocuments.{expectation_document, expectation_form};
ghost use Rattle.inspect_answers.specs.Expectations.{expect_at, expectation_at};

/// Each expectation, and what `expect` takes, if of the written form, has a document, which reads as it.
#[tactic(auto, using(crate::proofs::ExpectRead::expectation_is_read, crate::proofs::ExpectRead::expect_is_read))]
pub fn expectations_are_read()
    ensures expectation { IsRead expectation_at expectation_form expectation_document }
    ensures expect { IsRead expect_at expect_form expect_document }
{}

/// A packet of which something is expected has six members, and what `expect` takes has three; each has no other.
#[tactic(auto, using(crate::proofs::ExpectRead::expectation_has_just, crate::proofs::ExpectRead::expect_has_just))]
pub fn expectations_have_just_their_members()
    ensures expectation { ExpectationHasJust }
    ensures expect { ExpectHasJust }
{}

/// A text other than the five is no expectation, and is out of range; what is no text and no object is of another kind.
#[tactic(auto, using(crate::proofs::ExpectRead::other_is_none, crate::proofs::ExpectRead::nothing_else))]
pub fn other_values_are_no_expectations()
    ensures text { OtherIsNoExpectation }
    ensures value { NothingElseIsExpected }
{}

/// The JSON of an outcome that is otherwise than is expected, and of how many are, reads as its value.
pub fn lines_of_expectations_read_as_their_values()
    ensures unmet { (c : Config) (n : ℕ) (e : Expectable) (o : Outcome) → IsTrue (has_config_form c) → n < 2 ^ 64
        → IsTrue (has_expected_size e) → IsTrue (has_outcome_size o) → IsReadBack (unmet_value c n e o) }
    ensures counts { (packets otherwise : ℕ) → packets < 2 ^ 64 → otherwise < 2 ^ 64 → IsReadBack (counts_value packets otherwise) }
{}

/// Two outcomes that are otherwise than is expected, of one value, are one, and two counts of one value are one.
#[tactic(auto, using(crate::proofs::ExpectReadBack::unmet_says, crate::proofs::ExpectReadBack::counts_says))]
pub fn lines_of_expectations_say_one_thing()
    ensures unmet { (c d : Config) (n m : ℕ) (e f : Expectable) (o p : Outcome) → unmet_value c n e o ≡ unmet_value d m f p
        → (n ≡ m) × (e ≡ f) × (o ≡ p) }
    ensures counts { (n m j k : ℕ) → counts_value n j ≡ counts_value m k → (n ≡ m) × (j ≡ k) }
{}
