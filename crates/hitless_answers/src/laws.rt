//! What the lines of JSON promise, as laws: each is the contract of a function that does nothing.
ghost use Rattle.std.specs.Prelude.{◌≡◌, ◌<◌, ◌^◌, ℕ, IsTrue};
ghost use Rattle.std.specs.Str.{IsUtf8};
ghost use Rattle.config_types.specs.Form.{has_config_form};
ghost use Rattle.config_types.specs.declared.config.Config.{Config};
ghost use Rattle.schedule_script.specs.declared.edits.TiedFault.{TiedFault};
ghost use Rattle.hitless_cells.specs.declared.lines.Interruption.{Interruption};
ghost use Rattle.inspect_json.specs.Form.{IsReadBack};
ghost use Rattle.hitless_answers.specs.EditValues.{count_value, has_packet_size, packet_value, refused_value};
ghost use Rattle.hitless_answers.specs.Lines.{packet_line, refused_line, tied_fault_text};

/// The JSON of a packet that an edit interrupts, of a refusal, and of how many pairs of ports an edit interrupts, reads as its
/// value.
pub fn lines_of_edits_read_as_their_values()
    ensures packet { (c : Config) (n : ℕ) (l : Interruption) → IsTrue (has_config_form c) → n < 2 ^ 64 → IsTrue (has_packet_size l)
        → IsReadBack (packet_value c n l) }
    ensures refused { (n : ℕ) (fault : TiedFault) → n < 2 ^ 64 → IsUtf8 (tied_fault_text fault) → IsReadBack (refused_value n fault) }
    ensures count { (n count : ℕ) → n < 2 ^ 64 → count < 2 ^ 64 → IsReadBack (count_value n count) }
{}

/// Two packets, and two refusals, of one value have one line of text, and two counts of one value are one.
#[tactic(auto, using(crate::proofs::EditsBack::packet_says, crate::proofs::EditsBack::refused_says, crate::proofs::EditsBack::count_says))]
pub fn lines_of_edits_say_one_thing()
    ensures packet { (c d : Config) (n m : ℕ) (l k : Interruption) → packet_value c n l ≡ packet_value d m k
        → packet_line n l ≡ packet_line m k }
    ensures refused { (n m : ℕ) (f g : TiedFault) → refused_value n f ≡ refused_value m g → refused_line n f ≡ refused_line m g }
    ensures count { (n m j k : ℕ) → count_value n j ≡ count_value m k → (n ≡ m) × (j ≡ k) }
{}
