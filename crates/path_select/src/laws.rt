//! Laws of the order of paths: each is the contract of a function that does nothing.
ghost use Rattle.std.specs.Prelude.{◌≡◌, ◌≢◌, ◌⊎◌, IsTrue, false};
ghost use Rattle.node_model.specs.Paths as model;
ghost use Rattle.node_model.specs.Tables as tables;
ghost use Rattle.path_select.specs.declared.selection.Path.{Path as PathValue};
ghost use Rattle.path_select.specs.Selection.{is_better, plain};

/// The order is strict and total: no path is better than itself, what is better than a better one is better, and of two
/// different ones either is better.
pub fn the_order_is_strict_and_total()
    ensures strict { (a : PathValue) → is_better a a ≡ false }
    ensures one_way { (a b : PathValue) → IsTrue (is_better a b) → is_better b a ≡ false }
    ensures passed_on { (a b c : PathValue) → IsTrue (is_better a b) → IsTrue (is_better b c) → IsTrue (is_better a c) }
    ensures total { (a b : PathValue) → a ≢ b → IsTrue (is_better a b) ⊎ IsTrue (is_better b a) }
{}

/// The order of paths is that of the paths that control nodes receive.
pub fn the_order_is_that_of_received_paths()
    ensures { (p q : model.Path) → is_better (plain p) (plain q) ≡ tables.is_better p q }
{}
