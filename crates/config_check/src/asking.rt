//! What is asked of each item of a list.
ghost use Rattle.std.specs.Prelude.{◌≡◌, Option};
ghost use Rattle.std.specs.Fn.{FnReturnsAt};
ghost use Rattle.ov_types.specs.First.{first_of};

/// The first answer that an item gives, where an item gives one answer.
pub(crate) fn first_of<T, B, F: Fn(&T) -> Option<B>>(items: &[T], answer: F) -> Option<B>
    requires { F.IsAlwaysCallable answer }
    ensures { (f : T → Option B) → ((x : T) (r : Option B) → FnReturnsAt F.Fn answer x r → r ≡ f x)
        → result ≡ first_of f items.now }
{
    for item in items {
        if let Some(found) = answer(item) {
            return Some(found);
        }
    }
    None
}
