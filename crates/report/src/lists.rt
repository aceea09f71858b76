//! Lists, as they are printed.
ghost use Rattle.std.specs.Prelude.{◌≡◌, ◌++◌, ℕ, List, IfOk, OnOk, codes, decimal, string_bytes};
ghost use Rattle.ov_types.specs.Texts.{prefix_text, target_text};
ghost use Rattle.report.specs.Lists.{list_text, more_text};
ghost use Rattle.report.specs.Objects.{hop_text};
ghost use Rattle.report.specs.Outcomes.{visit_text};

use ov_types::{Addr, InstanceId, Prefix, ServiceNo, Target};
use scale_out::Visit;
use std::alloc::{AllocError, Global};

/// What stands in lists that are printed.
pub(crate) trait Listed {
    /// The text of one.
    ghost item_text: { Self → List ℕ };

    /// Appends the text of one.
    fn append_to(&self, text: &mut String) -> Result<(), AllocError>
        ensures { OnOk result (string_bytes text.new ≡ string_bytes text.old ++ item_text self.now) };
}

impl Listed for InstanceId {
    ghost item_text = { λ i. decimal i.0 };

    fn append_to(&self, text: &mut String) -> Result<(), AllocError> {
        write!(text, "{self}")
    }
}

impl Listed for ServiceNo {
    ghost item_text = { λ s. decimal s.0 };

    fn append_to(&self, text: &mut String) -> Result<(), AllocError> {
        write!(text, "{self}")
    }
}

impl Listed for Prefix {
    ghost item_text = { prefix_text };

    fn append_to(&self, text: &mut String) -> Result<(), AllocError> {
        write!(text, "{self}")
    }
}

impl Listed for Target {
    ghost item_text = { λ t. target_text t.0 };

    fn append_to(&self, text: &mut String) -> Result<(), AllocError> {
        write!(text, "{self}")
    }
}

/// A service of a chain's use at the address of its node.
impl Listed for (ServiceNo, Addr) {
    ghost item_text = { hop_text };

    fn append_to(&self, text: &mut String) -> Result<(), AllocError> {
        let service = self.0;
        let address = self.1;
        write!(text, "{service}@{address}")
    }
}

impl Listed for Visit {
    ghost item_text = { visit_text };

    fn append_to(&self, text: &mut String) -> Result<(), AllocError> {
        let service = self.service;
        let member = self.member;
        write!(text, "{service}:{member}")
    }
}

fn append_behind_comma<T: Listed>(item: &T, text: &mut String) -> Result<(), AllocError>
    ensures { OnOk result (string_bytes text.new ≡ string_bytes text.old ++ (codes "," ++ T.item_text item.now)) }
{
    text.push_str(",")?;
    item.append_to(text)
}

fn append_more<T: Listed>(items: &[T], text: &mut String) -> Result<(), AllocError>
    ensures { OnOk result (string_bytes text.new ≡ string_bytes text.old ++ more_text T.item_text items.now) }
{
    for item in items {
        append_behind_comma(item, text)?;
    }
    Ok(())
}

/// The items joined by commas, and `-` where there are none.
pub(crate) fn joined<T: Listed>(alloc: Global, items: &[T]) -> Result<String, AllocError>
    ensures { IfOk result (λ s. string_bytes s ≡ list_text T.item_text items.now) }
{
    match items {
        [] => String::from_str(alloc, "-"),
        [first, others @ ..] => {
            let mut text = String::new(alloc);
            first.append_to(&mut text)?;
            append_more(others, &mut text)?;
            Ok(text)
        }
    }
}
