//! What labels lead to.
ghost use Rattle.std.specs.Prelude.{◌≡◌, ◌==◌, [], find, map, option_map, OnOk, OnErr};
ghost use Rattle.std.specs.BTreeMap.{insert_entry};
ghost use Rattle.std.specs.List.Sorted.{IsStrictlySortedBy};
ghost use Rattle.std.specs.Map.{remove_entry};
ghost use Rattle.std.specs.Ordering.{nat_cmp};

use ov_types::{Attached, Label, NoMemory};
use std::alloc::Global;
use std::collections::BTreeMap;
use std::collections::btree_map::Iter;
use std::marker::Model;

/// What an agent's labels lead to, which contracts see as their list in the order of the labels.
#[derive(Drop)]
pub struct Labels {
    attached: BTreeMap<Label, Attached>,
}

impl Model for Labels {
    ghost use Rattle.std.specs.Prelude.{List};
    ghost use Rattle.ov_types.specs.declared.numbers.Label.{Label as Number};
    ghost use Rattle.ov_types.specs.declared.rows.Attached.{Attached as Thing};

    ghost Value = { List (Number × Thing) };

    ghost view = { λ l. l.attached.entries };
}

impl Labels {
    /// No labels. It takes no memory.
    pub fn new(alloc: Global) -> Labels
        ensures { result ≡ [] }
    {
        Labels {
            attached: BTreeMap::new(alloc),
        }
    }

    /// The label leads to this from now on.
    pub fn set(&mut self, label: Label, at: Attached) -> Result<(), NoMemory>
        ensures ok { OnOk result (self.new ≡ insert_entry (λ a b. nat_cmp a.0 b.0) self.old label at) }
        ensures err { OnErr result (self.new ≡ self.old) }
    {
        self.attached.insert(label, at)?;
        Ok(())
    }

    /// The label leads to nothing from now on. One that led to nothing changes nothing.
    pub fn remove(&mut self, label: Label)
        ensures { self.new ≡ remove_entry (λ a. a.0 == label.0) self.old }
    {
        self.attached.remove(&label);
    }

    /// What the label leads to. There is nothing exactly where the label is absent.
    pub fn find(&self, label: Label) -> Option<Attached>
        ensures { result ≡ option_map (λ e. e.1) (find (λ e. e.0.0 == label.0) self.now) }
    {
        self.attached.get(&label).copied()
    }

    /// What each label leads to, in the order of the labels. It takes no memory.
    pub fn iter(&self) -> Iter<'_, Label, Attached>
        ensures entries { result ≡ self.now }
        ensures ascending { IsStrictlySortedBy (λ a b. nat_cmp a.0 b.0) (map (λ e. e.0) self.now) }
    {
        self.attached.iter()
    }
}
