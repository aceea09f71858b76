//! Groups: the members of services that have several.
ghost use Rattle.std.specs.Prelude.{◌≡◌, [], IsTrue};
ghost use Rattle.std.specs.List.{list_all};
ghost use Rattle.serde_json.specs.View.{view};
ghost use Rattle.config_model.specs.Paths.{place_text};
ghost use Rattle.config_model.specs.Faults.{Gives};
ghost use Rattle.scale_out.specs.Form.{has_group_form};
ghost use Rattle.scale_out.specs.Reading.{groups_at};

use crate::group_reader::groups_of;
use config_model::ReadRefusal;
use config_model::reading::DocumentPlace;
use config_types::Config;
use ov_types::{Items, Name};
use serde_json::Value;
use std::alloc::Global;
use std::marker::Model;

/// The members of a service, ascending and distinct.
#[derive(Drop)]
pub struct Group {
    pub service: Name,
    pub members: Items<u16>,
}

/// Groups, at most one of each service.
#[derive(Drop)]
pub struct Groups {
    pub(crate) inner: Items<Group>,
}

impl Model for Groups {
    ghost use Rattle.std.specs.Prelude.{List, IsTrue};
    ghost use Rattle.std.specs.List.{list_all};
    ghost use Rattle.scale_out.specs.declared.groups.Group.{Group as Several};
    ghost use Rattle.scale_out.specs.Form.{has_group_form as has_form};

    ghost Value = { List Several };

    ghost view = { λ g. g.inner };

    ghost invariant = { λ g. IsTrue (list_all has_form g.inner) };
}

impl Groups {
    /// No groups. It takes no memory.
    pub fn new(alloc: Global) -> Groups
        ensures { result ≡ [] }
    {
        Groups {
            inner: Items::new(alloc),
        }
    }

    /// The groups that a value writes: a list, each of a service that the configuration has and that no earlier group
    /// names, whether or not the configuration is valid. Paths begin at the value.
    pub fn read(alloc: Global, value: &Value, config: &Config) -> Result<Groups, ReadRefusal>
        ensures { Gives (λ groups. groups) result (groups_at config.now [] (view value.now)) }
    {
        Groups::read_at(alloc, &DocumentPlace::Whole, value, config)
    }

    /// The groups that a value at a place of a document writes, whether or not the configuration is valid.
    pub(crate) fn read_at(
        alloc: Global,
        place: &DocumentPlace<'_>,
        value: &Value,
        config: &Config,
    ) -> Result<Groups, ReadRefusal>
        ensures { Gives (λ groups. groups) result (groups_at config.now (place_text place.now) (view value.now)) }
    {
        let inner = groups_of(alloc, place, config, value)?;
        Ok(Groups { inner })
    }

    /// The groups, in order. It takes no memory.
    pub fn as_slice(&self) -> &[Group]
        ensures groups { result.now ≡ self.now }
        ensures form { IsTrue (list_all has_group_form self.now) }
    {
        self.inner.as_slice()
    }
}
