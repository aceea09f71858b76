//! What a crate above reads a document of its own with: members of objects and items of lists, each at its place, and
//! the fault of what stands there.

pub use crate::fault::DocumentPlace;
pub use crate::fields::{
    Count, FromDocument, check_others, items_of, list_member, list_of, member_of, object_of,
    optional_list_member, read_list, read_member, text_of, whole_member, whole_of,
};
pub use crate::one_member::one_member_of;
pub use crate::values::{address_member, name_but_member};
