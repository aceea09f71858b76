//! Labels and routes that are found in lists in the order of their keys.
ghost use Rattle.std.specs.Prelude.{◌≡◌, ◌==◌, ◌<◌, ◌≤◌, ◌%◌, IsTrue, find, nat_lt, option_copied, option_map, slice_get, true, false};
ghost use Rattle.std.specs.List.{All, AllPairs, filter_map};
ghost use Rattle.std.specs.List.Sorted.{IsPartitionPoint};
ghost use Rattle.std.specs.Ordering.{is_eq, is_lt};
ghost use Rattle.std.specs.declared.cmp.Ordering.TheVariants.{Less};
ghost use Rattle.ov_types.specs.Keys.{row_key_cmp};
ghost use Rattle.ov_types.specs.Prefix.{contains, is_prefix, size_of};
ghost use Rattle.ov_types.specs.Routing.{longest};
ghost use Rattle.route_targets.specs.Forwarding.{route_in};
ghost use Rattle.inspect_walks.specs.Taking.{has_key};

use ov_types::{Addr, Attached, Entry, InstanceId, Label, Prefix};

/// What names a row: its instance, and its prefix.
type RowKey = (InstanceId, Prefix);

/// How many labels are less than one.
fn labels_before(labels: &[(Label, Attached)], label: Label) -> usize
    requires { AllPairs (λ l m. l.0.0 < m.0.0) labels.now }
    ensures { IsPartitionPoint (λ e. nat_lt e.0.0 label.0 ≡ true) (λ e. nat_lt e.0.0 label.0 ≡ false) labels.now result }
{
    labels.partition_point(|entry| entry.0.0 < label.0)
}

fn item_at<T>(items: &[T], place: usize) -> Option<&T>
    ensures { option_copied result ≡ slice_get items.now place }
{
    items.get(place)
}

/// The entry of a label, of labels that ascend.
fn labelled(labels: &[(Label, Attached)], label: Label) -> Option<&(Label, Attached)>
    requires { AllPairs (λ l m. l.0.0 < m.0.0) labels.now }
    ensures { option_copied result ≡ find (λ e. e.0.0 == label.0) labels.now }
{
    let entry = item_at(labels, labels_before(labels, label))?;
    if entry.0.0 != label.0 {
        return None;
    }
    Some(entry)
}

/// What is under a label, of labels that ascend.
pub(crate) fn attached(labels: &[(Label, Attached)], label: Label) -> Option<Attached>
    requires { AllPairs (λ l m. l.0.0 < m.0.0) labels.now }
    ensures { result ≡ option_map (λ e. e.1) (find (λ e. e.0.0 == label.0) labels.now) }
{
    match labelled(labels, label) {
        Some(entry) => Some(entry.1),
        None => None,
    }
}

fn is_below(key: &RowKey, other: &RowKey) -> bool
    ensures { result ≡ is_lt (row_key_cmp key.now other.now) }
{
    key.cmp(other).is_lt()
}

/// How many rows have lesser keys than one.
fn rows_before(rows: &[(RowKey, Entry)], key: &RowKey) -> usize
    requires { AllPairs (λ q r. row_key_cmp q.0 r.0 ≡ Less) rows.now }
    ensures { IsPartitionPoint (λ r. is_lt (row_key_cmp r.0 key.now) ≡ true) (λ r. is_lt (row_key_cmp r.0 key.now) ≡ false)
        rows.now result }
{
    rows.partition_point(|row| is_below(&row.0, key))
}

fn is_key(key: &RowKey, other: &RowKey) -> bool
    ensures { result ≡ is_eq (row_key_cmp key.now other.now) }
{
    key.cmp(other).is_eq()
}

/// The row of a key, of rows that ascend.
fn row_of<'a>(rows: &'a [(RowKey, Entry)], key: &RowKey) -> Option<&'a (RowKey, Entry)>
    requires { AllPairs (λ q r. row_key_cmp q.0 r.0 ≡ Less) rows.now }
    ensures { option_copied result ≡ find (has_key key.now) rows.now }
{
    let row = item_at(rows, rows_before(rows, key))?;
    if !is_key(&row.0, key) {
        return None;
    }
    Some(row)
}

/// Where the row of a key leads.
fn row_at(rows: &[(RowKey, Entry)], key: &RowKey) -> Option<Entry>
    requires { AllPairs (λ q r. row_key_cmp q.0 r.0 ≡ Less) rows.now }
    ensures { result ≡ option_map (λ r. r.1) (find (has_key key.now) rows.now) }
{
    match row_of(rows, key) {
        Some(row) => Some(row.1),
        None => None,
    }
}

/// How far an address is past the start of the prefix of a length that contains it.
fn past_start(address: Addr, len: u8) -> u32
    requires { len ≤ 32 }
    ensures { result ≡ address.0 % size_of len }
{
    let size = 1u64 << (32 - len);
    (u64::from(address.0) % size) as u32
}

/// The prefix of a length that contains an address.
fn prefix_around(address: Addr, len: u8) -> Prefix
    requires { len ≤ 32 }
    ensures len { result.len ≡ len }
    ensures containing { IsTrue (contains result address.0) }
    ensures prefix { IsTrue (is_prefix result.addr result.len) }
{
    let start = address.0 - past_start(address, len);
    Prefix::new(Addr(start), len).unwrap()
}

/// The row of an instance with the longest prefix that contains an address. A prefix of each length is looked for, the
/// longest first.
pub(crate) fn row_taken(
    rows: &[(RowKey, Entry)],
    instance: InstanceId,
    address: Addr,
) -> Option<(Prefix, Entry)>
    requires ascending { AllPairs (λ q r. row_key_cmp q.0 r.0 ≡ Less) rows.now }
    requires prefixes { All (λ r. IsTrue (is_prefix r.0.1.addr r.0.1.len)) rows.now }
    ensures { result ≡ longest address.0 (filter_map (route_in instance) rows.now) }
{
    let mut left = 33;
    while left > 0 {
        left -= 1;
        let prefix = prefix_around(address, left);
        if let Some(entry) = row_at(rows, &(instance, prefix)) {
            return Some((prefix, entry));
        }
    }
    None
}
