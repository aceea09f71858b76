//! The sending end.
ghost use Rattle.std.specs.Prelude.{◌≡◌, ◌++◌, ◌∷◌, [], None, Some, if◌then◌else◌, option_copied, IfOk, OnOk, OnErr};
ghost use Rattle.std.specs.FinMap.{get};
ghost use Rattle.std.specs.Ordering.{eq_by_cmp};
ghost use Rattle.ov_sync.specs.declared.Delta.TheVariants.{Put, Drop};
ghost use Rattle.ov_sync.specs.Keyed.{map_of, change, difference};

use crate::Delta;
use ov_types::NoMemory;
use std::alloc::Global;
use std::cmp::Ordering;
use std::collections::BTreeMap;
use std::marker::Model;

/// What was sent of a keyed table, which contracts see as its entries in the order of their keys.
#[derive(Drop)]
pub struct SyncOut<K: Ord, V> {
    sent: BTreeMap<K, V>,
    alloc: Global,
}

impl<K: Ord, V> Model for SyncOut<K, V> {
    ghost use Rattle.std.specs.Prelude.{List};

    ghost Value = { List (K × V) };

    ghost view = { λ s. s.sent.entries };
}

impl<K: Ord + Clone + Drop, V: PartialEq + Clone + Drop> SyncOut<K, V> {
    /// Nothing was sent. It takes no memory.
    pub fn new(alloc: Global) -> Self
        ensures { result ≡ [] }
    {
        SyncOut {
            sent: BTreeMap::new(alloc),
            alloc,
        }
    }

    /// The changes from what was sent to what is desired, which is sent then.
    pub fn replace(&mut self, desired: &BTreeMap<K, V>) -> Result<Vec<Delta<K, V>>, NoMemory>
        requires keys { (k : K) (c : K) → K.is_clone k c → c ≡ k }
        requires values { (v : V) (c : V) → V.is_clone v c → c ≡ v }
        ensures changes { IfOk result (λ deltas. deltas.items
            ≡ difference V.eq (map_of K.cmp self.old) (map_of K.cmp desired.now.entries)) }
        ensures ok { OnOk result (self.new ≡ desired.now.entries) }
        ensures err { OnErr result (self.new ≡ self.old) }
    {
        let deltas = changes(self.alloc, &self.sent, desired)?;
        let sent = desired.clone()?;
        self.sent = sent;
        Ok(deltas)
    }

    /// Changes one key to what is wanted of it, which is sent then, and answers that change: none exactly where what
    /// was sent of the key is what is wanted. All else stays.
    pub fn replace_key(
        &mut self,
        key: K,
        wanted: Option<V>,
    ) -> Result<Option<Delta<K, V>>, NoMemory>
        requires keys { (k : K) (c : K) → K.is_clone k c → c ≡ k }
        requires values { (v : V) (c : V) → V.is_clone v c → c ≡ v }
        ensures change { IfOk result (λ delta. delta ≡ change V.eq key (get (map_of K.cmp self.old) key) wanted) }
        ensures sent { OnOk result ((q : K) → get (map_of K.cmp self.new) q
            ≡ (if eq_by_cmp K.cmp q key then wanted else get (map_of K.cmp self.old) q)) }
        ensures err { OnErr result (self.new ≡ self.old) }
    {
        match wanted {
            None => Ok(self.drop_key(key)),
            Some(value) => self.put_key(key, value),
        }
    }

    fn drop_key(&mut self, key: K) -> Option<Delta<K, V>>
        ensures change { result ≡ change V.eq key (get (map_of K.cmp self.old) key) None }
        ensures sent { (q : K) → get (map_of K.cmp self.new) q
            ≡ (if eq_by_cmp K.cmp q key then None else get (map_of K.cmp self.old) q) }
    {
        match self.sent.remove(&key) {
            Some(_) => Some(Delta::Drop(key)),
            None => None,
        }
    }

    fn put_key(&mut self, key: K, value: V) -> Result<Option<Delta<K, V>>, NoMemory>
        requires keys { (k : K) (c : K) → K.is_clone k c → c ≡ k }
        requires values { (v : V) (c : V) → V.is_clone v c → c ≡ v }
        ensures change { IfOk result (λ delta. delta
            ≡ change V.eq key (get (map_of K.cmp self.old) key) (Some value)) }
        ensures sent { OnOk result ((q : K) → get (map_of K.cmp self.new) q
            ≡ (if eq_by_cmp K.cmp q key then Some value else get (map_of K.cmp self.old) q)) }
        ensures err { OnErr result (self.new ≡ self.old) }
    {
        let delta = put_change(self.sent.get(&key), &key, &value)?;
        self.sent.insert(key, value)?;
        Ok(delta)
    }

    /// Nothing was sent. It takes no memory.
    pub fn reset(&mut self)
        ensures { self.new ≡ [] }
    {
        self.sent.clear();
    }
}

/// One walk over both tables, each in the order of its keys.
fn changes<K: Ord + Clone + Drop, V: PartialEq + Clone + Drop>(
    alloc: Global,
    sent: &BTreeMap<K, V>,
    desired: &BTreeMap<K, V>,
) -> Result<Vec<Delta<K, V>>, NoMemory>
    requires keys { (k : K) (c : K) → K.is_clone k c → c ≡ k }
    requires values { (v : V) (c : V) → V.is_clone v c → c ≡ v }
    ensures { IfOk result (λ deltas. deltas.items
        ≡ difference V.eq (map_of K.cmp sent.now.entries) (map_of K.cmp desired.now.entries)) }
{
    let mut deltas = Vec::new(alloc);
    let mut olds = sent.iter();
    let mut news = desired.iter();
    let mut old = olds.next();
    let mut new = news.next();
    'merge: loop {
        match (old, new) {
            (None, None) => return Ok(deltas),
            (Some((key, _)), None) => {
                push_drop(&mut deltas, key)?;
                old = olds.next();
            }
            (None, Some((key, value))) => {
                push_put(&mut deltas, key, value)?;
                new = news.next();
            }
            (Some((old_key, old_value)), Some((key, value))) => match old_key.cmp(key) {
                Ordering::Less => {
                    push_drop(&mut deltas, old_key)?;
                    old = olds.next();
                }
                Ordering::Greater => {
                    push_put(&mut deltas, key, value)?;
                    new = news.next();
                }
                Ordering::Equal => {
                    push_change(&mut deltas, old_value, key, value)?;
                    old = olds.next();
                    new = news.next();
                }
            },
        }
    }
}

fn push_drop<K: Clone + Drop, V: Drop>(
    deltas: &mut Vec<Delta<K, V>>,
    key: &K,
) -> Result<(), NoMemory>
    requires { (k : K) (c : K) → K.is_clone k c → c ≡ k }
    ensures { OnOk result (deltas.new.items ≡ deltas.old.items ++ Drop key.now ∷ []) }
{
    deltas.push(Delta::Drop(key.clone()?))?;
    Ok(())
}

fn push_put<K: Clone + Drop, V: Clone + Drop>(
    deltas: &mut Vec<Delta<K, V>>,
    key: &K,
    value: &V,
) -> Result<(), NoMemory>
    requires keys { (k : K) (c : K) → K.is_clone k c → c ≡ k }
    requires values { (v : V) (c : V) → V.is_clone v c → c ≡ v }
    ensures { OnOk result (deltas.new.items ≡ deltas.old.items ++ Put key.now value.now ∷ []) }
{
    deltas.push(Delta::Put(key.clone()?, value.clone()?))?;
    Ok(())
}

/// The change of a key that both tables have.
fn push_change<K: Clone + Drop, V: PartialEq + Clone + Drop>(
    deltas: &mut Vec<Delta<K, V>>,
    old: &V,
    key: &K,
    value: &V,
) -> Result<(), NoMemory>
    requires keys { (k : K) (c : K) → K.is_clone k c → c ≡ k }
    requires values { (v : V) (c : V) → V.is_clone v c → c ≡ v }
    ensures { OnOk result (deltas.new.items ≡ deltas.old.items
        ++ (if V.eq old.now value.now then [] else Put key.now value.now ∷ [])) }
{
    if old == value {
        return Ok(());
    }
    push_put(deltas, key, value)
}

/// The change from what was sent of a key to a value.
fn put_change<K: Clone + Drop, V: PartialEq + Clone + Drop>(
    sent: Option<&V>,
    key: &K,
    value: &V,
) -> Result<Option<Delta<K, V>>, NoMemory>
    requires keys { (k : K) (c : K) → K.is_clone k c → c ≡ k }
    requires values { (v : V) (c : V) → V.is_clone v c → c ≡ v }
    ensures { IfOk result (λ delta. delta ≡ change V.eq key.now (option_copied sent.entry) (Some value.now)) }
{
    if let Some(old) = sent {
        if old == value {
            return Ok(None);
        }
    }
    Ok(Some(Delta::Put(key.clone()?, value.clone()?)))
}
