// What a host lends for faults and due items: a list for each field, filled from the first place on, as far as it reaches.
#![tactic(auto)]

ghost use Rattle.std.specs.Prelude.{◌≡◌, map, set};
ghost use Rattle.filled.specs.Filled.{filled, Says};
ghost use Rattle.filled.specs.Numbers.{fault_places, due_places, FaultsIn, DueIn, owed};

use due::DueKind;
use fault_log::Fault;

// A fault's node and the number of its kind.
#[derive(Drop)]
pub struct FaultLists<'a> {
    pub ids: &'a mut [u32],
    pub kinds: &'a mut [u8],
}

// The number of a due item's kind, its proposer's index (0 for a part) and its era.
#[derive(Drop)]
pub struct DueLists<'a> {
    pub kinds: &'a mut [u8],
    pub indices: &'a mut [u64],
    pub eras: &'a mut [u64],
}

// A value at a place of a lent list; where there is no such place, nothing changes.
fn put<T: Copy>(list: &mut [T], n: usize, x: T)
    ensures { list.new ≡ set list.old n x }
{
    if n < list.len() {
        list[n] = x;
    }
}

// What is said of each of some items, from the first place on.
fn put_each<A: Copy, B: Copy, F: Fn(A) -> B>(list: &mut [B], items: &[A], f: F)
    requires { F.IsAlwaysCallable f }
    ensures { (h : A → B) → Says (F.post f) h → list.new ≡ filled (map h items.now) list.old }
{
    for (n, item) in items.iter().enumerate() {
        put(list, n, f(*item));
    }
}

impl FaultLists<'_> {
    // For how many faults there are places.
    pub fn places(&self) -> usize
        ensures { result ≡ fault_places self.now.ids.now self.now.kinds.now }
    {
        self.ids.len().min(self.kinds.len())
    }

    pub fn put(self, faults: &[Fault])
        ensures { FaultsIn faults.now self.entry.ids.now self.exit.0.now self.entry.kinds.now self.exit.1.0.now }
    {
        put_each(self.ids, faults, |fault| fault.node_id);
        put_each(self.kinds, faults, |fault| u8::from(fault.kind));
    }
}

impl DueLists<'_> {
    // For how many due items there are places.
    pub fn places(&self) -> usize
        ensures { result ≡ due_places self.now.kinds.now self.now.indices.now self.now.eras.now }
    {
        self.kinds
            .len()
            .min(self.indices.len())
            .min(self.eras.len())
    }

    // Acks of an era, by the indices of their proposers, and a part behind them where one is due.
    pub fn put(self, era: u64, acks: &[usize], part: Option<u64>)
        ensures { DueIn (owed era acks.now part) self.entry.kinds.now self.exit.0.now self.entry.indices.now self.exit.1.0.now
            self.entry.eras.now self.exit.1.1.0.now }
    {
        put_each(self.kinds, acks, |i| u8::from(DueKind::Ack(i)));
        put_each(self.indices, acks, |i| i as u64);
        put_each(self.eras, acks, |_| era);
        if let Some(next) = part {
            put(self.kinds, acks.len(), u8::from(DueKind::Part));
            put(self.indices, acks.len(), 0);
            put(self.eras, acks.len(), next);
        }
    }
}
