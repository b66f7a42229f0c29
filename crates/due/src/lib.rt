// dynamic_honey_badger.rs, `send_transaction`: what this node has to send, as a list for the host, which signs it (01: the due list).
#![tactic(auto)]

ghost use Rattle.std.specs.Prelude.{◌≡◌, ◌∷◌, [], ◌++◌, ◌≤◌, length, take};
ghost use Rattle.bincode.specs.Sizes.{base};
ghost use Rattle.due.specs.Due.{due_of, no_item, no_due, due_number};

use array_list::ArrayList;

// A part of the own, or an ack for the part of the proposer with an index.
#[derive(Clone, Copy)]
pub enum DueKind {
    Part,
    Ack(usize),
}

// Its number in a lent list.
impl From<DueKind> for u8 {
    ghost from_gives = { λ k n. n ≡ due_number k };

    fn from(kind: DueKind) -> u8 {
        match kind {
            DueKind::Part => 0,
            DueKind::Ack(_) => 1,
        }
    }
}

#[derive(Clone, Copy)]
pub struct DueItem {
    pub kind: DueKind,
    pub era: u64,
}

impl DueItem {
    pub fn empty() -> Self
        ensures { result ≡ no_item }
    {
        DueItem {
            kind: DueKind::Part,
            era: 0,
        }
    }
}

// In order of arising.
#[derive(Clone, Copy)]
pub struct DueList {
    pub items: ArrayList<DueItem, { DueList::LIMIT }>,
}

impl DueList {
    pub const LIMIT: usize = 1025;

    // The items of an array below a count.
    pub fn new(count: usize, items: [DueItem; DueList::LIMIT]) -> Self
        ensures { result ≡ record { items = record { count = count; items = items } } }
    {
        DueList {
            items: ArrayList { count, items },
        }
    }

    pub fn empty() -> Self
        ensures { result ≡ no_due }
    {
        DueList {
            items: ArrayList::empty(DueItem::empty()),
        }
    }

    // How many items there are: a count past the array counts as the array's length.
    pub fn len(&self) -> usize
        ensures { (result ≡ length (due_of self.now)) × (result ≤ base.due) }
    {
        self.items.len()
    }

    // One item more; a full list has no place for it.
    pub fn append(&mut self, item: DueItem)
        ensures { due_of self.new ≡ take base.due (due_of self.old ++ (item ∷ [])) }
    {
        self.items.push(item);
    }
}
