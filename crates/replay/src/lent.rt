// The lists that a call is lent: every place holds a pattern, so a place that is written for nothing shows in the answer. The lists last from call to call; the
// places that a call filled get the pattern back.
use crate::fields::MOST_PLACES;
use crate::text::first;
use std::alloc::{AllocError, Global};

// The places of each list: as many as a line can name, and some behind that no call is lent.
pub const PLACES: usize = MOST_PLACES + GUARDS;

pub const GUARDS: usize = 16;

// How many places behind those filled are looked at after each call; the whole lists are looked at once, at the end.
pub const NEAR: usize = 64;

// What stands at a place before the call; there is no such kind.
pub const ID: u32 = 2779096485;

pub const KIND: u8 = 165;

pub const NUMBER: u64 = 11936128518282651045;

// A list that calls are lent, and the pattern of its places.
#[derive(Drop)]
pub struct Lent<T> {
    places: Vec<T>,
    pattern: T,
}

// Faults by ids and kinds, due items by kinds, indices and eras.
#[derive(Drop)]
pub struct Lists {
    pub ids: Lent<u32>,
    pub kinds: Lent<u8>,
    pub due_kinds: Lent<u8>,
    pub indices: Lent<u64>,
    pub eras: Lent<u64>,
}

// The first n places of a list, as many as there are.
pub(crate) fn lend<T>(list: &mut [T], n: usize) -> &mut [T] {
    let places = n.min(list.len());
    &mut list[..places]
}

impl<T: Copy + PartialEq> Lent<T> {
    fn new(alloc: Global, pattern: T) -> Result<Lent<T>, AllocError> {
        Ok(Lent {
            places: vec![in alloc; pattern; PLACES]?,
            pattern,
        })
    }

    // The first n places, for a call to fill.
    pub(crate) fn lend(&mut self, n: usize) -> &mut [T] {
        lend(&mut self.places, n)
    }

    // The first n places, as a call filled them.
    pub(crate) fn first(&self, n: usize) -> &[T] {
        first(&self.places, n)
    }

    // Whether the places from one on to another hold the pattern. The loop has no exit, so that many places are compared at once.
    fn holds(&self, from: usize, to: usize) -> bool {
        let pattern = self.pattern;
        match self.places.get(from..to.min(self.places.len())) {
            Some(places) => places.iter().fold(true, |kept, x| kept & (*x == pattern)),
            None => true,
        }
    }

    // Whether places hold the pattern: those next behind the first n, and some behind those that a line names.
    fn kept(&self, n: usize, named: usize) -> bool {
        let end = named.saturating_add(GUARDS).min(PLACES);
        self.holds(n, n.saturating_add(NEAR).min(end)) && self.holds(named, end)
    }

    // Whether every place holds the pattern.
    fn all_kept(&self) -> bool {
        self.holds(0, PLACES)
    }

    // Puts the pattern back at the first n places.
    fn clear(&mut self, n: usize) {
        let pattern = self.pattern;
        for x in self.lend(n) {
            *x = pattern;
        }
    }
}

impl Lists {
    pub(crate) fn new(alloc: Global) -> Result<Lists, AllocError> {
        Ok(Lists {
            ids: Lent::new(alloc, ID)?,
            kinds: Lent::new(alloc, KIND)?,
            due_kinds: Lent::new(alloc, KIND)?,
            indices: Lent::new(alloc, NUMBER)?,
            eras: Lent::new(alloc, NUMBER)?,
        })
    }

    // Whether places of faults hold the pattern, behind the first n and behind those that a line names.
    pub(crate) fn faults_kept(&self, n: usize, named: usize) -> bool {
        self.ids.kept(n, named) && self.kinds.kept(n, named)
    }

    // The same of due items.
    pub(crate) fn due_kept(&self, n: usize, named: usize) -> bool {
        self.due_kinds.kept(n, named) && self.indices.kept(n, named) && self.eras.kept(n, named)
    }

    // Whether every place of all lists holds the pattern, as it must between two calls.
    pub(crate) fn all_kept(&self) -> bool {
        self.ids.all_kept()
            && self.kinds.all_kept()
            && self.due_kinds.all_kept()
            && self.indices.all_kept()
            && self.eras.all_kept()
    }

    // Puts the pattern back at the first places of faults and of due items.
    pub(crate) fn clear(&mut self, faults: usize, due: usize) {
        self.ids.clear(faults);
        self.kinds.clear(faults);
        self.due_kinds.clear(due);
        self.indices.clear(due);
        self.eras.clear(due);
    }
}

// Ends an answer; it says before what no log expects, where a place changed that had to keep what it held.
pub(crate) fn end_line(out: &mut String, faults: bool, due: bool) -> Result<(), AllocError> {
    if !faults {
        out.push_str(" faults changed")?;
    } else if !due {
        out.push_str(" due changed")?;
    }
    out.push_str("\n")
}
