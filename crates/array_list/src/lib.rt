// A list of at most N values without a heap: an array, and how many of its places count.
#![tactic(auto)]

ghost use Rattle.std.specs.Prelude.{◌≡◌, ℕ, ◌+◌, ◌≤◌, [], ◌∷◌, ◌++◌, take, drop, length, replicate, ltb, Bool};
ghost use Rattle.std.specs.Fn.{FnReturnsAt};
ghost use Rattle.std.specs.Cmp.{on_per};
ghost use Rattle.std.specs.Cmp.Lexicographic.{pointwise, lists_per};
ghost use Rattle.lists.specs.Lists.{at_place, option_as_found, lookup, below, has_key, insert_within, takes_place, filter};
ghost use Rattle.array_list.specs.ArrayList.{items_in, pushed, put_at, Decides};

// What sorted lists go by.
pub trait Keyed {
    ghost key_of: { Self → ℕ };

    fn key(&self) -> u32
        ensures { result ≡ key_of self.now };
}

// Any count is a legal one: what is past the array does not count.
#[derive(Clone, Copy)]
pub struct ArrayList<T, const N: usize> {
    pub count: usize,
    pub items: [T; N],
}

impl<T: Copy, const N: usize> ArrayList<T, N> {
    // No values; the places hold what is given.
    pub fn empty(none: T) -> Self
        ensures { result ≡ record { count = 0; items = replicate N none } }
    {
        ArrayList {
            count: 0,
            items: [none; N],
        }
    }

    // How many values there are.
    pub fn len(&self) -> usize
        ensures { (result ≡ length (items_in self.now)) × (result ≤ N) }
    {
        self.count.min(N)
    }

    // The values, in order.
    pub fn as_slice(&self) -> &[T]
        ensures { result.now ≡ items_in self.now }
    {
        &self.items[..self.len()]
    }

    // The value at a place, 0 first.
    pub fn at(&self, place: usize) -> Option<T>
        ensures { option_as_found (λ (x : T). x) result ≡ at_place place (items_in self.now) }
    {
        self.as_slice().get(place).copied()
    }

    // One value more, behind those there are, and whether it has a place.
    pub fn push(&mut self, x: T) -> bool
        ensures { (items_in self.new ≡ pushed N x (items_in self.old)) × (result ≡ ltb (length (items_in self.old)) N) × (length (items_in self.old) ≤ N) }
    {
        let n = self.len();
        if n < N {
            self.items[n] = x;
            self.count = n + 1;
            return true;
        }
        false
    }

    // No values any more.
    pub fn clear(&mut self)
        ensures { items_in self.new ≡ [] }
    {
        self.count = 0;
    }

    // A value put at a place, those from there on moved up; past the end is no place, and a full list has none.
    pub fn insert_at(&mut self, at: usize, x: T)
        ensures { items_in self.new ≡ put_at N at x (items_in self.old) }
    {
        let n = self.len();
        if n < N && at <= n {
            self.items.copy_within(at..n, at + 1);
            self.items[at] = x;
            self.count = n + 1;
        }
    }

    // The values of which a test holds, in order: the others go.
    pub fn retain<F: Fn(&T) -> bool>(&mut self, keep: F)
        requires { F.IsAlwaysCallable keep }
        ensures { (p : T → Bool) → Decides (FnReturnsAt F.Fn keep) p → items_in self.new ≡ filter p (items_in self.old) }
    {
        let n = self.len();
        let mut kept: usize = 0;
        for i in 0..n {
            let x = self.items[i];
            if keep(&x) {
                self.items[kept] = x;
                kept += 1;
            }
        }
        self.count = kept;
    }
}

impl<T: Copy + Keyed, const N: usize> ArrayList<T, N> {
    // How many values stand before the first whose key is not below this one.
    fn place(&self, key: u32) -> usize
        ensures { (result ≡ below T.key_of key (items_in self.now)) × (result ≤ length (items_in self.now)) }
    {
        let xs = self.as_slice();
        xs.iter().position(|x| key <= x.key()).unwrap_or(xs.len())
    }

    // The first value with a key.
    pub fn get(&self, key: u32) -> Option<T>
        ensures { option_as_found (λ (x : T). x) result ≡ lookup T.key_of (items_in self.now) key }
    {
        self.as_slice().iter().find(|x| x.key() == key).copied()
    }

    // Whether a value has a key, where the values ascend by it.
    pub fn has(&self, key: u32) -> bool
        ensures { result ≡ has_key T.key_of key (items_in self.now) }
    {
        let at = self.place(key);
        self.as_slice().get(at).is_some_and(|x| x.key() == key)
    }

    // Where the values ascend by key: one put in the place of the one with its key, or where its key belongs; a full list has no place for another key.
    pub fn insert(&mut self, x: T)
        ensures { items_in self.new ≡ insert_within T.key_of N x (items_in self.old) }
    {
        let n = self.len();
        let at = self.place(x.key());
        if at < n && self.items[at].key() == x.key() {
            self.items[at] = x;
        } else {
            self.insert_at(at, x);
        }
    }
}

// Lists are equal where their values are, one by one: what stands in places that do not count does not matter.
impl<T: Copy + PartialEq, const N: usize> PartialEq for ArrayList<T, N> {
    ghost eq = { λ a b. pointwise T.eq (items_in a) (items_in b) };

    ghost laws = { on_per items_in (lists_per T.laws) };

    fn eq(&self, other: &Self) -> bool {
        self.as_slice() == other.as_slice()
    }
}
