// 02, CR 7: the voters who carried a change, by ascending id. The Rust tells none.
#![tactic(auto)]

ghost use Rattle.std.specs.Prelude.{◌≡◌, ◌∷◌, [], ◌++◌, take};
ghost use Rattle.bincode.specs.Sizes.{base};
ghost use Rattle.voters.specs.Voters.{ids_of, no_voters};

use array_list::ArrayList;

// In the order in which their votes stand.
#[derive(Clone, Copy)]
pub struct Voters {
    pub ids: ArrayList<u32, { Voters::LIMIT }>,
}

impl Voters {
    pub const LIMIT: usize = 16;

    pub fn empty() -> Self
        ensures { result ≡ no_voters }
    {
        Voters {
            ids: ArrayList::empty(0),
        }
    }

    // One voter more; a full list has no place for it.
    pub fn add(&mut self, id: u32)
        ensures { ids_of self.new ≡ take base.nodes (ids_of self.old ++ (id ∷ [])) }
    {
        self.ids.push(id);
    }
}
