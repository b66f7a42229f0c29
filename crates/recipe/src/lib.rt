// sync_key_gen.rs: what `generate` would add up, as a recipe for the host.
#![tactic(auto)]

ghost use Rattle.std.specs.Prelude.{◌≡◌, ◌+◌};
ghost use Rattle.key_gen.specs.KeyGen.{key_gen_of};
ghost use Rattle.recipe.specs.Recipe.{recipe, recipe_of};
ghost use Rattle.recipe.specs.Places.{first_marks, short_in, share_in};

use key_gen::{KeyGen, Proposal};
use pub_key_map::PubKeyMap;

// Whose values are used of one proposer.
#[derive(Clone, Copy)]
pub struct Share {
    pub used: [bool; PubKeyMap::LIMIT],
}

// The complete proposers by their indices; where the share can be made, what is used of each.
#[derive(Clone, Copy)]
pub enum Recipe {
    Observer([bool; PubKeyMap::LIMIT]),
    Share([Option<Share>; PubKeyMap::LIMIT]),
    Missing([bool; PubKeyMap::LIMIT]),
}

// The first t+1 of the marked places.
fn first(mut good: [bool; PubKeyMap::LIMIT], t: usize) -> [bool; PubKeyMap::LIMIT]
    ensures { result ≡ first_marks (t + 1) good }
{
    let mut taken: usize = 0;
    for flag in good.iter_mut() {
        *flag = *flag && taken <= t;
        taken += usize::from(*flag);
    }
    good
}

// Whether a complete part stands at a place that has too few good values, no more than t.
fn is_short(place: Option<Proposal>, t: usize) -> bool
    ensures { result ≡ short_in t place }
{
    place.is_some_and(|p| p.is_complete(t) && key_gen::count_marked(p.good) <= t)
}

impl Share {
    // What one proposer gives, where its part is complete: the first t+1 acknowledgers with good values.
    fn of_proposal(place: Option<Proposal>, t: usize) -> Option<Self>
        ensures { result ≡ share_in t place }
    {
        place.filter(|p| p.is_complete(t)).map(|p| Share {
            used: first(p.good, t),
        })
    }
}

impl Recipe {
    // What `generate` adds up: the complete proposers and, for each, the first t+1 acknowledgers with good values. An observer has no share; where some
    // complete proposer has too few good values, the share is missing.
    pub fn generate(g: KeyGen) -> Self
        ensures { recipe_of result ≡ recipe (key_gen_of g) }
    {
        let t = network_info::num_faulty(g.pub_keys);
        let complete = g.proposals.map(|p| p.is_some_and(|p| p.is_complete(t)));
        if g.observes() {
            return Recipe::Observer(complete);
        }
        if g.proposals.iter().any(|p| is_short(*p, t)) {
            return Recipe::Missing(complete);
        }
        Recipe::Share(g.proposals.map(|p| Share::of_proposal(p, t)))
    }
}
