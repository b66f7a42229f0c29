// mod.rs: `KeyGenState`, the running key generation, with the number of messages received from each sender.
#![tactic(auto)]

ghost use Rattle.std.specs.Prelude.{◌≡◌, ◌+◌, ◌≤◌, length, replicate};
ghost use Rattle.bincode.specs.Sizes.{base};
ghost use Rattle.pub_key_map.specs.PubKeyMap.{nodes_of};
ghost use Rattle.key_gen.specs.KeyGen.{key_gen_of};
ghost use Rattle.key_gen_state.specs.KeyGenState.{state_of, running_of, fresh_state, raised, counted_of, count_messages, ready_state};
ghost use Rattle.key_gen_state.specs.LentCounts.{nodes_up_to, CountRaised, place_of};

use key_gen::KeyGen;
use pub_key_map::PubKeyMap;

// Counts by place: the nodes of the candidate map, then those of the current one.
#[derive(Clone, Copy)]
pub struct MessageCounts {
    pub counts: [u8; MessageCounts::LIMIT],
}

impl MessageCounts {
    pub const LIMIT: usize = 32;

    pub fn empty() -> Self
        ensures { result.counts ≡ replicate (base.nodes + base.nodes) 0 }
    {
        MessageCounts {
            counts: [0; MessageCounts::LIMIT],
        }
    }
}

// A running key generation.
#[derive(Clone, Copy)]
pub struct KeyGenState {
    pub key_gen: KeyGen,
    pub counts: MessageCounts,
}

// The state with a sender's count raised, and that count.
#[derive(Clone, Copy)]
pub struct Counted {
    pub state: KeyGenState,
    pub count: u8,
}

// A sender's place among the counts; past the last for one that is in neither map.
fn sender_place(state: KeyGenState, current: PubKeyMap, sender: u32) -> usize
    ensures { (result ≡ place_of base (nodes_of current) (running_of state) sender) × (length (nodes_of current) ≤ base.nodes) × (length (running_of state).counts ≡ base.nodes + base.nodes) }
{
    let key_gen = state.key_gen;
    let candidate = key_gen.pub_keys;
    if let Some(i) = network_info::node_index(candidate, sender) {
        return i;
    }
    if let Some(j) = network_info::node_index(current, sender) {
        return PubKeyMap::LIMIT + j;
    }
    MessageCounts::LIMIT
}

// A number of nodes, no higher than a map has places.
fn nodes_up_to(n: usize) -> usize
    ensures { result ≡ nodes_up_to base n }
{
    n.min(PubKeyMap::LIMIT)
}

// One more, but not past the number of nodes and two.
fn raise(count: u8, n: usize) -> u8
    requires { n ≤ base.nodes }
    ensures { result ≡ raised n count }
{
    if (count as usize) < n + 2 {
        return count + 1;
    }
    count
}

// Raises the count at a place, but not past the number of nodes and two, and answers it; past the last place nothing changes, and it answers 0.
pub fn count_messages(counts: &mut MessageCounts, place: usize, n: usize) -> u8
    ensures { CountRaised base counts.old.counts place n counts.new.counts result }
{
    if MessageCounts::LIMIT <= place {
        return 0;
    }
    let count = raise(counts.counts[place], nodes_up_to(n));
    counts.counts[place] = count;
    count
}

// Whether key generation runs and is ready.
pub fn is_ready(state: &Option<KeyGenState>) -> bool
    ensures { result ≡ ready_state (state_of state.now) }
{
    state
        .as_ref()
        .is_some_and(|running| running.key_gen.is_ready())
}

impl KeyGenState {
    // A key generation that begins.
    pub fn new(key_gen: KeyGen) -> Self
        ensures { running_of result ≡ fresh_state base (key_gen_of key_gen) }
    {
        KeyGenState {
            key_gen,
            counts: MessageCounts::empty(),
        }
    }

    // Raises the sender's count in the record of counts, which is lent, and answers it; 0 for a sender that is in neither map.
    pub fn count_messages(mut self, current: PubKeyMap, sender: u32) -> Counted
        ensures { counted_of result ≡ count_messages base (nodes_of current) (running_of self) sender }
    {
        let place = sender_place(self, current, sender);
        let n = self.key_gen.pub_keys.len();
        let count = count_messages(&mut self.counts, place, n);
        Counted { state: self, count }
    }
}
