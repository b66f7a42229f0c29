// network_info.rs: who belongs to the network, the index of a node by ascending id, and f.
#![tactic(auto)]

ghost use Rattle.std.specs.Prelude.{◌≡◌, ◌≤◌, ℕ, length};
ghost use Rattle.lists.specs.Lists.{option_as_found};
ghost use Rattle.bincode.specs.Sizes.{base};
ghost use Rattle.util.specs.MaxFaulty.{max_faulty};
ghost use Rattle.pub_key_map.specs.PubKeyMap.{nodes_of};
ghost use Rattle.network_info.specs.NetworkInfo.{node_index, is_member, key_of};

use pub_key_map::PubKeyMap;

// The index of a node by ascending id; none where it is not in the map.
pub fn node_index(m: PubKeyMap, id: u32) -> Option<usize>
    ensures { option_as_found (λ (x : ℕ). x) result ≡ node_index (nodes_of m) id }
{
    m.nodes.as_slice().iter().position(|n| n.id == id)
}

pub fn is_member(m: PubKeyMap, id: u32) -> bool
    ensures { result ≡ is_member (nodes_of m) id }
{
    node_index(m, id).is_some()
}

// A node's key; none where it is not in the map. Key 0 is no key (01, stand-ins), but a map may hold anything here.
pub fn node_key(m: PubKeyMap, id: u32) -> Option<u64>
    ensures { option_as_found (λ (x : ℕ). x) result ≡ key_of (nodes_of m) id }
{
    m.nodes.get(id).map(|n| n.key)
}

// f of the map: how many faulty nodes it tolerates.
pub fn num_faulty(m: PubKeyMap) -> usize
    ensures { result ≡ max_faulty (length (nodes_of m)) }
{
    util::max_faulty(m.len())
}
