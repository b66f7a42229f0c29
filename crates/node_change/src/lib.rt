// dynamic_honey_badger.rs: the maps that `vote_to_add` and `vote_to_remove` propose, as the Rust's `insert` and `remove` give them.
#![tactic(auto)]

ghost use Rattle.std.specs.Prelude.{◌≡◌};
ghost use Rattle.bincode.specs.Sizes.{base};
ghost use Rattle.pub_key_map.specs.PubKeyMap.{nodes_of};
ghost use Rattle.node_change.specs.NodeChange.{row13, with_node, without_node};

use pub_key_map::{Node, PubKeyMap};

// Row 13: another node would be one more than a map may have.
pub fn is_full_for(map: PubKeyMap, id: u32) -> bool
    ensures { result ≡ row13 base (nodes_of map) id }
{
    !map.nodes.has(id) && PubKeyMap::LIMIT <= map.len()
}

// The map with a node: in place of the one with its id, or where its id belongs. A full map has no place for another.
pub fn with_node(mut map: PubKeyMap, x: Node) -> PubKeyMap
    ensures { nodes_of result ≡ with_node base (nodes_of map) x }
{
    map.nodes.insert(x);
    map
}

// The map without the node with an id.
pub fn without_node(mut map: PubKeyMap, id: u32) -> PubKeyMap
    ensures { nodes_of result ≡ without_node (nodes_of map) id }
{
    map.nodes.retain(|n: &Node| n.id != id);
    map
}
