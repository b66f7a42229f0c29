// A map from node id to key (the Rust's `PubKeyMap`): a count, then each id with its key, ids strictly ascending and no key 0.
#![tactic(auto)]

ghost use Rattle.std.specs.Prelude.{◌≡◌, ℕ, List, [], ◌+◌, ◌*◌, ◌≤◌, length};
ghost use Rattle.bincode.specs.Numbers.{fixed};
ghost use Rattle.bincode.specs.Answer.{answer, step_of};
ghost use Rattle.bincode.specs.Sizes.{base};
ghost use Rattle.bincode.specs.Writing.{written, written_to};
ghost use Rattle.pub_key_map.specs.declared.Node.{Node as NodeOf};
ghost use Rattle.pub_key_map.specs.PubKeyMap.{id_of, nodes_of, map_held, read_node, read_map, node_bytes, map_bytes};

use array_list::{ArrayList, Keyed};
use bincode::{Decoded, Encoded, FixintEncoding, IntEncoding, Refusal};

// 01: a station's id and key.
#[derive(Clone, Copy, PartialEq, Eq)]
pub struct Node {
    pub id: u32,
    pub key: u64,
}

impl Node {
    pub fn new(id: u32, key: u64) -> Self
        ensures { result ≡ record { id = id; key = key } }
    {
        Node { id, key }
    }
}

// Lists of nodes go by the id.
impl Keyed for Node {
    ghost key_of = { id_of };

    fn key(&self) -> u32 {
        self.id
    }
}

// Ids ascend.
#[derive(Clone, Copy, PartialEq)]
pub struct PubKeyMap {
    pub nodes: ArrayList<Node, { PubKeyMap::LIMIT }>,
}

impl PubKeyMap {
    pub const LIMIT: usize = 16;

    // The nodes of an array below a count.
    pub fn new(count: usize, nodes: [Node; PubKeyMap::LIMIT]) -> Self
        ensures { result ≡ record { nodes = record { count = count; items = nodes } } }
    {
        PubKeyMap {
            nodes: ArrayList {
                count,
                items: nodes,
            },
        }
    }

    #[tactic(auto, unfolding(lists::specs::Lists::padded))]
    pub fn empty() -> Self
        ensures { result ≡ map_held [] }
    {
        PubKeyMap {
            nodes: ArrayList::empty(Node { id: 0, key: 0 }),
        }
    }

    // How many nodes there are: a count past the array counts as the array's length.
    pub fn len(self) -> usize
        ensures { (result ≡ length (nodes_of self)) × (result ≤ base.nodes) }
    {
        self.nodes.len()
    }
}

// An id from `low` on, with its key: the id is judged before the key is read.
#[tactic(auto, unfolding(crate::specs::PubKeyMap::read_node))]
fn read_node<E: IntEncoding>(s: &[u8], at: usize, low: u64) -> Result<(Node, usize), Refusal>
    ensures { result ≡ answer (λ (x : NodeOf). x) (read_node E.edition s.now low at) }
{
    let (id, c) = E::read_u32(s, at)?;
    if u64::from(id) < low {
        return Err(Refusal::Malformed); // ids not strictly ascending
    }
    let (key, d) = E::read_u64(s, c)?;
    if key == 0 {
        return Err(Refusal::Malformed); // key 0
    }
    Ok((Node { id, key }, d))
}

impl<E: IntEncoding> Decoded<E> for PubKeyMap {
    ghost Value = { List NodeOf };

    ghost held = { map_held };

    ghost read_at = { read_map E.edition base };

    #[tactic(auto, unfolding(crate::specs::PubKeyMap::read_map, bincode::specs::Items::counted, bincode::specs::Items::read_count))]
    fn read(s: &[u8], at: usize) -> Result<(Self, usize), Refusal> {
        let (n, first) = bincode::read_count::<E>(s, at, PubKeyMap::LIMIT as u64)?;
        let count = n as usize;
        let mut nodes = [Node { id: 0, key: 0 }; PubKeyMap::LIMIT];
        let mut low: u64 = 0;
        let mut c = first;
        for node in nodes[..count].iter_mut() {
            let (e, next) = read_node::<E>(s, c, low)?;
            *node = e;
            low = u64::from(e.id) + 1;
            c = next;
        }
        Ok((PubKeyMap::new(count, nodes), c))
    }
}

// A map that is passed over: ids and keys are tested, none is kept.
#[tactic(auto, unfolding(crate::specs::PubKeyMap::read_map, bincode::specs::Items::counted, bincode::specs::Items::read_count))]
pub fn check_map(s: &[u8], at: usize) -> Result<usize, Refusal>
    ensures { result ≡ step_of (read_map fixed base s.now at) }
{
    let (count, first) = bincode::read_count::<FixintEncoding>(s, at, PubKeyMap::LIMIT as u64)?;
    let mut low: u64 = 0;
    let mut c = first;
    for _ in 0..count {
        let (node, next) = read_node::<FixintEncoding>(s, c, low)?;
        low = u64::from(node.id) + 1;
        c = next;
    }
    Ok(c)
}

impl<E: IntEncoding> Encoded<E> for Node {
    ghost bytes = { node_bytes E.edition };

    ghost longest = { E.longest 4 + E.longest 8 };

    #[tactic(auto, unfolding(crate::specs::PubKeyMap::node_bytes))]
    fn size(&self) -> usize {
        Encoded::<E>::size(&(self.id, self.key))
    }

    #[tactic(auto, unfolding(crate::specs::PubKeyMap::node_bytes))]
    fn write(&self, buf: &mut [u8], at: usize) -> usize {
        Encoded::<E>::write(&(self.id, self.key), buf, at)
    }
}

impl<E: IntEncoding> Encoded<E> for PubKeyMap {
    ghost bytes = { λ m. map_bytes E.edition (nodes_of m) };

    ghost longest = { E.longest 8 + base.nodes * (E.longest 4 + E.longest 8) };

    #[tactic(auto, unfolding(crate::specs::PubKeyMap::map_bytes))]
    fn size(&self) -> usize {
        // what the numbers of an edition take is bounded by the edition alone, so the sum is told as far as a usize tells it
        let mut size = E::size_u64(self.len() as u64);
        for x in self.nodes.as_slice() {
            size = size.saturating_add(Encoded::<E>::size(x));
        }
        size
    }

    #[tactic(auto, unfolding(bincode::specs::Writing::written, bincode::specs::Writing::written_to))]
    fn write(&self, buf: &mut [u8], at: usize) -> usize {
        if bincode::room(buf.len(), at, Encoded::<E>::size(self)) {
            let n = self.len();
            let mut c = E::write_u64(buf, at, n as u64);
            for x in self.nodes.as_slice() {
                c = Encoded::<E>::write(x, buf, c);
            }
            c
        } else {
            at
        }
    }
}
