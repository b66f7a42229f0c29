// dynamic_honey_badger.rs, `process_output`: `key_gen_msg_buffer.retain`, once for all messages of a batch.
// The batch's messages are listed by small numbers first, so that a stored message is compared as a whole only with one of the same signer and number.
#![tactic(auto)]

ghost use Rattle.std.specs.Prelude.{◌≡◌, List, ℕ};
ghost use Rattle.std.specs.List.{list_any};
ghost use Rattle.array_list.specs.ArrayList.{items_in};
ghost use Rattle.bincode.specs.Items.{foldl};
ghost use Rattle.key_gen_message.specs.KeyGenMessage.{signed_of, read_signed_key_gen_msg};
ghost use Rattle.bincode.specs.Sizes.{base};
ghost use Rattle.internal_contrib.specs.Index.{contribs_in};
ghost use Rattle.message_store.specs.MessageStore.{store_of};
ghost use Rattle.store_filter.specs.Filter.{is_read, Entry, contrib_listed, entries_in, without_entries, number_in, no_place, stands_at, Listed};

use array_list::ArrayList;
use bincode::Decoded;
use internal_contrib::{BatchIndex, Contrib};
use key_gen_message::{KeyGenMessage, SignedKeyGenMsg};
use message_store::MessageStore;

// A message of the batch: its signer, a part's commitment or an ack's proposer index, and where it stands in the batch's bytes.
#[derive(Clone, Copy)]
struct MessagePlace {
    id: u32,
    first: u64,
    at: usize,
}

impl MessagePlace {
    // As many as a batch may have votes and messages together.
    const LIMIT: usize = 1024;

    // What stands where none is listed.
    fn empty() -> Self
        ensures { result ≡ no_place }
    {
        MessagePlace {
            id: 0,
            first: 0,
            at: 0,
        }
    }
}

// The commitment of a part, the proposer's index of an ack.
fn number_in(m: &KeyGenMessage) -> u64
    ensures { result ≡ number_in m.now }
{
    match m {
        KeyGenMessage::Part(p) => p.commit,
        KeyGenMessage::Ack(a) => a.proposer,
    }
}

// Whether a stored message is the one that is read at a position.
fn is_read_at(x: &SignedKeyGenMsg, s: &[u8], at: usize) -> bool
    ensures { result ≡ is_read (signed_of x.now) (read_signed_key_gen_msg base s.now at) }
{
    match SignedKeyGenMsg::read(s, at) {
        Ok((m, _)) => *x == m,
        Err(_) => false,
    }
}

// Whether a stored message is the one that stands at a place: its small numbers are looked at before it is read.
fn is_at(x: &SignedKeyGenMsg, p: &MessagePlace, s: &[u8]) -> bool
    ensures { result ≡ stands_at s.now (signed_of x.now) p.now }
{
    (x.id == p.id) & (number_in(&x.message) == p.first) && is_read_at(x, s, p.at)
}

// Whether a stored message is one of those that are listed.
fn is_committed(x: &SignedKeyGenMsg, s: &[u8], places: &[MessagePlace]) -> bool
    ensures { result ≡ list_any (stands_at s.now (signed_of x.now)) places.now }
{
    places.iter().any(|p| is_at(x, p, s))
}

// The messages of a contribution, up to the first that cannot be read, as far as there is room; past the bytes there are none.
fn list_contrib(
    s: &[u8],
    e: &Contrib,
    places: &mut ArrayList<MessagePlace, { MessagePlace::LIMIT }>,
)
    ensures { (es : List Entry) → Listed s.now es (items_in places.old) → Listed s.now (contrib_listed s.now es e.now) (items_in places.new) }
{
    let mut c = e.messages.first_item(s);
    for _ in 0..e.messages.count {
        let Ok((h, next)) = key_gen_message::read_head(s, c) else {
            return;
        };
        places.push(MessagePlace {
            id: h.id,
            first: h.first,
            at: c,
        });
        c = next;
    }
}

// The messages of all contributions of a batch.
fn list_batch(
    s: &[u8],
    index: BatchIndex,
    places: &mut ArrayList<MessagePlace, { MessagePlace::LIMIT }>,
)
    ensures { (es : List Entry) → Listed s.now es (items_in places.old) → Listed s.now (foldl (contrib_listed s.now) es (contribs_in index)) (items_in places.new) }
{
    for e in index.contribs.as_slice() {
        list_contrib(s, e, places);
    }
}

// The stored messages that equal none of those listed.
fn keep_others(mut store: MessageStore, s: &[u8], places: &[MessagePlace]) -> MessageStore
    ensures { (es : List Entry) → Listed s.now es places.now → store_of result ≡ without_entries es (store_of store) }
{
    store.messages.retain(|x| !is_committed(x, s, places));
    store
}

// The stored messages that equal no message of a batch, by the batch's index. An empty store costs nothing, and so does a batch without messages.
pub fn without_batch(store: MessageStore, s: &[u8], index: BatchIndex) -> MessageStore
    ensures { store_of result ≡ without_entries (entries_in s.now (contribs_in index)) (store_of store) }
{
    if store.len() == 0 {
        return store;
    }
    let mut places = ArrayList::empty(MessagePlace::empty());
    list_batch(s, index, &mut places);
    if places.len() == 0 {
        return store;
    }
    keep_others(store, s, places.as_slice())
}
