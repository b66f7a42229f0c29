// dynamic_honey_badger.rs, `send_transaction`: a due item that the host hands back signed, to wait for a batch like any other message.
#![tactic(auto)]

ghost use Rattle.std.specs.Prelude.{◌≡◌};
ghost use Rattle.bincode.specs.Sizes.{base};
ghost use Rattle.pub_key_map.specs.PubKeyMap.{nodes_of};
ghost use Rattle.dynamic_honey_badger.specs.State.{state_of};
ghost use Rattle.dynamic_honey_badger.specs.Received.{handled_of, MessageRefusedKeeps, returned};
ghost use Rattle.due_item.specs.Fate.{FatedFor};

use bincode::{FixintEncoding, Refusal};
use dynamic_honey_badger::{DynamicHoneyBadger, Handled};
use key_gen_message::SignedKeyGenMsg;
use message::Message;
use message_store::MessageStore;
use pub_key_map::PubKeyMap;

// What a due item comes to: a message to store, nothing, or a refusal. `Message::KeyGen` bytes (another tag is 2), the signature unchecked; one of another era, or made
// by a non-validator, is dropped.
fn fate(
    message: &[u8],
    era: u64,
    map: PubKeyMap,
    our_id: u32,
    held: usize,
) -> Result<Option<SignedKeyGenMsg>, Refusal>
    ensures { FatedFor base era (nodes_of map) our_id held message.now result }
{
    let Ok((tag, _)) = bincode::read_u32(message, 0) else {
        return Err(Refusal::Malformed);
    };
    if tag != 1 {
        return Err(Refusal::Malformed);
    }
    let (read, _) = bincode::read_whole::<FixintEncoding, Message>(message)?;
    let Message::KeyGen(made_in, message, sig) = read else {
        return Err(Refusal::Malformed); // a vote, which has another tag
    };
    if made_in != era {
        return Ok(None);
    }
    if !network_info::is_member(map, our_id) {
        return Ok(None);
    }
    if held < MessageStore::LIMIT {
        return Ok(Some(SignedKeyGenMsg {
            era: made_in,
            id: our_id,
            message,
            sig,
        }));
    }
    Err(Refusal::StoreFull)
}

// A due item handed back: its fate is decided by small parts, and then only the store is touched.
pub fn handle_due_item(mut state: DynamicHoneyBadger, message: &[u8]) -> Handled
    ensures { (handled_of result ≡ returned base (state_of state) message.now) × MessageRefusedKeeps result state }
{
    let counter = state.vote_counter;
    let map = counter.pub_keys;
    let store = state.store;
    let fated = fate(message, counter.era, map, counter.our_id, store.len());
    if let Ok(Some(m)) = fated {
        let p = store.push(m);
        state.store = p.store;
    }
    Handled {
        state,
        outcome: fated.map(|_| None),
    }
}
