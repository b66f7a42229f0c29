// dynamic_honey_badger.rs, `key_gen_msg_buffer`: key-generation messages that wait for a batch, in order of arrival.
#![tactic(auto)]

ghost use Rattle.std.specs.Prelude.{◌≡◌, ◌≤◌, length};
ghost use Rattle.lists.specs.Lists.{option_as_found, at_place};
ghost use Rattle.bincode.specs.Sizes.{base};
ghost use Rattle.key_gen_message.specs.KeyGenMessage.{signed_of};
ghost use Rattle.message_store.specs.MessageStore.{store_of, no_store, pushed, pushed_of, PushRefusedKeeps, without, from_era};

use array_list::ArrayList;
use bincode::Refusal;
use key_gen_message::SignedKeyGenMsg;

#[derive(Clone, Copy)]
pub struct MessageStore {
    pub messages: ArrayList<SignedKeyGenMsg, { MessageStore::LIMIT }>,
}

// The store after a message came; the very one that was given where it is refused.
#[derive(Clone, Copy)]
pub struct Pushed {
    pub store: MessageStore,
    pub outcome: Result<(), Refusal>,
}

impl MessageStore {
    pub const LIMIT: usize = 128;

    // The messages of an array below a count.
    pub fn new(count: usize, messages: [SignedKeyGenMsg; MessageStore::LIMIT]) -> Self
        ensures { result ≡ record { messages = record { count = count; items = messages } } }
    {
        MessageStore {
            messages: ArrayList {
                count,
                items: messages,
            },
        }
    }

    pub fn empty() -> Self
        ensures { result ≡ no_store }
    {
        MessageStore {
            messages: ArrayList::empty(SignedKeyGenMsg::empty()),
        }
    }

    // How many messages there are: a count past the array counts as the array's length.
    pub fn len(self) -> usize
        ensures { (result ≡ length (store_of self)) × (result ≤ base.store) }
    {
        self.messages.len()
    }

    // A message behind those held; row 12 where there is no place.
    #[tactic(auto, unfolding(array_list::specs::ArrayList::pushed, crate::specs::MessageStore::pushed, crate::specs::MessageStore::row12))]
    pub fn push(mut self, m: SignedKeyGenMsg) -> Pushed
        ensures { (pushed_of result ≡ pushed base (store_of self) (signed_of m)) × PushRefusedKeeps result self }
    {
        let held = self.len();
        if held < MessageStore::LIMIT {
            self.messages.push(m);
            return Pushed {
                store: self,
                outcome: Ok(()),
            };
        }
        Pushed {
            store: self,
            outcome: Err(Refusal::StoreFull),
        }
    }

    // The message at a place, 0 first, in order of arrival, if there is one.
    #[tactic(auto, using(lists::proofs::PlaceLaws::at_map, crate::proofs::StoreLaws::found_as))]
    pub fn at(self, place: usize) -> Option<SignedKeyGenMsg>
        ensures { option_as_found signed_of result ≡ at_place place (store_of self) }
    {
        self.messages.at(place)
    }

    // The messages that differ from a committed one.
    pub fn without(mut self, m: SignedKeyGenMsg) -> Self
        ensures { store_of result ≡ without (signed_of m) (store_of self) }
    {
        self.messages.retain(|x| *x != m);
        self
    }

    // The messages of an era and of later ones.
    pub fn from_era(mut self, era: u64) -> Self
        ensures { store_of result ≡ from_era era (store_of self) }
    {
        self.messages.retain(|x| era <= x.era);
        self
    }
}
