// dynamic_honey_badger.rs: the state of a node, how it starts, own votes, received messages, and what a host asks between batches.
#![tactic(auto)]

ghost use Rattle.std.specs.Prelude.{◌≡◌};
ghost use Rattle.lists.specs.Lists.{at_place, option_as_found};
ghost use Rattle.bincode.specs.Sizes.{base};
ghost use Rattle.pub_key_map.specs.PubKeyMap.{nodes_of};
ghost use Rattle.change.specs.Change.{state_of as progress_of};
ghost use Rattle.votes.specs.Votes.{signed_of};
ghost use Rattle.board.specs.Board.{said_standing};
ghost use Rattle.vote_counter.specs.VoteCounter.{pending_votes};
ghost use Rattle.key_gen_message.specs.KeyGenMessage as key_gen;
ghost use Rattle.key_gen_state.specs.KeyGenState as running;
ghost use Rattle.message.specs.Message.{content_of};
ghost use Rattle.dynamic_honey_badger.specs.State.{state_of, is_validator, candidate_nodes, valid_under, opened_held};
ghost use Rattle.dynamic_honey_badger.specs.State.{started, started_of, map_in_progress, joining, joined_by, JoinedLent};
ghost use Rattle.dynamic_honey_badger.specs.OwnVotes.{voted_of, NotCastKeeps, vote_for_bytes, vote_to_add, vote_to_remove};
ghost use Rattle.dynamic_honey_badger.specs.Received.{handled_of, MessageRefusedKeeps, received, message_era};
ghost use Rattle.dynamic_honey_badger.specs.Parts.{WantedFor, CastFor, UncastKeeps, added_as, JudgedKey, JudgedContent, JudgedRead};
ghost use Rattle.dynamic_honey_badger.specs.Asked.{next_epoch, epoch_in, said_next, some_by, should_propose, last_report, said_last, board_at};

use bincode::{FixintEncoding, Refusal};
use board::Standing;
use change::{Change, ChangeState};
use fault_log::FaultKind;
use filled::DueLists;
use key_gen::KeyGen;
use key_gen_message::SignedKeyGenMsg;
use key_gen_state::KeyGenState;
use message::Message;
use message_store::MessageStore;
use params::Params;
use pub_key_map::{Node, PubKeyMap};
use vote_counter::{VoteCounter, VoteOutcome};
use votes::SignedVote;

// The epoch and the era that a report has.
#[derive(Clone, Copy)]
pub struct ReportStamp {
    pub epoch: u64,
    pub era: u64,
}

// Own id and key, map, era and votes are the counter's; the stamp is that of the last report, if there was one.
#[derive(Clone, Copy)]
pub struct DynamicHoneyBadger {
    pub params: Params,
    pub vote_counter: VoteCounter,
    pub key_gen_state: Option<KeyGenState>,
    pub store: MessageStore,
    pub last: Option<ReportStamp>,
}

// A node that joins, and how many due items stand in the lent lists.
#[derive(Clone, Copy)]
pub struct JoinStarted {
    pub state: DynamicHoneyBadger,
    pub due: usize,
}

// The state after an own vote, and the vote to broadcast, that none was cast, or a refusal; where none was cast the state is the one given.
#[derive(Clone, Copy)]
pub struct Voted {
    pub state: DynamicHoneyBadger,
    pub outcome: Result<Option<SignedVote>, Refusal>,
}

// The state after a message, and what the message did: nothing to tell, a fault of its sender, or a refusal.
#[derive(Clone, Copy)]
pub struct Handled {
    pub state: DynamicHoneyBadger,
    pub outcome: Result<Option<FaultKind>, Refusal>,
}

// What a message is judged by: small parts of the state, since the whole is large.
#[derive(Clone, Copy)]
struct Known {
    era: u64,
    pub_keys: PubKeyMap,
    key_gen_state: Option<KeyGenState>,
    held: usize,
}

// What a message is to do: give an answer alone, join the pending votes, raise its sender's count, or be stored beside that.
#[derive(Clone, Copy)]
enum Task {
    Answer(Result<Option<FaultKind>, Refusal>),
    Vote(SignedVote),
    Count(KeyGenState),
    Store(KeyGenState, SignedKeyGenMsg),
}

// Whether a signature is under the id's current or candidate key.
pub fn verify_signature(pub_keys: PubKeyMap, state: Option<KeyGenState>, id: u32, sig: u64) -> bool
    ensures { result ≡ valid_under (nodes_of pub_keys) (candidate_nodes (running.state_of state)) id sig }
{
    let candidate = state.map(|s| s.key_gen.pub_keys);
    verify_under(pub_keys, candidate, id, sig)
}

// The same by the two maps, for a loop that has key generation in parts.
pub fn verify_under(pub_keys: PubKeyMap, candidate: Option<PubKeyMap>, id: u32, sig: u64) -> bool
    ensures { result ≡ valid_under (nodes_of pub_keys) (option_as_found nodes_of candidate) id sig }
{
    vote_counter::is_key(pub_keys, id, sig)
        || candidate.is_some_and(|keys| vote_counter::is_key(keys, id, sig))
}

// The era that a message is of.
fn message_era(m: Message) -> u64
    ensures { result ≡ message_era (content_of m) }
{
    match m {
        Message::KeyGen(era, _, _) => era,
        Message::SignedVote(x) => x.vote.era,
    }
}

// The map that is in progress, of which a node that joins begins key generation.
fn map_in_progress(change: ChangeState) -> Option<PubKeyMap>
    ensures { result ≡ map_in_progress change }
{
    match change {
        ChangeState::InProgress(Change::NodeChange(map)) => Some(map),
        _ => None,
    }
}

// A change that comes as bytes: rows 2 and 3 first; a non-validator's does nothing.
fn wanted_from(map: PubKeyMap, our_id: u32, bytes: &[u8]) -> Result<Option<Change>, Refusal>
    ensures { WantedFor base (nodes_of map) our_id (λ s. vote_for_bytes base s bytes.now) result }
{
    let (change, _) = bincode::read_whole::<FixintEncoding, Change>(bytes)?;
    if !network_info::is_member(map, our_id) {
        return Ok(None);
    }
    Ok(Some(change))
}

// The map with a node, or with another key of one: key 0 is 2, whoever calls; then 13.
fn wanted_with(map: PubKeyMap, our_id: u32, id: u32, key: u64) -> Result<Option<Change>, Refusal>
    ensures { WantedFor base (nodes_of map) our_id (λ s. vote_to_add base s id key) result }
{
    if key == 0 {
        return Err(Refusal::Malformed);
    }
    if !network_info::is_member(map, our_id) {
        return Ok(None);
    }
    if node_change::is_full_for(map, id) {
        return Err(Refusal::MapFull);
    }
    let next = node_change::with_node(map, Node::new(id, key));
    Ok(Some(Change::node_change(next)))
}

// The map without a node; without such a node it is the current map.
fn wanted_without(map: PubKeyMap, our_id: u32, id: u32) -> Result<Option<Change>, Refusal>
    ensures { WantedFor base (nodes_of map) our_id (λ s. vote_to_remove base s id) result }
{
    if !network_info::is_member(map, our_id) {
        return Ok(None);
    }
    let next = node_change::without_node(map, id);
    Ok(Some(Change::node_change(next)))
}

// Casts an own vote, where one is wanted, on the counter alone: the rest of the state is large, and stays where it is.
fn cast(
    counter: &mut VoteCounter,
    wanted: Result<Option<Change>, Refusal>,
) -> Result<Option<SignedVote>, Refusal>
    ensures { CastFor base counter.old wanted counter.new result × UncastKeeps result counter.new counter.old }
{
    let Some(change) = wanted? else {
        return Ok(None);
    };
    let r = counter.sign_vote_for(change);
    *counter = r.counter;
    Ok(Some(r.outcome?))
}

// What adding a received vote says of its message.
fn added_as(outcome: VoteOutcome) -> Result<Option<FaultKind>, Refusal>
    ensures { result ≡ added_as outcome }
{
    match outcome {
        VoteOutcome::Stored | VoteOutcome::Nothing => Ok(None),
        VoteOutcome::Faulty(k) => Ok(Some(k)),
    }
}

// A key message of the current era, under its sender's id: its signature, running key generation, its sender's count, the store.
fn judge_key(m: SignedKeyGenMsg, known: Known) -> Task
    ensures { JudgedKey base (nodes_of known.pub_keys) (running.state_of known.key_gen_state) known.held (key_gen.signed_of m) result }
{
    if !verify_signature(known.pub_keys, known.key_gen_state, m.id, m.sig) {
        return Task::Answer(Ok(Some(FaultKind::InvalidKeyGenMessageSignature)));
    }
    let Some(state) = known.key_gen_state else {
        return Task::Answer(Ok(Some(FaultKind::UnexpectedKeyGenMessage)));
    };
    let candidate = state.key_gen.pub_keys;
    let c = state.count_messages(known.pub_keys, m.id);
    if candidate.len() + 1 < c.count as usize {
        return Task::Count(c.state);
    }
    if known.held < MessageStore::LIMIT {
        return Task::Store(c.state, m);
    }
    Task::Answer(Err(Refusal::StoreFull))
}

// What a message is judged to do, its era first.
fn judge_content(m: Message, sender: u32, known: Known) -> Task
    ensures { JudgedContent base known.era (nodes_of known.pub_keys) (running.state_of known.key_gen_state) known.held sender (content_of m) result }
{
    let sent = message_era(m);
    if known.era < sent {
        return Task::Answer(Ok(Some(FaultKind::UnexpectedDhbMessageEra)));
    }
    if sent < known.era {
        return Task::Answer(Ok(None));
    }
    match m {
        Message::KeyGen(era, message, sig) => judge_key(
            SignedKeyGenMsg {
                era,
                id: sender,
                message,
                sig,
            },
            known,
        ),
        Message::SignedVote(x) => Task::Vote(x),
    }
}

// The same of a message as bytes: rows 2 and 3 first.
fn judge(bytes: &[u8], sender: u32, known: Known) -> Task
    ensures { JudgedRead base known.era (nodes_of known.pub_keys) (running.state_of known.key_gen_state) known.held sender bytes.now result }
{
    match bincode::read_whole::<FixintEncoding, Message>(bytes) {
        Ok((m, _)) => judge_content(m, sender, known),
        Err(n) => Task::Answer(Err(n)),
    }
}

impl DynamicHoneyBadger {
    // A state without votes, key generation and stored messages.
    fn open(our_id: u32, secret_key: u64, era: u64, pub_keys: PubKeyMap, params: Params) -> Self
        ensures { result ≡ opened_held our_id secret_key era pub_keys params }
    {
        DynamicHoneyBadger {
            params,
            vote_counter: VoteCounter::new(our_id, secret_key, pub_keys, era),
            key_gen_state: None,
            store: MessageStore::empty(),
            last: None,
        }
    }

    // Starts a node from a map and parameters.
    pub fn new(
        our_id: u32,
        secret_key: u64,
        era: u64,
        map: &[u8],
        params: &[u8],
    ) -> Result<DynamicHoneyBadger, Refusal>
        ensures { started_of result ≡ started base our_id secret_key era map.now params.now }
    {
        let (pub_keys, read) = joining::check_starting(secret_key, map, params)?;
        Ok(DynamicHoneyBadger::open(our_id, secret_key, era, pub_keys, read))
    }

    // Starts a node from a join plan: a fresh key generation where a map is in progress, its due items in the lent lists. Row 1 where one is too short.
    pub fn new_joining(
        our_id: u32,
        secret_key: u64,
        plan: &[u8],
        due_kinds: &mut [u8],
        due_indices: &mut [u64],
        due_eras: &mut [u64],
    ) -> Result<JoinStarted, Refusal>
        ensures { JoinedLent base our_id secret_key plan.now result
            due_kinds.old due_kinds.new due_indices.old due_indices.new due_eras.old due_eras.new }
    {
        let lists = DueLists {
            kinds: due_kinds,
            indices: due_indices,
            eras: due_eras,
        };
        let read = joining::check_joining(lists.places(), our_id, secret_key, plan)?;
        let pub_keys = read.pub_keys;
        let params = read.params;
        let change = read.change;
        let mut state = DynamicHoneyBadger::open(our_id, secret_key, read.era, pub_keys, params);
        let part = state.join(change);
        lists.put(read.era, &[], part);
        let due = usize::from(part.is_some());
        Ok(JoinStarted { state, due })
    }

    // What the plan's change asks of a node that joins: where a map is in progress, a fresh key generation, and a part of this era where that map holds this node.
    fn join(&mut self, change: ChangeState) -> Option<u64>
        ensures { joining (state_of self.new) result ≡ joined_by base self.old.vote_counter.our_id self.old.vote_counter.era (progress_of change) (state_of self.old) }
    {
        let map = map_in_progress(change)?;
        let our_id = self.vote_counter.our_id;
        self.key_gen_state = Some(KeyGenState::new(KeyGen::new(our_id, map)));
        network_info::is_member(map, our_id).then_some(self.vote_counter.era)
    }

    // Whether the own id is in the current map.
    pub fn is_validator(self) -> bool
        ensures { result ≡ is_validator (state_of self) }
    {
        let counter = self.vote_counter;
        let map = counter.pub_keys;
        network_info::is_member(map, counter.our_id)
    }

    // An own vote for a change that comes as bytes.
    pub fn vote_for(mut self, change: &[u8]) -> Voted
        ensures { (voted_of result ≡ vote_for_bytes base (state_of self) change.now) × NotCastKeeps result self }
    {
        let counter = self.vote_counter;
        let wanted = wanted_from(counter.pub_keys, counter.our_id, change);
        let outcome = cast(&mut self.vote_counter, wanted);
        Voted {
            state: self,
            outcome,
        }
    }

    // An own vote to add a node, or to give one another key.
    pub fn vote_to_add(mut self, id: u32, key: u64) -> Voted
        ensures { (voted_of result ≡ vote_to_add base (state_of self) id key) × NotCastKeeps result self }
    {
        let counter = self.vote_counter;
        let wanted = wanted_with(counter.pub_keys, counter.our_id, id, key);
        let outcome = cast(&mut self.vote_counter, wanted);
        Voted {
            state: self,
            outcome,
        }
    }

    // An own vote to remove a node; without such a node it is a vote for the current map.
    pub fn vote_to_remove(mut self, id: u32) -> Voted
        ensures { (voted_of result ≡ vote_to_remove base (state_of self) id) × NotCastKeeps result self }
    {
        let counter = self.vote_counter;
        let wanted = wanted_without(counter.pub_keys, counter.our_id, id);
        let outcome = cast(&mut self.vote_counter, wanted);
        Voted {
            state: self,
            outcome,
        }
    }

    // A message that a node sent, as bytes: judged by small parts, and then only what it changes is touched.
    pub fn handle_message(mut self, sender: u32, message: &[u8]) -> Handled
        ensures { (handled_of result ≡ received base (state_of self) sender message.now) × MessageRefusedKeeps result self }
    {
        let counter = self.vote_counter;
        let store = self.store;
        let known = Known {
            era: counter.era,
            pub_keys: counter.pub_keys,
            key_gen_state: self.key_gen_state,
            held: store.len(),
        };
        let outcome = match judge(message, sender, known) {
            Task::Answer(outcome) => outcome,
            Task::Vote(x) => {
                let counter = self.vote_counter;
                let a = counter.add_pending_vote(x);
                self.vote_counter = a.counter;
                added_as(a.outcome)
            }
            Task::Count(counted) => {
                self.key_gen_state = Some(counted);
                Ok(Some(FaultKind::TooManyKeyGenMessages))
            }
            Task::Store(counted, m) => {
                self.key_gen_state = Some(counted);
                let store = self.store;
                let p = store.push(m);
                self.store = p.store;
                Ok(None)
            }
        };
        Handled {
            state: self,
            outcome,
        }
    }

    // The stored message at a place, 0 first, in order of arrival.
    pub fn stored_message(self, place: usize) -> Option<SignedKeyGenMsg>
        ensures { option_as_found key_gen.signed_of result ≡ at_place place (state_of self).store }
    {
        let store = self.store;
        store.at(place)
    }

    // The pending vote at a place, 0 first, of those newer than their voter's committed vote.
    pub fn pending_vote(self, place: usize) -> Option<SignedVote>
        ensures { option_as_found signed_of result ≡ at_place place (pending_votes (state_of self).counter) }
    {
        let counter = self.vote_counter;
        counter.pending_vote(place)
    }

    // The row of the board at a place, 0 first: a change and how many voters are for it.
    pub fn board_row(self, place: usize) -> Option<Standing>
        ensures { option_as_found said_standing result ≡ board_at (state_of self) place }
    {
        let counter = self.vote_counter;
        counter.board_row(place)
    }

    // Whether a pending vote of the own waits to be committed.
    fn has_own_vote(self) -> bool
        ensures { result ≡ some_by (state_of self).counter.our_id (pending_votes (state_of self).counter) }
    {
        let counter = self.vote_counter;
        let our_id = counter.our_id;
        let committed = counter.committed.find_num(our_id);
        let mut pending = counter.pending.votes.as_slice().iter();
        pending.any(|x| x.voter == our_id && committed.is_none_or(|num| num < x.vote.num))
    }

    // Whether to make a contribution for the next epoch. The host lends whether it has given its input, and how many proposals came.
    pub fn should_propose(self, has_input: bool, proposals: u64) -> bool
        ensures { result ≡ should_propose (state_of self) has_input proposals }
    {
        let counter = self.vote_counter;
        let store = self.store;
        let enough = network_info::num_faulty(counter.pub_keys) as u64;
        !has_input && (enough < proposals || (self.has_own_vote() || 0 < store.len()))
    }

    // The epoch of the next batch; the host lends the inner epoch.
    pub fn next_epoch(self, inner: u64) -> Result<u64, Refusal>
        ensures { said_next result ≡ next_epoch (state_of self) inner }
    {
        let counter = self.vote_counter;
        epoch_in(counter.era, inner)
    }

    // Epoch and era of the last report, or none: none was made since the start or the joining.
    pub fn last_report(self) -> Option<ReportStamp>
        ensures { said_last result ≡ last_report (state_of self) }
    {
        self.last
    }
}

// The epoch of a batch in an era; row 5 where it is over 2^64-2.
pub fn epoch_in(era: u64, inner: u64) -> Result<u64, Refusal>
    ensures { said_next result ≡ epoch_in era inner }
{
    let epoch = era.checked_add(inner);
    epoch.filter(|e| *e < u64::MAX).ok_or(Refusal::LastEpoch)
}
