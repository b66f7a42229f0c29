// mod.rs: `InternalContrib`, and a batch of them. There is no heap, so a contribution is kept as the places of its parts, to be read again.
#![tactic(auto)]

ghost use Rattle.std.specs.Prelude.{ℕ, ◌≡◌, ◌+◌, List, [], ◌≤◌, ◌<◌, Bool, length, take, drop};
ghost use Rattle.bincode.specs.Read.{Read};
ghost use Rattle.bincode.specs.Numbers.{fixed};
ghost use Rattle.bincode.specs.Items.{counted, plain, stay, many};
ghost use Rattle.bincode.specs.Answer.{answer, step_of, outcome_as_said};
ghost use Rattle.bincode.specs.Sizes.{base};
ghost use Rattle.bincode.specs.Stands.{Bytes};
ghost use Rattle.votes.specs.Votes.{SignedVoteOf, read_signed_vote};
ghost use Rattle.key_gen_message.specs.KeyGenMessage.{SignedKeyGenMsgOf, read_signed_key_gen_msg};
ghost use Rattle.internal_contrib.specs.InternalContrib.{read_user, read_contrib, read_batch};
ghost use Rattle.internal_contrib.specs.Places.{span_of, placed, spent, said_place, checked, contributed, user_of, start_in, start_of};
ghost use Rattle.internal_contrib.specs.Index.{contribs_in, contrib_id, index_held, place_in, Indexed};

use array_list::{ArrayList, Keyed};
use bincode::{FixintEncoding, Refusal};
use key_gen_message::MessageHead;
use votes::VoteHead;

// Where something of which there are many stands in a batch's bytes, and how many there are.
#[derive(Clone, Copy)]
pub struct Span {
    pub at: usize,
    pub count: u64,
}

// Where the parts of a contribution stand: its user bytes, and the counts of its messages and of its votes.
#[derive(Clone, Copy)]
pub struct Contrib {
    pub id: u32,
    pub user: Span,
    pub messages: Span,
    pub votes: Span,
}

impl Contrib {
    // User bytes of a contribution.
    pub const USER: u64 = 4096;
}

// Lists of contributions go by the id.
impl Keyed for Contrib {
    ghost key_of = { contrib_id };

    fn key(&self) -> u32 {
        self.id
    }
}

// What may follow in a batch: the least id, and how many votes and messages are left of the total.
#[derive(Clone, Copy)]
pub struct Budget {
    pub low: u64,
    pub left: u64,
}

impl Budget {
    // Contributions of a batch.
    pub const CONTRIBS: u64 = 16;
    // Votes and messages of a batch together.
    pub const ITEMS: u64 = 1024;
    // Bytes of a batch.
    pub const BYTES: usize = 65536;

    // What a batch opens with.
    pub fn new() -> Self
        ensures { result ≡ record { low = 0; left = base.items } }
    {
        Budget {
            low: 0,
            left: Budget::ITEMS,
        }
    }

    // What a contribution leaves to those behind it.
    pub fn spend(self, c: Contrib) -> Self
        ensures { result ≡ spent self c }
    {
        Budget {
            low: u64::from(c.id) + 1,
            left: self
                .left
                .saturating_sub(c.messages.count)
                .saturating_sub(c.votes.count),
        }
    }
}

// Where the user bytes stand, behind their count; with the position behind them.
#[tactic(auto, using(crate::proofs::ContribLaws::user_short, crate::proofs::ContribLaws::user_whole), unfolding(crate::specs::InternalContrib::read_user, bincode::specs::Items::read_count))]
fn read_user(s: &[u8], at: usize) -> Result<(Span, usize), Refusal>
    ensures { result ≡ answer (span_of (at + 8)) (read_user base s.now at) }
{
    let (n, c) = bincode::read_count::<FixintEncoding>(s, at, Contrib::USER)?;
    let len = n as usize;
    if bincode::room(s.len(), c, len) {
        Ok((Span { at: c, count: n }, c + len))
    } else {
        Err(Refusal::Malformed)
    }
}

// What a contribution holds many of, one behind the other.
trait Item {
    ghost Value: { Type 0 };

    ghost read_at: { List ℕ → ℕ → Read Value };

    // The position behind an item, of which nothing is kept.
    fn pass(s: &[u8], at: usize) -> Result<usize, Refusal>
        ensures { result ≡ step_of (read_at s.now at) };
}

// Key-generation messages.
impl Item for MessageHead {
    ghost Value = { SignedKeyGenMsgOf };

    ghost read_at = { read_signed_key_gen_msg base };

    fn pass(s: &[u8], at: usize) -> Result<usize, Refusal> {
        let (_, next) = key_gen_message::read_head(s, at)?;
        Ok(next)
    }
}

// Votes.
impl Item for VoteHead {
    ghost Value = { SignedVoteOf };

    ghost read_at = { read_signed_vote base };

    fn pass(s: &[u8], at: usize) -> Result<usize, Refusal> {
        let (_, next) = votes::read_vote_head(s, at)?;
        Ok(next)
    }
}

// The position behind n items, one after the other.
fn pass_items<T: Item>(s: &[u8], at: usize, n: u64) -> Result<usize, Refusal>
    ensures { result ≡ step_of (many (T.read_at s.now) n at) }
{
    let mut c = at;
    for _ in 0..n {
        c = T::pass(s, c)?;
    }
    Ok(c)
}

// Where items stand, their count first; with the position behind them.
#[tactic(auto, unfolding(bincode::specs::Items::counted, bincode::specs::Items::read_count))]
fn read_items<T: Item>(s: &[u8], at: usize, left: u64) -> Result<(Span, usize), Refusal>
    ensures { result ≡ answer (span_of at) (counted (plain (T.read_at s.now)) stay fixed s.now left tt at) }
{
    let (n, c) = bincode::read_count::<FixintEncoding>(s, at, left)?;
    let d = pass_items::<T>(s, c, n)?;
    Ok((Span { at, count: n }, d))
}

// A contribution: the places of its parts, every item of it read once.
#[tactic(auto, using(bincode::proofs::NumberLaws::read_refused), unfolding(crate::specs::InternalContrib::read_contrib))]
pub fn read_contrib(s: &[u8], at: usize, b: Budget) -> Result<(Contrib, usize), Refusal>
    ensures { result ≡ answer (placed at) (read_contrib base s.now b at) }
{
    let Ok((id, c)) = bincode::read_u32(s, at) else {
        return Err(Refusal::Malformed);
    };
    if u64::from(id) < b.low {
        return Err(Refusal::Malformed);
    }
    let (user, d) = read_user(s, c)?;
    let (messages, e) = read_items::<MessageHead>(s, d, b.left)?;
    let left = b.left.saturating_sub(messages.count);
    let (votes, next) = read_items::<VoteHead>(s, e, left)?;
    let contrib = Contrib {
        id,
        user,
        messages,
        votes,
    };
    Ok((contrib, next))
}

// The contributions of a batch in its order.
#[derive(Clone, Copy)]
pub struct BatchIndex {
    pub contribs: ArrayList<Contrib, { BatchIndex::LIMIT }>,
}

impl BatchIndex {
    pub const LIMIT: usize = 16;

    #[tactic(auto, unfolding(lists::specs::Lists::padded))]
    pub fn empty() -> Self
        ensures { result ≡ index_held [] }
    {
        let nowhere = Span { at: 0, count: 0 };
        let none = Contrib {
            id: 0,
            user: nowhere,
            messages: nowhere,
            votes: nowhere,
        };
        BatchIndex {
            contribs: ArrayList::empty(none),
        }
    }

    // How many contributions there are: a count past the array counts as the array's length.
    pub fn len(self) -> usize
        ensures { (result ≡ length (contribs_in self)) × (result ≤ base.nodes) }
    {
        self.contribs.len()
    }

    // Where the user bytes of a node's contribution stand, if it has one; ids ascend, so it has no other.
    pub fn place_of(self, id: u32) -> Option<Span>
        ensures { said_place result ≡ place_in (contribs_in self) id }
    {
        self.contribs.get(id).map(|c| c.user)
    }
}

// Reads a whole batch once: it refuses (rows 2 and 3), or notes where each contribution's parts stand and how many key-generation messages there are.
#[tactic(auto, using(crate::proofs::BatchLaws::batch_long))]
pub fn index_batch(s: &[u8]) -> Result<(BatchIndex, u64), Refusal>
    ensures { Indexed result (read_batch base s.now) }
{
    if Budget::BYTES < s.len() {
        return Err(Refusal::TooLarge); // the whole length
    }
    let (n, first) = bincode::read_count::<FixintEncoding>(s, 0, Budget::CONTRIBS)?;
    let count = n as usize;
    let mut contribs = BatchIndex::empty().contribs.items;
    let mut b = Budget::new();
    let mut messages: u64 = 0;
    let mut c = first;
    for place in contribs[..count].iter_mut() {
        let (e, next) = read_contrib(s, c, b)?;
        *place = e;
        messages += e.messages.count;
        b = b.spend(e);
        c = next;
    }
    if c < s.len() {
        return Err(Refusal::Malformed);
    }
    let contribs = ArrayList {
        count,
        items: contribs,
    };
    Ok((BatchIndex { contribs }, messages))
}

// The number of a batch's key-generation messages, or the batch's refusal.
pub fn check_batch(s: &[u8]) -> Result<u64, Refusal>
    ensures { outcome_as_said (λ (x : ℕ). x) result ≡ checked (read_batch base s.now) }
{
    let (_, messages) = index_batch(s)?;
    Ok(messages)
}

// Whether a batch has a contribution of a node, or the batch's refusal.
#[tactic(auto, using(crate::proofs::BatchLaws::check_value, crate::proofs::BatchLaws::index_place, crate::proofs::BatchLaws::has_place, crate::proofs::BatchLaws::has_none))]
pub fn has_contrib(s: &[u8], id: u32) -> Result<bool, Refusal>
    ensures { outcome_as_said (λ (x : Bool). x) result ≡ contributed (read_batch base s.now) id }
{
    let (index, _) = index_batch(s)?;
    Ok(index.place_of(id).is_some())
}

// Where a node's user bytes stand in a batch; without such a contribution, or where reading refuses, no bytes at its end.
fn user_span(s: &[u8], id: u32) -> Span
    ensures { (result.at + result.count ≤ length s.now) × (take result.count (drop result.at s.now) ≡ user_of (read_batch base s.now) id)
        × (result.at ≡ start_in s.now (read_batch base s.now) id) }
{
    let end = Span {
        at: s.len(),
        count: 0,
    };
    match index_batch(s) {
        Ok((index, _)) => index.place_of(id).unwrap_or(end),
        Err(_) => end,
    }
}

// A node's user bytes as a part of the batch; without such a contribution, or where reading refuses, the empty part at the end.
pub fn user_bytes(s: &[u8], id: u32) -> &[u8]
    ensures { (result.now ≡ user_of (read_batch base s.now) id) × (result.ref_ptr ≡ start_of s.entry.ref_ptr s.now (read_batch base s.now) id) }
{
    let user = user_span(s, id);
    &s[user.at..user.at + user.count as usize]
}

impl Span {
    // Where items start whose count of eight bytes stands at the span's place; past the bytes it is that place, where nothing can be read. Each byte is one.
    pub fn first_item(self, s: &[u8]) -> usize
        ensures { (self.at ≤ length s.now → result ≡ self.at + 8) × (length s.now < self.at → result ≡ self.at) × Bytes s.now }
    {
        if self.at <= s.len() {
            self.at + 8
        } else {
            self.at
        }
    }
}
