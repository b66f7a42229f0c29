// dynamic_honey_badger.rs, `process_output`: the key messages of one contribution, read again and handled.
ghost use Rattle.std.specs.Prelude.{◌≡◌, drop};
ghost use Rattle.lists.specs.Lists.{found, option_as_found};
ghost use Rattle.pub_key_map.specs.PubKeyMap.{nodes_of};
ghost use Rattle.key_gen.specs.KeyGen as gen;
ghost use Rattle.key_gen_state.specs.KeyGenState.{state_of, running_of};
ghost use Rattle.key_gen_message.specs.KeyGenMessage.{SignedKeyGenMsgOf};
ghost use Rattle.key_gen_message.specs.Head.{head_of};
ghost use Rattle.dynamic_honey_badger.specs.State.{candidate_nodes};
ghost use Rattle.steps.specs.Steps.{told_by, first_verdict, other_verdicts, done_as, by_key_gen, message_done};
ghost use Rattle.commit.specs.Told.{said_told, unexpected_by};
ghost use Rattle.commit.specs.Terms.{nodes_by};
ghost use Rattle.commit.specs.Handled.{MessagesCommitted};

use crate::{Arisen, Terms};
use fault_log::FaultKind;
use internal_contrib::Contrib;
use key_gen::KeyOutcome;
use key_gen_message::{KeyGenKind, MessageHead};
use key_gen_state::KeyGenState;
use pub_key_map::PubKeyMap;

// What a committed key message comes to: nothing to tell, an ack that is due for a proposer, or whose fault it is.
#[derive(Clone, Copy)]
pub enum MessageTold {
    Quiet,
    Owed(usize),
    BlamedProposer(FaultKind),
    BlamedSigner(FaultKind),
}

// The verdict at a place, 0 past the last.
fn verdict_at(verdicts: &[u8], i: usize) -> u8
    ensures { result ≡ first_verdict (drop i verdicts.now) }
{
    verdicts.get(i).copied().unwrap_or(0)
}

// The place behind a verdict, the same past the last.
fn verdict_used(verdicts: &[u8], i: usize) -> usize
    ensures { drop result verdicts.now ≡ other_verdicts (drop i verdicts.now) }
{
    if i < verdicts.len() { i + 1 } else { i }
}

// The candidate map, where key generation runs.
fn candidate(state: &Option<KeyGenState>) -> Option<PubKeyMap>
    ensures { option_as_found nodes_of result ≡ candidate_nodes (state_of state.now) }
{
    state.as_ref().map(|running| running.key_gen.pub_keys)
}

// The signer's fault where no key message is expected.
fn unexpected(kind: KeyGenKind) -> FaultKind
    ensures { result ≡ unexpected_by kind }
{
    match kind {
        KeyGenKind::Part => FaultKind::UnexpectedKeyGenPart,
        KeyGenKind::Ack => FaultKind::UnexpectedKeyGenAck,
    }
}

// Key generation's word on a message.
fn told_by(outcome: KeyOutcome) -> MessageTold
    ensures { said_told result ≡ told_by (gen.said_outcome outcome) }
{
    match outcome {
        KeyOutcome::Quiet => MessageTold::Quiet,
        KeyOutcome::AckDue(i) => MessageTold::Owed(i),
        KeyOutcome::Faulty(k) => MessageTold::BlamedSigner(k),
    }
}

// A key message where key generation runs.
fn handle_head(running: &mut KeyGenState, h: MessageHead, verdict: u8) -> KeyOutcome
    ensures { (m : SignedKeyGenMsgOf) → h ≡ head_of m → done_as (found (running_of running.new)) (told_by (gen.said_outcome result))
        ≡ by_key_gen m verdict (found (running_of running.old)) }
{
    match h.kind {
        KeyGenKind::Part => running
            .key_gen
            .handle_part_counted(h.id, h.first, h.count, verdict),
        KeyGenKind::Ack => running
            .key_gen
            .handle_ack_counted(h.id, h.first, h.count, verdict),
    }
}

// Steps 4 and 5: a key message by its head. Wrong era, then bad signature, fault the proposer; without key generation the signer is at fault.
fn handle_message(
    terms: &Terms<'_>,
    state: &mut Option<KeyGenState>,
    h: MessageHead,
    verdict: u8,
) -> MessageTold
    ensures { (m : SignedKeyGenMsgOf) → h ≡ head_of m → done_as (state_of state.new) (said_told result)
        ≡ message_done terms.now.era (nodes_by terms.now) (state_of state.old) m verdict }
{
    if h.era != terms.era {
        return MessageTold::BlamedProposer(FaultKind::InvalidKeyGenMessageEra);
    }
    if !dynamic_honey_badger::verify_under(terms.map, candidate(state), h.id, h.sig) {
        return MessageTold::BlamedProposer(FaultKind::InvalidKeyGenMessageSignature);
    }
    let Some(running) = state else {
        return MessageTold::BlamedSigner(unexpected(h.kind));
    };
    told_by(handle_head(running, h, verdict))
}

// The key messages of a contribution, and how many verdicts are used behind them.
pub(crate) fn commit_messages(
    terms: &Terms<'_>,
    c: &Contrib,
    judged: usize,
    state: &mut Option<KeyGenState>,
    arisen: &mut Arisen,
) -> usize
    ensures { MessagesCommitted terms.now c.now state.old judged arisen.old state.new result arisen.new }
{
    let mut used = judged;
    let mut at = c.messages.first_item(terms.bytes);
    for _ in 0..c.messages.count {
        let Ok((h, next)) = key_gen_message::read_head(terms.bytes, at) else {
            return used;
        };
        let told = handle_message(terms, state, h, verdict_at(terms.verdicts, used));
        used = verdict_used(terms.verdicts, used);
        arisen.tell(told, c.id, h.id);
        at = next;
    }
    used
}
