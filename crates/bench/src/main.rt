// The batch call alone, for its time without a log's text: a node starts in era 0, takes an opening batch of that era, and then one batch again and again. The input is
// seven numbers of eight bytes (how many batches in all; the lengths of map, params, opening batch, batch, and verdicts, which are all 0; the batch's era), then these
// parts one behind the other.
#![tactic(auto)]

ghost use Rattle.std.specs.Prelude.{◌≤◌};

use due::DueList;
use dynamic_honey_badger::DynamicHoneyBadger;
use fault_log::FaultLog;
use process_output::Agreed;
use std::io;
use std::io::Read;

// The longest input: two batches of the greatest length, a map, params. What stands behind is not read.
pub const INPUT: usize = 132000;

// How many batches are taken, at most.
const TURNS: u64 = 1000000000;

// Room for the verdicts of a batch.
const VERDICTS: usize = 1024;

// The number at a place of the input; 0 where there is none.
fn read(s: &[u8], at: usize) -> u64 {
    bincode::read_u64(s, at).map_or(0, |(x, _)| x)
}

// The same, at most the longest input's length.
fn number(s: &[u8], at: usize) -> usize
    ensures { result ≤ 132000 }
{
    read(s, at).min(INPUT as u64) as usize
}

// How many batches are taken, the opening one among them.
fn turns(s: &[u8]) -> u64
    ensures { result ≤ 1000000000 }
{
    read(s, 0).min(TURNS)
}

// The parts of the input, and the numbers that are no lengths of them.
#[derive(Clone, Copy)]
pub struct Input<'a> {
    pub turns: u64,
    pub map: &'a [u8],
    pub params: &'a [u8],
    pub opening: &'a [u8],
    pub batch: &'a [u8],
    pub verdicts: usize,
    pub era: u64,
}

impl<'a> Input<'a> {
    // The batch of a turn: the opening batch at the first, with no verdicts.
    fn agreed(self, turn: u64, zeros: &'a [u8]) -> Agreed<'a> {
        if turn == 0 {
            return Agreed {
                era: 0,
                epoch: 0,
                batch: self.opening,
                verdicts: b"",
            };
        }
        Agreed {
            era: self.era,
            epoch: 0,
            batch: self.batch,
            verdicts: part(zeros, 0, self.verdicts),
        }
    }
}

// The n bytes from a place on; empty where there are fewer.
fn part(s: &[u8], at: usize, n: usize) -> &[u8] {
    s.get(at..at.saturating_add(n)).unwrap_or(b"")
}

fn input_of(s: &[u8]) -> Input<'_> {
    let map = part(s, 56, number(s, 8));
    let mut at = 56 + map.len();
    let params = part(s, at, number(s, 16));
    at = at.saturating_add(params.len());
    let opening = part(s, at, number(s, 24));
    at = at.saturating_add(opening.len());
    Input {
        turns: turns(s),
        map,
        params,
        opening,
        batch: part(s, at, number(s, 32)),
        verdicts: number(s, 40),
        era: number(s, 48) as u64,
    }
}

// The opening batch at the first turn, then the batch; whether all were reported. The lists that are lent have their lengths in the type, so no turn has to keep track of them.
fn take_batches(node: DynamicHoneyBadger, input: Input<'_>) -> bool {
    let zeros = [0u8; VERDICTS];
    let mut ids = [0u32; FaultLog::LIMIT];
    let mut kinds = [0u8; FaultLog::LIMIT];
    let mut due_kinds = [0u8; DueList::LIMIT];
    let mut indices = [0u64; DueList::LIMIT];
    let mut eras = [0u64; DueList::LIMIT];
    let mut state = node;
    let mut good = true;
    for i in 0..input.turns {
        let agreed = input.agreed(i, &zeros);
        let r = process_batch::process_batch(
            state,
            agreed,
            &mut ids,
            &mut kinds,
            &mut due_kinds,
            &mut indices,
            &mut eras,
        );
        state = r.state;
        good = good && r.outcome.is_ok();
    }
    good
}

// Whether the node starts and every batch is reported.
fn bench(s: &[u8]) -> bool {
    let input = input_of(s);
    DynamicHoneyBadger::new(1, 1001, 0, input.map, input.params).is_ok_and(|node| take_batches(
        node, input,
    ))
}

fn main(rt: HostRuntime) -> io::Result<()> {
    let mut input = Vec::new(rt.alloc());
    rt.stdin().take(INPUT as u64).read_to_end(&mut input)?;
    let said = if bench(&input) {
        "all reported"
    } else {
        "not reported"
    };
    println!(rt; "{said}")
}
