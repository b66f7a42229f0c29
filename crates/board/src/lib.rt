// 02, CR 3: the board of changes with their voters' counts, largest count first, equal counts by lowest voter. The Rust has none.
#![tactic(auto)]

ghost use Rattle.std.specs.Prelude.{◌≡◌, ◌≤◌, ◌<◌, length, map};
ghost use Rattle.lists.specs.Lists.{lookup, option_as_found};
ghost use Rattle.bincode.specs.Sizes.{base};
ghost use Rattle.change.specs.Change.{change_of};
ghost use Rattle.votes.specs.Votes.{signed_of};
ghost use Rattle.signed_votes.specs.SignedVotes.{votes_of, voter_of};
ghost use Rattle.winner.specs.Board.{is_before, placed};
ghost use Rattle.board.specs.Board.{rows_of, count_in, voter_in, no_board, worked_out, change_by, standing_at, said_standing};
ghost use Rattle.board.specs.Turns.{rank, Begun};

use array_list::ArrayList;
use change::Change;
use pub_key_map::PubKeyMap;
use signed_votes::SignedVotes;
use votes::SignedVote;

// A row: how many voters are for a change, and the lowest of them; the change is looked up among the votes.
#[derive(Clone, Copy)]
pub struct BoardRow {
    pub voter: u32,
    pub count: usize,
}

// Largest count first, equal counts by lowest voter.
#[derive(Clone, Copy)]
pub struct Board {
    pub rows: ArrayList<BoardRow, { Board::LIMIT }>,
}

// A row as it is handed out: a change, and how many voters are for it.
#[derive(Clone, Copy)]
pub struct Standing {
    pub change: Change,
    pub count: usize,
}

// Whether a row stands before another: a larger count, or an equal one and a lower voter.
pub fn is_before(r: BoardRow, q: BoardRow) -> bool
    ensures { result ≡ is_before count_in voter_in r q }
{
    q.count < r.count || (q.count == r.count && r.voter < q.voter)
}

// The change that a voter's vote is for; without a vote the empty map.
#[tactic(auto, using(crate::proofs::BoardTurns::held_change))]
fn change_of(votes: SignedVotes, voter: u32) -> Change
    ensures { change_of result ≡ change_by (lookup voter_of (votes_of votes) voter) }
{
    let none = Change::NodeChange(PubKeyMap::empty());
    votes.votes.get(voter).map_or(none, |x| x.vote.change)
}

// The row of the change that the vote at a place is for, where no earlier one is: the votes behind it that are for it are counted and marked.
fn row_of(votes: &[SignedVote], place: usize, seen: &mut [bool; Board::LIMIT]) -> BoardRow
    requires { (place < length votes.now) × (length votes.now ≤ base.nodes) }
    ensures { Begun (map signed_of votes.now) place seen.old result seen.new }
{
    let first = votes[place];
    let change = first.vote.change;
    let mut voter = first.voter;
    let mut count: usize = 1;
    for (j, x) in votes.iter().enumerate().skip(place + 1) {
        if x.is_for(change) {
            seen[j] = true;
            count += 1;
            voter = voter.min(x.voter);
        }
    }
    BoardRow { voter, count }
}

impl Board {
    pub const LIMIT: usize = 16;

    pub fn empty() -> Self
        ensures { result ≡ no_board }
    {
        Board {
            rows: ArrayList::empty(BoardRow { voter: 0, count: 0 }),
        }
    }

    // How many rows there are: a count past the array counts as the array's length.
    pub fn len(self) -> usize
        ensures { (result ≡ length (rows_of self)) × (result ≤ base.nodes) }
    {
        self.rows.len()
    }

    // How many rows stand before the first that a row stands before.
    fn place_of(self, row: BoardRow) -> usize
        ensures { (result ≡ rank row (rows_of self)) × (result ≤ length (rows_of self)) }
    {
        let rows = self.rows.as_slice();
        let place = rows.iter().position(|q| is_before(row, *q));
        place.unwrap_or(rows.len())
    }

    // A row put before the first that it stands before; those from there on move up.
    fn put(mut self, row: BoardRow) -> Self
        requires { length (rows_of self) < base.nodes }
        ensures { rows_of result ≡ placed count_in voter_in row (rows_of self) }
    {
        let at = self.place_of(row);
        self.rows.insert_at(at, row);
        self
    }

    // The board of all votes, worked out anew: a vote whose change no earlier one is for begins a row.
    pub fn of(votes: SignedVotes) -> Self
        ensures { rows_of result ≡ worked_out (votes_of votes) }
    {
        let votes = votes.votes.as_slice();
        let mut board = Board::empty();
        let mut seen = [false; Board::LIMIT];
        for i in 0..votes.len() {
            if !seen[i] {
                board = board.put(row_of(votes, i, &mut seen));
            }
        }
        board
    }

    // The row at a place, 0 first, with the change that its voter's vote is for.
    pub fn standing(self, votes: SignedVotes, place: usize) -> Option<Standing>
        ensures { option_as_found said_standing result ≡ standing_at place (rows_of self) (votes_of votes) }
    {
        let row = self.rows.at(place)?;
        Some(Standing {
            change: change_of(votes, row.voter),
            count: row.count,
        })
    }
}
