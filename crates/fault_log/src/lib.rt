// fault_log.rs: what a node is blamed for. Kinds are those that the Rust's code names (01: `HbFault` stays with the host).
#![tactic(auto)]

ghost use Rattle.std.specs.Prelude.{◌≡◌, ◌∷◌, [], ◌++◌, ◌≤◌, length, take};
ghost use Rattle.bincode.specs.Sizes.{base};
ghost use Rattle.fault_log.specs.FaultLog.{fault_number, part_fault_number, ack_fault_number, faults_of, no_fault, no_faults};

use array_list::ArrayList;

// sync_key_gen.rs: what is wrong with a part.
#[derive(Clone, Copy, PartialEq, Eq)]
pub enum PartFault {
    RowCount,
    MultipleParts,
    DecryptRow,
    DeserializeRow,
    RowCommitment,
}

// sync_key_gen.rs: what is wrong with an ack.
#[derive(Clone, Copy, PartialEq, Eq)]
pub enum AckFault {
    ValueCount,
    MissingPart,
    DecryptValue,
    DeserializeValue,
    ValueCommitment,
}

#[derive(Clone, Copy, PartialEq, Eq)]
pub enum FaultKind {
    InvalidVoteSignature,
    InvalidCommittedVote,
    UnexpectedDhbMessageEra,
    InvalidKeyGenMessageSignature,
    UnexpectedKeyGenMessage,
    TooManyKeyGenMessages,
    InvalidKeyGenMessageEra,
    UnexpectedKeyGenPart,
    UnexpectedKeyGenAck,
    SyncKeyGenPart(PartFault),
    SyncKeyGenAck(AckFault),
}

// The faulty node and what it is blamed for.
#[derive(Clone, Copy)]
pub struct Fault {
    pub node_id: u32,
    pub kind: FaultKind,
}

impl Fault {
    pub fn new(node_id: u32, kind: FaultKind) -> Self
        ensures { result ≡ record { node_id = node_id; kind = kind } }
    {
        Fault { node_id, kind }
    }

    pub fn empty() -> Self
        ensures { result ≡ no_fault }
    {
        Fault {
            node_id: 0,
            kind: FaultKind::InvalidVoteSignature,
        }
    }
}

// In order of arising.
#[derive(Clone, Copy)]
pub struct FaultLog {
    pub faults: ArrayList<Fault, { FaultLog::LIMIT }>,
}

impl FaultLog {
    pub const LIMIT: usize = 1024;

    pub fn empty() -> Self
        ensures { result ≡ no_faults }
    {
        FaultLog {
            faults: ArrayList::empty(Fault::empty()),
        }
    }

    // How many faults there are: a count past the array counts as the array's length.
    pub fn len(&self) -> usize
        ensures { (result ≡ length (faults_of self.now)) × (result ≤ base.faults) }
    {
        self.faults.len()
    }

    // One fault more; a full log has no place for it.
    pub fn append(&mut self, fault: Fault)
        ensures { faults_of self.new ≡ take base.faults (faults_of self.old ++ (fault ∷ [])) }
    {
        self.faults.push(fault);
    }
}

impl From<PartFault> for u8 {
    ghost from_gives = { λ k n. n ≡ part_fault_number k };

    fn from(fault: PartFault) -> u8 {
        match fault {
            PartFault::RowCount => 9,
            PartFault::MultipleParts => 10,
            PartFault::DecryptRow => 11,
            PartFault::DeserializeRow => 12,
            PartFault::RowCommitment => 13,
        }
    }
}

impl From<AckFault> for u8 {
    ghost from_gives = { λ k n. n ≡ ack_fault_number k };

    fn from(fault: AckFault) -> u8 {
        match fault {
            AckFault::ValueCount => 14,
            AckFault::MissingPart => 15,
            AckFault::DecryptValue => 16,
            AckFault::DeserializeValue => 17,
            AckFault::ValueCommitment => 18,
        }
    }
}

// The kind's place among the nineteen.
impl From<FaultKind> for u8 {
    ghost from_gives = { λ k n. n ≡ fault_number k };

    fn from(kind: FaultKind) -> u8 {
        match kind {
            FaultKind::InvalidVoteSignature => 0,
            FaultKind::InvalidCommittedVote => 1,
            FaultKind::UnexpectedDhbMessageEra => 2,
            FaultKind::InvalidKeyGenMessageSignature => 3,
            FaultKind::UnexpectedKeyGenMessage => 4,
            FaultKind::TooManyKeyGenMessages => 5,
            FaultKind::InvalidKeyGenMessageEra => 6,
            FaultKind::UnexpectedKeyGenPart => 7,
            FaultKind::UnexpectedKeyGenAck => 8,
            FaultKind::SyncKeyGenPart(p) => u8::from(p),
            FaultKind::SyncKeyGenAck(a) => u8::from(a),
        }
    }
}
