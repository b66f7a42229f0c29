// What a line of a log asks, read off it before the replica is touched.
use crate::fields::Fields;
use crate::text::Failure;
use std::alloc::Global;

// new ID KEY ERA MAP PARAMS
#[derive(Drop)]
pub struct New {
    pub id: u32,
    pub key: u64,
    pub era: u64,
    pub map: Vec<u8>,
    pub params: Vec<u8>,
}

// join ID KEY PLAN DUE_PLACES
#[derive(Drop)]
pub struct Join {
    pub id: u32,
    pub key: u64,
    pub plan: Vec<u8>,
    pub places: usize,
}

// batch ERA INNER BATCH VERDICTS FAULT_PLACES DUE_PLACES
#[derive(Drop)]
pub struct BatchCall {
    pub era: u64,
    pub epoch: u64,
    pub batch: Vec<u8>,
    pub verdicts: Vec<u8>,
    pub faults: usize,
    pub due: usize,
}

// The calls that may change a replica.
#[derive(Drop)]
pub enum Order {
    Batch(BatchCall),
    Message(u32, Vec<u8>),
    Due(Vec<u8>),
    Vote(Vec<u8>),
    Add(u32, u64),
    Remove(u32),
}

// The calls that ask a replica and change nothing.
#[derive(Clone, Copy)]
pub enum Question {
    Plan(u64, usize),
    Stored(usize),
    Pending(usize),
    Propose(bool, u64),
    Next(u64),
    State,
    Last,
    Board,
}

// The calls that start a replica, those that need one, and those that need none.
#[derive(Drop)]
pub enum Call {
    New(New),
    Join(Join),
    Order(Order),
    Ask(Question),
    Schedule(u64, Vec<u8>),
    User(u32, Vec<u8>),
    PlanNew(Vec<u8>, usize),
    PlanOld(Vec<u8>, usize),
}

fn new_of(f: &mut Fields<'_>, alloc: Global) -> Result<Call, Failure> {
    Ok(Call::New(New {
        id: f.id()?,
        key: f.number()?,
        era: f.number()?,
        map: f.bytes(alloc)?,
        params: f.bytes(alloc)?,
    }))
}

fn join_of(f: &mut Fields<'_>, alloc: Global) -> Result<Call, Failure> {
    Ok(Call::Join(Join {
        id: f.id()?,
        key: f.number()?,
        plan: f.bytes(alloc)?,
        places: f.places()?,
    }))
}

fn batch_of(f: &mut Fields<'_>, alloc: Global) -> Result<Order, Failure> {
    Ok(Order::Batch(BatchCall {
        era: f.number()?,
        epoch: f.number()?,
        batch: f.bytes(alloc)?,
        verdicts: f.bytes(alloc)?,
        faults: f.places()?,
        due: f.places()?,
    }))
}

fn order_of(word: &str, f: &mut Fields<'_>, alloc: Global) -> Result<Call, Failure> {
    let order = match word {
        "batch" => batch_of(f, alloc)?,
        "message" => Order::Message(f.id()?, f.bytes(alloc)?),
        "due" => Order::Due(f.bytes(alloc)?),
        "vote" => Order::Vote(f.bytes(alloc)?),
        "add" => Order::Add(f.id()?, f.number()?),
        "remove" => Order::Remove(f.id()?),
        _ => return Ok(Call::Ask(question_of(word, f)?)),
    };
    Ok(Call::Order(order))
}

fn question_of(word: &str, f: &mut Fields<'_>) -> Result<Question, Failure> {
    Ok(match word {
        "plan" => Question::Plan(f.number()?, f.places()?),
        "stored" => Question::Stored(f.number()? as usize),
        "pending" => Question::Pending(f.number()? as usize),
        "propose" => Question::Propose(f.flag()?, f.number()?),
        "next" => Question::Next(f.number()?),
        "state" => Question::State,
        "last" => Question::Last,
        "board" => Question::Board,
        _ => return Err(Failure::BadLine),
    })
}

fn call_of(f: &mut Fields<'_>, alloc: Global) -> Result<Call, Failure> {
    let word = f.word()?;
    match word {
        "new" => new_of(f, alloc),
        "join" => join_of(f, alloc),
        "schedule" => Ok(Call::Schedule(f.number()?, f.bytes(alloc)?)),
        "user" => Ok(Call::User(f.id()?, f.bytes(alloc)?)),
        "plan-new" => Ok(Call::PlanNew(f.bytes(alloc)?, f.places()?)),
        "plan-old" => Ok(Call::PlanOld(f.bytes(alloc)?, f.places()?)),
        _ => order_of(word, f, alloc),
    }
}

// The call of a line: a word, and just the fields that it has.
pub(crate) fn parse(line: &[u8], alloc: Global) -> Result<Call, Failure> {
    let mut f = Fields::new(line);
    let call = call_of(&mut f, alloc)?;
    f.end()?;
    Ok(call)
}
