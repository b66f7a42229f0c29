// Reads lines `KIND HEX` from standard input and answers each: `ok` with the value written again, or the refusal's number.
// A map and a vote are shown in words too; three kinds are answered with what is worked out from the value.
#![tactic(auto)]

mod counts;
mod lines;
mod show;
mod text;
mod values;

fn main(rt: HostRuntime) -> anyhow::Result<()> {
    lines::answer_all(rt.alloc(), rt.stdin(), &mut rt.stdout())
}
