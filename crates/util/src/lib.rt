// util.rs: the number of faulty nodes that a network tolerates.
#![tactic(auto)]

ghost use Rattle.std.specs.Prelude.{◌≡◌};
ghost use Rattle.util.specs.MaxFaulty.{max_faulty};

// The greatest f with n >= 3f + 1. The Rust panics at n = 0; here it is 0 (docs/DECISIONS.md, 3).
pub fn max_faulty(n: usize) -> usize
    ensures { result ≡ max_faulty n }
{
    n.saturating_sub(1) / 3
}
