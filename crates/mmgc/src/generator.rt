// The commands of a generated trace.
ghost use Rattle.std.specs.Prelude.{◌≡◌, ◌≤◌, false};
ghost use Rattle.mmgc.specs.Generator.{drawn, generated_by, next, seldom};

use mm_model::{Command, Kind, Shape};

/// A generated trace: its seed, and how many commands it has.
#[derive(Clone, Copy, Debug, PartialEq, Eq)]
pub(crate) struct GeneratedTrace {
    pub(crate) seed: u32,
    pub(crate) count: u32,
}

/// The state after a draw, which gives its upper 16 bits.
fn next_state(state: u32) -> u32
    ensures { result ≡ next state }
{
    ((u64::from(state) * 1664525 + 1013904223) % 4294967296) as u32
}

fn new(kind: Kind, counted: u32, slots: u32) -> Command
    ensures { result ≡ Command.New (record { kind = kind; finalize = false; counted = counted; slots = slots }) }
{
    Command::New(Shape {
        kind,
        finalize: false,
        counted,
        slots,
    })
}

fn seldom_command(b: u32) -> Command
    ensures { result ≡ seldom b }
{
    match b % 64 {
        0 => Command::Collect,
        1..4 => Command::Reap,
        4..8 => Command::Begin,
        8..40 => Command::Step(16),
        40..48 => Command::Finish,
        _ => Command::AreaGet(0, b / 64 % 8),
    }
}

fn command(a: u32, b: u32) -> Command
    ensures { result ≡ drawn a b }
{
    match a % 16 {
        0..2 => new(Kind::Traced, 1, 4),
        2..5 => new(Kind::Counted, 2, 4),
        5 => new(Kind::Leaf, 0, b % 600),
        6..9 => Command::Put(b % 8, b / 8 % 4, b / 32 % 8),
        9 => Command::Get(b % 8, b / 8 % 4),
        10 => Command::Weak(b % 8),
        11 => Command::Look(b % 8),
        12..14 => Command::Pop(1 + b % 8),
        14 => Command::AreaPut(0, b / 8 % 8, b / 32 % 8),
        _ => seldom_command(b),
    }
}

/// The command of this number of a generated trace, and the state for the next one. Numbers begin at 1, where the state
/// isn't read.
pub fn generated(seed: u32, number: u32, state: u32) -> (Command, u32)
    requires { 1 ≤ number }
    ensures { result ≡ generated_by seed number state }
{
    if number == 1 {
        return (Command::Root(4, 8), seed);
    }
    let first = next_state(state);
    let second = next_state(first);
    (command(first / 65536, second / 65536), second)
}

#[cfg(test)]
mod tests {
    use super::generated;
    use mm_model::{Command, Kind, Shape};

    #[test]
    fn the_first_command_makes_an_area(rt: HostRuntime) {
        for (seed, state) in [(1, 0), (4294967295, 7)] {
            assert_eq!(rt; generated(seed, 1, state), (Command::Root(4, 8), seed));
        }
    }

    // Seed 1 draws 15496 first, seed 2 draws 15521.
    #[test]
    fn two_draws_make_a_command(rt: HostRuntime) {
        let (first, _) = generated(1, 2, 1);
        assert!(rt; matches!(first, Command::Put(_, _, _)));
        let shape = Shape {
            kind: Kind::Traced,
            finalize: false,
            counted: 1,
            slots: 4,
        };
        let (second, _) = generated(2, 2, 2);
        assert_eq!(rt; second, Command::New(shape));
    }
}
