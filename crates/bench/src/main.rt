// How long it takes to make a game's table. What does not vary from run to run goes to standard output, and seconds to standard error.
#![tactic(auto)]

ghost use Rattle.std.specs.Prelude.{◌≡◌};
ghost use Rattle.bench.specs.Mixed.{all_mixed};

use anyhow::anyhow;
use codes::Game;
use std::time::Instant;
use table::{Shape, tabulate};

const RUNS: u32 = 100;

// A number that changes with each entry and with their order.
fn checksum(table: &[u8]) -> u32
    ensures { result ≡ all_mixed table.now }
{
    table.iter().fold(
        0u32,
        |sum, byte| sum.wrapping_mul(31).wrapping_add(*byte as u32),
    )
}

// Makes a game's table again and again, and prints its checksum and the least seconds that it took.
fn measure(rt: &HostRuntime, pegs: u8, colours: u8) -> anyhow::Result<()> {
    // Behind an `ok_or_else` the compiler no longer sees how many pegs there can be, and what is measured takes longer.
    let Some(game) = Game::new(pegs, colours) else {
        return Err(anyhow!("there is no such game"));
    };
    let size = Shape::from(game).size();
    let mut table = vec![in rt.alloc(); 0u8; size]?;
    let mut least = f64::MAX;
    for _ in 0..RUNS {
        let start = Instant::now(rt)?;
        let _ = tabulate(game, table.as_mut_slice());
        least = least.min(start.elapsed(rt)?.as_secs_f64());
    }
    let sum = checksum(table.as_slice());
    println!(rt; "{pegs} pegs {colours} colours: {size} entries, checksum {sum}")?;
    eprintln!(rt; "{pegs} pegs {colours} colours: {least:.6} s")?;
    Ok(())
}

fn main(rt: HostRuntime) -> anyhow::Result<()> {
    measure(&rt, 8, 2)?;
    measure(&rt, 4, 4)
}
