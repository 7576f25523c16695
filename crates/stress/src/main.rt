// Random calls of random clusters, with a digest of all answers and tables.
#![tactic(auto)]

mod bytes;
mod calls;
mod digest;
mod forgeries;
mod generator;
mod making;
mod readers;
mod round;
mod rows;
mod snapshot;
mod systems;
mod tally;
mod trial;

use round::Round;
use std::env;
use trial::Trial;

/// What is asked for: the seed, how many rounds, and after how many of them a line is printed.
#[derive(Clone, Copy, Debug, PartialEq, Eq)]
struct Plan {
    seed: u64,
    rounds: u64,
    interval: u64,
}

/// The plan of the program's arguments.
fn plan_of(rt: &HostRuntime) -> anyhow::Result<Plan> {
    let mut words = env::args(rt)?;
    let _name = words.next();
    let mut number = |otherwise| {
        words
            .next()
            .map_or(Ok(otherwise), |word| word.as_str().parse())
    };
    Ok(Plan {
        seed: number(1)?,
        rounds: number(64)?,
        interval: number(8)?,
    })
}

/// Whether a line is printed after the round.
fn is_shown(plan: Plan, round: u64) -> bool {
    plan.interval == 0 || round % plan.interval == 0 || round == plan.rounds
}

/// All rounds, and then the counts.
fn run(rt: &HostRuntime) -> anyhow::Result<()> {
    let plan = plan_of(rt)?;
    let mut trial = Trial::new(plan.seed);
    for number in 1..=plan.rounds {
        let round = Round {
            number,
            shows_calls: plan.interval == 0,
        };
        round::play(rt, round, &mut trial)?;
        if is_shown(plan, number) {
            let digest = trial.digest.value();
            println!(rt; "round {number} digest {digest:016x}")?;
        }
    }
    trial.tally.print(rt)
}

fn main(rt: HostRuntime) -> anyhow::Result<()> {
    run(&rt)
}
