// What the calls cost: a workload is run so many times, and the sum of its answers is printed.
#![tactic(auto)]

mod fixture;
mod numbers;
mod schemes;
mod turns;
mod workload;
mod workloads;

use fixture::Fixture;
use settings::setting::Setting;
use settings::shelf_mark::ShelfMark;
use std::alloc::{AllocError, Global};
use std::env;
use workload::Workload;

/// How many replicas, places for messages and turns there are.
#[derive(Clone, Copy, Debug, PartialEq, Eq)]
struct Sizes {
    replicas: u32,
    places: u32,
    count: u32,
}

/// The sum of a workload's turns.
fn measured(
    heap: Global,
    workload: Workload,
    sizes: Sizes,
    mark: ShelfMark,
) -> Result<u64, AllocError> {
    let Sizes {
        replicas,
        places,
        count,
    } = sizes;
    let ready = || Fixture::ready(heap, replicas, places as usize, mark);
    Ok(match workload {
        Workload::New => workloads::make(ready()?, count),
        Workload::Write => workloads::write(ready()?, count, mark),
        Workload::Read => workloads::read(ready()?, count),
        Workload::Query => workloads::answered(ready()?, count, 1, 0),
        Workload::Store => workloads::answered(ready()?, count, 0, 1),
        Workload::Silent => workloads::silent(ready()?, count),
        Workload::Heard => workloads::heard(ready()?, count),
        Workload::Ignored => workloads::ignored(ready()?, count),
        Workload::Turned => workloads::turned(ready()?, count),
        Workload::Finished => workloads::finished(ready()?, count),
        Workload::Forged => workloads::forged(ready()?, count, mark),
        Workload::Drop => workloads::dropped(ready()?, count),
        Workload::Collect => workloads::collected(ready()?, count, mark),
        Workload::Sign => schemes::sign(heap, places, count, mark.encode())?,
        Workload::Verify => schemes::verify(heap, places, count, mark.encode())?,
        Workload::Inline => schemes::verify_inline(count, mark.encode()),
    })
}

/// Runs the workload that the arguments ask for: its name, and its sizes as far as they are told.
fn run(rt: &HostRuntime) -> anyhow::Result<()> {
    let mut words = env::args(rt)?.skip(1);
    let named = words
        .next()
        .map_or(Ok(Workload::Query), |name| name.as_str().parse());
    let workload = match named {
        Ok(workload) => workload,
        Err(unknown) => {
            println!(rt; "{unknown}")?;
            return Ok(());
        }
    };
    let mut numbers = [4, 16, 10];
    for (number, word) in numbers.iter_mut().zip(words) {
        *number = word.as_str().parse()?;
    }
    let [replicas, places, count] = numbers;
    let sizes = Sizes {
        replicas,
        places,
        count,
    };
    let mark = ShelfMark::try_from(b"A7".as_slice())?;
    println!(rt; "{}", measured(rt.alloc(), workload, sizes, mark)?)?;
    Ok(())
}

fn main(rt: HostRuntime) -> anyhow::Result<()> {
    run(&rt)
}
