ghost use Rattle.std.specs.Prelude.{◌≡◌, IfOk};

use eip_exchange::Work;
use eip_frames::{Request, Seed};
use eip_text::{NoMemory, Series};
use std::alloc::Global;

/// The same request.
pub fn copy_request(alloc: Global, request: &Request) -> Result<Request, NoMemory>
    ensures { IfOk result (λ q. q ≡ request.now) }
{
    match request {
        Request::Send { target, message } => {
            let message = message.copy(alloc)?;
            let target = target.copy()?;
            Ok(Request::Send { target, message })
        }
        Request::Process { name, message } => Ok(Request::Process {
            name: name.copy()?,
            message: message.copy(alloc)?,
        }),
        Request::Test { name, message } => Ok(Request::Test {
            name: name.copy()?,
            message: message.copy(alloc)?,
        }),
        Request::Offer {
            queue,
            discard,
            message,
        } => Ok(Request::Offer {
            queue: *queue,
            discard: *discard,
            message: message.copy(alloc)?,
        }),
        Request::Call { route } => Ok(Request::Call { route: *route }),
        Request::Spawn { parts } => Ok(Request::Spawn {
            parts: Series::of(copy_seeds(alloc, parts.items())?),
        }),
        Request::Join { first, count } => Ok(Request::Join {
            first: *first,
            count: *count,
        }),
        Request::Arrive {
            aggregator,
            key,
            message,
        } => Ok(Request::Arrive {
            aggregator: *aggregator,
            key: key.copy()?,
            message: message.copy(alloc)?,
        }),
        Request::Idem {
            repository,
            key,
            eager,
            remove,
        } => Ok(Request::Idem {
            repository: repository.copy()?,
            key: key.copy()?,
            eager: *eager,
            remove: *remove,
        }),
        Request::Wait { ticks } => Ok(Request::Wait { ticks: *ticks }),
        Request::Log { name, text } => Ok(Request::Log {
            name: name.copy()?,
            text: text.copy()?,
        }),
        Request::Finish {
            end,
            message,
            commit,
        } => {
            let message = message.copy(alloc)?;
            let end = end.copy()?;
            Ok(Request::Finish {
                end,
                message,
                commit: *commit,
            })
        }
    }
}

/// The same seed.
pub fn copy_seed(alloc: Global, seed: &Seed) -> Result<Seed, NoMemory>
    ensures { IfOk result (λ s. s ≡ seed.now) }
{
    Ok(Seed {
        work: copy_work(&seed.work)?,
        care: seed.care,
        message: seed.message.copy(alloc)?,
    })
}

/// The same seeds.
pub fn copy_seeds(alloc: Global, seeds: &[Seed]) -> Result<Vec<Seed>, NoMemory>
    ensures { IfOk result (λ v. v.items ≡ seeds.now) }
{
    let mut copies = Vec::with_capacity(alloc, seeds.len())?;
    for seed in seeds {
        copies.push(copy_seed(alloc, seed)?)?;
    }
    Ok(copies)
}

fn copy_work(work: &Work) -> Result<Work, NoMemory>
    ensures { IfOk result (λ w. w ≡ work.now) }
{
    match work {
        Work::Block(block) => Ok(Work::Block(*block)),
        Work::To(text) => Ok(Work::To(text.copy()?)),
    }
}
