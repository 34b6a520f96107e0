ghost use Rattle.std.specs.Prelude.{◌≡◌, ◌==◌, ◌&&◌, cond, Some, None};
ghost use Rattle.eip_history.specs.Stop.{or_else, with_fault, held_or_drained};
ghost use Rattle.eip_ledger.specs.declared.place.Stop.TheVariants.{Spent};

use eip_ledger::Stop;

/// The first of two faults, of which the second is there.
pub fn first_fault(fault: Option<u32>, source: u32) -> Option<u32>
    ensures { result ≡ or_else fault (Some source) }
{
    match fault {
        Some(first) => Some(first),
        None => Some(source),
    }
}

/// The stop, or in its place the first source that failed.
fn reported(fault: Option<u32>, stop: Stop) -> Stop
    ensures { result ≡ with_fault fault stop }
{
    match fault {
        Some(source) => Stop::SourceFault(source),
        None => stop,
    }
}

/// The stop of a run that is over, which so many open groups may hold.
fn held(open_groups: u64) -> Stop
    ensures { result ≡ held_or_drained open_groups }
{
    if open_groups == 0 {
        Stop::Drained
    } else {
        Stop::Held(open_groups)
    }
}

/// The stop of a run, if it is over, where so many groups are still open, or its turns are spent with no hand out.
pub fn stop_by(
    over: bool,
    open_groups: u64,
    turns: u64,
    limit: u64,
    hands: u64,
    fault: Option<u32>,
) -> Option<Stop>
    ensures { result ≡ cond over (Some (with_fault fault (held_or_drained open_groups))) (cond ((turns == limit) && (hands == 0)) (Some (with_fault fault Spent)) None) }
{
    if over {
        return Some(reported(fault, held(open_groups)));
    }
    if turns == limit && hands == 0 {
        return Some(reported(fault, Stop::Spent));
    }
    None
}
