// A list of steps between numbered events: which events lie on a cycle?
use anyhow::anyhow;
use step_lists::step_list::{MOST, StepList, read_step};

/// Reads the list from standard input and prints the report.
pub fn run_steps(rt: &HostRuntime) -> anyhow::Result<()> {
    let list = read_steps(rt)?;
    report_cycles(rt, &list)
}

fn read_steps(rt: &HostRuntime) -> anyhow::Result<StepList> {
    let mut list = StepList::new();
    // The loop over lines stands in `graphs` too, where all that is done with a line is another.
    for (line, number) in rt.lines(rt.alloc()).zip(1u64..) {
        let step = read_step(line?.as_str()).map_err(|why| anyhow!("line {number}: {why}"))?;
        if let Some((from, to)) = step {
            list.add(from, to)
                .map_err(|why| anyhow!("line {number}: {why}"))?;
        }
    }
    Ok(list)
}

fn report_cycles(rt: &HostRuntime, list: &StepList) -> anyhow::Result<()> {
    let events = (0..MOST as u8).filter(|event| list.names(*event)).count();
    let steps = list.count();
    println!(rt; "{events} events, {steps} steps")?;
    let through = list.shortest_cycles();
    for (event, fewest) in (0u8..)
        .zip(&through)
        .filter(|(event, _)| list.names(*event))
    {
        match fewest {
            None => println!(rt; "event {event} lies on no cycle")?,
            Some(fewest) => println!(rt;
                "event {event} lies on a cycle; the shortest through it has {fewest} steps"
            )?,
        }
    }
    Ok(())
}
