// A script of calls on a graph: each answer, the drawing, the pairs of the profile, and source cycles.
use anyhow::anyhow;
use axioms::source_cycle::source_cycle;
use graph::event::{Event, INITIAL};
use graph::graph::{Graph, MOST_EVENTS};
use measures::settling::LARGEST;
use reports::drawing;
use reports::options::{Options, ProfileName};
use reports::pairs::{RulePair, StrictPair};
use reports::script::read_call;
use std::fmt;

/// Reads the script from standard input, performs it and prints the report.
pub fn run_script(rt: &HostRuntime, options: Options) -> anyhow::Result<()> {
    let mut records = [Event::initial(0); MOST_EVENTS];
    let mut graph = Graph::new(&mut records);
    for (line, number) in rt.lines(rt.alloc()).zip(1u64..) {
        let call = read_call(line?.as_str()).map_err(|why| anyhow!("line {number}: {why}"))?;
        let Some(call) = call else {
            continue;
        };
        match graph.perform(call) {
            Ok(answer) => println!(rt; "answer {answer}")?,
            Err(refused) => {
                let why = refused.refusal;
                let which = why.number();
                println!(rt; "refused {which}: {why}")?;
            }
        }
    }
    report(rt, options, graph.events())
}

fn report(rt: &HostRuntime, options: Options, events: &[Event]) -> anyhow::Result<()> {
    println!(rt; "")?;
    let drawing = drawing::draw(rt.alloc(), events)?;
    print!(rt; "{drawing}")?;
    if options.pairs {
        println!(rt; "")?;
        println!(rt; "pairs of added events under {}:", options.profile)?;
        match options.profile {
            ProfileName::Jam21 => print_pairs(rt, events, |a, b| RulePair::of(events, a, b))?,
            ProfileName::Strict => print_pairs(rt, events, |a, b| StrictPair::of(events, a, b))?,
        }
    }
    println!(rt; "")?;
    print_source_cycle(rt, events)
}

// A line for each pair of added events of which `pair_of` tells something.
fn print_pairs<P: fmt::Display + Drop, F: Fn(u8, u8) -> Option<P>>(
    rt: &HostRuntime,
    events: &[Event],
    pair_of: F,
) -> anyhow::Result<()>
    requires { F.IsAlwaysCallable pair_of }
{
    let end = events.len().min(MOST_EVENTS) as u8 + INITIAL;
    // Numbers of events, and no places of a slice.
    for a in INITIAL..end {
        for pair in (INITIAL..end).filter_map(|b| pair_of(a, b)) {
            println!(rt; "{pair}")?;
        }
    }
    Ok(())
}

fn print_source_cycle(rt: &HostRuntime, events: &[Event]) -> anyhow::Result<()> {
    let mut cycle = [0u8; LARGEST];
    match source_cycle(events, &mut cycle) {
        Ok(Some(count)) => {
            println!(rt;
                "program order with reads-from has a cycle; the shortest has {count} steps:"
            )?;
            for event in cycle.iter().take(count) {
                print!(rt; "{event} -> ")?;
            }
            let first = cycle[0];
            println!(rt; "{first}")?;
        }
        _ => println!(rt; "program order with reads-from has no cycle")?,
    }
    Ok(())
}
