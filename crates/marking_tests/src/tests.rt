// Sheets marked against small graphs under JAM21: true ones, and each refusal. Events count from 8. In the comments a bar parts threads,
// the number after a mode is the location, and < names a read's source.
use graph::code::{Code, ReadMode};
use graph::event::Event;
use graph::graph::Graph;
use graph::refusal::Refused;
use marking::mark;
use profiles::jam21::Jam21;
use std::process::Abort;
use std::test::Fail;

const BLANK: Event = Event {
    thread: 0,
    code: Code::Read(ReadMode::Na),
    location: 0,
    value: 0,
    source: None,
};

// Numbers of codes.
const R_RLX: u8 = 1;

const R_ACQ: u8 = 2;

const R_SC: u8 = 3;

const W_RLX: u8 = 5;

const W_REL: u8 = 6;

const W_SC: u8 = 7;

const PASSES: (u8, u8, u8) = (0, 0, 0);

// Adds events by thread, code and location, and then gives reads their sources.
fn fill(graph: &mut Graph, events: &[(u8, u8, u8)], sources: &[(u8, u8)]) -> Result<(), Refused> {
    for event in events {
        graph.add(event.0, event.1, event.2, 0)?;
    }
    for pair in sources {
        graph.source(pair.0, pair.1)?;
    }
    Ok(())
}

// The number, the section and the entry of the refusal; all 0 where the sheet passes.
fn answer(graph: &Graph, sheet: &[u8]) -> (u8, u8, u8) {
    match mark(graph, &Jam21, sheet) {
        Ok(()) => PASSES,
        Err(refused) => (refused.refusal.number(), refused.section, refused.entry),
    }
}

// Marks each sheet of a table, which has to give its answer.
fn check_all(rt: &impl Abort, graph: &Graph, table: &[(&[u8], (u8, u8, u8))]) {
    for row in table {
        assert_eq!(rt; answer(graph, row.0), row.1);
    }
}

#[test]
fn stale_read(rt: HostRuntime) -> Result<(), Fail> {
    // W rlx 0, W rel 1 | R acq 1<9, R rlx 0<0
    let mut records = [BLANK; 56];
    let mut graph = Graph::new(&mut records);
    fill(
        &mut graph,
        &[(0, W_RLX, 0), (0, W_REL, 1), (1, R_ACQ, 1), (1, R_RLX, 0)],
        &[(10, 9)],
    )?;
    check_all(
        &rt,
        &graph,
        &[
            (&[2, 0, 2, 0, 8, 3, 255, 255, 8, 0, 4, 11, 255], PASSES),
            (&[2, 0, 2, 8, 0, 4, 11, 255, 0, 8, 3, 255, 255], PASSES),
            // Layout comes first, then the list, and then the verdict or the steps.
            (&[], (20, 0, 0)),
            (
                &[2, 1, 8, 2, 0, 8, 3, 255, 255, 8, 12, 4, 11, 255],
                (20, 2, 2),
            ),
            (
                &[2, 1, 8, 2, 0, 8, 3, 255, 255, 8, 0, 4, 10, 255],
                (11, 0, 0),
            ),
            (&[0, 1, 8, 0], (11, 0, 0)),
            (&[0, 0, 0], (22, 0, 0)),
            (&[2, 0, 2, 0, 8, 3, 255, 255, 8, 0, 4, 10, 255], (21, 2, 2)),
            (&[2, 0, 2, 8, 0, 3, 255, 255, 0, 8, 4, 10, 255], (21, 2, 1)),
            (&[2, 0, 1, 8, 8, 3, 255, 255], (21, 2, 1)),
            // There is no source cycle.
            (&[1, 0, 2, 0, 8, 1, 255, 255, 8, 0, 1, 255, 255], (21, 2, 2)),
        ],
    );
    Ok(())
}

#[test]
fn out_of_thin_air(rt: HostRuntime) -> Result<(), Fail> {
    // R sc 0<10, W sc 1, W sc 0: 8 and 9 push, and reach each other
    let mut records = [BLANK; 56];
    let mut graph = Graph::new(&mut records);
    fill(
        &mut graph,
        &[(0, R_SC, 0), (0, W_SC, 1), (0, W_SC, 0)],
        &[(8, 10)],
    )?;
    check_all(
        &rt,
        &graph,
        &[
            // The shortest cycle by either list, the same from another start, and a longer one.
            (
                &[1, 2, 8, 9, 2, 8, 10, 1, 255, 255, 10, 8, 2, 255, 255],
                PASSES,
            ),
            (
                &[1, 2, 9, 8, 2, 8, 10, 1, 255, 255, 10, 8, 2, 255, 255],
                PASSES,
            ),
            (
                &[1, 2, 9, 8, 2, 10, 8, 2, 255, 255, 8, 10, 1, 255, 255],
                PASSES,
            ),
            (
                &[
                    1, 2, 8, 9, 3, 8, 9, 1, 255, 255, 9, 10, 1, 255, 255, 10, 8, 2, 255, 255,
                ],
                PASSES,
            ),
            (
                &[1, 2, 8, 9, 2, 8, 10, 1, 255, 255, 10, 8, 1, 255, 255],
                (21, 2, 2),
            ),
            (
                &[1, 2, 8, 9, 2, 8, 9, 2, 255, 255, 9, 8, 2, 255, 255],
                (21, 2, 1),
            ),
            (
                &[1, 2, 8, 8, 2, 8, 10, 1, 255, 255, 10, 8, 2, 255, 255],
                (11, 0, 0),
            ),
            // Other verdicts are wrong, which comes before an unlawful list and before the steps.
            (&[0, 2, 8, 9, 0], (22, 0, 0)),
            (&[2, 2, 9, 8, 1, 8, 8, 3, 255, 255], (22, 0, 0)),
        ],
    );
    Ok(())
}

#[test]
fn lists_that_are_lawful_or_not(rt: HostRuntime) -> Result<(), Fail> {
    // W sc 0, R sc 0<8, W sc 1: 8 and 9 push, 8 first
    let mut records = [BLANK; 56];
    let mut graph = Graph::new(&mut records);
    fill(
        &mut graph,
        &[(0, W_SC, 0), (0, R_SC, 0), (0, W_SC, 1)],
        &[(9, 8)],
    )?;
    check_all(
        &rt,
        &graph,
        &[
            (&[0, 2, 8, 9, 0], PASSES),
            (&[0, 2, 9, 8, 0], (12, 0, 0)),
            (&[2, 2, 9, 8, 1, 8, 8, 3, 255, 255], (12, 0, 0)),
            (&[2, 2, 8, 9, 1, 8, 8, 3, 255, 255], (21, 2, 1)),
            (&[1, 2, 9, 8, 1, 8, 8, 1, 255, 255], (21, 2, 1)),
            (&[0, 3, 8, 9, 10, 0], (11, 0, 0)),
        ],
    );
    Ok(())
}

#[test]
fn store_buffering(rt: HostRuntime) -> Result<(), Fail> {
    // W sc 0, R sc 1<1 | W sc 1, R sc 0<0: 8 and 10 push, and either order shows a cycle
    let mut records = [BLANK; 56];
    let mut graph = Graph::new(&mut records);
    fill(
        &mut graph,
        &[(0, W_SC, 0), (0, R_SC, 1), (1, W_SC, 1), (1, R_SC, 0)],
        &[],
    )?;
    check_all(
        &rt,
        &graph,
        &[
            (
                &[2, 2, 8, 10, 2, 0, 8, 3, 255, 255, 8, 0, 4, 11, 255],
                PASSES,
            ),
            (
                &[2, 2, 10, 8, 2, 1, 10, 3, 255, 255, 10, 1, 4, 9, 255],
                PASSES,
            ),
            (
                &[2, 2, 10, 8, 2, 0, 8, 3, 255, 255, 8, 0, 4, 11, 255],
                (21, 2, 2),
            ),
            (&[0, 2, 10, 8, 0], (22, 0, 0)),
        ],
    );
    Ok(())
}

#[test]
fn reads_of_one_location(rt: HostRuntime) -> Result<(), Fail> {
    // W rlx 0 | R rlx 0<8, W rlx 0, R rlx 0<8 | R rlx 0<10, R rlx 0<8
    let mut records = [BLANK; 56];
    let mut graph = Graph::new(&mut records);
    fill(
        &mut graph,
        &[
            (0, W_RLX, 0),
            (1, R_RLX, 0),
            (1, W_RLX, 0),
            (1, R_RLX, 0),
            (2, R_RLX, 0),
            (2, R_RLX, 0),
        ],
        &[(9, 8), (11, 8), (12, 10), (13, 8)],
    )?;
    check_all(
        &rt,
        &graph,
        &[
            // corw there, and back by cowr or by corr.
            (&[2, 0, 2, 8, 10, 5, 9, 255, 10, 8, 4, 11, 255], PASSES),
            (&[2, 0, 2, 10, 8, 6, 12, 13, 8, 10, 5, 9, 255], PASSES),
            (
                &[2, 0, 2, 8, 10, 3, 255, 255, 10, 8, 4, 11, 255],
                (21, 2, 1),
            ),
            (&[2, 0, 2, 8, 10, 5, 9, 255, 10, 8, 6, 13, 12], (21, 2, 2)),
        ],
    );
    Ok(())
}
