// Small graphs judged under JAM21, with their sheets byte for byte, and every refusal of judging. Events count from 8. In the
// comments a bar parts threads, the number after a mode is the location, and < names a read's source.
use graph::call::Call;
use graph::event::Event;
use graph::graph::Graph;
use graph::refusal::{Refusal, Refused};
use judging::judging::judge;
use profiles::jam21::Jam21;
use std::process::Abort;
use std::test::Fail;

const R_RLX: u8 = 1;

const R_ACQ: u8 = 2;

const R_SC: u8 = 3;

const W_RLX: u8 = 5;

const W_REL: u8 = 6;

const W_SC: u8 = 7;

const F_ACQ: u8 = 8;

const F_REL: u8 = 9;

const F_SC: u8 = 10;

const fn add(thread: u8, code: u8, location: u8) -> Call {
    Call::Add {
        thread,
        code,
        location,
        value: 0,
    }
}

const fn take(read: u8, write: u8) -> Call {
    Call::Source { read, write }
}

// Performs the calls on a new graph and judges it with a list. The sheet has to be this one, and the bytes behind it as they were.
fn judges(rt: &impl Abort, calls: &[Call], list: &[u8], sheet: &[u8]) -> Result<(), Fail> {
    let mut records = [Event::initial(0); 56];
    let mut graph = Graph::new(&mut records);
    for call in calls {
        let _ = graph.perform(*call)?;
    }
    let mut buffer = [0xA5u8; 400];
    let length = judge(&graph, &Jam21, list, &mut buffer)?;
    assert_eq!(rt; length, sheet.len());
    assert!(rt; length <= 400);
    assert!(rt; &buffer[0..length] == sheet);
    assert_eq!(rt; buffer[399], 0xA5);
    Ok(())
}

#[test]
fn stale_read_after_release_and_acquire(rt: HostRuntime) -> Result<(), Fail> {
    // W rlx 0, W rel 1 | R acq 1<9, R rlx 0<0
    let forbidden = [
        add(0, W_RLX, 0),
        add(0, W_REL, 1),
        add(1, R_ACQ, 1),
        add(1, R_RLX, 0),
        take(10, 9),
    ];
    judges(
        &rt,
        &forbidden,
        &[],
        &[2, 0, 2, 0, 8, 3, 255, 255, 8, 0, 4, 11, 255],
    )?;
    // the same with event 10 rlx
    let permitted = [
        add(0, W_RLX, 0),
        add(0, W_REL, 1),
        add(1, R_RLX, 1),
        add(1, R_RLX, 0),
        take(10, 9),
    ];
    judges(&rt, &permitted, &[], &[0, 0, 0])
}

#[test]
fn store_buffering(rt: HostRuntime) -> Result<(), Fail> {
    // W sc 0, R sc 1<1 | W sc 1, R sc 0<0
    let sc = [
        add(0, W_SC, 0),
        add(0, R_SC, 1),
        add(1, W_SC, 1),
        add(1, R_SC, 0),
    ];
    judges(
        &rt,
        &sc,
        &[8, 10],
        &[2, 2, 8, 10, 2, 0, 8, 3, 255, 255, 8, 0, 4, 11, 255],
    )?;
    judges(
        &rt,
        &sc,
        &[10, 8],
        &[2, 2, 10, 8, 2, 1, 10, 3, 255, 255, 10, 1, 4, 9, 255],
    )?;
    // W rel 0, R acq 1<1 | W rel 1, R acq 0<0
    let one_sided = [
        add(0, W_REL, 0),
        add(0, R_ACQ, 1),
        add(1, W_REL, 1),
        add(1, R_ACQ, 0),
    ];
    judges(&rt, &one_sided, &[], &[0, 0, 0])?;
    // W rlx 0, F sc, R rlx 1<1 | W rlx 1, F sc, R rlx 0<0
    let fenced = [
        add(0, W_RLX, 0),
        add(0, F_SC, 0),
        add(0, R_RLX, 1),
        add(1, W_RLX, 1),
        add(1, F_SC, 0),
        add(1, R_RLX, 0),
    ];
    judges(
        &rt,
        &fenced,
        &[8, 11],
        &[2, 2, 8, 11, 2, 0, 8, 3, 255, 255, 8, 0, 4, 13, 255],
    )?;
    // W rlx 0, F sc, R rlx 1<1 | W rlx 1, R rlx 0<0
    let half_fenced = [
        add(0, W_RLX, 0),
        add(0, F_SC, 0),
        add(0, R_RLX, 1),
        add(1, W_RLX, 1),
        add(1, R_RLX, 0),
    ];
    judges(&rt, &half_fenced, &[8], &[0, 1, 8, 0])
}

#[test]
fn cycles_of_each_kind(rt: HostRuntime) -> Result<(), Fail> {
    // R rlx 0<11, W rlx 1 | R rlx 1<9, W rlx 0
    let thin_air = [
        add(0, R_RLX, 0),
        add(0, W_RLX, 1),
        add(1, R_RLX, 1),
        add(1, W_RLX, 0),
        take(8, 11),
        take(10, 9),
    ];
    judges(
        &rt,
        &thin_air,
        &[],
        &[
            1, 0, 4, 8, 9, 1, 255, 255, 9, 10, 2, 255, 255, 10, 11, 1, 255, 255, 11, 8, 2, 255, 255,
        ],
    )?;
    // W rlx 0 | R rlx 0<8, R rlx 0<0
    let old_after_new = [
        add(0, W_RLX, 0),
        add(1, R_RLX, 0),
        add(1, R_RLX, 0),
        take(9, 8),
    ];
    judges(
        &rt,
        &old_after_new,
        &[],
        &[2, 0, 2, 0, 8, 3, 255, 255, 8, 0, 6, 9, 10],
    )?;
    // W rlx 0 | R rlx 0<8, W rlx 0 | R rlx 0<10, R rlx 0<8: the step from 8 to 10 holds by corw alone
    let overwritten = [
        add(0, W_RLX, 0),
        add(1, R_RLX, 0),
        add(1, W_RLX, 0),
        add(2, R_RLX, 0),
        add(2, R_RLX, 0),
        take(9, 8),
        take(11, 10),
        take(12, 8),
    ];
    judges(
        &rt,
        &overwritten,
        &[],
        &[2, 0, 2, 8, 10, 5, 9, 255, 10, 8, 6, 11, 12],
    )
}

#[test]
fn visibility_through_other_threads_and_fences(rt: HostRuntime) -> Result<(), Fail> {
    // W rlx 1, W rel 0 | R rlx 0<9, W rlx 0 | R acq 0<11, R rlx 1<1: program order on one location is no step of a longer way
    let not_chained = [
        add(0, W_RLX, 1),
        add(0, W_REL, 0),
        add(1, R_RLX, 0),
        add(1, W_RLX, 0),
        add(2, R_ACQ, 0),
        add(2, R_RLX, 1),
        take(10, 9),
        take(12, 11),
    ];
    judges(&rt, &not_chained, &[], &[0, 0, 0])?;
    // W rlx 0, F rel, W rlx 2, F acq, W rlx 1 | R acq 1<12, R rlx 0<0
    let fences = [
        add(0, W_RLX, 0),
        add(0, F_REL, 0),
        add(0, W_RLX, 2),
        add(0, F_ACQ, 0),
        add(0, W_RLX, 1),
        add(1, R_ACQ, 1),
        add(1, R_RLX, 0),
        take(13, 12),
    ];
    judges(
        &rt,
        &fences,
        &[],
        &[2, 0, 2, 0, 8, 3, 255, 255, 8, 0, 4, 14, 255],
    )?;
    // W rlx 0, F rel, F acq, W rlx 1 | R acq 1<11, R rlx 0<0: no access stands between the fences
    let nothing_between = [
        add(0, W_RLX, 0),
        add(0, F_REL, 0),
        add(0, F_ACQ, 0),
        add(0, W_RLX, 1),
        add(1, R_ACQ, 1),
        add(1, R_RLX, 0),
        take(12, 11),
    ];
    judges(&rt, &nothing_between, &[], &[0, 0, 0])
}

// Judges with a list that is refused; the buffer has to be as it was.
fn refuses(rt: &impl Abort, graph: &Graph<'_>, list: &[u8], refusal: Refusal) {
    let mut buffer = [7u8; 384];
    assert_eq!(rt;
        judge(graph, &Jam21, list, &mut buffer),
        Err(Refused::plain(refusal))
    );
    assert!(rt; buffer == [7u8; 384]);
}

#[test]
fn refusals_leave_the_buffer(rt: HostRuntime) -> Result<(), Fail> {
    let mut records = [Event::initial(0); 56];
    let mut graph = Graph::new(&mut records);
    // W sc 0, W sc 1, W sc 2: 8 and 9 push, and 8 has to come first
    for location in 0..3 {
        let _ = graph.add(0, W_SC, location, 1)?;
    }
    refuses(&rt, &graph, &[8], Refusal::NotThePushingEvents);
    refuses(&rt, &graph, &[8, 8], Refusal::NotThePushingEvents);
    refuses(&rt, &graph, &[8, 10], Refusal::NotThePushingEvents);
    refuses(&rt, &graph, &[8, 200], Refusal::NotThePushingEvents);
    refuses(&rt, &graph, &[9, 8], Refusal::NotLawful);
    let mut short = [7u8; 383];
    assert_eq!(rt;
        judge(&graph, &Jam21, &[9, 8], &mut short),
        Err(Refused::plain(Refusal::BufferTooShort))
    );
    let mut buffer = [7u8; 384];
    assert_eq!(rt; judge(&graph, &Jam21, &[8, 9], &mut buffer), Ok(5));
    Ok(())
}
