// Graphs at their edges, each refusal of the calls, and steps taken back.
use graph::call::Call;
use graph::code::{Code, ReadMode, WriteMode};
use graph::event::Event;
use graph::graph::Graph;
use graph::refusal::Refused;
use std::process::Abort;
use std::test::Fail;

// What a slice holds before a graph is made in it: nothing that a graph could hold.
const JUNK: Event = Event {
    thread: 9,
    code: Code::Write(WriteMode::Na),
    location: 9,
    value: 9,
    source: Some(9),
};

fn add(thread: u8, code: u8, location: u8, value: u32) -> Call {
    Call::Add {
        thread,
        code,
        location,
        value,
    }
}

fn source(read: u8, write: u8) -> Call {
    Call::Source { read, write }
}

// An answer, or the number of the refusal.
fn numbered(answer: Result<u16, Refused>) -> Result<u16, u8> {
    answer.map_err(|refused| refused.refusal.number())
}

// Makes the calls of the table one after another, each of which has to give its answer.
fn play(rt: &impl Abort, graph: &mut Graph, table: &[(Call, Result<u16, u8>)]) {
    for row in table {
        assert_eq!(rt; numbered(graph.perform(row.0)), row.1);
    }
}

#[test]
fn edges(rt: HostRuntime) {
    let mut slice = [JUNK; 60];
    let mut graph = Graph::new(&mut slice);
    assert_eq!(rt; graph.room(), 56);
    for i in 0..55u16 {
        assert_eq!(rt; numbered(graph.perform(add(0, 1, 0, 0))), Ok(8 + i));
    }
    for i in 55..256u16 {
        assert_eq!(rt; numbered(graph.perform(source(62, 0))), Ok(i + 1));
    }
    assert_eq!(rt; graph.standing(), 256);
    // Step 257 is refused; in its place the 56th event goes in, and the next is refused, for want
    // of room first.
    play(
        &rt,
        &mut graph,
        &[
            (add(0, 1, 0, 0), Err(6)),
            (source(62, 0), Err(6)),
            (Call::TakeBack, Ok(255)),
            (add(0, 1, 0, 0), Ok(63)),
            (source(63, 0), Err(6)),
            (add(0, 1, 0, 0), Err(1)),
        ],
    );
    assert_eq!(rt; graph.events().len(), 56);

    let mut few = [JUNK; 3];
    let mut small = Graph::new(&mut few);
    assert_eq!(rt; small.room(), 3);
    play(
        &rt,
        &mut small,
        &[
            (add(0, 0, 0, 0), Ok(8)),
            (add(0, 0, 0, 0), Ok(9)),
            (add(0, 0, 0, 0), Ok(10)),
            (add(0, 0, 0, 0), Err(1)),
        ],
    );
}

#[test]
fn refusals(rt: HostRuntime) {
    let mut slice = [JUNK; 4];
    let mut graph = Graph::new(&mut slice);
    play(
        &rt,
        &mut graph,
        &[
            (Call::TakeBack, Err(9)),
            (add(8, 11, 8, 1), Err(2)),
            (add(7, 11, 8, 1), Err(3)),
            (add(7, 10, 8, 1), Err(4)),
            (add(7, 8, 1, 1), Err(4)),
            (add(7, 9, 0, 1), Err(5)),
            (add(7, 3, 7, 1), Err(5)),
            (add(0, 5, 0, 1), Ok(8)),
            (add(1, 1, 0, 0), Ok(9)),
            (add(1, 8, 0, 0), Ok(10)),
        ],
    );
    play(
        &rt,
        &mut graph,
        &[
            (source(11, 8), Err(10)),
            (source(8, 255), Err(10)),
            (source(8, 9), Err(7)),
            (source(0, 8), Err(7)),
            (source(10, 8), Err(7)),
            (source(9, 9), Err(8)),
            (source(9, 1), Err(8)),
            (source(9, 8), Ok(4)),
            (source(9, 8), Ok(5)),
            (add(7, 7, 7, 4_294_967_295), Ok(11)),
            (add(0, 0, 0, 1), Err(5)),
            (add(0, 0, 0, 0), Err(1)),
        ],
    );
}

#[test]
fn steps_taken_back(rt: HostRuntime) {
    let mut slice = [JUNK; 2];
    let mut graph = Graph::new(&mut slice);
    assert!(rt; graph.find(8).is_none());
    assert_eq!(rt; graph.find(3), Some(Event::initial(3)));
    play(
        &rt,
        &mut graph,
        &[
            (add(0, 5, 0, 1), Ok(8)),
            (add(1, 2, 0, 0), Ok(9)),
            (source(9, 8), Ok(3)),
            (source(9, 0), Ok(4)),
            (Call::TakeBack, Ok(3)),
        ],
    );
    let sourced = Event {
        thread: 1,
        code: Code::Read(ReadMode::Acq),
        location: 0,
        value: 0,
        source: Some(8),
    };
    assert_eq!(rt; graph.find(9), Some(sourced));
    play(
        &rt,
        &mut graph,
        &[(Call::TakeBack, Ok(2)), (Call::TakeBack, Ok(1))],
    );
    assert!(rt; graph.find(9).is_none());
    play(
        &rt,
        &mut graph,
        &[(add(3, 6, 4, 7), Ok(9)), (Call::TakeBack, Ok(1))],
    );
    // The record of the event taken back keeps its content.
    assert_eq!(rt;
        slice[1],
        Event::fresh(3, Code::Write(WriteMode::Rel), 4, 7)
    );
}

#[test]
fn equal_graphs(rt: HostRuntime) {
    let mut here = [JUNK; 3];
    let mut there = [JUNK; 9];
    let mut one = Graph::new(&mut here);
    let mut two = Graph::new(&mut there);
    assert!(rt; one.same_as(&two));
    play(
        &rt,
        &mut one,
        &[
            (add(0, 5, 0, 1), Ok(8)),
            (add(1, 1, 0, 0), Ok(9)),
            (source(9, 8), Ok(3)),
        ],
    );
    play(
        &rt,
        &mut two,
        &[(add(0, 5, 0, 1), Ok(8)), (add(1, 1, 0, 0), Ok(9))],
    );
    assert!(rt; !one.same_as(&two));
    play(
        &rt,
        &mut two,
        &[(source(9, 0), Ok(3)), (source(9, 8), Ok(4))],
    );
    assert!(rt; one.same_as(&two));
}

#[test]
fn words_of_a_refusal(rt: HostRuntime) -> Result<(), Fail> {
    let mut none: [Event; 0] = [];
    let mut graph = Graph::new(&mut none);
    let Err(refused) = graph.take_back() else {
        return Err(Fail::new("there is no step to take back"));
    };
    assert_eq!(rt; refused, Refused::plain(refused.refusal));
    let text = refused.refusal.to_string(rt.alloc())?;
    assert_eq!(rt; text.as_str(), "no step stands");
    Ok(())
}
