// Small graphs with their coherence cycles, by the JAM21 profile. Events count from 8. In the comments a bar parts threads, the
// number after a mode is the location, and < names a read's source.
ghost use Rattle.std.specs.Prelude.{◌≡◌, true};
ghost use Rattle.profiles.specs.Jam21.{jam21};

use axioms::relation::{Relation, draw};
use axioms::rule::Rule;
use coherence::naming::{NamedStep, UNUSED};
use coherence::sight::Sight;
use coherence::visibility::draw_visibility;
use graph::code::{Code, ReadMode, WriteMode};
use graph::event::Event;
use measures::settling::Refusal;
use profiles::jam21::Jam21;
use profiles::profile::Profile;

#[derive(Drop)]
struct KeptPairs<'a>(&'a [Event]);

impl Relation for KeptPairs<'_> {
    ghost related = { λ s a b. jam21.kept s.0.now a b ≡ true };

    fn holds(&self, a: u8, b: u8) -> bool {
        Jam21.keeps(self.0, a, b)
    }
}

#[derive(Drop)]
struct PushedPairs<'a>(&'a [Event]);

impl Relation for PushedPairs<'_> {
    ghost related = { λ s a b. jam21.pushed s.0.now a b ≡ true };

    fn holds(&self, a: u8, b: u8) -> bool {
        Jam21.pushes(self.0, a, b)
    }
}

fn read(thread: u8, mode: ReadMode, location: u8, source: u8) -> Event {
    Event {
        thread,
        code: Code::Read(mode),
        location,
        value: 0,
        source: Some(source),
    }
}

fn write(thread: u8, mode: WriteMode, location: u8) -> Event {
    Event::fresh(thread, Code::Write(mode), location, 1)
}

// The table of visibility of a graph of at most six added events, under a push order.
fn visibility(events: &[Event], list: &[u8], cells: &mut [u8]) -> Result<(), Refusal> {
    let size = cells.len();
    if size > 196 || events.len() > 6 {
        return Err(Refusal::NotSquare);
    }
    let side = events.len() + 8;
    let mut kept_cells = [0u8; 196];
    let kept = &mut kept_cells[0..size];
    draw(&KeptPairs(events), kept, side)?;
    let mut pushed_cells = [0u8; 196];
    let pushed = &mut pushed_cells[0..size];
    draw(&PushedPairs(events), pushed, side)?;
    draw_visibility(events, kept, pushed, list, cells)
}

fn named(rule: Rule, reader: u8, second: u8) -> Option<NamedStep> {
    Some(NamedStep {
        rule,
        reader,
        second,
    })
}

#[test]
fn message_passing(rt: HostRuntime) {
    // W rlx 0, W rel 1 | R acq 1<9, R rlx 0<0
    let events = [
        write(0, WriteMode::Rlx, 0),
        write(0, WriteMode::Rel, 1),
        read(1, ReadMode::Acq, 1, 9),
        read(1, ReadMode::Rlx, 0, 0),
    ];
    let mut leads = [0u8; 144];
    assert_eq!(rt; visibility(&events, &[], &mut leads), Ok(()));
    let sight = Sight {
        events: &events,
        leads: &leads,
    };
    assert!(rt; sight.is_visible(8, 11));
    assert!(rt; !sight.is_visible(11, 8));
    let mut cycle = [99u8; 64];
    assert_eq!(rt; sight.coherence_cycle(&mut cycle), Ok(Some(2)));
    assert_eq!(rt; [cycle[0], cycle[1], cycle[2]], [0, 8, 99]);
    assert_eq!(rt; sight.has_coherence_cycle(), Ok(true));
    assert_eq!(rt; sight.name_step(0, 8), named(Rule::Coww, UNUSED, UNUSED));
    assert_eq!(rt; sight.name_step(8, 0), named(Rule::Cowr, 11, UNUSED));
    // a write is no rival of itself, nor of a write of another location
    assert_eq!(rt; sight.name_step(8, 8), None);
    assert_eq!(rt; sight.name_step(8, 9), None);
}

#[test]
fn message_passing_with_a_relaxed_read(rt: HostRuntime) {
    // W rlx 0, W rel 1 | R rlx 1<9, R rlx 0<0
    let events = [
        write(0, WriteMode::Rlx, 0),
        write(0, WriteMode::Rel, 1),
        read(1, ReadMode::Rlx, 1, 9),
        read(1, ReadMode::Rlx, 0, 0),
    ];
    let mut leads = [0u8; 144];
    assert_eq!(rt; visibility(&events, &[], &mut leads), Ok(()));
    let sight = Sight {
        events: &events,
        leads: &leads,
    };
    let mut cycle = [99u8; 64];
    assert_eq!(rt; sight.coherence_cycle(&mut cycle), Ok(None));
    assert_eq!(rt; [cycle[0], cycle[1]], [99, 99]);
    assert_eq!(rt; sight.has_coherence_cycle(), Ok(false));
}

#[test]
fn store_buffering_by_either_order(rt: HostRuntime) {
    // W sc 0, R sc 1<1 | W sc 1, R sc 0<0: 8 and 10 push
    let events = [
        write(0, WriteMode::Sc, 0),
        read(0, ReadMode::Sc, 1, 1),
        write(1, WriteMode::Sc, 1),
        read(1, ReadMode::Sc, 0, 0),
    ];
    // the write that stands first, and the read that it is then visible to
    for (list, first, reader) in [([8, 10], 8, 11), ([10, 8], 10, 9)] {
        let mut leads = [0u8; 144];
        assert_eq!(rt; visibility(&events, &list, &mut leads), Ok(()));
        let sight = Sight {
            events: &events,
            leads: &leads,
        };
        assert!(rt; sight.is_visible(first, reader));
        assert!(rt; !sight.is_visible(18 - first, 20 - reader));
        assert_eq!(rt; sight.has_coherence_cycle(), Ok(true));
    }
    // a number that names no event is passed over
    let mut leads = [0u8; 144];
    assert_eq!(rt; visibility(&events, &[200], &mut leads), Ok(()));
    let sight = Sight {
        events: &events,
        leads: &leads,
    };
    assert_eq!(rt; sight.has_coherence_cycle(), Ok(false));
}

#[test]
fn a_step_by_corr_alone(rt: HostRuntime) {
    // W rlx 0 | R rlx 0<8, R rlx 0<0
    let events = [
        write(0, WriteMode::Rlx, 0),
        read(1, ReadMode::Rlx, 0, 8),
        read(1, ReadMode::Rlx, 0, 0),
    ];
    let mut leads = [0u8; 121];
    assert_eq!(rt; visibility(&events, &[], &mut leads), Ok(()));
    let sight = Sight {
        events: &events,
        leads: &leads,
    };
    assert!(rt; sight.coheres(8, 0));
    assert_eq!(rt; sight.name_step(8, 0), named(Rule::Corr, 9, 10));
    assert!(rt; sight.holds(Rule::Corr, 8, 0, 9, 10));
    assert!(rt; !sight.holds(Rule::Corr, 8, 0, 10, 9));
    assert!(rt; !sight.holds(Rule::Cowr, 8, 0, 10, UNUSED));
    let mut cycle = [99u8; 64];
    assert_eq!(rt; sight.coherence_cycle(&mut cycle), Ok(Some(2)));
}

#[test]
fn po_loc_is_not_chained(rt: HostRuntime) {
    // W rlx 1, W rel 0 | R rlx 0<9, W rlx 0 | R acq 0<11, R rlx 1<1
    let events = [
        write(0, WriteMode::Rlx, 1),
        write(0, WriteMode::Rel, 0),
        read(1, ReadMode::Rlx, 0, 9),
        write(1, WriteMode::Rlx, 0),
        read(2, ReadMode::Acq, 0, 11),
        read(2, ReadMode::Rlx, 1, 1),
    ];
    let mut leads = [0u8; 196];
    assert_eq!(rt; visibility(&events, &[], &mut leads), Ok(()));
    let sight = Sight {
        events: &events,
        leads: &leads,
    };
    assert!(rt; sight.is_visible(10, 11));
    assert!(rt; !sight.is_visible(8, 13));
    assert_eq!(rt; sight.has_coherence_cycle(), Ok(false));
    // a table of another size is refused
    let mut longer = [7u8; 195];
    assert_eq!(rt;
        draw_visibility(&events, &leads, &leads, &[], &mut longer),
        Err(Refusal::NotSquare)
    );
    assert_eq!(rt; longer[0], 7);
}
