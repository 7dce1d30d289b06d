// Each rule with a pair that holds and neighbours that do not, and three profiles side by side.
// Events count from 8; thread 0 unless told otherwise.
use graph::code::{Code, FenceMode, ReadMode, WriteMode};
use graph::event::Event;
use profiles::jam21::{Jam21, Rules};
use profiles::profile::Profile;
use profiles::strict::Strict;
use std::process::Abort;
use tso::Tso;

fn read(thread: u8, mode: ReadMode, location: u8) -> Event {
    Event::fresh(thread, Code::Read(mode), location, 0)
}

fn write(thread: u8, mode: WriteMode, location: u8) -> Event {
    Event::fresh(thread, Code::Write(mode), location, 1)
}

fn fence(mode: FenceMode) -> Event {
    Event::fresh(0, Code::Fence(mode), 0, 0)
}

// A pair, the rules that hold for it, and whether it is pushed.
#[derive(Clone, Copy)]
struct Row(u8, u8, Rules, bool);

const NONE: Rules = Rules {
    ra: false,
    svo: false,
    spush: false,
    volint: false,
};

const RA: Rules = Rules {
    ra: true,
    svo: false,
    spush: false,
    volint: false,
};

const SVO: Rules = Rules {
    ra: false,
    svo: true,
    spush: false,
    volint: false,
};

const SPUSH: Rules = Rules {
    ra: false,
    svo: false,
    spush: true,
    volint: false,
};

const RA_VOLINT: Rules = Rules {
    ra: true,
    svo: false,
    spush: false,
    volint: true,
};

fn check_rows(rt: &impl Abort, events: &[Event], rows: &[Row]) {
    for Row(a, b, rules, pushed) in rows.iter().copied() {
        assert_eq!(rt; Rules::of(events, a, b), rules);
        assert_eq!(rt; Jam21.keeps(events, a, b), rules != NONE);
        assert_eq!(rt; Jam21.pushes(events, a, b), pushed);
    }
}

#[test]
fn ra(rt: HostRuntime) {
    let events = [
        write(0, WriteMode::Rlx, 0),
        write(0, WriteMode::Rel, 1),
        read(0, ReadMode::Rlx, 0),
        fence(FenceMode::Rel),
        read(1, ReadMode::Acq, 1),
    ];
    let rows = [
        Row(8, 9, RA, false),
        Row(9, 10, RA, false),
        Row(8, 10, RA, false),
        Row(10, 11, NONE, false),
        // an initial write never counts itself
        Row(1, 8, NONE, false),
        Row(1, 9, RA, false),
        // neither does another thread, an event before itself, nor an absent one
        Row(11, 12, NONE, false),
        Row(9, 9, NONE, false),
        Row(9, 8, NONE, false),
        Row(9, 13, NONE, false),
        Row(255, 9, NONE, false),
    ];
    check_rows(&rt, &events, &rows);
}

#[test]
fn svo(rt: HostRuntime) {
    let events = [
        read(0, ReadMode::Rlx, 0),
        fence(FenceMode::Rel),
        write(0, WriteMode::Na, 0),
        fence(FenceMode::Acq),
        read(0, ReadMode::Rlx, 1),
    ];
    let rows = [
        Row(8, 12, SVO, false),
        Row(0, 12, SVO, false),
        Row(9, 12, NONE, false),
        Row(8, 11, NONE, false),
    ];
    check_rows(&rt, &events, &rows);
    // the acquire fence before the access
    let turned = [
        read(0, ReadMode::Rlx, 0),
        fence(FenceMode::Rel),
        fence(FenceMode::Acq),
        write(0, WriteMode::Na, 0),
        read(0, ReadMode::Rlx, 1),
    ];
    check_rows(&rt, &turned, &[Row(8, 12, NONE, false)]);
}

#[test]
fn spush(rt: HostRuntime) {
    let events = [
        fence(FenceMode::Acq),
        fence(FenceMode::Sc),
        read(0, ReadMode::Rlx, 1),
    ];
    let rows = [
        // the event before the sc fence pushes, a fence too, and the sc fence itself does not
        Row(8, 10, SPUSH, true),
        Row(8, 9, NONE, false),
        Row(9, 10, NONE, false),
        // an initial write is kept by the fence, and pushes nothing
        Row(0, 10, SPUSH, false),
    ];
    check_rows(&rt, &events, &rows);
}

#[test]
fn volint(rt: HostRuntime) {
    let events = [
        write(0, WriteMode::Sc, 0),
        read(0, ReadMode::Sc, 1),
        read(0, ReadMode::Acq, 1),
        fence(FenceMode::Sc),
    ];
    let rows = [
        Row(8, 9, RA_VOLINT, true),
        Row(9, 10, RA, false),
        Row(0, 8, RA, false),
        Row(9, 11, RA, false),
    ];
    check_rows(&rt, &events, &rows);
}

// Store buffering with a fence in one thread: strict, JAM21 and TSO, kept and then pushed.
#[test]
fn side_by_side(rt: HostRuntime) {
    let events = [
        write(0, WriteMode::Rlx, 0),
        fence(FenceMode::Sc),
        read(0, ReadMode::Rlx, 1),
        write(1, WriteMode::Rlx, 1),
        read(1, ReadMode::Rlx, 0),
        write(1, WriteMode::Rlx, 0),
    ];
    let rows = [
        (8, 10, [true, true, true], [true, true, true]),
        (8, 9, [true, false, true], [true, false, false]),
        (11, 12, [true, false, false], [true, false, false]),
        (12, 13, [true, false, true], [true, false, false]),
        (0, 10, [true, true, true], [false, false, false]),
        (0, 12, [true, false, false], [false, false, false]),
        (8, 12, [false, false, false], [false, false, false]),
        (8, 14, [false, false, false], [false, false, false]),
    ];
    for (a, b, kept, pushed) in rows {
        assert_eq!(rt;
            [
                Strict.keeps(&events, a, b),
                Jam21.keeps(&events, a, b),
                Tso.keeps(&events, a, b),
            ],
            kept
        );
        assert_eq!(rt;
            [
                Strict.pushes(&events, a, b),
                Jam21.pushes(&events, a, b),
                Tso.pushes(&events, a, b),
            ],
            pushed
        );
    }
}
