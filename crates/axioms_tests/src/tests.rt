// Litmus graphs: which events push, which lists are push orders and lawful, and source cycles. Events count from 8.
use axioms::pairs::Pairs;
use axioms::source_cycle::source_cycle;
use axioms::source_reach::SourceReach;
use graph::code::{Code, FenceMode, ReadMode, WriteMode};
use graph::event::Event;
use measures::settling::Refusal;
use profiles::jam21::Jam21;
use profiles::profile::Profile;
use profiles::strict::Strict;
use std::process::Abort;
use std::test::Fail;

fn write(thread: u8, location: u8) -> Event {
    Event::fresh(thread, Code::Write(WriteMode::Rlx), location, 1)
}

fn fence(thread: u8, mode: FenceMode) -> Event {
    Event::fresh(thread, Code::Fence(mode), 0, 0)
}

fn read(thread: u8, location: u8, source: u8) -> Event {
    Event {
        thread,
        code: Code::Read(ReadMode::Rlx),
        location,
        value: 0,
        source: Some(source),
    }
}

fn check_pushing(rt: &impl Abort, pairs: &Pairs, expected: &[u8]) {
    let mut list = [99; 64];
    let count = pairs.pushing(&mut list);
    assert_eq!(rt; &list[0..count], expected);
    assert!(rt; list[63] == 99);
    assert_eq!(rt; pairs.count_pushing(), expected.len());
}

#[test]
fn store_buffering_with_sc_fences(rt: HostRuntime) -> Result<(), Fail> {
    let events = [
        write(0, 0),
        fence(0, FenceMode::Sc),
        read(0, 1, 1),
        write(1, 1),
        fence(1, FenceMode::Sc),
        read(1, 0, 0),
    ];
    let pairs = Pairs::ask(&Jam21, &events)?;
    // The events before the fences push, and not the fences.
    check_pushing(&rt, &pairs, &[8, 11]);
    assert!(rt; !pairs.pushes(9));
    assert!(rt; !pairs.pushes(200));
    for order in [[8, 11], [11, 8]] {
        assert!(rt; pairs.is_push_order(&order));
    }
    for list in [[8, 8], [9, 11], [8, 200]] {
        assert!(rt; !pairs.is_push_order(&list));
    }
    assert!(rt; !pairs.is_push_order(&[8]));
    assert!(rt; !pairs.is_push_order(&[8, 11, 8]));
    assert!(rt; !pairs.is_push_order(&[8; 70]));
    let reach = SourceReach::of(&events)?;
    assert!(rt; reach.is_lawful(&[8, 11]));
    assert!(rt; reach.is_lawful(&[11, 8]));
    assert!(rt; !reach.has_cycle());
    Ok(())
}

#[test]
fn a_fence_pushes(rt: HostRuntime) -> Result<(), Fail> {
    let events = [
        fence(0, FenceMode::Acq),
        fence(0, FenceMode::Sc),
        read(0, 0, 0),
    ];
    let pairs = Pairs::ask(&Jam21, &events)?;
    check_pushing(&rt, &pairs, &[8]);
    assert!(rt; pairs.side() == 11);
    let (kept, pushed) = (pairs.kept(), pairs.pushed());
    assert!(rt; kept.len() == 121 && pushed.len() == 121);
    // 8 to 10 is pushed; the initial write 0 is kept before 10, and not pushed.
    assert_eq!(rt; [kept[98], pushed[98]], [1, 1]);
    assert_eq!(rt; [kept[10], pushed[10]], [1, 0]);
    Ok(())
}

#[test]
fn message_passing(rt: HostRuntime) -> Result<(), Fail> {
    let events = [write(0, 0), write(0, 1), read(1, 1, 9), read(1, 0, 0)];
    let pairs = Pairs::ask(&Strict, &events)?;
    check_pushing(&rt, &pairs, &[8, 10]);
    let reach = SourceReach::of(&events)?;
    assert!(rt; reach.leads(8, 11));
    assert!(rt; reach.leads(0, 8));
    assert!(rt; !reach.leads(11, 8));
    assert!(rt; !reach.leads(8, 8));
    assert!(rt; !reach.leads(200, 8));
    // A push order that is not lawful: 8 reaches 10 through the read of 9.
    assert!(rt; pairs.is_push_order(&[10, 8]));
    assert!(rt; !reach.is_lawful(&[10, 8]));
    assert!(rt; reach.is_lawful(&[8, 10]));
    assert!(rt; reach.is_lawful(&[]));
    let mut cycle = [99; 64];
    assert_eq!(rt; source_cycle(&events, &mut cycle), Ok(None));
    assert_eq!(rt; cycle, [99; 64]);
    Ok(())
}

#[test]
fn load_buffering(rt: HostRuntime) -> Result<(), Fail> {
    let events = [read(0, 0, 11), write(0, 1), read(1, 1, 9), write(1, 0)];
    let mut cycle = [99; 64];
    assert_eq!(rt; source_cycle(&events, &mut cycle), Ok(Some(4)));
    assert_eq!(rt; &cycle[0..5], [8, 9, 10, 11, 99].as_slice());
    assert!(rt; SourceReach::of(&events)?.has_cycle());
    Ok(())
}

#[test]
fn at_most_56_events(rt: HostRuntime) -> Result<(), Fail> {
    let events = [write(0, 0); 57];
    let most = &events[0..56];
    // In one thread every event but the last pushes under the strict profile.
    assert_eq!(rt; Pairs::ask(&Strict, most)?.count_pushing(), 55);
    assert!(rt; SourceReach::of(most)?.side() == 64);
    let mut cycle = [99; 64];
    assert_eq!(rt; source_cycle(most, &mut cycle), Ok(None));
    assert_eq!(rt; source_cycle(&events, &mut cycle), Err(Refusal::NotSquare));
    assert!(rt; Pairs::ask(&Strict, &events).is_err());
    assert!(rt; SourceReach::of(&events).is_err());
    Ok(())
}
