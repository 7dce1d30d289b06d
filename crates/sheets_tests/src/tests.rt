// A sheet read and written, every refusal of its layout, and sections cut at each length.
use axioms::rule::Rule;
use graph::refusal::{Refusal, Refused};
use sections::{Cut, Section};
use sheets::reading::read_layout;
use sheets::step::{NO_READER, Step};
use sheets::verdict::Verdict;
use sheets::writing::write_sheet;
use std::process::Abort;
use std::test::Fail;

// How many events the graph of the tests has: the initial writes and four more.
const PRESENT: u8 = 12;

// A stale read after a release and an acquire: 0 comes before 8 by coww, and 8 before 0 by cowr, since 11 reads 0.
const STALE_READ: [u8; 13] = [2, 0, 2, 0, 8, 3, 255, 255, 8, 0, 4, 11, 255];

const THERE: Step = Step {
    from: 0,
    to: 8,
    rule: Rule::Coww,
    reader: NO_READER,
    second: NO_READER,
};

const BACK: Step = Step {
    from: 8,
    to: 0,
    rule: Rule::Cowr,
    reader: 11,
    second: NO_READER,
};

fn broken(section: u8, entry: u8) -> Refused {
    Refused {
        refusal: Refusal::BadLayout,
        section,
        entry,
    }
}

#[test]
fn known_sheet(rt: HostRuntime) -> Result<(), Fail> {
    let layout = read_layout(&STALE_READ, PRESENT)?;
    assert_eq!(rt; layout.verdict, Verdict::CoherenceCycle);
    assert_eq!(rt; layout.order.len(), 0);
    assert_eq!(rt; layout.count(), 2);
    assert_eq!(rt; layout.step(0), Some(THERE));
    assert_eq!(rt; layout.step(1), Some(BACK));
    assert_eq!(rt; layout.step(2), None);

    let mut buffer = [9; 384];
    let length = write_sheet(Verdict::CoherenceCycle, &[], &[THERE, BACK], &mut buffer)?;
    assert_eq!(rt; length, 13);
    assert_eq!(rt; &buffer[0..13], &STALE_READ[..]);
    assert_eq!(rt; buffer[13], 9);
    Ok(())
}

// The bytes are refused for their layout, at this section and this entry.
fn refused(rt: &impl Abort, bytes: &[u8], section: u8, entry: u8) {
    assert_eq!(rt;
        read_layout(bytes, PRESENT).err(),
        Some(broken(section, entry))
    );
}

fn passes(rt: &impl Abort, bytes: &[u8]) {
    assert_eq!(rt; read_layout(bytes, PRESENT).err(), None);
}

#[test]
fn cut_at_each_length(rt: HostRuntime) {
    let places = [
        Some((0, 0)),
        Some((1, 0)),
        Some((2, 0)),
        Some((2, 1)),
        Some((2, 1)),
        Some((2, 1)),
        Some((2, 1)),
        Some((2, 1)),
        Some((2, 2)),
        Some((2, 2)),
        Some((2, 2)),
        Some((2, 2)),
        Some((2, 2)),
        None,
    ];
    let sheet: &[u8] = &STALE_READ;
    for length in 0..14 {
        let blamed = match places[length] {
            Some((section, entry)) => Some(broken(section, entry)),
            None => None,
        };
        assert_eq!(rt; read_layout(&sheet[0..length], PRESENT).err(), blamed);
    }
}

#[test]
fn verdicts_cuts_and_counts(rt: HostRuntime) {
    refused(&rt, &[3, 0, 0], 0, 0);
    refused(&rt, &[255], 0, 0);
    // The push order, of which the second entry is missing; what it lists is no matter.
    refused(&rt, &[0, 2, 8], 1, 2);
    refused(&rt, &[0, 1, 8], 2, 0);
    passes(&rt, &[0, 2, 200, 200, 0]);
    // A clear sheet has no steps, and any other has some. Cuts are sought first, bytes behind the sheet last.
    refused(&rt, &[0, 0, 1, 0, 8, 3, 255, 255], 2, 0);
    refused(&rt, &[0, 0, 1], 2, 1);
    refused(&rt, &[1, 0, 0], 2, 0);
    refused(&rt, &[2, 0, 0, 7], 2, 0);
    refused(&rt, &[0, 0, 0, 7], 0, 0);
    passes(&rt, &[0, 0, 0]);
}

#[test]
fn faulty_steps(rt: HostRuntime) {
    // Ends that name no event.
    refused(&rt, &[2, 0, 2, 12, 8, 3, 255, 255, 8, 12, 4, 11, 255], 2, 1);
    refused(&rt, &[2, 0, 2, 0, 12, 3, 255, 255, 12, 0, 4, 11, 255], 2, 1);
    refused(&rt, &[2, 0, 2, 0, 8, 3, 255, 255, 8, 255, 4, 11, 255], 2, 2);
    // Rules of no verdict, and of the other.
    refused(&rt, &[2, 0, 2, 0, 8, 0, 255, 255, 8, 0, 4, 11, 255], 2, 1);
    refused(&rt, &[2, 0, 2, 0, 8, 3, 255, 255, 8, 0, 7, 11, 255], 2, 2);
    refused(&rt, &[2, 0, 2, 0, 8, 2, 255, 255, 8, 0, 4, 11, 255], 2, 1);
    refused(&rt, &[1, 0, 2, 0, 8, 1, 255, 255, 8, 0, 3, 255, 255], 2, 2);
    passes(&rt, &[1, 0, 2, 0, 8, 1, 255, 255, 8, 0, 2, 255, 255]);
    // Readers: one that is named is present, and any other is 255.
    refused(&rt, &[2, 0, 2, 0, 8, 3, 11, 255, 8, 0, 4, 11, 255], 2, 1);
    refused(&rt, &[2, 0, 2, 0, 8, 3, 255, 0, 8, 0, 4, 11, 255], 2, 1);
    refused(&rt, &[2, 0, 2, 0, 8, 3, 255, 255, 8, 0, 4, 12, 255], 2, 2);
    refused(&rt, &[2, 0, 2, 0, 8, 3, 255, 255, 8, 0, 5, 255, 255], 2, 2);
    refused(&rt, &[2, 0, 2, 0, 8, 3, 255, 255, 8, 0, 4, 11, 10], 2, 2);
    refused(&rt, &[2, 0, 2, 0, 8, 3, 255, 255, 8, 0, 6, 10, 255], 2, 2);
    passes(&rt, &[2, 0, 2, 0, 8, 3, 255, 255, 8, 0, 6, 10, 11]);
}

#[test]
fn broken_chains(rt: HostRuntime) {
    refused(&rt, &[2, 0, 2, 0, 9, 3, 255, 255, 8, 0, 4, 11, 255], 2, 1);
    // The next start is absent too: the step before it is blamed.
    refused(&rt, &[2, 0, 2, 0, 8, 3, 255, 255, 12, 0, 4, 11, 255], 2, 1);
    refused(&rt, &[2, 0, 2, 0, 8, 3, 255, 255, 8, 1, 4, 11, 255], 2, 2);
    // A start that comes twice blames the later step.
    refused(
        &rt,
        &[
            2, 0, 3, 0, 8, 3, 255, 255, 8, 0, 4, 11, 255, 0, 0, 3, 255, 255,
        ],
        2,
        3,
    );
    // Bytes behind the sheet are sought after the steps.
    refused(
        &rt,
        &[2, 0, 2, 0, 8, 3, 255, 255, 8, 0, 4, 11, 255, 0],
        0,
        0,
    );
    refused(
        &rt,
        &[2, 0, 2, 0, 8, 3, 255, 255, 8, 1, 4, 11, 255, 0],
        2,
        2,
    );
    // One step from an event to itself is a chain, by its layout.
    passes(&rt, &[2, 0, 1, 8, 8, 3, 255, 255]);
}

#[test]
fn room_to_write(rt: HostRuntime) {
    let short = Err(Refused::plain(Refusal::BufferTooShort));
    let mut buffer = [9; 384];
    assert_eq!(rt;
        write_sheet(Verdict::Clear, &[], &[], &mut buffer[0..383]),
        short
    );
    assert_eq!(rt;
        write_sheet(Verdict::Clear, &[8; 57], &[], &mut buffer),
        short
    );
    assert_eq!(rt;
        write_sheet(Verdict::CoherenceCycle, &[], &[THERE; 65], &mut buffer),
        short
    );
    assert_eq!(rt; buffer, [9; 384]);
    assert_eq!(rt;
        write_sheet(Verdict::CoherenceCycle, &[8; 56], &[THERE; 64], &mut buffer),
        Ok(379)
    );
    assert_eq!(rt;
        [buffer[0], buffer[1], buffer[57], buffer[58]],
        [2, 56, 8, 64]
    );
    assert_eq!(rt; [buffer[374], buffer[378], buffer[379]], [0, 255, 9]);
}

#[test]
fn sections(rt: HostRuntime) {
    let bytes = [9, 2, 5, 6, 7];
    assert_eq!(rt;
        Section::cut(&bytes, 1, 1),
        Ok(Section { count: 2, end: 4 })
    );
    assert_eq!(rt;
        Section::cut(&bytes, 1, 0),
        Ok(Section { count: 2, end: 2 })
    );
    assert_eq!(rt; Section::cut(&bytes, 1, 2), Err(Cut::InEntry(2)));
    assert_eq!(rt; Section::cut(&bytes, 1, usize::MAX), Err(Cut::InEntry(1)));
    assert_eq!(rt; Section::cut(&bytes, 5, 1), Err(Cut::NoCount));
    assert_eq!(rt; Section::cut(&bytes, usize::MAX, 1), Err(Cut::NoCount));
    assert_eq!(rt; [Cut::NoCount.entry(), Cut::InEntry(2).entry()], [0, 2]);
}
