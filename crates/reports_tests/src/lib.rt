// Examples of what the program reads and writes.
#![tactic(auto)]

#[cfg(test)]
mod tests {
    use graph::call::Call;
    use graph::code::{Code, FenceMode, ReadMode, WriteMode};
    use graph::event::Event;
    use reports::drawing::draw;
    use reports::options::{BadOption, Input, Options, ProfileName};
    use reports::pairs::{RulePair, StrictPair};
    use reports::script::{BadLine, read_call};
    use std::test::Fail;
    use step_lists::step_list::{BadStep, StepList, read_step};

    #[test]
    fn calls_of_a_script(rt: HostRuntime) {
        let write = Call::Add {
            thread: 0,
            code: 5,
            location: 0,
            value: 1,
        };
        let fence = Call::Add {
            thread: 7,
            code: 10,
            location: 0,
            value: 0,
        };
        let source = Call::Source { read: 10, write: 9 };
        assert_eq!(rt; read_call("add 0 W rlx 0 1  # publishes"), Ok(Some(write)));
        assert_eq!(rt; read_call("  add 7 F sc"), Ok(Some(fence)));
        assert_eq!(rt; read_call("add 7 10"), Ok(Some(fence)));
        assert_eq!(rt; read_call("source 10 9"), Ok(Some(source)));
        assert_eq!(rt; read_call("back"), Ok(Some(Call::TakeBack)));
        assert_eq!(rt; read_call("# nothing"), Ok(None));
    }

    #[test]
    fn lines_that_are_no_call(rt: HostRuntime) {
        assert_eq!(rt; read_call("push 1"), Err(BadLine::UnknownCall));
        assert_eq!(rt; read_call("add 0 R rel 0"), Err(BadLine::UnknownCode));
        assert_eq!(rt; read_call("add 256 R rlx 0"), Err(BadLine::NotANumber));
        assert_eq!(rt; read_call("source 10"), Err(BadLine::MissingWord));
        assert_eq!(rt; read_call("back 1"), Err(BadLine::ExtraWord));
    }

    #[test]
    fn words_of_the_command_line(rt: HostRuntime) {
        let plain = Options::default();
        assert_eq!(rt;
            plain.with("--pairs"),
            Ok(Options {
                pairs: true,
                ..plain
            })
        );
        assert_eq!(rt;
            plain.with("--steps"),
            Ok(Options {
                input: Input::Steps,
                ..plain
            })
        );
        assert_eq!(rt;
            plain.with_profile("strict"),
            Ok(Options {
                profile: ProfileName::Strict,
                ..plain
            })
        );
        assert_eq!(rt; plain.with("--strict"), Err(BadOption::Unknown));
        assert_eq!(rt; plain.with_profile("java"), Err(BadOption::UnknownProfile));
    }

    #[test]
    fn steps_and_their_cycles(rt: HostRuntime) -> Result<(), Fail> {
        assert_eq!(rt; read_step("8 9 # program order"), Ok(Some((8, 9))));
        assert_eq!(rt; read_step(""), Ok(None));
        assert_eq!(rt; read_step("8 64"), Err(BadStep::TooHigh));
        assert_eq!(rt; read_step("8"), Err(BadStep::NotTwoNumbers));
        let mut list = StepList::new();
        list.add(8, 9)?;
        list.add(9, 8)?;
        list.add(9, 10)?;
        list.add(9, 10)?;
        assert_eq!(rt; list.count(), 3);
        assert!(rt; list.names(10) && !list.names(11));
        let through = list.shortest_cycles();
        assert_eq!(rt; through[8], Some(2));
        assert_eq!(rt; through[10], None);
        Ok(())
    }

    #[test]
    fn a_graph_is_drawn_by_threads(rt: HostRuntime) -> Result<(), Fail> {
        let mut read = Event::fresh(1, Code::Read(ReadMode::Acq), 0, 0);
        read.source = Some(8);
        let events = [
            Event::fresh(0, Code::Write(WriteMode::Rel), 0, 7),
            read,
            Event::fresh(1, Code::Fence(FenceMode::Sc), 0, 0),
            Event::fresh(1, Code::Read(ReadMode::Na), 3, 0),
        ];
        let drawing = draw(rt.alloc(), &events)?;
        assert!(rt;
            drawing.as_str()
                == "thread 0                    thread 1
8 W rel x0 = 7              9 R acq x0 = 7 from 8
                            10 F sc
                            11 R na x3 = 0 from 3
"
        );
        let Some(pair) = RulePair::of(&events, 9, 11) else {
            return Err(Fail::new("9 is kept before 11"));
        };
        let words = format!(in rt.alloc(); "{pair}")?;
        assert!(rt; words.as_str() == "9 -> 11 kept by ra spush, pushed");
        Ok(())
    }

    // Numbers end at 255: the events behind it are drawn with that number, and none is left out.
    #[test]
    fn more_events_than_numbers_are_drawn(rt: HostRuntime) -> Result<(), Fail> {
        let events = [Event::fresh(0, Code::Write(WriteMode::Rlx), 0, 1); 250];
        let drawing = draw(rt.alloc(), &events)?;
        assert_eq!(rt; drawing.as_str().lines().count(), 251);
        Ok(())
    }

    #[test]
    fn words_of_a_strict_pair(rt: HostRuntime) -> Result<(), Fail> {
        let events = [Event::fresh(0, Code::Fence(FenceMode::Sc), 0, 0); 2];
        let Some(pair) = StrictPair::of(&events, 8, 9) else {
            return Err(Fail::new("8 precedes 9"));
        };
        let words = format!(in rt.alloc(); "{}: {pair}", ProfileName::Strict)?;
        assert!(rt; words.as_str() == "strict: 8 -> 9 kept, pushed");
        Ok(())
    }
}
