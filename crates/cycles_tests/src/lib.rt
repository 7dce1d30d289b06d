// Examples for cycles.
#![tactic(auto)]

#[cfg(test)]
mod tests {
    use cycles::exists::has_cycle;
    use cycles::shortest::shortest_cycle;
    use measures::settling::Refusal;
    use std::test::Fail;

    // The answer for four vertices, and the first four entries of a buffer that held nines.
    fn of_four(steps: &[u8; 16]) -> (Result<Option<usize>, Refusal>, [u8; 4]) {
        let mut cycle = [9; 64];
        let answer = shortest_cycle(steps, 4, &mut cycle);
        (answer, [cycle[0], cycle[1], cycle[2], cycle[3]])
    }

    #[test]
    fn small_tables(rt: HostRuntime) {
        // 0 -> 1 -> 2 -> 3 -> 0, and 3 -> 1: the shorter of two.
        let two = [0, 1, 0, 0, 0, 0, 7, 0, 0, 0, 0, 255, 1, 1, 0, 0];
        assert_eq!(rt; of_four(&two), (Ok(Some(3)), [1, 2, 3, 9]));
        // 2 -> 1 -> 2 and 2 -> 3 -> 2: the first of two that are as short.
        let same = [0, 0, 0, 0, 0, 0, 1, 0, 0, 1, 0, 1, 0, 0, 1, 0];
        assert_eq!(rt; of_four(&same), (Ok(Some(2)), [1, 2, 9, 9]));
        // 0 -> 1 -> 0, and a step from 3 to itself.
        let own = [0, 1, 0, 0, 1, 0, 0, 0, 0, 0, 0, 0, 0, 0, 0, 1];
        assert_eq!(rt; of_four(&own), (Ok(Some(1)), [3, 9, 9, 9]));
        // 0 -> 1 -> 3 and 0 -> 2 -> 3.
        let none = [0, 1, 1, 0, 0, 0, 0, 1, 0, 0, 0, 1, 0, 0, 0, 0];
        assert_eq!(rt; of_four(&none), (Ok(None), [9, 9, 9, 9]));
    }

    #[test]
    fn whether_there_is_one(rt: HostRuntime) {
        let mut chain = [0, 1, 0, 0, 0, 1, 0, 0, 0];
        assert_eq!(rt; has_cycle(&mut chain, 3), Ok(false));
        assert_eq!(rt; chain, [0, 1, 1, 0, 0, 1, 0, 0, 0]);
        let mut ring = [0, 1, 0, 0, 0, 1, 1, 0, 0];
        assert_eq!(rt; has_cycle(&mut ring, 3), Ok(true));
        assert_eq!(rt; ring, [1; 9]);
    }

    #[test]
    fn a_cycle_of_64(rt: HostRuntime) -> Result<(), Fail> {
        let mut ring = [0; 4096];
        for v in 0..64usize {
            ring[v * 64 + (v + 1) % 64] = 1;
        }
        let mut cycle = [9; 64];
        assert_eq!(rt; shortest_cycle(&ring, 64, &mut cycle), Ok(Some(64)));
        assert_eq!(rt; [cycle[0], cycle[1], cycle[62], cycle[63]], [0, 1, 62, 63]);
        assert_eq!(rt; has_cycle(&mut ring, 64), Ok(true));
        Ok(())
    }

    #[test]
    fn sides_at_the_edges(rt: HostRuntime) {
        let mut none: [u8; 0] = [];
        let mut cycle = [9; 64];
        assert_eq!(rt; shortest_cycle(&none, 0, &mut cycle), Ok(None));
        assert_eq!(rt; has_cycle(&mut none, 0), Ok(false));
        let mut large = [1; 4225];
        assert_eq!(rt;
            shortest_cycle(&large, 65, &mut cycle),
            Err(Refusal::NotSquare)
        );
        assert_eq!(rt; has_cycle(&mut large, 65), Err(Refusal::NotSquare));
        let mut short = [0, 1, 0];
        assert_eq!(rt;
            shortest_cycle(&short, 2, &mut cycle),
            Err(Refusal::NotSquare)
        );
        assert_eq!(rt; has_cycle(&mut short, 2), Err(Refusal::NotSquare));
        assert_eq!(rt; short, [0, 1, 0]);
        assert_eq!(rt; cycle, [9; 64]);
    }
}
