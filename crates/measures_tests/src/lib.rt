// Examples for the measures and for settling.
#![tactic(auto)]

#[cfg(test)]
mod tests {
    use measures::measure::Measure;
    use measures::reach::{YesNo, settle_reach};
    use measures::settling::{Refusal, settle};
    use measures::steps::{StepCount, settle_steps};
    use measures::table::Table;
    use std::test::Fail;

    const NO: u8 = 255;

    #[test]
    fn a_small_table_of_steps(rt: HostRuntime) {
        // 0 -> 1 -> 2 -> 0, with a long way from 0 to 2 that is not taken.
        let mut cells = [NO, 1, 9, NO, NO, 2, 60, NO, NO];
        assert_eq!(rt; settle_steps(&mut cells, 3), Ok(()));
        assert_eq!(rt; cells, [63, 1, 3, 62, 63, 2, 60, 61, 63]);
    }

    #[test]
    fn a_small_table_of_yes_and_no(rt: HostRuntime) {
        let mut cells = [0, 1, 0, 0, 0, 7, 0, 0, 0];
        assert_eq!(rt; settle_reach(&mut cells, 3), Ok(()));
        assert!(rt; cells[2] != 0);
        assert!(rt; cells[0] == 0 && cells[3] == 0 && cells[6] == 0);
    }

    #[test]
    fn a_sum_above_64_means_none(rt: HostRuntime) {
        let mut cells = [NO, 40, NO, NO, NO, 25, NO, NO, NO];
        assert_eq!(rt; settle::<StepCount>(&mut cells, 3), Ok(()));
        assert!(rt; cells[2] > 64);
        assert!(rt; StepCount::same(cells[2], StepCount::NONE));
        cells[5] = 24;
        assert_eq!(rt; settle::<StepCount>(&mut cells, 3), Ok(()));
        assert_eq!(rt; cells[2], 64);
    }

    #[test]
    fn sides_at_the_edges(rt: HostRuntime) -> Result<(), Fail> {
        let mut none: [u8; 0] = [];
        assert_eq!(rt; settle_reach(&mut none, 0), Ok(()));
        let mut one = [1];
        assert_eq!(rt; settle_steps(&mut one, 1), Ok(()));
        assert_eq!(rt; one, [1]);
        let mut ring = [NO; 4096];
        for v in 0..64usize {
            ring[v * 64 + (v + 1) % 64] = 1;
        }
        assert_eq!(rt; settle_steps(&mut ring, 64), Ok(()));
        assert_eq!(rt; ring[0], 64);
        assert_eq!(rt; ring[63], 63);
        Ok(())
    }

    #[test]
    fn tables_that_are_not_square_are_refused(rt: HostRuntime) {
        let mut large = [1; 4225];
        assert_eq!(rt; settle_steps(&mut large, 65), Err(Refusal::NotSquare));
        let mut short = [1, NO, 1];
        assert_eq!(rt; settle_reach(&mut short, 2), Err(Refusal::NotSquare));
        assert_eq!(rt; short, [1, NO, 1]);
        assert_eq!(rt; Refusal::NotSquare.number(), 15);
    }

    #[test]
    fn a_table_over_lent_memory(rt: HostRuntime) {
        let mut cells = [0; 4];
        let mut table = Table::<YesNo>::new(&mut cells, 2);
        assert!(rt; table.put(0, 1, 1) && table.put(1, 1, 1));
        assert!(rt; !table.put(0, 2, 1) && !table.put(2, 0, 1));
        assert_eq!(rt; table.at(1, 0), Some(0));
        assert_eq!(rt; table.at(2, 1), None);
        assert_eq!(rt; table.settle(), Ok(()));
        assert_eq!(rt; table.at(0, 1), Some(1));
        assert_eq!(rt; table.side(), 2);
    }
}
