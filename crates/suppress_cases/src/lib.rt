// The worked grids from their texts to their pages: each text is composed into a deposit, which the job then loads.
#![tactic(auto)]

#[cfg(test)]
mod tests {
    use composing::compose_text;
    use job::suppressing::suppress;
    use std::alloc::Global;
    use std::test::Fail;

    const GRID_A: &str =
        "grid 2 2 p 20\n0 1 150\n0 2 40\n0 3 10\n1 4 1\n1 5 1\n1 6 1\n1 7 1\n1 8 1\n1 9 1\n1 10 1\n1 11 1\n1 12 1\n1 13 1\n1 14 1\n1 15 1\n1 16 1\n1 17 1\n1 18 1\n1 19 1\n1 20 1\n1 21 1\n1 22 1\n1 23 1\n3 24 25\n3 25 25\n3 26 25\n3 27 25\n4 28 75\n4 29 75\n4 30 75\n4 31 75\n";

    const GRID_B: &str =
        "grid 2 2 p 20\n0 1 150\n0 2 40\n0 3 10\n1 4 1\n1 5 1\n1 6 1\n1 7 1\n1 8 1\n1 9 1\n1 10 1\n1 11 1\n1 12 1\n1 13 1\n1 14 1\n1 15 1\n1 16 1\n1 17 1\n1 18 1\n1 19 1\n1 20 1\n1 21 1\n1 22 1\n3 24 25\n3 25 25\n3 26 25\n3 27 25\n4 28 75\n4 29 75\n4 30 75\n4 31 75\n";

    const PAGE_A: &str =
        "0000             D\n0001             D\n0002           220\n0003             D\n0004             D\n0005           400\n0006           300\n0007           320\n0008           620\n";

    const PAGE_B: &str =
        "0000             D\n0001            19\n0002             D\n0003             D\n0004           300\n0005             D\n0006           300\n0007           319\n0008           619\n";

    fn page_of(heap: Global, text: &str) -> Result<Vec<u8>, Fail> {
        let input = compose_text(heap, text.as_bytes()).map_err(|_| Fail::new("no deposit"))?;
        suppress(heap, &input).map_err(|_| Fail::new("refused"))
    }

    #[test]
    fn grids(rt: HostRuntime) -> Result<(), Fail> {
        let a = page_of(rt.alloc(), GRID_A)?;
        assert!(rt; a.as_slice() == PAGE_A.as_bytes());
        let b = page_of(rt.alloc(), GRID_B)?;
        assert!(rt; b.as_slice() == PAGE_B.as_bytes());
        Ok(())
    }
}
