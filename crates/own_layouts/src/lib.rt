// An association's own layout, written against the trait as any association may, and what admission says of layouts at its limits.
#![tactic(auto)]

pub mod districts;

#[cfg(test)]
mod tests {
    use crate::districts::Districts;
    use layouts::Layout;
    use layouts::admission::admit;
    use layouts::grid::Grid;
    use layouts::listing::Listing;
    use refusals::Refusal;
    use std::alloc::Global;

    // The number of the refusal that making the layout or admitting it met, or 0.
    fn met<L: Layout + Drop>(heap: Global, made: Result<L, Refusal>) -> usize {
        made.and_then(|layout| admit(heap, &layout))
            .map_or_else(|refusal| refusal.number(), |_| 0)
    }

    #[test]
    fn grids(rt: HostRuntime) {
        let heap = rt.alloc();
        assert_eq!(rt; met(heap, Grid::new(15, 31)), 0);
        assert_eq!(rt; met(heap, Grid::new(16, 31)), 3);
        assert_eq!(rt; met(heap, Grid::new(0, 5)), 1);
        assert_eq!(rt; met(heap, Grid::new(32, 1)), 1);
    }

    #[test]
    fn lists(rt: HostRuntime) {
        let heap = rt.alloc();
        assert_eq!(rt; met(heap, Listing::new(511)), 0);
        assert_eq!(rt; met(heap, Listing::new(512)), 3);
        assert_eq!(rt; met(heap, Listing::new(1024)), 1);
    }

    // 126 districts have 128 relations, and 127 have 129; both have fewer than 512 cells.
    #[test]
    fn relations(rt: HostRuntime) {
        let heap = rt.alloc();
        assert_eq!(rt; met(heap, Districts::new(126, 3)), 0);
        assert_eq!(rt; met(heap, Districts::new(127, 3)), 3);
    }
}
