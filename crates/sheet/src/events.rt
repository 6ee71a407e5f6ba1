// What an act does to one cell.

#[derive(Clone, Copy)]
pub(crate) enum Event {
    // a withhold lists the cell
    Listed,
    // a withhold does not list it
    Unlisted,
    // a search leaves it withheld
    Added,
    // a page is printed
    PagePrinted,
}
