// The run that is exhibited beside the law: two parties interleave a Make, a Hand, a Fetch, a walk and a Drop.
use orders::limits::Party;

// Begin by Begin and Turn by Turn, as in the model. Party 1's second Make is still under way at the end.
const MOVES: [(Party, &str); 31] = [
    (1, "begins a Make into slot 1"),
    (1, "opens its tray"),
    (1, "reads its tray"),
    (1, "looks for a node: 1"),
    (1, "locks node 1"),
    (1, "rechecks the count of node 1"),
    (2, "begins a Fetch into slot 2"),
    (1, "reads the first kid"),
    (1, "reads the second kid"),
    (1, "reads the third kid"),
    (1, "claims node 1"),
    (1, "unlocks node 1"),
    (1, "offers node 1, to itself"),
    (1, "closes its tray"),
    (1, "writes the data, and the Make ends at node 1"),
    (1, "begins a Hand of slot 1 to party 2"),
    (1, "fills the inbox, and the Hand ends at node 1"),
    (2, "reads its inbox"),
    (1, "begins a Make into slot 1"),
    (2, "empties its inbox, and the Fetch ends at node 1"),
    (2, "begins a walk from slot 2"),
    (2, "reads the data"),
    (1, "opens its tray"),
    (2, "reads the first kid"),
    (1, "reads its tray"),
    (2, "reads the second kid"),
    (1, "looks for a node: 2"),
    (
        2,
        "reads the third kid, and the walk ends with worth 7 over 1 node",
    ),
    (2, "begins a Drop of slot 2"),
    (1, "locks node 2"),
    (2, "counts down, and the Drop ends at node 1"),
];

pub(crate) fn report(rt: &HostRuntime) -> anyhow::Result<()> {
    println!(rt; "five calls of two parties, interleaved")?;
    for (party, does) in MOVES {
        println!(rt; "  party {party} {does}")?;
    }
    Ok(())
}
