// Works the bench figures out and prints each thing it did.
#![tactic(auto)]

mod exhibited_report;
mod interleaving_report;
mod maps_report;
mod orders_report;
mod store_report;
mod traces_report;

use figures::figures::figures_that_hold;

fn main(rt: HostRuntime) -> anyhow::Result<()> {
    orders_report::report(&rt)?;
    maps_report::report(&rt)?;
    traces_report::report(&rt)?;
    interleaving_report::report(&rt)?;
    exhibited_report::report(&rt)?;
    store_report::report(&rt)?;
    let count = figures_that_hold();
    println!(rt; "figures proved of the definitions: {count}")?;
    Ok(())
}
