use kinds::gearbox::Situation;
use kinds::kids::PerKid;
use kinds::kind::Kind;
use kinds::traces::{TraceData, Traces, Worst};

pub(crate) fn report(rt: &HostRuntime) -> anyhow::Result<()> {
    println!(rt; "fault traces")?;
    let kid = Worst {
        severity: 2,
        hour: 30,
    };
    worst(
        rt,
        TraceData {
            severity: 4,
            hour: 10,
        },
        kid,
    )?;
    worst(
        rt,
        TraceData {
            severity: 10,
            hour: 10,
        },
        kid,
    )
}

fn worst(rt: &HostRuntime, data: TraceData, kid: Worst) -> anyhow::Result<()> {
    let mut kids = PerKid::all(Traces::blank());
    kids.first = kid;
    println!(rt;
        "  severity {}, hour {} over {kid}: {}",
        data.severity,
        data.hour,
        Traces::work_out(data, Situation::new(0, 1, 20)?, kids)
    )?;
    Ok(())
}
