ghost use Rattle.std.specs.Prelude.{◌≡◌, ◌<◌, if◌then◌else◌, Some};
ghost use Rattle.std.proofs.Common.{ap, rules};
ghost use Rattle.kinds.specs.Traces.{trace_fits, no_trace, worst_of, trace_worth, trace_bytes, trace_from, TraceStorable, worst_text};
ghost use Rattle.kinds.specs.FirstKids.{first_kids};
ghost use Rattle.kinds.specs.Words.{bytes_of_value};

use crate::gearbox::Situation;
use crate::kids::PerKid;
use crate::kind::Kind;
use std::fmt;

// The data of one node of a fault trace.
#[derive(Clone, Copy, Debug, PartialEq, Eq)]
pub struct TraceData {
    pub severity: u8,
    pub hour: u32,
}

// The worst that stands in a trace: the greatest severity and the latest hour.
#[derive(Clone, Copy, Debug, PartialEq, Eq)]
pub struct Worst {
    pub severity: u8,
    pub hour: u32,
}

impl fmt::Display for Worst {
    ghost output = { λ worst. Some (worst_text worst) };

    fn fmt<W: fmt::Write>(&self, f: &mut fmt::Formatter<W>) -> fmt::Result {
        write!(f, "severity {}, hour {}", self.severity, self.hour)
    }
}

// The kind of fault traces.
#[derive(Clone, Copy, Debug, PartialEq, Eq)]
pub struct Traces;

const GREATEST_SEVERITY: u8 = 9;

const LATEST_HOUR: u32 = 2_000_000;

impl Kind for Traces {
    type Data = TraceData;

    type Worth = Worst;

    ghost suits = { λ d _. trace_fits d };

    ghost worth = { trace_worth };

    ghost none = { no_trace };

    ghost bytes = { trace_bytes };

    ghost restored = { trace_from };

    ghost storable = { TraceStorable };

    ghost unfit_is_blank = { λ d s a b c h. ap (λ t. (if t then worst_of d a b c else no_trace)) (h (first_kids 0)) };

    ghost data_comes_back = { Prim.search rules };

    ghost bytes_come_back = { λ byte word small is. ap (λ w. (byte, w)) (bytes_of_value word is) };

    fn blank() -> Worst {
        Worst {
            severity: 0,
            hour: 0,
        }
    }

    fn fits(d: TraceData, _given: PerKid<bool>) -> bool {
        in_limits(d)
    }

    fn work_out(d: TraceData, s: Situation, kids: PerKid<Worst>) -> Worst
        ensures { result ≡ trace_worth d s kids.first kids.second kids.third }
    {
        if in_limits(d) {
            worst_of(d, kids)
        } else {
            Self::blank()
        }
    }

    fn to_bytes(d: TraceData) -> (u8, [u8; 4]) {
        (d.severity, d.hour.to_be_bytes())
    }

    fn from_bytes(byte: u8, word: [u8; 4]) -> TraceData {
        TraceData {
            severity: byte,
            hour: u32::from_be_bytes(word),
        }
    }
}

fn in_limits(d: TraceData) -> bool
    ensures { result ≡ trace_fits d }
{
    d.severity <= GREATEST_SEVERITY && d.hour <= LATEST_HOUR
}

fn worst_of(d: TraceData, kids: PerKid<Worst>) -> Worst
    ensures { result ≡ worst_of d kids.first kids.second kids.third }
{
    let PerKid {
        first: a,
        second: b,
        third: c,
    } = kids;
    let severity = d.severity.max(a.severity).max(b.severity.max(c.severity));
    let hour = d.hour.max(a.hour).max(b.hour.max(c.hour));
    Worst { severity, hour }
}
