ghost use Rattle.std.specs.Prelude.{◌≡◌};
ghost use Rattle.std.proofs.Common.{rules};
ghost use Rattle.replay.specs.Numbers.{SheetNumbers, ReadAgain, OthersFitNoKids, of_maps, of_traces};
ghost use Rattle.replay.specs.NumbersLemmas.{other_map_numbers, other_trace_numbers};

use kinds::kind::Kind;
use kinds::maps::{Kpa, MapData, Maps};
use kinds::traces::{TraceData, Traces, Worst};

// A kind whose data and worths stand on a sheet as two numbers each.
pub trait OnSheet: Kind {
    // how data and worths stand on a sheet
    ghost numbers: { SheetNumbers Self.Data Self.Worth };

    fn read_data(fourth: i32, fifth: i32) -> Self::Data
        ensures { result ≡ numbers.on_sheet fourth fifth };

    fn show_data(d: Self::Data) -> (i64, i64)
        ensures { result ≡ numbers.data_numbers d };

    fn show_worth(w: Self::Worth) -> (i64, i64)
        ensures { result ≡ numbers.worth_numbers w };

    ghost read_again: { ReadAgain numbers Self.storable };

    ghost others_fit_no_kids: { OthersFitNoKids numbers Self.storable Self.suits };
}

// A code that no byte can hold is read as one that is not listed.
const NO_CODE: u8 = 255;

impl OnSheet for Maps {
    ghost numbers = { of_maps };

    ghost read_again = { Prim.search rules };

    ghost others_fit_no_kids = { other_map_numbers };

    fn read_data(fourth: i32, fifth: i32) -> MapData {
        MapData {
            code: u8::try_from(fourth).unwrap_or(NO_CODE),
            number: fifth,
        }
    }

    fn show_data(d: MapData) -> (i64, i64) {
        (i64::from(d.code), i64::from(d.number))
    }

    fn show_worth(w: Kpa) -> (i64, i64) {
        (i64::from(w), 0)
    }
}

// A severity or an hour that is no good is read as one beyond its limit.
const NO_SEVERITY: u8 = 255;

const NO_HOUR: u32 = u32::MAX;

impl OnSheet for Traces {
    ghost numbers = { of_traces };

    ghost read_again = { Prim.search rules };

    ghost others_fit_no_kids = { other_trace_numbers };

    fn read_data(fourth: i32, fifth: i32) -> TraceData {
        TraceData {
            severity: u8::try_from(fourth).unwrap_or(NO_SEVERITY),
            hour: u32::try_from(fifth).unwrap_or(NO_HOUR),
        }
    }

    fn show_data(d: TraceData) -> (i64, i64) {
        (i64::from(d.severity), i64::from(d.hour))
    }

    fn show_worth(w: Worst) -> (i64, i64) {
        (i64::from(w.severity), i64::from(w.hour))
    }
}
