ghost use Rattle.std.specs.Prelude.{◌≡◌};
ghost use Rattle.replay.specs.Numbers.{byte_or, word_or};
ghost use Rattle.replay.specs.Requests.{begin_on, begin_call_on, opening_on, plan_on, request_on, turns_on, walk_on};

use crate::numbers::OnSheet;
use kinds::kids::PerKid;
use model::calls::{Asked, Call, Walk};
use model::nodes::Slot;
use model::running::Plan;
use orders::limits::Party;
use sheet::letters::Letter;
use sheet::lines::Values;

// What a line asks for. Numbers that are too large or too small for what they are become ones that are refused as they are.
#[derive(Clone, Copy, Debug, PartialEq, Eq)]
pub enum Request<D> {
    // a new store: nodes, parties, and the strides of their orders
    Open(Opening),
    Begin(Party, Asked<D>),
    // up to so many turns of what the party is running
    Turn(Party, u16),
}

// How a store is to be opened.
#[derive(Clone, Copy, Debug, PartialEq, Eq)]
pub struct Opening {
    pub nodes: u32,
    pub parties: u32,
    pub node_stride: u32,
    pub party_stride: u32,
}

// A line asks for so many turns at most.
pub const MOST_TURNS: i32 = 9_999;

// A number that no byte can hold is no party, no slot and no kid.
fn byte(value: i32) -> u8
    ensures { result ≡ byte_or 0 value }
{
    u8::try_from(value).unwrap_or(0)
}

// No slot; 0 stands for a missing kid.
const NO_KID_SLOT: u8 = 255;

fn kid_slot(value: i32) -> Slot
    ensures { result ≡ byte_or 255 value }
{
    u8::try_from(value).unwrap_or(NO_KID_SLOT)
}

fn size(value: i32) -> u32
    ensures { result ≡ word_or 0 value }
{
    u32::try_from(value).unwrap_or(0)
}

// What is asked for by this line of values; none where its party or its number of turns makes no sense, whatever a store says.
pub fn asked_for<K: OnSheet>(values: Values) -> Option<Request<K::Data>>
    ensures { result ≡ request_on K.OnSheet.numbers.on_sheet values }
{
    let party = byte(values.party);
    let slot = byte(values.a);
    match values.call {
        Letter::NewStore => opening_asked_for(values).map(|o| Request::Open(o)),
        Letter::Turns => turns_asked_for(values.a).map(|n| Request::Turn(party, n)),
        Letter::Walk => Some(begin(values, Asked::AsksWalk(walk_asked_for(values)))),
        Letter::Make => Some(begin_call(values, Call::Make(plan_asked_for::<K>(values)))),
        Letter::Read => Some(begin_call(values, Call::Read)),
        Letter::Keep => Some(begin_call(values, Call::Keep(slot))),
        Letter::Drop => Some(begin_call(values, Call::Drop(slot))),
        Letter::Hand => Some(begin_call(values, Call::Hand(slot, byte(values.fourth)))),
        Letter::Fetch => Some(begin_call(values, Call::Fetch(slot))),
        Letter::Enter => Some(begin_call(values, Call::Enter(slot))),
        Letter::Down => Some(begin_call(values, Call::Down(slot))),
        Letter::Up => Some(begin_call(values, Call::Up)),
        Letter::Leave => Some(begin_call(values, Call::Leave)),
        Letter::Sweep => Some(begin_call(values, Call::Sweep)),
    }
}

// Begins it for the party of the line.
fn begin<D>(values: Values, asked: Asked<D>) -> Request<D>
    ensures { result ≡ begin_on values asked }
{
    Request::Begin(byte(values.party), asked)
}

fn begin_call<D>(values: Values, call: Call<D>) -> Request<D>
    ensures { result ≡ begin_call_on values call }
{
    begin(values, Asked::AsksCall(call))
}

fn opening_asked_for(values: Values) -> Option<Opening>
    ensures { result ≡ opening_on values }
{
    if values.party != 0 {
        return None;
    }
    Some(Opening {
        nodes: size(values.a),
        parties: size(values.fourth),
        node_stride: size(values.fifth),
        party_stride: size(values.d),
    })
}

fn turns_asked_for(value: i32) -> Option<u16>
    ensures { result ≡ turns_on value }
{
    if !(1..=MOST_TURNS).contains(&value) {
        return None;
    }
    Some(value as u16)
}

fn walk_asked_for(values: Values) -> Walk
    ensures { result ≡ walk_on values }
{
    Walk {
        slot: byte(values.a),
        range: values.fourth,
        gear: values.fifth,
        temperature: values.d,
    }
}

fn plan_asked_for<K: OnSheet>(values: Values) -> Plan<K::Data>
    ensures { result ≡ plan_on K.OnSheet.numbers.on_sheet values }
{
    Plan {
        slot: byte(values.a),
        kids: PerKid {
            first: kid_slot(values.d),
            second: kid_slot(values.e),
            third: kid_slot(values.f),
        },
        given: K::read_data(values.fourth, values.fifth),
    }
}
