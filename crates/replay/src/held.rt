// The store that a sheet has opened, and what one line does to it.
ghost use Rattle.std.specs.Prelude.{◌≡◌, ◌≤◌, Option, IfErr, IfOk, MatchOption, OnErr, OnOk, Some};
ghost use Rattle.replay.specs.Openings.{OpenedOnSheet, OpeningRefused};
ghost use Rattle.replay.specs.Stages.{asked_on};
ghost use Rattle.replay.specs.Standing.{CarriesOutLine};
ghost use Rattle.replay.specs.declared.requests.Request.TheVariants.{Open, Begin, Turn};
ghost use Rattle.sheet.specs.declared.lines.Values.{Values};

use crate::numbers::OnSheet;
use crate::opening::open;
use crate::replies::{MALFORMED, NO_STORE, code_alone, reply_to};
use crate::requests::{Opening, Request, asked_for};
use crate::turning::{entries_of_all, turn_up_to};
use kinds::kind::Kind;
use model::calls::{Asked, Event};
use orders::limits::Party;
use orders::stride::Stride;
use session::session::Session;
use sheet::lines::Line;
use sheet::replies::Reply;
use std::alloc::{AllocError, Global};
use store::errors::OpenError;

// Carries out one line.
pub(crate) fn answer<K: OnSheet>(
    held: &mut Option<Session<K, Stride, Stride>>,
    heap: Global,
    line: Line,
) -> Result<Reply, AllocError>
    ensures { IfOk result (λ reply. CarriesOutLine K.OnSheet.numbers line.number line.values held.old held.new reply) }
{
    let Some(values) = line.values else {
        return Ok(code_alone(line.number, MALFORMED));
    };
    let Some(request) = asked_for::<K>(values) else {
        return Ok(code_alone(line.number, MALFORMED));
    };
    match request {
        Request::Open(opening) => open_another(held, heap, line.number, opening),
        Request::Begin(party, asked) => Ok(begin(held, line.number, party, asked)),
        Request::Turn(party, most) => Ok(turn(held, line.number, party, most)),
    }
}

// Opens a store in place of the one that stands.
fn open_another<K: OnSheet>(
    held: &mut Option<Session<K, Stride, Stride>>,
    heap: Global,
    number: usize,
    opening: Opening,
) -> Result<Reply, AllocError>
    ensures { IfOk result (λ reply. (values : Option Values) → asked_on K.OnSheet.numbers values ≡ Some (Open opening) → CarriesOutLine K.OnSheet.numbers number values held.old held.new reply) }
{
    match open_in_place(held, heap, opening) {
        Ok(()) => Ok(code_alone(number, 0)),
        Err(OpenError::Refused(refusal)) => Ok(code_alone(number, refusal.number())),
        Err(OpenError::NoMemory(e)) => Err(e),
    }
}

// The new store takes the place of the old one only when it stands.
fn open_in_place<K: Kind>(
    held: &mut Option<Session<K, Stride, Stride>>,
    heap: Global,
    opening: Opening,
) -> Result<(), OpenError>
    ensures opened { OnOk result (MatchOption held.new ⊥ (λ s. OpenedOnSheet opening s)) }
    ensures refused { IfErr result (λ e. OpeningRefused opening e) }
    ensures kept { OnErr result (held.new ≡ held.old) }
{
    let session = open::<K>(heap, opening)?;
    *held = Some(session);
    Ok(())
}

fn begin<K: OnSheet>(
    held: &mut Option<Session<K, Stride, Stride>>,
    number: usize,
    party: Party,
    asked: Asked<K::Data>,
) -> Reply
    ensures { (values : Option Values) → asked_on K.OnSheet.numbers values ≡ Some (Begin party asked) → CarriesOutLine K.OnSheet.numbers number values held.old held.new result }
{
    let Some(session) = held else {
        return code_alone(number, NO_STORE);
    };
    let entries = entries_of_all(session);
    reply_to::<K>(
        number,
        session.carry_out(Event::Begins(party, asked, entries)),
    )
}

fn turn<K: OnSheet>(
    held: &mut Option<Session<K, Stride, Stride>>,
    number: usize,
    party: Party,
    most: u16,
) -> Reply
    requires { 1 ≤ most }
    ensures { (values : Option Values) → asked_on K.OnSheet.numbers values ≡ Some (Turn party most) → CarriesOutLine K.OnSheet.numbers number values held.old held.new result }
{
    let Some(session) = held else {
        return code_alone(number, NO_STORE);
    };
    reply_to::<K>(number, turn_up_to(session, party, most))
}
