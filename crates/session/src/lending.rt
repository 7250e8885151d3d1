// A Begin or a Turn over as many entries of the lists as a command says.
ghost use Rattle.std.specs.Prelude.{◌≡◌, ℕ, length};
ghost use Rattle.cells.specs.View.{nodes_of};
ghost use Rattle.model.specs.Walks.{Notes as Noted};
ghost use Rattle.model.specs.declared.calls.Event.TheVariants.{Begins, Turns, WalkTurns};
ghost use Rattle.model.specs.declared.calls.Asked.TheVariants.{AsksCall, AsksWalk};
ghost use Rattle.session.specs.Lent.{CommandOnStore, CommandOnWalkLists};
ghost use Rattle.store.specs.Shown.{shown};

use kinds::kind::Kind;
use model::calls::{Call, Lengths, Walk};
use model::outcomes::Outcome;
use orders::limits::Party;
use orders::order::Order;
use store::store::Store;
use walks::notes::Notes;

// A party begins a call; the data list has an entry for each node.
pub(crate) fn begin<K: Kind, U: Order + Drop, V: Order + Drop>(
    store: &mut Store<K, U, V>,
    party: Party,
    call: Call<K::Data>,
    lengths: Lengths,
    data: &[K::Data],
) -> Outcome<K::Data, K::Worth>
    requires { length «data».now ≡ nodes_of store.old.cells }
    ensures { (notes : ℕ → Noted K.Worth) → CommandOnStore K.Kind U.Order V.Order (Begins party (AsksCall call) lengths) result (shown store.old «data».now) (shown store.new «data».now) notes notes }
{
    let lent = lengths.entries.min(data.len());
    store.begin(party, call, &data[..lent])
}

// The next step of a party's call.
pub(crate) fn turn<K: Kind, U: Order + Drop, V: Order + Drop>(
    store: &mut Store<K, U, V>,
    party: Party,
    lengths: Lengths,
    data: &mut [K::Data],
) -> Outcome<K::Data, K::Worth>
    requires { length «data».old ≡ nodes_of store.old.cells }
    ensures { (notes : ℕ → Noted K.Worth) → CommandOnStore K.Kind U.Order V.Order (Turns party lengths) result (shown store.old «data».old) (shown store.new «data».new) notes notes }
{
    let lent = lengths.entries.min(data.len());
    store.turn(party, &mut data[..lent])
}

// A party begins a walk; its lists have an entry for each node.
pub(crate) fn begin_walk<K: Kind, U: Order + Drop, V: Order + Drop>(
    store: &mut Store<K, U, V>,
    party: Party,
    walk: Walk,
    lengths: Lengths,
    data: &[K::Data],
    marks: &mut [bool],
    worths: &mut [K::Worth],
) -> Outcome<K::Data, K::Worth>
    requires entries { length «data».now ≡ nodes_of store.old.cells }
    requires lists { (length marks.old ≡ nodes_of store.old.cells) × (length worths.old ≡ nodes_of store.old.cells) }
    ensures { CommandOnWalkLists K.Kind U.Order V.Order party (Begins party (AsksWalk walk) lengths) result (shown store.old «data».now) (shown store.new «data».now) marks.old marks.new worths.old worths.new }
{
    let marked = lengths.marks.min(marks.len());
    let noted = lengths.worths.min(worths.len());
    let lent = lengths.entries.min(data.len());
    let (marks, _) = marks.split_at_mut(marked);
    let (worths, _) = worths.split_at_mut(noted);
    let mut notes = Notes { marks, worths };
    store.begin_walk(party, walk, &data[..lent], &mut notes)
}

// The next step of a party's walk.
pub(crate) fn turn_walk<K: Kind, U: Order + Drop, V: Order + Drop>(
    store: &mut Store<K, U, V>,
    party: Party,
    lengths: Lengths,
    data: &mut [K::Data],
    marks: &mut [bool],
    worths: &mut [K::Worth],
) -> Outcome<K::Data, K::Worth>
    requires entries { length «data».old ≡ nodes_of store.old.cells }
    requires lists { (length marks.old ≡ nodes_of store.old.cells) × (length worths.old ≡ nodes_of store.old.cells) }
    ensures { CommandOnWalkLists K.Kind U.Order V.Order party (WalkTurns party lengths) result (shown store.old «data».old) (shown store.new «data».new) marks.old marks.new worths.old worths.new }
{
    let marked = lengths.marks.min(marks.len());
    let noted = lengths.worths.min(worths.len());
    let lent = lengths.entries.min(data.len());
    let (marks, _) = marks.split_at_mut(marked);
    let (worths, _) = worths.split_at_mut(noted);
    let mut notes = Notes { marks, worths };
    store.turn_walk(party, &mut data[..lent], &mut notes)
}
