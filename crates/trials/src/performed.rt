// A list of commands performed on a new store: what each is told, and what stands at the end.
use crate::unit::{ended_at, make};
use kinds::maps::{MapData, Maps};
use model::calls::{Asked, Call, Event, Lengths, Walk};
use model::outcomes::{Answer, Progress};
use model::shown::outcome_number;
use orders::limits::Party;
use orders::stride::Stride;
use session::perform::perform;
use std::test::Fail;

const ALL: Lengths = Lengths {
    entries: 2,
    marks: 2,
    worths: 2,
};

const SHORT: Lengths = Lengths {
    entries: 1,
    marks: 2,
    worths: 2,
};

const WALK: Walk = Walk {
    slot: 1,
    range: 0,
    gear: 3,
    temperature: 90,
};

// Party 1 makes a node of 350 in fourteen turns; then party 2's data list is too short, and it has nothing to turn.
fn commands() -> [Event<MapData>; 17] {
    let mut commands = [Event::Turns(1, ALL); 17];
    let node = make(1, [0, 0, 0], 0, 350);
    commands[0] = Event::Begins(1, Asked::AsksCall(node), ALL);
    commands[15] = Event::Begins(2, Asked::AsksCall(Call::Sweep), SHORT);
    commands[16] = Event::Turns(2, ALL);
    commands
}

const NUMBERS: [u8; 17] = [
    0, 100, 100, 100, 100, 100, 100, 100, 100, 100, 100, 100, 100, 100, 0, 6, 12,
];

#[test]
fn commands_performed(rt: HostRuntime) -> Result<(), Fail> {
    let order = Stride::new(2, 1)?;
    let done = perform::<Maps, Stride, Stride>(rt.alloc(), 2, 2, order, order, &commands())?;
    assert_eq!(rt; done.outcomes.len(), 17);
    for (outcome, number) in done.outcomes.iter().zip(NUMBERS) {
        assert_eq!(rt; outcome_number(outcome), number);
    }
    assert_eq!(rt; ended_at(done.outcomes[14]), 2);
    assert_eq!(rt; done.session.store().count(2), 1);
    assert_eq!(rt; done.session.entries()[1].number, 350);
    Ok(())
}

// Each party makes a node in fourteen turns, party 1 node 2 of 350 and party 2 node 1 of 70; then they walk over these,
// taking turns.
fn two_walks() -> [Event<MapData>; 40] {
    let mut commands = [Event::Turns(1, ALL); 40];
    commands[0] = begun(1, 350);
    for i in 16..30 {
        commands[i] = Event::Turns(2, ALL);
    }
    commands[15] = begun(2, 70);
    commands[30] = Event::Begins(1, Asked::AsksWalk(WALK), ALL);
    commands[31] = Event::Begins(2, Asked::AsksWalk(WALK), ALL);
    for i in 0..4 {
        commands[32 + 2 * i] = Event::WalkTurns(1, ALL);
        commands[33 + 2 * i] = Event::WalkTurns(2, ALL);
    }
    commands
}

fn begun(party: Party, number: i32) -> Event<MapData> {
    let node = make(1, [0, 0, 0], 0, number);
    Event::Begins(party, Asked::AsksCall(node), ALL)
}

#[test]
fn each_walk_notes_on_its_own_partys_lists(rt: HostRuntime) -> Result<(), Fail> {
    let order = Stride::new(2, 1)?;
    let done = perform::<Maps, Stride, Stride>(rt.alloc(), 2, 2, order, order, &two_walks())?;
    for (i, party, worth, marks) in [(38, 1, 350, [false, true]), (39, 2, 70, [true, false])] {
        let walked = Ok(Progress::Ended(Answer::WorthIs(worth, 1)));
        assert!(rt; done.outcomes.get(i).copied() == Some(walked));
        let Some(lists) = done.session.lists(party) else {
            panic!(rt; "no lists");
        };
        assert!(rt; lists.marks.as_slice() == marks.as_slice());
        assert!(rt; lists.worths.contains(&worth));
    }
    Ok(())
}
