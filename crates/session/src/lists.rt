// What the walks of one party note: a mark and a worth for each node of the store.
#[derive(Drop)]
pub struct WalkLists<W> {
    pub marks: Vec<bool>,
    pub worths: Vec<W>,
}
